//! The top call of the words `shared N`. `main` calls it with the real source and sink, tests with some in memory.
ghost use Rattle.std.specs.Prelude.{◌≡◌, ◌+◌, ◌↔◌, ◌⊎◌, ℕ, None};
ghost use Rattle.lapin_io.specs.Numbers.{Rose, RoseBy, Stayed};
ghost use Rattle.lapin_inputs.specs.Format.{SaysEvents, Tells};
ghost use Rattle.lapin_inputs.specs.Outcome.{HasRead, IsComplete, IsWhole};
ghost use Rattle.lapin_inputs.specs.Reading.{longest_input, IsTooLong};
ghost use Rattle.lapin_shared_commands.specs.Outcome.{WroteAll, WroteSome, WroteToBadLine};
ghost use Rattle.lapin_shared_commands.specs.Words.{AreShared};

use lapin_inputs::{InputError, Status, read_all};
use lapin_io::{Sink, Source};
use lapin_shared::{Gate, History};
use lapin_shared_commands::{answer, shared_callers};
use std::alloc::Global;
use std::sync::Wait;
use std::thread::Threads;

/// Does what the words `shared N` say: N callers of one session make the events of the input, each on a thread of its own where one can
/// be made, event k, from 1, by caller ((k - 1) mod N) + 1. Before each step its caller calls `gate.before`, and once it was made
/// `gate.after`, both outside the lock and with the event's number. Then it writes the history as it was stored, and keeps it.
pub fn run_shared<G: Gate, S: Source, K: Sink, R: Threads + Wait + Sync>(
    rt: &R,
    alloc: Global,
    words: &[String],
    gate: &G,
    source: &mut S,
    sink: &mut K,
    kept: &mut Option<History>,
) -> Status
    requires { kept.old ≡ None }

    // Bad words: then nothing is read, written or kept.
    ensures bad_words { (result ≡ Status.BadWords) ↔ ((n : ℕ) → AreShared words.now n → ⊥) }
    ensures unread { result ≡ Status.BadWords → source.new ≡ source.old }
    ensures unwritten { result ≡ Status.BadWords → sink.new ≡ sink.old }
    ensures unkept { result ≡ Status.BadWords → kept.new ≡ None }

    // The source failed in this call.
    ensures read_fault { result ≡ Status.ReadFault → Rose (S.faults source.old) (S.faults source.new) }
    ensures read_fault_silent { result ≡ Status.ReadFault → sink.new ≡ sink.old }

    // More bytes come than are taken. Reading stopped at the first of them.
    ensures too_long { result ≡ Status.InputTooLong → IsTooLong (S.left source.old) }
    ensures taken { result ≡ Status.InputTooLong →
        RoseBy (longest_input + 1) (S.given source.old) (S.given source.new) }
    ensures too_long_silent { result ≡ Status.InputTooLong → sink.new ≡ sink.old }

    // Otherwise the input was read to its end, and what is written is the text of the history that is kept.
    ensures fine { result ≡ Status.Fine → (n : ℕ) × AreShared words.now n
        × HasRead (S.left source.old) (S.left source.new) (S.given source.old) (S.given source.new)
        (WroteAll n kept.new (K.written sink.old) (K.written sink.new)) }
    ensures bad_line { result ≡ Status.BadLine → (n : ℕ) × AreShared words.now n
        × HasRead (S.left source.old) (S.left source.new) (S.given source.old) (S.given source.new)
        (WroteToBadLine n kept.new (K.written sink.old) (K.written sink.new)) }

    // In both cases no write failed.
    ensures faultless { IsWhole result → Stayed (K.faults sink.old) (K.faults sink.new) }

    // Where the words are `shared N`, what is read is in the format, and neither count of faults rose, the whole text was written or
    // memory ran out.
    ensures complete { (n : ℕ) → AreShared words.now n → Tells (S.left source.old) SaysEvents
        → (Rose (S.faults source.old) (S.faults source.new) → ⊥)
        → (Rose (K.faults sink.old) (K.faults sink.new) → ⊥)
        → IsComplete result }

    // The sink failed in this call.
    ensures write_fault { result ≡ Status.WriteFault → Rose (K.faults sink.old) (K.faults sink.new) }
    ensures cut_short { result ≡ Status.WriteFault → (n : ℕ) × AreShared words.now n
        × HasRead (S.left source.old) (S.left source.new) (S.given source.old) (S.given source.new)
        (WroteSome n kept.new (K.written sink.old) (K.written sink.new)) }

    // Memory ran out, before anything was written and kept, or behind a prefix of the text.
    ensures no_memory { result ≡ Status.NoMemory → ((sink.new ≡ sink.old) × (kept.new ≡ None))
        ⊎ ((n : ℕ) × AreShared words.now n
        × HasRead (S.left source.old) (S.left source.new) (S.given source.old) (S.given source.new)
        (WroteSome n kept.new (K.written sink.old) (K.written sink.new))) }
{
    let Some(callers) = shared_callers(words) else {
        return Status::BadWords;
    };
    match read_all(alloc, source) {
        Ok(input) => answer(rt, alloc, callers, gate, input, sink, kept),
        Err(InputError::Fault) => Status::ReadFault,
        Err(InputError::TooLong) => Status::InputTooLong,
        Err(InputError::NoMemory) => Status::NoMemory,
    }
}
