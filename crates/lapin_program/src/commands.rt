//! The top call of every command on one thread. `main` calls it with the real source and sink, tests with some in memory.
ghost use Rattle.std.specs.Prelude.{◌≡◌, ◌≤◌, ◌+◌, ◌↔◌, ◌⊎◌, None};
ghost use Rattle.lapin_io.specs.Numbers.{Rose, RoseBy, Stayed};
ghost use Rattle.lapin_inputs.specs.Outcome.{IsComplete, IsUnread, IsWhole, WroteAll, WroteToBadLine, WroteSome};
ghost use Rattle.lapin_inputs.specs.Reading.{longest_input, IsTooLong};
ghost use Rattle.lapin_generate.specs.Generated.{most_publishes};
ghost use Rattle.lapin_commands.specs.Generate.{PrintsGenerated};
ghost use Rattle.lapin_commands.specs.Words.{OfCommand, SayNothing, bytes_of};
ghost use Rattle.lapin_program.specs.Format.{IsInFormat};
ghost use Rattle.lapin_program.specs.Outcome.{HasRun, WhereUnread};

use lapin_commands::{
    Command, OfCalls, OfCheck, OfJoined, OfResend, OfSession, print_generated, read_words,
};
use lapin_inputs::{ByLine, Status, answer_input, write_all};
use lapin_io::{Sink, SinkError, Source};
use std::alloc::Global;

/// Does what the words say. `session`, `joined`, `resend` and `call QUEUE` read a `frame_max` and events or steps, run them in a
/// session, alone, joined to a broker, under a publisher that sends again, or under calls whose replies come to the queue, and write a
/// line for each. `check` reads what a broker read and sent, and writes what is found in it. `generate N` reads nothing, and writes what
/// a run of N publishes came to. Words, reading, parsing, running and writing are tried in this order.
pub fn run_program<S: Source, K: Sink>(
    alloc: Global,
    words: &[String],
    source: &mut S,
    sink: &mut K,
) -> Status
    // Bad words: then nothing is read and nothing written.
    ensures bad_words { (result ≡ Status.BadWords) ↔ SayNothing (bytes_of words.now) }
    ensures unread { result ≡ Status.BadWords → source.new ≡ source.old }
    ensures unwritten { result ≡ Status.BadWords → sink.new ≡ sink.old }

    // The source failed in this call.
    ensures read_fault { result ≡ Status.ReadFault → Rose (S.faults source.old) (S.faults source.new) }
    ensures read_fault_silent { result ≡ Status.ReadFault → sink.new ≡ sink.old }

    // More bytes come than are taken. Reading stopped at the first of them.
    ensures too_long { result ≡ Status.InputTooLong → IsTooLong (S.left source.old) }
    ensures taken { result ≡ Status.InputTooLong →
        RoseBy (longest_input + 1) (S.given source.old) (S.given source.new) }
    ensures too_long_silent { result ≡ Status.InputTooLong → sink.new ≡ sink.old }

    // Otherwise the input was read to its end, and its text written.
    ensures fine { OfCommand words.now (λ c. result ≡ Status.Fine →
        HasRun c (S.left source.old) (S.left source.new) (S.given source.old) (S.given source.new)
        (WroteAll (K.written sink.old) (K.written sink.new))) }
    ensures bad_line { OfCommand words.now (λ c. result ≡ Status.BadLine →
        HasRun c (S.left source.old) (S.left source.new) (S.given source.old) (S.given source.new)
        (WroteToBadLine (K.written sink.old) (K.written sink.new))) }

    // In both cases no write failed.
    ensures faultless { IsWhole result → Stayed (K.faults sink.old) (K.faults sink.new) }

    // Where what is read is in the format, and neither count of faults rose, the whole text was written or memory ran out.
    ensures complete { OfCommand words.now (λ c. IsInFormat c (S.left source.old)
        → (Rose (S.faults source.old) (S.faults source.new) → ⊥)
        → (Rose (K.faults sink.old) (K.faults sink.new) → ⊥)
        → IsComplete result) }

    // The sink failed in this call.
    ensures write_fault { result ≡ Status.WriteFault → Rose (K.faults sink.old) (K.faults sink.new) }
    ensures cut_short { OfCommand words.now (λ c. result ≡ Status.WriteFault →
        HasRun c (S.left source.old) (S.left source.new) (S.given source.old) (S.given source.new)
        (WroteSome (K.written sink.old) (K.written sink.new))) }

    // Memory ran out, before anything was written or behind a prefix of the text.
    ensures no_memory { OfCommand words.now (λ c. result ≡ Status.NoMemory → (sink.new ≡ sink.old)
        ⊎ HasRun c (S.left source.old) (S.left source.new) (S.given source.old) (S.given source.new)
        (WroteSome (K.written sink.old) (K.written sink.new))) }

    // A command that reads nothing has none of the ends of reading and of lines.
    ensures reads_nothing { OfCommand words.now (λ c. WhereUnread c ((source.new ≡ source.old) × IsUnread result)) }
{
    match read_words(alloc, words) {
        Ok(Some(Command::Session)) => {
            answer_input::<ByLine<OfSession>, S, K>(alloc, "", source, sink)
        }
        Ok(Some(Command::Joined)) => {
            answer_input::<ByLine<OfJoined>, S, K>(alloc, "", source, sink)
        }
        Ok(Some(Command::Resend)) => {
            answer_input::<ByLine<OfResend>, S, K>(alloc, "", source, sink)
        }
        Ok(Some(Command::Call(queue))) => {
            answer_input::<ByLine<OfCalls>, S, K>(alloc, queue.as_str(), source, sink)
        }
        Ok(Some(Command::Check)) => answer_input::<OfCheck, S, K>(alloc, "", source, sink),
        Ok(Some(Command::Generate(publishes))) => run_generated(alloc, publishes, sink),
        Ok(None) => Status::BadWords,
        Err(_) => Status::NoMemory,
    }
}

// Runs so many publishes, and writes what that came to.
fn run_generated<K: Sink>(alloc: Global, publishes: u64, sink: &mut K) -> Status
    requires { publishes ≤ most_publishes }
    ensures statuses { IsUnread result }
    ensures fine { result ≡ Status.Fine → WroteAll (K.written sink.old) (K.written sink.new) (PrintsGenerated publishes) }
    ensures faultless { IsWhole result → Stayed (K.faults sink.old) (K.faults sink.new) }
    ensures complete { (Rose (K.faults sink.old) (K.faults sink.new) → ⊥) → IsComplete result }
    ensures fault { result ≡ Status.WriteFault → Rose (K.faults sink.old) (K.faults sink.new) }
    ensures cut_short { result ≡ Status.WriteFault → WroteSome (K.written sink.old) (K.written sink.new) (PrintsGenerated publishes) }
    ensures no_memory { result ≡ Status.NoMemory → (sink.new ≡ sink.old)
        ⊎ WroteSome (K.written sink.old) (K.written sink.new) (PrintsGenerated publishes) }
{
    let Ok(text) = print_generated(alloc, publishes) else {
        return Status::NoMemory;
    };
    match write_all(sink, &text) {
        Ok(()) => Status::Fine,
        Err(SinkError::Failed) => Status::WriteFault,
        Err(SinkError::NoMemory) => Status::NoMemory,
    }
}
