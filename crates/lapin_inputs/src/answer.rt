//! What an input is answered by, and the whole way of it: read, answered, written. The commands are answers; how they are told apart by
//! words stands in the crate above.
ghost use Rattle.std.specs.Prelude.{◌≡◌, ◌≢◌, ◌≤◌, ◌+◌, ◌⊎◌, ℕ, List, Option, Some, None, length, IfOk, OnOk, IsErrOf};
ghost use Rattle.std.specs.Io.KnownBytes.{Appends};
ghost use Rattle.lapin_io.specs.Numbers.{Rose, RoseBy, Stayed};
ghost use Rattle.lapin_inputs.specs.Format.{Tells};
ghost use Rattle.lapin_inputs.specs.Outcome.{HasRead, IsAnswer, IsComplete, IsWhole, WroteAll, WroteToBadLine, WroteSome};
ghost use Rattle.lapin_inputs.specs.Reading.{longest_input, IsTooLong};

use crate::input::{InputError, read_all};
use crate::printing::write_input;
use crate::run::Run;
use crate::status::Status;
use lapin_io::{Sink, SinkError, Source};
use std::alloc::Global;
use std::marker::PhantomData;

/// What an input is answered by. Nobody makes a value of such a type: it says which command is meant.
pub trait Answers {
    /// What stands behind the command's word, empty where there is none.
    ghost admits: { List ℕ → Type 0 };

    /// What is written for such a word and an input: the text, where this line is the first bad one, if there is any.
    ghost prints: { List ℕ → List ℕ → Option ℕ → List ℕ → Type 0 };

    /// Writes what the input is answered by, up to its first bad line. The number of that line.
    ///
    /// # Errors
    /// `Failed` where the sink failed, and `NoMemory`.
    fn write<K: Sink>(
        alloc: Global,
        argument: &str,
        input: &[u8],
        sink: &mut K,
    ) -> Result<Option<u64>, SinkError>
        requires argument { admits argument.now }
        requires short { length input.now ≤ longest_input }
        ensures ok { IfOk result (λ bad. (text : List ℕ) × prints argument.now input.now bad text × Appends (K.written sink.old) (K.written sink.new) text) }
        ensures faultless { OnOk result (Stayed (K.faults sink.old) (K.faults sink.new)) }
        ensures fault { IsErrOf result SinkError.Failed → Rose (K.faults sink.old) (K.faults sink.new) }
        ensures cut_short { IsErrOf result SinkError.Failed → WroteSome (K.written sink.old) (K.written sink.new) (prints argument.now input.now) }
        ensures no_memory { IsErrOf result SinkError.NoMemory → (sink.new ≡ sink.old)
            ⊎ WroteSome (K.written sink.old) (K.written sink.new) (prints argument.now input.now) };

    /// An input that is written whole has no bad line.
    ghost one: { (argument input text other : List ℕ) (line : ℕ) → prints argument input None text → prints argument input (Some line) other → ⊥ };
}

/// A command that makes a run, which takes the input's lines one by one.
pub struct ByLine<R> {
    of: PhantomData<R>,
}

impl<R: Run> Answers for ByLine<R> {
    ghost admits = { R.admits };

    ghost prints = { R.prints };

    fn write<K: Sink>(
        alloc: Global,
        argument: &str,
        input: &[u8],
        sink: &mut K,
    ) -> Result<Option<u64>, SinkError> {
        write_input::<R, K>(alloc, argument, input, sink)
    }

    ghost one = { R.one };
}

/// Reads an input, and writes what it is answered by.
pub fn answer_input<A: Answers, S: Source, K: Sink>(
    alloc: Global,
    argument: &str,
    source: &mut S,
    sink: &mut K,
) -> Status
    requires { A.admits argument.now }
    ensures words { result ≢ Status.BadWords }

    // The source failed in this call.
    ensures read_fault { result ≡ Status.ReadFault → Rose (S.faults source.old) (S.faults source.new) }
    ensures read_fault_silent { result ≡ Status.ReadFault → sink.new ≡ sink.old }

    // More bytes come than are taken. Reading stopped at the first of them.
    ensures too_long { result ≡ Status.InputTooLong → IsTooLong (S.left source.old) }
    ensures taken { result ≡ Status.InputTooLong →
        RoseBy (longest_input + 1) (S.given source.old) (S.given source.new) }
    ensures too_long_silent { result ≡ Status.InputTooLong → sink.new ≡ sink.old }

    // Otherwise the input was read to its end, and its text written.
    ensures fine { result ≡ Status.Fine →
        HasRead (S.left source.old) (S.left source.new) (S.given source.old) (S.given source.new)
        (λ input. WroteAll (K.written sink.old) (K.written sink.new) (A.prints argument.now input)) }
    ensures bad_line { result ≡ Status.BadLine →
        HasRead (S.left source.old) (S.left source.new) (S.given source.old) (S.given source.new)
        (λ input. WroteToBadLine (K.written sink.old) (K.written sink.new) (A.prints argument.now input)) }
    ensures faultless { IsWhole result → Stayed (K.faults sink.old) (K.faults sink.new) }

    // Where something is written for what the source tells whole, and neither count of faults rose, that was written or memory ran out.
    ensures complete { Tells (S.left source.old) (λ input. (text : List ℕ) × A.prints argument.now input None text)
        → (Rose (S.faults source.old) (S.faults source.new) → ⊥)
        → (Rose (K.faults sink.old) (K.faults sink.new) → ⊥)
        → IsComplete result }

    // The sink failed in this call.
    ensures write_fault { result ≡ Status.WriteFault → Rose (K.faults sink.old) (K.faults sink.new) }
    ensures cut_short { result ≡ Status.WriteFault →
        HasRead (S.left source.old) (S.left source.new) (S.given source.old) (S.given source.new)
        (λ input. WroteSome (K.written sink.old) (K.written sink.new) (A.prints argument.now input)) }

    // Memory ran out, before anything was written or behind a prefix of the text.
    ensures no_memory { result ≡ Status.NoMemory → (sink.new ≡ sink.old)
        ⊎ HasRead (S.left source.old) (S.left source.new) (S.given source.old) (S.given source.new)
        (λ input. WroteSome (K.written sink.old) (K.written sink.new) (A.prints argument.now input)) }
{
    match read_all(alloc, source) {
        Ok(input) => answer::<A, K>(alloc, argument, &input, sink),
        Err(InputError::Fault) => Status::ReadFault,
        Err(InputError::TooLong) => Status::InputTooLong,
        Err(InputError::NoMemory) => Status::NoMemory,
    }
}

// Answers the input that was read.
fn answer<A: Answers, K: Sink>(alloc: Global, argument: &str, input: &[u8], sink: &mut K) -> Status
    requires argument { A.admits argument.now }
    requires short { length input.now ≤ longest_input }
    ensures statuses { IsAnswer result }
    ensures fine { result ≡ Status.Fine → WroteAll (K.written sink.old) (K.written sink.new) (A.prints argument.now input.now) }
    ensures bad_line { result ≡ Status.BadLine → WroteToBadLine (K.written sink.old) (K.written sink.new) (A.prints argument.now input.now) }
    ensures faultless { IsWhole result → Stayed (K.faults sink.old) (K.faults sink.new) }
    ensures complete { (text : List ℕ) → A.prints argument.now input.now None text → (Rose (K.faults sink.old) (K.faults sink.new) → ⊥) → IsComplete result }
    ensures fault { result ≡ Status.WriteFault → Rose (K.faults sink.old) (K.faults sink.new) }
    ensures cut_short { result ≡ Status.WriteFault → WroteSome (K.written sink.old) (K.written sink.new) (A.prints argument.now input.now) }
    ensures no_memory { result ≡ Status.NoMemory → (sink.new ≡ sink.old)
        ⊎ WroteSome (K.written sink.old) (K.written sink.new) (A.prints argument.now input.now) }
{
    match A::write::<K>(alloc, argument, input, sink) {
        Ok(None) => Status::Fine,
        Ok(Some(_)) => Status::BadLine,
        Err(SinkError::Failed) => Status::WriteFault,
        Err(SinkError::NoMemory) => Status::NoMemory,
    }
}
