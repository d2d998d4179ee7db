//! The top calls over an input in memory, where no fault can come: what they promise of streams, said of values. Whoever drives the
//! program without streams calls them, as the tests of worked histories do.
ghost use Rattle.std.specs.Prelude.{◌≡◌, ◌≢◌, ◌<◌, ◌↔◌, ℕ, Some, None, length};
ghost use Rattle.lapin_inputs.specs.Format.{SaysEvents, Tells};
ghost use Rattle.lapin_inputs.specs.Outcome.{IsComplete};
ghost use Rattle.lapin_inputs.specs.Reading.{longest_input};
ghost use Rattle.lapin_commands.specs.Words.{OfCommand, SayNothing, bytes_of};
ghost use Rattle.lapin_shared_commands.specs.Words.{AreShared};
ghost use Rattle.lapin_program.specs.Format.{IsInFormat};
ghost use Rattle.lapin_program.specs.Outcome.{Prints, PrintsToBadLine};

use crate::commands::run_program;
use crate::shared::run_shared;
use lapin_inputs::Status;
use lapin_io::{SureSink, SureSource};
use lapin_shared::{Gate, History};
use std::alloc::Global;
use std::sync::Wait;
use std::thread::Threads;

/// Runs the program on these words and this input. The sink holds what it wrote.
pub fn run_in_memory(alloc: Global, words: &[String], input: Vec<u8>) -> (Status, SureSink)
    // Nothing fails by itself.
    ensures no_read_fault { result.0 ≢ Status.ReadFault }
    ensures no_write_fault { result.0 ≢ Status.WriteFault }

    // Where the input is in the format, the whole text was written or memory ran out.
    ensures complete { OfCommand words.now (λ c. IsInFormat c (Some input.items) → IsComplete result.0) }

    ensures bad_words { (result.0 ≡ Status.BadWords) ↔ SayNothing (bytes_of words.now) }
    ensures too_long { result.0 ≡ Status.InputTooLong → longest_input < length input.items }
    ensures fine { OfCommand words.now (λ c. result.0 ≡ Status.Fine → Prints c input.items None result.1) }
    ensures bad_line { OfCommand words.now (λ c. result.0 ≡ Status.BadLine → PrintsToBadLine c input.items result.1) }
{
    let mut source = SureSource::new(input);
    let mut sink = SureSink::new(alloc);
    let status = run_program(alloc, words, &mut source, &mut sink);
    (status, sink)
}

/// Does what the words `shared N` say on this input, as `run_shared`. The sink holds what it wrote.
pub fn run_shared_in_memory<G: Gate, R: Threads + Wait + Sync>(
    rt: &R,
    alloc: Global,
    words: &[String],
    gate: &G,
    input: Vec<u8>,
    kept: &mut Option<History>,
) -> (Status, SureSink)
    requires { kept.old ≡ None }

    // Nothing fails by itself.
    ensures no_read_fault { result.0 ≢ Status.ReadFault }
    ensures no_write_fault { result.0 ≢ Status.WriteFault }

    // Where the input is in the format, the whole text was written or memory ran out.
    ensures complete { (n : ℕ) → AreShared words.now n → Tells (Some input.items) SaysEvents → IsComplete result.0 }
{
    let mut source = SureSource::new(input);
    let mut sink = SureSink::new(alloc);
    let status = run_shared(rt, alloc, words, gate, &mut source, &mut sink, kept);
    (status, sink)
}
