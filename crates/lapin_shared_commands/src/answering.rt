//! What follows once the input was read: it is parsed and run, the history is kept, and its text is written.
ghost use Rattle.std.specs.Prelude.{◌≡◌, ◌≤◌, ◌⊎◌, None, IfOk};
ghost use Rattle.lapin_io.specs.Numbers.{Rose, Stayed};
ghost use Rattle.lapin_inputs.specs.Format.{SaysEvents};
ghost use Rattle.lapin_inputs.specs.Outcome.{IsAnswer, IsComplete, IsWhole};
ghost use Rattle.lapin_shared_commands.specs.Outcome.{IsRun, WroteAll, WroteSome, WroteToBadLine};

use crate::printing::print_run;
use crate::running::shared_history;
use lapin_inputs::{Status, write_all};
use lapin_io::{Sink, SinkError};
use lapin_shared::{Gate, History};
use lapin_text::{Parsed, parse_events};
use lapin_types::NoMemory;
use std::alloc::Global;
use std::marker::Brand;
use std::sync::Wait;
use std::sync::ledger::Blank;
use std::thread::Threads;

/// Has so many callers make the events of an input that was read, the gate called round each step, keeps their history, and writes its text
/// behind what the sink holds. Where the first line is bad nothing is run or kept.
///
/// The status is `Fine`; `BadLine` where a line is no event, and then its number is written last; `WriteFault` where the sink failed; or
/// `NoMemory`.
pub fn answer<G: Gate, K: Sink, R: Threads + Wait + Sync>(
    rt: &R,
    alloc: Global,
    callers: usize,
    gate: &G,
    input: Vec<u8>,
    sink: &mut K,
    kept: &mut Option<History>,
) -> Status
    requires some { 1 ≤ callers }
    requires none { kept.old ≡ None }
    ensures statuses { IsAnswer result }
    ensures fine { result ≡ Status.Fine → WroteAll callers kept.new (K.written sink.old) (K.written sink.new) input.items }
    ensures bad_line { result ≡ Status.BadLine → WroteToBadLine callers kept.new (K.written sink.old) (K.written sink.new) input.items }
    ensures faultless { IsWhole result → Stayed (K.faults sink.old) (K.faults sink.new) }
    ensures complete { SaysEvents input.items → (Rose (K.faults sink.old) (K.faults sink.new) → ⊥) → IsComplete result }
    ensures fault { result ≡ Status.WriteFault → Rose (K.faults sink.old) (K.faults sink.new) }
    ensures cut_short { result ≡ Status.WriteFault → WroteSome callers kept.new (K.written sink.old) (K.written sink.new) input.items }
    ensures no_memory { result ≡ Status.NoMemory → ((sink.new ≡ sink.old) × (kept.new ≡ None))
        ⊎ WroteSome callers kept.new (K.written sink.old) (K.written sink.new) input.items }
{
    let long = input.len();
    let Ok((history, bad)) = run_input(rt, alloc, callers, gate, input) else {
        return Status::NoMemory;
    };
    let Ok(text) = print_run(alloc, long, &history, bad) else {
        return Status::NoMemory;
    };
    *kept = history;
    match (write_all(sink, &text), bad) {
        (Ok(()), None) => Status::Fine,
        (Ok(()), Some(_)) => Status::BadLine,
        (Err(SinkError::Failed), _) => Status::WriteFault,
        (Err(SinkError::NoMemory), _) => Status::NoMemory,
    }
}

/// The history of the input's events up to the first bad line, and that line's number. There is none where the first line is bad. The
/// input is let go once it was parsed.
fn run_input<G: Gate, R: Threads + Wait + Sync>(
    rt: &R,
    alloc: Global,
    callers: usize,
    gate: &G,
    input: Vec<u8>,
) -> Result<(Option<History>, Option<u64>), NoMemory>
    requires { 1 ≤ callers }
    ensures { IfOk result (λ run. IsRun callers input.items run.0 run.1) }
{
    let parsed = parse_events(alloc, &input);
    let_go(input);
    let Parsed {
        frame_max,
        events,
        bad,
    } = parsed?;
    let Some(frame_max) = frame_max else {
        drop(events);
        return Ok((None, bad));
    };
    let blank = Blank::new(callers as u64);
    let history = shared_history::<Brand, _, _>(
        rt, alloc, gate, frame_max, callers, events, blank,
    )?;
    Ok((Some(history), bad))
}

/// Lets go of an input, its room first: an allocator that gets one great block back may keep the next ones of that size.
fn let_go(input: Vec<u8>) {
    let mut input = input;
    input.truncate(1);
    input.shrink_to_fit();
}
