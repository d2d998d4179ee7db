//! What follows once the input was read: it is parsed and run, what that leaves is kept, and its text is written.
ghost use Rattle.std.specs.Prelude.{◌≡◌, ◌≤◌, ◌⊎◌, None, IfOk};
ghost use Rattle.lapin_io.specs.Numbers.{Rose, Stayed};
ghost use Rattle.lapin_inputs.specs.Format.{SaysEvents};
ghost use Rattle.lapin_inputs.specs.Outcome.{IsAnswer, IsComplete, IsWhole};
ghost use Rattle.lapin_pool_commands.specs.Outcome.{IsRun, WroteAll, WroteSome, WroteToBadLine};

use crate::printing::print_end;
use crate::running::pool_end;
use lapin_inputs::{Status, write_all};
use lapin_io::{Sink, SinkError};
use lapin_pool::PoolEnd;
use lapin_shared::Gate;
use lapin_text::{Parsed, parse_events};
use lapin_types::NoMemory;
use std::alloc::Global;
use std::marker::Brand;
use std::sync::Wait;
use std::sync::ledger::Blank;
use std::thread::Threads;

/// Has one caller make the events of an input that was read, and so many others work on the deliveries that these brought, the gate called
/// round each judgement; keeps what that leaves, and writes its text behind what the sink holds. Where the first line is bad nothing is run
/// or kept.
///
/// The status is `Fine`; `BadLine` where a line is no event, and then its number is written last; `WriteFault` where the sink failed; or
/// `NoMemory`.
pub fn answer<G: Gate, K: Sink, R: Threads + Wait + Sync>(
    rt: &R,
    alloc: Global,
    workers: usize,
    gate: &G,
    input: &[u8],
    sink: &mut K,
    kept: &mut Option<PoolEnd>,
) -> Status
    requires few { workers ≤ 64 }
    requires none { kept.old ≡ None }
    ensures statuses { IsAnswer result }
    ensures fine { result ≡ Status.Fine → WroteAll workers kept.new (K.written sink.old) (K.written sink.new) input.now }
    ensures bad_line { result ≡ Status.BadLine → WroteToBadLine workers kept.new (K.written sink.old) (K.written sink.new) input.now }
    ensures faultless { IsWhole result → Stayed (K.faults sink.old) (K.faults sink.new) }
    ensures complete { SaysEvents input.now → (Rose (K.faults sink.old) (K.faults sink.new) → ⊥) → IsComplete result }
    ensures fault { result ≡ Status.WriteFault → Rose (K.faults sink.old) (K.faults sink.new) }
    ensures cut_short { result ≡ Status.WriteFault → WroteSome workers kept.new (K.written sink.old) (K.written sink.new) input.now }
    ensures no_memory { result ≡ Status.NoMemory → ((sink.new ≡ sink.old) × (kept.new ≡ None))
        ⊎ WroteSome workers kept.new (K.written sink.old) (K.written sink.new) input.now }
{
    let Ok((end, bad)) = run_input(rt, alloc, workers, gate, input) else {
        return Status::NoMemory;
    };
    let Ok(text) = print_end(alloc, &end, bad) else {
        return Status::NoMemory;
    };
    *kept = end;
    match (write_all(sink, &text), bad) {
        (Ok(()), None) => Status::Fine,
        (Ok(()), Some(_)) => Status::BadLine,
        (Err(SinkError::Failed), _) => Status::WriteFault,
        (Err(SinkError::NoMemory), _) => Status::NoMemory,
    }
}

// What the input's events up to the first bad line leave, and that line's number. Nothing is run where the first line is bad.
fn run_input<G: Gate, R: Threads + Wait + Sync>(
    rt: &R,
    alloc: Global,
    workers: usize,
    gate: &G,
    input: &[u8],
) -> Result<(Option<PoolEnd>, Option<u64>), NoMemory>
    requires { workers ≤ 64 }
    ensures { IfOk result (λ run. IsRun workers input.now run.0 run.1) }
{
    let Parsed {
        frame_max,
        events,
        bad,
    } = parse_events(alloc, input)?;
    let Some(frame_max) = frame_max else {
        drop(events);
        return Ok((None, bad));
    };
    let blank = Blank::new(workers as u64 + 1);
    let end = pool_end::<Brand, _, _>(rt, alloc, gate, frame_max, workers, events, blank)?;
    Ok((Some(end), bad))
}
