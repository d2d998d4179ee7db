//! A whole run of calls over queues: a new session, and the report of each step.

ghost use Rattle.std.specs.Prelude.{◌≡◌, ◌≤◌, ◌+◌, ◌++◌, ◌∷◌, [], false, OnOk, OnErr};
ghost use Rattle.lapin_machine.specs.Way.{by_machine};
ghost use Rattle.lapin_call.specs.Calls.{report as report_lem, after, calls, reports};
ghost use Rattle.lapin_machine.specs.Growing.{IsStarted};

use crate::calls::Calls;
use crate::step::{CallReport, CallStep};
use lapin_types::{NoMemory, ShortString};
use std::alloc::Global;

/// Makes a new session whose channel 1 publishes requests and consumes their replies from the queue, and appends the report of each
/// step, as the list of steps determines it. Where there is no memory the reports so far stand.
///
/// # Errors
/// `NoMemory` alone.
pub fn run_calls(
    alloc: Global,
    frame_max: u32,
    queue: ShortString,
    steps: Vec<CallStep>,
    report: &mut Vec<CallReport>,
) -> Result<(), NoMemory>
    requires frame_max { 4096 ≤ frame_max }
    ensures ok { OnOk result (report.new.items ≡ report.old.items ++ calls frame_max queue steps.items) }
    ensures err { OnErr result (IsStarted report.old.items report.new.items (calls frame_max queue steps.items)) }
{
    report.reserve_exact(steps.len())?;
    let mut made = Calls::new(alloc, frame_max, queue)?;
    run_steps(alloc, &mut made, steps, report)
}

// Appends the report of each step. For want of memory it stops, and what it appended stays.
fn run_steps(
    alloc: Global,
    run: &mut Calls,
    steps: Vec<CallStep>,
    report: &mut Vec<CallReport>,
) -> Result<(), NoMemory>
    ensures ok { OnOk result (report.new.items ≡ report.old.items ++ reports by_machine steps.items run.old.requester) }
    ensures err { OnErr result (IsStarted report.old.items report.new.items (reports by_machine steps.items run.old.requester)) }
{
    for step in steps {
        add(alloc, run, step, report)?;
    }
    Ok(())
}

// Makes a step and appends its report. Where there is no memory the reports stay.
fn add(
    alloc: Global,
    run: &mut Calls,
    step: CallStep,
    report: &mut Vec<CallReport>,
) -> Result<(), NoMemory>
    ensures ok { OnOk result (run.new ≡ record { requester = after by_machine step run.old.requester; steps = run.old.steps + 1; stopped = false }) }
    ensures grown { OnOk result (report.new.items ≡ report.old.items ++ report_lem by_machine step run.old.requester ∷ []) }
    ensures err { OnErr result (report.new.items ≡ report.old.items) }
{
    if report.reserve(1).is_err() {
        drop(step);
        return Err(NoMemory);
    }
    match run.step(alloc, step) {
        Ok(reported) => {
            report.push_reserved(reported);
            Ok(())
        }
        Err(_) => Err(NoMemory),
    }
}
