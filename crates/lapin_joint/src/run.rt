//! A whole joined run: a new session and a new broker, and the report of each step.

ghost use Rattle.std.specs.Prelude.{◌≡◌, ◌≤◌, ◌<◌, ◌+◌, ◌^◌, ◌++◌, ◌∷◌, [], false, length, OnOk, OnErr};
ghost use Rattle.lapin_joint.specs.Joint.{report as report_lem, after, joined, reports};
ghost use Rattle.lapin_machine.specs.Way.{by_machine};
ghost use Rattle.lapin_machine.specs.Growing.{IsStarted};

use crate::joined::Joined;
use crate::step::{Reported, Step};
use lapin_types::NoMemory;
use std::alloc::Global;

/// Joins a new session and a new free broker by two empty links, and appends the report of each step, as the list of steps
/// determines it. Where there is no memory the reports so far stand.
///
/// # Errors
/// `NoMemory` alone.
pub fn run_joined(
    alloc: Global,
    frame_max: u32,
    steps: Vec<Step>,
    report: &mut Vec<Reported>,
) -> Result<(), NoMemory>
    requires { 4096 ≤ frame_max }
    ensures ok { OnOk result (report.new.items ≡ report.old.items ++ joined frame_max steps.items) }
    ensures err { OnErr result (IsStarted report.old.items report.new.items (joined frame_max steps.items)) }
{
    report.reserve_exact(steps.len())?;
    let mut made = Joined::new(alloc, frame_max)?;
    run_steps(alloc, &mut made, steps, report)
}

// Appends the report of each step. For want of memory it stops, and what it appended stays.
fn run_steps(
    alloc: Global,
    run: &mut Joined,
    steps: Vec<Step>,
    report: &mut Vec<Reported>,
) -> Result<(), NoMemory>
    requires { run.old.steps + length steps.items < 2 ^ 64 }
    ensures ok { OnOk result (report.new.items ≡ report.old.items ++ reports by_machine steps.items run.old.joint) }
    ensures err { OnErr result (IsStarted report.old.items report.new.items (reports by_machine steps.items run.old.joint)) }
{
    for step in steps {
        add(alloc, run, step, report)?;
    }
    Ok(())
}

// Makes a step and appends its report. Where there is no memory the reports stay.
fn add(
    alloc: Global,
    run: &mut Joined,
    step: Step,
    report: &mut Vec<Reported>,
) -> Result<(), NoMemory>
    requires { run.old.steps + 1 < 2 ^ 64 }
    ensures ok { OnOk result (run.new ≡ record { joint = after by_machine step run.old.joint; steps = run.old.steps + 1; stopped = false }) }
    ensures grown { OnOk result (report.new.items ≡ report.old.items ++ report_lem by_machine step run.old.joint ∷ []) }
    ensures err { OnErr result (report.new.items ≡ report.old.items) }
{
    if report.reserve(1).is_err() {
        drop(step);
        return Err(NoMemory);
    }
    match run.step(alloc, step) {
        Ok(reported) => {
            report.push_reserved(reported);
            Ok(())
        }
        Err(_) => Err(NoMemory),
    }
}
