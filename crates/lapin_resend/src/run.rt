//! A whole run of a publisher that sends again: the report of each step.

ghost use Rattle.std.specs.Prelude.{◌≡◌, ◌≤◌, ◌<◌, ◌+◌, ◌++◌, ◌∷◌, [], ℕ, List, length, OnOk, OnErr};
ghost use Rattle.lapin_resend.specs.declared.step.ResendStep.{ResendStep as AStep};
ghost use Rattle.lapin_resend.specs.Resend.{resend};
ghost use Rattle.lapin_resend.specs.Sending.{StandsForSteps, most_steps};
ghost use Rattle.lapin_machine.specs.Growing.{IsStarted};
ghost use Rattle.lapin_resend.specs.Running.{GoesOnBy};

use crate::sender::Resend;
use crate::step::{ResendReport, ResendStep};
use lapin_types::NoMemory;
use std::alloc::Global;

/// Makes the steps with a new publisher, and appends the report of each. Where there is no memory the reports so far stand.
///
/// # Errors
/// `NoMemory` alone.
pub fn run_resend(
    alloc: Global,
    frame_max: u32,
    steps: Vec<ResendStep>,
    report: &mut Vec<ResendReport>,
) -> Result<(), NoMemory>
    requires max { 4096 ≤ frame_max }
    requires few { length steps.items < most_steps }
    ensures ok { OnOk result (report.new.items ≡ report.old.items ++ resend frame_max steps.items) }
    ensures err { OnErr result (IsStarted report.old.items report.new.items (resend frame_max steps.items)) }
{
    let Ok(mut made) = Resend::new(alloc, frame_max) else {
        drop(steps);
        return Err(NoMemory);
    };
    for step in steps {
        add(alloc, &mut made, step, report)?;
    }
    Ok(())
}

// Makes a step and appends its report.
fn add(
    alloc: Global,
    run: &mut Resend,
    step: ResendStep,
    report: &mut Vec<ResendReport>,
) -> Result<(), NoMemory>
    requires { run.old.steps < most_steps }
    ensures told { OnOk result ((n : ℕ) (steps : List AStep) → StandsForSteps n steps run.old → GoesOnBy n steps step report.old.items report.new.items × StandsForSteps n (steps ++ step ∷ []) run.new) }
    ensures err { OnErr result (report.new.items ≡ report.old.items) }
{
    if report.reserve(1).is_err() {
        drop(step);
        return Err(NoMemory);
    }
    match run.step(alloc, step) {
        Ok(told) => {
            report.push_reserved(told);
            Ok(())
        }
        Err(_) => Err(NoMemory),
    }
}
