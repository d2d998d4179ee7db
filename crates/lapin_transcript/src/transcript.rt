//! What the broker of a joined run read and sent.

ghost use Rattle.std.specs.Prelude.{◌≡◌, ◌≤◌, ◌<◌, ◌+◌, ◌^◌, ◌++◌, false, length, IfOk, OnOk, OnErr, vec_len, vec_capacity};
ghost use Rattle.lapin_joint.specs.Joint.{after};
ghost use Rattle.lapin_machine.specs.Way.{by_machine};
ghost use Rattle.lapin_joint.specs.Order.{along};
ghost use Rattle.lapin_machine.specs.Growing.{IsStarted};
ghost use Rattle.lapin_transcript.specs.Transcript.{seen_in, as_list, transcript as transcript_lem};

use lapin_check::Seen;
use lapin_joint::{Joined, Step};
use lapin_types::NoMemory;
use std::alloc::Global;

/// Makes the steps of a joined run, and appends what its broker read and sent, in order. Where there is no memory a first part of that
/// was appended.
///
/// # Errors
/// `NoMemory` alone.
pub fn transcript_of(
    alloc: Global,
    frame_max: u32,
    steps: Vec<Step>,
    transcript: &mut Vec<Seen>,
) -> Result<(), NoMemory>
    requires { 4096 ≤ frame_max }
    ensures ok { OnOk result (transcript.new.items ≡ transcript.old.items ++ transcript_lem frame_max steps.items) }
    ensures err { OnErr result (IsStarted transcript.old.items transcript.new.items (transcript_lem frame_max steps.items)) }
{
    let Ok(mut made) = Joined::new(alloc, frame_max) else {
        drop(steps);
        return Err(NoMemory);
    };
    run_steps(alloc, &mut made, steps, transcript)
}

// Appends what is seen in each step. For want of memory it stops, and what it appended stays.
fn run_steps(
    alloc: Global,
    run: &mut Joined,
    steps: Vec<Step>,
    transcript: &mut Vec<Seen>,
) -> Result<(), NoMemory>
    requires { run.old.steps + length steps.items < 2 ^ 64 }
    ensures ok { OnOk result (transcript.new.items ≡ transcript.old.items ++ along by_machine seen_in steps.items run.old.joint) }
    ensures err { OnErr result (IsStarted transcript.old.items transcript.new.items (along by_machine seen_in steps.items run.old.joint)) }
{
    for step in steps {
        add(alloc, run, step, transcript)?;
    }
    Ok(())
}

// Makes a step, and appends what is seen in it. Where there is no memory the transcript stays.
fn add(
    alloc: Global,
    run: &mut Joined,
    step: Step,
    transcript: &mut Vec<Seen>,
) -> Result<(), NoMemory>
    requires { run.old.steps + 1 < 2 ^ 64 }
    ensures ok { OnOk result (run.new ≡ record { joint = after by_machine step run.old.joint; steps = run.old.steps + 1; stopped = false }) }
    ensures grown { OnOk result (transcript.new.items ≡ transcript.old.items ++ seen_in step run.old.joint) }
    ensures err { OnErr result (transcript.new.items ≡ transcript.old.items) }
{
    if transcript.reserve(1).is_err() {
        drop(step);
        return Err(NoMemory);
    }
    match seen_by(alloc, run, &step) {
        Ok(seen) => make(alloc, run, step, seen, transcript),
        Err(error) => {
            drop(step);
            Err(error)
        }
    }
}

// What the broker reads or sends in a step, if it does.
fn seen_by(alloc: Global, run: &Joined, step: &Step) -> Result<Option<Seen>, NoMemory>
    ensures { IfOk result (λ o. as_list o ≡ seen_in step.now run.now.joint) }
{
    match step {
        Step::Read => match run.next_up() {
            Some(frame) => Ok(Some(Seen::Up(frame.try_clone(alloc)?))),
            None => Ok(None),
        },
        Step::Send(frame) => {
            if run.broker().may_send(frame) {
                Ok(Some(Seen::Down(frame.try_clone(alloc)?)))
            } else {
                Ok(None)
            }
        }
        _ => Ok(None),
    }
}

// Makes a step, and appends what was seen, for which there is room.
fn make(
    alloc: Global,
    run: &mut Joined,
    step: Step,
    seen: Option<Seen>,
    transcript: &mut Vec<Seen>,
) -> Result<(), NoMemory>
    requires steps { run.old.steps + 1 < 2 ^ 64 }
    requires room { vec_len transcript.old < vec_capacity transcript.old }
    ensures ok { OnOk result (run.new ≡ record { joint = after by_machine step run.old.joint; steps = run.old.steps + 1; stopped = false }) }
    ensures grown { OnOk result (transcript.new.items ≡ transcript.old.items ++ as_list seen) }
    ensures err { OnErr result (transcript.new.items ≡ transcript.old.items) }
{
    match run.step(alloc, step) {
        Ok(report) => {
            drop(report);
            if let Some(seen) = seen {
                transcript.push_reserved(seen);
            }
            Ok(())
        }
        Err(_) => {
            drop(seen);
            Err(NoMemory)
        }
    }
}
