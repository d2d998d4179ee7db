//! Joined runs in which the plain broker alone sends: each frame of the broker is the one that its rule gives. A table is lines, each
//! with a step and, behind an arrow, its report; the step `plain` sends what the rule gives and has that frame for a report, or
//! `silent` where the rule gives none.
use lapin_broker::PlainBroker;
use lapin_joint::{Joined, Reported, Step};
use lapin_joint_text::{put_report, read_step};
use lapin_text::write_frame;
use lapin_types::{ChannelState, Frame, NoMemory, RunError};
use std::alloc::Global;

// So many steps a table has at most.
const MOST_STEPS: u64 = 1000;

// Three publishes leave one behind the other, and each is acked once all its frames were read, in the order of their numbers. An
// ack that is on its way is not sent again.
const THREE_PUBLISHES: &str = "\
client call 1 channel.open -> ticket 1
plain -> silent
client next 1 -> frame method 1 channel.open
plain -> silent
read -> read
plain -> method 1 channel.open-ok
plain -> silent
deliver -> received
client call 1 confirm.select 0 -> ticket 2
client next 1 -> frame method 1 confirm.select 0
read -> read
plain -> method 1 confirm.select-ok
deliver -> received
client ticket 2 -> answer done
client call 1 basic.publish x x68656c6c6f 0 0 x61 [] -> publish 3 1
client call 1 basic.publish x x68656c6c6f 0 0 x [] -> publish 4 2
client call 1 basic.publish x x68656c6c6f 0 0 x616263 [] -> publish 5 3
client next 1 -> frame method 1 basic.publish x x68656c6c6f 0 0
client next 1 -> frame header 1 60 1 []
client next 1 -> frame body 1 x61
client next 1 -> frame method 1 basic.publish x x68656c6c6f 0 0
client next 1 -> frame header 1 60 0 []
client next 1 -> frame method 1 basic.publish x x68656c6c6f 0 0
client next 1 -> frame header 1 60 3 []
client next 1 -> frame body 1 x616263
client next 1 -> noframe
read -> read
plain -> silent
read -> read
plain -> silent
read -> read
plain -> method 1 basic.ack 1 0
plain -> silent
client confirm 1 -> pending
deliver -> received
client confirm 1 -> confirmed ack -
read -> read
read -> read
read -> read
read -> read
plain -> method 1 basic.ack 2 0
read -> read
plain -> method 1 basic.ack 3 0
plain -> silent
read -> nothing
deliver -> received
client confirm 2 -> confirmed ack -
client confirm 3 -> pending
deliver -> received
client confirm 3 -> confirmed ack -
deliver -> nothing";

#[test]
fn three_publishes_come_to_their_acks(rt: HostRuntime) -> Result<(), NoMemory> {
    let failure = first_failure(rt.alloc(), THREE_PUBLISHES)?;
    assert!(rt; failure.is_none(), "at {failure:?}");
    Ok(())
}

// The first line of a table that doesn't hold, if any, in a new run; or what is wrong with the run at its end.
fn first_failure(alloc: Global, table: &str) -> Result<Option<&str>, NoMemory> {
    match Joined::new(alloc, 4096) {
        Ok(mut run) => flaw_or_line(alloc, &mut run, table),
        Err(error) => Err(error),
    }
}

// The same of a run that is new.
fn flaw_or_line<'a>(
    alloc: Global,
    run: &mut Joined,
    table: &'a str,
) -> Result<Option<&'a str>, NoMemory> {
    match first_line(alloc, run, table) {
        Ok(None) => Ok(flaw(run)),
        failed => failed,
    }
}

// What is wrong with a run that made its steps, if anything: it makes no more, or channel 1 of its session isn't open.
fn flaw(run: &Joined) -> Option<&'static str> {
    if run.stopped() {
        return Some("the run is stopped");
    }
    match run.session().channel_state(1) {
        ChannelState::Open => None,
        _ => Some("channel 1 is not open"),
    }
}

// The first line that doesn't hold, in a run that has made the steps before it.
fn first_line<'a>(
    alloc: Global,
    run: &mut Joined,
    table: &'a str,
) -> Result<Option<&'a str>, NoMemory> {
    for line in table.lines() {
        if !holds(alloc, run, line)? {
            return Ok(Some(line));
        }
    }
    Ok(None)
}

// Makes the step of a line, and tells whether it has that report.
fn holds(alloc: Global, run: &mut Joined, line: &str) -> Result<bool, NoMemory> {
    match line.split_once(" -> ") {
        Some((step, report)) => {
            if step == "plain" {
                gives(alloc, run, report)
            } else {
                reports(alloc, run, step, report)
            }
        }
        None => Ok(false),
    }
}

// Makes a step by its line, and tells whether it has that report.
fn reports(alloc: Global, run: &mut Joined, step: &str, report: &str) -> Result<bool, NoMemory> {
    match read_step(alloc, step.as_bytes()) {
        Ok(Some(step)) => is_reported(alloc, run, step, report),
        Ok(None) => Ok(false),
        Err(error) => Err(error),
    }
}

// Sends what the plain broker gives, and tells whether it is this frame.
fn gives(alloc: Global, run: &mut Joined, frame: &str) -> Result<bool, NoMemory> {
    match PlainBroker::next(alloc, run.broker()) {
        Ok(Some(given)) => is_sent(alloc, run, given, frame),
        Ok(None) => Ok(frame == "silent"),
        Err(error) => Err(error),
    }
}

// Sends a frame, and tells whether it is that one and was sent.
fn is_sent(alloc: Global, run: &mut Joined, frame: Frame, text: &str) -> Result<bool, NoMemory> {
    let written = has_text(alloc, &frame, text);
    let sent = is_reported(alloc, run, Step::Send(frame), "sent");
    Ok(written? && sent?)
}

// Whether a frame has that text.
fn has_text(alloc: Global, frame: &Frame, text: &str) -> Result<bool, NoMemory> {
    let mut written = Vec::new(alloc);
    write_frame(alloc, &mut written, frame)?;
    Ok(written.as_slice() == text.as_bytes())
}

// Makes a step, and tells whether it has that report.
fn is_reported(
    alloc: Global,
    run: &mut Joined,
    step: Step,
    report: &str,
) -> Result<bool, NoMemory> {
    match make(alloc, run, step) {
        Ok(reported) => is_report(alloc, reported, report),
        Err(_) => Err(NoMemory),
    }
}

// Makes a step. A run of so many steps as no table has makes no more.
fn make(alloc: Global, run: &mut Joined, step: Step) -> Result<Reported, RunError> {
    if run.steps() < MOST_STEPS {
        run.step(alloc, step)
    } else {
        drop(step);
        Err(RunError::Stopped)
    }
}

// Whether a report has that line.
fn is_report(alloc: Global, reported: Reported, line: &str) -> Result<bool, NoMemory> {
    let mut written = Vec::new(alloc);
    let put = put_report(alloc, &mut written, &reported);
    drop(reported);
    put?;
    Ok(written.as_slice() == line.as_bytes())
}
