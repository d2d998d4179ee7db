//! Steps of a caller as text: events that it makes, and the entries that its log then has. The other modules call it.

ghost use Rattle.std.specs.Prelude.{◌≡◌};

use lapin_shared::{Caller, Crew, FinishError, History, Logged, StepError};
use lapin_shared_commands::is_made;
use lapin_text::{parse_events, read_event, write_record};
use lapin_types::{Event, Record};
use std::alloc::Global;
use std::process::Abort;
use std::sync::Wait;
use std::test::Fail;

/// A channel that is open, and consumers 1 and 2 of it under the tags `t` and `u`, whose deliveries are jobs. The next ticket is 4.
const CONSUMING: &str = "frame_max 4096\n\
call 1 channel.open\nnext 1\nrecv method 1 channel.open-ok\n\
call 1 basic.consume x71 x74 0 0 0 1 {}\nnext 1\ndelegate 1\n\
call 1 basic.consume x71 x75 0 0 0 1 {}\nnext 1\ndelegate 2\n";

/// What a step answers. The test fails where there was no memory.
pub fn answer_of<T>(step: Result<T, StepError>) -> Result<T, Fail> {
    match step {
        Ok(answer) => Ok(answer),
        Err(_) => Err(Fail::from("memory")),
    }
}

/// The history of a client that ended. The test fails where a caller is missing, and where there was no memory.
pub fn finished(end: Result<History, FinishError>) -> Result<History, Fail> {
    match end {
        Ok(history) => Ok(history),
        Err(_) => Err(Fail::from("the history")),
    }
}

/// Makes the events of an input. The caller keeps its number.
pub fn make_events<L: Crew, R: Wait + Abort>(
    rt: &R,
    alloc: Global,
    caller: &mut Caller<L>,
    input: &str,
) -> Result<(), Fail>
    ensures { caller.new.number ≡ caller.old.number }
{
    let parsed = parse_events(alloc, input.as_bytes())?;
    assert_eq!(rt; parsed.bad, None);
    for event in parsed.events {
        if !is_made(rt, alloc, event, caller) {
            return Err(Fail::from("memory"));
        }
    }
    Ok(())
}

/// Makes the events of that beginning and those of these lines.
pub fn make_lines<L: Crew, R: Wait + Abort>(
    rt: &R,
    alloc: Global,
    caller: &mut Caller<L>,
    lines: &str,
) -> Result<(), Fail> {
    let mut text = String::from_str(alloc, CONSUMING)?;
    text.push_str(lines)?;
    make_events(rt, alloc, caller, text.as_str())
}

/// Compares the entries of a log behind the first `made` with lines, each an event and its record with an arrow between them.
pub fn are_steps<R: Abort>(
    rt: &R,
    alloc: Global,
    log: &[Logged],
    made: usize,
    lines: &str,
) -> Result<(), Fail> {
    let mut k = made;
    for line in lines.lines() {
        let step = log.get(k).ok_or("an entry")?;
        assert!(rt; is_step(alloc, step, line), "at {line}");
        k = k.saturating_add(1);
    }
    assert_eq!(rt; log.len(), k, "at {lines}");
    Ok(())
}

fn is_step(alloc: Global, step: &Logged, line: &str) -> bool {
    match (line.split_once(" -> "), step.answer()) {
        (Some((event, record)), Some(answer)) => {
            is_event(alloc, step.event(), event) && is_record(alloc, answer, record)
        }
        _ => false,
    }
}

fn is_event(alloc: Global, event: &Event, line: &str) -> bool {
    match read_event(alloc, line.as_bytes()) {
        Ok(Some(read)) => read.same(event),
        _ => false,
    }
}

fn is_record(alloc: Global, record: &Record, line: &str) -> bool {
    let mut text = Vec::new(alloc);
    write_record(alloc, &mut text, record).is_ok() && text.as_slice() == line.as_bytes()
}
