//! The driver: each event of the script is a step; where it finds no memory, nothing that is seen has changed, and it is made again.

use crate::script::lines::SCRIPT;
use crate::script::seen::seen_in;
use lapin_session::Session;
use lapin_text::{read_event, write_record};
use lapin_types::{Error, Event, NoMemory, Record};
use std::alloc::Global;
use std::process::Abort;
use std::test::Fail;

/// What came of a try of a line.
#[derive(Clone, Copy, Debug, PartialEq, Eq)]
enum Tried {
    /// Its record is the one behind the arrow.
    Right,
    /// There was no memory, for the step or for what the test makes around it before the step.
    NoMemory,
    /// The step was made, and there was no memory for the text of its record.
    Unread,
    /// Its record is another.
    Wrong,
}

// Makes the event of a line, and compares its record.
fn try_event(alloc: Global, session: &mut Session, event: &str, record: &str) -> Tried {
    match read_event(alloc, event.as_bytes()) {
        Ok(Some(event)) => stepped(alloc, session, event, record),
        Ok(None) => Tried::Wrong,
        Err(_) => Tried::NoMemory,
    }
}

fn stepped(alloc: Global, session: &mut Session, event: Event, record: &str) -> Tried {
    match session.step(alloc, event) {
        Ok(found) => {
            let compared = compared(alloc, &found, record);
            drop(found);
            compared
        }
        Err(Error::NoMemory) => Tried::NoMemory,
        Err(_) => Tried::Wrong,
    }
}

// Compares the line of a record.
fn compared(alloc: Global, found: &Record, record: &str) -> Tried {
    let mut text = Vec::new(alloc);
    match write_record(alloc, &mut text, found) {
        Ok(()) => {
            if text.as_slice() == record.as_bytes() {
                Tried::Right
            } else {
                Tried::Wrong
            }
        }
        Err(NoMemory) => Tried::Unread,
    }
}

// Makes a line of the script, once more where it found no memory.
fn shows(rt: &(impl Abort + AllocGlobal), session: &mut Session, line: &str) {
    let Some((event, record)) = line.split_once(" -> ") else {
        return;
    };
    let before = seen_in(session);
    match try_event(rt.alloc(), session, event, record) {
        Tried::Right | Tried::Unread => {}
        Tried::Wrong => assert!(rt; false, "at {line}"),
        Tried::NoMemory => {
            assert!(rt;
                seen_in(session) == before,
                "changed without memory at {line}"
            );
            let again = try_event(rt.alloc(), session, event, record);
            assert!(rt;
                matches!(again, Tried::Right | Tried::Unread),
                "after no memory at {line}"
            );
        }
    }
}

#[test]
fn script_all(rt: HostRuntime) -> Result<(), Fail> {
    let alloc = rt.alloc();
    let mut session = match Session::new(alloc, 4096) {
        Ok(session) => session,
        Err(NoMemory) => Session::new(alloc, 4096)?,
    };
    for line in SCRIPT.lines() {
        shows(&rt, &mut session, line);
    }
    Ok(())
}
