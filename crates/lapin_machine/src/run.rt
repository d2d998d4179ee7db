//! A whole run: a new session, and the record of each event.

ghost use Rattle.std.specs.Prelude.{◌≡◌, ◌≤◌, ◌++◌, OnOk, OnErr, length};
ghost use Rattle.lapin_rules.specs.History.{run};
ghost use Rattle.lapin_machine.specs.World.{outputs};
ghost use Rattle.lapin_machine.specs.Growing.{IsStarted};
ghost use Rattle.lapin_machine.specs.Numbers.{HasNumbersFor};

use crate::session::Session;
use lapin_types::{Error, Event, NoMemory, Record};
use std::alloc::Global;

/// Makes a new session, and appends the record of each event, as the history determines it. Where there is no memory the
/// records so far stand.
pub fn run_session(
    alloc: Global,
    frame_max: u32,
    events: Vec<Event>,
    trace: &mut Vec<Record>,
) -> Result<(), NoMemory>
    requires { 4096 ≤ frame_max }
    ensures ok { OnOk result (trace.new.items ≡ trace.old.items ++ run frame_max events.items) }
    ensures err { OnErr result (IsStarted trace.old.items trace.new.items (run frame_max events.items)) }
{
    trace.reserve_exact(events.len())?;
    let mut session = Session::new(alloc, frame_max)?;
    run_events(alloc, &mut session, events, trace)
}

// Appends the record of each event. For want of memory it stops, and what it appended stays.
fn run_events(
    alloc: Global,
    session: &mut Session,
    events: Vec<Event>,
    trace: &mut Vec<Record>,
) -> Result<(), NoMemory>
    requires { HasNumbersFor (length events.items) session.old }
    ensures ok { OnOk result (trace.new.items ≡ trace.old.items ++ outputs session.old events.items) }
    ensures err { OnErr result (IsStarted trace.old.items trace.new.items (outputs session.old events.items)) }
{
    for event in events {
        if trace.reserve(1).is_err() {
            drop(event);
            return Err(NoMemory);
        }
        match session.step(alloc, event) {
            Ok(record) => trace.push_reserved(record),
            Err(Error::NoMemory) => return Err(NoMemory),
            Err(_) => unreachable!(),
        }
    }
    Ok(())
}
