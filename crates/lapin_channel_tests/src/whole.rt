//! A whole run: the events of an input go to `run_session`, and the records that it leaves are printed.

use lapin_session::run_session;
use lapin_text::{parse_events, print_records};
use lapin_types::Error;
use std::alloc::Global;
use std::test::Fail;

const INPUT: &str = "frame_max 4096
call 1 channel.open
next 1
recv method 1 channel.open-ok
ticket 1
next 1
state 1
";

const TEXT: &str = "ticket 1
frame method 1 channel.open
received
answer channel 1
noframe
state open open
";

// The text of the records that a run appends to those that are there.
fn printed(alloc: Global, input: &str) -> Result<String, Error> {
    let parsed = parse_events(alloc, input.as_bytes())?;
    let mut trace = Vec::new(alloc);
    let frame_max = match parsed.frame_max {
        Some(frame_max) if 4096 <= frame_max => frame_max,
        _ => 4096,
    };
    run_session(alloc, frame_max, parsed.events, &mut trace)?;
    match String::from_utf8(print_records(alloc, &trace)?) {
        Ok(text) => Ok(text),
        Err(_) => Err(Error::UnknownTicket),
    }
}

#[test]
fn a_run_leaves_a_record_an_event(rt: HostRuntime) -> Result<(), Fail> {
    let text = printed(rt.alloc(), INPUT)?;
    assert_eq!(rt; text.as_str(), TEXT);
    Ok(())
}
