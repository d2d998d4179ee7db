//! What runs a table: each history's events go to a session by their own calls, and each record's line is compared with the history's.

use crate::surface::made;
use lapin_session::Session;
use lapin_text::{read_event, read_frame, write_record};
use lapin_types::{Error, Record};
use std::alloc::Global;

/// The steps that open channel 1.
const OPENED: &str = "call 1 channel.open -> ticket 1
next 0 -> frame method 1 channel.open
recv method 1 channel.open-ok -> received";

/// The first line of a table that doesn't hold, with the record that came.
pub fn first_failure<'a>(
    alloc: Global,
    table: &'a str,
) -> Result<Option<(&'a str, String)>, Error> {
    for history in table.split("\n\n") {
        let mut session = Session::new(alloc, 4096)?;
        let found = failure_in(alloc, &mut session, history)?;
        if found.is_some() {
            return Ok(found);
        }
    }
    Ok(None)
}

/// The first line of a history that doesn't hold, on a session that has run what came before it.
pub fn failure_in<'a>(
    alloc: Global,
    session: &mut Session,
    history: &'a str,
) -> Result<Option<(&'a str, String)>, Error> {
    for line in history.lines() {
        let found = if line == "= opened" {
            opened(alloc, session)?
        } else {
            failure_at(alloc, session, line)?
        };
        if found.is_some() {
            return Ok(found);
        }
    }
    Ok(None)
}

fn opened<'a>(alloc: Global, session: &mut Session) -> Result<Option<(&'a str, String)>, Error> {
    for line in OPENED.lines() {
        let found = failure_at(alloc, session, line)?;
        if found.is_some() {
            return Ok(found);
        }
    }
    Ok(None)
}

// The line, where its event's record is another than the one behind the arrow.
fn failure_at<'a>(
    alloc: Global,
    session: &mut Session,
    line: &'a str,
) -> Result<Option<(&'a str, String)>, Error> {
    match line.split_once(" -> ") {
        Some((event, record)) => {
            let found = told(alloc, session, event)?;
            Ok(if found.as_str() == record {
                None
            } else {
                Some((line, found))
            })
        }
        None => Ok(None),
    }
}

/// The broker sends a frame, which is given as its text.
pub fn heard(alloc: Global, session: &mut Session, text: &str) -> Result<(), Error> {
    match read_frame(alloc, text.as_bytes())? {
        Some(frame) => {
            session.receive(alloc, frame)?;
            Ok(())
        }
        None => Err(Error::UnknownTicket),
    }
}

/// Lets as many frames leave as any of the histories has waiting.
pub fn sent(alloc: Global, session: &mut Session) -> Result<(), Error> {
    for _ in 0..20 {
        drop(session.next_frame(alloc, true)?);
    }
    Ok(())
}

// The line of the record of an event.
fn told(alloc: Global, session: &mut Session, event: &str) -> Result<String, Error> {
    match read_event(alloc, event.as_bytes()) {
        Ok(Some(event)) => match made(alloc, session, event) {
            Ok(record) => {
                let line = line_of(alloc, &record);
                drop(record);
                line
            }
            Err(error) => Err(error),
        },
        Ok(None) => Ok(String::from_str(alloc, "no event")?),
        Err(_) => Err(Error::NoMemory),
    }
}

fn line_of(alloc: Global, record: &Record) -> Result<String, Error> {
    let mut text = Vec::new(alloc);
    write_record(alloc, &mut text, record)?;
    match String::from_utf8(text) {
        Ok(line) => Ok(line),
        Err(_) => Err(Error::UnknownTicket),
    }
}
