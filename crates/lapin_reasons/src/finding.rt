//! What `check` found, in words: the line of the file, the frame, and what the rule says.

use crate::telling::{put, put_quoted};
use lapin_inputs::Status;
use lapin_scalars::{put_number, read_num};
use lapin_text::Lines;
use lapin_tokens::Tokens;
use lapin_types::NoMemory;
use std::alloc::{AllocError, Global};

/// The most bytes of a frame that are shown.
const SHOWN: usize = 120;

/// Of a run of `check` with this status: which line of its input the finding is about, with the frame and the rule in words; empty where
/// there is none. `input` is what it read of its input, `text` the end of what it wrote.
///
/// # Errors
/// `NoMemory`.
pub fn where_found(
    alloc: Global,
    words: &[String],
    status: Status,
    input: &[u8],
    text: &[u8],
) -> Result<Vec<u8>, NoMemory> {
    let mut told = Vec::new(alloc);
    if !is_check(words) {
        return Ok(told);
    }
    let is_cut = match status {
        Status::Fine => false,
        Status::BadLine => true,
        _ => return Ok(told),
    };
    if let Some(found) = finding_of(text) {
        put_finding(&mut told, &found, input)?;
    } else if is_cut && is_fine(text) {
        put(
            &mut told,
            "lapin: what is found fine are the frames before the bad line alone\n",
        )?;
    }
    Ok(told)
}

fn is_check(words: &[String]) -> bool {
    match words {
        [word] => word.as_str() == "check",
        _ => false,
    }
}

/// A finding: whose frame it was, which, and the rule.
#[derive(Clone, Copy, Debug)]
struct Found<'a> {
    /// Whether the broker read it, and didn't send it.
    is_read: bool,
    place: u64,
    rule: &'a [u8],
}

// The finding in the last lines of a text, if there is one.
fn finding_of(text: &[u8]) -> Option<Found<'_>> {
    let mut lines = Lines::new(text);
    for _line in 0..text.len() {
        let found = found_in(lines.next()?);
        if found.is_some() {
            return found;
        }
    }
    None
}

fn found_in(line: &[u8]) -> Option<Found<'_>> {
    let mut words = Tokens::new(line);
    let is_read = match words.next() {
        Some(b"broken") => true,
        Some(b"notallowed") => false,
        _ => return None,
    };
    let place = read_num(words.next()?)?;
    let rule = words.next()?;
    Some(Found {
        is_read,
        place,
        rule,
    })
}

// Whether the last lines of a text have the finding that all is fine.
fn is_fine(text: &[u8]) -> bool {
    let mut lines = Lines::new(text);
    for _line in 0..text.len() {
        if lines.next() == Some(b"fine".as_slice()) {
            return true;
        }
    }
    false
}

fn put_finding(told: &mut Vec<u8>, found: &Found, input: &[u8]) -> Result<(), AllocError> {
    put(told, "lapin: line ")?;
    put_number(told, found.place.saturating_add(1))?;
    put(told, ": ")?;
    if let Some(line) = line_at(input, found.place) {
        put_quoted(told, line, SHOWN)?;
        put(told, ": ")?;
    }
    put(
        told,
        if found.is_read {
            "the broker takes this for a fault of the client: "
        } else {
            "the broker may not send this: "
        },
    )?;
    put(told, told_rule(found.rule))?;
    put(told, "\n")
}

// The line behind so many others, where it was remembered.
fn line_at(input: &[u8], before: u64) -> Option<&[u8]> {
    let mut lines = Lines::new(input);
    for _line in 0..before {
        lines.next()?;
    }
    lines.next()
}

// What a rule says of the frame that it applies to.
fn told_rule(rule: &[u8]) -> &'static str {
    match rule {
        b"SecondClose" => "a second connection.close, while close-ok is owed for the first",
        b"StrayCloseOk" => "a connection.close-ok that nothing asked for",
        b"AfterClose" => "a frame behind the client's connection.close",
        b"ContentExpected" => "on this channel the next header or body of a publish is due",
        b"BadContent" => "a header or body that does not fit the publish that is due",
        b"ChannelFree" => "the channel is not open",
        b"ChannelBusy" => "the broker has not answered this channel's open or close",
        b"NotForBroker" => "no frame that a client may send there",
        b"Silent" => "behind a close of the connection only the close-ok that is owed may come",
        b"ChannelState" => "the channel's state does not allow it",
        b"ContentOpen" => "on this channel the next header or body of a message is due",
        b"NoContent" => "no message is being sent on this channel",
        b"BadSettlement" =>
            "no publish took this number, or it is settled, or confirms were not selected",
        b"UnknownTag" => "nobody consumes under this tag",
        b"RequestsWaiting" => "a request on this channel is not answered yet",
        b"NotFirstReply" => "another request waits first",
        _ => "no frame that a broker may send there",
    }
}
