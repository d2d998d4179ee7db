//! Where a line is not in the format: events, frames, calls, acker calls, the first line, and the lines of the commands that have others
//! than events, each as the format has it.

use crate::rows::{fields_of, is_called};
use crate::walk::{Stumble, Walk, Wanted};
use lapin_method_text::kinds::kind_named;
use lapin_text::{Word, word_named};
use std::alloc::Global;

const EVENTS: &str =
    "call, next, recv, ticket, confirm, consumer, wait, aside-ticket, aside-confirm, acker, delegate, drop, job, state or lost";

// The fields of a message that is handed in.
const MESSAGE: &str = "exchange:text routing_key:text payload:bytes";

/// Where a first line is not in the format.
pub(crate) fn first_stumble<'a>(alloc: Global, line: &'a [u8]) -> Option<Stumble<'a>> {
    let mut walk = Walk::new(line);
    walk.is_a("frame_max", "size:max");
    let found = walk.next();
    if found != Some(b"frame_max".as_slice()) {
        return Some(walk.stumble(found, "", Wanted::Words("frame_max")));
    }
    match walk.fields(alloc, "size:max") {
        Some(stumble) => Some(stumble),
        None => walk.end(),
    }
}

/// Where an event's line is not in the format.
pub(crate) fn event_stumble<'a>(alloc: Global, line: &'a [u8]) -> Option<Stumble<'a>> {
    let mut walk = Walk::new(line);
    whole(alloc, &mut walk)
}

/// Where a joined step's line is not in the format.
pub(crate) fn step_stumble<'a>(alloc: Global, line: &'a [u8]) -> Option<Stumble<'a>> {
    let mut walk = Walk::new(line);
    let found = walk.next();
    match found {
        Some(b"client") => {
            walk.is_led_by("client");
            whole(alloc, &mut walk)
        }
        Some(b"send") => whole_frame(alloc, &mut walk, "send"),
        Some(b"read") => whole_row(alloc, &mut walk, "read", ""),
        Some(b"deliver") => whole_row(alloc, &mut walk, "deliver", ""),
        Some(b"lose") => whole_row(alloc, &mut walk, "lose", ""),
        _ => Some(walk.stumble(
            found,
            "",
            Wanted::Words("client, read, send, deliver or lose"),
        )),
    }
}

/// Where a line of a transcript is not in the format.
pub(crate) fn seen_stumble<'a>(alloc: Global, line: &'a [u8]) -> Option<Stumble<'a>> {
    let mut walk = Walk::new(line);
    let found = walk.next();
    match found {
        Some(b"up") => whole_frame(alloc, &mut walk, "up"),
        Some(b"down") => whole_frame(alloc, &mut walk, "down"),
        _ => Some(walk.stumble(found, "", Wanted::Words("up or down"))),
    }
}

/// Where a step of a publisher that sends again is not in the format.
pub(crate) fn resend_stumble<'a>(alloc: Global, line: &'a [u8]) -> Option<Stumble<'a>> {
    let mut walk = Walk::new(line);
    let found = walk.next();
    match found {
        Some(b"submit") => whole_row(alloc, &mut walk, "submit", MESSAGE),
        Some(b"status") => whole_row(alloc, &mut walk, "status", "number:wide"),
        Some(b"send") => whole_frame(alloc, &mut walk, "send"),
        Some(b"next") => whole_row(alloc, &mut walk, "next", ""),
        Some(b"read") => whole_row(alloc, &mut walk, "read", ""),
        Some(b"deliver") => whole_row(alloc, &mut walk, "deliver", ""),
        Some(b"lose") => whole_row(alloc, &mut walk, "lose", ""),
        _ => Some(walk.stumble(
            found,
            "",
            Wanted::Words("submit, next, read, send, deliver, lose or status"),
        )),
    }
}

/// Where a step of calls over queues is not in the format.
pub(crate) fn call_stumble<'a>(alloc: Global, line: &'a [u8]) -> Option<Stumble<'a>> {
    let mut walk = Walk::new(line);
    let found = walk.next();
    match found {
        Some(b"next") => whole_row(alloc, &mut walk, "next", "flow:flag"),
        Some(b"recv") => whole_frame(alloc, &mut walk, "recv"),
        Some(b"ask") => whole_row(alloc, &mut walk, "ask", MESSAGE),
        Some(b"take") => whole_row(alloc, &mut walk, "take", "number:wide"),
        Some(b"lost") => whole_row(alloc, &mut walk, "lost", ""),
        Some(b"collect") => whole_row(alloc, &mut walk, "collect", ""),
        _ => Some(walk.stumble(
            found,
            "",
            Wanted::Words("next, recv, lost, ask, collect or take"),
        )),
    }
}

// The rest of a line should be a frame, and nothing more.
fn whole_frame<'a>(alloc: Global, walk: &mut Walk<'a>, lead: &'static str) -> Option<Stumble<'a>> {
    walk.is_led_by(lead);
    match frame(alloc, walk) {
        Some(stumble) => Some(stumble),
        None => walk.end(),
    }
}

// The rest of a line should be these fields, and nothing more.
fn whole_row<'a>(
    alloc: Global,
    walk: &mut Walk<'a>,
    head: &'static str,
    row: &'static str,
) -> Option<Stumble<'a>> {
    match content(alloc, walk, head, row) {
        Some(stumble) => Some(stumble),
        None => walk.end(),
    }
}

// The rest of a line should be an event, and nothing more.
fn whole<'a>(alloc: Global, walk: &mut Walk<'a>) -> Option<Stumble<'a>> {
    match event(alloc, walk) {
        Some(stumble) => Some(stumble),
        None => walk.end(),
    }
}

// The next tokens should be an event.
fn event<'a>(alloc: Global, walk: &mut Walk<'a>) -> Option<Stumble<'a>> {
    let found = walk.next();
    let Some(word) = word_of(found) else {
        return Some(walk.stumble(found, "", Wanted::Words(EVENTS)));
    };
    match word {
        Word::Call => {
            walk.is_a("call", "channel:short");
            call(alloc, walk)
        }
        Word::Recv => {
            walk.is_led_by(if walk.lead().is_empty() {
                "recv"
            } else {
                "client recv"
            });
            frame(alloc, walk)
        }
        Word::Acker => {
            walk.is_a("acker", "number:wide");
            acker(alloc, walk)
        }
        word => match plain(word) {
            Some((head, row)) => {
                walk.is_a(head, row);
                walk.fields(alloc, row)
            }
            None => Some(walk.stumble(found, "", Wanted::Words(EVENTS))),
        },
    }
}

fn word_of(found: Option<&[u8]>) -> Option<Word> {
    match found {
        Some(piece) => word_named(piece),
        None => None,
    }
}

// The events that are a word with a number, if any.
fn plain(word: Word) -> Option<(&'static str, &'static str)> {
    match word {
        Word::Next => Some(("next", "flow:flag")),
        Word::Ticket => Some(("ticket", "number:wide")),
        Word::Confirm => Some(("confirm", "number:wide")),
        Word::Consumer => Some(("consumer", "number:wide")),
        Word::Wait => Some(("wait", "channel:short")),
        Word::AsideTicket => Some(("aside-ticket", "number:wide")),
        Word::AsideConfirm => Some(("aside-confirm", "number:wide")),
        Word::Delegate => Some(("delegate", "number:wide")),
        Word::Drop => Some(("drop", "number:wide")),
        Word::Job => Some(("job", "")),
        Word::State => Some(("state", "channel:short")),
        Word::Lost => Some(("lost", "")),
        _ => None,
    }
}

// The next tokens should be a channel and a call.
fn call<'a>(alloc: Global, walk: &mut Walk<'a>) -> Option<Stumble<'a>> {
    if let Some(stumble) = walk.fields(alloc, "channel:short") {
        return Some(stumble);
    }
    walk.is_a("call channel", "");
    let found = walk.next();
    let Some(name) = found else {
        return Some(walk.stumble(None, "", Wanted::Call));
    };
    match call_row(name) {
        Some(row) => {
            walk.names(name, row);
            walk.fields(alloc, row)
        }
        None => Some(walk.stumble(found, "", Wanted::Call)),
    }
}

// The fields behind the name of a call, where it is one.
fn call_row(name: &[u8]) -> Option<&'static str> {
    match name {
        b"basic.publish" | b"basic.try-publish" => Some(
            "exchange:text routing_key:text mandatory:flag immediate:flag payload:bytes properties:props",
        ),
        b"channel.close" | b"connection.close" => Some("reply_code:short reply_text:text"),
        b"confirm.limit" => Some("limit:wide"),
        _ => match kind_named(name) {
            Some(kind) if is_called(kind) => Some(fields_of(kind)),
            _ => None,
        },
    }
}

// The next tokens should be a frame.
fn frame<'a>(alloc: Global, walk: &mut Walk<'a>) -> Option<Stumble<'a>> {
    let found = walk.next();
    match found {
        Some(b"method") => method(alloc, walk),
        Some(b"header") => content(
            alloc,
            walk,
            "header",
            "channel:short class:short size:wide properties:props",
        ),
        Some(b"body") => content(alloc, walk, "body", "channel:short payload:bytes"),
        _ => Some(walk.stumble(found, "", Wanted::Words("method, header or body"))),
    }
}

fn content<'a>(
    alloc: Global,
    walk: &mut Walk<'a>,
    head: &'static str,
    row: &'static str,
) -> Option<Stumble<'a>> {
    walk.is_a(head, row);
    walk.fields(alloc, row)
}

// The next tokens should be a channel and a method.
fn method<'a>(alloc: Global, walk: &mut Walk<'a>) -> Option<Stumble<'a>> {
    walk.is_a("method", "channel:short");
    if let Some(stumble) = walk.fields(alloc, "channel:short") {
        return Some(stumble);
    }
    walk.is_a("method channel", "");
    let found = walk.next();
    let Some(name) = found else {
        return Some(walk.stumble(None, "", Wanted::Method));
    };
    match kind_named(name) {
        Some(kind) => {
            let row = fields_of(kind);
            walk.names(name, row);
            walk.fields(alloc, row)
        }
        None => Some(walk.stumble(found, "", Wanted::Method)),
    }
}

// The next tokens should be the number of an acker and its call.
fn acker<'a>(alloc: Global, walk: &mut Walk<'a>) -> Option<Stumble<'a>> {
    if let Some(stumble) = walk.fields(alloc, "number:wide") {
        return Some(stumble);
    }
    let found = walk.next();
    match found {
        Some(b"ack") => content(alloc, walk, "acker number ack", "multiple:flag"),
        Some(b"nack") => content(
            alloc,
            walk,
            "acker number nack",
            "multiple:flag requeue:flag",
        ),
        Some(b"reject") => content(alloc, walk, "acker number reject", "requeue:flag"),
        _ => Some(walk.stumble(found, "", Wanted::Words("ack, nack or reject"))),
    }
}
