//! The first line of an input that is not in the format.

use crate::stumble::{
    call_stumble, event_stumble, first_stumble, resend_stumble, seen_stumble, step_stumble,
};
use crate::walk::Stumble;
use lapin_joint_text::read_step;
use lapin_text::{Lines, read_event, read_max};
use lapin_types::NoMemory;
use std::alloc::Global;

/// What the lines behind the first are.
#[derive(Clone, Copy, Debug, PartialEq, Eq)]
pub(crate) enum Kind {
    /// Events of a session.
    Events,
    /// Steps of a joined run.
    Steps,
    /// What is seen of a broker.
    Transcript,
    /// Steps of a publisher that sends again.
    Resend,
    /// Steps of calls over queues.
    Calls,
    /// No lines, or none that this crate knows of.
    Others,
}

/// The first bad line of an input, with its number.
#[derive(Drop)]
pub(crate) struct Bad<'a> {
    pub number: u64,
    pub line: &'a [u8],
    /// Where it stumbles, as far as this crate can tell.
    pub stumble: Option<Stumble<'a>>,
}

/// The first bad line of an input, if it can be told.
pub(crate) fn first_bad<'a>(alloc: Global, kind: Kind, input: &'a [u8]) -> Option<Bad<'a>> {
    let mut lines = Lines::new(input);
    let line = lines.next().unwrap_or(b"");
    if read_max(line).is_none() {
        return Some(Bad {
            number: 1,
            line,
            stumble: first_stumble(alloc, line),
        });
    }
    let mut number: u64 = 1;
    while let Some(line) = lines.next() {
        number = number.saturating_add(1);
        if is_bad(alloc, kind, line) {
            let stumble = stumble_at(alloc, kind, line);
            return Some(Bad {
                number,
                line,
                stumble,
            });
        }
    }
    None
}

// Whether a reader says that the line is no event or joined step, or a walk through the line that it is none of the other steps.
fn is_bad(alloc: Global, kind: Kind, line: &[u8]) -> bool {
    match kind {
        Kind::Events => is_none(read_event(alloc, line)),
        Kind::Steps => is_none(read_step(alloc, line)),
        kind => stumble_at(alloc, kind, line).is_some(),
    }
}

fn is_none<T: Drop>(read: Result<Option<T>, NoMemory>) -> bool {
    let none = matches!(&read, Ok(None));
    drop(read);
    none
}

fn stumble_at<'a>(alloc: Global, kind: Kind, line: &'a [u8]) -> Option<Stumble<'a>> {
    match kind {
        Kind::Events => event_stumble(alloc, line),
        Kind::Steps => step_stumble(alloc, line),
        Kind::Transcript => seen_stumble(alloc, line),
        Kind::Resend => resend_stumble(alloc, line),
        Kind::Calls => call_stumble(alloc, line),
        Kind::Others => None,
    }
}
