//! A line: its first word says what it asks for.
//!
//! Each word that most lines begin with has a function of its own in the files beside this one.
ghost use Rattle.std.specs.Prelude.{IfOk};
ghost use Rattle.lapin_machine.specs.Numbers.{HasNumbersFor};
ghost use Rattle.lapin_text.specs.LineReading.{line_at};
ghost use Rattle.lapin_lines.specs.Lines.{IsTaken};

use crate::asking::{take_acker, take_call};
use crate::polls::{take_confirm, take_consumer, take_ticket};
use crate::receiving::take_frame;
use crate::requests::take_next;
use crate::steps::take_event;
use lapin_machine::Session;
use lapin_text::{Word, first_word};
use lapin_tokens::Tokens;
use lapin_types::NoMemory;
use std::alloc::Global;

/// Takes a line, without its line end: where it says an event, the session meets it, and the line of its record is appended to
/// the text. Whether it says one: if it doesn't, nothing is done.
///
/// # Errors
/// `NoMemory` alone. The session may then have met the event, and the text may end within the line.
pub fn take_line(
    alloc: Global,
    session: &mut Session,
    line: &[u8],
    text: &mut Vec<u8>,
) -> Result<bool, NoMemory>
    requires { HasNumbersFor 1 session.old }
    ensures { IfOk result (IsTaken (line_at line.now) session.old session.new text.old.items text.new.items) }
{
    let mut tokens = Tokens::new(line);
    match first_word(&mut tokens) {
        Some(Word::Next) => take_next(alloc, session, &mut tokens, text),
        Some(Word::Confirm) => take_confirm(alloc, session, &mut tokens, text),
        Some(Word::Recv) => take_frame(alloc, session, &mut tokens, text),
        Some(Word::Call) => take_call(alloc, session, &mut tokens, text),
        Some(Word::Ticket) => take_ticket(alloc, session, &mut tokens, text),
        Some(Word::Consumer) => take_consumer(alloc, session, &mut tokens, text),
        Some(Word::Acker) => take_acker(alloc, session, &mut tokens, text),
        _ => take_event(alloc, session, line, text),
    }
}
