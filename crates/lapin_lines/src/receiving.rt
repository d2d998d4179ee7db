//! A frame of the broker: `recv FRAME`.
ghost use Rattle.std.specs.Prelude.{[], IfOk, OnOk};
ghost use Rattle.lapin_types.specs.Types.basic;
ghost use Rattle.lapin_types.specs.Types.frame;
ghost use Rattle.lapin_types.specs.Types.method;
ghost use Rattle.lapin_types.specs.declared.event.Event.TheVariants as event;
ghost use Rattle.lapin_machine.specs.Numbers.{HasNumbersFor};
ghost use Rattle.lapin_text.specs.LineReading.{whole, event_of_word, frame_of_word};
ghost use Rattle.lapin_text.specs.declared.words.Word.TheVariants as word;
ghost use Rattle.lapin_lines.specs.Lines.{IsMet, IsTaken, frame_event};

use crate::steps::put_refusal;
use lapin_machine::{Heard, Session};
use lapin_text::{
    Acked, Word, first_frame_word, read_acked, read_body_frame, read_header_frame,
    read_method_frame,
};
use lapin_tokens::{ReadError, Tokens};
use lapin_types::{Error, Frame, NoMemory};
use std::alloc::Global;

// Takes a line that began with `recv`.
#[inline(never)]
pub(crate) fn take_frame(
    alloc: Global,
    session: &mut Session,
    tokens: &mut Tokens,
    text: &mut Vec<u8>,
) -> Result<bool, NoMemory>
    requires { HasNumbersFor 1 session.old }
    ensures { IfOk result (IsTaken (whole (event_of_word word.Recv tokens.old)) session.old session.new text.old.items text.new.items) }
{
    match first_frame_word(tokens) {
        Some(Word::Method) => take_method(alloc, session, tokens, text),
        Some(Word::Header) => take_header(alloc, session, tokens, text),
        Some(Word::Body) => take_body(alloc, session, tokens, text),
        _ => Ok(false),
    }
}

fn take_method(
    alloc: Global,
    session: &mut Session,
    tokens: &mut Tokens,
    text: &mut Vec<u8>,
) -> Result<bool, NoMemory>
    requires { HasNumbersFor 1 session.old }
    ensures { IfOk result (IsTaken (whole (frame_event (frame_of_word word.Method tokens.old))) session.old session.new text.old.items text.new.items) }
{
    let mut ahead = tokens.again();
    match read_acked(&mut ahead) {
        Some(acked) => take_ack(alloc, session, acked, &mut ahead, text),
        None => take_other(alloc, session, tokens, text),
    }
}

// A confirmation, which most methods are: the session takes it without its frame, where it is the last of its line.
#[inline(always)]
fn take_ack(
    alloc: Global,
    session: &mut Session,
    acked: Acked,
    tokens: &mut Tokens,
    text: &mut Vec<u8>,
) -> Result<bool, NoMemory>
    requires { HasNumbersFor 1 session.old }
    ensures { IfOk result (IsTaken (whole (Some (event.Receive (frame.Method acked.channel (method.Basic (basic.Ack acked.delivery_tag acked.multiple))), tokens.old))) session.old session.new text.old.items text.new.items) }
{
    match tokens.next() {
        Some(_) => Ok(false),
        None => {
            print_ack(alloc, session, acked, text)?;
            Ok(true)
        }
    }
}

#[inline(always)]
fn print_ack(
    alloc: Global,
    session: &mut Session,
    acked: Acked,
    text: &mut Vec<u8>,
) -> Result<(), NoMemory>
    requires { HasNumbersFor 1 session.old }
    ensures { OnOk result (IsMet (event.Receive (frame.Method acked.channel (method.Basic (basic.Ack acked.delivery_tag acked.multiple)))) session.old session.new text.old.items text.new.items) }
{
    match session.receive_ack(alloc, acked.channel, acked.delivery_tag, acked.multiple) {
        Ok(Heard::Received) => {
            text.extend_from_slice(b"received\n")?;
            Ok(())
        }
        Ok(Heard::Passed) => {
            text.extend_from_slice(b"passed\n")?;
            Ok(())
        }
        Err(Error::NumbersUsedUp) => unreachable!(),
        Err(error) => put_refusal(alloc, text, error),
    }
}

// Any other method.
#[inline(never)]
fn take_other(
    alloc: Global,
    session: &mut Session,
    tokens: &mut Tokens,
    text: &mut Vec<u8>,
) -> Result<bool, NoMemory>
    requires { HasNumbersFor 1 session.old }
    ensures { IfOk result (IsTaken (whole (frame_event (frame_of_word word.Method tokens.old))) session.old session.new text.old.items text.new.items) }
{
    match read_method_frame(alloc, tokens) {
        Ok(frame) => receive_last(alloc, session, frame, tokens, text),
        Err(ReadError::Bad) => Ok(false),
        Err(ReadError::Memory) => Err(NoMemory),
    }
}

fn take_header(
    alloc: Global,
    session: &mut Session,
    tokens: &mut Tokens,
    text: &mut Vec<u8>,
) -> Result<bool, NoMemory>
    requires { HasNumbersFor 1 session.old }
    ensures { IfOk result (IsTaken (whole (frame_event (frame_of_word word.Header tokens.old))) session.old session.new text.old.items text.new.items) }
{
    match read_header_frame(alloc, tokens) {
        Ok(frame) => receive_last(alloc, session, frame, tokens, text),
        Err(ReadError::Bad) => Ok(false),
        Err(ReadError::Memory) => Err(NoMemory),
    }
}

fn take_body(
    alloc: Global,
    session: &mut Session,
    tokens: &mut Tokens,
    text: &mut Vec<u8>,
) -> Result<bool, NoMemory>
    requires { HasNumbersFor 1 session.old }
    ensures { IfOk result (IsTaken (whole (frame_event (frame_of_word word.Body tokens.old))) session.old session.new text.old.items text.new.items) }
{
    match read_body_frame(alloc, tokens) {
        Ok(frame) => receive_last(alloc, session, frame, tokens, text),
        Err(ReadError::Bad) => Ok(false),
        Err(ReadError::Memory) => Err(NoMemory),
    }
}

// The session takes a frame, where it is the last of its line.
#[inline(always)]
fn receive_last(
    alloc: Global,
    session: &mut Session,
    frame: Frame,
    tokens: &mut Tokens,
    text: &mut Vec<u8>,
) -> Result<bool, NoMemory>
    requires { HasNumbersFor 1 session.old }
    ensures { IfOk result (IsTaken (whole (Some (event.Receive frame, tokens.old))) session.old session.new text.old.items text.new.items) }
{
    match tokens.next() {
        Some(_) => {
            drop(frame);
            Ok(false)
        }
        None => {
            print_received(alloc, session, frame, text)?;
            Ok(true)
        }
    }
}

// The session takes a frame, and the line of what becomes of it is appended.
#[inline(always)]
fn print_received(
    alloc: Global,
    session: &mut Session,
    frame: Frame,
    text: &mut Vec<u8>,
) -> Result<(), NoMemory>
    requires { HasNumbersFor 1 session.old }
    ensures { OnOk result (IsMet (event.Receive frame) session.old session.new text.old.items text.new.items) }
{
    match session.receive(alloc, frame) {
        Ok(Heard::Received) => {
            text.extend_from_slice(b"received\n")?;
            Ok(())
        }
        Ok(Heard::Passed) => {
            text.extend_from_slice(b"passed\n")?;
            Ok(())
        }
        Err(Error::NumbersUsedUp) => unreachable!(),
        Err(error) => put_refusal(alloc, text, error),
    }
}
