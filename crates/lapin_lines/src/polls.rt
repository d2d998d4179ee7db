//! Polls: `confirm N`, `ticket N` and `consumer N`.
ghost use Rattle.std.specs.Prelude.{◌≡◌, ◌++◌, ◌∷◌, [], IfOk, OnOk};
ghost use Rattle.lapin_types.specs.declared.event.Event.TheVariants as event;
ghost use Rattle.lapin_types.specs.declared.record.Record.TheVariants as told;
ghost use Rattle.lapin_types.specs.declared.outcome.Outcome.TheVariants as outcome;
ghost use Rattle.lapin_confirm.specs.Answers.{result_of};
ghost use Rattle.lapin_machine.specs.Numbers.{HasNumbersFor};
ghost use Rattle.lapin_machine.specs.Told.{ticket_record, next_record};
ghost use Rattle.lapin_text.specs.LineReading.{whole, event_of_word};
ghost use Rattle.lapin_text.specs.Records.{record_tokens, line_onto};
ghost use Rattle.lapin_text.specs.declared.words.Word.TheVariants as word;
ghost use Rattle.lapin_lines.specs.Lines.{IsMet, IsTaken};

use crate::steps::{last, print_step, put_refusal};
use lapin_machine::Session;
use lapin_text::{put_answered, put_confirmed, put_item};
use lapin_tokens::{Tokens, put_word, u64_at};
use lapin_types::{Answer, DeliveryResult, Error, Event, NoMemory, Outcome, Poll};
use std::alloc::Global;

// Takes a line that began with `confirm`.
#[inline(never)]
pub(crate) fn take_confirm(
    alloc: Global,
    session: &mut Session,
    tokens: &mut Tokens,
    text: &mut Vec<u8>,
) -> Result<bool, NoMemory>
    requires { HasNumbersFor 1 session.old }
    ensures { IfOk result (IsTaken (whole (event_of_word word.Confirm tokens.old)) session.old session.new text.old.items text.new.items) }
{
    let number = u64_at(tokens);
    match last(tokens, number)? {
        Some(number) => {
            print_confirm(alloc, session, number, text)?;
            Ok(true)
        }
        None => Ok(false),
    }
}

// Takes a line that began with `ticket`.
#[inline(never)]
pub(crate) fn take_ticket(
    alloc: Global,
    session: &mut Session,
    tokens: &mut Tokens,
    text: &mut Vec<u8>,
) -> Result<bool, NoMemory>
    requires { HasNumbersFor 1 session.old }
    ensures { IfOk result (IsTaken (whole (event_of_word word.Ticket tokens.old)) session.old session.new text.old.items text.new.items) }
{
    let number = u64_at(tokens);
    match last(tokens, number)? {
        Some(number) => {
            print_ticket(alloc, session, number, text)?;
            Ok(true)
        }
        None => Ok(false),
    }
}

// Takes a line that began with `consumer`.
#[inline(never)]
pub(crate) fn take_consumer(
    alloc: Global,
    session: &mut Session,
    tokens: &mut Tokens,
    text: &mut Vec<u8>,
) -> Result<bool, NoMemory>
    requires { HasNumbersFor 1 session.old }
    ensures { IfOk result (IsTaken (whole (event_of_word word.Consumer tokens.old)) session.old session.new text.old.items text.new.items) }
{
    let number = u64_at(tokens);
    match last(tokens, number)? {
        Some(number) => {
            print_item(alloc, session, number, text)?;
            Ok(true)
        }
        None => Ok(false),
    }
}

// Polls a confirm, and appends the line of its answer. An outcome without a message is written from the outcome alone.
fn print_confirm(
    alloc: Global,
    session: &mut Session,
    number: u64,
    text: &mut Vec<u8>,
) -> Result<(), NoMemory>
    requires { HasNumbersFor 1 session.old }
    ensures { OnOk result (IsMet (event.PollConfirm number) session.old session.new text.old.items text.new.items) }
{
    match session.poll_bare_confirm(number) {
        Some(outcome) => put_outcome(alloc, text, outcome),
        None => print_waiting(alloc, session, number, text),
    }
}

// The same where there is no outcome, or one with a message.
fn print_waiting(
    alloc: Global,
    session: &mut Session,
    number: u64,
    text: &mut Vec<u8>,
) -> Result<(), NoMemory>
    requires { HasNumbersFor 1 session.old }
    ensures { OnOk result (IsMet (event.PollConfirm number) session.old session.new text.old.items text.new.items) }
{
    if session.confirm_ready(number) {
        return print_step(alloc, session, Event::PollConfirm(number), text);
    }
    put_pending(text)
}

// Polls a ticket, and appends the line of its answer.
fn print_ticket(
    alloc: Global,
    session: &mut Session,
    number: u64,
    text: &mut Vec<u8>,
) -> Result<(), NoMemory>
    ensures { OnOk result (IsMet (event.PollTicket number) session.old session.new text.old.items text.new.items) }
{
    if !session.ticket_ready(number) {
        return put_pending(text);
    }
    let polled = session.poll_ticket(number);
    let put = put_ticket_poll(alloc, text, &polled);
    drop(polled);
    put
}

// Polls a consumer, and appends the line of its answer.
fn print_item(
    alloc: Global,
    session: &mut Session,
    number: u64,
    text: &mut Vec<u8>,
) -> Result<(), NoMemory>
    ensures { OnOk result (IsMet (event.PollConsumer number) session.old session.new text.old.items text.new.items) }
{
    let polled = session.poll_next(number);
    let put = put_consumer_poll(alloc, text, &polled);
    drop(polled);
    put
}

// ---- lines

fn put_pending(text: &mut Vec<u8>) -> Result<(), NoMemory>
    ensures { OnOk result (text.new.items ≡ line_onto text.old.items (record_tokens told.Pending) ++ 10 ∷ []) }
{
    text.extend_from_slice(b"pending\n")?;
    Ok(())
}

// The line of an outcome that no message came with.
fn put_outcome(alloc: Global, text: &mut Vec<u8>, outcome: Outcome) -> Result<(), NoMemory>
    ensures { OnOk result (text.new.items ≡ line_onto text.old.items (record_tokens (told.Confirmed (result_of outcome))) ++ 10 ∷ []) }
{
    match outcome {
        Outcome::Ack => text.extend_from_slice(b"confirmed ack -\n")?,
        Outcome::Nack => text.extend_from_slice(b"confirmed nack -\n")?,
        Outcome::NotRequested => put_unasked(text)?,
        Outcome::Failed(error) => put_failed(alloc, text, error)?,
    }
    Ok(())
}

// The line of a publish for which no confirm was asked.
fn put_unasked(text: &mut Vec<u8>) -> Result<(), NoMemory>
    ensures { OnOk result (text.new.items ≡ line_onto text.old.items (record_tokens (told.Confirmed (result_of outcome.NotRequested))) ++ 10 ∷ []) }
{
    text.extend_from_slice(b"confirmed")?;
    put_word(text, b"notrequested")?;
    text.push(b'\n')?;
    Ok(())
}

// The line of a confirm that failed.
#[inline(never)]
fn put_failed(alloc: Global, text: &mut Vec<u8>, error: Error) -> Result<(), NoMemory>
    ensures { OnOk result (text.new.items ≡ line_onto text.old.items (record_tokens (told.Confirmed (Err error))) ++ 10 ∷ []) }
{
    put_confirmed(alloc, text, &Err(error))?;
    text.push(b'\n')?;
    Ok(())
}

fn put_ticket_poll(
    alloc: Global,
    text: &mut Vec<u8>,
    polled: &Result<Poll<Result<Answer, Error>>, Error>,
) -> Result<(), NoMemory>
    ensures { OnOk result (text.new.items ≡ line_onto text.old.items (record_tokens (ticket_record polled.now)) ++ 10 ∷ []) }
{
    match polled {
        Ok(Poll::Ready(answer)) => {
            put_answered(alloc, text, answer)?;
            text.push(b'\n')?;
            Ok(())
        }
        Ok(Poll::Pending) => put_pending(text),
        Err(error) => put_refusal(alloc, text, *error),
    }
}

fn put_consumer_poll(
    alloc: Global,
    text: &mut Vec<u8>,
    polled: &Result<Poll<DeliveryResult>, Error>,
) -> Result<(), NoMemory>
    ensures { OnOk result (text.new.items ≡ line_onto text.old.items (record_tokens (next_record polled.now)) ++ 10 ∷ []) }
{
    match polled {
        Ok(Poll::Ready(item)) => {
            put_item(alloc, text, item)?;
            text.push(b'\n')?;
            Ok(())
        }
        Ok(Poll::Pending) => put_pending(text),
        Err(error) => put_refusal(alloc, text, *error),
    }
}
