//! What a step under the lock answers: the session's call of the event's name is made, and its answer put in the record's place.
//!
//! The event stays where it is stored. What the session keeps of it is copied, and of an event that owns nothing is nothing copied. Events
//! that come seldom are copied whole, and go by the session's step.

ghost use Rattle.std.specs.Prelude.{◌≡◌, OnOk, OnErr};
ghost use Rattle.lapin_types.specs.Types.error as error_;
ghost use Rattle.lapin_types.specs.declared.call.Call.TheVariants as call_;
ghost use Rattle.lapin_types.specs.declared.event.Event.TheVariants as event_;
ghost use Rattle.lapin_types.specs.declared.record.Record.TheVariants as record_;
ghost use Rattle.lapin_confirm.specs.Answers.{result_of as result_of_lem};
ghost use Rattle.lapin_rules.specs.Incoming.{incoming_of};
ghost use Rattle.lapin_machine.specs.Numbers.{HasNumbersFor, ReceiveCause};
ghost use Rattle.lapin_machine.specs.Told.{HeardTold, WasHeard};
ghost use Rattle.lapin_machine.specs.World.{next, told_by};
ghost use Rattle.lapin_locked.specs.Answered.{IsAnswered};

use lapin_session::{Heard, Session};
use lapin_types::{
    BasicMethod, BasicProperties, BasicPublishOptions, Call, Confirmation, Error, Event, Frame,
    Method, NoMemory, Outcome, Payload, Poll, Record, ShortString,
};
use std::alloc::Global;

/// Makes the step that an event asks for, and puts its record in that place.
///
/// # Errors
/// `NoMemory`. The session is as it was then.
pub(crate) fn answer_event(
    alloc: Global,
    session: &mut Session,
    event: &Event,
    answer: &mut Record,
) -> Result<(), NoMemory>
    requires { HasNumbersFor 1 session.old }
    ensures ok { OnOk result (IsAnswered event.now session.old session.new answer.new) }
    ensures err { OnErr result (session.new ≡ session.old) }
{
    match event {
        Event::Next(flow) => answer_next(alloc, session, *flow, answer),
        Event::Receive(frame) => answer_frame(alloc, session, frame, answer),
        Event::PollConfirm(number) => {
            answer_confirm(session, *number, answer);
            Ok(())
        }
        Event::PollTicket(number) => {
            answer_ticket(session, *number, answer);
            Ok(())
        }
        Event::Call(channel, call) => answer_call(alloc, session, *channel, call, answer),
        _ => answer_whole(alloc, session, event, answer),
    }
}

// Asks for a frame.
#[inline(never)]
fn answer_next(
    alloc: Global,
    session: &mut Session,
    flow: bool,
    answer: &mut Record,
) -> Result<(), NoMemory>
    ensures ok { OnOk result (IsAnswered (event_.Next flow) session.old session.new answer.new) }
    ensures err { OnErr result (session.new ≡ session.old) }
{
    match session.hand_frame(alloc, flow) {
        Ok(Some(left)) => {
            *answer = Record::Frame(left.frame);
            Ok(())
        }
        Ok(None) => {
            *answer = Record::NoFrame;
            Ok(())
        }
        Err(NoMemory) => Err(NoMemory),
    }
}

// Takes a frame of the broker.
fn answer_frame(
    alloc: Global,
    session: &mut Session,
    frame: &Frame,
    answer: &mut Record,
) -> Result<(), NoMemory>
    requires { HasNumbersFor 1 session.old }
    ensures ok { OnOk result (IsAnswered (event_.Receive frame.now) session.old session.new answer.new) }
    ensures err { OnErr result (session.new ≡ session.old) }
{
    match hear(alloc, session, frame) {
        Ok(Heard::Received) => {
            *answer = Record::Received;
            Ok(())
        }
        Ok(Heard::Passed) => {
            *answer = Record::Passed;
            Ok(())
        }
        Err(Error::NumbersUsedUp) => unreachable!(),
        Err(error) => refuse(error, answer),
    }
}

// The session takes a frame: a confirmation without it, of any other a copy.
fn hear(alloc: Global, session: &mut Session, frame: &Frame) -> Result<Heard, Error>
    ensures told { HeardTold result (told_by session.old (event_.Receive frame.now)) }
    ensures ok { WasHeard result (session.new ≡ next session.old (event_.Receive frame.now)) (session.new ≡ session.old) }
    ensures cause { ReceiveCause result (incoming_of frame.now) session.old.wire }
{
    match frame {
        Frame::Method(
            channel,
            Method::Basic(
                BasicMethod::Ack {
                    delivery_tag,
                    multiple,
                },
            ),
        ) => session.receive_ack(alloc, *channel, *delivery_tag, *multiple),
        _ => hear_copy(alloc, session, frame),
    }
}

// The session takes a copy of a frame.
#[inline(never)]
fn hear_copy(alloc: Global, session: &mut Session, frame: &Frame) -> Result<Heard, Error>
    ensures told { HeardTold result (told_by session.old (event_.Receive frame.now)) }
    ensures ok { WasHeard result (session.new ≡ next session.old (event_.Receive frame.now)) (session.new ≡ session.old) }
    ensures cause { ReceiveCause result (incoming_of frame.now) session.old.wire }
{
    let Ok(copy) = frame.try_clone(alloc) else {
        return Err(Error::NoMemory);
    };
    session.receive(alloc, copy)
}

// Puts the refusal of a step in its record's place. Want of memory is none.
#[inline(never)]
fn refuse(error: Error, answer: &mut Record) -> Result<(), NoMemory>
    ensures memory { OnOk result (error ≡ error_.NoMemory → ⊥) }
    ensures told { OnOk result (answer.new ≡ record_.Refused error) }
    ensures err { OnErr result (error ≡ error_.NoMemory) }
{
    match error {
        Error::NoMemory => Err(NoMemory),
        error => {
            *answer = Record::Refused(error);
            Ok(())
        }
    }
}

// Polls a confirm. An outcome without a message is asked for by itself, which is narrow.
fn answer_confirm(session: &mut Session, number: u64, answer: &mut Record)
    ensures { IsAnswered (event_.PollConfirm number) session.old session.new answer.new }
{
    match session.poll_bare_confirm(number) {
        Some(outcome) => *answer = Record::Confirmed(result_of(outcome)),
        None => answer_waiting(session, number, answer),
    }
}

// The result of a confirm that came without a message.
fn result_of(outcome: Outcome) -> Result<Confirmation, Error>
    ensures { result ≡ result_of_lem outcome }
{
    match outcome {
        Outcome::Ack => Ok(Confirmation::Ack(None)),
        Outcome::Nack => Ok(Confirmation::Nack(None)),
        Outcome::NotRequested => Ok(Confirmation::NotRequested),
        Outcome::Failed(error) => Err(error),
    }
}

// The same where there is no outcome, or one with a message.
#[inline(never)]
fn answer_waiting(session: &mut Session, number: u64, answer: &mut Record)
    ensures { IsAnswered (event_.PollConfirm number) session.old session.new answer.new }
{
    match session.poll_confirm(number) {
        Ok(Poll::Ready(outcome)) => *answer = Record::Confirmed(outcome),
        Ok(Poll::Pending) => *answer = Record::Pending,
        Err(error) => *answer = Record::Refused(error),
    }
}

// Polls a ticket.
fn answer_ticket(session: &mut Session, number: u64, answer: &mut Record)
    ensures { IsAnswered (event_.PollTicket number) session.old session.new answer.new }
{
    match session.poll_ticket(number) {
        Ok(Poll::Ready(given)) => *answer = Record::Answer(given),
        Ok(Poll::Pending) => *answer = Record::Pending,
        Err(error) => *answer = Record::Refused(error),
    }
}

// Makes a call: a publish, which most are, with copies of what the session keeps of it.
fn answer_call(
    alloc: Global,
    session: &mut Session,
    channel: u16,
    call: &Call,
    answer: &mut Record,
) -> Result<(), NoMemory>
    requires { HasNumbersFor 1 session.old }
    ensures ok { OnOk result (IsAnswered (event_.Call channel call.now) session.old session.new answer.new) }
    ensures err { OnErr result (session.new ≡ session.old) }
{
    match call {
        Call::BasicPublish {
            exchange,
            routing_key,
            options,
            payload,
            properties,
        } => answer_publish(
            alloc,
            session,
            channel,
            exchange,
            routing_key,
            options,
            payload,
            properties,
            answer,
        ),
        _ => answer_other(alloc, session, channel, call, answer),
    }
}

// Publishes.
#[inline(never)]
fn answer_publish(
    alloc: Global,
    session: &mut Session,
    channel: u16,
    exchange: &ShortString,
    routing_key: &ShortString,
    options: &BasicPublishOptions,
    payload: &Payload,
    properties: &BasicProperties,
    answer: &mut Record,
) -> Result<(), NoMemory>
    requires { HasNumbersFor 1 session.old }
    ensures ok { OnOk result (IsAnswered (event_.Call channel (call_.BasicPublish exchange.now routing_key.now options.now payload.now properties.now)) session.old session.new answer.new) }
    ensures err { OnErr result (session.new ≡ session.old) }
{
    let exchange = exchange.try_clone(alloc)?;
    let routing_key = routing_key.try_clone(alloc)?;
    let payload = payload.try_clone(alloc)?;
    let properties = properties.try_clone(alloc)?;
    match session.basic_publish(
        alloc,
        channel,
        exchange,
        routing_key,
        *options,
        payload,
        properties,
    ) {
        Ok(published) => {
            *answer = Record::Publish {
                ticket: published.ticket.number,
                confirm: published.confirm.number,
            };
            Ok(())
        }
        Err(Error::NumbersUsedUp) => unreachable!(),
        Err(error) => refuse(error, answer),
    }
}

// Makes any other call, of which a copy goes to the session.
#[inline(never)]
fn answer_other(
    alloc: Global,
    session: &mut Session,
    channel: u16,
    call: &Call,
    answer: &mut Record,
) -> Result<(), NoMemory>
    requires { HasNumbersFor 1 session.old }
    ensures ok { OnOk result (IsAnswered (event_.Call channel call.now) session.old session.new answer.new) }
    ensures err { OnErr result (session.new ≡ session.old) }
{
    let Ok(copy) = call.try_clone(alloc) else {
        return Err(NoMemory);
    };
    step(alloc, session, Event::Call(channel, copy), answer)
}

// Makes the step of a copy of any other event.
#[inline(never)]
fn answer_whole(
    alloc: Global,
    session: &mut Session,
    event: &Event,
    answer: &mut Record,
) -> Result<(), NoMemory>
    requires { HasNumbersFor 1 session.old }
    ensures ok { OnOk result (IsAnswered event.now session.old session.new answer.new) }
    ensures err { OnErr result (session.new ≡ session.old) }
{
    let Ok(copy) = event.try_clone(alloc) else {
        return Err(NoMemory);
    };
    step(alloc, session, copy, answer)
}

// Makes a step of the session that has numbers left.
#[inline(never)]
fn step(
    alloc: Global,
    session: &mut Session,
    event: Event,
    answer: &mut Record,
) -> Result<(), NoMemory>
    requires { HasNumbersFor 1 session.old }
    ensures ok { OnOk result (IsAnswered event session.old session.new answer.new) }
    ensures err { OnErr result (session.new ≡ session.old) }
{
    match session.step(alloc, event) {
        Ok(told) => {
            *answer = told;
            Ok(())
        }
        Err(Error::NoMemory) => Err(NoMemory),
        Err(_) => unreachable!(),
    }
}
