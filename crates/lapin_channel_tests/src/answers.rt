//! Typed answers of tickets, a free channel number and names.

use crate::driver::{heard, sent};
use lapin_loop::{
    Typed, answer_of, free_channel, has_frames, poll_channel, poll_consumer, poll_count, poll_done,
    poll_flow, poll_got, poll_queue,
};
use lapin_session::{Channel, Consumer, Session, Ticket};
use lapin_types::{
    Answer, BasicConsumeOptions, BasicGetMessage, BasicGetOptions, ChannelFlowOptions,
    ConfirmSelectOptions, Error, FieldTable, Queue, QueueDeclareOptions, QueuePurgeOptions,
    ShortString,
};
use std::alloc::Global;
use std::process::Abort;
use std::test::Fail;

// What a ticket tells, in a word.
fn word<T: Drop>(typed: Typed<T>) -> &'static str {
    let word = match &typed {
        Typed::Pending => "pending",
        Typed::Ready(_) => "ready",
        Typed::Other(_) => "other",
    };
    drop(typed);
    word
}

// The number that it tells, if it is ready.
fn number(typed: Typed<u32>) -> Option<u32> {
    let number = match &typed {
        Typed::Ready(number) => Some(*number),
        _ => None,
    };
    drop(typed);
    number
}

fn mark(typed: Typed<bool>) -> Option<bool> {
    let mark = match &typed {
        Typed::Ready(mark) => Some(*mark),
        _ => None,
    };
    drop(typed);
    mark
}

fn channel(typed: Typed<u16>) -> Option<u16> {
    let channel = match &typed {
        Typed::Ready(channel) => Some(*channel),
        _ => None,
    };
    drop(typed);
    channel
}

fn messages(typed: Typed<Queue>) -> Option<u32> {
    let count = match &typed {
        Typed::Ready(queue) => Some(queue.message_count()),
        _ => None,
    };
    drop(typed);
    count
}

fn consumer(typed: Typed<Consumer>) -> Option<u64> {
    let number = match &typed {
        Typed::Ready(consumer) => Some(consumer.number),
        _ => None,
    };
    drop(typed);
    number
}

fn refusal(answer: Result<Option<Answer>, Error>) -> Option<Error> {
    match answer {
        Ok(answer) => {
            drop(answer);
            None
        }
        Err(error) => Some(error),
    }
}

// Whether it tells that a get found no message.
fn is_empty(typed: Typed<Option<BasicGetMessage>>) -> bool {
    let empty = matches!(&typed, Typed::Ready(None));
    drop(typed);
    empty
}

fn opened(alloc: Global, session: &mut Session) -> Result<Channel, Error> {
    let ticket = session.open_channel(alloc, 1)?;
    sent(alloc, session)?;
    heard(alloc, session, "method 1 channel.open-ok")?;
    match channel(poll_channel(&ticket, session)?) {
        Some(id) => Ok(Channel { id }),
        None => Err(Error::UnknownTicket),
    }
}

// The tickets of calls, each of which has an answer of its own kind.
#[derive(Clone, Copy)]
struct Asked {
    select: u64,
    declare: u64,
    purge: u64,
    flow: u64,
    get: u64,
    consume: u64,
}

fn declared(alloc: Global, session: &mut Session, channel: &Channel) -> Result<u64, Error> {
    let name = ShortString::literal(alloc, "q")?;
    let options = QueueDeclareOptions::default();
    let ticket = channel.queue_declare(alloc, session, name, options, FieldTable::new(alloc))?;
    Ok(ticket.number)
}

fn purged(alloc: Global, session: &mut Session, channel: &Channel) -> Result<u64, Error> {
    let name = ShortString::literal(alloc, "q")?;
    let ticket = channel.queue_purge(alloc, session, name, QueuePurgeOptions::default())?;
    Ok(ticket.number)
}

fn got(alloc: Global, session: &mut Session, channel: &Channel) -> Result<u64, Error> {
    let name = ShortString::literal(alloc, "q")?;
    let ticket = channel.basic_get(alloc, session, name, BasicGetOptions::default())?;
    Ok(ticket.number)
}

fn consumed(alloc: Global, session: &mut Session, channel: &Channel) -> Result<u64, Error> {
    let name = ShortString::literal(alloc, "q")?;
    let tag = ShortString::empty(alloc)?;
    let options = BasicConsumeOptions::default();
    let arguments = FieldTable::new(alloc);
    let ticket = channel.basic_consume(alloc, session, name, tag, options, arguments)?;
    Ok(ticket.number)
}

fn ask_all(alloc: Global, session: &mut Session, channel: &Channel) -> Result<Asked, Error> {
    let select = channel
        .confirm_select(alloc, session, ConfirmSelectOptions::default())?
        .number;
    let declare = declared(alloc, session, channel)?;
    let purge = purged(alloc, session, channel)?;
    let flow = channel
        .channel_flow(alloc, session, ChannelFlowOptions { active: true })?
        .number;
    let get = got(alloc, session, channel)?;
    let consume = consumed(alloc, session, channel)?;
    Ok(Asked {
        select,
        declare,
        purge,
        flow,
        get,
        consume,
    })
}

// The answers of the broker.
fn answered(alloc: Global, session: &mut Session) -> Result<(), Error> {
    sent(alloc, session)?;
    heard(alloc, session, "method 1 confirm.select-ok")?;
    heard(alloc, session, "method 1 queue.declare-ok x71 5 2")?;
    heard(alloc, session, "method 1 queue.purge-ok 3")?;
    heard(alloc, session, "method 1 channel.flow-ok 1")?;
    heard(alloc, session, "method 1 basic.get-empty")?;
    heard(alloc, session, "method 1 basic.consume-ok x74")
}

// What the ticket of a call without a value tells, in a word.
fn done(session: &mut Session, number: u64) -> Result<&'static str, Error> {
    Ok(word(poll_done(&Ticket { number }, session)?))
}

fn tell_their_kind<R: Abort>(rt: &R, session: &mut Session, asked: &Asked) -> Result<(), Error> {
    assert!(rt; done(session, asked.select)? == "ready");
    let declare = Ticket {
        number: asked.declare,
    };
    assert!(rt; messages(poll_queue(&declare, session)?) == Some(5));
    let purge = Ticket {
        number: asked.purge,
    };
    assert!(rt; number(poll_count(&purge, session)?) == Some(3));
    let flow = Ticket { number: asked.flow };
    assert!(rt; mark(poll_flow(&flow, session)?) == Some(true));
    let get = Ticket { number: asked.get };
    assert!(rt; is_empty(poll_got(&get, session)?));
    let consume = Ticket {
        number: asked.consume,
    };
    assert!(rt; consumer(poll_consumer(&consume, session)?) == Some(1));
    assert!(rt; refusal(answer_of(&consume, session)) == Some(Error::AlreadyTaken));
    Ok(())
}

fn answers_by_kind<R: Abort>(rt: &R, alloc: Global, session: &mut Session) -> Result<(), Error> {
    let channel = opened(alloc, session)?;
    let asked = ask_all(alloc, session, &channel)?;
    assert!(rt; done(session, asked.select)? == "pending");
    answered(alloc, session)?;
    tell_their_kind(rt, session, &asked)
}

#[test]
fn each_answer_by_its_kind(rt: HostRuntime) -> Result<(), Fail> {
    let mut session = Session::new(rt.alloc(), 4096)?;
    let done = answers_by_kind(&rt, rt.alloc(), &mut session);
    drop(session);
    Ok(done?)
}

// An answer of another kind is given all the same.
#[test]
fn another_answer_is_not_lost(rt: HostRuntime) -> Result<(), Fail> {
    let alloc = rt.alloc();
    let mut session = Session::new(alloc, 4096)?;
    let channel = opened(alloc, &mut session)?;
    let options = ConfirmSelectOptions { nowait: true };
    let select = channel.confirm_select(alloc, &mut session, options)?;
    assert_eq!(rt; word(poll_count(&select, &mut session)?), "other");
    Ok(())
}

#[test]
fn the_lowest_closed_channel_is_free(rt: HostRuntime) -> Result<(), Fail> {
    let alloc = rt.alloc();
    let mut session = Session::new(alloc, 4096)?;
    assert_eq!(rt; free_channel(&session, 2), Some(1));
    assert!(rt; !has_frames(&session));
    session.open_channel(alloc, 1)?;
    assert!(rt; has_frames(&session));
    assert_eq!(rt; free_channel(&session, 2), Some(2));
    session.open_channel(alloc, 2)?;
    assert_eq!(rt; free_channel(&session, 2), None);
    assert_eq!(rt; free_channel(&session, 65535), Some(3));
    Ok(())
}
