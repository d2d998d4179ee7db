//! An event that a line names, made by the public call that it is about.

use crate::calling::{called, refused};
use lapin_session::{Consumer, Heard, PublisherConfirm, Session, Ticket};
use lapin_types::{AckerCall, Error, Event, Frame, Poll, Record};
use std::alloc::Global;

/// Makes the event by its own call, and tells its record.
pub fn made(alloc: Global, session: &mut Session, event: Event) -> Result<Record, Error> {
    match event {
        Event::Call(channel, call) => called(alloc, session, channel, call),
        Event::Next(flow) => next(alloc, session, flow),
        Event::Receive(frame) => received(alloc, session, frame),
        Event::PollTicket(number) => Ok(ticket(session, number)),
        Event::PollConfirm(number) => Ok(confirm(session, number)),
        Event::PollConsumer(number) => Ok(consumer(session, number)),
        Event::PollWait(channel) => wait(alloc, session, channel),
        Event::AsideTicket(number) => aside(Ticket { number }.set_aside(session)),
        Event::AsideConfirm(number) => aside(PublisherConfirm { number }.set_aside(alloc, session)),
        Event::State(channel) => Ok(Record::State(
            session.connection_state(),
            session.channel_state(channel),
        )),
        Event::Lost => match session.lost(alloc) {
            Ok(()) => Ok(Record::Lost),
            Err(_) => Err(Error::NoMemory),
        },
        Event::Acker(number, call) => acker(alloc, session, number, call),
        Event::Delegate(number) => delegate(alloc, session, number),
        Event::DropConsumer(number) => let_go(alloc, session, number),
        Event::NextJob => Ok(match session.next_job() {
            Some(job) => Record::Job(job),
            None => Record::NoJob,
        }),
    }
}

fn next(alloc: Global, session: &mut Session, flow: bool) -> Result<Record, Error> {
    match session.next_frame(alloc, flow)? {
        Some(left) => Ok(Record::Frame(left.frame)),
        None => Ok(Record::NoFrame),
    }
}

fn received(alloc: Global, session: &mut Session, frame: Frame) -> Result<Record, Error> {
    match session.receive(alloc, frame) {
        Ok(Heard::Received) => Ok(Record::Received),
        Ok(Heard::Passed) => Ok(Record::Passed),
        Err(error) => refused(error),
    }
}

fn ticket(session: &mut Session, number: u64) -> Record {
    match (Ticket { number }).poll(session) {
        Ok(Poll::Ready(answer)) => Record::Answer(answer),
        Ok(Poll::Pending) => Record::Pending,
        Err(error) => Record::Refused(error),
    }
}

fn confirm(session: &mut Session, number: u64) -> Record {
    match (PublisherConfirm { number }).poll(session) {
        Ok(Poll::Ready(outcome)) => Record::Confirmed(outcome),
        Ok(Poll::Pending) => Record::Pending,
        Err(error) => Record::Refused(error),
    }
}

fn consumer(session: &mut Session, number: u64) -> Record {
    match (Consumer { number }).poll_next(session) {
        Ok(Poll::Ready(item)) => Record::Item(item),
        Ok(Poll::Pending) => Record::Pending,
        Err(error) => Record::Refused(error),
    }
}

fn wait(alloc: Global, session: &mut Session, channel: u16) -> Result<Record, Error> {
    match session.wait_for_confirms(alloc, channel)? {
        Poll::Ready(messages) => Ok(Record::Returned(messages)),
        Poll::Pending => Ok(Record::Pending),
    }
}

fn aside(answer: Result<(), Error>) -> Result<Record, Error> {
    match answer {
        Ok(()) => Ok(Record::Aside),
        Err(error) => refused(error),
    }
}

fn acker(
    alloc: Global,
    session: &mut Session,
    number: u64,
    call: AckerCall,
) -> Result<Record, Error> {
    match session.acker_call(alloc, number, call) {
        Ok(Some(ticket)) => Ok(Record::Ticket(ticket.number)),
        Ok(None) => Ok(Record::No),
        Err(error) => refused(error),
    }
}

// Each of the two names of the call is taken once: the consumer's for one that was given, the session's for any other.
fn delegate(alloc: Global, session: &mut Session, number: u64) -> Result<Record, Error> {
    let answer = if session.consumers().channel(number).is_some() {
        Consumer { number }.set_delegate(alloc, session)
    } else {
        session.set_delegate(alloc, number)
    };
    match answer {
        Ok(()) => Ok(Record::Delegated),
        Err(error) => refused(error),
    }
}

fn let_go(alloc: Global, session: &mut Session, number: u64) -> Result<Record, Error> {
    let answer = if session.consumers().registered(number) {
        Consumer { number }.close(alloc, session)
    } else {
        session.close_consumer(alloc, number)
    };
    match answer {
        Ok(canceled) => Ok(Record::Dropped(canceled)),
        Err(error) => refused(error),
    }
}
