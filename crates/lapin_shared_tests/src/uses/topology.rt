//! Two histories of a channel, told by what its session says that it declared: a bind before its declare, and an unbind that takes two
//! equal bindings away.

use crate::uses::{CHANNEL, receive, short};
use lapin_session::{Channel, Session};
use lapin_types::{
    ChannelMethod, Error, FieldTable, Frame, Method, NoMemory, QueueBindOptions,
    QueueDeclareOptions, QueueMethod,
};
use std::alloc::Global;
use std::process::Abort;
use std::test::Fail;

// The channel is opened, and the broker answers.
fn open(session: &mut Session, alloc: Global) -> Result<(), Error> {
    let _ticket = session.open_channel(alloc, CHANNEL)?;
    let open = Method::Channel(ChannelMethod::OpenOk);
    receive(session, alloc, Frame::Method(CHANNEL, open))
}

fn declare(session: &mut Session, alloc: Global, queue: &str, nowait: bool) -> Result<(), Error> {
    let queue = short(alloc, queue)?;
    let options = QueueDeclareOptions {
        nowait,
        ..QueueDeclareOptions::default()
    };
    Channel { id: CHANNEL }.queue_declare(alloc, session, queue, options, FieldTable::new(alloc))?;
    Ok(())
}

fn bind(session: &mut Session, alloc: Global, queue: &str, key: &str) -> Result<(), Error> {
    let queue = short(alloc, queue)?;
    let exchange = short(alloc, "logs")?;
    let key = short(alloc, key)?;
    let options = QueueBindOptions { nowait: true };
    Channel { id: CHANNEL }.queue_bind(
        alloc,
        session,
        queue,
        exchange,
        key,
        options,
        FieldTable::new(alloc),
    )?;
    Ok(())
}

// The broker answers a declare, under a name that it may have made.
fn declared(session: &mut Session, alloc: Global, queue: &str) -> Result<(), Error> {
    let method = QueueMethod::DeclareOk {
        queue: short(alloc, queue)?,
        message_count: 0,
        consumer_count: 0,
    };
    receive(
        session,
        alloc,
        Frame::Method(CHANNEL, Method::Queue(method)),
    )
}

// Asks the broker to take a binding away.
fn unbind(session: &mut Session, alloc: Global, queue: &str, key: &str) -> Result<(), Error> {
    let queue = short(alloc, queue)?;
    let exchange = short(alloc, "logs")?;
    let key = short(alloc, key)?;
    let arguments = FieldTable::new(alloc);
    Channel { id: CHANNEL }.queue_unbind(alloc, session, queue, exchange, key, arguments)?;
    Ok(())
}

// A line a queue: its name, whether it was declared, and the keys of its bindings.
fn told(session: &Session, alloc: Global) -> Result<String, NoMemory> {
    let mut text = String::new(alloc);
    let Some(definition) = session.topology(CHANNEL) else {
        return Ok(text);
    };
    for place in 0..definition.queues.len() {
        if let Some(queue) = definition.queues.at(place) {
            text.push_str(queue.name.as_str())?;
            text.push_str(if queue.is_declared {
                " declared"
            } else {
                " bound"
            })?;
            for place in 0..queue.bindings.len() {
                if let Some(binding) = queue.bindings.at(place) {
                    text.push_str(" ")?;
                    text.push_str(binding.routing_key.as_str())?;
                }
            }
            text.push_str("\n")?;
        }
    }
    Ok(text)
}

fn is_told(session: &Session, alloc: Global, wanted: &str) -> Result<bool, Error> {
    let text = told(session, alloc)?;
    Ok(text.as_str() == wanted)
}

// What is called with wait is recorded as its answer comes, what is called without wait at once.
#[test]
fn a_bind_before_its_declare(rt: HostRuntime) -> Result<(), Fail> {
    let mut session = Session::new(rt.alloc(), 4096)?;
    binds_before(&rt, rt.alloc(), &mut session)?;
    Ok(())
}

fn binds_before<R: Abort>(rt: &R, alloc: Global, session: &mut Session) -> Result<(), Error> {
    open(session, alloc)?;
    bind(session, alloc, "mail", "info")?;
    declare(session, alloc, "audit", true)?;
    declare(session, alloc, "mail", false)?;
    assert!(rt; is_told(session, alloc, "audit declared\nmail bound info\n")?);
    declared(session, alloc, "mail")?;
    assert!(rt; is_told(session, alloc, "audit declared\nmail declared info\n")?);
    Ok(())
}

#[test]
fn an_unbind_removes_two_equal_bindings(rt: HostRuntime) -> Result<(), Fail> {
    let mut session = Session::new(rt.alloc(), 4096)?;
    unbinds_two(&rt, rt.alloc(), &mut session)?;
    Ok(())
}

fn unbinds_two<R: Abort>(rt: &R, alloc: Global, session: &mut Session) -> Result<(), Error> {
    open(session, alloc)?;
    for key in ["info", "error", "info"] {
        bind(session, alloc, "mail", key)?;
    }
    unbind(session, alloc, "mail", "info")?;
    assert!(rt; is_told(session, alloc, "mail bound info error info\n")?);
    let unbound = Method::Queue(QueueMethod::UnbindOk);
    receive(session, alloc, Frame::Method(CHANNEL, unbound))?;
    assert!(rt; is_told(session, alloc, "mail bound error\n")?);
    Ok(())
}
