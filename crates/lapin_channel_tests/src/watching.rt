//! Which of several tickets, confirms and consumers has something.

use crate::driver::{heard, sent};
use lapin_loop::{Awaited, Watch, is_ready};
use lapin_session::{Channel, Consumer, Published, Session};
use lapin_types::{
    BasicConsumeOptions, BasicProperties, BasicPublishOptions, ConfirmSelectOptions, Error,
    FieldTable, ShortString,
};
use std::alloc::Global;
use std::process::Abort;
use std::test::Fail;

fn published(alloc: Global, session: &mut Session) -> Result<Published, Error> {
    let exchange = ShortString::empty(alloc)?;
    let key = ShortString::literal(alloc, "q")?;
    Channel { id: 1 }.basic_publish(
        alloc,
        session,
        exchange,
        key,
        BasicPublishOptions::default(),
        b"hi",
        BasicProperties::default(),
    )
}

// A letter for what is ready next: t and the ticket, c and the confirm, m and the consumer, or a dash.
fn next(watch: &mut Watch, session: &Session) -> (char, u64) {
    match watch.next_ready(session) {
        Some(Awaited::Ticket(ticket)) => ('t', ticket.number),
        Some(Awaited::Confirm(confirm)) => ('c', confirm.number),
        Some(Awaited::Consumer(consumer)) => ('m', consumer.number),
        None => ('-', 0),
    }
}

// Whether that is ready next.
fn is_next(watch: &mut Watch, session: &Session, letter: char, number: u64) -> bool {
    let (found, of) = next(watch, session);
    found == letter && of == number
}

fn watch_publishes(alloc: Global, session: &mut Session, watch: &mut Watch) -> Result<(), Error> {
    for _ in 0..3 {
        let published = published(alloc, session)?;
        watch.add(Awaited::Confirm(published.confirm))?;
    }
    Ok(())
}

fn tickets_are_told<R: Abort>(
    rt: &R,
    alloc: Global,
    session: &mut Session,
    watch: &mut Watch,
) -> Result<(), Error> {
    watch.add(Awaited::Ticket(session.open_channel(alloc, 1)?))?;
    assert!(rt; is_next(watch, session, '-', 0));
    sent(alloc, session)?;
    heard(alloc, session, "method 1 channel.open-ok")?;
    assert!(rt; is_next(watch, session, 't', 1));
    assert!(rt; is_next(watch, session, '-', 0));
    let options = ConfirmSelectOptions { nowait: true };
    let select = Channel { id: 1 }.confirm_select(alloc, session, options)?;
    watch.add(Awaited::Ticket(select))?;
    watch_publishes(alloc, session, watch)?;
    sent(alloc, session)?;
    assert!(rt; is_next(watch, session, 't', 2));
    assert!(rt; is_next(watch, session, '-', 0));
    Ok(())
}

fn confirms_are_told<R: Abort>(
    rt: &R,
    alloc: Global,
    session: &mut Session,
    watch: &mut Watch,
) -> Result<(), Error> {
    heard(alloc, session, "method 1 basic.ack 2 0")?;
    assert!(rt; is_next(watch, session, 'c', 2));
    assert!(rt; is_next(watch, session, '-', 0));
    heard(alloc, session, "method 1 basic.nack 3 1 0")?;
    assert!(rt; is_next(watch, session, 'c', 1));
    assert!(rt; is_next(watch, session, 'c', 3));
    assert!(rt; is_next(watch, session, '-', 0));
    Ok(())
}

#[test]
fn each_is_told_once(rt: HostRuntime) -> Result<(), Fail> {
    let mut session = Session::new(rt.alloc(), 4096)?;
    let mut watch = Watch::new(rt.alloc());
    tickets_are_told(&rt, rt.alloc(), &mut session, &mut watch)?;
    confirms_are_told(&rt, rt.alloc(), &mut session, &mut watch)?;
    Ok(())
}

// The first consumer of the session, which takes the tag `t`.
const CONSUMER: Consumer = Consumer { number: 1 };

fn consumed(alloc: Global, session: &mut Session) -> Result<(), Error> {
    let queue = ShortString::literal(alloc, "q")?;
    let tag = ShortString::literal(alloc, "t")?;
    let options = BasicConsumeOptions::default();
    let arguments = FieldTable::new(alloc);
    Channel { id: 1 }.basic_consume(alloc, session, queue, tag, options, arguments)?;
    heard(alloc, session, "method 1 basic.consume-ok x74")
}

// A consumer that isn't there has something, its error; one that has nothing yet is waited for.
fn is_watched<R: Abort>(
    rt: &R,
    alloc: Global,
    session: &mut Session,
    watch: &mut Watch,
) -> Result<(), Error> {
    session.open_channel(alloc, 1)?;
    heard(alloc, session, "method 1 channel.open-ok")?;
    assert!(rt; is_ready(&Awaited::Consumer(CONSUMER), session));
    consumed(alloc, session)?;
    watch.add(Awaited::Consumer(CONSUMER))?;
    assert!(rt; !is_ready(&Awaited::Consumer(CONSUMER), session));
    assert!(rt; is_next(watch, session, '-', 0));
    Ok(())
}

fn is_told_again<R: Abort>(
    rt: &R,
    alloc: Global,
    session: &mut Session,
    watch: &mut Watch,
) -> Result<(), Error> {
    heard(alloc, session, "method 1 basic.deliver x74 1 0 x x71")?;
    heard(alloc, session, "header 1 60 0 []")?;
    assert!(rt; is_next(watch, session, 'm', 1));
    assert!(rt; is_next(watch, session, '-', 0));
    drop(CONSUMER.poll_next(session)?);
    watch.add(Awaited::Consumer(CONSUMER))?;
    assert!(rt; is_next(watch, session, '-', 0));
    heard(alloc, session, "method 1 basic.cancel x74 0")?;
    assert!(rt; is_next(watch, session, 'm', 1));
    Ok(())
}

// A consumer that was told is waited for again once it has nothing more; its end is told too.
#[test]
fn a_consumer_has_something(rt: HostRuntime) -> Result<(), Fail> {
    let mut session = Session::new(rt.alloc(), 4096)?;
    let mut watch = Watch::new(rt.alloc());
    is_watched(&rt, rt.alloc(), &mut session, &mut watch)?;
    is_told_again(&rt, rt.alloc(), &mut session, &mut watch)?;
    Ok(())
}
