//! Callers without the command: one that waits for another's frame, many that make many steps, two that use one acker, and one that
//! isn't given back.

ghost use Rattle.std.specs.Prelude.{◌≡◌};

use crate::stepping::{answer_of, finished, make_lines};
use lapin_shared::{Caller, Client, Crew, FinishError, History};
use lapin_threads::each_mut;
use lapin_types::{
    AckerCall, Answer, BasicAckOptions, ChannelMethod, Event, Frame, Method, Record,
};
use std::alloc::Global;
use std::marker::Brand;
use std::process::Abort;
use std::sync::Wait;
use std::sync::atomic::{AtomicU64, Ordering};
use std::sync::ledger::Blank;
use std::test::Fail;
use std::thread::Threads;

fn missing<L: Crew, R: Wait + Abort>(rt: &R, alloc: Global, blank: Blank) -> Result<(), Fail>
    requires name { blank.name ≡ L.name }
    requires parts { (blank.parts ≡ 2) × (blank.parts ≡ L.parts) }
{
    let (client, mut callers) = Client::<L>::new(alloc, 4096, 2, blank)?;
    let first = callers.pop();
    match client.finish(rt, alloc, &mut callers) {
        Ok(_) => assert!(rt; false),
        Err(error) => assert_eq!(rt; error, FinishError::StillOut { made: 2, given: 1 }),
    }
    assert_eq!(rt; callers.len(), 1);
    drop(first);
    Ok(())
}

#[test]
fn all_callers_have_to_come_back(rt: HostRuntime) -> Result<(), Fail> {
    missing::<Brand, _>(&rt, rt.alloc(), Blank::new(2))
}

/// The most looks for a wait that begins.
const LOOKS: u64 = 10_000_000;

// Caller 1 waits for ticket 1, caller 2 hands in the frame that answers it, once caller 1 has come to its wait.
fn wait_or_receive<L: Crew, R: Wait>(
    rt: &R,
    alloc: Global,
    begun: &AtomicU64,
    caller: &mut Caller<L>,
) -> bool {
    if caller.number() == 1 {
        begun.store(1, Ordering::SeqCst);
        return caller.wait(rt, alloc, 1).is_ok();
    }
    for _ in 0..LOOKS {
        if begun.load(Ordering::SeqCst) > 0 {
            break;
        }
    }
    let reply = Frame::Method(1, Method::Channel(ChannelMethod::OpenOk));
    caller.make(rt, alloc, Event::Receive(reply)).is_ok()
}

fn waiting<L: Crew + Send + Sync, R: Threads + Wait + Abort + Sync>(
    rt: &R,
    alloc: Global,
    blank: Blank,
) -> Result<(), Fail>
    requires name { blank.name ≡ L.name }
    requires parts { (blank.parts ≡ 2) × (blank.parts ≡ L.parts) }
{
    let (client, mut callers) = Client::<L>::new(alloc, 4096, 2, blank)?;
    let _opening = answer_of(callers[0].open_channel(rt, alloc, 1))?;
    let _frame = answer_of(callers[0].next_frame(rt, alloc, true))?;
    let begun = AtomicU64::new(0);
    let job = |caller: &mut Caller<L>| wait_or_receive(rt, alloc, &begun, caller);
    assert!(rt; each_mut(rt, &job, callers.as_mut_slice()));
    let step = callers[0].log().last().ok_or("an entry")?;
    assert!(rt; matches!(step.answer(), Some(Record::Answer(Ok(Answer::Channel(1))))));
    let history = finished(client.finish(rt, alloc, &mut callers))?;
    assert_eq!(rt; history.len(), 4);
    let third = history.at(3).ok_or("an entry")?;
    assert_eq!(rt; third.caller, 2);
    Ok(())
}

#[test]
fn a_wait_ends_with_the_frame_of_another(rt: HostRuntime) -> Result<(), Fail> {
    waiting::<Brand, _>(&rt, rt.alloc(), Blank::new(2))
}

// A thousand steps, whose place in the log is that in the caller's own order.
fn make_many<L: Crew, R: Wait>(rt: &R, alloc: Global, caller: &mut Caller<L>) -> bool {
    for k in 0..1_000 {
        if caller.make(rt, alloc, Event::State(k)).is_err() {
            return false;
        }
    }
    true
}

// Whether the caller's entries of the history ask for the channels 0, 1, 2, .. in this order.
fn are_in_order(history: &History, caller: u64) -> bool {
    let mut next: u16 = 0;
    for place in 0..history.len() as u64 {
        let Some(entry) = history.at(place + 1) else {
            return false;
        };
        if entry.caller == caller {
            if !matches!(entry.event, Event::State(channel) if channel == next) {
                return false;
            }
            next = next.saturating_add(1);
        }
    }
    next == 1_000
}

fn many<L: Crew + Send + Sync, R: Threads + Wait + Abort + Sync>(
    rt: &R,
    alloc: Global,
    blank: Blank,
) -> Result<(), Fail>
    requires name { blank.name ≡ L.name }
    requires parts { (blank.parts ≡ 4) × (blank.parts ≡ L.parts) }
{
    let (client, mut callers) = Client::<L>::new(alloc, 4096, 4, blank)?;
    let job = |caller: &mut Caller<L>| make_many(rt, alloc, caller);
    assert!(rt; each_mut(rt, &job, callers.as_mut_slice()));
    let history = finished(client.finish(rt, alloc, &mut callers))?;
    assert_eq!(rt; history.len(), 4_000);
    for caller in 1..5 {
        assert!(rt; are_in_order(&history, caller));
    }
    Ok(())
}

#[test]
fn four_callers_make_a_thousand_steps_each(rt: HostRuntime) -> Result<(), Fail> {
    many::<Brand, _>(&rt, rt.alloc(), Blank::new(4))
}

/// A message of no bytes for consumer 1, whose acker is the first.
const ONE_MESSAGE: &str = "recv method 1 basic.deliver x74 8 0 x x71\nrecv header 1 60 0 []\n";

// A hundred calls of the first acker.
fn ack_often<L: Crew, R: Wait>(rt: &R, alloc: Global, caller: &mut Caller<L>) -> bool {
    for _ in 0..100 {
        let ack = AckerCall::Ack(BasicAckOptions::default());
        if caller.make(rt, alloc, Event::Acker(1, ack)).is_err() {
            return false;
        }
    }
    true
}

// How many calls of the first acker got a ticket, and how many the answer no.
fn uses_of_the_first(history: &History) -> (u64, u64) {
    let mut tickets: u64 = 0;
    let mut noes: u64 = 0;
    for place in 0..history.len() as u64 {
        let Some(entry) = history.at(place + 1) else {
            return (tickets, noes);
        };
        match (&entry.event, &entry.answer) {
            (Event::Acker(1, _), Record::Ticket(_)) => tickets = tickets.saturating_add(1),
            (Event::Acker(1, _), Record::No) => noes = noes.saturating_add(1),
            _ => {}
        }
    }
    (tickets, noes)
}

fn one_acker<L: Crew + Send + Sync, R: Threads + Wait + Abort + Sync>(
    rt: &R,
    alloc: Global,
    blank: Blank,
) -> Result<(), Fail>
    requires name { blank.name ≡ L.name }
    requires parts { (blank.parts ≡ 2) × (blank.parts ≡ L.parts) }
{
    let (client, mut callers) = Client::<L>::new(alloc, 4096, 2, blank)?;
    make_lines(rt, alloc, &mut callers[0], ONE_MESSAGE)?;
    let job = |caller: &mut Caller<L>| ack_often(rt, alloc, caller);
    assert!(rt; each_mut(rt, &job, callers.as_mut_slice()));
    let history = finished(client.finish(rt, alloc, &mut callers))?;
    assert_eq!(rt; uses_of_the_first(&history), (1, 199));
    Ok(())
}

#[test]
fn two_callers_use_one_acker_once(rt: HostRuntime) -> Result<(), Fail> {
    one_acker::<Brand, _>(&rt, rt.alloc(), Blank::new(2))
}
