//! Each call of a caller by name, once, with the record that it gets; and a step of the lock's value by hand.

ghost use Rattle.std.specs.Prelude.{◌≡◌};

use crate::stepping::{are_steps, finished};
use lapin_shared::{Caller, Client, Crew, Entry, Locked, StepError, Told};
use lapin_types::{
    AccessRequestOptions, BasicAckOptions, BasicCancelOptions, BasicConsumeOptions,
    BasicGetOptions, BasicNackOptions, BasicProperties, BasicPublishOptions, BasicQosOptions,
    BasicRecoverAsyncOptions, BasicRecoverOptions, BasicRejectOptions, ChannelFlowOptions,
    ChannelMethod, ConfirmSelectOptions, Event, ExchangeBindOptions, ExchangeDeclareOptions,
    ExchangeDeleteOptions, ExchangeKind, ExchangeUnbindOptions, FieldTable, Frame, Method,
    QueueBindOptions, QueueDeclareOptions, QueueDeleteOptions, QueuePurgeOptions, Record,
    ShortString,
};
use std::alloc::Global;
use std::marker::Brand;
use std::process::Abort;
use std::sync::Wait;
use std::sync::ledger::Blank;
use std::test::Fail;

/// The calls in the order of the functions below. A ticket is one more than the one before it, a refused call has none, and channel 2
/// isn't open.
const STEPS: &str = "call 1 channel.open -> ticket 1
next 1 -> frame method 1 channel.open
recv method 1 channel.open-ok -> received
ticket 1 -> answer channel 1
state 1 -> state open open
call 1 access.request x2f 1 0 0 0 0 -> ticket 2
call 1 channel.flow 1 -> ticket 3
call 1 exchange.declare x65 x746f706963 0 1 0 0 0 {} -> ticket 4
call 1 exchange.bind x64 x65 x6b 0 {} -> ticket 5
call 1 exchange.unbind x64 x65 x6b 0 {} -> ticket 6
call 1 exchange.delete x65 1 0 -> ticket 7
call 1 queue.declare x71 0 1 0 0 0 {} -> ticket 8
call 1 queue.bind x71 x65 x6b 0 {} -> ticket 9
call 1 queue.unbind x71 x65 x6b {} -> ticket 10
call 1 queue.purge x71 0 -> ticket 11
call 1 queue.delete x71 0 1 0 -> ticket 12
call 1 basic.qos 10 1 -> ticket 13
call 1 basic.consume x71 x74 0 1 0 1 {} -> ticket 14
consumer 1 -> pending
call 1 basic.cancel x74 0 -> ticket 15
call 1 basic.get x71 1 -> ticket 16
call 1 basic.ack 1 1 -> ticket 17
call 1 basic.nack 2 0 1 -> ticket 18
call 1 basic.reject 3 1 -> ticket 19
call 1 basic.recover-async 1 -> ticket 20
call 1 basic.recover 1 -> ticket 21
call 1 confirm.select 0 -> ticket 22
call 1 confirm.limit 2 -> ticket 23
call 1 basic.publish x65 x6b 1 0 x6869 [] -> publish 24 1
call 1 basic.try-publish x65 x6b 0 0 x [priority=7] -> publish 25 2
call 1 basic.try-publish x65 x6b 0 0 x [priority=7] -> refused ConfirmsOutstanding 2
confirm 1 -> pending
wait 1 -> pending
aside-confirm 2 -> aside
call 1 tx.select -> ticket 26
call 1 tx.commit -> ticket 27
call 1 tx.rollback -> ticket 28
call 1 channel.close 200 x6f6b -> ticket 29
call 2 tx.select -> refused InvalidChannelState closed
call 2 tx.commit -> refused InvalidChannelState closed
call 2 tx.rollback -> refused InvalidChannelState closed";

/// Fails where there was no memory for a step.
fn made(step: Result<&Told, StepError>) -> Result<(), Fail> {
    match step {
        Ok(_) => Ok(()),
        Err(_) => Err(Fail::from("memory")),
    }
}

fn short(alloc: Global, text: &str) -> Result<ShortString, Fail> {
    Ok(ShortString::new(alloc, text)?)
}

/// Opens the channel, whose open-ok comes.
fn open<L: Crew, R: Wait>(rt: &R, alloc: Global, caller: &mut Caller<L>) -> Result<(), Fail> {
    made(caller.open_channel(rt, alloc, 1))?;
    made(caller.next_frame(rt, alloc, true))?;
    let reply = Frame::Method(1, Method::Channel(ChannelMethod::OpenOk));
    made(caller.receive(rt, alloc, reply))?;
    made(caller.poll_ticket(rt, alloc, 1))?;
    made(caller.step(rt, alloc, Event::State(1)))
}

fn access<L: Crew, R: Wait>(rt: &R, alloc: Global, caller: &mut Caller<L>) -> Result<(), Fail> {
    let realm = short(alloc, "/")?;
    let options = AccessRequestOptions {
        exclusive: true,
        ..AccessRequestOptions::default()
    };
    made(caller.access_request(rt, alloc, 1, realm, options))
}

fn flow<L: Crew, R: Wait>(rt: &R, alloc: Global, caller: &mut Caller<L>) -> Result<(), Fail> {
    let options = ChannelFlowOptions { active: true };
    made(caller.channel_flow(rt, alloc, 1, options))
}

fn close<L: Crew, R: Wait>(rt: &R, alloc: Global, caller: &mut Caller<L>) -> Result<(), Fail> {
    let reply_text = short(alloc, "ok")?;
    made(caller.channel_close(rt, alloc, 1, 200, reply_text))
}

fn declare_exchange<L: Crew, R: Wait>(
    rt: &R,
    alloc: Global,
    caller: &mut Caller<L>,
) -> Result<(), Fail> {
    let exchange = short(alloc, "e")?;
    let options = ExchangeDeclareOptions {
        durable: true,
        ..ExchangeDeclareOptions::default()
    };
    let arguments = FieldTable::new(alloc);
    made(caller.exchange_declare(
        rt,
        alloc,
        1,
        exchange,
        ExchangeKind::Topic,
        options,
        arguments,
    ))
}

fn bind_exchange<L: Crew, R: Wait>(
    rt: &R,
    alloc: Global,
    caller: &mut Caller<L>,
) -> Result<(), Fail> {
    let destination = short(alloc, "d")?;
    let source = short(alloc, "e")?;
    let key = short(alloc, "k")?;
    let options = ExchangeBindOptions { nowait: false };
    let arguments = FieldTable::new(alloc);
    made(caller.exchange_bind(rt, alloc, 1, destination, source, key, options, arguments))
}

fn unbind_exchange<L: Crew, R: Wait>(
    rt: &R,
    alloc: Global,
    caller: &mut Caller<L>,
) -> Result<(), Fail> {
    let destination = short(alloc, "d")?;
    let source = short(alloc, "e")?;
    let key = short(alloc, "k")?;
    let options = ExchangeUnbindOptions { nowait: false };
    let arguments = FieldTable::new(alloc);
    made(caller.exchange_unbind(rt, alloc, 1, destination, source, key, options, arguments))
}

fn exchanges<L: Crew, R: Wait>(rt: &R, alloc: Global, caller: &mut Caller<L>) -> Result<(), Fail> {
    declare_exchange(rt, alloc, caller)?;
    bind_exchange(rt, alloc, caller)?;
    unbind_exchange(rt, alloc, caller)?;
    let exchange = short(alloc, "e")?;
    let options = ExchangeDeleteOptions {
        if_unused: true,
        nowait: false,
    };
    made(caller.exchange_delete(rt, alloc, 1, exchange, options))
}

fn declare_queue<L: Crew, R: Wait>(
    rt: &R,
    alloc: Global,
    caller: &mut Caller<L>,
) -> Result<(), Fail> {
    let queue = short(alloc, "q")?;
    let options = QueueDeclareOptions {
        durable: true,
        ..QueueDeclareOptions::default()
    };
    let arguments = FieldTable::new(alloc);
    made(caller.queue_declare(rt, alloc, 1, queue, options, arguments))
}

fn bind_queue<L: Crew, R: Wait>(rt: &R, alloc: Global, caller: &mut Caller<L>) -> Result<(), Fail> {
    let queue = short(alloc, "q")?;
    let exchange = short(alloc, "e")?;
    let key = short(alloc, "k")?;
    let options = QueueBindOptions { nowait: false };
    let arguments = FieldTable::new(alloc);
    made(caller.queue_bind(rt, alloc, 1, queue, exchange, key, options, arguments))
}

fn unbind_queue<L: Crew, R: Wait>(
    rt: &R,
    alloc: Global,
    caller: &mut Caller<L>,
) -> Result<(), Fail> {
    let queue = short(alloc, "q")?;
    let exchange = short(alloc, "e")?;
    let key = short(alloc, "k")?;
    let arguments = FieldTable::new(alloc);
    made(caller.queue_unbind(rt, alloc, 1, queue, exchange, key, arguments))
}

fn purge<L: Crew, R: Wait>(rt: &R, alloc: Global, caller: &mut Caller<L>) -> Result<(), Fail> {
    let queue = short(alloc, "q")?;
    let options = QueuePurgeOptions { nowait: false };
    made(caller.queue_purge(rt, alloc, 1, queue, options))
}

fn queues<L: Crew, R: Wait>(rt: &R, alloc: Global, caller: &mut Caller<L>) -> Result<(), Fail> {
    declare_queue(rt, alloc, caller)?;
    bind_queue(rt, alloc, caller)?;
    unbind_queue(rt, alloc, caller)?;
    purge(rt, alloc, caller)?;
    let queue = short(alloc, "q")?;
    let options = QueueDeleteOptions {
        if_empty: true,
        ..QueueDeleteOptions::default()
    };
    made(caller.queue_delete(rt, alloc, 1, queue, options))
}

fn consume<L: Crew, R: Wait>(rt: &R, alloc: Global, caller: &mut Caller<L>) -> Result<(), Fail> {
    let queue = short(alloc, "q")?;
    let tag = short(alloc, "t")?;
    let options = BasicConsumeOptions {
        no_ack: true,
        nowait: true,
        ..BasicConsumeOptions::default()
    };
    let arguments = FieldTable::new(alloc);
    made(caller.basic_consume(rt, alloc, 1, queue, tag, options, arguments))?;
    made(caller.poll_next(rt, alloc, 1))
}

fn get<L: Crew, R: Wait>(rt: &R, alloc: Global, caller: &mut Caller<L>) -> Result<(), Fail> {
    let queue = short(alloc, "q")?;
    let options = BasicGetOptions { no_ack: true };
    made(caller.basic_get(rt, alloc, 1, queue, options))
}

/// Asks for messages, in all ways.
fn consumers<L: Crew, R: Wait>(rt: &R, alloc: Global, caller: &mut Caller<L>) -> Result<(), Fail> {
    let options = BasicQosOptions { global: true };
    made(caller.basic_qos(rt, alloc, 1, 10, options))?;
    consume(rt, alloc, caller)?;
    let tag = short(alloc, "t")?;
    let options = BasicCancelOptions { nowait: false };
    made(caller.basic_cancel(rt, alloc, 1, tag, options))?;
    get(rt, alloc, caller)
}

/// Says what became of deliveries.
fn settlements<L: Crew, R: Wait>(
    rt: &R,
    alloc: Global,
    caller: &mut Caller<L>,
) -> Result<(), Fail> {
    let options = BasicAckOptions { multiple: true };
    made(caller.basic_ack(rt, alloc, 1, 1, options))?;
    let options = BasicNackOptions {
        multiple: false,
        requeue: true,
    };
    made(caller.basic_nack(rt, alloc, 1, 2, options))?;
    let options = BasicRejectOptions { requeue: true };
    made(caller.basic_reject(rt, alloc, 1, 3, options))
}

fn recoveries<L: Crew, R: Wait>(rt: &R, alloc: Global, caller: &mut Caller<L>) -> Result<(), Fail> {
    let options = BasicRecoverAsyncOptions { requeue: true };
    made(caller.basic_recover_async(rt, alloc, 1, options))?;
    let options = BasicRecoverOptions { requeue: true };
    made(caller.basic_recover(rt, alloc, 1, options))
}

/// Asks for confirms, at most two outstanding.
fn select<L: Crew, R: Wait>(rt: &R, alloc: Global, caller: &mut Caller<L>) -> Result<(), Fail> {
    let options = ConfirmSelectOptions { nowait: false };
    made(caller.confirm_select(rt, alloc, 1, options))?;
    made(caller.confirm_limit(rt, alloc, 1, 2))
}

fn publish<L: Crew, R: Wait>(rt: &R, alloc: Global, caller: &mut Caller<L>) -> Result<(), Fail> {
    let exchange = short(alloc, "e")?;
    let key = short(alloc, "k")?;
    let options = BasicPublishOptions {
        mandatory: true,
        immediate: false,
    };
    let properties = BasicProperties::default();
    made(caller.basic_publish(rt, alloc, 1, exchange, key, options, b"hi", properties))
}

fn try_publish<L: Crew, R: Wait>(
    rt: &R,
    alloc: Global,
    caller: &mut Caller<L>,
) -> Result<(), Fail> {
    let exchange = short(alloc, "e")?;
    let key = short(alloc, "k")?;
    let options = BasicPublishOptions::default();
    let properties = BasicProperties::default().with_priority(7);
    made(caller.try_basic_publish(rt, alloc, 1, exchange, key, options, b"", properties))
}

/// Publishes until the limit, and asks for the outcomes.
fn confirms<L: Crew, R: Wait>(rt: &R, alloc: Global, caller: &mut Caller<L>) -> Result<(), Fail> {
    select(rt, alloc, caller)?;
    publish(rt, alloc, caller)?;
    try_publish(rt, alloc, caller)?;
    try_publish(rt, alloc, caller)?;
    made(caller.poll_confirm(rt, alloc, 1))?;
    made(caller.wait_for_confirms(rt, alloc, 1))?;
    made(caller.set_aside(rt, alloc, 2))
}

fn transactions<L: Crew, R: Wait>(
    rt: &R,
    alloc: Global,
    caller: &mut Caller<L>,
    channel: u16,
) -> Result<(), Fail> {
    made(caller.tx_select(rt, alloc, channel))?;
    made(caller.tx_commit(rt, alloc, channel))?;
    made(caller.tx_rollback(rt, alloc, channel))
}

fn make_all<L: Crew, R: Wait>(rt: &R, alloc: Global, caller: &mut Caller<L>) -> Result<(), Fail> {
    open(rt, alloc, caller)?;
    access(rt, alloc, caller)?;
    flow(rt, alloc, caller)?;
    exchanges(rt, alloc, caller)?;
    queues(rt, alloc, caller)?;
    consumers(rt, alloc, caller)?;
    settlements(rt, alloc, caller)?;
    recoveries(rt, alloc, caller)?;
    confirms(rt, alloc, caller)?;
    transactions(rt, alloc, caller, 1)?;
    close(rt, alloc, caller)?;
    transactions(rt, alloc, caller, 2)
}

/// Whether the record of the log's first entry can be read once more.
fn is_fetched<L: Crew, R: Wait>(rt: &R, alloc: Global, caller: &mut Caller<L>) -> bool {
    let Some(step) = caller.log().first() else {
        return false;
    };
    let place = step.place();
    match caller.fetch(rt, alloc, place) {
        Ok(told) => told.place == place,
        Err(_) => false,
    }
}

fn calls_by_name<L: Crew, R: Wait + Abort>(rt: &R, alloc: Global, blank: Blank) -> Result<(), Fail>
    requires name { blank.name ≡ L.name }
    requires parts { (blank.parts ≡ 1) × (blank.parts ≡ L.parts) }
{
    let (client, mut callers) = Client::<L>::new(alloc, 8192, 1, blank)?;
    assert_eq!(rt; client.made(), 1);
    assert_eq!(rt; client.frame_max(), 8192);
    make_all(rt, alloc, &mut callers[0])?;
    assert!(rt; is_fetched(rt, alloc, &mut callers[0]));
    are_steps(rt, alloc, callers[0].log(), 0, STEPS)?;
    let history = finished(client.finish(rt, alloc, &mut callers))?;
    assert_eq!(rt; history.len(), 41);
    assert!(rt; history.at(0).is_none());
    assert!(rt; history.at(41).is_some());
    assert!(rt; history.at(42).is_none());
    Ok(())
}

#[test]
fn shared_table(rt: HostRuntime) -> Result<(), Fail> {
    calls_by_name::<Brand, _>(&rt, rt.alloc(), Blank::new(1))
}

/// A request for a frame of which there is none, by caller 7.
fn is_bare_request(entry: &Entry) -> bool {
    entry.caller == 7
        && matches!(entry.event, Event::Next(true))
        && matches!(entry.answer, Record::NoFrame)
}

fn holds_one_entry<L: Crew>(locked: &Locked<L>) -> bool {
    match locked.entries() {
        [only] => locked.len() == 1 && locked.frame_max() == 8192 && is_bare_request(only.entry()),
        _ => false,
    }
}

/// Whether a step of the lock's value has place 1 and is its one entry.
fn steps_by_hand<L: Crew>(alloc: Global, blank: Blank) -> bool
    requires name { blank.name ≡ L.name }
    requires parts { (blank.parts ≡ 1) × (blank.parts ≡ L.parts) }
{
    let (book, mut share) = blank.open::<L>();
    let Ok(mut locked) = Locked::<L>::new(alloc, 8192, book) else {
        return false;
    };
    let place = locked.step(alloc, 7, &mut share, Event::Next(true));
    let holds = matches!(place, Ok(1)) && holds_one_entry(&locked);
    drop(locked);
    holds
}

#[test]
fn a_step_under_the_lock_is_an_entry(rt: HostRuntime) -> Result<(), Fail> {
    assert!(rt; steps_by_hand::<Brand>(rt.alloc(), Blank::new(1)));
    Ok(())
}
