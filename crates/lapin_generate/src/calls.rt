//! Each step of a generated run by its call: what it reports is added to the summary, or counts nothing.

ghost use Rattle.std.specs.Prelude.{◌≡◌, ◌≤◌, ◌∷◌, [], true, false, IfOk, OnOk};
ghost use Rattle.lapin_types.specs.declared.event.Event.TheVariants as event;
ghost use Rattle.lapin_types.specs.Types.frame;
ghost use Rattle.lapin_rules.specs.Calls.{asked, publishes};
ghost use Rattle.lapin_machine.specs.Numbers.{HasNumbersFor};
ghost use Rattle.lapin_machine.specs.World.{told_by, next};
ghost use Rattle.lapin_joint.specs.JoinedRun.{CanTake};
ghost use Rattle.lapin_joint.specs.declared.step.Step.TheVariants as step;
ghost use Rattle.lapin_generate.specs.Generated.{most_publishes, publish_call};
ghost use Rattle.lapin_generate.specs.Tally.{HasMade, HasPassed, IsPublished, CanGo};

use crate::messages::payload;
use crate::summary::{Summary, with_outcome, with_poll, with_publish, with_request};
use lapin_joint::{Links, Step};
use lapin_machine::Session;
use lapin_types::{
    BasicProperties, BasicPublishOptions, Call, Error, Event, Frame, Method, NoMemory, ShortString,
};
use std::alloc::Global;

/// The channel of the run.
const CHANNEL: u16 = 1;

/// Makes a call that is no publish, by its step: a run has two. Whether it is accepted or refused, it counts nothing.
///
/// # Errors
/// `NoMemory`.
pub(crate) fn call(alloc: Global, run: &mut Links, call: Call) -> Result<(), NoMemory>
    requires takes { CanTake 1 run.old }
    requires quiet { publishes (asked call) ≡ false }
    ensures { OnOk result (HasPassed (step.Client (event.Call 1 call) ∷ []) run.old run.new) }
{
    let reported = run.make(alloc, Step::Client(Event::Call(CHANNEL, call)))?;
    drop(reported);
    Ok(())
}

/// Makes a publish, and counts it where it is accepted.
///
/// # Errors
/// `NoMemory`.
pub(crate) fn publish(
    alloc: Global,
    run: &mut Links,
    summary: &mut Summary,
    number: u64,
) -> Result<(), NoMemory>
    requires few { number ≤ most_publishes }
    requires goes { CanGo 1 run.old summary.old }
    ensures { OnOk result (HasMade (step.Client (event.Call 1 (publish_call number)) ∷ []) run.old run.new summary.old summary.new) }
{
    let accepted = published(alloc, &mut run.session, number)?;
    if accepted {
        *summary = with_publish(*summary);
        return Ok(());
    }
    Ok(())
}

// Makes a publish. Whether it is accepted.
#[inline(always)]
fn published(alloc: Global, session: &mut Session, number: u64) -> Result<bool, NoMemory>
    requires few { number ≤ most_publishes }
    requires numbers { HasNumbersFor 1 session.old }
    ensures ok { OnOk result (session.new ≡ next session.old (event.Call 1 (publish_call number))) }
    ensures told { IfOk result (λ accepted. IsPublished accepted (told_by session.old (event.Call 1 (publish_call number)))) }
{
    let payload = payload(alloc, number)?;
    let exchange = ShortString::empty(alloc)?;
    let routing_key = ShortString::literal(alloc, "hello")?;
    let options = BasicPublishOptions {
        mandatory: false,
        immediate: false,
    };
    match session.basic_publish(
        alloc,
        CHANNEL,
        exchange,
        routing_key,
        options,
        payload,
        BasicProperties::default(),
    ) {
        Ok(_) => Ok(true),
        Err(Error::NoMemory) => Err(NoMemory),
        Err(Error::NumbersUsedUp) => unreachable!(),
        Err(_) => Ok(false),
    }
}

/// Asks for a frame, and counts the one that is handed out.
///
/// # Errors
/// `NoMemory`.
pub(crate) fn request(alloc: Global, run: &mut Links, summary: &mut Summary) -> Result<(), NoMemory>
    requires { CanGo 1 run.old summary.old }
    ensures { OnOk result (HasMade (step.Client (event.Next true) ∷ []) run.old run.new summary.old summary.new) }
{
    let some = run.hand(alloc, true)?;
    *summary = with_request(*summary, run.newest(some));
    Ok(())
}

/// The broker reads a frame.
///
/// # Errors
/// `NoMemory`.
pub(crate) fn read(alloc: Global, run: &mut Links) -> Result<(), NoMemory>
    ensures { OnOk result (HasPassed (step.Read ∷ []) run.old run.new) }
{
    let _some = run.read_next(alloc)?;
    Ok(())
}

/// The broker sends a method on the channel.
///
/// # Errors
/// `NoMemory`.
pub(crate) fn send(alloc: Global, run: &mut Links, method: Method) -> Result<(), NoMemory>
    ensures { OnOk result (HasPassed (step.Send (frame.Method 1 method) ∷ []) run.old run.new) }
{
    let _sent = run.try_send(alloc, Frame::Method(CHANNEL, method))?;
    Ok(())
}

/// The session receives a frame.
///
/// # Errors
/// `NoMemory`.
pub(crate) fn deliver(alloc: Global, run: &mut Links) -> Result<(), NoMemory>
    requires { CanTake 1 run.old }
    ensures { OnOk result (HasPassed (step.Deliver ∷ []) run.old run.new) }
{
    let heard = run.deliver_next(alloc)?;
    drop(heard);
    Ok(())
}

/// Polls a confirm, and counts the ack that it gives.
pub(crate) fn poll(run: &mut Links, summary: &mut Summary, number: u64)
    requires { CanGo 1 run.old summary.old }
    ensures { HasMade (step.Client (event.PollConfirm number) ∷ []) run.old run.new summary.old summary.new }
{
    match run.session.poll_bare_confirm(number) {
        Some(outcome) => *summary = with_outcome(*summary, outcome),
        None => poll_whole(run, summary, number),
    }
}

// The same where there is no outcome, or one with a message.
#[inline(never)]
fn poll_whole(run: &mut Links, summary: &mut Summary, number: u64)
    requires { CanGo 1 run.old summary.old }
    ensures { HasMade (step.Client (event.PollConfirm number) ∷ []) run.old run.new summary.old summary.new }
{
    let polled = run.session.poll_confirm(number);
    *summary = with_poll(*summary, &polled);
    drop(polled);
}
