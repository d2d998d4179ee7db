//! The events of a session: each is one step. What a step does stands in the crates above.

ghost use Rattle.std.specs.Prelude.{◌≡◌, IfOk};
ghost use Rattle.std.specs.Bool.{Decides};
ghost use Rattle.lapin_methods.specs.declared.frame.Frame.TheVariants as frame_;
ghost use Rattle.lapin_methods.specs.declared.method.Method.TheVariants as method_;
ghost use Rattle.lapin_types.specs.declared.call.Call.TheVariants as variant;
ghost use Rattle.lapin_types.specs.declared.event.Event.TheVariants as event;

use crate::acker_call::AckerCall;
use crate::call::Call;
use lapin_methods::{BasicMethod, BasicPublishOptions, Frame, Method};
use lapin_values::{BasicProperties, NoMemory, Payload, ShortString};
use std::alloc::Global;

/// What happens to a session.
#[derive(Debug, Drop)]
pub enum Event {
    /// A call on a channel.
    Call(u16, Call),
    /// The next frame is asked for; whether a publish may begin.
    Next(bool),
    /// A frame came from the broker.
    Receive(Frame),
    /// The result of a ticket is asked for.
    PollTicket(u64),
    /// The outcome of a publish is asked for, by its confirm number.
    PollConfirm(u64),
    /// The next item of a consumer is asked for.
    PollConsumer(u64),
    /// All confirms of a channel are waited for.
    PollWait(u16),
    /// A ticket is set aside: nobody asks for its result any more.
    AsideTicket(u64),
    /// A confirm is set aside: nobody asks for its result any more.
    AsideConfirm(u64),
    /// A call of an acker, by its number.
    Acker(u64, AckerCall),
    /// A consumer gets a delegate, by its number: from now on its items are jobs.
    Delegate(u64),
    /// A consumer is dropped, by its number: nobody polls it any more.
    DropConsumer(u64),
    /// The next job is asked for.
    NextJob,
    /// The states of the connection and of a channel are asked for.
    State(u16),
    /// The connection was lost.
    Lost,
}

impl Event {
    /// An equal event, in memory of its own.
    pub fn try_clone(&self, alloc: Global) -> Result<Event, NoMemory>
        ensures { IfOk result (λ copy. copy ≡ self.now) }
    {
        match self {
            Event::Call(channel, call) => copied_call(*channel, call, alloc),
            Event::Next(flow) => Ok(Event::Next(*flow)),
            Event::Receive(frame) => copied_frame(frame, alloc),
            Event::PollTicket(number) => Ok(Event::PollTicket(*number)),
            Event::PollConfirm(number) => Ok(Event::PollConfirm(*number)),
            Event::PollConsumer(number) => Ok(Event::PollConsumer(*number)),
            Event::PollWait(channel) => Ok(Event::PollWait(*channel)),
            Event::AsideTicket(number) => Ok(Event::AsideTicket(*number)),
            Event::AsideConfirm(number) => Ok(Event::AsideConfirm(*number)),
            Event::Acker(number, call) => Ok(Event::Acker(*number, *call)),
            Event::Delegate(number) => Ok(Event::Delegate(*number)),
            Event::DropConsumer(number) => Ok(Event::DropConsumer(*number)),
            Event::NextJob => Ok(Event::NextJob),
            Event::State(channel) => Ok(Event::State(*channel)),
            Event::Lost => Ok(Event::Lost),
        }
    }

    /// Whether two events are equal in every field.
    pub fn same(&self, other: &Event) -> bool
        ensures { Decides result (self.now ≡ other.now) }
    {
        match (self, other) {
            (Event::Call(a, left), Event::Call(b, right)) => a == b && left.same(right),
            (Event::Next(left), Event::Next(right)) => left == right,
            (Event::Receive(left), Event::Receive(right)) => left.same(right),
            (Event::PollTicket(left), Event::PollTicket(right)) => left == right,
            (Event::PollConfirm(left), Event::PollConfirm(right)) => left == right,
            (Event::PollConsumer(left), Event::PollConsumer(right)) => left == right,
            (Event::PollWait(left), Event::PollWait(right)) => left == right,
            (Event::AsideTicket(left), Event::AsideTicket(right)) => left == right,
            (Event::AsideConfirm(left), Event::AsideConfirm(right)) => left == right,
            (Event::Acker(a, left), Event::Acker(b, right)) => a == b && left == right,
            (Event::Delegate(left), Event::Delegate(right)) => left == right,
            (Event::DropConsumer(left), Event::DropConsumer(right)) => left == right,
            (Event::NextJob, Event::NextJob) => true,
            (Event::State(left), Event::State(right)) => left == right,
            (Event::Lost, Event::Lost) => true,
            _ => false,
        }
    }
}

fn copied_call(channel: u16, call: &Call, alloc: Global) -> Result<Event, NoMemory>
    ensures { IfOk result (λ copy. copy ≡ event.Call channel call.now) }
{
    match call {
        Call::BasicPublish {
            exchange,
            routing_key,
            options,
            payload,
            properties,
        } => copied_publish(
            channel,
            exchange,
            routing_key,
            options,
            payload,
            properties,
            alloc,
        ),
        _ => copied_other_call(channel, call, alloc),
    }
}

#[inline(never)]
fn copied_publish(
    channel: u16,
    exchange: &ShortString,
    routing_key: &ShortString,
    options: &BasicPublishOptions,
    payload: &Payload,
    properties: &BasicProperties,
    alloc: Global,
) -> Result<Event, NoMemory>
    ensures { IfOk result (λ copy. copy ≡ event.Call channel (variant.BasicPublish exchange.now routing_key.now options.now payload.now properties.now)) }
{
    Ok(Event::Call(
        channel,
        Call::BasicPublish {
            exchange: exchange.try_clone(alloc)?,
            routing_key: routing_key.try_clone(alloc)?,
            options: *options,
            payload: payload.try_clone(alloc)?,
            properties: properties.try_clone(alloc)?,
        },
    ))
}

#[inline(never)]
fn copied_other_call(channel: u16, call: &Call, alloc: Global) -> Result<Event, NoMemory>
    ensures { IfOk result (λ copy. copy ≡ event.Call channel call.now) }
{
    Ok(Event::Call(channel, call.try_clone(alloc)?))
}

fn copied_frame(frame: &Frame, alloc: Global) -> Result<Event, NoMemory>
    ensures { IfOk result (λ copy. copy ≡ event.Receive frame.now) }
{
    match frame {
        Frame::Method(channel, Method::Basic(method)) => copied_basic(*channel, method, alloc),
        _ => copied_other_frame(frame, alloc),
    }
}

#[inline(never)]
fn copied_basic(channel: u16, method: &BasicMethod, alloc: Global) -> Result<Event, NoMemory>
    ensures { IfOk result (λ copy. copy ≡ event.Receive (frame_.Method channel (method_.Basic method.now))) }
{
    let Ok(method) = method.try_clone(alloc) else {
        return Err(NoMemory);
    };
    Ok(Event::Receive(Frame::Method(channel, Method::Basic(method))))
}

#[inline(never)]
fn copied_other_frame(frame: &Frame, alloc: Global) -> Result<Event, NoMemory>
    ensures { IfOk result (λ copy. copy ≡ event.Receive frame.now) }
{
    let Ok(frame) = frame.try_clone(alloc) else {
        return Err(NoMemory);
    };
    Ok(Event::Receive(frame))
}
