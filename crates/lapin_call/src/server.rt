//! The other side of calls over queues: a server that takes a request from a consumer, publishes its answer, and acknowledges it.
//!
//! When to serve again, as after a frame came in, is for the caller to know. What is queued leaves by `Session::next_frame`.
ghost use Rattle.std.specs.Prelude.{◌≡◌, ℕ, [], true, Ok, None, Some, IfOk};
ghost use Rattle.std.specs.Fn.{FnReturnsAt};
ghost use Rattle.std.specs.Option.{option_map};
ghost use Rattle.lapin_types.specs.declared.event.Event.TheVariants as event;
ghost use Rattle.lapin_rules.specs.Wire.{state_of, is_open as is_open_lem};
ghost use Rattle.lapin_rules.specs.History.{History};
ghost use Rattle.lapin_machine.specs.Stands.{Stands};
ghost use Rattle.lapin_machine.specs.World.{told_by, next};
ghost use Rattle.lapin_call.specs.Log.{IsLogged};
ghost use Rattle.lapin_call.specs.Serving.{IsServed, IsNext, IsTried, IsDone, IsQueued, IsPublished, IsServedTo, IsRejected, IsAnswered, IsAcknowledged, answering, is_taken_on, address_of, item_polled};

use lapin_machine::{Published, Session};
use lapin_types::{
    AckerCall, BasicAckOptions, BasicProperties, BasicPublishOptions, BasicRejectOptions,
    ChannelState, Delivery, Error, NoMemory, Payload, Poll, ShortString,
};
use std::alloc::Global;

/// What a call of a server came to.
#[derive(Debug, Drop)]
pub enum Served {
    /// Nothing is there yet: ask again once frames came in.
    Nothing,
    /// The consumer's end. It is handed nothing more.
    End,
    /// The error that ended the consumer's channel.
    Failed(Error),
    /// The request is void: its acker was used, its channel has ended, or a recover came. Nothing is queued for it.
    Stale {
        delivery_tag: u64,
    },
    /// The request says no queue for its answer, or no id: it is rejected, and not queued again.
    NoAddress {
        delivery_tag: u64,
    },
    /// The answer was published, with this ticket and this confirm, and the request is acknowledged.
    Answered {
        delivery_tag: u64,
        ticket: u64,
        confirm: u64,
    },
}

/// The publish of an answer.
#[derive(Clone, Copy, Debug, PartialEq, Eq)]
pub struct Sent {
    pub ticket: u64,
    pub confirm: u64,
}

/// A request that is kept, and the publish of its answer, where that is queued already.
#[derive(Drop)]
pub struct Held {
    pub delivery: Delivery,
    pub sent: Option<Sent>,
}

/// What a poll of the consumer gave.
#[derive(Drop)]
pub enum Polled {
    Nothing,
    End,
    Failed(Error),
    Request(Delivery),
}

/// A server of the requests that a consumer is handed. The consumer's messages want an acknowledgement, and it has no delegate.
#[derive(Drop)]
pub struct Server {
    pub consumer: u64,
    pub channel: u16,
    /// The request that was taken and is not served, since that was refused.
    pub held: Option<Held>,
}

impl Server {
    /// A server of this consumer, which the session gave on this channel.
    pub fn new(consumer: u64, channel: u16) -> Server
        ensures { result ≡ record { consumer = consumer; channel = channel; held = None } }
    {
        Server {
            consumer,
            channel,
            held: None,
        }
    }

    /// Serves one request, the one that it kept or the next that the consumer is handed: it calls `answer` on its payload, publishes that
    /// to the queue which the request names, under the request's id, and acknowledges the request. One that names no queue or has no id
    /// is rejected and not queued again. Of a request that is void nothing is queued.
    ///
    /// # Errors
    /// `InvalidChannelState` exactly where the channel isn't open, `NumbersUsedUp` exactly where a number that is needed would pass the
    /// greatest `u64`, and `NoMemory`. The request is then kept for the next call, and what was queued for it isn't queued twice.
    pub fn serve_one<F: Fn(&[u8]) -> Result<Payload, NoMemory>>(
        &mut self,
        alloc: Global,
        session: &mut Session,
        answer: &F,
    ) -> Result<Served, Error>
        requires { F.IsAlwaysCallable answer.now }
        ensures served { IsServed (λ bytes payload. FnReturnsAt F.Fn answer.now bytes (Ok payload)) self.old result self.new session.old session.new }

        // In the words of a history, where no frame was given back: the session stands for a longer one, and the requests that the consumer
        // handed out there, behind the one that was kept, are the one that the call was done with and the one that is kept.
        ensures logged { (frame_max : ℕ) (h : History) → Stands frame_max h session.old → session.old.returned ≡ None → IsLogged frame_max h self.old result self.new session.new }
    {
        self.serve_machine(alloc, session, answer)
    }

    // The same by the machine.
    fn serve_machine<F: Fn(&[u8]) -> Result<Payload, NoMemory>>(
        &mut self,
        alloc: Global,
        session: &mut Session,
        answer: &F,
    ) -> Result<Served, Error>
        requires { F.IsAlwaysCallable answer.now }
        ensures { IsServed (λ bytes payload. FnReturnsAt F.Fn answer.now bytes (Ok payload)) self.old result self.new session.old session.new }
    {
        match self.held.take() {
            Some(held) => self.serve_held(alloc, session, held, answer),
            None => self.serve_next(alloc, session, answer),
        }
    }

    // Serves what the consumer is handed next.
    fn serve_next<F: Fn(&[u8]) -> Result<Payload, NoMemory>>(
        &mut self,
        alloc: Global,
        session: &mut Session,
        answer: &F,
    ) -> Result<Served, Error>
        requires callable { F.IsAlwaysCallable answer.now }
        requires none { self.old.held ≡ None }
        ensures { IsNext (λ bytes payload. FnReturnsAt F.Fn answer.now bytes (Ok payload)) self.old (item_polled (told_by session.old (event.PollConsumer self.old.consumer))) result self.new (next session.old (event.PollConsumer self.old.consumer)) session.new }
    {
        match poll(session, self.consumer) {
            Polled::Nothing => Ok(Served::Nothing),
            Polled::End => Ok(Served::End),
            Polled::Failed(error) => Ok(Served::Failed(error)),
            Polled::Request(delivery) => {
                let held = Held {
                    delivery,
                    sent: None,
                };
                self.serve_held(alloc, session, held, answer)
            }
        }
    }

    // Serves a request. Where that is refused, it is kept.
    fn serve_held<F: Fn(&[u8]) -> Result<Payload, NoMemory>>(
        &mut self,
        alloc: Global,
        session: &mut Session,
        held: Held,
        answer: &F,
    ) -> Result<Served, Error>
        requires callable { F.IsAlwaysCallable answer.now }
        requires none { self.old.held ≡ None }
        ensures { IsTried (λ bytes payload. FnReturnsAt F.Fn answer.now bytes (Ok payload)) self.old held result self.new session.old session.new }
    {
        let mut held = held;
        match serve(alloc, session, self.channel, &mut held, answer) {
            Ok(served) => {
                drop(held);
                Ok(served)
            }
            Err(error) => {
                self.held = Some(held);
                Err(error)
            }
        }
    }
}

// A poll of the consumer.
fn poll(session: &mut Session, consumer: u64) -> Polled
    ensures told { result ≡ item_polled (told_by session.old (event.PollConsumer consumer)) }
    ensures ok { session.new ≡ next session.old (event.PollConsumer consumer) }
{
    match session.poll_next(consumer) {
        Ok(Poll::Ready(Ok(Some(delivery)))) => Polled::Request(delivery),
        Ok(Poll::Ready(Ok(None))) => Polled::End,
        Ok(Poll::Ready(Err(error))) => Polled::Failed(error),
        _ => Polled::Nothing,
    }
}

// Serves a request on its channel.
fn serve<F: Fn(&[u8]) -> Result<Payload, NoMemory>>(
    alloc: Global,
    session: &mut Session,
    channel: u16,
    held: &mut Held,
    answer: &F,
) -> Result<Served, Error>
    requires { F.IsAlwaysCallable answer.now }
    ensures { IsDone (λ bytes payload. FnReturnsAt F.Fn answer.now bytes (Ok payload)) channel held.old result held.new session.old session.new }
{
    if !is_taken(session, channel, held.delivery.acker.number) {
        return Ok(Served::Stale {
            delivery_tag: held.delivery.delivery_tag,
        });
    }
    let state = session.channel_state(channel);
    if !is_open(state) {
        return Err(Error::InvalidChannelState(state));
    }
    serve_open(alloc, session, channel, held, answer)
}

fn is_open(state: ChannelState) -> bool
    ensures { result ≡ is_open_lem state }
{
    matches!(state, ChannelState::Open)
}

// Whether an acker of this channel is usable.
fn is_taken(session: &Session, channel: u16, acker: u64) -> bool
    ensures { result ≡ is_taken_on channel acker session.now.wire }
{
    match session.switches().peek(acker) {
        Some((on, _)) => on == channel,
        None => false,
    }
}

// Serves a request whose acker is usable, on an open channel.
fn serve_open<F: Fn(&[u8]) -> Result<Payload, NoMemory>>(
    alloc: Global,
    session: &mut Session,
    channel: u16,
    held: &mut Held,
    answer: &F,
) -> Result<Served, Error>
    requires callable { F.IsAlwaysCallable answer.now }
    requires taken { is_taken_on channel held.old.delivery.acker.number session.old.wire ≡ true }
    requires open { is_open_lem (state_of channel session.old.wire) ≡ true }
    ensures { IsServedTo (λ bytes payload. FnReturnsAt F.Fn answer.now bytes (Ok payload)) channel (address_of held.old.delivery.properties) held.old result held.new session.old session.new }
{
    match address_in(alloc, &held.delivery.properties)? {
        Some(address) => answer_held(alloc, session, channel, held, address, answer),
        None => reject(alloc, session, channel, held),
    }
}

// The queue to which an answer goes and the id that it has.
#[derive(Drop)]
struct Address {
    queue: ShortString,
    id: ShortString,
}

// Copies of the queue and of the id, where the request says both.
fn address_in(alloc: Global, request: &BasicProperties) -> Result<Option<Address>, NoMemory>
    ensures { IfOk result (λ o. option_map (λ a. (a.queue, a.id)) o ≡ address_of request.now) }
{
    match (request.reply_to(), request.correlation_id()) {
        (Some(queue), Some(id)) => Ok(Some(Address {
            queue: queue.try_clone(alloc)?,
            id: id.try_clone(alloc)?,
        })),
        _ => Ok(None),
    }
}

// A request without an address is rejected, and not queued again.
fn reject(alloc: Global, session: &mut Session, channel: u16, held: &Held) -> Result<Served, Error>
    requires taken { is_taken_on channel held.now.delivery.acker.number session.old.wire ≡ true }
    requires open { is_open_lem (state_of channel session.old.wire) ≡ true }
    ensures { IsRejected held.now result held.now session.old session.new }
{
    let call = AckerCall::Reject(BasicRejectOptions { requeue: false });
    match queue_call(alloc, session, channel, held.delivery.acker.number, call) {
        Ok(()) => Ok(Served::NoAddress {
            delivery_tag: held.delivery.delivery_tag,
        }),
        Err(error) => Err(error),
    }
}

// Publishes the answer, unless that was done before, and acknowledges the request.
fn answer_held<F: Fn(&[u8]) -> Result<Payload, NoMemory>>(
    alloc: Global,
    session: &mut Session,
    channel: u16,
    held: &mut Held,
    address: Address,
    answer: &F,
) -> Result<Served, Error>
    requires callable { F.IsAlwaysCallable answer.now }
    requires taken { is_taken_on channel held.old.delivery.acker.number session.old.wire ≡ true }
    requires open { is_open_lem (state_of channel session.old.wire) ≡ true }
    ensures { IsAnswered (λ bytes payload. FnReturnsAt F.Fn answer.now bytes (Ok payload)) channel (address.queue, address.id) held.old.sent held.old result held.new session.old session.new }
{
    let sent = match held.sent {
        Some(sent) => sent,
        None => {
            let payload = answer(held.delivery.payload.as_bytes())?;
            publish(alloc, session, channel, address, payload)?
        }
    };
    held.sent = Some(sent);
    acknowledge(alloc, session, channel, held, sent)
}

// Publishes an answer by the default exchange to the queue that the request names, under its id alone.
fn publish(
    alloc: Global,
    session: &mut Session,
    channel: u16,
    address: Address,
    payload: Payload,
) -> Result<Sent, Error>
    requires { is_open_lem (state_of channel session.old.wire) ≡ true }
    ensures { IsPublished (answering channel (address.queue, address.id) payload) result session.old session.new }
{
    let Address { queue, id } = address;
    let exchange = ShortString::empty(alloc)?;
    let options = BasicPublishOptions {
        mandatory: false,
        immediate: false,
    };
    let properties = BasicProperties::default().with_correlation_id(id);
    match session.basic_publish(
        alloc, channel, exchange, queue, options, payload, properties,
    ) {
        Ok(Published { ticket, confirm }) => Ok(Sent {
            ticket: ticket.number,
            confirm: confirm.number,
        }),
        Err(error) => Err(error),
    }
}

// Acknowledges a request whose answer was published so.
fn acknowledge(
    alloc: Global,
    session: &mut Session,
    channel: u16,
    held: &Held,
    sent: Sent,
) -> Result<Served, Error>
    requires sent { held.now.sent ≡ Some sent }
    requires taken { is_taken_on channel held.now.delivery.acker.number session.old.wire ≡ true }
    requires open { is_open_lem (state_of channel session.old.wire) ≡ true }
    ensures { IsAcknowledged sent held.now result held.now session.old session.new }
{
    let call = AckerCall::Ack(BasicAckOptions { multiple: false });
    match queue_call(alloc, session, channel, held.delivery.acker.number, call) {
        Ok(()) => Ok(Served::Answered {
            delivery_tag: held.delivery.delivery_tag,
            ticket: sent.ticket,
            confirm: sent.confirm,
        }),
        Err(error) => Err(error),
    }
}

// Makes the call of a usable acker on an open channel.
fn queue_call(
    alloc: Global,
    session: &mut Session,
    channel: u16,
    acker: u64,
    call: AckerCall,
) -> Result<(), Error>
    requires taken { is_taken_on channel acker session.old.wire ≡ true }
    requires open { is_open_lem (state_of channel session.old.wire) ≡ true }
    ensures { IsQueued (event.Acker acker call) result session.old session.new }
{
    match session.acker_call(alloc, acker, call) {
        Ok(_) => Ok(()),
        Err(error) => Err(error),
    }
}
