//! A worker that polls a consumer: it takes one message, asks a handler what becomes of it, and sends that by the message's acker.
//!
//! There is no loop here: when to ask again, as after a frame came in, is for the caller to know. The frame that settles a message
//! leaves by `Session::next_frame`, like any other.
ghost use Rattle.lapin_session.specs.Acking.{IsAcked};
ghost use Rattle.lapin_uses.specs.Working.{call_of, IsHandled, IsTurn};

use lapin_session::{Acked, AckerCalls, Consumer, Session};
use lapin_types::{
    Acker, BasicAckOptions, BasicNackOptions, BasicRejectOptions, Delivery, Error, Poll,
};
use std::alloc::Global;

/// What becomes of a message.
#[derive(Clone, Copy, Debug, PartialEq, Eq)]
pub enum Fate {
    /// It is done: the broker forgets it (`basic.ack`).
    Acknowledge,
    /// It goes back to its queue, and comes again, to this consumer or another (`basic.nack` with requeue).
    GiveBack,
    /// It is refused for good: the broker drops it, or sends it to where its queue's dead letters go (`basic.reject` without
    /// requeue).
    Refuse,
}

/// Whoever does the work that a message asks for.
pub trait Handler {
    ghost use Rattle.lapin_types.specs.declared.message.Delivery.{Delivery};
    ghost use Rattle.lapin_uses.specs.declared.worker.Fate.{Fate};

    /// What it may decide on a message, and what it is afterwards.
    ghost decides: { Self → Delivery → Fate → Self → Type 0 };

    /// Does the work, and decides what becomes of the message.
    fn handle(&mut self, delivery: &Delivery) -> Fate
        ensures { decides self.old delivery.now result self.new };
}

/// A message that a handler decided on.
#[derive(Drop)]
pub struct Handled {
    /// The message. Its acker is the one that was called.
    pub delivery: Delivery,
    /// What the handler decided.
    pub fate: Fate,
    /// What the acker answered: `Ticket` where the fate is queued, and the ticket answers yes as its frame leaves; `No` where the
    /// message is void, since its channel has ended: nothing is sent, and the broker delivers it again. After `NoMemory` nothing
    /// was done, and `send_fate` may be called again; after `InvalidChannelState` this side is closing the channel, and the broker
    /// delivers the message again. `Yes` is the answer of a mock's acker alone.
    pub answer: Result<Acked, Error>,
}

/// What a turn of a worker came to.
#[derive(Drop)]
pub enum Turn {
    /// Nothing is there yet: ask again once frames came in.
    Pending,
    /// The consumer's end. It is handed nothing more, and each later turn says so again.
    End,
    /// The error that ended the consumer's channel. Its end comes next.
    Failed(Error),
    /// A message was taken, and the handler decided on it.
    Handled(Handled),
}

/// Polls the consumer once. A message is shown to the handler, and what it decides is sent by the message's acker; whatever the
/// acker answers, the message comes back in the turn, so that none is lost. Of all else the handler isn't told. The consumer is one
/// whose messages want an acknowledgement, so not one of `no_ack`: there the broker would close the channel.
///
/// # Errors
/// `UnknownTicket` where the consumer's number was never given: the poll was refused, and nothing else was done.
pub fn take_one<H: Handler>(
    alloc: Global,
    session: &mut Session,
    consumer: &Consumer,
    handler: &mut H,
) -> Result<Turn, Error>
    ensures { IsTurn H.decides consumer.now.number result handler.old handler.new session.old session.new }
{
    match consumer.poll_next(session) {
        Ok(Poll::Ready(Ok(Some(delivery)))) => {
            Ok(Turn::Handled(settle(alloc, session, delivery, handler)))
        }
        Ok(Poll::Ready(Ok(None))) => Ok(Turn::End),
        Ok(Poll::Ready(Err(error))) => Ok(Turn::Failed(error)),
        Ok(Poll::Pending) => Ok(Turn::Pending),
        Err(error) => Err(error),
    }
}

// Asks the handler, and sends what it decides.
fn settle<H: Handler>(
    alloc: Global,
    session: &mut Session,
    delivery: Delivery,
    handler: &mut H,
) -> Handled
    ensures { IsHandled H.decides delivery result handler.old handler.new session.old session.new }
{
    let fate = handler.handle(&delivery);
    let mut delivery = delivery;
    let answer = send_fate(alloc, session, &mut delivery.acker, fate);
    Handled {
        delivery,
        fate,
        answer,
    }
}

/// Sends what becomes of a message by its acker, of this message alone.
///
/// # Errors
/// Those of the acker's call (`AckerCalls::ack`): after `NoMemory` and `NumbersUsedUp` nothing was done, and it may be called again.
pub fn send_fate(
    alloc: Global,
    session: &mut Session,
    acker: &mut Acker,
    fate: Fate,
) -> Result<Acked, Error>
    ensures { IsAcked acker.old.number (call_of fate) acker.old acker.new result session.old session.new }
{
    match fate {
        Fate::Acknowledge => acker.ack(alloc, session, BasicAckOptions { multiple: false }),
        Fate::GiveBack => {
            let options = BasicNackOptions {
                multiple: false,
                requeue: true,
            };
            acker.nack(alloc, session, options)
        }
        Fate::Refuse => acker.reject(alloc, session, BasicRejectOptions { requeue: false }),
    }
}
