//! A publisher that keeps each message until its outcome is known, and has at most so many of them outstanding.
ghost use Rattle.std.specs.Prelude.{◌≡◌, ◌≤◌, ◌↔◌, [], length, IfOk, OnErr, IfSome, IfNone, IsTrue};
ghost use Rattle.lapin_machine.specs.Numbers.{CallCause};
ghost use Rattle.lapin_uses.specs.Publishing.{publish_call, publishing, IsSent, IsAccepted, PublishCause, StaysWithin, IsSettled, IsPending};

use crate::outcomes::{Advice, advice_on};
use lapin_session::{Channel, Published, PublisherConfirm, Session};
use lapin_types::{
    BasicProperties, BasicPublishOptions, Error, NoMemory, Payload, Poll, ShortString,
};
use std::alloc::Global;
use std::collections::VecDeque;

/// A message, with the id by which consumers know a second copy of it.
#[derive(Drop)]
pub struct Message {
    pub id: ShortString,
    pub payload: Payload,
}

impl Message {
    /// An equal message, in memory of its own.
    pub fn try_clone(&self, alloc: Global) -> Result<Message, NoMemory>
        ensures { IfOk result (λ copy. copy ≡ self.now) }
    {
        Ok(Message {
            id: self.id.try_clone(alloc)?,
            payload: self.payload.try_clone(alloc)?,
        })
    }
}

/// A publish whose outcome isn't known yet.
#[derive(Drop)]
pub struct Waiting {
    pub confirm: PublisherConfirm,
    pub message: Message,
}

/// A message that came out of the window, with what to do about it.
#[derive(Drop)]
pub struct Settled {
    pub message: Message,
    pub advice: Advice,
}

/// A publisher to one queue, by the default exchange, on a channel that asked for confirms.
#[derive(Drop)]
pub struct Publisher {
    pub channel: Channel,
    /// The queue's name.
    pub queue: ShortString,
    /// How many publishes may be outstanding.
    pub most: usize,
    /// Those that are, oldest first.
    pub waiting: VecDeque<Waiting>,
}

impl Publisher {
    /// Whether the window is full: then an outcome has to come first.
    pub fn is_full(&self) -> bool
        ensures { IsTrue result ↔ self.now.most ≤ length self.now.waiting.items }
    {
        self.most <= self.waiting.len()
    }

    /// Publishes a message, persistently and under its id, and keeps a copy until its outcome is known. Its frames leave as
    /// `next_frame` hands them out. Never more than `most` are outstanding.
    ///
    /// # Errors
    /// `ConfirmsOutstanding` with `most` exactly where the window is full; else those of `Channel::basic_publish`. Nothing is
    /// published then, and the window stays as it was.
    pub fn publish(
        &mut self,
        alloc: Global,
        session: &mut Session,
        message: &Message,
    ) -> Result<(), Error>
        ensures ok { IsAccepted result session.old session.new (publishing self.old.channel.id self.old.queue message.now)
            message.now self.old.waiting.items self.new.waiting.items }
        ensures err { OnErr result (session.new ≡ session.old) }
        ensures window { OnErr result (self.new.waiting.items ≡ self.old.waiting.items) }
        ensures within { StaysWithin self.old.most self.old.waiting.items self.new.waiting.items }
        ensures cause { PublishCause result self.old.most self.old.waiting.items self.old.channel.id
            (publish_call self.old.queue message.now) session.old.wire }
        ensures stays { self.new ≡ record self.old { waiting = self.new.waiting } }
    {
        if self.is_full() {
            return Err(Error::ConfirmsOutstanding {
                limit: self.most as u64,
            });
        }
        self.waiting.reserve(1)?;
        let kept = message.try_clone(alloc)?;
        match self.send(alloc, session, message) {
            Ok(confirm) => {
                self.waiting.push_back_reserved(Waiting {
                    confirm,
                    message: kept,
                });
                Ok(())
            }
            Err(error) => {
                drop(kept);
                Err(error)
            }
        }
    }

    // Makes the call, and sets its ticket aside: the confirm alone is asked for.
    fn send(
        &self,
        alloc: Global,
        session: &mut Session,
        message: &Message,
    ) -> Result<PublisherConfirm, Error>
        ensures ok { IsSent result session.old session.new (publishing self.now.channel.id self.now.queue message.now) }
        ensures err { OnErr result (session.new ≡ session.old) }
        ensures cause { CallCause result self.now.channel.id (publish_call self.now.queue message.now) session.old.wire }
    {
        let exchange = ShortString::empty(alloc)?;
        let queue = self.queue.try_clone(alloc)?;
        let id = message.id.try_clone(alloc)?;
        let options = BasicPublishOptions {
            mandatory: false,
            immediate: false,
        };
        let properties = BasicProperties::default()
            .with_delivery_mode(2)
            .with_message_id(id);
        let payload = message.payload.as_bytes();
        let Published { ticket, confirm } = self.channel.basic_publish(
            alloc, session, exchange, queue, options, payload, properties,
        )?;
        let _ = ticket.set_aside(session);
        Ok(confirm)
    }

    /// The oldest publish, with what to do about it, once its outcome is known. None while it is pending, and where none waits.
    pub fn settle(&mut self, session: &mut Session) -> Option<Settled>
        ensures some { IfSome result (λ settled. IsSettled settled session.old session.new self.old.waiting.items self.new.waiting.items) }
        ensures none { IfNone result (IsPending session.old session.new self.old.waiting.items) }
        ensures window { IfNone result (self.new.waiting.items ≡ self.old.waiting.items) }
        ensures stays { self.new ≡ record self.old { waiting = self.new.waiting } }
    {
        let outcome = match self.waiting.front()?.confirm.poll(session) {
            Ok(Poll::Pending) => return None,
            Ok(Poll::Ready(outcome)) => outcome,
            Err(error) => Err(error),
        };
        let advice = advice_on(&outcome);
        drop(outcome);
        let Waiting { message, .. } = self.waiting.pop_front()?;
        Some(Settled { message, advice })
    }
}
