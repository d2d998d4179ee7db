//! What a caller holds: tickets, confirms and consumers by their numbers, each with its calls on a session.
//!
//! Nothing is kept here: every call is the session's, on the number that stands here. Channels stand in the surface crate.

ghost use Rattle.std.specs.Prelude.{◌≡◌, OnOk, OnErr};
ghost use Rattle.lapin_types.specs.declared.event.Event.TheVariants.{PollTicket, AsideTicket, PollConfirm, PollConsumer, AsideConfirm, Delegate, DropConsumer};
ghost use Rattle.std.specs.Option.{option_copied, option_map};
ghost use Rattle.lapin_consumer.specs.Subscriptions.{consumer_at};
ghost use Rattle.lapin_machine.specs.World.{told_by, next, aside_record};
ghost use Rattle.lapin_machine.specs.Told.{AsideTold, DelegateTold, DropTold, ticket_record, confirm_record, next_record};
ghost use Rattle.lapin_machine.specs.Numbers.{HasNumbers};

use crate::session::Session;
use lapin_types::{Answer, Confirmation, DeliveryResult, Error, Poll, ShortString};
use std::alloc::Global;

/// The promise of a call's answer. Tickets of a session are numbered from 1.
#[derive(Debug, Drop)]
pub struct Ticket {
    pub number: u64,
}

/// The promise of a publish's outcome (RabbitMQ, publisher confirms). Confirms of a session are numbered from 1.
#[derive(Debug, Drop)]
pub struct PublisherConfirm {
    pub number: u64,
}

/// What an accepted publish is known by: its ticket is answered as its last frame leaves, its confirm as the broker settles it.
#[derive(Debug, Drop)]
pub struct Published {
    pub ticket: Ticket,
    pub confirm: PublisherConfirm,
}

/// A consumer (AMQP 0-9-1, `basic.consume`). Consumers of a session are numbered from 1.
#[derive(Clone, Copy, Debug)]
pub struct Consumer {
    pub number: u64,
}

/// What became of a frame of the broker that was not refused.
#[derive(Clone, Copy, Debug, PartialEq, Eq)]
pub enum Heard {
    /// It did what the protocol says.
    Received,
    /// It said nothing to this session: a settlement on a channel that asked for no confirms, or a frame that came once the
    /// connection was not open.
    Passed,
}

impl Ticket {
    /// The session's `poll_ticket` on this number.
    pub fn poll(&self, session: &mut Session) -> Result<Poll<Result<Answer, Error>>, Error>
        ensures told { ticket_record result ≡ told_by session.old (PollTicket self.now.number) }
        ensures ok { session.new ≡ next session.old (PollTicket self.now.number) }
    {
        session.poll_ticket(self.number)
    }

    /// The session's `set_aside_ticket` on this number. A ticket that is neither polled nor set aside is held for ever.
    pub fn set_aside(&self, session: &mut Session) -> Result<(), Error>
        ensures told { aside_record result ≡ told_by session.old (AsideTicket self.now.number) }
        ensures ok { session.new ≡ next session.old (AsideTicket self.now.number) }
        ensures err { OnErr result (session.new ≡ session.old) }
    {
        session.set_aside_ticket(self.number)
    }
}

impl PublisherConfirm {
    /// The session's `poll_confirm` on this number.
    pub fn poll(&self, session: &mut Session) -> Result<Poll<Result<Confirmation, Error>>, Error>
        ensures told { confirm_record result ≡ told_by session.old (PollConfirm self.now.number) }
        ensures ok { session.new ≡ next session.old (PollConfirm self.now.number) }
    {
        session.poll_confirm(self.number)
    }

    /// The session's `set_aside` on this number.
    pub fn set_aside(&self, alloc: Global, session: &mut Session) -> Result<(), Error>
        ensures told { AsideTold result (told_by session.old (AsideConfirm self.now.number)) }
        ensures ok { OnOk result (session.new ≡ next session.old (AsideConfirm self.now.number)) }
        ensures err { OnErr result (session.new ≡ session.old) }
        ensures numbers { HasNumbers result }
    {
        session.set_aside(alloc, self.number)
    }
}

impl Consumer {
    /// The tag under which it was registered; `None` exactly where the number was never given.
    pub fn tag<'a>(&self, session: &'a Session) -> Option<&'a ShortString>
        ensures { option_copied result ≡ option_map (λ x. x.tag) (consumer_at self.now.number session.now.wire.deliveries.subscriptions) }
    {
        session.consumers().tag(self.number)
    }

    /// The queue that it consumes from; `None` exactly where the number was never given.
    pub fn queue<'a>(&self, session: &'a Session) -> Option<&'a ShortString>
        ensures { option_copied result ≡ option_map (λ x. x.queue) (consumer_at self.now.number session.now.wire.deliveries.subscriptions) }
    {
        session.consumers().queue(self.number)
    }

    /// The session's `set_delegate` on this number.
    pub fn set_delegate(&self, alloc: Global, session: &mut Session) -> Result<(), Error>
        ensures told { DelegateTold result (told_by session.old (Delegate self.now.number)) }
        ensures ok { OnOk result (session.new ≡ next session.old (Delegate self.now.number)) }
        ensures err { OnErr result (session.new ≡ session.old) }
        ensures numbers { HasNumbers result }
    {
        session.set_delegate(alloc, self.number)
    }

    /// The session's `poll_next` on this number.
    pub fn poll_next(&self, session: &mut Session) -> Result<Poll<DeliveryResult>, Error>
        ensures told { next_record result ≡ told_by session.old (PollConsumer self.now.number) }
        ensures ok { session.new ≡ next session.old (PollConsumer self.now.number) }
    {
        session.poll_next(self.number)
    }

    /// The session's `close_consumer` on this number.
    pub fn close(&self, alloc: Global, session: &mut Session) -> Result<bool, Error>
        ensures told { DropTold result (told_by session.old (DropConsumer self.now.number)) }
        ensures ok { OnOk result (session.new ≡ next session.old (DropConsumer self.now.number)) }
        ensures err { OnErr result (session.new ≡ session.old) }
        ensures numbers { HasNumbers result }
    {
        session.close_consumer(alloc, self.number)
    }
}
