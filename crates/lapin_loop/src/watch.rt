//! Tickets, confirms and consumers that are waited for, so that a caller asks which one has something in place of polling each.
//!
//! What is given is waited for no more: poll it, and wait for a consumer again once its poll is pending. A caller with many consumers
//! gives them delegates: `Session::next_job` then hands each thing on once, without a look at any of them.
ghost use Rattle.std.specs.Prelude.{◌≡◌, ◌++◌, ◌∷◌, [], not, OnOk, OnErr};
ghost use Rattle.std.specs.List.{find, position};
ghost use Rattle.lapin_types.specs.declared.event.Event.TheVariants as event;
ghost use Rattle.lapin_machine.specs.World.{told_by};
ghost use Rattle.lapin_machine.specs.Told.{is_pending_record};
ghost use Rattle.lapin_rules.specs.Words.{without_first};
ghost use Rattle.lapin_loop.specs.Watching.{is_ready as is_ready_lem};

use lapin_session::{Consumer, PublisherConfirm, Session, Ticket};
use lapin_types::NoMemory;
use std::alloc::Global;

/// What is waited for.
#[derive(Debug, Drop)]
pub enum Awaited {
    /// The answer of a call.
    Ticket(Ticket),
    /// The outcome of a publish.
    Confirm(PublisherConfirm),
    /// What a consumer is handed next: a delivery, an error or its end.
    Consumer(Consumer),
}

/// What is waited for, in the order in which it was added.
#[derive(Drop)]
pub struct Watch {
    pub awaited: Vec<Awaited>,
}

impl Watch {
    /// Nothing is waited for.
    pub fn new(alloc: Global) -> Watch
        ensures { result.awaited.items ≡ [] }
    {
        Watch {
            awaited: Vec::new(alloc),
        }
    }

    /// Waits for it, after all others.
    ///
    /// # Errors
    /// `NoMemory`: it isn't waited for.
    pub fn add(&mut self, it: Awaited) -> Result<(), NoMemory>
        ensures ok { OnOk result (self.new.awaited.items ≡ self.old.awaited.items ++ it ∷ []) }
        ensures err { OnErr result (self.new.awaited.items ≡ self.old.awaited.items) }
    {
        self.awaited.push(it)?;
        Ok(())
    }

    /// The first that has something: a poll of it isn't pending. It is waited for no more, and all others are. None exactly where none
    /// has. It looks at each before the one that it gives, and at all before it says None: so ask once frames were heard, and again
    /// until it gives none.
    pub fn next_ready(&mut self, session: &Session) -> Option<Awaited>
        ensures first { result ≡ find (is_ready_lem session.now) self.old.awaited.items }
        ensures others { self.new.awaited.items ≡ without_first (is_ready_lem session.now) self.old.awaited.items }
    {
        match first_ready(&self.awaited, session) {
            Some(place) => Some(self.awaited.remove(place)),
            None => None,
        }
    }
}

// The place of the first that is ready.
#[tactic(auto, using(crate::proofs::Places::found, crate::proofs::Places::missed))]
fn first_ready(awaited: &[Awaited], session: &Session) -> Option<usize>
    ensures { result ≡ position (is_ready_lem session.now) awaited.now }
{
    for place in 0..awaited.len() {
        if is_ready(&awaited[place], session) {
            return Some(place);
        }
    }
    None
}

/// Whether a poll of it would not be pending. Nothing is taken.
pub fn is_ready(it: &Awaited, session: &Session) -> bool
    ensures { result ≡ is_ready_lem session.now it.now }
{
    match it {
        Awaited::Ticket(ticket) => session.ticket_ready(ticket.number),
        Awaited::Confirm(confirm) => session.confirm_ready(confirm.number),
        Awaited::Consumer(consumer) => consumer_ready(consumer.number, session),
    }
}

#[tactic(auto, using(crate::proofs::Handed::ready_as_told))]
fn consumer_ready(consumer: u64, session: &Session) -> bool
    ensures { result ≡ not (is_pending_record (told_by session.now (event.PollConsumer consumer))) }
{
    session.consumers().ready(consumer)
}
