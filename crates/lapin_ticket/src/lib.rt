//! The answers of tickets: each call's answer, from the moment it comes until it is given.
//!
//! Here lives what is kept of tickets, and nothing of what resolves them: the session says which ticket gets which answer.
#![tactic(auto)]

mod ends;
mod given;
mod held;
pub mod laws;
mod packed;
mod settling;
mod slots;

ghost use Rattle.std.specs.Prelude.{◌≡◌, ℕ, ◌+◌, ◌^◌, ◌<◌, ◌++◌, ◌∷◌, true, false, List, [], length, map, not, is_ok, OnOk, MatchOption, Option, Some, None, Err, if◌then◌else◌};
ghost use Rattle.lapin_tables.specs.Numbered.{under};
ghost use Rattle.lapin_rules.specs.TicketReadings.{TicketMark, channel_of, answer_of, is_spared, is_awaited as is_unanswered};
ghost use Rattle.lapin_rules.specs.TicketReadings as mark;
ghost use Rattle.lapin_types.specs.declared.Error.{Error as AnError};
ghost use Rattle.lapin_ticket.specs.declared.Slot.{Slot as ASlot};
ghost use Rattle.lapin_ticket.specs.declared.Slot.TheVariants as slot;
ghost use Rattle.lapin_ticket.specs.Slots.{after_mark, polled, polled_slot, after_poll, laid, laid_slot, rejects, is_awaited, is_open_on, failed, closed_slot};
ghost use Rattle.lapin_ticket.specs.Follows.{Follows, WasGiven};

use crate::ends::let_go;
use crate::given::Given;
use crate::packed::{Block, drop_packed, give_packed};
use crate::settling::settle;
pub use held::{Held, Place};
use lapin_rules::AtLeaving;
use lapin_tables::Numbered;
use lapin_types::{Error, NoMemory};
use std::alloc::Global;
use std::marker::Model;

/// What is kept of a ticket until its answer is given.
#[derive(Debug, Drop)]
pub enum Slot {
    /// It has no answer yet: the channel of its call, the answer that the leaving of its last frame gives, and whether its
    /// publish has begun.
    Open(u16, AtLeaving, bool),
    /// Its answer, not given yet.
    Held(Held),
}

/// The tickets of a session, numbered from 1. Contracts see one slot per ticket, `None` where its answer was given, and the
/// channel for whose next ticket there is room.
pub struct Tickets {
    slots: Numbered<Slot>,
    given: Given,
    // The answers that nobody asked for while many further tickets were given; such a ticket has no slot.
    blocks: Numbered<Block>,
}

impl Drop for Tickets {
    fn drop(self) {
        let Tickets {
            slots: _,
            given: _,
            blocks: _,
        } = self;
    }
}

impl Model for Tickets {
    ghost use Rattle.std.specs.Prelude.{◌<◌};
    ghost use Rattle.lapin_ticket.specs.Given.{AreListed};
    ghost use Rattle.lapin_ticket.specs.Room.{Issued, issued_code, HasSlot};

    ghost Value = { Issued };

    ghost coded = { issued_code };

    ghost use Rattle.lapin_ticket.specs.Packed.{IsPacked, shown};

    ghost view = { λ a. record { slots = shown 0 a.blocks.slots a.slots.slots; ready = a.given.ready } };

    ghost invariant = { λ a. AreListed a.slots.slots a.given.channels × (HasSlot a.given.ready a.slots.spare × IsPacked a.blocks.slots a.slots.slots) };
}

impl Tickets {
    /// No ticket is given yet. It takes no memory.
    pub fn new(alloc: Global) -> Self
        ensures { result.slots ≡ [] }
    {
        Tickets {
            slots: Numbered::new(alloc),
            given: Given::new(alloc),
            blocks: Numbered::new(alloc),
        }
    }

    /// How many tickets were given.
    #[tactic(auto, using(crate::proofs::Shown::length_shown))]
    pub fn count(&self) -> u64
        ensures { result ≡ length self.now.slots }
    {
        self.slots.count()
    }

    /// The number that the next ticket gets, or `None` where it would pass the greatest `u64`.
    #[tactic(auto, using(crate::proofs::Shown::length_shown))]
    pub fn next_number(&self) -> Option<u64>
        ensures { MatchOption result (length self.now.slots + 1 ≡ 2 ^ 64) (λ n. n ≡ length self.now.slots + 1) }
    {
        self.slots.next_number()
    }

    /// Makes room for the next `give` on a channel. The tickets stay, also where there is no memory.
    pub fn reserve(&mut self, alloc: Global, channel: u16) -> Result<(), NoMemory>
        ensures room { OnOk result (self.new.ready ≡ Some channel) }
        ensures same { self.new.slots ≡ self.old.slots }
    {
        self.slots.reserve(1)?;
        self.given.reserve(alloc, channel)
    }

    /// Gives the next ticket to a call on a channel, in the room that `reserve` made for the channel. It takes no memory.
    #[tactic(auto, using(crate::proofs::Shown::length_shown))]
    pub fn give(&mut self, channel: u16, at_leaving: AtLeaving) -> u64
        requires room { self.old.ready ≡ Some channel }
        requires numbers { length self.old.slots + 1 < 2 ^ 64 }
        ensures number { result ≡ length self.old.slots + 1 }
        ensures slots { self.new.slots ≡ after_mark self.old.slots (mark.Given channel at_leaving) }
    {
        let_go(&self.slots, &mut self.given, channel);
        let number = self
            .slots
            .push_reserved(Slot::Open(channel, at_leaving, false));
        self.given.push(channel, number);
        settle(&mut self.slots, &mut self.blocks);
        number
    }

    /// The method frame of the ticket's publish leaves.
    pub fn begin(&mut self, number: u64)
        ensures slots { self.new.slots ≡ after_mark self.old.slots (mark.Begun number) }
        ensures room { self.new.ready ≡ self.old.ready }
    {
        slots::begin(&mut self.slots, number);
    }

    /// The last frame of the ticket's call leaves, which may answer it.
    pub fn leave(&mut self, number: u64)
        ensures slots { self.new.slots ≡ after_mark self.old.slots (mark.LastLeft number) }
        ensures room { self.new.ready ≡ self.old.ready }
    {
        slots::leave(&mut self.slots, number);
    }

    /// Resolves a ticket. One that has an answer keeps it, and one whose answer was given drops this one.
    pub fn answer(&mut self, number: u64, answer: Held)
        ensures slots { self.new.slots ≡ after_mark self.old.slots (mark.Answered number answer) }
        ensures room { self.new.ready ≡ self.old.ready }
    {
        slots::answer(&mut self.slots, number, answer);
    }

    /// Whether `take` would not say that the answer is still awaited.
    #[tactic(auto, using(crate::proofs::Shown::awaited_shown))]
    pub fn ready(&self, number: u64) -> bool
        ensures { result ≡ not (is_awaited (under number self.now.slots)) }
    {
        !matches!(self.slots.get(number), Some(Slot::Open(..)))
    }

    /// Gives the answer of a ticket, once. `None` while it has none.
    ///
    /// # Errors
    /// `UnknownTicket` where the ticket was never given, `AlreadyTaken` where its answer was given.
    #[tactic(auto, using(crate::proofs::Shown::length_shown))]
    pub fn take(&mut self, number: u64) -> Result<Option<Held>, Error>
        ensures told { result ≡ polled number self.old.slots }
        ensures slots { self.new.slots ≡ after_poll number self.old.slots }
    {
        if number == 0 || number > self.slots.count() {
            return Err(Error::UnknownTicket);
        }
        self.give_answer(number)
    }

    // The answer of a ticket that was given.
    fn give_answer(&mut self, number: u64) -> Result<Option<Held>, Error>
        ensures told { result ≡ polled_slot (under number self.old.slots) }
        ensures slots { self.new.slots ≡ after_poll number self.old.slots }
    {
        match self.slots.get(number) {
            None => give_packed(&mut self.blocks, number),
            Some(Slot::Open(..)) => Ok(None),
            Some(Slot::Held(_)) => Ok(slots::take_held(&mut self.slots, number)),
        }
    }

    /// Sets a ticket aside: its answer, there or to come, is dropped.
    ///
    /// # Errors
    /// As `take`.
    #[tactic(auto, using(crate::proofs::Shown::length_shown))]
    pub fn set_aside(&mut self, number: u64) -> Result<(), Error>
        ensures told { result ≡ laid number self.old.slots }
        ensures slots { self.new.slots ≡ (if is_ok result then after_mark self.old.slots (mark.SetAside number) else self.old.slots) }
    {
        if number == 0 || number > self.slots.count() {
            return Err(Error::UnknownTicket);
        }
        self.drop_answer(number)
    }
}

impl Tickets {
    // Drops the answer of a ticket that was given, there or to come.
    fn drop_answer(&mut self, number: u64) -> Result<(), Error>
        ensures told { result ≡ laid_slot (under number self.old.slots) }
        ensures slots { self.new.slots ≡ (if is_ok result then after_mark self.old.slots (mark.SetAside number) else self.old.slots) }
    {
        match self.slots.get(number) {
            None => drop_packed(&mut self.blocks, number),
            Some(_) => {
                drop(self.slots.take(number));
                Ok(())
            }
        }
    }
}

/// The machine keeps what the readings say, whatever marks come.
pub fn follows_history()
    ensures { (ms : List TicketMark) (slots : List (Option ASlot)) (m : TicketMark) → Follows ms slots → Follows (ms ++ m ∷ []) (after_mark slots m) }
{}

/// No ticket of an ended opening is open: the end of a channel's opening answers every ticket that was given there, but for the
/// one that it keeps.
pub fn an_end_leaves_no_ticket_open()
    ensures { (n c : ℕ) (spared : Option ℕ) (e : AnError) (ms : List TicketMark) → WasGiven n ms → channel_of n ms ≡ c → is_spared n spared ≡ false → is_unanswered (answer_of n (ms ++ mark.OpeningFailed c spared e ∷ [])) ≡ false }
{}

/// An end of an opening is its open tickets, failed one after another, in any order: a failure leaves what the end then comes
/// to, and where no open ticket of the channel is left but the one that is kept, the end is done. So is a close of this side.
pub fn an_end_one_by_one()
    ensures next { (n c : ℕ) (spared : Option ℕ) (e : AnError) (slots : List (Option ASlot)) → is_open_on c (under n slots) ≡ true → is_spared n spared ≡ false → failed c spared e (after_mark slots (mark.Answered n (Err e))) ≡ failed c spared e slots }
    ensures done { (c : ℕ) (spared : Option ℕ) (e : AnError) (slots : List (Option ASlot)) → ((n : ℕ) → is_open_on c (under n slots) ≡ true → is_spared n spared ≡ true) → failed c spared e slots ≡ slots }
    ensures closing { (n c : ℕ) (e : AnError) (slots : List (Option ASlot)) → rejects c (under n slots) ≡ true → map (closed_slot c e) (after_mark slots (mark.Answered n (Err e))) ≡ map (closed_slot c e) slots }
    ensures closed { (c : ℕ) (e : AnError) (slots : List (Option ASlot)) → ((n : ℕ) → rejects c (under n slots) ≡ false) → map (closed_slot c e) slots ≡ slots }
{}
