//! What a caller holds of its own, apart from the lock: its number, its log and its share of the ledger.
//!
//! The calls here are given the lock's value. Who takes the lock stands in `caller`.

ghost use Rattle.std.specs.Prelude.{◌≡◌, ℕ, List, ◌+◌, ◌<◌, ◌≤◌, [], ◌∷◌, ◌++◌, length, IfOk, OnOk, OnErr, IfErr, Some, slice_get, ◌-◌};
ghost use Rattle.lapin_types.specs.declared.event.Event.{Event as AnEvent};
ghost use Rattle.lapin_types.specs.declared.record.Record.{Record as ARecord};
ghost use Rattle.lapin_machine.specs.World.{told_by};
ghost use Rattle.lapin_rules.specs.History.{rec};
ghost use Rattle.lapin_locked.specs.Lawful.{history_of};
ghost use Rattle.lapin_locked.specs.UnderLock.{entry};
ghost use Rattle.lapin_locked.specs.Known.{told};
ghost use Rattle.lapin_shared.specs.Grown.{Grew, last_of, Rise};
ghost use Rattle.lapin_locked.specs.declared.entry.Told.{Told as AnEntry};
ghost use Rattle.lapin_shared.specs.Read.{HasPlace, IsPlaceAt, IsReadAt, IsShown, answered, unread};
ghost use Rattle.lapin_shared.specs.Failed.{IfFailed, IsStored};

use crate::caller::StepError;
use lapin_locked::{Crew, Locked, Logged, Told};
use lapin_types::{Event, NoMemory};
use std::alloc::Global;
use std::marker::Model;
use std::sync::Wait;
use std::sync::ledger::Share;

// No history has more steps.
pub(crate) const MOST_STEPS: u64 = u64::MAX / 2;

/// What a caller holds: its number, its log, and a share of one part whose amount is the log's length.
pub struct Hand<L: Crew> {
    number: u64,
    last: u64,
    log: Vec<Logged>,
    share: Share<L>,
}

impl<L: Crew> Drop for Hand<L> {
    fn drop(self) {
        let Hand {
            number: _,
            last: _,
            log: _,
            share: _,
        } = self;
    }
}

impl<L: Crew> Model for Hand<L> {
    ghost use Rattle.std.specs.Prelude.{◌≡◌, length};
    ghost use Rattle.lapin_shared.specs.Grown.{Seen, IsHand};

    ghost Value = { Seen };

    ghost use Rattle.lapin_shared.specs.Codes.{seen_code};

    ghost coded = { seen_code };

    ghost view = { λ a. record { number = a.number; log = a.log.items } };

    ghost invariant = { λ a. IsHand a.last a.log.items a.share.parts a.share.amount };
}

impl<L: Crew> Hand<L> {
    /// A caller that made no step.
    pub fn new(alloc: Global, number: u64, share: Share<L>) -> Self
        requires { (share.parts ≡ 1) × (share.amount ≡ 0) }
        ensures { result ≡ record { number = number; log = [] } }
    {
        Hand {
            number,
            last: 0,
            log: Vec::new(alloc),
            share,
        }
    }

    /// The caller's number.
    pub fn number(&self) -> u64
        ensures { result ≡ self.now.number }
    {
        self.number
    }

    /// The log, whose places rise.
    pub fn log(&self) -> &[Logged]
        ensures value { result.now ≡ self.now.log }
        ensures rise { Rise 0 self.now.log }
    {
        self.log.as_slice()
    }

    /// The place of the last entry, 0 where there is none.
    pub fn last(&self) -> u64
        ensures { result ≡ last_of 0 self.now.log }
    {
        self.last
    }

    /// Lets the share go, whose amount is the length of the log.
    pub fn into_share(self) -> Share<L>
        ensures parts { result.parts ≡ 1 }
        ensures amount { result.amount ≡ length self.log }
    {
        let Hand {
            number: _,
            last: _,
            log: _,
            share,
        } = self;
        share
    }

    /// Makes room for so many steps, without which each step looks for room itself.
    ///
    /// # Errors
    /// `NoMemory`. Nothing changes then either.
    pub fn reserve(&mut self, steps: usize) -> Result<(), NoMemory>
        ensures { self.new ≡ self.old }
    {
        self.log.reserve(steps)?;
        Ok(())
    }

    /// Makes one step on the lock's value, and answers its place. The log holds the entry that the history holds.
    ///
    /// # Errors
    /// `NoMemory`: no step was made, and nothing changed.
    pub fn make<R: Wait>(
        &mut self,
        rt: &R,
        alloc: Global,
        locked: &mut Locked<L>,
        event: Event,
    ) -> Result<u64, StepError>
        requires { last_of 0 self.old.log ≤ length locked.old.entries }
        ensures told { IfOk result (λ p. Grew self.old self.new (told p event (Some (rec locked.old.frame_max (history_of locked.old.entries) event)))) }
        ensures machine { OnOk result (rec locked.old.frame_max (history_of locked.old.entries) event ≡ told_by locked.old.world event) }
        ensures failed { IfErr result (λ e. IfFailed self.old event e self.new) }
        ensures stored { IsStored result locked.old (entry self.old.number event (rec locked.old.frame_max (history_of locked.old.entries) event)) locked.new }
    {
        // (no memory holds so many entries)
        if locked.len() >= MOST_STEPS {
            drop(event);
            return Err(StepError::NoMemory);
        }
        if self.log.reserve(1).is_err() {
            drop(event);
            return Err(StepError::NoMemory);
        }
        let Ok(place) = locked.step(alloc, self.number, &mut self.share, event) else {
            return Err(StepError::NoMemory);
        };
        self.last = place;
        let stored = locked.stored_at(rt, place);
        self.log.push_reserved(Logged::new(place, stored));
        Ok(place)
    }

    /// A copy of the newest entry, whose place this is.
    ///
    /// # Errors
    /// `Unread`: there was no memory for it, and the log has the entry without its record.
    pub fn tell_newest(&mut self, alloc: Global, place: u64) -> Result<Told, StepError>
        requires { 0 < length self.old.log }
        ensures { (front : List AnEntry) (e : AnEvent) (r : ARecord) → self.old.log ≡ front ++ told place e (Some r) ∷ [] → IsShown result (λ t. t) self.old.number front place e r self.new }
    {
        let k = self.log.len() - 1;
        match tell_at(alloc, &mut self.log, k) {
            Ok(told) => Ok(told),
            Err(NoMemory) => {
                forget_at(&mut self.log, k);
                Err(StepError::Unread { place })
            }
        }
    }

    /// A copy of the entry at that place, and its index. From then on the log has its record.
    ///
    /// # Errors
    /// `NoMemory`. Nothing changes then.
    pub fn fetch(&mut self, alloc: Global, place: u64) -> Result<Told, NoMemory>
        requires { HasPlace place self.old.log }
        ensures read { IfOk result (λ t. (k : ℕ) × IsReadAt self.old k place self.new × (slice_get self.new.log k ≡ Some t)) }
        ensures err { OnErr result (self.new ≡ self.old) }
    {
        let k = index_of(&self.log, place);
        tell_at(alloc, &mut self.log, k)
    }
}

// A copy of entry k, whose record the log then has.
fn tell_at(alloc: Global, log: &mut Vec<Logged>, k: usize) -> Result<Told, NoMemory>
    requires { k < length log.old.items }
    ensures told { IfOk result (λ t. (r : ARecord) × (log.new.items ≡ answered log.old.items k r) × (slice_get log.new.items k ≡ Some t)) }
    ensures same { (t : AnEntry) (r : ARecord) → slice_get log.old.items k ≡ Some t → t.answer ≡ Some r → log.new.items ≡ log.old.items }
    ensures err { OnErr result (log.new.items ≡ log.old.items) }
{
    let logged = &mut log[k];
    logged.tell(alloc)
}

// The log without the record of entry k.
fn forget_at(log: &mut Vec<Logged>, k: usize)
    requires { k < length log.old.items }
    ensures { log.new.items ≡ unread log.old.items k }
{
    let logged = &mut log[k];
    logged.forget();
}

// The index of the entry with that place.
fn index_of(log: &[Logged], place: u64) -> usize
    requires { HasPlace place log.now }
    ensures { IsPlaceAt log.now result place }
{
    for k in 0..log.len() {
        if log[k].place() == place {
            return k;
        }
    }
    unreachable!()
}
