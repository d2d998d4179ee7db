//! One thread's end of the client: it takes the lock, makes one step, and tells those that wait.
//!
//! What a step does to the history stands in `lapin_locked`, what it does to the log in `hand`. The calls by name stand in `calls`.

ghost use Rattle.std.specs.Prelude.{◌≡◌, ◌≢◌, ℕ, List, ◌<◌, ◌≤◌, [], ◌∷◌, ◌++◌, length, IfOk, IfErr, IfSome, Some, None, false, slice_get, ◌-◌};
ghost use Rattle.std.specs.Sync.Mutex.{mutex_guard_value};
ghost use Rattle.lapin_types.specs.declared.event.Event.{Event as AnEvent};
ghost use Rattle.lapin_types.specs.declared.event.Event.TheVariants as event_;
ghost use Rattle.lapin_types.specs.declared.record.Record.{Record};
ghost use Rattle.lapin_machine.specs.World.{World, told_by};
ghost use Rattle.lapin_machine.specs.Told.{is_pending_record};
ghost use Rattle.lapin_locked.specs.Known.{told};
ghost use Rattle.lapin_shared.specs.Grown.{Grew, last_of, IsOver, Rise};
ghost use Rattle.lapin_locked.specs.declared.entry.Told.{Told as AnEntry};
ghost use Rattle.lapin_shared.specs.Read.{HasPlace, IsReadAt, IsShown};
ghost use Rattle.lapin_shared.specs.Failed.{IfFailed, IsStep, IsWait};

use crate::hand::Hand;
use lapin_acker::Verdict;
use lapin_locked::{Crew, Locked, Logged, Told};
use lapin_types::{Event, NoMemory};
use std::alloc::Global;
use std::marker::Model;
use std::sync::ledger::Share;
use std::sync::{Arc, Condvar, Mutex, MutexGuard, Wait};

/// Why a caller has no answer: want of memory, before the step or behind it. What the session refuses is an answer.
#[derive(Clone, Copy, Debug, PartialEq, Eq)]
pub enum StepError {
    /// No step was made, and the log is unchanged.
    NoMemory,
    /// The step was made and stands in the history at that place. There was no memory for the copy of its record: `fetch` asks again.
    Unread {
        /// Where the step stands in the history, from 1.
        place: u64,
    },
    /// A delegate answered, and no step was made of its verdict. A turn of work alone ends so; no call of a caller gives it.
    Unsent {
        /// The acker of the delivery.
        acker: u64,
        /// What the delegate answered.
        verdict: Verdict,
    },
}

/// What all callers of a client share.
pub struct Shared<L: Crew> {
    /// The one lock.
    pub lock: Mutex<Locked<L>>,
    /// Told after each step: those that wait for an answer look again.
    pub moved: Condvar,
}

impl<L: Crew> Drop for Shared<L> {
    fn drop(self) {
        let Shared { lock: _, moved: _ } = self;
    }
}

// The lock's value, with a history of at least that many entries: no step of a caller comes before its last one. With the callers of
// one client the first look finds it so.
pub fn lock_past<'a, L: Crew, R: Wait>(
    rt: &R,
    shared: &'a Shared<L>,
    least: u64,
) -> MutexGuard<'a, Locked<L>>
    ensures { least ≤ length (mutex_guard_value result).entries }
{
    for _ in rt.forever() {
        let guard = shared.lock.lock(rt);
        if guard.len() >= least {
            return guard;
        }
    }
    unreachable!()
}

// The same once a poll of the ticket would not be pending.
pub fn lock_ready<'a, L: Crew, R: Wait>(
    rt: &R,
    shared: &'a Shared<L>,
    least: u64,
    ticket: u64,
) -> MutexGuard<'a, Locked<L>>
    ensures least { least ≤ length (mutex_guard_value result).entries }
    ensures ready { is_pending_record (told_by (mutex_guard_value result).world (event_.PollTicket ticket)) ≡ false }
{
    for _ in rt.forever() {
        let guard = shared
            .moved
            .wait_while(rt, shared.lock.lock(rt), |l| !l.is_ready(ticket));
        if guard.len() >= least {
            return guard;
        }
    }
    unreachable!()
}

// The entry that is shown.
fn shown(place: &Option<Told>) -> &Told
    requires { place.now ≢ None }
    ensures { IfSome place.now (λ t. result.now ≡ t) }
{
    match place {
        Some(told) => told,
        None => unreachable!(),
    }
}

/// One thread's end of a client. Contracts see its number and its log. Beside them stands a copy of the entry that was answered last.
pub struct Caller<L: Crew> {
    shared: Arc<Shared<L>, Global>,
    hand: Hand<L>,
    told: Option<Told>,
}

impl<L: Crew> Drop for Caller<L> {
    fn drop(self) {
        let Caller {
            shared: _,
            hand: _,
            told: _,
        } = self;
    }
}

impl<L: Crew> Model for Caller<L> {
    ghost use Rattle.lapin_shared.specs.Grown.{Seen};

    ghost Value = { Seen };

    ghost use Rattle.lapin_shared.specs.Codes.{seen_code};

    ghost coded = { seen_code };

    ghost view = { λ a. a.hand };
}

impl<L: Crew> Caller<L> {
    pub(crate) fn new(
        alloc: Global,
        shared: Arc<Shared<L>, Global>,
        number: u64,
        share: Share<L>,
    ) -> Self
        requires { (share.parts ≡ 1) × (share.amount ≡ 0) }
        ensures { result ≡ record { number = number; log = [] } }
    {
        Caller {
            shared,
            hand: Hand::new(alloc, number, share),
            told: None,
        }
    }

    /// The caller's number, from 1.
    pub fn number(&self) -> u64
        ensures { result ≡ self.now.number }
    {
        self.hand.number()
    }

    /// The caller's steps, oldest first. Their places rise.
    pub fn log(&self) -> &[Logged]
        ensures value { result.now ≡ self.now.log }
        ensures rise { Rise 0 self.now.log }
    {
        self.hand.log()
    }

    /// Makes room in the log for so many steps more. Without it each step looks for room itself.
    ///
    /// # Errors
    /// `NoMemory`. The log is the same in any case.
    pub fn reserve(&mut self, steps: usize) -> Result<(), NoMemory>
        ensures { self.new ≡ self.old }
    {
        self.hand.reserve(steps)
    }

    pub(crate) fn into_share(self) -> Share<L>
        ensures parts { result.parts ≡ 1 }
        ensures amount { result.amount ≡ length self.log }
    {
        let Caller {
            shared: _,
            hand,
            told: _,
        } = self;
        hand.into_share()
    }

    /// Makes one step as `step` does, and answers its place.
    ///
    /// # Errors
    /// As of `step`.
    pub fn make<R: Wait>(&mut self, rt: &R, alloc: Global, event: Event) -> Result<u64, StepError>
        ensures ok { IfOk result (λ p. (w : World) × Grew self.old self.new (told p event (Some (told_by w event)))) }
        ensures failed { IfErr result (λ e. IfFailed self.old event e self.new) }
    {
        let least = self.hand.last();
        let mut guard = lock_past(rt, &self.shared, least);
        let done = self.hand.make(rt, alloc, &mut guard, event);
        drop(guard);
        self.shared.moved.notify_all();
        done
    }

    // Waits until a poll of the ticket would not be pending, and makes it.
    fn make_wait<R: Wait>(&mut self, rt: &R, alloc: Global, ticket: u64) -> Result<u64, StepError>
        ensures ok { IfOk result (λ p. (r : Record) × Grew self.old self.new (told p (event_.PollTicket ticket) (Some r)) × IsOver r) }
        ensures failed { IfErr result (λ e. IfFailed self.old (event_.PollTicket ticket) e self.new) }
    {
        let least = self.hand.last();
        let mut guard = lock_ready(rt, &self.shared, least, ticket);
        let done = self
            .hand
            .make(rt, alloc, &mut guard, Event::PollTicket(ticket));
        drop(guard);
        self.shared.moved.notify_all();
        done
    }
}

impl<L: Crew> Caller<L> {
    ghost use Rattle.std.specs.Prelude.{⊤, MatchResult};
    ghost use Rattle.std.specs.Borrow.{sem, follows_so};
    ghost use mathlib.Core.Option.{none};
    ghost use Rattle.lapin_shared.specs.contracts.caller.Caller.{the_row};

    /// Makes one step. The answer is the log's new entry, which has this event and holds the session's answer.
    ///
    /// # Errors
    /// `NoMemory`: no step was made, and the log is unchanged. `Unread`: the step was made, and the log grew by an entry without its
    /// answer.
    pub fn step<R: Wait>(&mut self, rt: &R, alloc: Global, event: Event) -> Result<&Told, StepError>
        ensures* after { sem 𝓛 (follows_so (the_row L.row L.Ledger) (the_row L.row L.Ledger) self.entry.ghost_name none (λ _ _. ⊤) (λ new. IsStep result (λ t. t.now) self.old event new)) }
    {
        match self.make(rt, alloc, event) {
            Ok(place) => self.show_newest(alloc, place),
            Err(e) => Err(e),
        }
    }

    /// Waits until the ticket has its answer, or can have none, and then polls it. The answer is the log's new entry, whose record is
    /// not pending. It may wait for another caller's step, and for ever where none comes.
    ///
    /// # Errors
    /// As of `step`.
    pub fn wait<R: Wait>(&mut self, rt: &R, alloc: Global, ticket: u64) -> Result<&Told, StepError>
        ensures* after { sem 𝓛 (follows_so (the_row L.row L.Ledger) (the_row L.row L.Ledger) self.entry.ghost_name none (λ _ _. ⊤) (λ new. IsWait result (λ t. t.now) self.old ticket new)) }
    {
        match self.make_wait(rt, alloc, ticket) {
            Ok(place) => self.show_newest(alloc, place),
            Err(e) => Err(e),
        }
    }

    // Shows a copy of the newest entry, whose place this is.
    fn show_newest(&mut self, alloc: Global, place: u64) -> Result<&Told, StepError>
        requires { 0 < length self.old.log }
        ensures* after { sem 𝓛 (follows_so (the_row L.row L.Ledger) (the_row L.row L.Ledger) self.entry.ghost_name none (λ _ _. ⊤)
            (λ new. (front : List AnEntry) (e : AnEvent) (r : Record) → self.old.log ≡ front ++ told place e (Some r) ∷ [] → IsShown result (λ t. t.now) self.old.number front place e r new)) }
    {
        match self.hand.tell_newest(alloc, place) {
            Ok(told) => {
                self.told = Some(told);
                Ok(shown(&self.told))
            }
            Err(e) => Err(e),
        }
    }

    /// The newest entry of the log, which has one.
    pub fn newest(&self) -> &Logged
        requires { 0 < length self.now.log }
        ensures { slice_get self.now.log (length self.now.log - 1) ≡ Some result.now }
    {
        let log = self.hand.log();
        &log[log.len() - 1]
    }

    /// Copies an unread record. The answer is the log's entry of that place, which now holds it; all else of the log stays.
    ///
    /// # Errors
    /// `NoMemory`. The log is unchanged.
    pub fn fetch<R: Wait>(&mut self, rt: &R, alloc: Global, place: u64) -> Result<&Told, NoMemory>
        requires { HasPlace place self.old.log }
        ensures* after { sem 𝓛 (follows_so (the_row L.row L.Ledger) (the_row L.row L.Ledger) self.entry.ghost_name none (λ _ _. ⊤)
            (λ new. MatchResult result (λ t. (k : ℕ) × IsReadAt self.old k place new × (slice_get new.log k ≡ Some t.now)) (λ _. new ≡ self.old))) }
    {
        let _ = rt;
        match self.hand.fetch(alloc, place) {
            Ok(told) => {
                self.told = Some(told);
                Ok(shown(&self.told))
            }
            Err(e) => Err(e),
        }
    }
}
