//! The lock's value: a session, the history of its steps, and the book of the ledger whose shares the callers hold.
//!
//! No lock is taken here. `lapin_shared` takes it, and makes these calls for a client and its callers; a program that has a client makes
//! none of them.

ghost use Rattle.std.specs.Prelude.{◌≡◌, ℕ, Some, None, ◌+◌, ◌<◌, [], ◌∷◌, ◌++◌, length, ◌-◌, ◌≤◌, IsOk, IfOk, OnOk, OnErr, not, slice_get};
ghost use Rattle.lapin_types.specs.declared.event.Event.TheVariants as event;
ghost use Rattle.lapin_rules.specs.History.{History, rec};
ghost use Rattle.lapin_machine.specs.World.{new_world, told_by};
ghost use Rattle.lapin_machine.specs.Told.{is_pending_record};
ghost use Rattle.lapin_machine.specs.Numbers.{HasNumbersFor};
ghost use Rattle.lapin_machine.specs.Stands.{Stands};
ghost use Rattle.lapin_locked.specs.Lawful.{history_of, IsLawful};
ghost use Rattle.lapin_locked.specs.UnderLock.{entry};

use crate::stored::Stored;
use lapin_session::Session;
use lapin_types::{Event, NoMemory};
use std::alloc::Global;
use std::marker::{Brand, Model};
use std::mem::replace;
use std::sync::Wait;
use std::sync::ledger::{Book, Ledger, Share};

/// One ledger, with as many parts as there are callers: what ties callers to their client.
pub trait Crew: Ledger {}

impl Crew for Brand {}

/// What lies under the lock. The history is lawful, the session stands for it, and the book counts its entries. The session has no
/// frame that was given back.
pub struct Locked<L: Crew> {
    session: Session,
    frame_max: u32,
    history: Vec<Stored>,
    book: Book<L>,
}

impl<L: Crew> Drop for Locked<L> {
    fn drop(self) {
        let Locked {
            session: _,
            frame_max: _,
            history: _,
            book: _,
        } = self;
    }
}

impl<L: Crew> Model for Locked<L> {
    ghost use Rattle.lapin_locked.specs.UnderLock.{UnderLock, IsKept};

    ghost Value = { UnderLock };

    ghost use Rattle.lapin_locked.specs.Codes.{kept_code};

    ghost coded = { kept_code };

    ghost view = { λ a. record { frame_max = a.frame_max; entries = a.history.items; world = a.session } };

    ghost invariant = { λ a. IsKept a.frame_max a.history.items a.session a.book.total };
}

impl<L: Crew> Locked<L> {
    /// A lock's value over a new session, with an empty history.
    ///
    /// # Errors
    /// `NoMemory` alone.
    pub fn new(alloc: Global, frame_max: u32, book: Book<L>) -> Result<Self, NoMemory>
        requires large { 4096 ≤ frame_max }
        requires none { book.total ≡ 0 }
        ensures frame_max { IfOk result (λ locked. locked.frame_max ≡ frame_max) }
        ensures entries { IfOk result (λ locked. locked.entries ≡ []) }
    {
        Ok(Locked {
            session: Session::new(alloc, frame_max)?,
            frame_max,
            history: Vec::new(alloc),
            book,
        })
    }

    /// Makes one step, and answers the place of its entry, which is the history's new length. The entry has the record that the
    /// stored history determines, and the share counts one more.
    ///
    /// # Errors
    /// `NoMemory` alone. Nothing changes then.
    pub fn step(
        &mut self,
        alloc: Global,
        caller: u64,
        share: &mut Share<L>,
        event: Event,
    ) -> Result<u64, NoMemory>
        requires { 0 < share.old.parts }
        ensures place { IfOk result (λ p. p ≡ length self.new.entries) }
        ensures history { OnOk result (self.new.entries ≡ self.old.entries ++ entry caller event (rec self.old.frame_max (history_of self.old.entries) event) ∷ []) }
        ensures machine { OnOk result (rec self.old.frame_max (history_of self.old.entries) event ≡ told_by self.old.world event) }
        ensures amount { OnOk result (share.new.amount ≡ share.old.amount + 1) }
        ensures frame_max { self.new.frame_max ≡ self.old.frame_max }
        ensures parts { share.new.parts ≡ share.old.parts }
        ensures err { OnErr result ((self.new ≡ self.old) × (share.new.amount ≡ share.old.amount)) }
    {
        let Ok(()) = self.history.reserve(1) else {
            drop(event);
            return Err(NoMemory);
        };
        let Ok(stored) = step_session(alloc, &mut self.session, caller, event) else {
            return Err(NoMemory);
        };
        self.history.push_reserved(stored);
        self.book.add(share, 1);
        Ok(self.history.len() as u64)
    }

    /// Makes room for so many steps, without which each step looks for room itself. `Client::reserve` is this under the lock.
    ///
    /// # Errors
    /// `NoMemory`, but not for no step. The history is the same in any case.
    pub fn reserve(&mut self, steps: usize) -> Result<(), NoMemory>
        ensures same { self.new ≡ self.old }
        ensures none { steps ≡ 0 → IsOk result }
    {
        self.history.reserve(steps)?;
        Ok(())
    }

    /// How many steps are stored.
    pub fn len(&self) -> u64
        ensures { result ≡ length self.now.entries }
    {
        self.history.len() as u64
    }

    /// The greatest size of a frame in bytes, with which the session began.
    pub fn frame_max(&self) -> u32
        ensures { result ≡ self.now.frame_max }
    {
        self.frame_max
    }

    /// The stored history, which is lawful.
    pub fn entries(&self) -> &[Stored]
        ensures value { result.now ≡ self.now.entries }
        ensures lawful { IsLawful self.now.frame_max self.now.entries }
    {
        self.history.as_slice()
    }

    /// Gives the history, whose length is the amount of a share with every part. The new session stays behind, with an empty history.
    /// `Client::finish` alone has every part.
    pub fn taken(&mut self, alloc: Global, all: Share<L>, session: Session) -> Vec<Stored>
        requires every { all.parts ≡ L.parts }
        requires session { session ≡ new_world self.old.frame_max }
        requires stands { Stands self.old.frame_max [] session }
        ensures history { result.items ≡ self.old.entries }
        ensures lawful { IsLawful self.old.frame_max self.old.entries }
        ensures counted { all.amount ≡ length self.old.entries }
    {
        let count = self.history.len() as u64;
        let mut all = all;
        self.book.audit(&mut all);
        self.book.sub(&mut all, count);
        self.session = session;
        replace(&mut self.history, Vec::new(alloc))
    }

    /// Whether a poll of the ticket would not be pending. `Caller::wait` waits for that.
    pub fn is_ready(&self, ticket: u64) -> bool
        ensures { result ≡ not (is_pending_record (told_by self.now.world (event.PollTicket ticket))) }
    {
        self.session.ticket_ready(ticket)
    }

    /// The entry at a place, for a caller's log to hold too.
    pub fn stored_at<R: Wait>(&self, rt: &R, place: u64) -> Stored
        requires { (0 < place) × (place ≤ length self.now.entries) }
        ensures { slice_get self.now.entries (place - 1) ≡ Some result }
    {
        self.history[(place - 1) as usize].again(rt)
    }
}

// Makes a step on a session that has numbers left and no frame given back, and answers its entry.
fn step_session(
    alloc: Global,
    session: &mut Session,
    caller: u64,
    event: Event,
) -> Result<Stored, NoMemory>
    requires numbers { HasNumbersFor 1 session.old }
    requires steady { session.old.returned ≡ None }
    ensures told { IfOk result (λ x. x ≡ entry caller event (told_by session.old event)) }
    ensures stands { OnOk result ((frame_max : ℕ) (h : History) → Stands frame_max h session.old →
        (told_by session.old event ≡ rec frame_max h event) × Stands frame_max (h ++ (event, told_by session.old event) ∷ []) session.new) }
    ensures steady { OnOk result (session.new.returned ≡ None) }
    ensures err { OnErr result (session.new ≡ session.old) }
{
    let Ok(mut stored) = Stored::unanswered(alloc, caller, event) else {
        return Err(NoMemory);
    };
    let Ok(()) = stored.meet(alloc, session) else {
        drop(stored);
        return Err(NoMemory);
    };
    Ok(stored)
}
