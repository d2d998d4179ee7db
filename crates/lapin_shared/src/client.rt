//! The client: it makes the callers over one lock, and takes them back at the end. A caller's steps stand in `caller`, what lies under the
//! lock in `lapin_locked`.

ghost use Rattle.std.specs.Prelude.{◌≡◌, ℕ, ◌+◌, ◌-◌, ◌<◌, ◌≤◌, [], ◌∷◌, ◌++◌, length, IsOk, IfOk, OnOk, OnErr, IfErr, true, All, ◌↔◌};
ghost use Rattle.std.specs.List.{sum_by};
ghost use Rattle.std.specs.Sync.Mutex.{mutex_guard_value};
ghost use Rattle.lapin_machine.specs.World.{new_world};
ghost use Rattle.lapin_machine.specs.Stands.{Stands};
ghost use Rattle.lapin_locked.specs.Lawful.{IsLawful};
ghost use Rattle.lapin_shared.specs.Checked.{IsAt, AllAt};
ghost use Rattle.lapin_shared.specs.Ackers.{UsesOnce};
ghost use Rattle.lapin_shared.specs.Grown.{AreFresh, Rise};
ghost use Rattle.lapin_shared.specs.Finished.{IsOut};

use crate::caller::{Caller, Shared};
use crate::history::{History, are_at, stored};
use lapin_locked::{Crew, Locked, Stored};
use lapin_session::Session;
use lapin_types::NoMemory;
use std::alloc::Global;
use std::marker::Model;
use std::sync::ledger::{Blank, Share};
use std::sync::{Arc, Condvar, Mutex, MutexGuard, Wait};

/// Why the callers were not taken back. The list of them is then as it was.
#[derive(Clone, Copy, Debug, PartialEq, Eq)]
pub enum FinishError {
    /// There was no memory.
    NoMemory,
    /// Fewer callers were given than were made.
    StillOut {
        /// How many were made.
        made: u64,
        /// How many were given.
        given: u64,
    },
}

/// The session that its callers share.
pub struct Client<L: Crew> {
    shared: Arc<Shared<L>, Global>,
    frame_max: u32,
    made: u64,
}

impl<L: Crew> Drop for Client<L> {
    fn drop(self) {
        let Client {
            shared: _,
            frame_max: _,
            made: _,
        } = self;
    }
}

impl<L: Crew> Model for Client<L> {
    ghost use Rattle.std.specs.Prelude.{◌≡◌, ◌<◌, ◌≤◌, ℕ};
    ghost use Rattle.lapin_shared.specs.Grown.{Made};

    ghost Value = { Made };

    ghost view = { λ a. record { frame_max = a.frame_max; made = a.made } };

    ghost invariant = { λ a. (a.made ≡ L.parts) × (0 < a.made) × (4096 ≤ a.frame_max) };
}

impl<L: Crew> Client<L> {
    /// How many callers were made.
    pub fn made(&self) -> u64
        ensures { result ≡ self.now.made }
    {
        self.made
    }

    /// The greatest size of a frame in bytes (AMQP 0-9-1, section 4.2.3).
    pub fn frame_max(&self) -> u32
        ensures { result ≡ self.now.frame_max }
    {
        self.frame_max
    }

    /// A client over a new session, and its callers.
    #[tactic(auto, using(crate::proofs::Rising::fresh_snoc))]
    pub fn new(
        alloc: Global,
        frame_max: u32,
        callers: usize,
        blank: Blank,
    ) -> Result<(Client<L>, Vec<Caller<L>>), NoMemory>
        requires frame_max { 4096 ≤ frame_max }
        requires some { 1 ≤ callers }
        requires name { blank.name ≡ L.name }
        requires parts { (blank.parts ≡ callers) × (blank.parts ≡ L.parts) }
        ensures client { IfOk result (λ r. (r.0.frame_max ≡ frame_max) × (r.0.made ≡ callers)) }
        ensures count { IfOk result (λ r. length r.1.items ≡ callers) }
        ensures fresh { IfOk result (λ r. AreFresh 1 r.1.items) }
    {
        let (book, mut rest) = blank.open::<L>();
        let shared = Shared {
            lock: Mutex::new(Locked::new(alloc, frame_max, book)?),
            moved: Condvar::new(),
        };
        let shared = Arc::new(alloc, shared)?;
        let mut all = Vec::new(alloc);
        for i in 0..callers {
            let share = rest.split_off(1, 0);
            all.push(Caller::new(alloc, Arc::try_clone(&shared)?, i as u64 + 1, share))?;
        }
        let client = Client {
            shared,
            frame_max,
            made: callers as u64,
        };
        Ok((client, all))
    }

    /// Makes room in the history for so many steps more, of all callers together. Without it each step looks for room itself.
    ///
    /// # Errors
    /// `NoMemory`, but not for no step. The history is the same in any case.
    pub fn reserve<R: Wait>(&self, rt: &R, steps: usize) -> Result<(), NoMemory>
        ensures { steps ≡ 0 → IsOk result }
    {
        let mut guard = self.shared.lock.lock(rt);
        guard.reserve(steps)
    }

    /// Takes all callers back, and gives the history. Under the lock stays a new session with an empty one, which no caller is left to
    /// ask. The callers are this client's.
    ///
    /// # Errors
    /// `StillOut` exactly where the list is shorter than `made`; `NoMemory`. The list is unchanged then.
    pub fn finish<R: Wait>(
        &self,
        rt: &R,
        alloc: Global,
        callers: &mut Vec<Caller<L>>,
    ) -> Result<History, FinishError>
        ensures lawful { IfOk result (λ h. IsLawful self.now.frame_max h) }

        // Of the calls of each acker, by whichever callers, at most one is answered otherwise than no.
        ensures used_once { IfOk result UsesOnce }

        ensures count { IfOk result (λ h. length h ≡ sum_by (λ c. length c.log) callers.old.items) }
        ensures stand { IfOk result (λ h. All (λ c. AllAt h c) callers.old.items) }
        ensures rise { OnOk result (All (λ c. Rise 0 c.log) callers.old.items) }
        ensures emptied { OnOk result (callers.new.items ≡ []) }
        ensures err { OnErr result (callers.new.items ≡ callers.old.items) }
        ensures out { IsOut self.now.made (length callers.old.items) result }
    {
        let given = callers.len() as u64;
        if given < self.made {
            return Err(FinishError::StillOut {
                made: self.made,
                given,
            });
        }
        let Ok(session) = Session::new(alloc, self.frame_max) else {
            return Err(FinishError::NoMemory);
        };
        let mut guard = lock_checked(rt, &self.shared, self.frame_max, callers.as_slice());
        Ok(closed(alloc, &mut guard, session, callers))
    }
}

/// The lock's value, which has that frame_max, and in which each entry of the logs stands.
fn lock_checked<'a, L: Crew, R: Wait>(
    rt: &R,
    shared: &'a Shared<L>,
    frame_max: u32,
    callers: &[Caller<L>],
) -> MutexGuard<'a, Locked<L>>
    ensures frame_max { (mutex_guard_value result).frame_max ≡ frame_max }
    ensures stand { All (λ c. AllAt (mutex_guard_value result).entries c) callers.now }
    ensures rise { All (λ c. Rise 0 c.log) callers.now }
{
    for _ in rt.forever() {
        let guard = shared.lock.lock(rt);
        if guard.frame_max() == frame_max && all_at(&guard, callers) {
            return guard;
        }
    }
    unreachable!()
}

fn all_at<L: Crew>(locked: &Locked<L>, callers: &[Caller<L>]) -> bool
    ensures stand { result ≡ true → All (λ c. AllAt locked.now.entries c) callers.now }
    ensures rise { result ≡ true → All (λ c. Rise 0 c.log) callers.now }
{
    let entries = locked.entries();
    callers.iter().all(|caller| is_back(entries, caller))
}

/// Whether the log of a caller stands in the history.
fn is_back<L: Crew>(entries: &[Stored], caller: &Caller<L>) -> bool
    ensures stand { result ≡ true → AllAt entries.now caller.now }
    ensures rise { Rise 0 caller.now.log }
{
    are_at(entries, caller.number(), caller.log())
}

/// Takes the callers' shares back, and gives the history, whose entries they count.
fn closed<L: Crew>(
    alloc: Global,
    locked: &mut Locked<L>,
    session: Session,
    callers: &mut Vec<Caller<L>>,
) -> History
    requires every { (0 < length callers.old.items) × (L.parts ≤ length callers.old.items) }
    requires session { session ≡ new_world locked.old.frame_max }
    requires stands { Stands locked.old.frame_max [] session }
    ensures history { result ≡ locked.old.entries }
    ensures lawful { IsLawful locked.old.frame_max locked.old.entries }
    ensures used_once { UsesOnce locked.old.entries }
    ensures count { length result ≡ sum_by (λ c. length c.log) callers.old.items }
    ensures emptied { callers.new.items ≡ [] }
{
    let all = gathered(callers);
    stored(locked.taken(alloc, all, session))
}

/// The shares of all callers.
fn gathered<L: Crew>(callers: &mut Vec<Caller<L>>) -> Share<L>
    requires { 0 < length callers.old.items }
    ensures parts { result.parts ≡ length callers.old.items }
    ensures at_most { result.parts ≤ L.parts }
    ensures amount { result.amount ≡ sum_by (λ c. length c.log) callers.old.items }
    ensures emptied { callers.new.items ≡ [] }
{
    let Some(last) = callers.pop() else {
        unreachable!()
    };
    let mut all = last.into_share();
    let none = all.empty();
    all.merge(none);
    while let Some(caller) = callers.pop() {
        all.merge(caller.into_share());
    }
    all
}
