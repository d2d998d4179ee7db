//! The history that a client gave at its end, and how a log is compared with what is stored.

ghost use Rattle.std.specs.Prelude.{◌≡◌, ℕ, ◌-◌, ◌<◌, ◌≤◌, length, true, All, take, slice_get, IfSome, MatchOption, Some, None, ◌⊎◌};
ghost use Rattle.lapin_shared.specs.Checked.{IsAt};

use lapin_locked::{Entry, Logged, Stored};
use std::marker::Model;

/// A history that was stored under the lock of a client. `Client::finish` alone makes one.
pub struct History {
    entries: Vec<Stored>,
}

impl Drop for History {
    fn drop(self) {
        let History { entries } = self;
        drop(entries);
    }
}

impl Model for History {
    ghost use Rattle.std.specs.Prelude.{List};
    ghost use Rattle.lapin_locked.specs.declared.entry.Entry.{Entry};

    ghost Value = { List Entry };

    ghost use Rattle.lapin_locked.specs.Codes.{entries_code};

    ghost coded = { entries_code };

    ghost view = { λ h. h.entries.items };
}

impl History {
    /// How many steps were made.
    pub fn len(&self) -> usize
        ensures { result ≡ length self.now }
    {
        self.entries.len()
    }

    /// The entry at a place, from 1. `None` exactly where the place is 0 or above the length.
    pub fn at(&self, place: u64) -> Option<&Entry>
        ensures { MatchOption result ((place ≡ 0) ⊎ (length self.now < place)) (λ x. (0 < place) × (slice_get self.now (place - 1) ≡ Some x.now)) }
    {
        if place == 0 {
            return None;
        }
        match self.entries.get((place - 1) as usize) {
            Some(stored) => Some(stored.entry()),
            None => None,
        }
    }
}

/// The entries as a history.
pub fn stored(entries: Vec<Stored>) -> History
    ensures { result ≡ entries.items }
{
    History { entries }
}

// Whether an entry of a log stands in the history at its place.
fn is_at(entries: &[Stored], number: u64, logged: &Logged) -> bool
    ensures { result ≡ true → IsAt entries.now number logged.now }
{
    let place = logged.place();
    if place == 0 || place > entries.len() as u64 {
        return false;
    }
    let entry = entries[(place - 1) as usize].entry();
    if entry.caller != number || !entry.event.same(logged.event()) {
        return false;
    }
    match logged.answer() {
        Some(answer) => entry.answer.same(answer),
        None => true,
    }
}

/// Whether each entry of a log stands in the history at its place.
pub fn are_at(entries: &[Stored], number: u64, log: &[Logged]) -> bool
    ensures { result ≡ true → All (λ t. IsAt entries.now number t) log.now }
{
    log.iter().all(|logged| is_at(entries, number, logged))
}
