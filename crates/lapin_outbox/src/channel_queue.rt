//! Entries in order of joining, from which the first of a key can be taken as well as the first of all.
//!
//! The outbox keeps its methods in one line and its publishes in another, by their channels. What an entry is, and when it is
//! taken, is `queues`, which alone calls this file.

ghost use Rattle.std.specs.Prelude.{◌≡◌, ℕ, ◌+◌, ◌<◌, ◌≤◌, ◌++◌, ◌∷◌, [], IsOk, IfOk, OnOk, OnErr, drop, slice_get, is_some};
ghost use Rattle.std.specs.List.{find};
ghost use Rattle.lapin_rules.specs.Frames.{is_empty};
ghost use Rattle.lapin_rules.specs.Words.{without_first};
ghost use Rattle.lapin_rules.specs.Drops.{is_on};
ghost use Rattle.lapin_outbox.specs.Passing.{not_full, of_key};

use crate::passing::Passing;
use lapin_full::FullChannels;
use lapin_tables::Numbered;
use lapin_types::NoMemory;
use std::alloc::Global;
use std::marker::Model;

/// What stands in a line: an entry with a number by which it is found.
pub(crate) trait Keyed: Drop {
    ghost key_of: { Self → ℕ };

    /// Its key.
    fn key(&self) -> u16
        ensures { result ≡ key_of self.now };
}

/// Entries in order of joining. A contract sees their list, and for how many more there is room.
#[derive(Drop)]
pub(crate) struct ChannelQueue<T: Keyed> {
    // Under the numbers of `order`.
    entries: Numbered<T>,
    order: Passing,
}

impl<T: Keyed> Model for ChannelQueue<T> {
    ghost use Rattle.std.specs.Prelude.{◌≡◌, min};
    ghost use Rattle.lapin_outbox.specs.ChannelQueue.{InQueue, kept, keys_by};

    ghost Value = { InQueue T };

    ghost view = { λ l. record { entries = kept l.entries.slots; spare = min l.entries.spare l.order.spare } };

    ghost invariant = { λ l. keys_by T.key_of l.entries.slots ≡ l.order.keys };
}

impl<T: Keyed> ChannelQueue<T> {
    /// No entry. It takes no memory yet.
    pub(crate) fn new(alloc: Global) -> ChannelQueue<T>
        ensures { result.entries ≡ [] }
    {
        ChannelQueue {
            entries: Numbered::new(alloc),
            order: Passing::new(alloc),
        }
    }

    /// Makes room for the next `push_reserved`. The entries stay.
    pub(crate) fn reserve(&mut self) -> Result<(), NoMemory>
        ensures room { OnOk result (0 < self.new.spare) }
        ensures same { self.new.entries ≡ self.old.entries }
        ensures kept { self.old.spare ≤ self.new.spare }
        ensures succeeds { 0 < self.old.spare → IsOk result }
    {
        self.entries.reserve(1)?;
        self.order.reserve()
    }

    /// Adds an entry behind the others, in the room that was made.
    pub(crate) fn push_reserved(&mut self, entry: T)
        requires { 0 < self.old.spare }
        ensures entries { self.new.entries ≡ self.old.entries ++ entry ∷ [] }
        ensures used { self.old.spare ≤ self.new.spare + 1 }
    {
        self.order.push_reserved(entry.key());
        self.entries.push_reserved(entry);
    }

    /// Whether there is no entry.
    pub(crate) fn is_empty(&self) -> bool
        ensures { result ≡ is_empty self.now.entries }
    {
        self.entries.first_number().is_none()
    }

    /// Takes out the first entry; `None` exactly where there is none.
    pub(crate) fn pop(&mut self) -> Option<T>
        ensures taken { result ≡ slice_get self.old.entries 0 }
        ensures others { self.new.entries ≡ drop 1 self.old.entries }
        ensures kept { self.old.spare ≤ self.new.spare }
    {
        let number = self.entries.first_number()?;
        let entry = self.entries.take(number)?;
        let _ = self.order.take_first(entry.key());
        Some(entry)
    }

    /// Takes out the first entry of a key; `None` exactly where there is none. The others keep their order.
    pub(crate) fn pop_of(&mut self, key: u16) -> Option<T>
        ensures taken { result ≡ find (is_on T.key_of key) self.old.entries }
        ensures others { self.new.entries ≡ without_first (is_on T.key_of key) self.old.entries }
        ensures kept { self.old.spare ≤ self.new.spare }
    {
        let number = self.order.take_first(key)?;
        self.entries.take(number)
    }

    /// Whether there is an entry of a key that isn't full. The entries stay, also where there is no memory to pass over one.
    #[tactic(auto, using(crate::proofs::PassedOver::any_where))]
    pub(crate) fn has_unless<F: FullChannels>(&mut self, full: &F) -> Result<bool, NoMemory>
        ensures told { IfOk result (λ has. has ≡ is_some (find (of_key T.key_of (not_full (F.full full.now))) self.old.entries)) }
        ensures same { self.new.entries ≡ self.old.entries }
        ensures kept { self.old.spare ≤ self.new.spare }
    {
        match self.order.first_unless(full) {
            Ok(number) => Ok(number.is_some()),
            Err(NoMemory) => Err(NoMemory),
        }
    }

    /// Takes out the first entry of a key that isn't full; `None` exactly where there is none. The others keep their order. Where
    /// there is no memory all stay.
    pub(crate) fn pop_unless<F: FullChannels>(&mut self, full: &F) -> Result<Option<T>, NoMemory>
        ensures taken { IfOk result (λ entry. entry ≡ find (of_key T.key_of (not_full (F.full full.now))) self.old.entries) }
        ensures others { OnOk result (self.new.entries ≡ without_first (of_key T.key_of (not_full (F.full full.now))) self.old.entries) }
        ensures err { OnErr result (self.new.entries ≡ self.old.entries) }
        ensures kept { self.old.spare ≤ self.new.spare }
    {
        let Some(number) = self.order.first_unless(full)? else {
            return Ok(None);
        };
        let Some(entry) = self.entries.take(number) else {
            return Ok(None);
        };
        let _ = self.order.take_first(entry.key());
        Ok(Some(entry))
    }
}
