//! Numbers in order of joining, each of a key, from which the first of a key is found at once.
//!
//! Under each number stands how far behind it the next number of its key is, and by key stand its first number and its
//! last, so that nothing is searched. What waits under a number is the line's. `passing` alone calls this file.

ghost use Rattle.std.specs.Prelude.{◌≡◌, ◌+◌, ◌^◌, ◌<◌, ◌≤◌, ◌++◌, ◌∷◌, [], Some, length, IsOk, OnOk};
ghost use Rattle.lapin_tables.specs.Numbered.{under, first_kept};
ghost use Rattle.lapin_outbox.specs.Order.{first_on, without_number};

use crate::ends::{Ends, EndsByKey};
use lapin_tables::Numbered;
use lapin_types::NoMemory;
use std::alloc::Global;
use std::marker::Model;

/// A number that waits: its key, and how far behind it the next number of that key stands, 0 where there is none.
#[derive(Clone, Copy)]
pub(crate) struct Link {
    key: u16,
    next: u64,
}

/// Numbers from 1 in order of joining. A contract sees the key under each number, `None` where it was taken.
#[derive(Drop)]
pub(crate) struct Order {
    links: Numbered<Link>,
    ends: EndsByKey,
}

impl Model for Order {
    ghost use Rattle.std.specs.Prelude.{◌≡◌, ℕ, ◌-◌, ◌^◌, min, length};
    ghost use Rattle.lapin_outbox.specs.Ends.{at};
    ghost use Rattle.lapin_outbox.specs.Order.{InOrder};
    ghost use Rattle.lapin_outbox.specs.Links.{ends_of, AreLinked, keys_of};

    ghost Value = { InOrder };

    ghost view = { λ o. record {
      keys = keys_of o.links.slots;
      spare = min (min o.links.spare o.ends.spare) (2 ^ 64 - 1 - length o.links.slots);
    } };

    ghost invariant = { λ o. ((c : ℕ) → at c o.ends ≡ ends_of c o.links.slots) × AreLinked o.links.slots };
}

impl Order {
    /// No number is given yet. It takes no memory.
    pub(crate) fn new(alloc: Global) -> Order
        ensures { result.keys ≡ [] }
    {
        Order {
            links: Numbered::new(alloc),
            ends: EndsByKey::new(alloc),
        }
    }

    /// Makes room for the next `push_reserved`, of whatever key. The numbers stay.
    pub(crate) fn reserve(&mut self) -> Result<(), NoMemory>
        ensures room { OnOk result (0 < self.new.spare) }
        ensures numbers { OnOk result (length self.new.keys + 1 < 2 ^ 64) }
        ensures same { self.new.keys ≡ self.old.keys }
        ensures kept { self.old.spare ≤ self.new.spare }
        ensures succeeds { 0 < self.old.spare → IsOk result }
    {
        if self.links.next_number().is_none() {
            return Err(NoMemory);
        }
        self.links.reserve(1)?;
        self.ends.reserve()
    }

    /// Gives the next number to an entry of a key, in the room that was made.
    pub(crate) fn push_reserved(&mut self, key: u16)
        requires { 0 < self.old.spare }
        ensures keys { self.new.keys ≡ self.old.keys ++ Some key ∷ [] }
        ensures numbers { length self.old.keys + 1 < 2 ^ 64 }
        ensures used { self.old.spare ≤ self.new.spare + 1 }
    {
        let number = self.links.push_reserved(Link { key, next: 0 });
        let Some(last) = self.ends.join(key, number) else {
            return;
        };
        let next = number - last;
        self.links.set(last, Link { key, next });
    }

    /// How many numbers were given, which is also the last one.
    pub(crate) fn count(&self) -> u64
        ensures { result ≡ length self.now.keys }
    {
        self.links.count()
    }

    /// The least number that was not taken.
    pub(crate) fn first_number(&self) -> Option<u64>
        ensures { result ≡ first_kept self.now.keys }
    {
        self.links.first_number()
    }

    /// The key of a number; `None` where the number was never given or was taken.
    pub(crate) fn key(&self, number: u64) -> Option<u16>
        ensures { result ≡ under number self.now.keys }
    {
        Some(self.links.get(number)?.key)
    }

    /// The first number of a key; `None` exactly where it has none.
    pub(crate) fn first(&self, key: u16) -> Option<u64>
        ensures { result ≡ first_on key self.now.keys }
    {
        Some(self.ends.get(key)?.first)
    }

    /// Takes the first number of a key; `None` exactly where it has none.
    pub(crate) fn take_first(&mut self, key: u16) -> Option<u64>
        ensures number { result ≡ first_on key self.old.keys }
        ensures keys { self.new.keys ≡ without_number (first_on key self.old.keys) self.old.keys }
        ensures kept { self.old.spare ≤ self.new.spare }
    {
        let Ends { first, last } = self.ends.get(key)?;
        // Each number that was given is at most the count, so the sum below fits.
        let _count = self.links.count();
        let next = self.links.take(first)?.next;
        if next == 0 {
            self.ends.remove(key);
        } else {
            let first = first + next;
            self.ends.set(key, Ends { first, last });
        }
        Some(first)
    }
}
