//! The first number and the last of each key of which any number waits.
//!
//! Mostly all that waits is of one key. So one key stands apart, and nothing is hashed for it: the last to which a number came while
//! none of it waited. What stood apart until then goes into a table, where the others stand. So a key that joins and leaves again and
//! again takes no place in the table, however many keys wait. What the numbers are is `order`, which alone calls this file.

ghost use Rattle.std.specs.Prelude.{◌≡◌, ℕ, ◌+◌, ◌<◌, ◌≤◌, None, Some, IsOk, IsSome, OnOk, cond, nat_eq};
ghost use Rattle.std.specs.HashMap.{get, spare};
ghost use Rattle.std.specs.Option.{option_map};
ghost use Rattle.std.specs.Map.{lookup};
ghost use Rattle.lapin_outbox.specs.Ends.{at, last_of, with_last};
ghost use Rattle.lapin_outbox.specs.Near.{in_front, IsApart};

use lapin_types::NoMemory;
use std::alloc::Global;
use std::collections::HashMap;
use std::marker::Model;

/// The first number of a key and its last.
#[derive(Clone, Copy)]
pub(crate) struct Ends {
    pub(crate) first: u64,
    pub(crate) last: u64,
}

// The key that stands apart, and its ends.
#[derive(Clone, Copy)]
struct Near {
    key: u16,
    ends: Ends,
}

/// The ends by key. A contract sees those of each key, if it has any, and for how many more keys there is room.
#[derive(Drop)]
pub(crate) struct EndsByKey {
    near: Option<Near>,
    // Of every other key.
    others: HashMap<u16, Ends>,
}

impl Model for EndsByKey {
    ghost use Rattle.std.specs.HashMap.{spare};
    ghost use Rattle.lapin_outbox.specs.Ends.{OfKeys};
    ghost use Rattle.lapin_outbox.specs.Near.{in_front, IsApart};

    ghost Value = { OfKeys };

    ghost view = { λ e. record { ends = in_front e.near e.others.entries; spare = spare e.others } };

    ghost invariant = { λ e. IsApart e.near e.others.entries };
}

impl EndsByKey {
    /// No key has any. It takes no memory.
    pub(crate) fn new(alloc: Global) -> EndsByKey
        ensures { (c : ℕ) → at c result ≡ None }
    {
        EndsByKey {
            near: None,
            others: HashMap::new(alloc),
        }
    }

    /// Makes room for the next `join`, of whatever key. The ends stay.
    pub(crate) fn reserve(&mut self) -> Result<(), NoMemory>
        ensures room { OnOk result (0 < self.new.spare) }
        ensures same { (c : ℕ) → at c self.new ≡ at c self.old }
        ensures kept { self.old.spare ≤ self.new.spare }
        ensures succeeds { 0 < self.old.spare → IsOk result }
    {
        self.others.reserve(1)?;
        Ok(())
    }

    /// The ends of a key, if it has any.
    pub(crate) fn get(&self, key: u16) -> Option<Ends>
        ensures { result ≡ at key self.now }
    {
        match self.near {
            Some(near) if near.key == key => Some(near.ends),
            _ => Some(*self.others.get(&key)?),
        }
    }

    /// A number becomes the last of its key, in the room that was made, and the first where the key has none. Tells the last
    /// so far.
    pub(crate) fn join(&mut self, key: u16, number: u64) -> Option<u64>
        requires { 0 < self.old.spare }
        ensures told { result ≡ option_map last_of (at key self.old) }
        ensures ends { (c : ℕ) → at c self.new ≡ cond (nat_eq key c) (Some (with_last number (at key self.old))) (at c self.old) }
        ensures used { self.old.spare ≤ self.new.spare + 1 }
    {
        match self.near {
            Some(near) if near.key == key => {
                let Ends { first, last } = near.ends;
                let ends = Ends {
                    first,
                    last: number,
                };
                self.near = Some(Near { key, ends });
                Some(last)
            }
            _ => {
                if let Some(last) = join_others(&mut self.others, key, number) {
                    return Some(last);
                }
                self.come_near(key, number);
                None
            }
        }
    }

    // A key that has none takes the place apart, with a number as its first and its last. What stood there goes into the table, in the
    // room that was made.
    fn come_near(&mut self, key: u16, number: u64)
        requires new { at key self.old ≡ None }
        requires room { 0 < self.old.spare }
        ensures ends { (c : ℕ) → at c self.new ≡ cond (nat_eq key c) (Some (with_last number None)) (at c self.old) }
        ensures used { self.old.spare ≤ self.new.spare + 1 }
    {
        put_away(&mut self.others, self.near);
        let ends = Ends {
            first: number,
            last: number,
        };
        self.near = Some(Near { key, ends });
    }

    /// Another number is the first of a key that has any.
    pub(crate) fn set(&mut self, key: u16, ends: Ends)
        requires { IsSome (at key self.old) }
        ensures ends { (c : ℕ) → at c self.new ≡ cond (nat_eq key c) (Some ends) (at c self.old) }
        ensures kept { self.old.spare ≤ self.new.spare }
    {
        match self.near {
            Some(near) if near.key == key => self.near = Some(Near { key, ends }),
            _ => set_other(&mut self.others, key, ends),
        }
    }

    /// A key has none any more.
    pub(crate) fn remove(&mut self, key: u16)
        ensures ends { (c : ℕ) → at c self.new ≡ cond (nat_eq key c) None (at c self.old) }
        ensures kept { self.old.spare ≤ self.new.spare }
    {
        match self.near {
            Some(near) if near.key == key => self.near = None,
            _ => {
                let _ = self.others.remove(&key);
            }
        }
    }
}

// A number becomes the last of a key that doesn't stand apart, where the key has any. Tells the last so far.
fn join_others(others: &mut HashMap<u16, Ends>, key: u16, number: u64) -> Option<u64>
    ensures told { result ≡ option_map last_of (get nat_eq others.old key) }
    ensures ends { (c : ℕ) → get nat_eq others.new c ≡ cond (nat_eq key c) (option_map (λ e. with_last number (Some e)) (get nat_eq others.old key)) (get nat_eq others.old c) }
    ensures kept { spare others.old ≤ spare others.new }
{
    if others.is_empty() {
        return None;
    }
    let ends = others.get_mut(&key)?;
    let Ends { first, last } = *ends;
    *ends = Ends {
        first,
        last: number,
    };
    Some(last)
}

// What stood apart goes into the table, in the room that was made.
fn put_away(others: &mut HashMap<u16, Ends>, near: Option<Near>)
    requires apart { IsApart near others.old.entries }
    requires room { 0 < spare others.old }
    ensures ends { (c : ℕ) → get nat_eq others.new c ≡ lookup (nat_eq c) (in_front near others.old.entries) }
    ensures used { spare others.old ≤ spare others.new + 1 }
{
    if let Some(near) = near {
        let _ = others.insert(near.key, near.ends);
    }
}

// Puts other ends in the place of those of a key that doesn't stand apart.
fn set_other(others: &mut HashMap<u16, Ends>, key: u16, ends: Ends)
    requires { IsSome (get nat_eq others.old key) }
    ensures ends { (c : ℕ) → get nat_eq others.new c ≡ cond (nat_eq key c) (Some ends) (get nat_eq others.old c) }
    ensures kept { spare others.old ≤ spare others.new }
{
    if let Some(place) = others.get_mut(&key) {
        *place = ends;
    }
}
