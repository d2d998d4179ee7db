//! The first number of a key that isn't full, where each number is passed over once.
//!
//! Where the key of the first number is full, a request asks which of the held keys isn't: those of the numbers that earlier requests
//! passed over and that still wait. They are a set, which is compared with the full keys 64 at a time. Only where each of them is full
//! too it passes over further numbers, and no later request passes over them again. So it costs a step for each 64 keys, however many
//! numbers wait. What waits under a number is the line's, which alone calls this file; which keys are full is told by the caller.

ghost use Rattle.std.specs.Prelude.{◌≡◌, ℕ, Bool, true, false, ◌+◌, ◌<◌, ◌≤◌, ◌++◌, ◌∷◌, [], Some, ◌^◌, length, IsOk, IfOk, OnOk, MatchOption, nat_lt};
ghost use Rattle.lapin_tables.specs.Numbered.{under, first_kept};
ghost use Rattle.lapin_outbox.specs.Order.{first_on, without_number};
ghost use Rattle.lapin_full.specs.ChannelSet.{is_in};
ghost use Rattle.lapin_outbox.specs.Passing.{not_full, waits_where, first_where, AreHeld, NonePasses, bound, IsFree, IsOpen};

use crate::order::Order;
use lapin_full::{ChannelSet, FullChannels};
use lapin_types::NoMemory;
use std::alloc::Global;
use std::marker::Model;

/// Numbers from 1 in order of joining. A contract sees the key under each number, `None` where it was taken.
#[derive(Drop)]
pub(crate) struct Passing {
    order: Order,
    // Up to this number each that waits was passed over.
    passed: u64,
    // The keys of those, and maybe keys of which none waits any more.
    held: ChannelSet,
}

impl Model for Passing {
    ghost use Rattle.lapin_outbox.specs.Order.{InOrder};
    ghost use Rattle.lapin_outbox.specs.Passing.{AreHeld};

    ghost Value = { InOrder };

    ghost view = { λ p. p.order };

    ghost invariant = { λ p. AreHeld p.passed p.held p.order.keys };
}

impl Passing {
    /// No number is given yet. It takes no memory.
    pub(crate) fn new(alloc: Global) -> Passing
        ensures { result.keys ≡ [] }
    {
        Passing {
            order: Order::new(alloc),
            passed: 0,
            held: ChannelSet::new(alloc),
        }
    }

    /// Makes room for the next `push_reserved`, of whatever key. The numbers stay.
    pub(crate) fn reserve(&mut self) -> Result<(), NoMemory>
        ensures room { OnOk result (0 < self.new.spare) }
        ensures numbers { OnOk result (length self.new.keys + 1 < 2 ^ 64) }
        ensures same { self.new.keys ≡ self.old.keys }
        ensures kept { self.old.spare ≤ self.new.spare }
        ensures succeeds { 0 < self.old.spare → IsOk result }
    {
        self.order.reserve()
    }

    /// Gives the next number to an entry of a key, in the room that was made.
    pub(crate) fn push_reserved(&mut self, key: u16)
        requires { 0 < self.old.spare }
        ensures keys { self.new.keys ≡ self.old.keys ++ Some key ∷ [] }
        ensures numbers { length self.old.keys + 1 < 2 ^ 64 }
        ensures used { self.old.spare ≤ self.new.spare + 1 }
    {
        self.order.push_reserved(key);
    }

    /// The first number of a key; `None` exactly where it has none.
    pub(crate) fn first(&self, key: u16) -> Option<u64>
        ensures { result ≡ first_on key self.now.keys }
    {
        self.order.first(key)
    }

    /// Takes the first number of a key; `None` exactly where it has none.
    pub(crate) fn take_first(&mut self, key: u16) -> Option<u64>
        ensures number { result ≡ first_on key self.old.keys }
        ensures keys { self.new.keys ≡ without_number (first_on key self.old.keys) self.old.keys }
        ensures kept { self.old.spare ≤ self.new.spare }
    {
        self.order.take_first(key)
    }

    /// The first number of a key that isn't full; `None` exactly where there is none. The numbers stay, also where there is no
    /// memory to pass over one.
    pub(crate) fn first_unless<F: FullChannels>(
        &mut self,
        full: &F,
    ) -> Result<Option<u64>, NoMemory>
        ensures number { IfOk result (λ number. number ≡ first_where (not_full (F.full full.now)) self.old.keys) }
        ensures keys { self.new.keys ≡ self.old.keys }
        ensures kept { self.old.spare ≤ self.new.spare }
    {
        let Some(first) = self.order.first_number() else {
            return Ok(None);
        };
        if self.passed < first {
            if passes(&self.order, first, full) {
                return Ok(Some(first));
            }
        }
        match first_passed_over(&self.order, &mut self.passed, &mut self.held, first, full) {
            Some(number) => Ok(Some(number)),
            None => pass_over(&self.order, &mut self.passed, &mut self.held, full),
        }
    }
}

// Whether a number waits on a key that isn't full.
fn passes<F: FullChannels>(order: &Order, number: u64, full: &F) -> bool
    ensures { result ≡ waits_where (not_full (F.full full.now)) (under number order.now.keys) }
{
    match order.key(number) {
        Some(key) => !full.is_full(key),
        None => false,
    }
}

// The first number that was passed over and whose key isn't full any more. Where the first number of all wasn't passed over, none is
// there that was, and what was taken in front of it is passed over at once.
fn first_passed_over<F: FullChannels>(
    order: &Order,
    passed: &mut u64,
    held: &mut ChannelSet,
    first: u64,
    full: &F,
) -> Option<u64>
    requires first { first_kept order.now.keys ≡ Some first }
    requires held { AreHeld passed.old held.old order.now.keys }
    ensures number { MatchOption result (NonePasses (not_full (F.full full.now)) passed.new order.now.keys) (λ n. first_where (not_full (F.full full.now)) order.now.keys ≡ Some n) }
    ensures held { AreHeld passed.new held.new order.now.keys }
{
    if *passed < first {
        *passed = first - 1;
        return None;
    }
    first_held(order, *passed, held, full)
}

// The first number that was passed over and whose key isn't full any more. A held key that isn't full and of which no such number waits is
// let go.
#[inline(never)]
fn first_held<F: FullChannels>(
    order: &Order,
    passed: u64,
    held: &mut ChannelSet,
    full: &F,
) -> Option<u64>
    requires { AreHeld passed held.old order.now.keys }
    ensures number { MatchOption result (NonePasses (not_full (F.full full.now)) passed order.now.keys) (λ n. first_where (not_full (F.full full.now)) order.now.keys ≡ Some n) }
    ensures held { AreHeld passed held.new order.now.keys }
{
    let mut best = None;
    let mut from = 0;
    while let Some(key) = full.first_open(held, from) {
        best = sooner(order, passed, best, key, held);
        from = usize::from(key) + 1;
    }
    best
}

// The sooner of the best number so far and the first of a key that was passed over. Where none was, the key is let go.
fn sooner(
    order: &Order,
    passed: u64,
    best: Option<u64>,
    key: u16,
    held: &mut ChannelSet,
) -> Option<u64>
    requires held { AreHeld passed held.old order.now.keys }
    requires within { bound passed best ≤ passed + 1 }
    ensures free { IsFree order.now.keys key (bound passed result) }
    ensures sooner { bound passed result ≤ bound passed best }
    ensures open { (t : ℕ → Bool) → t key ≡ true → IsOpen t order.now.keys passed best → IsOpen t order.now.keys passed result }
    ensures held { AreHeld passed held.new order.now.keys }
    ensures fewer { (c : ℕ) → is_in c held.new ≡ true → is_in c held.old ≡ true }
{
    let Some(number) = order.first(key) else {
        held.remove(key);
        return best;
    };
    if passed < number {
        held.remove(key);
        return best;
    }
    if is_below(number, passed, best) {
        Some(number)
    } else {
        best
    }
}

// Whether a number is in front of the best so far; where there is none, whether it was passed over.
fn is_below(number: u64, passed: u64, best: Option<u64>) -> bool
    ensures { result ≡ nat_lt number (bound passed best) }
{
    match best {
        Some(best) => number < best,
        None => number <= passed,
    }
}

// Passes over numbers up to the first whose key isn't full; `None` where there is none.
fn pass_over<F: FullChannels>(
    order: &Order,
    passed: &mut u64,
    held: &mut ChannelSet,
    full: &F,
) -> Result<Option<u64>, NoMemory>
    requires held { AreHeld passed.old held.old order.now.keys }
    requires none { NonePasses (not_full (F.full full.now)) passed.old order.now.keys }
    ensures number { IfOk result (λ number. number ≡ first_where (not_full (F.full full.now)) order.now.keys) }
    ensures held { AreHeld passed.new held.new order.now.keys }
{
    let count = order.count();
    while *passed < count {
        let number = *passed + 1;
        let does = next_passes(order, *passed, number, held, full)?;
        if does {
            return Ok(Some(number));
        }
        *passed = number;
    }
    Ok(None)
}

// Whether the next number waits on a key that isn't full. Where it waits on one that is, the key is held; room for it is made first.
fn next_passes<F: FullChannels>(
    order: &Order,
    passed: u64,
    number: u64,
    held: &mut ChannelSet,
    full: &F,
) -> Result<bool, NoMemory>
    requires next { number ≡ passed + 1 }
    requires within { passed < length order.now.keys }
    requires held { AreHeld passed held.old order.now.keys }
    ensures told { IfOk result (λ does. does ≡ waits_where (not_full (F.full full.now)) (under number order.now.keys)) }
    ensures held { AreHeld passed held.new order.now.keys }
    ensures over { IfOk result (λ does. does ≡ false → AreHeld number held.new order.now.keys) }
{
    let Some(key) = order.key(number) else {
        return Ok(false);
    };
    if !full.is_full(key) {
        return Ok(true);
    }
    held.reserve(key)?;
    held.insert_reserved(key);
    Ok(false)
}
