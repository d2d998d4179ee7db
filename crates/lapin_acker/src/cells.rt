//! The ackers behind those at the front: each has a cell, or stands in a block with 63 others that were given long ago.
//!
//! A block takes no memory that its cells didn't. No other file knows which of the two an acker has: contracts see one list.

ghost use Rattle.std.specs.Prelude.{◌≡◌, ℕ, ◌+◌, ◌*◌, ◌-◌, ◌<◌, ◌≤◌, ◌^◌, ◌∷◌, ◌++◌, [], List, Some, IfSome, IsSome, OnOk, IsOk, length, slice_get, slice_set};
ghost use Rattle.std.specs.VecDeque.{deque_len, deque_capacity};
ghost use Rattle.lapin_acker.specs.Blocks.{laid};
ghost use Rattle.lapin_acker.specs.Switches.{used as used_of};
ghost use Rattle.lapin_acker.specs.Store.{seen as seen_lem, shown};
ghost use Rattle.lapin_acker.specs.declared.switch.Switch.{Switch as ASwitch};
ghost use Rattle.lapin_acker.specs.declared.switch.Switch.TheVariants as switch;

use crate::blocks::{Block, SPAN, acker_at, all_used, block_of, void_at};
use crate::passed::Passed;
use crate::switch::Switch;
use crate::switches::end_of;
use std::alloc::{AllocError, Global};
use std::collections::VecDeque;
use std::marker::Model;

/// How many cells stay behind those that go into a block.
const STAY: usize = 128;

/// The ackers, the oldest first. Contracts see them, and for how many more there is room.
pub(crate) struct Cells {
    blocks: VecDeque<Block>,
    tail: VecDeque<Switch>,
}

impl Drop for Cells {
    fn drop(self) {
        let Cells { blocks: _, tail: _ } = self;
    }
}

impl Model for Cells {
    ghost use Rattle.std.specs.Prelude.{◌-◌, ◌++◌, ◌+◌, ◌*◌, ◌^◌, ◌<◌};
    ghost use Rattle.std.specs.VecDeque.{deque_len, deque_capacity};
    ghost use Rattle.lapin_acker.specs.Blocks.{Stock, laid};

    ghost Value = { Stock };

    ghost view = { λ a. record {
      items = laid a.blocks.items ++ a.tail.items;
      spare = deque_capacity a.tail - deque_len a.tail;
    } };

    ghost invariant = { λ a. 64 * deque_len a.blocks + deque_len a.tail < 2 ^ 64 };
}

impl Cells {
    /// No acker. It takes no memory.
    pub(crate) fn new(alloc: Global) -> Cells
        ensures { result.items ≡ [] }
    {
        Cells {
            blocks: VecDeque::new(alloc),
            tail: VecDeque::new(alloc),
        }
    }

    /// How many there are.
    pub(crate) fn len(&self) -> u64
        ensures { result ≡ length self.now.items }
    {
        self.blocks.len() as u64 * SPAN as u64 + self.tail.len() as u64
    }

    /// The acker at a place.
    pub(crate) fn at(&self, place: usize) -> Option<Switch>
        ensures { result ≡ slice_get self.now.items place }
    {
        let within = self.blocks.len() * SPAN;
        if place < within {
            return Some(acker_at(&self.blocks, place));
        }
        cell_in(&self.tail, place - within)
    }

    /// The acker at a place is used from now on.
    pub(crate) fn void(&mut self, place: usize)
        ensures there { (s : ASwitch) → slice_get self.old.items place ≡ Some s → self.new.items ≡ slice_set self.old.items place (used_of s) }
        ensures past { length self.old.items ≤ place → self.new.items ≡ self.old.items }
        ensures count { length self.new.items ≡ length self.old.items }
        ensures spare { self.new.spare ≡ self.old.spare }
    {
        let within = self.blocks.len() * SPAN;
        if place < within {
            void_at(&mut self.blocks, place);
            return;
        }
        let place = place - within;
        if place < self.tail.len() {
            self.tail[place] = used(self.tail[place]);
        }
    }

    /// Makes room for one more. The ackers stay, also where there is no memory.
    pub(crate) fn reserve(&mut self) -> Result<(), AllocError>
        ensures room { OnOk result (0 < self.new.spare) }
        ensures same { self.new.items ≡ self.old.items }
        ensures kept { self.old.spare ≤ self.new.spare }
        ensures succeeds { 0 < self.old.spare → IsOk result }
    {
        self.tail.reserve(1)
    }

    /// Adds one, in the room that was made.
    pub(crate) fn push_reserved(&mut self, channel: u16, delivery_tag: u64)
        requires room { 0 < self.old.spare }
        requires fits { length self.old.items + 1 < 2 ^ 64 }
        ensures items { self.new.items ≡ self.old.items ++ switch.Usable channel delivery_tag ∷ [] }
        ensures spare { self.old.spare ≡ self.new.spare + 1 }
    {
        self.tail
            .push_back_reserved(Switch::Usable(channel, delivery_tag));
    }

    /// Takes the first ones away, where they are seen as used ones, in so far as there is memory.
    pub(crate) fn pass(&mut self, passed: &mut Passed, ends: &[u64])
        requires { passed.old.gone + length (passed.old.used ++ self.old.items) < 2 ^ 64 }
        ensures shown { shown passed.new.gone ends.now (passed.new.used ++ self.new.items) ≡ shown passed.old.gone ends.now (passed.old.used ++ self.old.items) }
        ensures count { passed.new.gone + length (passed.new.used ++ self.new.items) ≡ passed.old.gone + length (passed.old.used ++ self.old.items) }
        ensures more { length (passed.new.used ++ self.new.items) ≡ length (passed.old.used ++ self.old.items) }
        ensures spare { self.old.spare ≤ self.new.spare }
    {
        if self.blocks.is_empty() {
            pass_one(passed, &mut self.tail, ends);
        } else {
            pass_block(passed, &mut self.blocks, ends);
        }
    }

    /// Puts the first 64 that have a cell into a block, where they are many and can be one. Where there is no memory they keep their cells.
    pub(crate) fn pack(&mut self)
        ensures items { self.new.items ≡ self.old.items }
        ensures spare { self.old.spare ≤ self.new.spare }
    {
        if self.tail.len() >= STAY + SPAN && self.tail.len() % SPAN == 0 {
            pack(&mut self.blocks, &mut self.tail);
        }
    }
}

// The cell at a place.
fn cell_in(tail: &VecDeque<Switch>, place: usize) -> Option<Switch>
    ensures { result ≡ slice_get tail.now.items place }
{
    tail.get(place).copied()
}

// Puts the first 64 that have a cell into a block, where they can be one and there is memory.
#[inline(never)]
fn pack(blocks: &mut VecDeque<Block>, tail: &mut VecDeque<Switch>)
    requires { 64 ≤ deque_len tail.old }
    ensures items { laid blocks.new.items ++ tail.new.items ≡ laid blocks.old.items ++ tail.old.items }
    ensures len { 64 * deque_len blocks.new + deque_len tail.new ≡ 64 * deque_len blocks.old + deque_len tail.old }
    ensures room { deque_capacity tail.old - deque_len tail.old ≤ deque_capacity tail.new - deque_len tail.new }
{
    let Some(block) = block_of(tail) else {
        return;
    };
    if blocks.reserve(1).is_err() {
        return;
    }
    blocks.push_back_reserved(block);
    let mut left = SPAN;
    while left > 0 {
        let _ = tail.pop_front();
        left -= 1;
    }
}

fn used(switch: Switch) -> Switch
    ensures { result ≡ used_of switch }
{
    match switch {
        Switch::Usable(channel, _) => Switch::Used(channel),
        other => other,
    }
}

// Takes the first block away, where each of its ackers is seen as a used one, in so far as there is memory.
#[cold]
fn pass_block(passed: &mut Passed, blocks: &mut VecDeque<Block>, ends: &[u64])
    requires some { 0 < deque_len blocks.old }
    requires fits { passed.old.gone + length passed.old.used + 64 < 2 ^ 64 }
    ensures shown { (cells : List ASwitch) → shown passed.new.gone ends.now (passed.new.used ++ (laid blocks.new.items ++ cells)) ≡ shown passed.old.gone ends.now (passed.old.used ++ (laid blocks.old.items ++ cells)) }
    ensures gone { passed.new.gone ≡ passed.old.gone }
    ensures count { length passed.new.used + 64 * deque_len blocks.new ≡ length passed.old.used + 64 * deque_len blocks.old }
    ensures less { deque_len blocks.new ≤ deque_len blocks.old }
{
    let Some(channel) = all_used(&blocks[0], passed.up_to(), ends) else {
        return;
    };
    if passed.add_many(channel) {
        let _ = blocks.pop_front();
    }
}

// Takes the first cell away, where it is seen as that of a used acker, in so far as there is memory.
fn pass_one(passed: &mut Passed, cells: &mut VecDeque<Switch>, ends: &[u64])
    requires { passed.old.gone + length (passed.old.used ++ cells.old.items) < 2 ^ 64 }
    ensures shown { shown passed.new.gone ends.now (passed.new.used ++ cells.new.items) ≡ shown passed.old.gone ends.now (passed.old.used ++ cells.old.items) }
    ensures count { passed.new.gone + length (passed.new.used ++ cells.new.items) ≡ passed.old.gone + length (passed.old.used ++ cells.old.items) }
    ensures more { length (passed.new.used ++ cells.new.items) ≡ length (passed.old.used ++ cells.old.items) }
    ensures room { deque_capacity cells.old - deque_len cells.old ≤ deque_capacity cells.new - deque_len cells.new }
{
    let Some(channel) = passable(passed.up_to(), cells, ends) else {
        return;
    };
    if passed.add(channel) {
        let _ = cells.pop_front();
    }
}

// The channel of the first cell, where it is seen as that of a used acker with this number less one.
fn passable(up_to: u64, cells: &VecDeque<Switch>, ends: &[u64]) -> Option<u16>
    requires { up_to + deque_len cells.now < 2 ^ 64 }
    ensures seen { IfSome result (λ c. (s : ASwitch) → slice_get cells.now.items 0 ≡ Some s → seen_lem ends.now (up_to + 1) s ≡ seen_lem ends.now (up_to + 1) (switch.Used c)) }
    ensures some { IsSome result → 0 < deque_len cells.now }
{
    match cells.front() {
        Some(Switch::Used(channel)) => Some(*channel),
        Some(Switch::Usable(channel, _)) if up_to < end_of(ends, *channel) => Some(*channel),
        _ => None,
    }
}
