//! Values that are numbered from 1, each until it is taken, of which those with a mark stand in blocks once they are old.
//!
//! A block is of 64 numbers in a row, and its room is made once 6,144 further numbers were given. So a value that is put in the place of
//! another goes into its block without memory, and is taken out of it by two bits. What has no mark, and what is new, has a slot in a
//! `Numbered`, and costs little more than there. Contracts see one slot per number that was given, as they do of a `Numbered`.

ghost use Rattle.std.specs.Prelude.{◌≡◌, ◌≢◌, ℕ, suc, ◌+◌, ◌-◌, ◌*◌, ◌/◌, ◌%◌, ◌^◌, ◌≤◌, ◌<◌, ◌∷◌, ◌++◌, [], length, true, false, OnOk, IsOk, IsSome, MatchOption, None, Some};
ghost use Rattle.lapin_tables.specs.Numbered.{Slots, under, with_under};
ghost use Rattle.lapin_tables.specs.Packed.{packed_at, shown, or_slot, IsPacked, IsSpent, Replaces};

use crate::block::Block;
use crate::marked::Marked;
use crate::numbered::Numbered;
use std::alloc::{AllocError, Global};
use std::marker::Model;

// How many numbers a block has.
const SPAN: u64 = 64;

// How many blocks' numbers are given behind one that is filled. So what is asked for soon is never moved.
const BEHIND: u64 = 96;

/// Values that are numbered from 1. Contracts see one slot per number that was given, `None` where its value was taken.
#[derive(Drop)]
pub struct Packed<T: Marked> {
    // The values that stand in no block.
    slots: Numbered<T>,
    blocks: Numbered<Block>,
}

impl<T: Marked> Model for Packed<T> {
    ghost use Rattle.lapin_tables.specs.Numbered.{Slots, slots_code};
    ghost use Rattle.lapin_tables.specs.Packed.{packed_at, shown, IsPacked};

    ghost Value = { Slots T };

    ghost coded = { slots_code T.code };

    ghost view = { λ a. record { slots = shown (packed_at T.told_by a.blocks.slots) 0 a.slots.slots; spare = a.slots.spare } };

    ghost invariant = { λ a. IsPacked T.told_by a.blocks.slots a.slots.slots };
}

impl<T: Marked> Packed<T> {
    /// No number is given yet. It takes no memory.
    pub fn new(alloc: Global) -> Self
        ensures { result.slots ≡ [] }
    {
        Packed {
            slots: Numbered::new(alloc),
            blocks: Numbered::new(alloc),
        }
    }

    /// How many numbers were given, which is also the last one.
    pub fn count(&self) -> u64
        ensures { result ≡ length self.now.slots }
    {
        self.slots.count()
    }

    /// The number that the next value gets, or `None` where it would pass the greatest `u64`.
    pub fn next_number(&self) -> Option<u64>
        ensures { MatchOption result (length self.now.slots + 1 ≡ 2 ^ 64) (λ n. n ≡ length self.now.slots + 1) }
    {
        self.slots.next_number()
    }

    /// The value under a number: `None` where the number was never given or its value was taken.
    #[inline(always)]
    pub fn get(&self, number: u64) -> Option<T>
        ensures value { result ≡ under number self.now.slots }
        ensures fits { length self.now.slots < 2 ^ 64 }
    {
        match self.slots.get(number) {
            Some(value) => Some(*value),
            None => value_at(&self.blocks, number),
        }
    }

    /// Makes room for so many further `push_reserved`. The values stay, also where there is no memory.
    pub fn reserve(&mut self, additional: usize) -> Result<(), AllocError>
        ensures room { OnOk result (additional ≤ self.new.spare) }
        ensures same { self.new.slots ≡ self.old.slots }
        ensures kept { self.old.spare ≤ self.new.spare }
        ensures succeeds { additional ≤ self.old.spare → IsOk result }
    {
        self.slots.reserve(additional)
    }

    /// Gives a value the next number, in the room that `reserve` made.
    pub fn push_reserved(&mut self, value: T) -> u64
        requires room { 0 < self.old.spare }
        requires numbers { length self.old.slots + 1 < 2 ^ 64 }
        ensures number { result ≡ length self.old.slots + 1 }
        ensures slots { self.new.slots ≡ self.old.slots ++ Some value ∷ [] }
        ensures spare { self.old.spare ≤ self.new.spare + 1 }
    {
        let number = self.slots.push_reserved(value);
        settle_at(&mut self.slots, &mut self.blocks, number);
        number
    }

    /// Puts another value in the place of the one under a number, which has a mark wherever that one has one.
    #[inline(always)]
    pub fn set(&mut self, number: u64, value: T)
        requires there { IsSome (under number self.old.slots) }
        requires replaces { Replaces T.told_by T.mark_of value (under number self.old.slots) }
        ensures slots { self.new.slots ≡ with_under number (Some value) self.old.slots }
        ensures spare { self.old.spare ≤ self.new.spare }
    {
        if is_new(&self.blocks, number) {
            self.slots.set(number, value);
        } else {
            self.set_old(number, value);
        }
    }

    // The same, where the number may have a block.
    #[inline(never)]
    fn set_old(&mut self, number: u64, value: T)
        requires there { IsSome (under number self.old.slots) }
        requires replaces { Replaces T.told_by T.mark_of value (under number self.old.slots) }
        ensures slots { self.new.slots ≡ with_under number (Some value) self.old.slots }
        ensures spare { self.old.spare ≤ self.new.spare }
    {
        let packed = pack(&mut self.blocks, number, value);
        if self.slots.get(number).is_none() {
            return;
        }
        if packed {
            let _ = self.slots.take(number);
        } else {
            self.slots.set(number, value);
        }
    }

    /// Takes the value under a number out: `None` where the number was never given or its value was taken.
    #[inline(always)]
    pub fn take(&mut self, number: u64) -> Option<T>
        ensures value { result ≡ under number self.old.slots }
        ensures slots { self.new.slots ≡ with_under number None self.old.slots }
        ensures kept { self.old.spare ≤ self.new.spare }
    {
        if is_new(&self.blocks, number) {
            self.slots.take(number)
        } else {
            self.take_old(number)
        }
    }

    // The same, where the number may have a block.
    #[inline(never)]
    fn take_old(&mut self, number: u64) -> Option<T>
        ensures value { result ≡ under number self.old.slots }
        ensures slots { self.new.slots ≡ with_under number None self.old.slots }
        ensures kept { self.old.spare ≤ self.new.spare }
    {
        let value = take_out(&mut self.slots, &mut self.blocks, number);
        let_go(&self.slots, &mut self.blocks, number);
        value
    }
}

// Whether a number is behind all blocks, so that its value has a slot of its own. Of one of the next block it may say no.
#[inline(always)]
fn is_new(blocks: &Numbered<Block>, number: u64) -> bool
    ensures { result ≡ true → 64 * length blocks.now.slots < number }
{
    number / SPAN > blocks.count()
}

// Whether all of the 64 numbers behind this one are below the first that has a slot. It decides no more than how soon that is known.
fn is_over<T>(slots: &Numbered<T>, base: u64) -> bool {
    match slots.first_number() {
        Some(first) => first > base.saturating_add(SPAN),
        None => true,
    }
}

// Fills the next block, where the last number of one was given.
#[inline(always)]
fn settle_at<T: Marked>(slots: &mut Numbered<T>, blocks: &mut Numbered<Block>, number: u64)
    requires { IsPacked T.told_by blocks.old.slots slots.old.slots }
    ensures packed { IsPacked T.told_by blocks.new.slots slots.new.slots }
    ensures same { shown (packed_at T.told_by blocks.new.slots) 0 slots.new.slots ≡ shown (packed_at T.told_by blocks.old.slots) 0 slots.old.slots }
    ensures spare { slots.old.spare ≤ slots.new.spare }
{
    if number % SPAN == 0 {
        settle(slots, blocks);
    }
}

// Makes the next block and fills it, where enough numbers were given behind its own. Where there is no memory, it waits.
#[inline(never)]
fn settle<T: Marked>(slots: &mut Numbered<T>, blocks: &mut Numbered<Block>)
    requires { IsPacked T.told_by blocks.old.slots slots.old.slots }
    ensures packed { IsPacked T.told_by blocks.new.slots slots.new.slots }
    ensures same { shown (packed_at T.told_by blocks.new.slots) 0 slots.new.slots ≡ shown (packed_at T.told_by blocks.old.slots) 0 slots.old.slots }
    ensures spare { slots.old.spare ≤ slots.new.spare }
{
    let filled = blocks.count();
    if slots.count() / SPAN <= filled + BEHIND {
        return;
    }
    if blocks.reserve(1).is_err() {
        return;
    }
    let base = filled * SPAN;
    blocks.push_reserved(Block::new(alike_from(slots, base)));
    fill(slots, blocks, base);
    let_go(slots, blocks, base + 1);
}

// Fills a block with the values of the 64 numbers behind this one.
fn fill<T: Marked>(slots: &mut Numbered<T>, blocks: &mut Numbered<Block>, base: u64)
    requires within { base + 64 ≤ length slots.old.slots }
    requires fits { base + 64 < 2 ^ 64 }
    requires packed { IsPacked T.told_by blocks.old.slots slots.old.slots }
    ensures packed { IsPacked T.told_by blocks.new.slots slots.new.slots }
    ensures same { shown (packed_at T.told_by blocks.new.slots) 0 slots.new.slots ≡ shown (packed_at T.told_by blocks.old.slots) 0 slots.old.slots }
    ensures spare { slots.old.spare ≤ slots.new.spare }
{
    if is_over(slots, base) {
        return;
    }
    let mut place = 0;
    while place < SPAN {
        place += 1;
        settle_one(slots, blocks, base + place);
    }
}

// The value of a number goes into its block, where it has a mark there.
#[inline(always)]
fn settle_one<T: Marked>(slots: &mut Numbered<T>, blocks: &mut Numbered<Block>, number: u64)
    requires { IsPacked T.told_by blocks.old.slots slots.old.slots }
    ensures packed { IsPacked T.told_by blocks.new.slots slots.new.slots }
    ensures same { shown (packed_at T.told_by blocks.new.slots) 0 slots.new.slots ≡ shown (packed_at T.told_by blocks.old.slots) 0 slots.old.slots }
    ensures count { length slots.new.slots ≡ length slots.old.slots }
    ensures spare { slots.old.spare ≤ slots.new.spare }
{
    let Some(value) = slots.get(number) else {
        return;
    };
    let value = *value;
    if pack(blocks, number, value) {
        let _ = slots.take(number);
    }
}

// In what the values of a block for the 64 numbers behind this one are to agree: in what the first of them has it.
fn alike_from<T: Marked>(slots: &Numbered<T>, base: u64) -> u16
    requires { base + 64 < 2 ^ 64 }
{
    if is_over(slots, base) {
        return 0;
    }
    for place in 0..SPAN {
        if let Some(value) = slots.get(base + place + 1) {
            return value.alike();
        }
    }
    0
}

// The value of a number, where it stands in its block.
#[inline(never)]
fn value_at<T: Marked>(blocks: &Numbered<Block>, number: u64) -> Option<T>
    ensures { result ≡ packed_at T.told_by blocks.now.slots number }
{
    if number == 0 {
        return None;
    }
    let block = blocks.get((number - 1) / SPAN + 1)?;
    let mark = block.mark(((number - 1) % SPAN) as u32);
    if mark == 0 {
        return None;
    }
    T::told(block.alike, mark)
}

// Puts a value into the block of its number. False where there is no mark for it, or no block: nothing changes then.
#[inline(always)]
fn pack<T: Marked>(blocks: &mut Numbered<Block>, number: u64, value: T) -> bool
    ensures packed { result ≡ true → packed_at T.told_by blocks.new.slots number ≡ Some value }
    ensures others { (n : ℕ) → n ≢ number → packed_at T.told_by blocks.new.slots n ≡ packed_at T.told_by blocks.old.slots n }
    ensures same { result ≡ false → blocks.new.slots ≡ blocks.old.slots }
    ensures count { length blocks.new.slots ≡ length blocks.old.slots }
    ensures replaces { result ≡ false → Replaces T.told_by T.mark_of value (packed_at T.told_by blocks.old.slots number) → packed_at T.told_by blocks.old.slots number ≡ None }
{
    if number == 0 {
        return false;
    }
    let Some(block) = blocks.get_mut((number - 1) / SPAN + 1) else {
        return false;
    };
    let mark = value.mark(block.alike);
    if mark == 0 {
        return false;
    }
    block.put(((number - 1) % SPAN) as u32, mark);
    true
}

// Takes a value out, wherever it stands.
#[inline(always)]
fn take_out<T: Marked>(
    slots: &mut Numbered<T>,
    blocks: &mut Numbered<Block>,
    number: u64,
) -> Option<T>
    requires { IsPacked T.told_by blocks.old.slots slots.old.slots }
    ensures value { result ≡ under number (shown (packed_at T.told_by blocks.old.slots) 0 slots.old.slots) }
    ensures gone { shown (packed_at T.told_by blocks.new.slots) 0 slots.new.slots ≡ with_under number None (shown (packed_at T.told_by blocks.old.slots) 0 slots.old.slots) }
    ensures packed { IsPacked T.told_by blocks.new.slots slots.new.slots }
    ensures kept { slots.old.spare ≤ slots.new.spare }
{
    match slots.take(number) {
        Some(value) => Some(value),
        None => unpack(blocks, number),
    }
}

// Takes a value out of its block, where it stands there.
#[inline(always)]
fn unpack<T: Marked>(blocks: &mut Numbered<Block>, number: u64) -> Option<T>
    ensures value { result ≡ packed_at T.told_by blocks.old.slots number }
    ensures gone { packed_at T.told_by blocks.new.slots number ≡ None }
    ensures others { (n : ℕ) → n ≢ number → packed_at T.told_by blocks.new.slots n ≡ packed_at T.told_by blocks.old.slots n }
    ensures count { length blocks.new.slots ≡ length blocks.old.slots }
{
    let value = value_at(blocks, number)?;
    if let Some(block) = blocks.get_mut((number - 1) / SPAN + 1) {
        block.put(((number - 1) % SPAN) as u32, 0);
    }
    Some(value)
}

// Lets the block of a number go, in which nothing is left and into which nothing comes.
fn let_go<T: Marked>(slots: &Numbered<T>, blocks: &mut Numbered<Block>, number: u64)
    ensures same { (n : ℕ) → packed_at T.told_by blocks.new.slots n ≡ packed_at T.told_by blocks.old.slots n }
    ensures count { length blocks.new.slots ≡ length blocks.old.slots }
{
    if number == 0 {
        return;
    }
    let index = (number - 1) / SPAN + 1;
    if is_spent(blocks, index) && !stand_between(slots, (number - 1) / SPAN * SPAN) {
        let _ = blocks.take(index);
    }
}

// Whether a block is there in which nothing is left.
fn is_spent(blocks: &Numbered<Block>, index: u64) -> bool
    ensures { result ≡ true → IsSpent (under index blocks.now.slots) }
{
    match blocks.get(index) {
        Some(block) => block.is_empty(),
        None => false,
    }
}

// Whether one of the 64 numbers behind this one has a slot of its own. It decides no more than how long an empty block stays.
fn stand_between<T: Marked>(slots: &Numbered<T>, base: u64) -> bool {
    if is_over(slots, base) {
        return false;
    }
    let mut place = SPAN;
    while place > 0 {
        if slots.get(base.saturating_add(place)).is_some() {
            return true;
        }
        place -= 1;
    }
    false
}
