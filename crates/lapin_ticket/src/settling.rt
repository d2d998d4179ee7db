//! Answers that nobody asked for while 64 further tickets were given, and more, go into blocks, where each is a byte.
//!
//! A block is filled at once, as the last of the next 64 tickets was given. Where there is no memory for it, it waits for the next
//! ticket. What stands in a block, and how, is `packed`.

ghost use Rattle.std.specs.Prelude.{◌≡◌, ℕ, ◌+◌, ◌^◌, ◌<◌, ◌≤◌, true, length};
ghost use Rattle.lapin_tables.specs.Numbered.{under};
ghost use Rattle.lapin_ticket.specs.Slots.{is_open_on};
ghost use Rattle.lapin_ticket.specs.Packed.{IsPacked, shown};

use crate::Slot;
use crate::packed::{Block, SPAN, let_go, pack};
use lapin_tables::Numbered;

/// Fills the next block, where 64 tickets were given behind its own.
pub(crate) fn settle(slots: &mut Numbered<Slot>, blocks: &mut Numbered<Block>)
    requires { IsPacked blocks.old.slots slots.old.slots }
    ensures packed { IsPacked blocks.new.slots slots.new.slots }
    ensures same { shown 0 blocks.new.slots slots.new.slots ≡ shown 0 blocks.old.slots slots.old.slots }
    ensures opened { (c n : ℕ) → is_open_on c (under n slots.new.slots) ≡ true → is_open_on c (under n slots.old.slots) ≡ true }
{
    let given = slots.count();
    let filled = blocks.count();
    let index = filled + 1;
    if given / SPAN <= index {
        return;
    }
    if blocks.reserve(1).is_err() {
        return;
    }
    let base = filled * SPAN;
    blocks.push_reserved(Block::new(first_confirm(slots, base)));
    fill(slots, blocks, base);
    let_go(blocks, index);
}

// Fills a block with the answers of the tickets behind this one.
fn fill(slots: &mut Numbered<Slot>, blocks: &mut Numbered<Block>, base: u64)
    requires within { base + 64 ≤ length slots.old.slots }
    requires fits { base + 64 < 2 ^ 64 }
    requires packed { IsPacked blocks.old.slots slots.old.slots }
    ensures packed { IsPacked blocks.new.slots slots.new.slots }
    ensures same { shown 0 blocks.new.slots slots.new.slots ≡ shown 0 blocks.old.slots slots.old.slots }
    ensures opened { (c n : ℕ) → is_open_on c (under n slots.new.slots) ≡ true → is_open_on c (under n slots.old.slots) ≡ true }
{
    let mut place = 0;
    while place < SPAN {
        place += 1;
        settle_one(slots, blocks, base + place);
    }
}

// The answer of a ticket goes into its block, where it has a mark there.
fn settle_one(slots: &mut Numbered<Slot>, blocks: &mut Numbered<Block>, number: u64)
    requires { IsPacked blocks.old.slots slots.old.slots }
    ensures packed { IsPacked blocks.new.slots slots.new.slots }
    ensures same { shown 0 blocks.new.slots slots.new.slots ≡ shown 0 blocks.old.slots slots.old.slots }
    ensures opened { (c n : ℕ) → is_open_on c (under n slots.new.slots) ≡ true → is_open_on c (under n slots.old.slots) ≡ true }
    ensures count { length slots.new.slots ≡ length slots.old.slots }
{
    if let Some(Slot::Held(answer)) = slots.get(number) {
        if pack(blocks, number, answer) {
            drop(slots.take(number));
        }
    }
}

// The number of the first confirm among the answers of the 64 tickets behind this one; 0 where there is none.
fn first_confirm(slots: &Numbered<Slot>, base: u64) -> u64
    requires { base + 64 < 2 ^ 64 }
{
    for place in 0..SPAN {
        if let Some(Slot::Held(answer)) = slots.get(base + place + 1) {
            if let Some(number) = answer.confirm_number() {
                return number;
            }
        }
    }
    0
}
