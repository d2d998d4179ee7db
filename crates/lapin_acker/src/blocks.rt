//! Ackers that were given long ago, 64 of one channel in a block: a bit each says which of them may still be used, and their tags follow
//! one another.
//!
//! Such are the ackers of a consumer that acknowledges nothing, and those behind one that nobody settles. When they go into a block is told
//! by `cells`.

ghost use Rattle.std.specs.Prelude.{◌≡◌, ◌≢◌, ℕ, ◌+◌, ◌*◌, ◌^◌, ◌<◌, ◌≤◌, ◌==◌, true, List, Some, None, IfSome, slice_get, slice_set, length};
ghost use Rattle.std.specs.Int.{bit_at};
ghost use Rattle.std.specs.VecDeque.{deque_len};
ghost use Rattle.lapin_acker.specs.Blocks.{cell_at, laid};
ghost use Rattle.lapin_acker.specs.Switches.{used as used_of};
ghost use Rattle.lapin_acker.specs.Store.{end_of as end_of_lem, seen as seen_lem};
ghost use Rattle.lapin_acker.specs.declared.switch.Switch.{Switch as ASwitch};
ghost use Rattle.lapin_acker.specs.declared.switch.Switch.TheVariants as switch;

use crate::switch::Switch;
use crate::switches::end_of;
use std::collections::VecDeque;

/// How many ackers a block has.
pub(crate) const SPAN: usize = 64;

/// 64 ackers in a row, of one channel.
#[derive(Clone, Copy, Debug, PartialEq, Eq)]
pub(crate) struct Block {
    // The tag of the first one; that of each other one is one more than that before it.
    tag: u64,
    // A bit each: it may be used. Else it was used.
    usable: u64,
    channel: u16,
}

// Whether a word has a bit.
fn has_bit(word: u64, bit: u32) -> bool
    requires { bit < 64 }
    ensures { result ≡ (bit_at word bit == 1) }
{
    (word >> bit) & 1 == 1
}

// The word with a bit.
fn with_bit(word: u64, bit: u32) -> u64
    requires { bit < 64 }
    ensures set { bit_at result bit ≡ 1 }
    ensures others { (i : ℕ) → i ≢ bit → bit_at result i ≡ bit_at word i }
{
    word | (1u64 << bit)
}

// The word without a bit.
fn without_bit(word: u64, bit: u32) -> u64
    requires { bit < 64 }
    ensures clear { bit_at result bit ≡ 0 }
    ensures others { (i : ℕ) → i < 64 → i ≢ bit → bit_at result i ≡ bit_at word i }
{
    word & !(1u64 << bit)
}

// The acker at a place of a block.
fn acker_of(block: &Block, place: u32) -> Switch
    requires { place < 64 }
    ensures { result ≡ cell_at block.now place }
{
    if has_bit(block.usable, place) {
        Switch::Usable(block.channel, block.tag.wrapping_add(u64::from(place)))
    } else {
        Switch::Used(block.channel)
    }
}

// The acker at a place of a block is used from now on.
fn void_in(block: &mut Block, place: u32)
    requires { place < 64 }
    ensures here { cell_at block.new place ≡ used_of (cell_at block.old place) }
    ensures others { (i : ℕ) → i < 64 → i ≢ place → cell_at block.new i ≡ cell_at block.old i }
{
    block.usable = without_bit(block.usable, place);
}

/// The acker at a place of blocks that has one there.
pub(crate) fn acker_at(blocks: &VecDeque<Block>, place: usize) -> Switch
    requires { place < 64 * deque_len blocks.now }
    ensures { slice_get (laid blocks.now.items) place ≡ Some result }
{
    acker_of(&blocks[place / SPAN], (place % SPAN) as u32)
}

/// The acker at a place is used from now on.
pub(crate) fn void_at(blocks: &mut VecDeque<Block>, place: usize)
    requires { place < 64 * deque_len blocks.old }
    ensures items { (s : ASwitch) → slice_get (laid blocks.old.items) place ≡ Some s → laid blocks.new.items ≡ slice_set (laid blocks.old.items) place (used_of s) }
    ensures len { deque_len blocks.new ≡ deque_len blocks.old }
{
    void_in(&mut blocks[place / SPAN], (place % SPAN) as u32);
}

/// The channel of a block whose ackers are all seen as used ones of it, the first one having the number behind this one.
pub(crate) fn all_used(block: &Block, up_to: u64, ends: &[u64]) -> Option<u16>
    requires { up_to + 64 < 2 ^ 64 }
    ensures { IfSome result (λ c. (i : ℕ) → i < 64 → seen_lem ends.now (up_to + i + 1) (cell_at block.now i) ≡ seen_lem ends.now (up_to + i + 1) (switch.Used c)) }
{
    if block.usable == 0 || up_to + SPAN as u64 <= end_of(ends, block.channel) {
        Some(block.channel)
    } else {
        None
    }
}

/// The first 64 of these ackers as a block, where they are of one channel and the tags of those that may be used follow one another.
pub(crate) fn block_of(cells: &VecDeque<Switch>) -> Option<Block>
    requires { 64 ≤ deque_len cells.now }
    ensures { IfSome result (λ b. (p : ℕ) → p < 64 → slice_get cells.now.items p ≡ Some (cell_at b p)) }
{
    let mut block = empty_for(cells);
    let mut place = 0;
    while place < SPAN {
        if !join(&mut block, place as u32, cells[place]) {
            return None;
        }
        place += 1;
    }
    Some(block)
}

// A block without an acker that may be used, of the channel of the first of these, and with the tag that the first of them has or would
// have.
fn empty_for(cells: &VecDeque<Switch>) -> Block
    requires { 64 ≤ deque_len cells.now }
    ensures { result.usable ≡ 0 }
{
    let channel = match cells[0] {
        Switch::Usable(channel, _) => channel,
        Switch::Used(channel) => channel,
        Switch::Over => 0,
    };
    Block {
        tag: first_tag(cells),
        usable: 0,
        channel,
    }
}

// The tag that the first of these has or would have, by the first of 64 that may be used.
fn first_tag(cells: &VecDeque<Switch>) -> u64
    requires { 64 ≤ deque_len cells.now }
{
    for place in 0..SPAN {
        if let Switch::Usable(_, tag) = cells[place] {
            return tag.wrapping_sub(place as u64);
        }
    }
    0
}

// An acker joins a block at a place, behind which nothing is in it, where it fits in.
fn join(block: &mut Block, place: u32, cell: Switch) -> bool
    requires within { place < 64 }
    requires behind { (i : ℕ) → place ≤ i → i < 64 → bit_at block.old.usable i ≡ 0 }
    ensures here { result ≡ true → cell ≡ cell_at block.new place }
    ensures others { (i : ℕ) → i ≢ place → cell_at block.new i ≡ cell_at block.old i }
    ensures behind { (i : ℕ) → place < i → i < 64 → bit_at block.new.usable i ≡ 0 }
{
    match cell {
        Switch::Usable(channel, tag) => {
            if channel == block.channel && tag == block.tag.wrapping_add(u64::from(place)) {
                block.usable = with_bit(block.usable, place);
                return true;
            }
            false
        }
        Switch::Used(channel) => channel == block.channel,
        Switch::Over => false,
    }
}
