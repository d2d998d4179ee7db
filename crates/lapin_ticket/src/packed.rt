//! Answers of tickets that nobody asked for in a while, a byte each: those that take no memory and are no error.
//!
//! They stand in blocks of 64 tickets in a row. Which ticket has such an answer, and when it comes here, is the root file's, which
//! alone calls this one. Confirms are counted from one of the block's, so that a byte tells of each.

ghost use Rattle.std.specs.Prelude.{◌≡◌, ◌≢◌, ℕ, suc, ◌<◌, ◌-◌, ◌/◌, ◌%◌, true, false, length, None, Some, IfSome};
ghost use Rattle.lapin_tables.specs.Numbered.{under, with_under};
ghost use Rattle.lapin_ticket.specs.Packed.{packed_at, with_mark, or_slot, IsEmpty, IsSpent, IsMarkFor};
ghost use Rattle.lapin_ticket.specs.Slots.{polled_slot, laid_slot};

use crate::held::Held;
use lapin_tables::Numbered;
use lapin_types::Error;

/// How many tickets a block has.
pub(crate) const SPAN: u64 = 64;

/// The answers of 64 tickets in a row, by their marks (`Held::mark`).
#[derive(Drop)]
pub(crate) struct Block {
    first: u64,
    marks: [u8; 64],
}

impl Block {
    /// No answer. Confirms are counted from this one; whichever it is, each mark stands for its answer, and it only decides for which
    /// confirms there is one.
    pub(crate) fn new(first: u64) -> Block
        ensures { IsEmpty result.marks }
    {
        Block {
            first,
            marks: [0; 64],
        }
    }

    // A law, and nothing runs: there is a place for each ticket.
    fn has_all_places(&self)
        ensures { length self.now.marks ≡ 64 }
    {}

    // Whether no answer is left.
    fn is_empty(&self) -> bool
        ensures { result ≡ true → IsEmpty self.now.marks }
    {
        self.marks.iter().all(|mark| *mark == 0)
    }
}

/// Puts a ticket's answer into its block. False where there is no mark for it, or no block: nothing changes then.
pub(crate) fn pack(blocks: &mut Numbered<Block>, number: u64, answer: &Held) -> bool
    ensures packed { result ≡ true → packed_at number blocks.new.slots ≡ Some answer.now }
    ensures others { (n : ℕ) → n ≢ number → packed_at n blocks.new.slots ≡ packed_at n blocks.old.slots }
    ensures same { result ≡ false → blocks.new.slots ≡ blocks.old.slots }
    ensures count { length blocks.new.slots ≡ length blocks.old.slots }
{
    if number == 0 {
        return false;
    }
    let Some(mark) = mark_for(blocks, number, answer) else {
        return false;
    };
    put(blocks, number, mark);
    true
}

// Takes a ticket's answer out, where it stands in a block.
fn unpack(blocks: &mut Numbered<Block>, number: u64) -> Option<Held>
    ensures answer { result ≡ packed_at number blocks.old.slots }
    ensures gone { packed_at number blocks.new.slots ≡ None }
    ensures others { (n : ℕ) → n ≢ number → packed_at n blocks.new.slots ≡ packed_at n blocks.old.slots }
    ensures count { length blocks.new.slots ≡ length blocks.old.slots }
{
    if number == 0 {
        return None;
    }
    let answer = answer_at(blocks, number)?;
    put(blocks, number, 0);
    let_go(blocks, (number - 1) / SPAN + 1);
    Some(answer)
}

/// Gives the answer of a ticket that has no slot, where it stands in a block; else it was given before.
pub(crate) fn give_packed(blocks: &mut Numbered<Block>, number: u64) -> Result<Option<Held>, Error>
    ensures told { result ≡ polled_slot (or_slot (packed_at number blocks.old.slots) None) }
    ensures gone { packed_at number blocks.new.slots ≡ None }
    ensures others { (n : ℕ) → n ≢ number → packed_at n blocks.new.slots ≡ packed_at n blocks.old.slots }
    ensures count { length blocks.new.slots ≡ length blocks.old.slots }
{
    match unpack(blocks, number) {
        Some(answer) => Ok(Some(answer)),
        None => Err(Error::AlreadyTaken),
    }
}

/// Drops the answer of a ticket that has no slot, where it stands in a block; else it was given before.
pub(crate) fn drop_packed(blocks: &mut Numbered<Block>, number: u64) -> Result<(), Error>
    ensures told { result ≡ laid_slot (or_slot (packed_at number blocks.old.slots) None) }
    ensures gone { packed_at number blocks.new.slots ≡ None }
    ensures others { (n : ℕ) → n ≢ number → packed_at n blocks.new.slots ≡ packed_at n blocks.old.slots }
    ensures count { length blocks.new.slots ≡ length blocks.old.slots }
{
    match unpack(blocks, number) {
        Some(answer) => {
            drop(answer);
            Ok(())
        }
        None => Err(Error::AlreadyTaken),
    }
}

/// Lets a block go in which no answer is left.
pub(crate) fn let_go(blocks: &mut Numbered<Block>, index: u64)
    ensures same { (n : ℕ) → packed_at n blocks.new.slots ≡ packed_at n blocks.old.slots }
    ensures count { length blocks.new.slots ≡ length blocks.old.slots }
{
    if is_spent(blocks, index) {
        drop(blocks.take(index));
    }
}

// Whether a block is there in which no answer is left.
fn is_spent(blocks: &Numbered<Block>, index: u64) -> bool
    ensures { result ≡ true → IsSpent (under index blocks.now.slots) }
{
    match blocks.get(index) {
        Some(block) => block.is_empty(),
        None => false,
    }
}

// The answer of a ticket, where it stands in its block.
fn answer_at(blocks: &Numbered<Block>, number: u64) -> Option<Held>
    ensures { result ≡ packed_at number blocks.now.slots }
{
    if number == 0 {
        return None;
    }
    let block = blocks.get((number - 1) / SPAN + 1)?;
    Held::of_mark(block.first, block.marks[((number - 1) % SPAN) as usize])
}

// The mark of an answer in the block of a ticket.
fn mark_for(blocks: &Numbered<Block>, number: u64, answer: &Held) -> Option<u8>
    requires { 0 < number }
    ensures { IfSome result (λ m. IsMarkFor m answer.now number blocks.now.slots) }
{
    let Some(block) = blocks.get((number - 1) / SPAN + 1) else {
        return None;
    };
    block.has_all_places();
    answer.mark(block.first)
}

// Puts a mark for a ticket into its block.
fn put(blocks: &mut Numbered<Block>, number: u64, mark: u8)
    requires { 0 < number }
    ensures { blocks.new.slots ≡ with_under (suc ((number - 1) / 64)) (with_mark ((number - 1) % 64) mark (under (suc ((number - 1) / 64)) blocks.old.slots)) blocks.old.slots }
{
    if let Some(block) = blocks.get_mut((number - 1) / SPAN + 1) {
        block.marks[((number - 1) % SPAN) as usize] = mark;
    }
}
