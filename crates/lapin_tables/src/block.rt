//! The marks of 64 numbers in a row, two bits each.
//!
//! What a mark stands for is not known here; `packed` alone calls this file.

ghost use Rattle.std.specs.Prelude.{◌≡◌, ◌≢◌, ℕ, ◌==◌, ◌<◌, true};
ghost use Rattle.std.specs.Int.{bit_at};
ghost use Rattle.lapin_tables.specs.Packed.{half_in, mark_in, IsEmpty};

// How many marks a half has.
const IN_A_HALF: u32 = 32;

/// The marks of 64 numbers in a row, and in what their values agree.
#[derive(Drop)]
pub(crate) struct Block {
    pub(crate) alike: u16,
    first: Half,
    second: Half,
}

// The marks of 32 numbers in a row. Its words are narrow, so that a block and whether it is there take 24 bytes together.
#[derive(Drop)]
pub(crate) struct Half {
    low: u32,
    high: u32,
}

impl Block {
    /// No mark.
    pub(crate) fn new(alike: u16) -> Block
        ensures { IsEmpty result }
    {
        Block {
            alike,
            first: Half { low: 0, high: 0 },
            second: Half { low: 0, high: 0 },
        }
    }

    /// The mark at a place.
    #[inline(always)]
    pub(crate) fn mark(&self, place: u32) -> u8
        requires { place < 64 }
        ensures { result ≡ mark_in place self.now }
    {
        if place < IN_A_HALF {
            self.first.mark(place)
        } else {
            self.second.mark(place - IN_A_HALF)
        }
    }

    /// Puts a mark at a place, 0 for none.
    #[inline(always)]
    pub(crate) fn put(&mut self, place: u32, mark: u8)
        requires place { place < 64 }
        requires mark { mark < 4 }
        ensures here { mark_in place self.new ≡ mark }
        ensures others { (p : ℕ) → p < 64 → p ≢ place → mark_in p self.new ≡ mark_in p self.old }
        ensures alike { self.new.alike ≡ self.old.alike }
    {
        if place < IN_A_HALF {
            self.first.put(place, mark);
        } else {
            self.second.put(place - IN_A_HALF, mark);
        }
    }

    /// Whether no mark is left.
    pub(crate) fn is_empty(&self) -> bool
        ensures { result ≡ true → IsEmpty self.now }
    {
        self.first.is_empty() && self.second.is_empty()
    }
}

impl Half {
    #[inline(always)]
    fn mark(&self, place: u32) -> u8
        requires { place < 32 }
        ensures { result ≡ half_in place self.now }
    {
        bit(self.low, place) + 2 * bit(self.high, place)
    }

    #[inline(always)]
    fn put(&mut self, place: u32, mark: u8)
        requires place { place < 32 }
        requires mark { mark < 4 }
        ensures here { half_in place self.new ≡ mark }
        ensures others { (p : ℕ) → p < 32 → p ≢ place → half_in p self.new ≡ half_in p self.old }
    {
        self.low = with(self.low, place, mark % 2 == 1);
        self.high = with(self.high, place, mark >= 2);
    }

    fn is_empty(&self) -> bool
        ensures { result ≡ true → (p : ℕ) → half_in p self.now ≡ 0 }
    {
        self.low == 0 && self.high == 0
    }
}

// A bit of a word.
#[inline(always)]
fn bit(word: u32, place: u32) -> u8
    requires { place < 32 }
    ensures value { result ≡ bit_at word place }
    ensures few { result < 2 }
{
    ((word >> place) & 1) as u8
}

// The word with a bit, or without it.
#[inline(always)]
fn with(word: u32, place: u32, set: bool) -> u32
    requires { place < 32 }
    ensures here { (bit_at result place == 1) ≡ set }
    ensures others { (p : ℕ) → p < 32 → p ≢ place → bit_at result p ≡ bit_at word p }
{
    let bit = 1u32 << place;
    if set { word | bit } else { word & !bit }
}
