//! A set of numbers, a bit each.
//!
//! Channels are such numbers, and so are the places of the words in which channels have their bits. The set takes in what it reaches: the
//! numbers for which room was made, and those below them. `channel_set` alone calls this file.

ghost use Rattle.std.specs.Prelude.{◌≡◌, ◌≢◌, ℕ, ◌+◌, ◌*◌, ◌/◌, ◌%◌, ◌<◌, ◌≤◌, [], ◌-◌, ◌==◌, max, min, true, false, length, get_or, OnOk, IsOk, MatchOption};
ghost use Rattle.std.specs.Int.{bit_at};
ghost use Rattle.lapin_full.specs.ChannelSet.{is_in, reach};
ghost use Rattle.lapin_full.specs.FullChannels.{AllFull, IsFirstOpen};
ghost use Rattle.lapin_full.specs.Words.{ShowsLeft};

use std::alloc::{AllocError, Global};
use std::marker::Model;

// How many numbers have their bits in one word.
pub(crate) const IN_A_WORD: usize = 64;

/// A set of numbers. Contracts see its words, and ask by `is_in` which numbers are in.
#[derive(Drop)]
pub(crate) struct Bits {
    words: Vec<u64>,
}

impl Model for Bits {
    ghost use Rattle.std.specs.Prelude.{ℕ, ◌≤◌, List, vec_len};

    ghost Value = { List ℕ };

    ghost view = { λ s. s.words.items };

    ghost invariant = { λ s. vec_len s.words ≤ 1024 };
}

impl Bits {
    /// No number is in. It takes no memory.
    pub(crate) fn new(alloc: Global) -> Bits
        ensures { result ≡ [] }
    {
        Bits {
            words: Vec::new(alloc),
        }
    }

    /// Its words.
    pub(crate) fn words(&self) -> &[u64]
        ensures words { result.now ≡ self.now }
        ensures few { length self.now ≤ 1024 }
    {
        self.words.as_slice()
    }

    /// Makes room for a number. The words stay, but for more without a bit, also where there is no memory.
    pub(crate) fn reserve(&mut self, number: u16) -> Result<(), AllocError>
        ensures room { OnOk result (number < reach self.new) }
        ensures same { (p : ℕ) → get_or self.new p 0 ≡ get_or self.old p 0 }
        ensures kept { reach self.old ≤ reach self.new }
        ensures least { length self.new ≤ max (length self.old) (number / 64 + 1) }
        ensures succeeds { number < reach self.old → IsOk result }
    {
        let count = place_of(number) + 1;
        if self.words.len() < count {
            self.words.resize(count, 0)?;
        }
        Ok(())
    }

    /// Puts a number in, in the room that was made.
    pub(crate) fn insert_reserved(&mut self, number: u16)
        requires { number < reach self.old }
        ensures here { is_in number self.new ≡ true }
        ensures others { (n : ℕ) → n ≢ number → is_in n self.new ≡ is_in n self.old }
        ensures elsewhere { (p : ℕ) → p ≢ number / 64 → get_or self.new p 0 ≡ get_or self.old p 0 }
        ensures reach { reach self.new ≡ reach self.old }
    {
        let place = place_of(number);
        self.words[place] = with_bit(self.words[place], bit_of(number));
    }

    /// Takes a number out, if it is in. Tells whether no other has its bit in the same word.
    pub(crate) fn remove(&mut self, number: u16) -> bool
        ensures here { is_in number self.new ≡ false }
        ensures others { (n : ℕ) → n ≢ number → is_in n self.new ≡ is_in n self.old }
        ensures elsewhere { (p : ℕ) → p ≢ number / 64 → get_or self.new p 0 ≡ get_or self.old p 0 }
        ensures fewer { get_or self.new (number / 64) 0 ≤ get_or self.old (number / 64) 0 }
        ensures told { result ≡ (get_or self.new (number / 64) 0 == 0) }
        ensures reach { reach self.new ≡ reach self.old }
    {
        let place = place_of(number);
        if self.words.len() <= place {
            return true;
        }
        let word = without_bit(self.words[place], bit_of(number));
        self.words[place] = word;
        word == 0
    }

    /// The first number from one on that is in; `None` exactly where there is none.
    pub(crate) fn first(&self, from: usize) -> Option<u16>
        ensures { MatchOption result (AllFull (λ _. false) self.now from) (IsFirstOpen (λ _. false) self.now from) }
    {
        first_left(self.words.as_slice(), &[], from)
    }

    /// Whether a number is in.
    pub(crate) fn contains(&self, number: u16) -> bool
        ensures { result ≡ is_in number self.now }
    {
        let word = word_at(self.words.as_slice(), place_of(number));
        has_bit(word, bit_of(number))
    }
}

// The place of the word in which a number has its bit.
pub(crate) fn place_of(number: u16) -> usize
    ensures place { result ≡ number / 64 }
    ensures within { result < 1024 }
{
    usize::from(number) / IN_A_WORD
}

// The bit of a number in its word.
fn bit_of(number: u16) -> u32
    ensures bit { result ≡ number % 64 }
    ensures within { result < 64 }
{
    u32::from(number) % 64
}

// Whether a word has a bit.
fn has_bit(word: u64, bit: u32) -> bool
    requires { bit < 64 }
    ensures { result ≡ (bit_at word bit == 1) }
{
    (word >> bit) & 1 == 1
}

// The word with a bit.
fn with_bit(word: u64, bit: u32) -> u64
    requires { bit < 64 }
    ensures set { bit_at result bit ≡ 1 }
    ensures others { (i : ℕ) → i ≢ bit → bit_at result i ≡ bit_at word i }
{
    word | (1u64 << bit)
}

// The word without a bit.
fn without_bit(word: u64, bit: u32) -> u64
    requires { bit < 64 }
    ensures clear { bit_at result bit ≡ 0 }
    ensures fewer { result ≤ word }
    ensures others { (i : ℕ) → i < 64 → i ≢ bit → bit_at result i ≡ bit_at word i }
{
    word & !(1u64 << bit)
}

// The bits of a word that another doesn't have.
fn less(word: u64, other: u64) -> u64
    ensures { (i : ℕ) → i < 64 → bit_at result i ≡ min (bit_at word i) (1 - bit_at other i) }
{
    word & !other
}

// The bits of a word from one on.
fn from_bit(word: u64, first: usize) -> u64
    requires { first < 64 }
    ensures below { (i : ℕ) → i < first → bit_at result i ≡ 0 }
    ensures others { (i : ℕ) → first ≤ i → i < 64 → bit_at result i ≡ bit_at word i }
{
    word & (u64::MAX << first)
}

// The word at a place, 0 beyond the last one.
pub(crate) fn word_at(words: &[u64], place: usize) -> u64
    ensures { result ≡ get_or words.now place 0 }
{
    match words.get(place) {
        Some(word) => *word,
        None => 0,
    }
}

// The first number from one on that has a bit among the first words and none among the others.
fn first_left(words: &[u64], others: &[u64], from: usize) -> Option<u16>
    requires { length words.now ≤ 1024 }
    ensures { MatchOption result (AllFull (λ c. is_in c others.now) words.now from) (IsFirstOpen (λ c. is_in c others.now) words.now from) }
{
    let mut place = from / IN_A_WORD;
    while place < words.len() {
        let left = left_at(words, others, place, from);
        if left != 0 {
            return Some(number_at(place, left.trailing_zeros()));
        }
        place += 1;
    }
    None
}

// The bits at a place that the first words have and the others don't, of numbers from one on.
pub(crate) fn left_at(words: &[u64], others: &[u64], place: usize, from: usize) -> u64
    requires within { place < length words.now }
    requires few { length words.now ≤ 1024 }
    requires from { from < 64 * place + 64 }
    ensures { ShowsLeft words.now others.now place from result }
{
    let left = less(words[place], word_at(others, place));
    let first = IN_A_WORD * place;
    if from <= first {
        left
    } else {
        from_bit(left, from - first)
    }
}

// The number of a bit in the word at a place.
pub(crate) fn number_at(place: usize, bit: u32) -> u16
    requires { (place < 1024) × (bit < 64) }
    ensures { result ≡ 64 * place + bit }
{
    (IN_A_WORD * place) as u16 + bit as u16
}
