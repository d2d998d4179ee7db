//! A set of channel numbers, a bit each, so that 64 of them are compared at once.
//!
//! The places of the words that have a bit are a set of the same kind. So however high the numbers are, a search reads only words that have
//! one, beside at most 16 words of places. The set takes in the channels that it reaches: those for which room was made, and those below
//! them.

ghost use Rattle.std.specs.Prelude.{◌≡◌, ◌≢◌, ℕ, ◌+◌, ◌*◌, ◌<◌, ◌≤◌, [], true, false, length, get_or, OnOk, IsOk, MatchOption};
ghost use Rattle.lapin_full.specs.ChannelSet.{is_in, reach};
ghost use Rattle.lapin_full.specs.FullChannels.{AllFull, IsFirstOpen};
ghost use Rattle.lapin_full.specs.Words.{AreMarked};

use crate::bits::{Bits, IN_A_WORD, left_at, number_at};
use std::alloc::{AllocError, Global};
use std::marker::Model;

/// A set of channel numbers. Contracts see its words, and ask by `is_in` which channels are in.
#[derive(Drop)]
pub struct ChannelSet {
    channels: Bits,
    // Of the words of `channels` that have a bit.
    places: Bits,
}

impl Model for ChannelSet {
    ghost use Rattle.std.specs.Prelude.{ℕ, ◌≤◌, List, length};
    ghost use Rattle.lapin_full.specs.ChannelSet.{reach};
    ghost use Rattle.lapin_full.specs.Words.{AreMarked};

    ghost Value = { List ℕ };

    ghost view = { λ s. s.channels };

    ghost invariant = { λ s. AreMarked s.channels s.places × (length s.channels ≤ reach s.places) };
}

impl ChannelSet {
    /// No channel is in. It takes no memory.
    pub fn new(alloc: Global) -> ChannelSet
        ensures { result ≡ [] }
    {
        ChannelSet {
            channels: Bits::new(alloc),
            places: Bits::new(alloc),
        }
    }

    /// Whether a channel is in.
    pub fn contains(&self, channel: u16) -> bool
        ensures { result ≡ is_in channel self.now }
    {
        self.channels.contains(channel)
    }

    /// Makes room for a channel. Which channels are in stays, also where there is no memory.
    pub fn reserve(&mut self, channel: u16) -> Result<(), AllocError>
        ensures room { OnOk result (channel < reach self.new) }
        ensures same { (c : ℕ) → is_in c self.new ≡ is_in c self.old }
        ensures kept { reach self.old ≤ reach self.new }
        ensures succeeds { channel < reach self.old → IsOk result }
    {
        self.places.reserve(channel / 64)?;
        self.channels.reserve(channel)
    }

    /// Puts a channel in, in the room that was made.
    pub fn insert_reserved(&mut self, channel: u16)
        requires { channel < reach self.old }
        ensures here { is_in channel self.new ≡ true }
        ensures others { (c : ℕ) → c ≢ channel → is_in c self.new ≡ is_in c self.old }
        ensures reach { reach self.new ≡ reach self.old }
    {
        self.channels.insert_reserved(channel);
        self.places.insert_reserved(channel / 64);
    }

    /// Takes a channel out, if it is in.
    pub fn remove(&mut self, channel: u16)
        ensures here { is_in channel self.new ≡ false }
        ensures others { (c : ℕ) → c ≢ channel → is_in c self.new ≡ is_in c self.old }
        ensures reach { reach self.new ≡ reach self.old }
    {
        let is_alone = self.channels.remove(channel);
        if is_alone {
            let _ = self.places.remove(channel / 64);
        }
    }

    /// The first channel from this number on that is in and not in another set; `None` exactly where there is none.
    pub fn first_without(&self, others: &ChannelSet, from: usize) -> Option<u16>
        ensures { MatchOption result (AllFull (λ c. is_in c others.now) self.now from) (IsFirstOpen (λ c. is_in c others.now) self.now from) }
    {
        first_marked(
            self.channels.words(),
            &self.places,
            others.channels.words(),
            from,
        )
    }

    /// The first channel from this number on that is in; `None` exactly where there is none.
    pub fn first(&self, from: usize) -> Option<u16>
        ensures { MatchOption result (AllFull (λ _. false) self.now from) (IsFirstOpen (λ _. false) self.now from) }
    {
        first_marked(self.channels.words(), &self.places, &[], from)
    }
}

// The first channel from a number on that has a bit and none among the others, where the places of the words that have any are marked.
fn first_marked(words: &[u64], places: &Bits, others: &[u64], from: usize) -> Option<u16>
    requires few { length words.now ≤ 1024 }
    requires marked { AreMarked words.now places.now }
    ensures { MatchOption result (AllFull (λ c. is_in c others.now) words.now from) (IsFirstOpen (λ c. is_in c others.now) words.now from) }
{
    let mut start = from / IN_A_WORD;
    while let Some(marked) = places.first(start) {
        let place = usize::from(marked);
        let left = left_at(words, others, place, from);
        if left != 0 {
            return Some(number_at(place, left.trailing_zeros()));
        }
        start = place + 1;
    }
    None
}
