//! One value per channel number.
//!
//! The values stand in order of first use. An index by channel number stands beside them, so that a look-up costs the
//! same with one channel and with sixty thousand. No other file knows of the index.

ghost use Rattle.std.specs.Prelude.{◌≡◌, ℕ, ◌+◌, ◌≤◌, ◌<◌, ◌∷◌, ◌++◌, [], OnOk, OnErr, IsOk, IfSome, IfNone, None, Some, slice_get};
ghost use Rattle.std.specs.Option.{option_copied, option_copied_mut, option_flatten, option_map};
ghost use Rattle.std.specs.Borrow.{sem};
ghost use Rattle.lapin_tables.specs.ByChannel.{Table, at_channel, on_channel, HasRoom, SameEntries};
ghost use Rattle.lapin_tables.specs.Lends.{LendsValue, LendsFound};
ghost use Rattle.lapin_tables.specs.Index.{place_of};

use std::alloc::{AllocError, Global};
use std::marker::Model;

/// One value per channel number. Contracts see the list of pairs of a channel and its value, in order of first use.
#[derive(Drop)]
pub struct ByChannel<T> {
    entries: Vec<(u16, T)>,
    // By channel number: the place of its entry, if it has one; that it has one is told by the entry that stands there.
    places: Vec<u16>,
}

impl<T> Model for ByChannel<T> {
    ghost use Rattle.std.specs.Prelude.{◌-◌, vec_len, vec_capacity};
    ghost use Rattle.lapin_tables.specs.ByChannel.{Table, table_code};
    ghost use Rattle.lapin_tables.specs.Index.{IsFitting};

    ghost Value = { Table T };

    ghost coded = { table_code T.code };

    ghost view = { λ a. record {
      entries = a.entries.items;
      spare = vec_capacity a.entries - vec_len a.entries;
      reach = vec_len a.places;
    } };

    ghost invariant = { λ a. IsFitting a.places.items a.entries.items };
}

impl<T> ByChannel<T> {
    /// A table without a channel. It takes no memory yet.
    pub fn new(alloc: Global) -> Self
        ensures { result.entries ≡ [] }
    {
        ByChannel {
            entries: Vec::new(alloc),
            places: Vec::new(alloc),
        }
    }

    /// Each channel that has a value, with it, in order of first use.
    pub fn entries(&self) -> &[(u16, T)]
        ensures { result.now ≡ self.now.entries }
    {
        self.entries.as_slice()
    }

    /// The value of a channel, if it has one.
    pub fn get(&self, channel: u16) -> Option<&T>
        ensures { option_copied result ≡ at_channel channel self.now.entries }
    {
        match self.place(channel) {
            Some(place) => Some(&self.entries[place].1),
            None => None,
        }
    }

    /// The value of a channel for writing, if it has one. Every other channel keeps its value.
    pub fn get_mut(&mut self, channel: u16) -> Option<&mut T>
        ensures* writes_back { sem 𝓛 (LendsFound T.row self.entry channel result) }
        ensures value { option_copied_mut result ≡ at_channel channel self.old.entries }
    {
        match self.place(channel) {
            Some(place) => Some(self.value_at(channel, place)),
            None => None,
        }
    }

    /// Above every channel that has a value. With `entry_at` it leads through the channels in rising number.
    pub fn reach(&self) -> usize
        ensures { (c : ℕ) → result ≤ c → at_channel c self.now.entries ≡ None }
    {
        self.places.len()
    }

    /// The channel of this number with its value, if it has one.
    pub fn entry_at(&self, number: usize) -> Option<&(u16, T)>
        ensures { option_copied result ≡ option_map (λ value. (number, value)) (at_channel number self.now.entries) }
    {
        match self.place_at(number) {
            Some(place) => Some(&self.entries[place]),
            None => None,
        }
    }

    // The place of a channel's entry, if it has one.
    fn place(&self, channel: u16) -> Option<usize>
        ensures { result ≡ place_of channel self.now.entries }
    {
        self.place_at(usize::from(channel))
    }

    fn place_at(&self, number: usize) -> Option<usize>
        ensures { result ≡ place_of number self.now.entries }
    {
        if number >= self.places.len() {
            return None;
        }
        let place = usize::from(self.places[number]);
        if place >= self.entries.len() {
            return None;
        }
        if usize::from(self.entries[place].0) == number {
            Some(place)
        } else {
            None
        }
    }

    #[inline(always)]
    fn value_at(&mut self, channel: u16, place: usize) -> &mut T
        requires { place_of channel self.old.entries ≡ Some place }
        ensures* writes_back { sem 𝓛 (LendsValue T.row self.entry channel result) }
        ensures value { at_channel channel self.old.entries ≡ Some result.now }
    {
        let entry = &mut self.entries[place];
        &mut entry.1
    }

    /// Makes room for the `insert_reserved` of a channel. The entries stay, also where there is no memory.
    pub fn reserve(&mut self, channel: u16) -> Result<(), AllocError>
        ensures room { OnOk result (HasRoom channel self.new) }
        ensures same { self.new.entries ≡ self.old.entries }
        ensures kept { (self.old.spare ≤ self.new.spare) × (self.old.reach ≤ self.new.reach) }
    {
        self.entries.reserve(1)?;
        self.reach_to(channel)
    }

    /// Makes room for the `insert_reserved` of a channel beside so many that are promised theirs. The entries stay, also where
    /// there is no memory.
    pub fn reserve_beside(&mut self, channel: u16, promised: usize) -> Result<(), AllocError>
        requires { promised ≤ self.old.spare }
        ensures room { OnOk result ((promised < self.new.spare) × (channel < self.new.reach)) }
        ensures same { self.new.entries ≡ self.old.entries }
        ensures kept { (self.old.spare ≤ self.new.spare) × (self.old.reach ≤ self.new.reach) }
    {
        self.entries.reserve(promised + 1)?;
        self.reach_to(channel)
    }

    // Reaches far enough for a channel.
    fn reach_to(&mut self, channel: u16) -> Result<(), AllocError>
        ensures reached { OnOk result (channel < self.new.reach) }
        ensures same { self.new ≡ record self.old { reach = self.new.reach } }
        ensures kept { self.old.reach ≤ self.new.reach }
    {
        let reach = usize::from(channel) + 1;
        if self.places.len() < reach {
            self.places.resize(reach, 0)?;
        }
        Ok(())
    }

    /// Gives a channel that has no value its first one, in the room that `reserve` made.
    pub fn insert_reserved(&mut self, channel: u16, value: T)
        requires room { HasRoom channel self.old }
        requires absent { at_channel channel self.old.entries ≡ None }
        ensures entries { self.new.entries ≡ self.old.entries ++ (channel, value) ∷ [] }
        ensures spare { self.old.spare ≤ self.new.spare + 1 }
        ensures reach { self.new.reach ≡ self.old.reach }
    {
        let place = self.entries.len();
        self.entries.push_reserved((channel, value));
        self.places[usize::from(channel)] = place as u16;
    }
}

impl<T: Drop> ByChannel<T> {
    /// Lets every channel go with its value.
    pub fn clear(&mut self)
        ensures { self.new.entries ≡ [] }
    {
        self.entries.clear();
        self.places.clear();
    }

    /// Gives a channel that has no value its first one. The entries stay where there is no memory, and `value` is gone.
    pub fn insert(&mut self, channel: u16, value: T) -> Result<(), AllocError>
        requires { at_channel channel self.old.entries ≡ None }
        ensures ok { OnOk result (self.new.entries ≡ self.old.entries ++ (channel, value) ∷ []) }
        ensures err { OnErr result (self.new.entries ≡ self.old.entries) }
    {
        self.reserve(channel)?;
        self.insert_reserved(channel, value);
        Ok(())
    }
}
