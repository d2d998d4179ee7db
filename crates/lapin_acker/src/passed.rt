//! The ackers at the front of a session's that need no cell any more: those that were let go, and used ones.
//!
//! Of a used acker its channel alone is told, so used ones of one channel that follow one another are stored as one run.
//! Whether the opening of one ended is said by the ends of its channel, which stand beside it.

ghost use Rattle.std.specs.Prelude.{◌≡◌, ℕ, ◌+◌, ◌<◌, ◌^◌, ◌∷◌, ◌++◌, [], List, Some, if◌then◌else◌, slice_get, length, replicate};
ghost use Rattle.std.specs.Option.{option_map};
ghost use Rattle.lapin_acker.specs.Switches.{used as used_of};
ghost use Rattle.lapin_acker.specs.Store.{shown, spelled};
ghost use Rattle.lapin_acker.specs.declared.switch.Switch.{Switch as ASwitch};
ghost use Rattle.lapin_acker.specs.declared.switch.Switch.TheVariants as switch;

use crate::switches::end_of;
use std::alloc::Global;
use std::collections::VecDeque;
use std::marker::Model;

/// The ackers at the front. Contracts see how many were let go, and the used ones behind them.
pub(crate) struct Passed {
    let_go: u64,
    // Up to this number each acker was let go or is one of a run.
    up_to: u64,
    // How many used ackers follow one another, and their channel; but for the last such run. A run is narrow, since where
    // channels alternate each run is short.
    runs: VecDeque<(u16, u16)>,
    count: u16,
    channel: u16,
}

impl Drop for Passed {
    fn drop(self) {
        let Passed {
            let_go: _,
            up_to: _,
            runs: _,
            count: _,
            channel: _,
        } = self;
    }
}

impl Model for Passed {
    ghost use Rattle.std.specs.Prelude.{◌≡◌, ◌+◌, ◌++◌, length, replicate};
    ghost use Rattle.lapin_acker.specs.Store.{Front, spelled};
    ghost use Rattle.lapin_acker.specs.declared.switch.Switch.TheVariants as switch;

    ghost Value = { Front };

    ghost view = { λ a. record {
      gone = a.let_go;
      used = spelled a.runs.items ++ replicate a.count (switch.Used a.channel);
    } };

    ghost invariant = { λ a. a.up_to ≡ a.let_go + length (spelled a.runs.items ++ replicate a.count (switch.Used a.channel)) };
}

impl Passed {
    /// None was passed. It takes no memory.
    pub(crate) fn new(alloc: Global) -> Passed
        ensures gone { result.gone ≡ 0 }
        ensures used { result.used ≡ [] }
    {
        Passed {
            let_go: 0,
            up_to: 0,
            runs: VecDeque::new(alloc),
            count: 0,
            channel: 0,
        }
    }

    /// How many were let go.
    pub(crate) fn gone(&self) -> u64
        ensures { result ≡ self.now.gone }
    {
        self.let_go
    }

    /// The last number that was let go or is one of a used acker.
    pub(crate) fn up_to(&self) -> u64
        ensures count { result ≡ self.now.gone + length self.now.used }
        ensures used { (p : ℕ) (s : ASwitch) → slice_get self.now.used p ≡ Some s → used_of s ≡ s }
    {
        self.up_to
    }

    /// The channel of a used acker, by its place behind those that were let go.
    pub(crate) fn channel_at(&self, place: u64) -> Option<u16>
        ensures { option_map switch.Used result ≡ slice_get self.now.used place }
    {
        channel_of(&self.runs, self.count, self.channel, place)
    }

    /// Adds a used acker of a channel behind the others. Answers whether there was memory for it: where there was none, nothing
    /// changes.
    pub(crate) fn add(&mut self, channel: u16) -> bool
        requires { self.old.gone + length self.old.used + 1 < 2 ^ 64 }
        ensures gone { self.new.gone ≡ self.old.gone }
        ensures used { self.new.used ≡ (if result then self.old.used ++ switch.Used channel ∷ [] else self.old.used) }
    {
        if self.channel == channel && self.count < u16::MAX {
            self.count += 1;
            self.up_to += 1;
            return true;
        }
        if self.runs.reserve(1).is_err() {
            return false;
        }
        self.runs.push_back_reserved((self.count, self.channel));
        self.channel = channel;
        self.count = 1;
        self.up_to += 1;
        true
    }

    /// Adds 64 used ackers of a channel behind the others. Answers whether there was memory for them: where there was none, nothing
    /// changes.
    pub(crate) fn add_many(&mut self, channel: u16) -> bool
        requires { self.old.gone + length self.old.used + 64 < 2 ^ 64 }
        ensures gone { self.new.gone ≡ self.old.gone }
        ensures used { self.new.used ≡ (if result then self.old.used ++ replicate 64 (switch.Used channel) else self.old.used) }
    {
        if self.channel == channel && self.count <= u16::MAX - 64 {
            self.count += 64;
            self.up_to += 64;
            return true;
        }
        if self.runs.reserve(1).is_err() {
            return false;
        }
        self.runs.push_back_reserved((self.count, self.channel));
        self.channel = channel;
        self.count = 64;
        self.up_to += 64;
        true
    }

    /// Lets the first run go, where the opening of each of its ackers ended.
    pub(crate) fn let_go(&mut self, ends: &[u64])
        ensures shown { (cells : List ASwitch) → shown self.new.gone ends.now (self.new.used ++ cells) ≡ shown self.old.gone ends.now (self.old.used ++ cells) }
        ensures count { self.new.gone + length self.new.used ≡ self.old.gone + length self.old.used }
    {
        let Some(first) = self.runs.front() else {
            return;
        };
        let (count, channel) = *first;
        let count = u64::from(count);
        if self.let_go + count > end_of(ends, channel) {
            return;
        }
        let _ = self.runs.pop_front();
        self.let_go += count;
    }
}

// The channel of the acker at a place of the runs, the last of which stands by itself.
fn channel_of(runs: &VecDeque<(u16, u16)>, count: u16, channel: u16, place: u64) -> Option<u16>
    ensures { option_map switch.Used result ≡ slice_get (spelled runs.now.items ++ replicate count (switch.Used channel)) place }
{
    let mut left = place;
    let mut run = 0;
    while run < runs.len() {
        let (length, of) = runs[run];
        let length = u64::from(length);
        if left < length {
            return Some(of);
        }
        left -= length;
        run += 1;
    }
    if left < u64::from(count) {
        Some(channel)
    } else {
        None
    }
}
