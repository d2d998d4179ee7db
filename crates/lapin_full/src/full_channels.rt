//! Which channels are full, as whoever holds publishes back asks for it.
//!
//! Who answers it, and by which rule, isn't known here.

ghost use Rattle.std.specs.Prelude.{◌≡◌, ℕ, Bool, MatchOption};
ghost use Rattle.lapin_full.specs.FullChannels.{AllFull, IsFirstOpen};

use crate::channel_set::ChannelSet;

/// Tells which channels are full: no further publish of such a channel begins.
pub trait FullChannels {
    ghost full: { Self → ℕ → Bool };

    /// Whether this channel is full.
    fn is_full(&self, channel: u16) -> bool
        ensures { result ≡ full self.now channel };

    /// The first channel of a set that isn't full, from this number on; `None` exactly where each is.
    fn first_open(&self, channels: &ChannelSet, from: usize) -> Option<u16>
        ensures { MatchOption result (AllFull (full self.now) channels.now from) (IsFirstOpen (full self.now) channels.now from) };
}
