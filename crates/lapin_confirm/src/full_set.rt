//! The set of full channels, as it is kept beside the confirm modes, so that 64 channels are asked at once.
//!
//! Whoever changes the confirm mode of a channel shows here whether the channel is full then. Room for a channel is made as its first
//! opening begins, so that showing takes no memory.

ghost use Rattle.std.specs.Prelude.{◌≡◌, ◌<◌, false};
ghost use Rattle.lapin_full.specs.ChannelSet.{is_in, reach};
ghost use Rattle.lapin_confirm.specs.FullSet.{is_full_mode, Shown};

use crate::confirm_mode::ConfirmMode;
use lapin_full::ChannelSet;

/// Shows whether a channel is full, in the room that was made.
pub fn show(full: &mut ChannelSet, channel: u16, mode: &ConfirmMode)
    requires { channel < reach full.old }
    ensures { Shown channel (is_full_mode mode.now) full.old full.new }
{
    if is_full(mode) {
        full.insert_reserved(channel);
    } else {
        full.remove(channel);
    }
}

/// The same, where the limit has stayed: a channel without one wasn't full before and isn't now.
pub fn show_limited(full: &mut ChannelSet, channel: u16, mode: &ConfirmMode)
    requires placed { channel < reach full.old }
    requires unlimited { mode.now.limit ≡ 0 → is_in channel full.old ≡ false }
    ensures { Shown channel (is_full_mode mode.now) full.old full.new }
{
    if mode.limit == 0 {
        return;
    }
    show(full, channel, mode);
}

// Whether no further publish of an opening begins.
fn is_full(mode: &ConfirmMode) -> bool
    ensures { result ≡ is_full_mode mode.now }
{
    mode.selected && 0 < mode.limit && mode.limit <= mode.pending as u64
}
