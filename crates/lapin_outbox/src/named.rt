//! Full channels that are named one by one.
//!
//! Whoever asks for a frame may name the channels that are full, in place of answering for each. The outbox, which alone calls this
//! file, asks of them as of any others.

ghost use Rattle.std.specs.Prelude.{◌≡◌, MatchOption};
ghost use Rattle.lapin_full.specs.FullChannels.{AllFull, IsFirstOpen};
ghost use Rattle.lapin_outbox.specs.Returned.{is_named};

use lapin_full::{ChannelSet, FullChannels};

/// The channels that are full.
#[derive(Clone, Copy)]
pub(crate) struct Named<'a> {
    pub(crate) channels: &'a [u16],
}

impl<'a> FullChannels for Named<'a> {
    ghost full = { λ n c. is_named n.channels.now c };

    fn is_full(&self, channel: u16) -> bool {
        is_among(channel, self.channels)
    }

    fn first_open(&self, channels: &ChannelSet, from: usize) -> Option<u16> {
        first_unnamed(self.channels, channels, from)
    }
}

// The first channel of a set, from a number on, that isn't named.
fn first_unnamed(named: &[u16], channels: &ChannelSet, from: usize) -> Option<u16>
    ensures { MatchOption result (AllFull (is_named named.now) channels.now from) (IsFirstOpen (is_named named.now) channels.now from) }
{
    let mut number = from;
    while let Some(channel) = channels.first(number) {
        if !is_among(channel, named) {
            return Some(channel);
        }
        number = usize::from(channel) + 1;
    }
    None
}

// Whether a channel is named.
fn is_among(channel: u16, named: &[u16]) -> bool
    ensures { result ≡ is_named named.now channel }
{
    named.contains(&channel)
}
