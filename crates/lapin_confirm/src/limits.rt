//! The limit of outstanding confirms: which channels are full, and which are at their limit.
//!
//! Both are asked of what `confirms` keeps, and nothing is kept here; how the set of full channels is kept is `full_set`. What a full
//! channel holds back is the outbox's, and what is refused at the limit the session's.

ghost use Rattle.std.specs.Prelude.{◌≡◌, ◌+◌, nat_le};
ghost use Rattle.lapin_confirm.specs.PublishStates.{at_limit_on};

use crate::confirms::Confirms;
use lapin_full::{ChannelSet, FullChannels};

impl Confirms {
    /// Whether a channel is at its limit: as many of its publishes are queued or pending as the limit allows, which is above 0.
    pub fn at_limit(&self, channel: u16) -> bool
        ensures { result ≡ at_limit_on channel self.now.what.publish_states }
    {
        let limit = self.limit(channel);
        0 < limit
            && reach(
                limit,
                self.queued(channel) as u64,
                self.pending(channel) as u64,
            )
    }
}

impl FullChannels for Confirms {
    ghost use Rattle.lapin_confirm.specs.PublishStates.{full_on};

    ghost full = { λ p c. full_on c p.what.publish_states };

    fn is_full(&self, channel: u16) -> bool {
        self.full(channel)
    }

    fn first_open(&self, channels: &ChannelSet, from: usize) -> Option<u16> {
        channels.first_without(&self.full, from)
    }
}

// Whether two numbers together reach a limit.
fn reach(limit: u64, queued: u64, pending: u64) -> bool
    ensures { result ≡ nat_le limit (queued + pending) }
{
    limit <= queued || limit - queued <= pending
}
