//! The number of a channel that may be opened.
ghost use Rattle.std.specs.Prelude.{◌≡◌, ◌≤◌, ◌<◌, ℕ, true, false, IfSome, IfNone};
ghost use Rattle.lapin_rules.specs.Wire.{state_of, is_closed as is_closed_lem};

use lapin_session::Session;
use lapin_types::ChannelState;

/// The lowest number from 1 up to `most` of a channel that is closed, so that `open_channel` is allowed on it. `most` is the greatest
/// number that was agreed with the broker (`channel-max` of AMQP 0-9-1, section 4.9).
pub fn free_channel(session: &Session, most: u16) -> Option<u16>
    ensures some { IfSome result (λ c. (0 < c) × (c ≤ most) × (is_closed_lem (state_of c session.now.wire) ≡ true)) }
    ensures lowest { IfSome result (λ c. (d : ℕ) → 0 < d → d < c → is_closed_lem (state_of d session.now.wire) ≡ false) }
    ensures none { IfNone result ((d : ℕ) → 0 < d → d ≤ most → is_closed_lem (state_of d session.now.wire) ≡ false) }
{
    for passed in 0..most {
        let channel = passed + 1;
        if is_closed(session.channel_state(channel)) {
            return Some(channel);
        }
    }
    None
}

fn is_closed(state: ChannelState) -> bool
    ensures { result ≡ is_closed_lem state }
{
    matches!(state, ChannelState::Closed)
}
