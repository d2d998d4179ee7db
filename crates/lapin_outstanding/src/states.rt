//! Where channels and the connection stand, beside what waits: what a state allows, and what a reply and a close that leaves do to it.

ghost use Rattle.std.specs.Prelude.{◌≡◌, true};
ghost use Rattle.lapin_tables.specs.ByChannel.{at_channel, on_channel};
ghost use Rattle.lapin_rules.specs.Words.{is_some};
ghost use Rattle.lapin_rules.specs.ConnectionClose.{link_sent};
ghost use Rattle.lapin_rules.specs.ChannelClose.{phases_sent, close_sent as close_sent_lem};
ghost use Rattle.lapin_rules.specs.Opening.{phases_with};
ghost use Rattle.lapin_rules.specs.Phases.{channel_state};
ghost use Rattle.lapin_rules.specs.Wire.{is_open as is_open_lem, is_closed as is_closed_lem, is_base as is_base_lem, is_closing as is_closing_lem};

use lapin_phases::Phases;
use lapin_rules::{ChannelMove, ChannelPhase, ConnectionMove, ConnectionPhase, opens};
use lapin_types::{ChannelMethod, ChannelState, ConnectionMethod, Frame, Method, ReplyKind};

/// Whether a channel in this state is open.
pub fn is_open(state: ChannelState) -> bool
    ensures { result ≡ is_open_lem state }
{
    matches!(state, ChannelState::Open)
}

/// Whether a channel in this state is closed, so that it may be opened.
pub fn is_closed(state: ChannelState) -> bool
    ensures { result ≡ is_closed_lem state }
{
    matches!(state, ChannelState::Closed)
}

/// Whether it is the state of channel 0, the connection's own.
pub fn is_base(state: ChannelState) -> bool
    ensures { result ≡ is_base_lem state }
{
    matches!(state, ChannelState::Base)
}

/// The reply of a kind came: `channel.open-ok` opens its channel.
pub fn phase_replied(phases: &mut Phases, channel: u16, kind: ReplyKind)
    requires { is_some (at_channel channel phases.old.entries) ≡ true }
    ensures { phases.new.entries ≡ phases_with channel kind phases.old.entries }
{
    if opens(kind) {
        phases.go(channel, ChannelMove::OpenOk);
    }
}

// A close of the connection is known to have left.
pub(crate) fn link_left(link: &mut ConnectionPhase, frame: &Frame)
    ensures { link.new ≡ link_sent frame.now link.old }
{
    if let Frame::Method(_, Method::Connection(ConnectionMethod::Close { .. })) = frame {
        *link = link.after(ConnectionMove::CloseLeft);
    }
}

// A close of a channel is known to have left.
pub(crate) fn phases_left(phases: &mut Phases, frame: &Frame)
    ensures { phases.new.entries ≡ phases_sent frame.now phases.old.entries }
{
    if let Frame::Method(channel, Method::Channel(ChannelMethod::Close { .. })) = frame {
        phase_left(phases, *channel);
    }
}

fn phase_left(phases: &mut Phases, channel: u16)
    ensures { phases.new.entries ≡ on_channel channel close_sent_lem phases.old.entries }
{
    let phase = phases.get(channel);
    if is_closing(phase) {
        phases.go(channel, ChannelMove::CloseLeft);
    }
}

// Whether this side is closing the channel.
fn is_closing(phase: ChannelPhase) -> bool
    ensures { result ≡ is_closing_lem (channel_state phase) }
{
    matches!(phase, ChannelPhase::Closing { .. })
}
