//! Why a frame of a client makes the broker Broken: the first rule that applies to it.

ghost use Rattle.std.specs.Prelude.{◌≡◌};
ghost use Rattle.lapin_check.specs.Rules.{break_rule as break_rule_lem, is_part_on as is_part_on_lem, breaks_channel};

use crate::finding::BreakRule;
use lapin_broker::frames::{ClientFrame, channel_of, client_frame};
use lapin_broker::{Broker, BrokerState, PeerState};
use lapin_types::Frame;

/// The first rule that applies to a frame that makes this broker Broken as it is read.
pub(crate) fn break_rule(broker: &Broker, frame: &Frame) -> BreakRule
    ensures { result ≡ break_rule_lem broker.now frame.now }
{
    let sorted = client_frame(frame);
    let leaving = matches!(broker.state(), BrokerState::Leaving);
    if leaving && sorted.is_connection_close() {
        return BreakRule::SecondClose;
    }
    if sorted.is_connection_close_ok() {
        return BreakRule::StrayCloseOk;
    }
    if leaving {
        return BreakRule::AfterClose;
    }
    let channel = channel_of(frame);
    match broker.reading() {
        Some(there) if is_part_on(there, channel, sorted) => BreakRule::BadContent,
        Some(_) => BreakRule::ContentExpected,
        None => channel_rule(channel, broker.channel_state(channel)),
    }
}

// Whether a frame on a channel is a header or body on this one.
fn is_part_on(there: u16, channel: u16, sorted: ClientFrame) -> bool
    ensures { result ≡ is_part_on_lem there channel sorted }
{
    there == channel && matches!(sorted, ClientFrame::Header(_, _) | ClientFrame::Body(_))
}

// The rule of a frame where no content is being read. Channel 0 is the connection's own, and never free.
fn channel_rule(channel: u16, state: PeerState) -> BreakRule
    ensures { result ≡ breaks_channel channel state }
{
    match state {
        PeerState::Free if channel != 0 => BreakRule::ChannelFree,
        PeerState::Asked | PeerState::Leaving => BreakRule::ChannelBusy,
        _ => BreakRule::NotForBroker,
    }
}
