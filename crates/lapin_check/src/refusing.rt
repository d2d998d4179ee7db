//! Why a frame of a broker may not be sent: the first rule that applies to it.

ghost use Rattle.std.specs.Prelude.{◌≡◌};
ghost use Rattle.lapin_check.specs.Rules.{send_rule as send_rule_lem, allows as allows_lem, is_of_open as is_of_open_lem, refused_by};

use crate::finding::SendRule;
use lapin_broker::frames::{BrokerFrame, broker_frame, channel_of};
use lapin_broker::{Broker, BrokerState, PeerState};
use lapin_types::Frame;

/// The first rule that applies to a frame that this broker may not send.
pub(crate) fn send_rule(broker: &Broker, frame: &Frame) -> SendRule
    ensures { result ≡ send_rule_lem broker.now frame.now }
{
    let channel = channel_of(frame);
    let sorted = broker_frame(frame);
    if !matches!(broker.state(), BrokerState::Up) {
        return SendRule::Silent;
    }
    if channel != 0 && !allows(broker.channel_state(channel), broker.owes(channel), sorted) {
        return SendRule::ChannelState;
    }
    if broker.sending(channel) {
        return SendRule::ContentOpen;
    }
    refusal(broker.waiting(channel), sorted)
}

// Whether a channel in this state, which owes close-ok or doesn't, allows some frame of that kind.
fn allows(state: PeerState, owes: bool, sorted: BrokerFrame) -> bool
    ensures { result ≡ allows_lem state owes sorted }
{
    match state {
        PeerState::Free => false,
        PeerState::Asked => sorted.is_open_ok() || sorted.is_close(),
        PeerState::Open => sorted.is_close() || is_of_open(sorted),
        PeerState::Leaving => sorted.is_close_ok() || is_of_open(sorted),
        PeerState::Stopping => owes && sorted.is_close_ok(),
    }
}

// Whether a frame is of a kind that an open channel carries beside its close.
fn is_of_open(sorted: BrokerFrame) -> bool
    ensures { result ≡ is_of_open_lem sorted }
{
    matches!(
        sorted,
        BrokerFrame::Reply(_)
            | BrokerFrame::ConsumeOk
            | BrokerFrame::CancelOk
            | BrokerFrame::GetOk
            | BrokerFrame::Settle(_, _)
            | BrokerFrame::Deliver
            | BrokerFrame::Return
            | BrokerFrame::Cancel
            | BrokerFrame::Flow
            | BrokerFrame::Header(_, _)
            | BrokerFrame::Body(_)
    )
}

// The rule of a frame that is refused while no content is being sent, where so many requests wait.
fn refusal(waiting: usize, sorted: BrokerFrame) -> SendRule
    ensures { result ≡ refused_by waiting sorted }
{
    match sorted {
        BrokerFrame::Header(_, _) | BrokerFrame::Body(_) => SendRule::NoContent,
        BrokerFrame::Settle(_, _) => SendRule::BadSettlement,
        BrokerFrame::Deliver | BrokerFrame::Cancel => SendRule::UnknownTag,
        BrokerFrame::CloseOk if waiting != 0 => SendRule::RequestsWaiting,
        BrokerFrame::Reply(_)
        | BrokerFrame::ConsumeOk
        | BrokerFrame::CancelOk
        | BrokerFrame::GetOk => SendRule::NotFirstReply,
        _ => SendRule::NotForClient,
    }
}
