//! Closes of this side: the errors that they resolve with, and the methods that the session queues itself.
//!
//! The definitions stand in `specs/`, with the rules of channel and connection closes, of settlements and of unexpected frames.
//! The session asks here.

ghost use Rattle.std.specs.Prelude.{◌≡◌, IfOk};
ghost use Rattle.lapin_rules.specs.ChannelClose.{failed_at_close as failed_at_close_lem, failed_at_close_ok as failed_at_close_ok_lem, close_ok_end as close_ok_end_lem, consumers_end as consumers_end_lem, has_sent_close as has_sent_close_lem};
ghost use Rattle.lapin_rules.specs.Settlement.{settle_method as settle_method_lem, session_close as session_close_lem};
ghost use Rattle.lapin_rules.specs.Unexpected.{unexpected_close as unexpected_close_lem};

use crate::marks::SettleKind;
use crate::phases::{ChannelPhase, Closer};
use lapin_types::{
    ChannelMethod, ChannelState, ConnectionMethod, Error, Method, NoMemory, ShortString,
};
use std::alloc::Global;

/// What a publish that has not begun is resolved with as this side closes its channel.
pub fn failed_at_close(closer: Closer) -> Error
    ensures { result ≡ failed_at_close_lem closer }
{
    match closer {
        Closer::Application => Error::InvalidChannelState(ChannelState::Closing),
        Closer::Session => Error::ProtocolError(406),
    }
}

/// What is unresolved is resolved with as the broker's close-ok ends the opening.
pub fn failed_at_close_ok(closer: Closer) -> Error
    ensures { result ≡ failed_at_close_ok_lem closer }
{
    match closer {
        Closer::Application => Error::InvalidChannelState(ChannelState::Closed),
        Closer::Session => Error::ProtocolError(406),
    }
}

/// The error with which `channel.close-ok` ends an opening; `None` where a crossed close ended it before.
pub fn close_ok_end(phase: ChannelPhase) -> Option<Error>
    ensures { result ≡ close_ok_end_lem phase }
{
    match phase {
        ChannelPhase::Closing { closer, .. } => Some(failed_at_close_ok(closer)),
        _ => None,
    }
}

/// The error that the consumers of a channel get before their end as `channel.close-ok` ends the opening: none where the
/// application closed it.
pub fn consumers_end(phase: ChannelPhase) -> Option<Error>
    ensures { result ≡ consumers_end_lem phase }
{
    match phase {
        ChannelPhase::Closing {
            closer: Closer::Session,
            ..
        } => Some(Error::ProtocolError(406)),
        _ => None,
    }
}

/// Whether a channel is closing and this side's `channel.close` has left.
pub fn has_sent_close(phase: ChannelPhase) -> bool
    ensures { result ≡ has_sent_close_lem phase }
{
    matches!(phase, ChannelPhase::Closing { sent: true, .. })
}

/// The close of a channel on which a single settlement named a tag that is not pending.
pub fn session_close(alloc: Global, kind: SettleKind) -> Result<Method, NoMemory>
    ensures { IfOk result (λ m. m ≡ session_close_lem kind) }
{
    let reply_text = ShortString::literal(alloc, "PRECONDITION_FAILED")?;
    Ok(Method::Channel(ChannelMethod::Close {
        reply_code: 406,
        reply_text,
        class_id: 60,
        method_id: settle_method(kind),
    }))
}

/// The close of the connection on which a frame of this class and method was not received.
pub fn unexpected_close(alloc: Global, class: u16, number: u16) -> Result<Method, NoMemory>
    ensures { IfOk result (λ m. m ≡ unexpected_close_lem class number) }
{
    let reply_text = ShortString::literal(alloc, "UNEXPECTED_FRAME")?;
    Ok(Method::Connection(ConnectionMethod::Close {
        reply_code: 505,
        reply_text,
        class_id: class,
        method_id: number,
    }))
}

fn settle_method(kind: SettleKind) -> u16
    ensures { result ≡ settle_method_lem kind }
{
    match kind {
        SettleKind::Ack => 80,
        SettleKind::Nack => 120,
    }
}
