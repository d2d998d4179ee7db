//! The errors of a session.
//!
//! Here stands what a call may be refused for and what a promise may end with. When each comes is said by
//! the call that answers it.

use crate::states::ChannelState;
use lapin_values::NoMemory;
use std::alloc::{AllocError, AllocFailed};
use thiserror::Error;

/// Why a call was refused, or why what was awaited won't come.
#[derive(Clone, Copy, Debug, PartialEq, Eq, Error)]
pub enum Error {
    /// The allocator had no memory.
    #[error("the allocator had no memory")]
    NoMemory,
    /// A counter stands at the greatest number.
    #[error("no number is left")]
    NumbersUsedUp,
    /// The channel's state doesn't allow the call.
    #[error("the channel is in a state that doesn't allow this: {0:?}")]
    InvalidChannelState(ChannelState),
    /// The channel or the connection was closed with this reply code (AMQP 0-9-1, section 1.1, "Reply codes").
    #[error("closed with the reply code {0}")]
    ProtocolError(u16),
    /// The connection went away without a close.
    #[error("the connection was lost")]
    ConnectionLost,
    /// A frame came that isn't received in the present state. A header's method is 0, a body's class and method are 0.
    #[error("a frame of class {class} and method {method} was not expected")]
    UnexpectedFrame {
        /// The class of the frame.
        class: u16,
        /// The method of the frame in its class.
        method: u16,
    },
    /// The broker settled a delivery tag that isn't pending.
    #[error("the delivery tag {tag} isn't pending: the last one taken is {current}")]
    PreconditionFailed {
        /// The tag that the broker named.
        tag: u64,
        /// The last tag that was taken, 0 where none was.
        current: u64,
    },
    /// The result of this ticket or confirm was given before, or it was set aside.
    #[error("the result was given before or set aside")]
    AlreadyTaken,
    /// No ticket, confirm or consumer has this number.
    #[error("no ticket, confirm or consumer has this number")]
    UnknownTicket,
    /// As many publishes of the channel wait or are outstanding as its limit allows.
    #[error("as many publishes wait or are outstanding as the limit allows: {limit}")]
    ConfirmsOutstanding {
        /// The limit that the channel's opening was given.
        limit: u64,
    },
}

impl From<NoMemory> for Error {
    ghost use Rattle.std.specs.Prelude.{◌≡◌};
    ghost use Rattle.lapin_methods.specs.declared.error.Error.TheVariants.{NoMemory};

    ghost from_gives = { λ _ error. error ≡ NoMemory };

    fn from(_error: NoMemory) -> Error {
        Error::NoMemory
    }
}

impl From<AllocError> for Error {
    ghost use Rattle.std.specs.Prelude.{◌≡◌};
    ghost use Rattle.lapin_methods.specs.declared.error.Error.TheVariants.{NoMemory};

    ghost from_gives = { λ _ error. error ≡ NoMemory };

    fn from(_error: AllocError) -> Error {
        Error::NoMemory
    }
}

impl<T: Drop> From<AllocFailed<T>> for Error {
    ghost use Rattle.std.specs.Prelude.{◌≡◌};
    ghost use Rattle.lapin_methods.specs.declared.error.Error.TheVariants.{NoMemory};

    ghost from_gives = { λ _ error. error ≡ NoMemory };

    fn from(_failed: AllocFailed<T>) -> Error {
        Error::NoMemory
    }
}
