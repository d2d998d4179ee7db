//! Why the session refused something: the last error that the client told, which is kept as it is, so that it takes no memory.
ghost use Rattle.std.specs.Prelude.{◌≡◌, option_map};
ghost use Rattle.lapin_client.specs.Clients.{IsSound, SameBytes};
ghost use Rattle.lapin_client.specs.Refusals.{IsTold, Keeps, blank_of, refusal_of as refusal_of_lem, channel_number as channel_number_lem};

use crate::client::Client;
use crate::status::Status;
use lapin_types::{ChannelState, Error};

/// An error: its kind by number, and the fields that it has; the others are 0.
#[derive(Clone, Copy, Debug, PartialEq, Eq)]
#[repr(C)]
pub struct Refusal {
    /// Its kind: the place that it has in `Error`, from 1.
    pub kind: u32,
    /// Of `InvalidChannelState` the state of the channel.
    pub state: u32,
    /// Of `ProtocolError` the reply code.
    pub code: u16,
    /// Of `UnexpectedFrame` the class of the frame.
    pub class_id: u16,
    /// Of `UnexpectedFrame` its method.
    pub method_id: u16,
    /// Of `PreconditionFailed` the tag that the broker named.
    pub tag: u64,
    /// Of `PreconditionFailed` the last tag that was taken.
    pub current: u64,
    /// Of `ConfirmsOutstanding` the limit.
    pub limit: u64,
}

impl Client {
    /// The last error that the client told: why the session refused something, or why what was awaited won't come. None where it told none yet.
    pub fn why(&self) -> Option<Refusal>
        ensures { result ≡ option_map (λ e. refusal_of_lem e) self.now.refused }
    {
        match self.refused {
            Some(error) => Some(refusal_of(error)),
            None => None,
        }
    }

    // What an error is told as by which nothing was done: a refusal is kept; want of memory and of numbers have a status of their own.
    pub(crate) fn refuse(&mut self, error: Error) -> Status
        requires { IsSound self.old }
        ensures sound { IsSound self.new }
        ensures told { IsTold result error self.old self.new }
        ensures session { self.new.session ≡ self.old.session }
        ensures count { self.new.left ≡ self.old.left }
        ensures same { SameBytes self.old self.new }
    {
        match error {
            Error::NoMemory => Status::NoMemory,
            Error::NumbersUsedUp => Status::Ended,
            _ => {
                self.keep(error);
                Status::Refused
            }
        }
    }

    // An error that the session told is kept.
    pub(crate) fn keep(&mut self, error: Error)
        requires { IsSound self.old }
        ensures sound { IsSound self.new }
        ensures kept { Keeps error self.old self.new }
        ensures session { self.new.session ≡ self.old.session }
        ensures count { self.new.left ≡ self.old.left }
        ensures same { SameBytes self.old self.new }
    {
        self.refused = Some(error);
    }
}

// An error by its number and its fields.
fn refusal_of(error: Error) -> Refusal
    ensures { result ≡ refusal_of_lem error }
{
    match error {
        Error::NoMemory => blank(1),
        Error::NumbersUsedUp => blank(2),
        Error::InvalidChannelState(state) => Refusal {
            state: channel_number(state),
            ..blank(3)
        },
        Error::ProtocolError(code) => Refusal { code, ..blank(4) },
        Error::ConnectionLost => blank(5),
        Error::UnexpectedFrame { class, method } => Refusal {
            class_id: class,
            method_id: method,
            ..blank(6)
        },
        Error::PreconditionFailed { tag, current } => Refusal {
            tag,
            current,
            ..blank(7)
        },
        Error::AlreadyTaken => blank(8),
        Error::UnknownTicket => blank(9),
        Error::ConfirmsOutstanding { limit } => Refusal { limit, ..blank(10) },
    }
}

// An error of a kind that has no fields.
fn blank(kind: u32) -> Refusal
    ensures { result ≡ blank_of kind }
{
    Refusal {
        kind,
        state: 0,
        code: 0,
        class_id: 0,
        method_id: 0,
        tag: 0,
        current: 0,
        limit: 0,
    }
}

// The number of a channel's state.
pub(crate) fn channel_number(state: ChannelState) -> u32
    ensures { result ≡ channel_number_lem state }
{
    match state {
        ChannelState::Closed => 0,
        ChannelState::Opening => 1,
        ChannelState::Open => 2,
        ChannelState::Closing => 3,
        ChannelState::Crossed => 4,
        ChannelState::Base => 5,
        ChannelState::Down => 6,
    }
}
