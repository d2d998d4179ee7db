//! What is seen of a connection: a frame, and whether it came up from the client or went down to it. Here stands also which of
//! them is a settlement; what a settlement covers stands with the account.

ghost use Rattle.std.specs.Prelude.{◌≡◌};
ghost use Rattle.lapin_check.specs.Settlements.{settlement_in, settlement_by};

use lapin_types::{BasicMethod, Frame, Method};

/// A frame that a broker read or sent.
#[derive(Debug, Drop)]
pub enum Seen {
    /// The broker read it.
    Up(Frame),
    /// The broker sent it.
    Down(Frame),
}

/// A settlement of publishes: `basic.ack` or `basic.nack`, which a broker sends (RabbitMQ's publisher confirms).
#[derive(Clone, Copy, Debug, PartialEq, Eq)]
pub(crate) struct Settlement {
    /// The channel that it was sent on.
    pub(crate) channel: u16,
    /// The number that it names.
    pub(crate) number: u64,
    /// Whether it covers the numbers below too.
    pub(crate) multiple: bool,
    /// Whether it is an ack, else it is a nack.
    pub(crate) ack: bool,
}

/// The settlement that a frame is, if it is one.
pub(crate) fn settlement_of(frame: &Frame) -> Option<Settlement>
    ensures { result ≡ settlement_in frame.now }
{
    match frame {
        Frame::Method(channel, Method::Basic(method)) => settlement_on(*channel, method),
        _ => None,
    }
}

// The same of a method of class basic.
fn settlement_on(channel: u16, method: &BasicMethod) -> Option<Settlement>
    ensures { result ≡ settlement_by channel method.now }
{
    match method {
        BasicMethod::Ack {
            delivery_tag,
            multiple,
        } => Some(Settlement {
            channel,
            number: *delivery_tag,
            multiple: *multiple,
            ack: true,
        }),
        BasicMethod::Nack {
            delivery_tag,
            multiple,
            requeue: _,
        } => Some(Settlement {
            channel,
            number: *delivery_tag,
            multiple: *multiple,
            ack: false,
        }),
        _ => None,
    }
}
