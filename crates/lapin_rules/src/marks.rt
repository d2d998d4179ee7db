//! The small words in which marks speak of settlements and leaving. The marks stand in `specs/`.
//!
//! Plain data alone: nothing here decides anything.

/// Whether the broker took a publish over or refused it (RabbitMQ publisher confirms: `basic.ack`, `basic.nack`).
#[derive(Clone, Copy, Debug, PartialEq, Eq)]
pub enum SettleKind {
    Ack,
    Nack,
}

/// A broker's `basic.ack` or `basic.nack` on a channel.
#[derive(Clone, Copy, Debug, PartialEq, Eq)]
pub struct Settlement {
    pub kind: SettleKind,
    /// The delivery tag of the frame.
    pub tag: u64,
    pub multiple: bool,
}

/// The answer that the leaving of its last frame gives a call's ticket.
#[derive(Clone, Copy, Debug, PartialEq, Eq)]
pub enum AtLeaving {
    /// None: the ticket awaits a reply, or was answered in the call.
    Nothing,
    Done,
    /// A publish: the number of its confirm.
    Confirm(u64),
    /// A call of an acker.
    Yes,
}
