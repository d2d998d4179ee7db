//! The steps of a joined run, and what each reports.

use lapin_types::{Event, Frame, Record};

/// A step of a joined run. What steps come in which order is free.
#[derive(Debug, Drop)]
pub enum Step {
    /// The session meets an event: a call, a frame request, a poll or a question. A broker's frame and the loss are no events of the
    /// client alone: they are not lawful here, and come by `Deliver` and `Lose`.
    Client(Event),
    /// The broker reads the front of the link up.
    Read,
    /// The broker sends a frame, where it may: the frame goes to the back of the link down.
    Send(Frame),
    /// The session receives the front of the link down.
    Deliver,
    /// Both links are emptied, the session meets the loss, and the broker is silent from then on.
    Lose,
}

/// What a step reports. One that reports `Nothing` or `NotLawful` changed nothing.
#[derive(Debug, Drop)]
pub enum Reported {
    /// The record of the session's event.
    Client(Record),
    /// The broker read a frame.
    Read,
    /// The broker sent the frame.
    Sent,
    /// The record of the frame that the session received.
    Delivered(Record),
    /// The link is empty.
    Nothing,
    /// The event isn't one of the client alone, or the broker may not send the frame.
    NotLawful,
    /// Both links are lost.
    Lost,
}
