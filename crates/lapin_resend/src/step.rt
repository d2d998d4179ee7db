//! The steps of a publisher that sends again, and what each reports.

use crate::message::Message;
use lapin_joint::Reported;
use lapin_types::Frame;

/// A step. What steps come in which order is free.
#[derive(Debug, Drop)]
pub enum ResendStep {
    /// A message is submitted.
    Submit(Message),
    /// The session hands a frame out.
    Next,
    /// The broker reads the front of the link up.
    Read,
    /// The broker sends a frame, where it may.
    Send(Frame),
    /// The session receives the front of the link down.
    Deliver,
    /// Both links are lost; a new session and a new broker begin.
    Lose,
    /// Asks for a message's state.
    Status(u64),
}

/// What a step reports.
#[derive(Debug, Drop)]
pub enum ResendReport {
    /// The number of the message that was submitted, from 1.
    Message(u64),
    /// What the step of the joined run reports.
    Joined(Reported),
    /// The message isn't stored.
    Waiting,
    /// The message is stored.
    Stored,
    /// No message has this number.
    Unknown,
}
