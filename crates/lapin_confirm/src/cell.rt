//! What is kept of a publish until its result is given.
//!
//! Small and plain: a message that was returned is kept elsewhere.

use lapin_types::Outcome;

/// What is kept of a publish until its result is given.
#[derive(Clone, Copy, Debug, PartialEq, Eq)]
pub enum Cell {
    /// It was accepted on this channel, and its method frame has not left.
    Queued(u16),
    /// It took this tag of this channel as its method frame left, and waits for a settlement.
    Pending(u16, u64),
    /// Its outcome is there.
    Resolved(Outcome),
}
