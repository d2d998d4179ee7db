//! Cards: what became of each delivery that the working callers took.

use lapin_acker::Verdict;
use lapin_shared::History;

/// What became of a verdict.
#[derive(Clone, Copy, Debug, PartialEq, Eq)]
pub enum Sent {
    /// It was made a step, which stands in the history at this place.
    Placed(u64),
    /// There was no memory for its step, or none to read the delivery.
    Unsent,
    /// It asks for none.
    Silent,
}

/// A delivery that a working caller took.
#[derive(Clone, Copy, Debug, PartialEq, Eq)]
pub struct Card {
    /// The caller's number.
    pub caller: u64,
    /// Where the step that took it stands in the history, from 1.
    pub place: u64,
    /// The number of its acker.
    pub acker: u64,
    /// What was decided about it; none where there was no memory to read it.
    pub verdict: Option<Verdict>,
    /// What became of that.
    pub sent: Sent,
}

/// What the working callers leave: the history of the whole session, and a card of each delivery that they took, rising by place.
#[derive(Drop)]
pub struct PoolEnd {
    pub history: History,
    pub cards: Vec<Card>,
}
