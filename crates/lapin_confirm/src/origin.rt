//! Where a publish belongs, beside what became of it.

/// What is kept of a publish, whatever became of it, until its result is given.
#[derive(Clone, Copy, Debug, PartialEq, Eq)]
pub struct Origin {
    /// The channel on which it was accepted.
    pub channel: u16,
    /// Whether it was set aside, unresolved as it then was.
    pub aside: bool,
}
