//! What a drop tells of the entry that it took out. The outbox's drops answer it, and the session resolves what it names.

/// An entry that was taken out before it left.
#[derive(Clone, Copy, Debug, PartialEq, Eq, Drop)]
pub struct Dropped {
    /// The ticket with which the method or the publish was pushed.
    pub ticket: Option<u64>,
    /// The confirm number of the publish; `None` for a method.
    pub publish: Option<u64>,
}
