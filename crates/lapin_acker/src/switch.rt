//! What is known of one acker.

/// What is known of an acker.
#[derive(Clone, Copy, Debug, PartialEq, Eq)]
pub enum Switch {
    /// It may be used: its channel and delivery tag.
    Usable(u16, u64),
    /// It was used, or what it acknowledges is void; the opening of its channel has not ended.
    Used(u16),
    /// Its opening ended.
    Over,
}
