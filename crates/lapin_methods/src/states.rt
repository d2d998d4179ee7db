//! The states of a connection and of a channel.
//!
//! Here stand their names alone. The moves between them stand in the crates above.

/// The state of the connection.
#[derive(Clone, Copy, Debug, PartialEq, Eq)]
pub enum ConnectionState {
    /// In use. A new session's connection is open.
    Open,
    /// A close is under way.
    Closing,
    /// Closed by both sides.
    Closed,
    /// Gone without a close.
    Lost,
}

/// The state of a channel.
#[derive(Clone, Copy, Debug, PartialEq, Eq)]
pub enum ChannelState {
    /// Not open.
    Closed,
    /// `channel.open` was called, and the broker's answer is awaited.
    Opening,
    /// In use.
    Open,
    /// A close of this side is under way.
    Closing,
    /// The broker's close came while this side's own close was on its way.
    Crossed,
    /// Channel 0, which is the connection's own, while the connection is open.
    Base,
    /// The connection isn't open.
    Down,
}
