//! Where the connection and its channels stand between their opens and closes.
//!
//! Plain data: a state as a caller sees it, and beside it what the rules of closing ask of the past (who closed, whether
//! the close has left). What moves them stands in one table for channels and one for the connection, `after`; nothing else does.

ghost use Rattle.std.specs.Prelude.{◌≡◌};
ghost use Rattle.lapin_rules.specs.Phases.{is_live as is_live_lem, is_paused as is_paused_lem, is_up as is_up_lem, channel_state, connection_state};
ghost use Rattle.lapin_rules.specs.Moves.{after as after_lem, link_after as link_after_lem};

use lapin_types::{ChannelState, ConnectionState};

/// Which side of this side's code began a close.
#[derive(Clone, Copy, Debug, PartialEq, Eq)]
pub enum Closer {
    /// The application, by its call.
    Application,
    /// The session itself, after a single settlement of a tag that was not pending.
    Session,
}

/// Where a channel above 0 stands while the connection is open.
#[derive(Clone, Copy, Debug, PartialEq, Eq)]
pub enum ChannelPhase {
    /// Not open.
    Closed,
    /// `channel.open` was called, and `channel.open-ok` is awaited.
    Opening,
    /// In use.
    Open {
        /// Whether the broker's last `channel.flow` paused it.
        paused: bool,
    },
    /// A close of this side is under way.
    Closing {
        /// Who began it.
        closer: Closer,
        /// Whether this side's `channel.close` has left.
        sent: bool,
    },
    /// The broker's close came after this side's had left; the broker's `channel.close-ok` is awaited.
    Crossed,
}

/// How far a close of the connection by this side has come.
#[derive(Clone, Copy, Debug, PartialEq, Eq)]
pub enum CloseStage {
    /// `connection.close` waits to leave.
    Queued,
    /// It has left.
    Sent,
    /// It has left, and the broker's first `connection.close` came since; the broker's `connection.close-ok` is awaited.
    Crossed,
}

/// Where the connection stands.
#[derive(Clone, Copy, Debug, PartialEq, Eq)]
pub enum ConnectionPhase {
    /// In use.
    Open,
    /// A close of this side is under way.
    Closing(CloseStage),
    /// Closed by both sides.
    Closed,
    /// Gone without a close.
    Lost,
}

/// What moves a channel above 0 while the connection is open (AMQP 0-9-1, channel class).
#[derive(Clone, Copy, Debug, PartialEq, Eq)]
pub enum ChannelMove {
    /// The application calls `channel.open`.
    OpenCalled,
    /// The broker answers `channel.open-ok`.
    OpenOk,
    /// The broker's `channel.flow`.
    Flow {
        /// Whether publishes may go on; false pauses the channel.
        active: bool,
    },
    /// A close of this side begins.
    CloseBegun(Closer),
    /// This side's `channel.close` leaves.
    CloseLeft,
    /// The broker's `channel.close`.
    Close,
    /// The broker's `channel.close-ok`.
    CloseOk,
}

/// What moves the connection (AMQP 0-9-1, connection class).
#[derive(Clone, Copy, Debug, PartialEq, Eq)]
pub enum ConnectionMove {
    /// A close of this side begins: by the call, or because of a frame that no rule hears.
    CloseBegun,
    /// This side's `connection.close` leaves.
    CloseLeft,
    /// The broker's `connection.close`.
    Close,
    /// The broker's `connection.close-ok`.
    CloseOk,
    /// The connection is gone.
    Lost,
}

impl ChannelPhase {
    /// Where a move leads from here.
    pub fn after(self, happening: ChannelMove) -> ChannelPhase
        ensures { result ≡ after_lem self happening }
    {
        match happening {
            ChannelMove::OpenCalled => ChannelPhase::Opening,
            ChannelMove::OpenOk => ChannelPhase::Open { paused: false },
            ChannelMove::Flow { active } => ChannelPhase::Open { paused: !active },
            ChannelMove::CloseBegun(closer) => ChannelPhase::Closing {
                closer,
                sent: false,
            },
            ChannelMove::CloseLeft => self.with_close_left(),
            ChannelMove::Close => match self {
                ChannelPhase::Closing { sent: true, .. } => ChannelPhase::Crossed,
                _ => ChannelPhase::Closed,
            },
            ChannelMove::CloseOk => ChannelPhase::Closed,
        }
    }

    fn with_close_left(self) -> ChannelPhase
        ensures { result ≡ after_lem self ChannelMove.CloseLeft }
    {
        match self {
            ChannelPhase::Closing { closer, .. } => ChannelPhase::Closing { closer, sent: true },
            phase => phase,
        }
    }

    /// Whether the channel has a live opening: it was opened and has not ended.
    pub fn is_live(self) -> bool
        ensures { result ≡ is_live_lem self }
    {
        matches!(
            self,
            ChannelPhase::Opening | ChannelPhase::Open { .. } | ChannelPhase::Closing { .. }
        )
    }

    /// Whether the channel is open and the broker paused it.
    pub fn is_paused(self) -> bool
        ensures { result ≡ is_paused_lem self }
    {
        matches!(self, ChannelPhase::Open { paused: true })
    }

    /// The channel's state, as a caller sees it while the connection is open.
    pub fn state(self) -> ChannelState
        ensures { result ≡ channel_state self }
    {
        match self {
            ChannelPhase::Closed => ChannelState::Closed,
            ChannelPhase::Opening => ChannelState::Opening,
            ChannelPhase::Open { .. } => ChannelState::Open,
            ChannelPhase::Closing { .. } => ChannelState::Closing,
            ChannelPhase::Crossed => ChannelState::Crossed,
        }
    }
}

impl ConnectionPhase {
    /// Where a move leads from here.
    pub fn after(self, happening: ConnectionMove) -> ConnectionPhase
        ensures { result ≡ link_after_lem self happening }
    {
        match happening {
            ConnectionMove::CloseBegun => ConnectionPhase::Closing(CloseStage::Queued),
            ConnectionMove::CloseLeft => match self {
                ConnectionPhase::Closing(CloseStage::Queued) => ConnectionPhase::Closing(
                    CloseStage::Sent,
                ),
                link => link,
            },
            ConnectionMove::Close => match self {
                ConnectionPhase::Closing(CloseStage::Sent | CloseStage::Crossed) => {
                    ConnectionPhase::Closing(CloseStage::Crossed)
                }
                _ => ConnectionPhase::Closed,
            },
            ConnectionMove::CloseOk => ConnectionPhase::Closed,
            ConnectionMove::Lost => ConnectionPhase::Lost,
        }
    }

    /// Whether the connection is open.
    pub fn is_up(self) -> bool
        ensures { result ≡ is_up_lem self }
    {
        matches!(self, ConnectionPhase::Open)
    }

    /// The connection's state, as a caller sees it.
    pub fn state(self) -> ConnectionState
        ensures { result ≡ connection_state self }
    {
        match self {
            ConnectionPhase::Open => ConnectionState::Open,
            ConnectionPhase::Closing(_) => ConnectionState::Closing,
            ConnectionPhase::Closed => ConnectionState::Closed,
            ConnectionPhase::Lost => ConnectionState::Lost,
        }
    }
}
