//! Where the connection and each channel of the broker stand, and the moves of the connection. What moves a channel stands with
//! what it keeps.

ghost use Rattle.std.specs.Prelude.{◌≡◌};
ghost use Rattle.lapin_broker.specs.States.{state_of_connection, state_of_peer, owes_connection, owes_peer, connection_after_loss, is_up as is_up_lem, is_broken as is_broken_lem, is_leaving as is_leaving_lem};
ghost use Rattle.lapin_broker.specs.Reads.{after_client_close as after_client_close_lem, after_client_close_ok as after_client_close_ok_lem};
ghost use Rattle.lapin_broker.specs.Sends.{after_own_close_ok as after_own_close_ok_lem};

/// The state of the broker's connection (AMQP 0-9-1, `connection.close`).
#[derive(Clone, Copy, Debug, PartialEq, Eq)]
pub enum BrokerState {
    /// Both sides may speak.
    Up,
    /// It has read the client's close and owes close-ok.
    Leaving,
    /// It has sent its own close, and may owe close-ok to the client's.
    Stopped,
    /// Nothing is read or sent any more.
    Done,
    /// The client sent what it may not send.
    Broken,
}

/// The state of a channel of the broker (AMQP 0-9-1, class channel).
#[derive(Clone, Copy, Debug, PartialEq, Eq)]
pub enum PeerState {
    /// It isn't open.
    Free,
    /// It has read the client's open and hasn't answered.
    Asked,
    /// It is open.
    Open,
    /// It has read the client's close and hasn't answered.
    Leaving,
    /// It has sent its own close and awaits close-ok.
    Stopping,
}

/// The connection, with the mark of what it owes. `state` gives the state alone.
#[derive(Clone, Copy, Debug, PartialEq, Eq)]
pub enum Connection {
    /// Up.
    Up,
    /// Leaving: the client closed, and close-ok is owed.
    Leaving,
    /// Stopped: the broker closed.
    Stopped,
    /// Stopped, and the client closed too: close-ok is owed.
    StoppedOwes,
    /// Leaving after both closed: the client answered this side's close, and close-ok is owed to the client's.
    LeavingStopped,
    /// Done.
    Done,
    /// Broken.
    Broken,
}

/// A channel, with its two marks while it is stopping. `state` gives the state alone.
#[derive(Clone, Copy, Debug, PartialEq, Eq)]
pub enum Peer {
    /// Free.
    Free,
    /// Asked.
    Asked,
    /// Open.
    Open,
    /// Leaving.
    Leaving,
    /// Stopping without a mark.
    Stopping,
    /// Stopping, and close-ok is owed.
    StoppingOwes,
    /// Stopping, close-ok is owed and close-ok was read.
    StoppingAnswered,
}

impl Connection {
    /// The state alone.
    pub fn state(self) -> BrokerState
        ensures { result ≡ state_of_connection self }
    {
        match self {
            Connection::Up => BrokerState::Up,
            Connection::Leaving => BrokerState::Leaving,
            Connection::LeavingStopped => BrokerState::Leaving,
            Connection::Stopped => BrokerState::Stopped,
            Connection::StoppedOwes => BrokerState::Stopped,
            Connection::Done => BrokerState::Done,
            Connection::Broken => BrokerState::Broken,
        }
    }

    /// Whether close-ok is owed.
    pub fn owes(self) -> bool
        ensures { result ≡ owes_connection self }
    {
        matches!(
            self,
            Connection::Leaving | Connection::LeavingStopped | Connection::StoppedOwes
        )
    }

    /// Whether it is up.
    pub fn is_up(self) -> bool
        ensures { result ≡ is_up_lem self }
    {
        matches!(self, Connection::Up)
    }

    /// Whether it is leaving.
    pub fn is_leaving(self) -> bool
        ensures { result ≡ is_leaving_lem self }
    {
        matches!(self, Connection::Leaving | Connection::LeavingStopped)
    }

    /// Whether it is broken.
    pub fn is_broken(self) -> bool
        ensures { result ≡ is_broken_lem self }
    {
        matches!(self, Connection::Broken)
    }

    /// After the client's close was read.
    pub fn after_client_close(self) -> Connection
        ensures { result ≡ after_client_close_lem self }
    {
        match self {
            Connection::Up => Connection::Leaving,
            Connection::Stopped => Connection::StoppedOwes,
            Connection::StoppedOwes => Connection::StoppedOwes,
            Connection::Done => Connection::Done,
            _ => Connection::Broken,
        }
    }

    /// After the client's close-ok was read.
    pub fn after_client_close_ok(self) -> Connection
        ensures { result ≡ after_client_close_ok_lem self }
    {
        match self {
            Connection::Stopped => Connection::Done,
            Connection::StoppedOwes => Connection::LeavingStopped,
            Connection::Done => Connection::Done,
            _ => Connection::Broken,
        }
    }

    /// After the close-ok that is owed was sent.
    pub fn after_own_close_ok(self) -> Connection
        ensures { result ≡ after_own_close_ok_lem self }
    {
        match self {
            Connection::StoppedOwes => Connection::Stopped,
            _ => Connection::Done,
        }
    }

    /// After a loss.
    pub fn lost(self) -> Connection
        ensures { result ≡ connection_after_loss self }
    {
        match self {
            Connection::Broken => Connection::Broken,
            _ => Connection::Done,
        }
    }
}

impl Peer {
    /// The state alone.
    pub fn state(self) -> PeerState
        ensures { result ≡ state_of_peer self }
    {
        match self {
            Peer::Free => PeerState::Free,
            Peer::Asked => PeerState::Asked,
            Peer::Open => PeerState::Open,
            Peer::Leaving => PeerState::Leaving,
            Peer::Stopping => PeerState::Stopping,
            Peer::StoppingOwes => PeerState::Stopping,
            Peer::StoppingAnswered => PeerState::Stopping,
        }
    }

    /// Whether it is stopping and owes close-ok.
    pub fn owes(self) -> bool
        ensures { result ≡ owes_peer self }
    {
        matches!(self, Peer::StoppingOwes | Peer::StoppingAnswered)
    }
}
