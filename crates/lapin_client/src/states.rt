//! The states of the connection and of a channel, by number, and the loss of the connection.
ghost use Rattle.std.specs.Prelude.{◌≡◌};
ghost use Rattle.lapin_client.specs.Clients.{IsSound};
ghost use Rattle.lapin_client.specs.Counts.{OneWhereDone};
ghost use Rattle.lapin_client.specs.States.{IsLost, connection_number as connection_number_lem, states_of};

use crate::client::Client;
use crate::refusals::channel_number;
use crate::status::Status;
use lapin_types::{ConnectionState, NoMemory};
use std::alloc::Global;

/// The states of the connection and of a channel, by number.
#[derive(Clone, Copy, Debug, PartialEq, Eq)]
#[repr(C)]
pub struct States {
    /// That of the connection.
    pub connection: u32,
    /// That of the channel.
    pub channel: u32,
}

impl Client {
    /// The states of the connection and of a channel now. It is no step of the session.
    pub fn states(&self, channel: u16) -> States
        ensures { result ≡ states_of channel self.now.session.wire }
    {
        States {
            connection: connection_number(self.session.connection_state()),
            channel: channel_number(self.session.channel_state(channel)),
        }
    }

    /// The connection is gone: nothing leaves any more, and all that is open fails. `NoMemory`, `Ended`: nothing was done.
    pub fn lost(&mut self, alloc: Global) -> Status
        requires { IsSound self.old }
        ensures sound { IsSound self.new }
        ensures told { IsLost result self.old self.new }
        ensures count { OneWhereDone result self.old self.new }
    {
        if self.left == 0 {
            return Status::Ended;
        }
        match self.session.lost(alloc) {
            Ok(()) => {
                self.left -= 1;
                Status::Done
            }
            Err(NoMemory) => Status::NoMemory,
        }
    }
}

// The number of a connection's state.
fn connection_number(state: ConnectionState) -> u32
    ensures { result ≡ connection_number_lem state }
{
    match state {
        ConnectionState::Open => 0,
        ConnectionState::Closing => 1,
        ConnectionState::Closed => 2,
        ConnectionState::Lost => 3,
    }
}
