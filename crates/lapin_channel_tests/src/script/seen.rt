//! What is seen of a session without changing it.

use lapin_session::Session;
use lapin_types::{ChannelState, ConnectionState};

/// The numbers that are looked at, from 1.
const MOST: u64 = 40;

/// The states of the connection and of three channels, which tickets and confirms are ready, and what waits.
#[derive(Clone, Copy, Debug, PartialEq, Eq)]
pub struct Seen {
    connection: ConnectionState,
    first: ChannelState,
    second: ChannelState,
    third: ChannelState,
    tickets: u64,
    confirms: u64,
    waits: bool,
    retries: bool,
    last_tag: u64,
    pending: usize,
}

/// What is seen now.
pub fn seen_in(session: &Session) -> Seen {
    let mut tickets: u64 = 0;
    let mut confirms: u64 = 0;
    for number in 1..=MOST {
        tickets = tickets
            .wrapping_mul(2)
            .wrapping_add(u64::from(session.ticket_ready(number)));
        confirms = confirms
            .wrapping_mul(2)
            .wrapping_add(u64::from(session.confirm_ready(number)));
    }
    Seen {
        connection: session.connection_state(),
        first: session.channel_state(1),
        second: session.channel_state(2),
        third: session.channel_state(3),
        tickets,
        confirms,
        waits: session.outbox().has_pending(),
        retries: session.retrying(),
        last_tag: session.confirms().current(1),
        pending: session.confirms().pending(1),
    }
}
