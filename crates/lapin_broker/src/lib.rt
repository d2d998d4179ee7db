//! The free broker: what a broker reads and may send, over every choice that the protocol leaves it (AMQP 0-9-1, with
//! RabbitMQ's publisher confirms).
//!
//! Here stand one side of a connection, as values without sockets, and its rules: `Broker` reads a client's frames, tells which
//! frames it may send and sends them, and `PlainBroker` picks one of those. Of the session nothing is known here: the links
//! between the two, and runs of both, stand in the crates above.
//!
//! Each frame is sorted once, into a `ClientFrame` or a `BrokerFrame`, and every rule goes by these kinds.
#![tactic(auto)]

pub mod broker;
mod channel;
pub mod content;
pub mod frames;
pub mod laws;
mod numbers;
pub mod peer;
pub mod plain;
pub mod request;
mod tags;

pub use broker::Broker;
pub use peer::{BrokerState, PeerState};
pub use plain::PlainBroker;
