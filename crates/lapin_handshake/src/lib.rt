//! The first frames of a connection (AMQP 0-9-1, section 2.2.4), its heartbeats (section 4.2.7), and what the broker says of its room
//! (RabbitMQ, `connection.blocked`), without a socket and without a clock.
//!
//! Bytes of the broker go in, bytes for it come out; times are the caller's. It ends with the limits that both sides keep, of which a
//! session is made. How a frame is laid out stands in `lapin_fields`.
#![tactic(auto)]

mod caller;
mod clock;
mod fault;
mod handshake;
mod laws;
mod mechanism;
mod said;
mod saying;
mod shaking;
mod start;
mod texts;
mod words;

pub use caller::{Caller, check_pairs};
pub use clock::{Beat, Clock};
pub use fault::Unsaid;
pub use handshake::{Handshake, Limits, Refusal, Reply, Stage};
pub use laws::{external_tells_nobody, said_locales_have_room, said_mechanisms_are_listed};
pub use mechanism::{Mechanism, Offers};
pub use said::{Said, read_said};
pub use saying::{put_heartbeat, put_protocol_header, put_reply};
pub use shaking::{Shaken, shake};
pub use start::{Place, Start, properties_place, read_start};
