//! Callers of the session, to be read and copied: a publisher with a window of confirms, what it does with each outcome, how it
//! goes on after a loss, a worker that polls for its messages, and the socket's thread of the running client.
//!
//! They are proved like any code, over the contracts of the session and of the running client alone. The program calls none of them.
#![tactic(auto)]

mod outcomes;
mod publisher;
mod reconnect;
mod socket;
mod worker;

pub use outcomes::{Advice, advice_on};
pub use publisher::{Message, Publisher, Settled, Waiting};
pub use reconnect::{after_loss, open_again};
pub use socket::{Sent, Socket, hang_up, hear, send_all};
pub use worker::{Fate, Handled, Handler, Turn, send_fate, take_one};
