//! A checker of transcripts: whether a free broker reads every frame of a client that was seen, and may send every frame of a
//! broker that was; and an account of the publishes that it numbered, each with the settlement that covers it.
//!
//! A transcript is a list of frames, each up from the client or down to it, in the order in which a broker read and sent them; its
//! places count from 1. What the broker reads and may send stands in `lapin_broker`, text in the crates above.
#![tactic(auto)]

mod account;
mod breaking;
mod finding;
mod refusing;
mod seen;
mod transcript;
mod unsettled;
mod watch;

pub use account::{Counted, Settled};
pub use finding::{BreakRule, Finding, SendRule};
pub use seen::Seen;
pub use transcript::check;
