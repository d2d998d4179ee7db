//! Joined runs: a new session and a new free broker, with a link each way, step by step.
//!
//! Here the two sides meet: a step is an event of the client, or one frame more that is read, sent or delivered, or the loss of both
//! links. What a session answers stands in `lapin_machine`, what a broker reads and may send in `lapin_broker`; no text lives here.
//! Steps and their reports have their text in the crates above.
#![tactic(auto)]

mod joined;
mod laws;
mod links;
mod run;
mod step;

pub use joined::Joined;
pub use laws::links_keep_order;
pub use links::Links;
pub use run::run_joined;
pub use step::{Reported, Step};
