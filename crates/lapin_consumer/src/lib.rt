//! Consumers, jobs and ackers: who is handed what, and what may still be acknowledged.
//!
//! Here lives what becomes of a delivery once it is whole. Frames, requests and the states of channels are the session's,
//! which calls this crate. Contracts see a `Subscriptions`, and `machine_follows` says that a subscriptions that is changed by these calls is
//! always what the history of its marks says.
#![tactic(auto)]

mod consumers;
mod hall;
pub mod laws;
mod line;
mod seat;
mod serving;
mod state;

pub use consumers::Consumers;
pub use lapin_acker::{
    BoxedDelegate, ConsumerDelegate, Delegates, FnDelegate, Handler, Switch, Switches, Verdict,
};
pub use state::ConsumerState;
