//! The running client: one session that several threads share.
//!
//! One lock lies round the session, and one event is one step under it. What the threads did is stored under the lock as a history, and
//! each thread's end, its `Caller`, keeps a log of its own steps. `Client::finish` takes all callers back and gives the history, which
//! is one that a single session could have told, and an interleaving of the logs.
//!
//! What lies under the lock, and a step on it, stands in `lapin_locked`, whose names stand here again; what an event does in the session
//! below. Text, commands and workers, which take jobs of consumers and call their delegates, stand above.
#![tactic(auto)]

mod caller;
mod calls;
mod client;
mod gate;
mod hand;
mod history;
mod laws;

pub use caller::{Caller, StepError};
pub use client::{Client, FinishError};
pub use gate::{Gate, OpenGate};
pub use history::History;
pub use lapin_locked::{Crew, Entry, Locked, Logged, Stored, Told};
pub use laws::{ackers_are_used_once, fresh_callers_are_apart, interleaves};
