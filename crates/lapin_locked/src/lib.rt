//! What lies under the one lock of the running client: a session, the history of its steps, and the book of the callers' shares.
//!
//! One event is one step. It is stored once, as an entry that the history and a caller's log hold together, with the record that the
//! session answered.
//!
//! No lock is taken here: who takes it, callers with their logs and the client stand in `lapin_shared`, which has the names of this
//! crate too. What an event does stands in the session below.
#![tactic(auto)]

mod answering;
mod entry;
mod locked;
mod stored;

pub use entry::{Entry, Told};
pub use locked::{Crew, Locked};
pub use stored::{Logged, Stored};
