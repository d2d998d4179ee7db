//! What of a running client may cross threads: its callers, and the events that they make.
//!
//! Each law stands on a function that does nothing. Whoever hands callers to threads uses the lemmas in proofs/ where a call asks for
//! `Send` of a caller, or for `Sync` of what holds events. Nothing is run here.
#![tactic(auto)]

mod laws;

pub use laws::{callers_may_move, events_may_be_shared};
