//! The command `shared N` as a library: N callers of one session make the events of an input, each caller on a thread of its own.
//!
//! `answer` parses, runs and writes. What the callers did is one history, and the text is that history's. Its words are tried and its
//! input is read in the crate above (`run_shared`). Writing and the status are those of `lapin_inputs`; what a caller's step does stands
//! in `lapin_shared`.
#![tactic(auto)]

mod answering;
mod printing;
mod running;
mod shifts;
mod turns;
mod words;

pub use answering::answer;
pub use printing::put_history;
pub use turns::is_made;
pub use words::{counted, shared_callers};
