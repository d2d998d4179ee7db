//! The transcript of a joined run: what its broker read and sent, in order.
//!
//! What a joined run does stands in `lapin_joint`, what is found in a transcript in `lapin_check`.
#![tactic(auto)]

mod laws;
mod transcript;

pub use laws::a_joined_run_is_fine;
pub use transcript::transcript_of;
