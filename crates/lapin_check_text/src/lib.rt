//! The text of a check: a transcript is read from the lines of an input, and an account and a finding are written as lines, all
//! exactly.
//!
//! The lines of frames themselves stand in `lapin_text`, and what is found in a transcript in `lapin_check`. The program's commands
//! call this crate.
#![tactic(auto)]

mod findings;
mod parsing;
mod seen;

pub use findings::put_check;
pub use parsing::{ParsedSeen, parse_seen};
pub use seen::read_seen;
