//! The command `pool N` as a library: one caller of a session makes the events of an input, and then N others work on the deliveries that
//! these brought.
//!
//! `answer` parses, runs and writes. Its words are tried and its input is read in the crate above (`run_pool_program`). Writing and the
//! status are those of `lapin_inputs`, the text of a history that of `lapin_shared_commands`; what the working callers do stands in
//! `lapin_pool`.
#![tactic(auto)]

mod answering;
mod first_byte;
mod printing;
mod running;

pub use answering::answer;
