//! A line of a session's input, from its bytes to the line of what it answers.
//!
//! The first word of a line says which call of the session it stands for. What lines mostly say is read, asked of the session by
//! that call and written from the call's own answer, with neither an event nor a record in between; every other line goes by its
//! event and its record. What a line says and how an answer is written stands in `lapin_text`, what a call does in `lapin_machine`.
#![tactic(auto)]

mod asking;
mod laws;
mod line;
mod polls;
mod receiving;
mod requests;
mod steps;

pub use laws::a_line_fixes_what_is_kept;
pub use line::take_line;
