//! The text of a joined run: its steps are read from the lines of an input, and its reports are written as lines, both exactly.
//!
//! A step's line holds an event or a frame behind a word, and a report's line a record or a word. The lines of events, frames and
//! records themselves stand in `lapin_text`, and what a step does in `lapin_joint`. The program's commands call this crate.
#![tactic(auto)]

mod laws;
mod parsing;
mod reports;
mod steps;

pub use laws::{one_step_line, steps_parsed_as_printed};
pub use parsing::{ParsedSteps, parse_steps};
pub use reports::{print_reports, put_report};
pub use steps::{client_event, read_sent, read_step, sent_frame};
