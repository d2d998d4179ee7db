//! The text of calls over queues: the step of a line, and the line of a report, both exactly.
//!
//! The lines of events and records themselves stand in `lapin_text`, and what a step does in `lapin_call`. The program's commands call
//! this crate.
#![tactic(auto)]

mod reports;
mod steps;

pub use reports::put_report;
pub use steps::read_step;
