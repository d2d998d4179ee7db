//! The text of a publisher that sends again: a step is read from a line, and a report is written as one, exactly.
//!
//! The lines of frames and of the reports of joined runs stand in `lapin_text` and `lapin_joint_text`, and what a step does in
//! `lapin_resend`. The program's commands call this crate.
#![tactic(auto)]

mod messages;
mod reports;
mod steps;

pub use reports::put_resend_report;
pub use steps::read_resend_step;
