//! A joined run of any length: the steps that publish a number of messages over a free broker, each to its ack, and the summary of the
//! run's reports.
//!
//! Each step of a publish is made by its call on the joined run as it comes, and what its report counts is added: neither the step nor the
//! report is made as a value. What a step does and reports stands in `lapin_joint`, what is printed in `lapin_commands`.
#![tactic(auto)]

mod calls;
mod messages;
mod steps;
mod summary;
mod tally;

pub use summary::Summary;
pub use tally::run_generated;
