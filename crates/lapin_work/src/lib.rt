//! Workers of the running client: callers that take the jobs of consumers, ask their delegates, and make the verdicts steps.
//!
//! A job is taken in one step and its verdict sent in another; between them the delegate is called, outside the lock. What a step does
//! stands in the crates below, and so does who a consumer's delegate is and what its verdict asks of an acker. Threads are dealt out by
//! `lapin_threads`.
#![tactic(auto)]

mod decision;
mod turn;
mod turns;
mod work;
mod workers;

pub use decision::delivery_of;
pub use turn::{job_of, take_job};
pub use work::{Work, Works};
pub use workers::run_workers;
