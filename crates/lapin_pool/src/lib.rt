//! A work queue of several threads: callers of the running client that take deliveries as jobs, ask a duty for a verdict outside the
//! lock, and make it a step; and a card of each delivery that they took.
//!
//! What a step does stands in `lapin_shared`, what a verdict asks of an acker in `lapin_acker`. Threads are dealt out by
//! `lapin_threads`; no text lives here.
#![tactic(auto)]

mod card;
mod duty;
mod ending;
mod pool;
mod seat;
mod seating;
mod turn;

pub use card::{Card, PoolEnd, Sent};
pub use duty::{Duty, last_verdict};
pub use pool::run_pool;
