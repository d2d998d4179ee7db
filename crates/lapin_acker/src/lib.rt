//! Who handles a delivery: ackers, each used at most once, and the delegates that consumers are given.
//!
//! Here lives which acker may still be used and which delegate a consumer has. When a delivery comes, and what an acker's call
//! puts on the wire, stands in the crates above.
#![tactic(auto)]

mod blocks;
mod cells;
mod delegate;
pub mod laws;
mod passed;
mod switch;
mod switches;
mod verdict;

pub use delegate::{BoxedDelegate, ConsumerDelegate, Delegates, FnDelegate, Handler};
pub use switch::Switch;
pub use switches::Switches;
pub use verdict::Verdict;
