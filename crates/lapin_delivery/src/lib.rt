//! What the consumers of a connection were handed, the ackers of it all, and what its channels declared, as one machine with one mark
//! for each happening.
//!
//! Here the parts (consumers with their jobs, ackers, registries) are moved together by their contracts alone: each delivery gets its acker,
//! and the end of a channel ends both. When one of this happens stands in the crates above, and what it does to each part in the
//! crates below.
#![tactic(auto)]

mod arriving;
mod deliveries;
pub mod laws;
mod leaving;
mod reading;
mod topology;

pub use deliveries::Deliveries;
