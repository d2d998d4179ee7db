//! A call at each element of a list, each on a thread of its own where one can be made. Nothing of a session stands here.
#![tactic(auto)]

mod each;
mod tally;

pub use each::each_mut;
pub use tally::{Tally, tally_mut};
