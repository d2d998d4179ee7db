//! The commands of the program as a library: their words, and a file a command with what its input is and what is printed for it.
//!
//! The words are tried, and an input handed to the command that they are, in the crate above (`run_program`). How an input is read,
//! driven line by line and written stands in `lapin_inputs`, and what a line or a step says in the crates below.
#![tactic(auto)]

mod call;
mod check;
mod generate;
mod joined;
mod resend;
mod session;
mod words;

pub use call::OfCalls;
pub use check::OfCheck;
pub use generate::print_generated;
pub use joined::OfJoined;
pub use resend::OfResend;
pub use session::OfSession;
pub use words::{Command, read_words};
