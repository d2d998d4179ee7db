//! From a source to a sink: an input is read whole, answered, and what that writes goes out; how that ended is a status.
//!
//! What a command makes of an input is a trait (`answer`); most make a run that the input's lines drive (`run`, `printing`). The commands
//! themselves stand in the crates above, and what touches the process in the program.
#![tactic(auto)]

mod answer;
mod input;
mod output;
mod printing;
mod run;
mod status;

pub use answer::{Answers, ByLine, answer_input};
pub use input::{InputError, read_all};
pub use output::write_all;
pub use printing::{put_bad_line, put_number};
pub use run::Run;
pub use status::Status;
