//! The top calls of the program as a library: what it does with its words, a source and a sink.
//!
//! `run_program` does what the words of a command on one thread say, `run_shared` the words `shared N`, `run_pool_program` the words
//! `pool N`; the first two are there for an input in memory too. What a command makes of its input stands in the crates of the
//! commands, how an input is read and what a status says in `lapin_inputs`, what touches the process in the program.
#![tactic(auto)]

mod commands;
mod in_memory;
mod pool;
mod shared;

pub use commands::run_program;
pub use in_memory::{run_in_memory, run_shared_in_memory};
pub use lapin_inputs::Status;
pub use pool::run_pool_program;
pub use shared::run_shared;
