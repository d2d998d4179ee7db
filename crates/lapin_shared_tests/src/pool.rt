//! A work queue of several threads: `run_pool` and the command `pool N`. Which worker takes which job is settled by a gate, or doesn't
//! matter.

mod command;
mod examples;
mod many;
mod meeting;
mod stepping;
