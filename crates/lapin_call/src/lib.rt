//! Requests and replies over queues: calls that are published as requests, and the replies that a queue brings.
//!
//! A caller's session with its calls stands in `calls`, what a step of it is in `step`, and a run of steps in `run`; the other side, which
//! answers requests, in `server`. What a session does
//! with an event stands in the crates below; no text lives here.
#![tactic(auto)]

mod asking;
mod calls;
mod collecting;
mod fates;
mod laws;
mod requester;
mod run;
mod server;
mod step;

pub use calls::Calls;
pub use fates::{Fate, Tally};
pub use laws::{
    a_delivery_is_counted_once, a_run_counts_each_delivery_once,
    a_server_is_done_with_each_request_once, the_first_reply_answers,
    the_first_reply_of_a_run_answers,
};
pub use run::run_calls;
pub use server::{Held, Polled, Sent, Served, Server};
pub use step::{CallReport, CallStep};
