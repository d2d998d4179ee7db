//! The calls of a channel and of a session by name, each as one step of a caller: a file a class of the protocol.
//!
//! Every call has the contract of `step` with its own event.

mod access;
mod basic;
mod channel;
mod confirm;
mod exchange;
mod queue;
mod session;
mod tx;
