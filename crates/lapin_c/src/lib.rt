//! The library for callers in C, and in every language that calls C: the opening of a connection, its heartbeats, and a session behind a
//! handle.
//!
//! Here stand the exports alone, and the handle by which C holds a client. What they do stands in `lapin_client` and `lapin_handshake`.
#![tactic(auto)]

mod calls;
mod exports;
mod handle;
mod opening;
mod pointer;
mod ready;
mod returns;

pub use handle::Handle;
pub use opening::Opening;
pub use pointer::Pointer;
