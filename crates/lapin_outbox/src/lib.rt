//! The order in which frames leave, and the open requests of each channel.
//!
//! Here live the three lists of frames that wait (what follows a begun publish, methods, publishes), the frame that was given
//! back, the poison that pushes meet, the drops that take out what will not leave, and the requests that wait for their replies.
//! Neither part knows of the state of a channel, of a tag or of a ticket's answer: the session decides what is queued, given
//! back, dropped and expected, tells which channels are full, and calls these two parts for their order alone.
#![tactic(auto)]

mod begun;
mod bodies;
mod channel_queue;
mod dropped;
mod ends;
pub mod laws;
mod named;
mod order;
pub mod outbox;
mod passing;
mod queues;
pub mod replies;
mod requests;

pub use dropped::Dropped;
pub use lapin_types::{Left, Publish, Reply, ReplyKind, Request};
pub use outbox::{Outbox, Pushed};
pub use replies::Replies;
