//! The surface for callers: a channel by its number with its calls on a session, the calls of a message's acker, and the session
//! itself.
//!
//! This is the one name under which callers list the session. What a call does, and all that is kept, stands in the machine below.
#![tactic(auto)]

mod access;
mod acker;
mod basic;
mod channel;
mod confirm;
mod exchange;
mod queue;
pub mod registry;
mod tx;

pub use acker::{Acked, AckerCalls};
pub use channel::Channel;
pub use lapin_machine::{
    Consumer, Heard, Published, PublisherConfirm, Session, Ticket, own_close_waits_alone,
    run_session,
};
