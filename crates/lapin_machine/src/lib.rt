//! A session without sockets: calls, frame requests, broker frames and polls go in, records come out.
//!
//! Here the parts (outbox, requests, contents, consumers with ackers, confirms, tickets) are put together by their contracts alone. No
//! text and no lock lives here. `step` is the one door over all events, and `run_session` runs a list of them.
#![tactic(auto)]

mod acking;
mod calling;
mod channel;
mod closing;
mod consuming;
mod laws;
mod polling;
mod receiving;
mod receiving_closes;
mod receiving_consumers;
mod receiving_contents;
mod run;
mod sending;
mod session;
mod whole;

pub use channel::{Consumer, Heard, Published, PublisherConfirm, Ticket};
pub use laws::{
    a_frame_given_back_goes_with_its_channel, a_frame_given_back_waits, a_step_goes_on,
    an_event_uses_one_number, own_close_waits_alone,
};
pub use run::run_session;
pub use session::Session;
