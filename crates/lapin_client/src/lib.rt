//! A session with the bytes of its connection: calls go in as the octets of their methods and replies come out by their fields and octets,
//! frames leave as bytes and come as bytes, in whatever pieces.
//!
//! Sockets and the opening of a connection stand outside. How a method and a frame are laid out stands in `lapin_frames`, what a call does in the
//! session.
#![tactic(auto)]

mod answers;
mod asking;
mod calls;
mod client;
mod closes;
mod inlet;
mod laws;
mod message;
mod parcel;
mod ready;
mod receiving;
mod refusals;
mod replies;
mod returns;
mod sending;
mod states;
mod status;

pub use answers::Handed;
pub use calls::Fate;
pub use client::Client;
pub use closes::{Close, CloseReason};
pub use inlet::Inlet;
pub use laws::{
    nothing_has_begun_in_an_idle_session, the_last_close_is_kept,
    what_came_as_octets_lies_as_it_is_told,
};
pub use message::Message;
pub use parcel::{Parcel, copy_out};
pub use refusals::Refusal;
pub use replies::Fields;
pub use returns::Returned;
pub use states::States;
pub use status::Status;
