//! Containers that the parts of the session are built on, with their laws.
//!
//! `ByChannel` holds one value per channel number, and `Numbered` holds values that are numbered from 1 and taken once. `Packed` does so
//! too, and holds those that are `Marked` by two bits each once they are old.
//! Nothing of AMQP but the channel number lives here. The crates of the parts call it, and cite the words of `specs/`.
#![tactic(auto)]

mod block;
mod by_channel;
mod marked;
mod numbered;
mod packed;

pub use by_channel::ByChannel;
pub use marked::Marked;
pub use numbered::Numbered;
pub use packed::Packed;
