//! Which channels are full, as whoever holds publishes back asks for it, and the set of channel numbers by which 64 are asked at once.
//!
//! The outbox, which hands publishes out, doesn't know of confirms; the confirms, which count what is outstanding, don't know of
//! publishes that wait. What stands here is all that is between them.
#![tactic(auto)]

mod bits;
mod channel_set;
mod full_channels;

pub use channel_set::ChannelSet;
pub use full_channels::FullChannels;
