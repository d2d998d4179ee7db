//! Headers and bodies to whole messages (AMQP 0-9-1, section 4.2.6, "Content Framing").
//!
//! A method that carries content is followed by a header and bodies on its channel. Here each channel has the list of the
//! contents that it expects, and what comes goes to the front of it. What a whole message means, and what follows a frame
//! that isn't expected, stands in the crates above.
#![tactic(auto)]

mod begun;
mod contents;
mod entry;
pub mod laws;
mod queue;
mod start;

pub use contents::Contents;
pub use start::{Start, Whole};
