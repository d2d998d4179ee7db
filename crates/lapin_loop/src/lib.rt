//! What every caller's loop needs, over the session's public calls alone: all that waits is sent and all that came is heard, a ticket
//! tells the answer that its call has, a channel's number is free, something is ready.
//!
//! Nothing of a session's rules stands here. There is no socket and there are no bytes: a `Wire` is whoever has them.
#![tactic(auto)]

mod answers;
mod channels;
mod given_back;
mod turns;
mod waiting;
mod watch;

pub use answers::{
    Typed, answer_of, poll_channel, poll_consumer, poll_count, poll_done, poll_flow, poll_got,
    poll_queue,
};
pub use channels::free_channel;
pub use given_back::give_back;
pub use turns::{Rest, Turn, Wire, drive, make_turn};
pub use waiting::has_frames;
pub use watch::{Awaited, Watch, is_ready};
