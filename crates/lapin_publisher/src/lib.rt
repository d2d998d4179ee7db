//! A publisher that keeps its messages: each message that is handed to it is kept until a broker has answered for it, over as many
//! sessions as that takes.
//!
//! In each turn it asks for what became of its publishes, opens its channel, has it confirm, and publishes what waits, in the order of its
//! numbers and no more at a time than it is allowed. What becomes of a message stands in `lapin_keeping`. No socket and no clock lives here.
//!
//! What a turn costs goes by what is kept, and not by what became known: all that is kept is walked four times, and each outstanding publish that
//! is still pending is asked for twice. It may not end at the first that is pending, since a broker may tell acks in another order, and a message
//! that came back is given with the confirm that is settled next: a later one may bring the message of an earlier.
#![tactic(auto)]

mod laws;
mod polling;
mod publisher;
mod publishing;
mod turn;

pub use lapin_keeping::{Fate, Message, Run, Stand};
pub use laws::{
    each_message_is_kept_or_told_once, no_two_messages_share_a_confirm, what_is_due_is_out,
    what_is_kept_stays_in_order,
};
pub use publisher::Publisher;
pub use turn::Turn;
