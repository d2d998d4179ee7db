//! Laws over runs: what holds after every list of events, each on a function that does nothing.
//!
//! A law here follows from the definitions of the crates below; nothing else lives here, and no code of a session. They are
//! what a reader looks for in the rules without running them through.
//!
//! Not stated here: that each open ticket which a leaving frame answers stands with that frame. That no ticket is left open is said
//! where it ends: of an opening, of the connection (the laws of tickets), and of a loss (`down_for_good`).
#![tactic(auto)]

mod consuming;
mod down;
mod leaving;
mod limits;
mod messages;
mod owed;
mod registry;
mod rejections;
mod standing;
mod waiting;

pub use consuming::{an_acker_is_used_once, consumers_are_of_the_history};
pub use down::down_for_good;
pub use leaving::frames_are_unbroken;
pub use limits::{a_full_channel_holds_back, at_most_the_limit_is_pending};
pub use messages::contents_are_of_the_history;
pub use owed::awaited_replies_are_requested;
pub use registry::topologies_are_of_the_history;
pub use rejections::a_rejection_lasts;
pub use standing::a_session_stands;
pub use waiting::{
    closes_wait_until_they_leave, only_live_openings_wait, waiting_publishes_are_queued,
};
