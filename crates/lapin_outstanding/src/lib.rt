//! What is outstanding in a session: frames that have not left, open requests and tickets; what a call puts there, what a frame that
//! leaves answers, and what a close or an end takes away.
//!
//! Here the parts (outbox, requests, tickets, confirms, states) are moved together by their contracts alone. No state of a channel or
//! of the connection lives here: when a frame is asked for, a reply comes, or a close or an end, is the session's.
#![tactic(auto)]

mod ending;
mod leaving;
mod lines;
mod outstanding;
mod states;

pub use leaving::leaves;
pub use lines::place_at_once;
pub use outstanding::Outstanding;
pub use states::{is_base, is_closed, is_open, phase_replied};
