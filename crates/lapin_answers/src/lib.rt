//! What the answers to a client's calls say of an honest broker, over every joined run: to which of its frames the broker sent them.
//!
//! Laws alone stand here. What the broker read and sent, opening by opening, is read off the run in `lapin_verdicts`. A reader finds in
//! `truth` all that holds of a session and an honest broker in one place.
#![tactic(auto)]

mod replies;
mod truth;

pub use replies::{
    a_close_is_answered_by_its_close_ok, a_close_ok_is_for_that_very_close,
    a_close_ok_of_the_connection_is_for_that_very_close,
    a_get_carries_what_was_sent_after_its_answer, a_reply_answers_that_very_call,
    an_answer_is_the_reply_to_its_call, an_open_ok_is_for_that_very_open,
    no_reply_resolves_a_call_without_wait, what_a_frame_resolves_awaits_it,
    what_no_frame_resolves_is_a_cancel,
};
pub use truth::a_session_and_an_honest_broker;
