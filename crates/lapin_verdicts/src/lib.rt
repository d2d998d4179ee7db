//! What the answers of a session say of an honest broker, over every joined run.
//!
//! Laws alone stand here, and the readings of a run that they are said in: what the broker read and sent, opening by opening.
#![tactic(auto)]

mod answers;
mod verdicts;

pub use answers::{a_reply_answers_the_request_at_its_place, open_ok_is_the_first_of_its_opening};
pub use verdicts::{
    a_confirm_is_a_verdict, a_publish_leaves_in_the_opening_of_its_call,
    both_sides_are_in_one_opening, publishes_are_numbered_as_their_tags,
};
