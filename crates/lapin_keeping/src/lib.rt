//! Messages that are kept until a broker has answered for them: what is known of each, and what becomes of it.
//!
//! No session lives here. What was published and how it ended comes in; what waits to be published and what became of each message comes
//! out.
#![tactic(auto)]

mod fate;
mod keeping;
mod kept;
mod laws;
mod message;
mod run;

pub use fate::Fate;
pub use keeping::{Keeping, Stand};
pub use kept::Kept;
pub use laws::{
    a_loss_is_no_failure, a_message_is_given_up_at_its_last_try, a_message_keeps_its_number,
    an_ack_alone_stores, each_message_is_kept_or_told_once, the_last_try_is_the_last,
    what_came_back_is_not_stored, what_is_kept_stays_in_order,
};
pub use message::{Message, Placed};
pub use run::Run;
