//! Publisher confirms: the outcome of every confirm number, the confirm mode of every channel, and the messages that came back.
//!
//! Here live delivery tags, settlements and what they make of the publishes that wait, and returned messages until they are given.
//! Which frames leave, which states a channel is in and when a settlement is received are the session's, which calls this crate.
//! Contracts see a `ConfirmState`: a `PublishStates`, the return lists of each channel that had an opening, the messages that came back
//! before one, and where each publish belongs; and beside it the room.
//! What a call does is what its mark does by `after_mark`, and `machine_follows` says that confirms which are changed by marks that
//! may come are always what the history of those marks says.
#![tactic(auto)]

mod attaching;
mod cell;
mod confirm_mode;
mod confirms;
mod draining;
mod early;
mod full_set;
mod laws;
mod limits;
mod lists;
mod marks;
mod openings;
mod origin;
mod results;
mod return_lists;
mod returned;
mod rooms;
mod settling;
mod sweep;

pub use cell::Cell;
pub use confirms::Confirms;
pub use lapin_rules::SettleKind;
pub use laws::{
    a_close_one_by_one, a_close_rejects_what_waits, an_end_leaves_nothing_open,
    an_opening_may_begin, answers_tell, covered_as_read, drains_as_read, end_takes_close,
    end_takes_rejected, full_as_read, limits_as_read, machine_follows, multiple_covers,
    nothing_follows, openings_as_read, outcome_stays, polls_as_read, resolved_by_its_settlement,
    settlement_leaves, tag_stays, tags_as_read, tags_count_up, waits_as_read, what_is_gone,
};
pub use origin::Origin;
