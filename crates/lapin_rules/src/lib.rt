//! What a history says: the definitions that every contract above cites.
//!
//! Here live the rules: the words for what happened (marks), the readings of tags, outcomes and answers, the states and lists
//! that a history comes to, and the records that it determines; beside them the plain functions by which a session asks a
//! rule. No state lives here.
#![tactic(auto)]

pub mod broker_frames;
pub mod calls;
pub mod closes;
pub mod laws;
pub mod marks;
pub mod phases;

pub use broker_frames::{
    ConsumerPart, ContentPart, Incoming, class_of, is_kind, method_of, opens, receives,
    receives_close, receives_close_ok, receives_down, receives_on, sort_frame,
};
pub use calls::{Answered, Asked, Row, acker_row, is_allowed, is_select, is_try, sort_call};
pub use closes::{
    close_ok_end, consumers_end, failed_at_close, has_sent_close, session_close, unexpected_close,
};
pub use marks::{AtLeaving, SettleKind, Settlement};
pub use phases::{ChannelMove, ChannelPhase, CloseStage, Closer, ConnectionMove, ConnectionPhase};
