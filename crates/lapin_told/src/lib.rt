//! That what the wire machine keeps of a session's records has a line.
//!
//! What a session answers is written as a line (`lapin_lines`). Here stands that each record has one of which the wire machine keeps
//! something: the texts, numbers and messages in it are those of the events that came, and so fit their fields. With it a line tells what
//! the wire machine keeps of a record, and nothing has to be assumed of records.
#![tactic(auto)]

mod laws;

pub use laws::{a_line_fixes_what_sessions_keep, a_session_tells_what_it_may};
