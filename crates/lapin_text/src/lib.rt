//! The text of a session: an input's events are read from their lines, and records are written as lines, both exactly.
//!
//! A line is tokens with one space between them. What the tokens of single values are stands in `lapin_tokens`, and the tables of
//! methods in `lapin_method_text`. Here stand frames, calls, events, records, whole inputs and whole outputs; no rule of a session
//! stands here. The program's commands call this crate: they read a line by its first word, and write an answer with no record in
//! between, by the functions for what follows a word and for one kind of answer.
#![tactic(auto)]

mod ackers;
mod calls;
mod events;
mod frames;
mod laws;
mod lines;
mod parsing;
mod printing;
mod queued;
mod reading;
mod records;
mod words;

pub use ackers::read_acker_call;
pub use calls::read_call;
pub use frames::{Acked, read_acked, read_body_frame, read_header_frame, read_method_frame};
pub use lapin_tokens::{read_bytes, read_num, read_short};
pub use laws::{one_line, one_reading, one_text, parsed_as_printed};
pub use lines::Lines;
pub use parsing::{Parsed, ReadLine, parse_events, parse_lines, read_max};
pub use printing::{print_records, write_frame, write_record};
pub use queued::call_of;
pub use reading::{read_event, read_frame};
pub use records::{
    name_of_state, put_answered, put_confirmed, put_error_line, put_handed, put_item,
    put_published, put_record, put_refused, put_ticket,
};
pub use words::{Word, first_frame_word, first_word, word_named};
