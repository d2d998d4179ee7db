//! The bytes of frames (AMQP 0-9-1, section 4.2): a frame as the bytes that a socket carries, and back.
//!
//! Here stand the layouts of methods, content headers and frames, over those of fields. What frames mean stands in the crates above, and
//! sockets in none.
#![tactic(auto)]

mod access;
mod basic;
mod carried;
mod channel;
mod confirm;
mod connection;
mod exchange;
mod frames;
mod headers;
mod laws;
mod methods;
mod queue;
mod rows;
mod tx;

pub use carried::carrying;
pub use frames::{
    Read, method_in, put_frame, put_frame_within, put_heartbeat, put_method_octets, read_frame,
};
pub use headers::{carried_list, put_properties};
pub use lapin_fields::{ReadFault, WriteFault, wanted};
pub use laws::{
    carried_lists_are_written, octets_go_through_untouched, what_follows_changes_nothing,
    what_is_read_is_carried, written_frames_are_read, written_heartbeats_are_read,
};
