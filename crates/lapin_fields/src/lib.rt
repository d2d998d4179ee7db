//! The fields that the frames of AMQP 0-9-1 are made of, as bytes and back (section 4.2): numbers, short texts and long strings, flags,
//! field values, arrays and tables, and what stands around the payload of a frame.
//!
//! Here stand layouts alone. Which fields a method or a content header has stands in the crate above.
#![tactic(auto)]

mod around;
mod fault;
mod flags;
mod laws;
mod leaves;
mod octets;
mod opaque;
mod texts;
mod value_reading;
mod value_writing;

pub use around::{Around, put_around, take_around, wanted};
pub use fault::{ReadFault, WriteFault};
pub use flags::{bit, packed, packed_whole, unpacked};
pub use laws::{
    carried_octets_are_read, packed_flags_are_bits, reply_texts_are_texts, what_is_read_came_so,
    what_is_wanted_is_wanted, written_payload_is_read, written_texts_are_read,
    written_values_are_read,
};
pub use octets::{Octets, put_counted, put_long, put_octet, put_short, put_wide};
pub use opaque::{carried, carrier, put_arguments, take_opaque};
pub use texts::{put_text, readable_text, skip_text, take_reply, take_text};
pub use value_reading::{LEVELS, table_of, take_table};
pub use value_writing::put_table;
