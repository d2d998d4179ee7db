//! The layout of the methods of the class queue (AMQP 0-9-1, class 50).

ghost use Rattle.std.specs.Prelude.{◌≡◌, ◌++◌, OnOk};
ghost use Rattle.lapin_fields.specs.Fits.{Refused};
ghost use Rattle.lapin_frames.specs.FrameFits.{QueueFits};
ghost use Rattle.lapin_frames.specs.Methods.{queue_bytes};
ghost use Rattle.lapin_frames.specs.MethodReading.{queue_at};
ghost use Rattle.lapin_fields.specs.Reading.{Gives};

use crate::rows::{
    put_field, put_flags, put_reserved, put_row, skip_reserved, take_field, take_flags, take_row,
};
use lapin_fields::{
    Octets, ReadFault, WriteFault, packed, put_arguments, put_long, put_octet, put_short, put_text,
    take_opaque, take_text, unpacked,
};
use lapin_methods::QueueMethod;
use std::alloc::Global;

macro_rules! queue_table {
    ($row:ident, $($given:tt),*) => {
        $row!($($given),*; QueueMethod;
            Declare 10 [short] { queue: text } [passive, durable, exclusive, auto_delete, nowait] { arguments: table },
            DeclareOk 11 [] { queue: text, message_count: long, consumer_count: long } [] {},
            Bind 20 [short] { queue: text, exchange: text, routing_key: text } [nowait] { arguments: table },
            BindOk 21 [] {} [] {},
            Purge 30 [short] { queue: text } [nowait] {},
            PurgeOk 31 [] { message_count: long } [] {},
            Delete 40 [short] { queue: text } [if_unused, if_empty, nowait] {},
            DeleteOk 41 [] { message_count: long } [] {},
            Unbind 50 [short] { queue: text, exchange: text, routing_key: text, arguments: table } [] {},
            UnbindOk 51 [] {} [] {},
        )
    };
}

/// Adds the method's number and its fields.
pub(crate) fn put_queue(
    _alloc: Global,
    out: &mut Vec<u8>,
    method: &QueueMethod,
) -> Result<(), WriteFault>
    ensures bytes { OnOk result (out.new.items ≡ out.old.items ++ queue_bytes method.now) }
    ensures fits { OnOk result (QueueFits method.now) }
    ensures refused { Refused result (QueueFits method.now) }
{
    queue_table!(put_row, method, _alloc, out)
}

/// The method of that number, whose fields stand next.
pub(crate) fn take_queue(
    _alloc: Global,
    number: u16,
    octets: &mut Octets,
) -> Result<QueueMethod, ReadFault>
    ensures { Gives result octets.new (queue_at number octets.old) }
{
    queue_table!(take_row, number, _alloc, octets)
}
