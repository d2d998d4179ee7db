//! The layout of the methods of the class basic (AMQP 0-9-1, class 60).

ghost use Rattle.std.specs.Prelude.{◌≡◌, ◌++◌, OnOk};
ghost use Rattle.lapin_fields.specs.Fits.{Refused};
ghost use Rattle.lapin_frames.specs.FrameFits.{BasicFits};
ghost use Rattle.lapin_frames.specs.Methods.{basic_bytes};
ghost use Rattle.lapin_frames.specs.MethodReading.{basic_at};
ghost use Rattle.lapin_fields.specs.Reading.{Gives};

use crate::rows::{
    put_field, put_flags, put_reserved, put_row, skip_reserved, take_field, take_flags, take_row,
};
use lapin_fields::{
    Octets, ReadFault, WriteFault, packed, put_arguments, put_long, put_octet, put_short, put_text,
    put_wide, skip_text, take_opaque, take_reply, take_text, unpacked,
};
use lapin_methods::BasicMethod;
use std::alloc::Global;

macro_rules! basic_table {
    ($row:ident, $($given:tt),*) => {
        $row!($($given),*; BasicMethod;
            Qos 10 [long] { prefetch_count: short } [global] {},
            QosOk 11 [] {} [] {},
            Consume 20 [short] { queue: text, consumer_tag: text } [no_local, no_ack, exclusive, nowait] { arguments: table },
            ConsumeOk 21 [] { consumer_tag: text } [] {},
            Cancel 30 [] { consumer_tag: text } [nowait] {},
            CancelOk 31 [] { consumer_tag: text } [] {},
            Publish 40 [short] { exchange: text, routing_key: text } [mandatory, immediate] {},
            Return 50 [] { reply_code: short, reply_text: reply, exchange: reply, routing_key: reply } [] {},
            Deliver 60 [] { consumer_tag: text, delivery_tag: wide } [redelivered] { exchange: reply, routing_key: reply },
            Get 70 [short] { queue: text } [no_ack] {},
            GetOk 71 [] { delivery_tag: wide } [redelivered] { exchange: reply, routing_key: reply, message_count: long },
            GetEmpty 72 [text] {} [] {},
            Ack 80 [] { delivery_tag: wide } [multiple] {},
            Reject 90 [] { delivery_tag: wide } [requeue] {},
            RecoverAsync 100 [] {} [requeue] {},
            Recover 110 [] {} [requeue] {},
            RecoverOk 111 [] {} [] {},
            Nack 120 [] { delivery_tag: wide } [multiple, requeue] {},
        )
    };
}

/// Adds the method's number and its fields.
pub(crate) fn put_basic(
    _alloc: Global,
    out: &mut Vec<u8>,
    method: &BasicMethod,
) -> Result<(), WriteFault>
    ensures bytes { OnOk result (out.new.items ≡ out.old.items ++ basic_bytes method.now) }
    ensures fits { OnOk result (BasicFits method.now) }
    ensures refused { Refused result (BasicFits method.now) }
{
    basic_table!(put_row, method, _alloc, out)
}

/// The method of that number, whose fields stand next.
pub(crate) fn take_basic(
    _alloc: Global,
    number: u16,
    octets: &mut Octets,
) -> Result<BasicMethod, ReadFault>
    ensures { Gives result octets.new (basic_at number octets.old) }
{
    basic_table!(take_row, number, _alloc, octets)
}
