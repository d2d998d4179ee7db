//! The layout of the methods of the class channel (AMQP 0-9-1, class 20).

ghost use Rattle.std.specs.Prelude.{◌≡◌, ◌++◌, OnOk};
ghost use Rattle.lapin_fields.specs.Fits.{Refused};
ghost use Rattle.lapin_frames.specs.FrameFits.{ChannelFits};
ghost use Rattle.lapin_frames.specs.Methods.{channel_bytes};
ghost use Rattle.lapin_frames.specs.MethodReading.{channel_at};
ghost use Rattle.lapin_fields.specs.Reading.{Gives};

use crate::rows::{
    put_field, put_flags, put_reserved, put_row, skip_reserved, take_field, take_flags, take_row,
};
use lapin_fields::{
    Octets, ReadFault, WriteFault, packed, put_long, put_octet, put_short, put_text, skip_text,
    take_reply, unpacked,
};
use lapin_methods::ChannelMethod;
use std::alloc::Global;

macro_rules! channel_table {
    ($row:ident, $($given:tt),*) => {
        $row!($($given),*; ChannelMethod;
            Open 10 [text] {} [] {},
            OpenOk 11 [string] {} [] {},
            Flow 20 [] {} [active] {},
            FlowOk 21 [] {} [active] {},
            Close 40 [] { reply_code: short, reply_text: reply, class_id: short, method_id: short } [] {},
            CloseOk 41 [] {} [] {},
        )
    };
}

/// Adds the method's number and its fields.
pub(crate) fn put_channel(
    _alloc: Global,
    out: &mut Vec<u8>,
    method: &ChannelMethod,
) -> Result<(), WriteFault>
    ensures bytes { OnOk result (out.new.items ≡ out.old.items ++ channel_bytes method.now) }
    ensures fits { OnOk result (ChannelFits method.now) }
    ensures refused { Refused result (ChannelFits method.now) }
{
    channel_table!(put_row, method, _alloc, out)
}

/// The method of that number, whose fields stand next.
pub(crate) fn take_channel(
    _alloc: Global,
    number: u16,
    octets: &mut Octets,
) -> Result<ChannelMethod, ReadFault>
    ensures { Gives result octets.new (channel_at number octets.old) }
{
    channel_table!(take_row, number, _alloc, octets)
}
