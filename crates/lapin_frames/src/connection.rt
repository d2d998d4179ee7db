//! The layout of the methods of the class connection (AMQP 0-9-1, class 10).

ghost use Rattle.std.specs.Prelude.{◌≡◌, ◌++◌, OnOk};
ghost use Rattle.lapin_fields.specs.Fits.{Refused};
ghost use Rattle.lapin_frames.specs.FrameFits.{ConnectionFits};
ghost use Rattle.lapin_frames.specs.Methods.{connection_bytes};
ghost use Rattle.lapin_frames.specs.MethodReading.{connection_at};
ghost use Rattle.lapin_fields.specs.Reading.{Gives};

use crate::rows::{put_field, put_flags, put_row, take_field, take_flags, take_row};
use lapin_fields::{Octets, ReadFault, WriteFault, put_short, put_text, take_reply};
use lapin_methods::ConnectionMethod;
use std::alloc::Global;

macro_rules! connection_table {
    ($row:ident, $($given:tt),*) => {
        $row!($($given),*; ConnectionMethod;
            Close 50 [] { reply_code: short, reply_text: reply, class_id: short, method_id: short } [] {},
            CloseOk 51 [] {} [] {},
        )
    };
}

/// Adds the method's number and its fields.
pub(crate) fn put_connection(
    _alloc: Global,
    out: &mut Vec<u8>,
    method: &ConnectionMethod,
) -> Result<(), WriteFault>
    ensures bytes { OnOk result (out.new.items ≡ out.old.items ++ connection_bytes method.now) }
    ensures fits { OnOk result (ConnectionFits method.now) }
    ensures refused { Refused result (ConnectionFits method.now) }
{
    connection_table!(put_row, method, _alloc, out)
}

/// The method of that number, whose fields stand next.
pub(crate) fn take_connection(
    _alloc: Global,
    number: u16,
    octets: &mut Octets,
) -> Result<ConnectionMethod, ReadFault>
    ensures { Gives result octets.new (connection_at number octets.old) }
{
    connection_table!(take_row, number, _alloc, octets)
}
