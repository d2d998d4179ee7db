//! The layout of the methods of the class exchange (AMQP 0-9-1, class 40).

ghost use Rattle.std.specs.Prelude.{◌≡◌, ◌++◌, OnOk};
ghost use Rattle.lapin_fields.specs.Fits.{Refused};
ghost use Rattle.lapin_frames.specs.FrameFits.{ExchangeFits};
ghost use Rattle.lapin_frames.specs.Methods.{exchange_bytes};
ghost use Rattle.lapin_frames.specs.MethodReading.{exchange_at};
ghost use Rattle.lapin_fields.specs.Reading.{Gives};

use crate::rows::{
    put_field, put_flags, put_reserved, put_row, skip_reserved, take_field, take_flags, take_row,
};
use lapin_fields::{
    Octets, ReadFault, WriteFault, packed, put_arguments, put_octet, put_short, put_text,
    take_opaque, take_text, unpacked,
};
use lapin_methods::ExchangeMethod;
use std::alloc::Global;

macro_rules! exchange_table {
    ($row:ident, $($given:tt),*) => {
        $row!($($given),*; ExchangeMethod;
            Declare 10 [short] { exchange: text, kind: text } [passive, durable, auto_delete, internal, nowait] { arguments: table },
            DeclareOk 11 [] {} [] {},
            Delete 20 [short] { exchange: text } [if_unused, nowait] {},
            DeleteOk 21 [] {} [] {},
            Bind 30 [short] { destination: text, source: text, routing_key: text } [nowait] { arguments: table },
            BindOk 31 [] {} [] {},
            Unbind 40 [short] { destination: text, source: text, routing_key: text } [nowait] { arguments: table },
            UnbindOk 51 [] {} [] {},
        )
    };
}

/// Adds the method's number and its fields.
pub(crate) fn put_exchange(
    _alloc: Global,
    out: &mut Vec<u8>,
    method: &ExchangeMethod,
) -> Result<(), WriteFault>
    ensures bytes { OnOk result (out.new.items ≡ out.old.items ++ exchange_bytes method.now) }
    ensures fits { OnOk result (ExchangeFits method.now) }
    ensures refused { Refused result (ExchangeFits method.now) }
{
    exchange_table!(put_row, method, _alloc, out)
}

/// The method of that number, whose fields stand next.
pub(crate) fn take_exchange(
    _alloc: Global,
    number: u16,
    octets: &mut Octets,
) -> Result<ExchangeMethod, ReadFault>
    ensures { Gives result octets.new (exchange_at number octets.old) }
{
    exchange_table!(take_row, number, _alloc, octets)
}
