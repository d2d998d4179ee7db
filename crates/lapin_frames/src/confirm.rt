//! The layout of the methods of the class confirm (AMQP 0-9-1, class 85).

ghost use Rattle.std.specs.Prelude.{◌≡◌, ◌++◌, OnOk};
ghost use Rattle.lapin_fields.specs.Fits.{Refused};
ghost use Rattle.lapin_frames.specs.FrameFits.{ConfirmFits};
ghost use Rattle.lapin_frames.specs.Methods.{confirm_bytes};
ghost use Rattle.lapin_frames.specs.MethodReading.{confirm_at};
ghost use Rattle.lapin_fields.specs.Reading.{Gives};

use crate::rows::{put_flags, put_row, take_flags, take_row};
use lapin_fields::{Octets, ReadFault, WriteFault, packed, put_octet, put_short, unpacked};
use lapin_methods::ConfirmMethod;
use std::alloc::Global;

macro_rules! confirm_table {
    ($row:ident, $($given:tt),*) => {
        $row!($($given),*; ConfirmMethod;
            Select 10 [] {} [nowait] {},
            SelectOk 11 [] {} [] {},
        )
    };
}

/// Adds the method's number and its fields.
pub(crate) fn put_confirm(
    _alloc: Global,
    out: &mut Vec<u8>,
    method: &ConfirmMethod,
) -> Result<(), WriteFault>
    ensures bytes { OnOk result (out.new.items ≡ out.old.items ++ confirm_bytes method.now) }
    ensures fits { OnOk result (ConfirmFits method.now) }
    ensures refused { Refused result (ConfirmFits method.now) }
{
    confirm_table!(put_row, method, _alloc, out)
}

/// The method of that number, whose fields stand next.
pub(crate) fn take_confirm(
    _alloc: Global,
    number: u16,
    octets: &mut Octets,
) -> Result<ConfirmMethod, ReadFault>
    ensures { Gives result octets.new (confirm_at number octets.old) }
{
    confirm_table!(take_row, number, _alloc, octets)
}
