//! The layout of the methods of the class tx (AMQP 0-9-1, class 90).

ghost use Rattle.std.specs.Prelude.{◌≡◌, ◌++◌, OnOk};
ghost use Rattle.lapin_fields.specs.Fits.{Refused};
ghost use Rattle.lapin_frames.specs.FrameFits.{TxFits};
ghost use Rattle.lapin_frames.specs.Methods.{tx_bytes};
ghost use Rattle.lapin_frames.specs.MethodReading.{tx_at};
ghost use Rattle.lapin_fields.specs.Reading.{Gives};

use crate::rows::{put_flags, put_row, take_flags, take_row};
use lapin_fields::{Octets, ReadFault, WriteFault, put_short};
use lapin_methods::TxMethod;
use std::alloc::Global;

macro_rules! tx_table {
    ($row:ident, $($given:tt),*) => {
        $row!($($given),*; TxMethod;
            Select 10 [] {} [] {},
            SelectOk 11 [] {} [] {},
            Commit 20 [] {} [] {},
            CommitOk 21 [] {} [] {},
            Rollback 30 [] {} [] {},
            RollbackOk 31 [] {} [] {},
        )
    };
}

/// Adds the method's number and its fields.
pub(crate) fn put_tx(_alloc: Global, out: &mut Vec<u8>, method: &TxMethod) -> Result<(), WriteFault>
    ensures bytes { OnOk result (out.new.items ≡ out.old.items ++ tx_bytes method.now) }
    ensures fits { OnOk result (TxFits method.now) }
    ensures refused { Refused result (TxFits method.now) }
{
    tx_table!(put_row, method, _alloc, out)
}

/// The method of that number, whose fields stand next.
pub(crate) fn take_tx(
    _alloc: Global,
    number: u16,
    octets: &mut Octets,
) -> Result<TxMethod, ReadFault>
    ensures { Gives result octets.new (tx_at number octets.old) }
{
    tx_table!(take_row, number, _alloc, octets)
}
