//! Methods of all classes: the class's number, the method's number, and the fields by the table of the class.

ghost use Rattle.std.specs.Prelude.{◌≡◌, ◌++◌, OnOk};
ghost use Rattle.lapin_fields.specs.Fits.{Refused};
ghost use Rattle.lapin_frames.specs.FrameFits.{MethodFits};
ghost use Rattle.lapin_frames.specs.Methods.{method_bytes};
ghost use Rattle.lapin_frames.specs.MethodReading.{method_at};
ghost use Rattle.lapin_fields.specs.Reading.{Gives};

use crate::access::{put_access, take_access};
use crate::basic::{put_basic, take_basic};
use crate::channel::{put_channel, take_channel};
use crate::confirm::{put_confirm, take_confirm};
use crate::connection::{put_connection, take_connection};
use crate::exchange::{put_exchange, take_exchange};
use crate::queue::{put_queue, take_queue};
use crate::tx::{put_tx, take_tx};
use lapin_fields::{Octets, ReadFault, WriteFault, put_short};
use lapin_methods::Method;
use std::alloc::Global;

/// Adds a method.
pub(crate) fn put_method(
    alloc: Global,
    out: &mut Vec<u8>,
    method: &Method,
) -> Result<(), WriteFault>
    ensures bytes { OnOk result (out.new.items ≡ out.old.items ++ method_bytes method.now) }
    ensures fits { OnOk result (MethodFits method.now) }
    ensures refused { Refused result (MethodFits method.now) }
{
    put_short(out, method.class_id())?;
    match method {
        Method::Connection(method) => put_connection(alloc, out, method),
        Method::Channel(method) => put_channel(alloc, out, method),
        Method::Access(method) => put_access(alloc, out, method),
        Method::Exchange(method) => put_exchange(alloc, out, method),
        Method::Queue(method) => put_queue(alloc, out, method),
        Method::Basic(method) => put_basic(alloc, out, method),
        Method::Confirm(method) => put_confirm(alloc, out, method),
        Method::Tx(method) => put_tx(alloc, out, method),
    }
}

/// The method that stands next.
pub(crate) fn take_method(alloc: Global, octets: &mut Octets) -> Result<Method, ReadFault>
    ensures { Gives result octets.new (method_at octets.old) }
{
    let class = octets.short()?;
    let number = octets.short()?;
    match class {
        10 => Ok(Method::Connection(take_connection(alloc, number, octets)?)),
        20 => Ok(Method::Channel(take_channel(alloc, number, octets)?)),
        30 => Ok(Method::Access(take_access(alloc, number, octets)?)),
        40 => Ok(Method::Exchange(take_exchange(alloc, number, octets)?)),
        50 => Ok(Method::Queue(take_queue(alloc, number, octets)?)),
        60 => Ok(Method::Basic(take_basic(alloc, number, octets)?)),
        85 => Ok(Method::Confirm(take_confirm(alloc, number, octets)?)),
        90 => Ok(Method::Tx(take_tx(alloc, number, octets)?)),
        _ => Err(ReadFault::Malformed),
    }
}
