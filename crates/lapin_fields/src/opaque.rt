//! Tables of arguments as frames have them: octets that nobody reads.
//!
//! They stand in a table that has them as a byte array under the empty name. A table that a caller gives by its values is written by them; how
//! values are written and read stands in `value_writing` and `value_reading`.

ghost use Rattle.std.specs.Prelude.{◌≡◌, ◌++◌, IfOk, OnOk, option_map};
ghost use Rattle.lapin_fields.specs.Fits.{Refused};
ghost use Rattle.lapin_fields.specs.Opaque.{carrier as carrier_of, carried as carried_by, opaque_at, arguments_bytes, ArgumentsFit};
ghost use Rattle.lapin_fields.specs.Reading.{Gives};

use crate::fault::{ReadFault, WriteFault};
use crate::octets::{Octets, put_counted};
use crate::value_writing::put_table;
use lapin_values::{AMQPValue, FieldTable, NoMemory, Payload, ShortString};
use std::alloc::Global;

/// The table that has octets as a byte array under the empty name.
///
/// # Errors
/// `NoMemory` alone.
pub fn carrier(alloc: Global, octets: &[u8]) -> Result<FieldTable, NoMemory>
    ensures { IfOk result (λ t. t ≡ carrier_of octets.now) }
{
    let name = ShortString::empty(alloc)?;
    let octets = Payload::new(alloc, octets)?;
    let mut table = FieldTable::new(alloc);
    table.insert(alloc, name, AMQPValue::ByteArray(octets))?;
    Ok(table)
}

/// The octets that a table carries; `None` where it is any other table.
#[tactic(auto, using(crate::proofs::OpaqueLaws::of_one, crate::proofs::OpaqueLaws::of_others))]
pub fn carried(table: &FieldTable) -> Option<&[u8]>
    ensures { option_map (λ octets. octets.now) result ≡ carried_by table.now }
{
    if table.len() != 1 {
        return None;
    }
    match table.at(0) {
        Some((name, AMQPValue::ByteArray(octets))) => {
            if name.as_str().is_empty() {
                Some(octets.as_bytes())
            } else {
                None
            }
        }
        _ => None,
    }
}

/// The table of arguments that stands next behind its length, whatever its octets are.
pub fn take_opaque(alloc: Global, octets: &mut Octets) -> Result<FieldTable, ReadFault>
    ensures { Gives result octets.new (opaque_at octets.old) }
{
    match octets.counted()? {
        [] => Ok(FieldTable::new(alloc)),
        piece => Ok(carrier(alloc, piece)?),
    }
}

/// Adds a table of arguments behind its length: the octets that it carries, or its values.
///
/// # Errors
/// `TooLong`, `TooDeep` where values nest more than eight levels, and `NoMemory`.
pub fn put_arguments(alloc: Global, out: &mut Vec<u8>, table: &FieldTable) -> Result<(), WriteFault>
    ensures bytes { OnOk result (out.new.items ≡ out.old.items ++ arguments_bytes table.now) }
    ensures fits { OnOk result (ArgumentsFit table.now) }
    ensures refused { Refused result (ArgumentsFit table.now) }
{
    match carried(table) {
        Some(octets) => put_counted(out, octets),
        None => put_table(alloc, out, table),
    }
}
