//! Field values that hold no other, read behind the letters of their types.

ghost use Rattle.lapin_values.specs.DataOf.{data_of};
ghost use Rattle.lapin_fields.specs.Reading.{GivesAs, GivesOne};
ghost use Rattle.lapin_fields.specs.ValueReading.{as_octets, octets_at, leaf_at};

use crate::fault::ReadFault;
use crate::octets::Octets;
use lapin_values::{AMQPValue, LongString, Payload};
use std::alloc::Global;

/// A value that has no kind of its own here, as a byte array: the letter of its type, and its octets as they stand.
pub(crate) fn as_bytes(alloc: Global, letter: u8, piece: &[u8]) -> Result<AMQPValue, ReadFault>
    ensures { GivesOne data_of result (as_octets letter piece.now) }
{
    let mut bytes = Vec::new(alloc);
    if bytes.push(letter).is_err() {
        return Err(ReadFault::NoMemory);
    }
    if bytes.extend_from_slice(piece).is_err() {
        return Err(ReadFault::NoMemory);
    }
    Ok(AMQPValue::ByteArray(Payload::from_bytes(bytes)))
}

// Such a value of so many octets: a float, a double or a decimal.
fn take_bytes(
    alloc: Global,
    octets: &mut Octets,
    letter: u8,
    count: usize,
) -> Result<AMQPValue, ReadFault>
    ensures { GivesAs data_of result octets.new (octets_at letter count octets.old) }
{
    let piece = octets.piece(count)?;
    as_bytes(alloc, letter, piece)
}

/// The value of a type that holds no other, which stands next behind the letter of its type.
pub(crate) fn take_leaf(
    alloc: Global,
    octets: &mut Octets,
    letter: u8,
) -> Result<AMQPValue, ReadFault>
    ensures { GivesAs data_of result octets.new (leaf_at letter octets.old) }
{
    match letter {
        b't' => Ok(AMQPValue::Boolean(octets.octet()? > 0)),
        b'b' => Ok(AMQPValue::ShortShortInt(octets.octet()?.cast_signed())),
        b'B' => Ok(AMQPValue::ShortShortUInt(octets.octet()?)),
        b's' => Ok(AMQPValue::ShortInt(octets.short()?.cast_signed())),
        b'u' => Ok(AMQPValue::ShortUInt(octets.short()?)),
        b'I' => Ok(AMQPValue::LongInt(octets.long()?.cast_signed())),
        b'i' => Ok(AMQPValue::LongUInt(octets.long()?)),
        b'l' => Ok(AMQPValue::LongLongInt(octets.wide()?.cast_signed())),
        b'T' => Ok(AMQPValue::Timestamp(octets.wide()?)),
        b'S' => Ok(AMQPValue::LongString(LongString::new(alloc, octets.counted()?)?)),
        b'x' => Ok(AMQPValue::ByteArray(Payload::new(alloc, octets.counted()?)?)),
        b'V' => Ok(AMQPValue::Void),
        b'f' => take_bytes(alloc, octets, b'f', 4),
        b'd' => take_bytes(alloc, octets, b'd', 8),
        b'D' => take_bytes(alloc, octets, b'D', 5),
        _ => Err(ReadFault::Malformed),
    }
}
