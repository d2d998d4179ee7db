//! Field values that hold no other: a letter, and the text of a single value.

ghost use Rattle.std.specs.Prelude.{◌≡◌};
ghost use Rattle.lapin_values.specs.DataOf.{data_of};
ghost use Rattle.lapin_scalars.specs.Reading.{GivesValue, scalar_of};
ghost use Rattle.lapin_scalars.specs.Scalars.Scalar.{pairs as some_pairs};
ghost use Rattle.lapin_tokens.specs.ValueReading.{leaf_of, void_of as the_void};

use crate::letters::Letter;
use lapin_scalars::{
    ReadError, flag_of, i8_of, i16_of, i32_of, i64_of, pairs_of, u8_of, u16_of, u32_of, u64_of,
};
use lapin_values::{AMQPValue, LongString, Payload};
use std::alloc::Global;

fn void_of(piece: &[u8]) -> Result<AMQPValue, ReadError>
    ensures { GivesValue (λ v. data_of v) result (the_void piece.now) }
{
    match piece {
        [] => Ok(AMQPValue::Void),
        _ => Err(ReadError::Bad),
    }
}

fn long_string_of(alloc: Global, piece: &[u8]) -> Result<LongString, ReadError>
    ensures { GivesValue (λ s. s) result (scalar_of some_pairs piece.now) }
{
    Ok(LongString::from_bytes(pairs_of(alloc, piece)?))
}

fn byte_array_of(alloc: Global, piece: &[u8]) -> Result<Payload, ReadError>
    ensures { GivesValue (λ s. s) result (scalar_of some_pairs piece.now) }
{
    Ok(Payload::from_bytes(pairs_of(alloc, piece)?))
}

/// The value of the letter's kind whose text the bytes are; none for the letters of an array and of a table.
pub fn leaf_value(alloc: Global, letter: Letter, piece: &[u8]) -> Result<AMQPValue, ReadError>
    ensures { GivesValue (λ v. data_of v) result (leaf_of letter piece.now) }
{
    match letter {
        Letter::Boolean => Ok(AMQPValue::Boolean(flag_of(piece)?)),
        Letter::ShortShortInt => Ok(AMQPValue::ShortShortInt(i8_of(piece)?)),
        Letter::ShortShortUInt => Ok(AMQPValue::ShortShortUInt(u8_of(piece)?)),
        Letter::ShortInt => Ok(AMQPValue::ShortInt(i16_of(piece)?)),
        Letter::ShortUInt => Ok(AMQPValue::ShortUInt(u16_of(piece)?)),
        Letter::LongInt => Ok(AMQPValue::LongInt(i32_of(piece)?)),
        Letter::LongUInt => Ok(AMQPValue::LongUInt(u32_of(piece)?)),
        Letter::LongLongInt => Ok(AMQPValue::LongLongInt(i64_of(piece)?)),
        Letter::Timestamp => Ok(AMQPValue::Timestamp(u64_of(piece)?)),
        Letter::LongString => Ok(AMQPValue::LongString(long_string_of(alloc, piece)?)),
        Letter::ByteArray => Ok(AMQPValue::ByteArray(byte_array_of(alloc, piece)?)),
        Letter::FieldArray | Letter::FieldTable => Err(ReadError::Bad),
        Letter::Void => void_of(piece),
    }
}
