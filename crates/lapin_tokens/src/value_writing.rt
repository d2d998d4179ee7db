//! The texts of field values, arrays and tables, added to the end of a text: recursion on how deep they nest.
//!
//! Where memory runs out, the text may end within the value: the caller drops it.

ghost use Rattle.std.specs.Prelude.{◌≡◌, ◌++◌, ◌∷◌, ◌^◌, [], OnOk, slice_get, option_map};
ghost use Rattle.lapin_values.specs.Data.{boolean};
ghost use Rattle.lapin_values.specs.DataOf.{data_of};
ghost use Rattle.lapin_scalars.specs.Scalars.{scalar_text};
ghost use Rattle.lapin_scalars.specs.Scalars.Scalar.{pairs as some_pairs, flag as a_flag, number as a_number, signed as a_signed, text as a_text};
ghost use Rattle.lapin_tokens.specs.Letters.{letter_byte};
ghost use Rattle.lapin_tokens.specs.Values.{value_text, array_text, table_text};
ghost use Rattle.lapin_tokens.specs.Writing.{leaf_part, comma, member_text, pair_text};

use crate::letters::{Letter, byte_of};
use lapin_scalars::{put_flag, put_hex, put_number, put_pairs, put_signed};
use lapin_values::{AMQPValue, FieldArray, FieldTable, ShortString};
use std::alloc::{AllocError, Global};

fn put_flag_value(out: &mut Vec<u8>, flag: bool) -> Result<(), AllocError>
    ensures { OnOk result (out.new.items ≡ out.old.items ++ letter_byte Letter.Boolean ∷ scalar_text a_flag flag) }
{
    out.push(byte_of(Letter::Boolean))?;
    put_flag(out, flag)
}

fn put_signed_value(out: &mut Vec<u8>, letter: Letter, number: i64) -> Result<(), AllocError>
    ensures { OnOk result (out.new.items ≡ out.old.items ++ letter_byte letter ∷ scalar_text (a_signed (2 ^ 63)) number) }
{
    out.push(byte_of(letter))?;
    put_signed(out, number)
}

fn put_number_value(out: &mut Vec<u8>, letter: Letter, number: u64) -> Result<(), AllocError>
    ensures { OnOk result (out.new.items ≡ out.old.items ++ letter_byte letter ∷ scalar_text (a_number (2 ^ 64)) number) }
{
    out.push(byte_of(letter))?;
    put_number(out, number)
}

fn put_bytes_value(
    alloc: Global,
    out: &mut Vec<u8>,
    letter: Letter,
    bytes: &[u8],
) -> Result<(), AllocError>
    ensures { OnOk result (out.new.items ≡ out.old.items ++ letter_byte letter ∷ scalar_text some_pairs bytes.now) }
{
    out.push(byte_of(letter))?;
    put_pairs(alloc, out, bytes)
}

fn put_void(out: &mut Vec<u8>) -> Result<(), AllocError>
    ensures { OnOk result (out.new.items ≡ out.old.items ++ letter_byte Letter.Void ∷ []) }
{
    out.push(byte_of(Letter::Void))?;
    Ok(())
}

// The letter and the text of a value that holds no other; nothing for an array or a table.
fn put_leaf(alloc: Global, out: &mut Vec<u8>, value: &AMQPValue) -> Result<(), AllocError>
    ensures { OnOk result (out.new.items ≡ out.old.items ++ leaf_part (data_of value.now)) }
{
    match value {
        AMQPValue::Boolean(flag) => put_flag_value(out, *flag),
        AMQPValue::ShortShortInt(number) => put_signed_value(
            out,
            Letter::ShortShortInt,
            i64::from(*number),
        ),
        AMQPValue::ShortShortUInt(number) => put_number_value(
            out,
            Letter::ShortShortUInt,
            u64::from(*number),
        ),
        AMQPValue::ShortInt(number) => put_signed_value(out, Letter::ShortInt, i64::from(*number)),
        AMQPValue::ShortUInt(number) => put_number_value(
            out,
            Letter::ShortUInt,
            u64::from(*number),
        ),
        AMQPValue::LongInt(number) => put_signed_value(out, Letter::LongInt, i64::from(*number)),
        AMQPValue::LongUInt(number) => put_number_value(out, Letter::LongUInt, u64::from(*number)),
        AMQPValue::LongLongInt(number) => put_signed_value(out, Letter::LongLongInt, *number),
        AMQPValue::Timestamp(number) => put_number_value(out, Letter::Timestamp, *number),
        AMQPValue::LongString(text) => put_bytes_value(
            alloc,
            out,
            Letter::LongString,
            text.as_bytes(),
        ),
        AMQPValue::ByteArray(bytes) => put_bytes_value(
            alloc,
            out,
            Letter::ByteArray,
            bytes.as_bytes(),
        ),
        AMQPValue::FieldArray(_) | AMQPValue::FieldTable(_) => Ok(()),
        AMQPValue::Void => put_void(out),
    }
}

fn put_comma(out: &mut Vec<u8>, place: usize) -> Result<(), AllocError>
    ensures { OnOk result (out.new.items ≡ out.old.items ++ comma place) }
{
    if place == 0 {
        return Ok(());
    }
    out.push(b',')?;
    Ok(())
}

// A key and its equals sign, behind the comma before a pair that is not the first.
fn put_key(
    alloc: Global,
    out: &mut Vec<u8>,
    place: usize,
    key: &ShortString,
) -> Result<(), AllocError>
    ensures { OnOk result (out.new.items ≡ out.old.items ++ (comma place ++ (scalar_text a_text key.now ++ 61 ∷ []))) }
{
    put_comma(out, place)?;
    put_hex(alloc, out, key.as_str().as_bytes())?;
    out.push(b'=')?;
    Ok(())
}

/// Adds the text of a value, with its letter.
#[cycle(writing)]
pub fn put_value(alloc: Global, out: &mut Vec<u8>, value: &AMQPValue) -> Result<(), AllocError>
    ensures { OnOk result (out.new.items ≡ out.old.items ++ value_text (data_of value.now)) }
{
    match value {
        AMQPValue::FieldArray(array) => {
            out.push(byte_of(Letter::FieldArray))?;
            put_array(alloc, out, array)
        }
        AMQPValue::FieldTable(table) => {
            out.push(byte_of(Letter::FieldTable))?;
            put_table(alloc, out, table)
        }
        _ => put_leaf(alloc, out, value),
    }
}

#[cycle(writing)]
fn put_array(alloc: Global, out: &mut Vec<u8>, array: &FieldArray) -> Result<(), AllocError>
    ensures { OnOk result (out.new.items ≡ out.old.items ++ array_text array.now) }
{
    out.push(b'[')?;
    for place in 0..array.len() {
        put_item(alloc, out, array, place)?;
    }
    out.push(b']')?;
    Ok(())
}

#[cycle(writing)]
fn put_item(
    alloc: Global,
    out: &mut Vec<u8>,
    array: &FieldArray,
    place: usize,
) -> Result<(), AllocError>
    ensures { OnOk result (out.new.items ≡ out.old.items ++ member_text value_text place (slice_get array.now place)) }
{
    match array.at(place) {
        Some(item) => {
            put_comma(out, place)?;
            put_value(alloc, out, item)
        }
        None => Ok(()),
    }
}

/// Adds the text of a table, without a letter.
#[cycle(writing)]
pub fn put_table(alloc: Global, out: &mut Vec<u8>, table: &FieldTable) -> Result<(), AllocError>
    ensures { OnOk result (out.new.items ≡ out.old.items ++ table_text table.now) }
{
    out.push(b'{')?;
    for place in 0..table.len() {
        put_pair(alloc, out, table, place)?;
    }
    out.push(b'}')?;
    Ok(())
}

#[cycle(writing)]
fn put_pair(
    alloc: Global,
    out: &mut Vec<u8>,
    table: &FieldTable,
    place: usize,
) -> Result<(), AllocError>
    ensures { OnOk result (out.new.items ≡ out.old.items ++ member_text pair_text place (slice_get table.now place)) }
{
    match table.at(place) {
        Some((key, value)) => {
            put_key(alloc, out, place, key)?;
            put_value(alloc, out, value)
        }
        None => Ok(()),
    }
}
