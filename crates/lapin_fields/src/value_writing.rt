//! Field values, arrays and tables, written: by the letters that RabbitMQ gives the types of AMQP 0-9-1, section 4.2.5.5.

ghost use Rattle.std.specs.Prelude.{◌≡◌, ◌++◌, ◌∷◌, [], OnOk, slice_get};
ghost use Rattle.lapin_values.specs.Data.{boolean, array as an_array, table as a_table, items_of, pairs_of};
ghost use Rattle.lapin_values.specs.DataOf.{data_of};
ghost use Rattle.lapin_fields.specs.Fields.{octet, short, long, wide, counted};
ghost use Rattle.lapin_fields.specs.Fits.{StringFits, LeafPartFits, ValueFits, TableFits, MemberFits, PairFits, Refused};
ghost use Rattle.lapin_fields.specs.Values.{leaf_bytes, leaf_part, value_bytes, array_bytes, table_bytes, pair_bytes, member_bytes};

use crate::fault::WriteFault;
use crate::flags::bit;
use crate::octets::{put_counted, put_long, put_octet, put_short, put_wide};
use crate::texts::put_text;
use crate::value_reading::LEVELS;
use lapin_values::{AMQPValue, FieldArray, FieldTable, NoMemory};
use std::alloc::Global;

fn put_truth(out: &mut Vec<u8>, flag: bool) -> Result<(), NoMemory>
    ensures { OnOk result (out.new.items ≡ out.old.items ++ leaf_bytes (boolean flag)) }
{
    put_octet(out, b't')?;
    put_octet(out, bit(flag))
}

fn put_small(out: &mut Vec<u8>, letter: u8, number: u8) -> Result<(), NoMemory>
    ensures { OnOk result (out.new.items ≡ out.old.items ++ letter ∷ octet number) }
{
    put_octet(out, letter)?;
    put_octet(out, number)
}

fn put_short_value(out: &mut Vec<u8>, letter: u8, number: u16) -> Result<(), NoMemory>
    ensures { OnOk result (out.new.items ≡ out.old.items ++ letter ∷ short number) }
{
    put_octet(out, letter)?;
    put_short(out, number)
}

fn put_long_value(out: &mut Vec<u8>, letter: u8, number: u32) -> Result<(), NoMemory>
    ensures { OnOk result (out.new.items ≡ out.old.items ++ letter ∷ long number) }
{
    put_octet(out, letter)?;
    put_long(out, number)
}

fn put_wide_value(out: &mut Vec<u8>, letter: u8, number: u64) -> Result<(), NoMemory>
    ensures { OnOk result (out.new.items ≡ out.old.items ++ letter ∷ wide number) }
{
    put_octet(out, letter)?;
    put_wide(out, number)
}

fn put_string(out: &mut Vec<u8>, letter: u8, bytes: &[u8]) -> Result<(), WriteFault>
    ensures bytes { OnOk result (out.new.items ≡ out.old.items ++ letter ∷ counted bytes.now) }
    ensures fits { OnOk result (StringFits bytes.now) }
    ensures refused { Refused result (StringFits bytes.now) }
{
    put_octet(out, letter)?;
    put_counted(out, bytes)
}

// A value that holds no other behind its letter; nothing of an array or a table.
fn put_leaf(out: &mut Vec<u8>, value: &AMQPValue) -> Result<(), WriteFault>
    ensures bytes { OnOk result (out.new.items ≡ out.old.items ++ leaf_part (data_of value.now)) }
    ensures fits { OnOk result (LeafPartFits (data_of value.now)) }
    ensures refused { Refused result (LeafPartFits (data_of value.now)) }
{
    match value {
        AMQPValue::Boolean(flag) => {
            put_truth(out, *flag)?;
            Ok(())
        }
        AMQPValue::ShortShortInt(number) => {
            put_small(out, b'b', number.cast_unsigned())?;
            Ok(())
        }
        AMQPValue::ShortShortUInt(number) => {
            put_small(out, b'B', *number)?;
            Ok(())
        }
        AMQPValue::ShortInt(number) => {
            put_short_value(out, b's', number.cast_unsigned())?;
            Ok(())
        }
        AMQPValue::ShortUInt(number) => {
            put_short_value(out, b'u', *number)?;
            Ok(())
        }
        AMQPValue::LongInt(number) => {
            put_long_value(out, b'I', number.cast_unsigned())?;
            Ok(())
        }
        AMQPValue::LongUInt(number) => {
            put_long_value(out, b'i', *number)?;
            Ok(())
        }
        AMQPValue::LongLongInt(number) => {
            put_wide_value(out, b'l', number.cast_unsigned())?;
            Ok(())
        }
        AMQPValue::Timestamp(number) => {
            put_wide_value(out, b'T', *number)?;
            Ok(())
        }
        AMQPValue::LongString(text) => put_string(out, b'S', text.as_bytes()),
        AMQPValue::ByteArray(bytes) => put_string(out, b'x', bytes.as_bytes()),
        AMQPValue::FieldArray(_) | AMQPValue::FieldTable(_) => Ok(()),
        AMQPValue::Void => {
            put_octet(out, b'V')?;
            Ok(())
        }
    }
}

/// Adds a value behind its letter. Arrays and tables in it nest at most so many levels.
#[cycle(putting)]
fn put_value(
    alloc: Global,
    out: &mut Vec<u8>,
    value: &AMQPValue,
    level: u8,
) -> Result<(), WriteFault>
    ensures bytes { OnOk result (out.new.items ≡ out.old.items ++ value_bytes (data_of value.now)) }
    ensures fits { OnOk result (ValueFits level (data_of value.now)) }
    ensures refused { Refused result (ValueFits level (data_of value.now)) }
{
    match value {
        AMQPValue::FieldArray(array) => {
            put_octet(out, b'A')?;
            put_array(alloc, out, array, level)
        }
        AMQPValue::FieldTable(table) => {
            put_octet(out, b'F')?;
            put_levels(alloc, out, table, level)
        }
        _ => put_leaf(out, value),
    }
}

#[cycle(putting)]
fn put_array(
    alloc: Global,
    out: &mut Vec<u8>,
    array: &FieldArray,
    level: u8,
) -> Result<(), WriteFault>
    ensures bytes { OnOk result (out.new.items ≡ out.old.items ++ array_bytes array.now) }
    ensures fits { OnOk result (ValueFits level (an_array (items_of array.now))) }
    ensures refused { Refused result (ValueFits level (an_array (items_of array.now))) }
{
    if level == 0 {
        return Err(WriteFault::TooDeep);
    }
    let mut inner = Vec::new(alloc);
    for place in 0..array.len() {
        put_item(alloc, &mut inner, array, place, level - 1)?;
    }
    put_counted(out, &inner)
}

#[cycle(putting)]
fn put_item(
    alloc: Global,
    out: &mut Vec<u8>,
    array: &FieldArray,
    place: usize,
    level: u8,
) -> Result<(), WriteFault>
    ensures bytes { OnOk result (out.new.items ≡ out.old.items ++ member_bytes value_bytes (slice_get array.now place)) }
    ensures fits { OnOk result (MemberFits (ValueFits level) (slice_get array.now place)) }
    ensures refused { Refused result (MemberFits (ValueFits level) (slice_get array.now place)) }
{
    match array.at(place) {
        Some(item) => put_value(alloc, out, item, level),
        None => Ok(()),
    }
}

// Adds a table that nests at most so many levels, itself the first.
#[cycle(putting)]
fn put_levels(
    alloc: Global,
    out: &mut Vec<u8>,
    table: &FieldTable,
    level: u8,
) -> Result<(), WriteFault>
    ensures bytes { OnOk result (out.new.items ≡ out.old.items ++ table_bytes table.now) }
    ensures fits { OnOk result (ValueFits level (a_table (pairs_of table.now))) }
    ensures refused { Refused result (ValueFits level (a_table (pairs_of table.now))) }
{
    if level == 0 {
        return Err(WriteFault::TooDeep);
    }
    let mut inner = Vec::new(alloc);
    for place in 0..table.len() {
        put_pair(alloc, &mut inner, table, place, level - 1)?;
    }
    put_counted(out, &inner)
}

#[cycle(putting)]
fn put_pair(
    alloc: Global,
    out: &mut Vec<u8>,
    table: &FieldTable,
    place: usize,
    level: u8,
) -> Result<(), WriteFault>
    ensures bytes { OnOk result (out.new.items ≡ out.old.items ++ member_bytes pair_bytes (slice_get table.now place)) }
    ensures fits { OnOk result (MemberFits (PairFits level) (slice_get table.now place)) }
    ensures refused { Refused result (MemberFits (PairFits level) (slice_get table.now place)) }
{
    match table.at(place) {
        Some((key, value)) => {
            put_text(out, key)?;
            put_value(alloc, out, value, level)
        }
        None => Ok(()),
    }
}

/// Adds a table.
///
/// # Errors
/// `TooLong`, `TooDeep` where it nests more than eight levels, and `NoMemory`.
pub fn put_table(alloc: Global, out: &mut Vec<u8>, table: &FieldTable) -> Result<(), WriteFault>
    ensures bytes { OnOk result (out.new.items ≡ out.old.items ++ table_bytes table.now) }
    ensures fits { OnOk result (TableFits table.now) }
    ensures refused { Refused result (TableFits table.now) }
{
    put_levels(alloc, out, table, LEVELS)
}
