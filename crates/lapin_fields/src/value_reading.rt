//! Field values, arrays and tables, read: recursion on how deep they nest, and a loop over the members.
//!
//! An array or a table within another that can't be given as one reaches the user as its octets, so that no message is refused for what
//! its headers hold.

ghost use Rattle.std.specs.Prelude.{[], length, Ok, Err};
ghost use Rattle.lapin_values.specs.Data.{array, table, items_of, pairs_of};
ghost use Rattle.lapin_values.specs.DataOf.{data_of};
ghost use Rattle.lapin_fields.specs.Reading.{Gives, GivesAs, GivesWhole, GivesOne};
ghost use Rattle.lapin_fields.specs.ValueReading.{value_at, items_in, pairs_in, array_in, table_in, table_at, one_of};

use crate::fault::ReadFault;
use crate::leaves::{as_bytes, take_leaf};
use crate::octets::Octets;
use crate::texts::take_text;
use lapin_values::{AMQPValue, FieldArray, FieldTable, GatheredTable};
use std::alloc::Global;

/// How many levels of arrays and tables are read and written. A table that stands by itself is the first.
pub const LEVELS: u8 = 8;

/// The value that stands next behind the letter of its type. Arrays and tables in it nest at most so many levels.
#[cycle(taking)]
fn take_value(alloc: Global, octets: &mut Octets, level: u8) -> Result<AMQPValue, ReadFault>
    ensures { GivesAs data_of result octets.new (value_at level octets.old) }
{
    let letter = octets.octet()?;
    match letter {
        b'A' => {
            let piece = octets.counted()?;
            array_or_bytes(alloc, piece, level)
        }
        b'F' => {
            let piece = octets.counted()?;
            table_or_bytes(alloc, piece, level)
        }
        _ => take_leaf(alloc, octets, letter),
    }
}

#[cycle(taking)]
fn array_or_bytes(alloc: Global, piece: &[u8], level: u8) -> Result<AMQPValue, ReadFault>
    ensures { GivesOne data_of result (one_of (λ ds. array (items_of ds)) 65 piece.now (array_in level piece.now)) }
{
    match array_of(alloc, piece, level) {
        Ok(array) => Ok(AMQPValue::FieldArray(array)),
        Err(ReadFault::Malformed) => as_bytes(alloc, b'A', piece),
        Err(ReadFault::NoMemory) => Err(ReadFault::NoMemory),
    }
}

#[cycle(taking)]
fn table_or_bytes(alloc: Global, piece: &[u8], level: u8) -> Result<AMQPValue, ReadFault>
    ensures { GivesOne data_of result (one_of (λ ps. table (pairs_of ps)) 70 piece.now (table_in level piece.now)) }
{
    match table_of(alloc, piece, level) {
        Ok(table) => Ok(AMQPValue::FieldTable(table)),
        Err(ReadFault::Malformed) => as_bytes(alloc, b'F', piece),
        Err(ReadFault::NoMemory) => Err(ReadFault::NoMemory),
    }
}

#[cycle(taking)]
#[tactic(auto, unfolding(crate::specs::ValueReading::array_in))]
fn array_of(alloc: Global, piece: &[u8], level: u8) -> Result<FieldArray, ReadFault>
    ensures { GivesWhole result (array_in level piece.now) }
{
    if level == 0 {
        return Err(ReadFault::Malformed);
    }
    items(alloc, piece, level - 1)
}

#[cycle(taking)]
fn items(alloc: Global, piece: &[u8], level: u8) -> Result<FieldArray, ReadFault>
    ensures { GivesWhole result (items_in (value_at level) (length piece.now) [] piece.now) }
{
    let mut octets = Octets::new(piece);
    let mut items = FieldArray::new(alloc);
    for _turn in 0..piece.len() {
        if octets.is_empty() {
            return Ok(items);
        }
        let item = take_value(alloc, &mut octets, level)?;
        items.push(alloc, item)?;
    }
    octets.finish()?;
    Ok(items)
}

/// The table that the octets are, as the first of so many levels. Of two entries with one name the last counts.
#[cycle(taking)]
#[tactic(auto, unfolding(crate::specs::ValueReading::table_in))]
pub fn table_of(alloc: Global, piece: &[u8], level: u8) -> Result<FieldTable, ReadFault>
    ensures { GivesWhole result (table_in level piece.now) }
{
    if level == 0 {
        return Err(ReadFault::Malformed);
    }
    pairs(alloc, piece, level - 1)
}

#[cycle(taking)]
fn pairs(alloc: Global, piece: &[u8], level: u8) -> Result<FieldTable, ReadFault>
    ensures { GivesWhole result (pairs_in (value_at level) (length piece.now) [] piece.now) }
{
    let mut octets = Octets::new(piece);
    let mut pairs = GatheredTable::new(alloc);
    for _turn in 0..piece.len() {
        if octets.is_empty() {
            return Ok(pairs.into_table(alloc)?);
        }
        let key = take_text(alloc, &mut octets)?;
        let value = take_value(alloc, &mut octets, level)?;
        pairs.insert(alloc, key, value)?;
    }
    octets.finish()?;
    Ok(pairs.into_table(alloc)?)
}

/// The table that stands next behind its length.
pub fn take_table(alloc: Global, octets: &mut Octets) -> Result<FieldTable, ReadFault>
    ensures { Gives result octets.new (table_at octets.old) }
{
    let piece = octets.counted()?;
    table_of(alloc, piece, LEVELS)
}
