//! Field values, arrays and tables: recursion on the level of nesting, and a loop over the members.

ghost use Rattle.std.specs.Prelude.{◌≡◌, ◌∷◌, ◌++◌, List, [], true, IsTrue};
ghost use Rattle.std.specs.FinMap.Entries.{is_sorted};
ghost use Rattle.lapin_values.specs.Data.{Data};
ghost use Rattle.lapin_values.specs.DataOf.{data_of};
ghost use Rattle.lapin_values.specs.Table.{key_cmp};
ghost use Rattle.lapin_tokens.specs.Cursor.{Gives, GivesAs, GivesRest};
ghost use Rattle.lapin_tokens.specs.ValueReading.{added, leaf_at, value_at, items_at, pairs_at, array_at, table_at, key_at};

use crate::cursor::Cursor;
use crate::leaves::leaf_value;
use crate::letters::Letter;
use lapin_scalars::{ReadError, short_of};
use lapin_values::{AMQPValue, FieldArray, FieldTable, ShortString};
use std::alloc::Global;

fn leaf(alloc: Global, letter: Letter, text: &mut Cursor) -> Result<AMQPValue, ReadError>
    ensures { GivesAs (λ v. data_of v) result text.new (leaf_at letter text.old) }
{
    let piece = text.word();
    leaf_value(alloc, letter, piece)
}

// The key of a pair, with the equals sign behind it.
fn key(alloc: Global, text: &mut Cursor) -> Result<ShortString, ReadError>
    ensures { Gives result text.new (key_at text.old) }
{
    let piece = text.word();
    let key = short_of(alloc, piece)?;
    text.expect(b'=')?;
    Ok(key)
}

// Whether a pair with the key may stand behind the table's pairs.
fn follows(table: &FieldTable, key: &ShortString) -> bool
    ensures { (d : Data) → result ≡ is_sorted key_cmp (table.now ++ (key.now, d) ∷ []) }
{
    let count = table.len();
    if count == 0 {
        return true;
    }
    match table.at(count - 1) {
        Some((last, _)) => last.as_str() < key.as_str(),
        None => false,
    }
}

// Adds a pair behind the table's pairs, where its key is above all others.
fn add(
    alloc: Global,
    table: &mut FieldTable,
    key: ShortString,
    value: AMQPValue,
) -> Result<(), ReadError>
    ensures { GivesRest result table.new (added key (data_of value) table.old) }
{
    if !follows(table, &key) {
        return Err(ReadError::Bad);
    }
    table.insert(alloc, key, value)?;
    Ok(())
}

/// The value that the bytes begin with, which nests at most so many levels of arrays and tables.
#[cycle(values)]
pub fn value(alloc: Global, text: &mut Cursor, level: u8) -> Result<AMQPValue, ReadError>
    ensures { GivesAs (λ v. data_of v) result text.new (value_at level text.old) }
{
    match text.letter() {
        Some(letter) => match letter {
            Letter::FieldArray => Ok(AMQPValue::FieldArray(array(alloc, text, level)?)),
            Letter::FieldTable => Ok(AMQPValue::FieldTable(table_from(alloc, text, level)?)),
            _ => leaf(alloc, letter, text),
        },
        None => Err(ReadError::Bad),
    }
}

/// The array that the bytes begin with, without its letter. It may be the first of so many levels.
#[cycle(values)]
#[tactic(auto, unfolding(crate::specs::ValueReading::array_at))]
pub fn array(alloc: Global, text: &mut Cursor, level: u8) -> Result<FieldArray, ReadError>
    ensures { Gives result text.new (array_at level text.old) }
{
    if level == 0 {
        return Err(ReadError::Bad);
    }
    text.expect(b'[')?;
    if text.skip(b']') {
        return Ok(FieldArray::new(alloc));
    }
    items(alloc, text, level - 1)
}

// The values of an array and the bracket behind them.
#[cycle(values)]
fn items(alloc: Global, text: &mut Cursor, level: u8) -> Result<FieldArray, ReadError>
    ensures { Gives result text.new (items_at level text.old) }
{
    let mut items = FieldArray::new(alloc);
    for _turn in 0..text.len() {
        let item = value(alloc, text, level)?;
        items.push(alloc, item)?;
        if text.skip(b']') {
            return Ok(items);
        }
        text.expect(b',')?;
    }
    Err(ReadError::Bad)
}

/// The table that the bytes begin with, without its letter. It may be the first of so many levels.
#[cycle(values)]
#[tactic(auto, unfolding(crate::specs::ValueReading::table_at))]
pub fn table_from(alloc: Global, text: &mut Cursor, level: u8) -> Result<FieldTable, ReadError>
    ensures { Gives result text.new (table_at level text.old) }
{
    if level == 0 {
        return Err(ReadError::Bad);
    }
    text.expect(b'{')?;
    if text.skip(b'}') {
        return Ok(FieldTable::new(alloc));
    }
    pairs(alloc, text, level - 1)
}

// The pairs of a table and the brace behind them.
#[cycle(values)]
fn pairs(alloc: Global, text: &mut Cursor, level: u8) -> Result<FieldTable, ReadError>
    ensures { Gives result text.new (pairs_at level text.old) }
{
    let mut pairs = FieldTable::new(alloc);
    for _turn in 0..text.len() {
        let key = key(alloc, text)?;
        let value = value(alloc, text, level)?;
        add(alloc, &mut pairs, key, value)?;
        if text.skip(b'}') {
            return Ok(pairs);
        }
        text.expect(b',')?;
    }
    Err(ReadError::Bad)
}
