//! The fields of a line, each the next of its pieces. Every reader takes the piece, also where it is bad.
//!
//! A flag and a number of at most 19 digits are read as the piece is cut; any other piece is cut first and then read.

ghost use Rattle.std.specs.Prelude.{◌≡◌, IfOk, IsTrue};
ghost use Rattle.lapin_tokens.specs.Fields.{short_number, long_number, wide_number};
ghost use Rattle.lapin_tokens.specs.Fields.Field.{text as text_field, bytes as bytes_field, table as table_field, props as props_field, flag as flag_field};
ghost use Rattle.lapin_tokens.specs.Reading.{Gives, GivesValue, field_at, value_of};

use crate::cursor::Cursor;
use crate::property_reading::properties_from;
use crate::tokens::Tokens;
use crate::values::table_from;
use lapin_scalars::{ReadError, bytes_of, flag_of, short_of, u16_of, u32_of, u64_of};
use lapin_values::{BasicProperties, FieldTable, Payload, ShortString};
use std::alloc::Global;

/// The table whose token the piece is: it nests at most 8 levels, and its keys rise.
#[tactic(auto, unfolding(crate::specs::Reading::value_of))]
pub fn table_of(alloc: Global, piece: &[u8]) -> Result<FieldTable, ReadError>
    ensures { GivesValue (λ t. t) result (value_of table_field piece.now) }
{
    let mut text = Cursor::new(piece);
    let table = table_from(alloc, &mut text, 8)?;
    text.finish()?;
    Ok(table)
}

#[tactic(auto, unfolding(crate::specs::Reading::value_of))]
fn given_properties(alloc: Global, piece: &[u8]) -> Result<BasicProperties, ReadError>
    ensures { GivesValue (λ p. p) result (value_of props_field piece.now) }
{
    let mut text = Cursor::new(piece);
    let properties = properties_from(alloc, &mut text)?;
    text.finish()?;
    Ok(properties)
}

/// The properties whose token the piece is.
pub fn properties_of(alloc: Global, piece: &[u8]) -> Result<BasicProperties, ReadError>
    ensures { GivesValue (λ p. p) result (value_of props_field piece.now) }
{
    match piece {
        // Most messages have none, and then none is asked for.
        b"[]" => Ok(BasicProperties::default()),
        _ => given_properties(alloc, piece),
    }
}

/// A short text.
#[tactic(auto, unfolding(crate::specs::Reading::field_at, crate::specs::Reading::value_of))]
pub fn text(alloc: Global, tokens: &mut Tokens) -> Result<ShortString, ReadError>
    ensures { Gives result tokens.new (field_at text_field tokens.old) }
{
    match tokens.next() {
        Some(piece) => short_of(alloc, piece),
        None => Err(ReadError::Bad),
    }
}

/// Bytes, as those of a message's body.
#[tactic(auto, unfolding(crate::specs::Reading::field_at, crate::specs::Reading::value_of))]
pub fn payload(alloc: Global, tokens: &mut Tokens) -> Result<Payload, ReadError>
    ensures { Gives result tokens.new (field_at bytes_field tokens.old) }
{
    match tokens.next() {
        Some(piece) => Ok(Payload::from_bytes(bytes_of(alloc, piece)?)),
        None => Err(ReadError::Bad),
    }
}

/// A table of arguments.
#[tactic(auto, unfolding(crate::specs::Reading::field_at))]
pub fn table(alloc: Global, tokens: &mut Tokens) -> Result<FieldTable, ReadError>
    ensures { Gives result tokens.new (field_at table_field tokens.old) }
{
    match tokens.next() {
        Some(piece) => table_of(alloc, piece),
        None => Err(ReadError::Bad),
    }
}

/// The properties of a message.
#[tactic(auto, unfolding(crate::specs::Reading::field_at))]
pub fn properties(alloc: Global, tokens: &mut Tokens) -> Result<BasicProperties, ReadError>
    ensures { Gives result tokens.new (field_at props_field tokens.old) }
{
    match tokens.next() {
        Some(piece) => properties_of(alloc, piece),
        None => Err(ReadError::Bad),
    }
}

/// A flag.
#[inline(always)]
#[tactic(auto, using(crate::proofs::SaidLaws::flag_said))]
pub fn flag(tokens: &mut Tokens) -> Result<bool, ReadError>
    ensures { Gives result tokens.new (field_at flag_field tokens.old) }
{
    match tokens.flag() {
        Some(flag) => Ok(flag),
        None => any_flag(tokens),
    }
}

#[inline(never)]
#[tactic(auto, unfolding(crate::specs::Reading::field_at, crate::specs::Reading::value_of))]
fn any_flag(tokens: &mut Tokens) -> Result<bool, ReadError>
    ensures { Gives result tokens.new (field_at flag_field tokens.old) }
{
    match tokens.next() {
        Some(piece) => flag_of(piece),
        None => Err(ReadError::Bad),
    }
}

/// A number of 16 bits.
#[inline(always)]
pub fn u16_at(tokens: &mut Tokens) -> Result<u16, ReadError>
    ensures { Gives result tokens.new (field_at short_number tokens.old) }
{
    match tokens.number() {
        Some(number) if number <= 0xffff => Ok(number as u16),
        Some(_) => Err(ReadError::Bad),
        None => any_u16_at(tokens),
    }
}

#[inline(never)]
#[tactic(auto, unfolding(crate::specs::Reading::field_at, crate::specs::Reading::value_of))]
fn any_u16_at(tokens: &mut Tokens) -> Result<u16, ReadError>
    ensures { Gives result tokens.new (field_at short_number tokens.old) }
{
    match tokens.next() {
        Some(piece) => u16_of(piece),
        None => Err(ReadError::Bad),
    }
}

/// A number of 32 bits.
#[inline(always)]
pub fn u32_at(tokens: &mut Tokens) -> Result<u32, ReadError>
    ensures { Gives result tokens.new (field_at long_number tokens.old) }
{
    match tokens.number() {
        Some(number) if number <= 0xffff_ffff => Ok(number as u32),
        Some(_) => Err(ReadError::Bad),
        None => any_u32_at(tokens),
    }
}

#[inline(never)]
#[tactic(auto, unfolding(crate::specs::Reading::field_at, crate::specs::Reading::value_of))]
fn any_u32_at(tokens: &mut Tokens) -> Result<u32, ReadError>
    ensures { Gives result tokens.new (field_at long_number tokens.old) }
{
    match tokens.next() {
        Some(piece) => u32_of(piece),
        None => Err(ReadError::Bad),
    }
}

/// A number of 64 bits.
#[inline(always)]
pub fn u64_at(tokens: &mut Tokens) -> Result<u64, ReadError>
    ensures { Gives result tokens.new (field_at wide_number tokens.old) }
{
    match tokens.number() {
        Some(number) => Ok(number),
        None => any_u64_at(tokens),
    }
}

#[inline(never)]
#[tactic(auto, unfolding(crate::specs::Reading::field_at, crate::specs::Reading::value_of))]
fn any_u64_at(tokens: &mut Tokens) -> Result<u64, ReadError>
    ensures { Gives result tokens.new (field_at wide_number tokens.old) }
{
    match tokens.next() {
        Some(piece) => u64_of(piece),
        None => Err(ReadError::Bad),
    }
}
