//! Which part of a token of properties, or of a table, is not in the format.
//!
//! Whether a part is one of its kind is asked of the readers of tokens themselves; here a token is only cut into its parts. The walk goes
//! from a container to the part that is wrong in it, and on into that part where it is a container too.

use lapin_scalars::{ReadError, read_short, u8_of, u64_of};
use lapin_tokens::cursor::Cursor;
use lapin_tokens::letters::{Letter, letter_named};
use lapin_tokens::names::{PROPERTIES, Property, name_of};
use lapin_tokens::table_of;
use lapin_tokens::values::value;
use lapin_types::NoMemory;
use std::alloc::Global;

/// How many levels tables and arrays may have.
const LEVELS: u8 = 8;

/// What holds parts.
#[derive(Clone, Copy, Debug, PartialEq, Eq)]
enum Kind {
    Properties,
    Table,
    Array,
}

/// A part that is wrong, and what is wanted of it.
#[derive(Clone, Copy, Debug)]
pub(crate) struct Part<'a> {
    /// The part, a pair or a value; or what holds it where its own end is wrong.
    pub part: &'a [u8],
    /// Its value, where it has one.
    value: &'a [u8],
    pub wanted: Asked,
}

/// What is wanted of a part.
#[derive(Clone, Copy, Debug, PartialEq, Eq)]
pub(crate) enum Asked {
    /// Properties between square brackets, a table between braces, an array behind an `A`.
    Brackets,
    /// A name, an equals sign and a value.
    Pair,
    /// One of the names of properties.
    Name,
    /// A name behind that of the part before it.
    Order,
    /// A key that is a text.
    Key,
    /// A key above the one before it.
    Rising,
    /// A value of this property's kind.
    Property(Property),
    /// One of the letters of values.
    Letter,
    /// A value of this letter's kind.
    Value(Letter),
    /// No more levels of arrays and tables.
    Levels,
}

// A container, or a part of one that holds parts itself.
#[derive(Clone, Copy, Debug)]
struct Inside<'a> {
    kind: Kind,
    bytes: &'a [u8],
    // How many levels it and what it holds may have.
    levels: u8,
}

/// The part that is wrong in a token of properties or of a table, as far as it can be told. The token is known to be wrong.
pub(crate) fn wrong_part<'a>(alloc: Global, kind: &str, token: &'a [u8]) -> Option<Part<'a>> {
    let (kind, levels) = match kind {
        "props" => (Kind::Properties, LEVELS + 1),
        "table" => (Kind::Table, LEVELS),
        _ => return None,
    };
    let mut inside = Inside {
        kind,
        bytes: token,
        levels,
    };
    for _level in 0..levels {
        match first_wrong(alloc, inside) {
            Some(part) => match held(part, inside.levels.saturating_sub(1)) {
                Some(next) => inside = next,
                None => return Some(part),
            },
            None => break,
        }
    }
    Some(whole(inside, Asked::Levels))
}

// The whole container as what is wrong.
fn whole(inside: Inside<'_>, wanted: Asked) -> Part<'_> {
    Part {
        part: inside.bytes,
        value: b"",
        wanted,
    }
}

// What a wrong part holds, where it is a container.
fn held(part: Part<'_>, levels: u8) -> Option<Inside<'_>> {
    let (kind, bytes) = match part.wanted {
        Asked::Value(Letter::FieldTable) => (Kind::Table, part.value.get(1..)?),
        Asked::Value(Letter::FieldArray) => (Kind::Array, part.value.get(1..)?),
        Asked::Property(Property::Headers) => (Kind::Table, part.value),
        _ => return None,
    };
    Some(Inside {
        kind,
        bytes,
        levels,
    })
}

// What stands before and behind the first equals sign.
fn pair_of(part: &[u8]) -> Option<(&[u8], &[u8])> {
    let place = part.iter().position(|byte| *byte == b'=')?;
    Some((part.get(..place)?, part.get(place.saturating_add(1)..)?))
}

// The first part of a container that is wrong by itself or by its place.
fn first_wrong<'a>(alloc: Global, inside: Inside<'a>) -> Option<Part<'a>> {
    let Some(bytes) = between(inside) else {
        return Some(whole(inside, Asked::Brackets));
    };
    if bytes.is_empty() {
        return None;
    }
    let mut depth: usize = 0;
    let mut start = 0;
    let mut before: &[u8] = b"";
    for (place, byte) in bytes.iter().enumerate() {
        match *byte {
            b'[' | b'{' => depth = depth.saturating_add(1),
            b']' | b'}' => depth = depth.saturating_sub(1),
            b',' if depth == 0 => {
                let part = bytes.get(start..place).unwrap_or(b"");
                let wrong = wrong_by(alloc, inside, before, part);
                if wrong.is_some() {
                    return wrong;
                }
                before = part;
                start = place.saturating_add(1);
            }
            _ => {}
        }
    }
    wrong_by(alloc, inside, before, bytes.get(start..).unwrap_or(b""))
}

// What stands between the brackets of a container, where it has both.
fn between(inside: Inside<'_>) -> Option<&[u8]> {
    let (first, last) = match inside.kind {
        Kind::Table => (b'{', b'}'),
        Kind::Properties | Kind::Array => (b'[', b']'),
    };
    match inside.bytes {
        [begin, bytes @ .., end] if *begin == first && *end == last => Some(bytes),
        _ => None,
    }
}

// A part, where it is wrong by itself or behind the part before it.
fn wrong_by<'a>(
    alloc: Global,
    inside: Inside<'a>,
    before: &'a [u8],
    part: &'a [u8],
) -> Option<Part<'a>> {
    let value = match (inside.kind, pair_of(part)) {
        (Kind::Array, _) | (_, None) => part,
        (_, Some((_, value))) => value,
    };
    let levels = inside.levels.saturating_sub(1);
    let wanted = match inside.kind {
        Kind::Properties => asked_of_property(alloc, before, part)?,
        Kind::Table => asked_of_entry(alloc, before, part, levels)?,
        Kind::Array => asked_of_value(alloc, part, levels)?,
    };
    Some(Part {
        part,
        value,
        wanted,
    })
}

// What is wanted of a property, where it is wrong.
fn asked_of_property(alloc: Global, before: &[u8], part: &[u8]) -> Option<Asked> {
    let Some((name, value)) = pair_of(part) else {
        return Some(Asked::Pair);
    };
    let Some(place) = place_of(name) else {
        return Some(Asked::Name);
    };
    if let Some((name, _)) = pair_of(before) {
        match place_of(name) {
            Some(earlier) if place <= earlier => return Some(Asked::Order),
            _ => {}
        }
    }
    let property = PROPERTIES.get(place).copied()?;
    if is_property(alloc, property, value) {
        return None;
    }
    Some(Asked::Property(property))
}

// The place of a property's name in their order.
fn place_of(name: &[u8]) -> Option<usize> {
    PROPERTIES
        .iter()
        .position(|property| name_of(*property) == name)
}

// Whether the bytes are a value of the property's kind. Where there is no memory to read it, nothing is said against it.
fn is_property(alloc: Global, property: Property, value: &[u8]) -> bool {
    match property {
        Property::Headers => is_read(table_of(alloc, value)),
        Property::DeliveryMode | Property::Priority => is_read(u8_of(value)),
        Property::Timestamp => is_read(u64_of(value)),
        _ => is_text(alloc, value),
    }
}

// What is wanted of an entry of a table, where it is wrong.
fn asked_of_entry(alloc: Global, before: &[u8], part: &[u8], levels: u8) -> Option<Asked> {
    let Some((key, value)) = pair_of(part) else {
        return Some(Asked::Pair);
    };
    if !is_text(alloc, key) {
        return Some(Asked::Key);
    }
    if let Some((earlier, _)) = pair_of(before) {
        // The digits of two keys stand to each other as their bytes.
        if key <= earlier {
            return Some(Asked::Rising);
        }
    }
    asked_of_value(alloc, value, levels)
}

// What is wanted of a value, where it is wrong.
fn asked_of_value(alloc: Global, bytes: &[u8], levels: u8) -> Option<Asked> {
    let Some(letter) = letter_of(bytes) else {
        return Some(Asked::Letter);
    };
    let mut cursor = Cursor::new(bytes);
    let read = is_read(value(alloc, &mut cursor, levels)) && is_read(cursor.finish());
    if read {
        None
    } else {
        Some(Asked::Value(letter))
    }
}

fn letter_of(bytes: &[u8]) -> Option<Letter> {
    match bytes {
        [first, ..] => letter_named(*first),
        [] => None,
    }
}

fn is_text(alloc: Global, bytes: &[u8]) -> bool {
    let read: Result<Option<_>, NoMemory> = read_short(alloc, bytes);
    let none = matches!(&read, Ok(None));
    drop(read);
    !none
}

fn is_read<T: Drop>(value: Result<T, ReadError>) -> bool {
    let read = !matches!(value, Err(ReadError::Bad));
    drop(value);
    read
}
