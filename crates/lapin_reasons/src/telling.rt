//! The words in which a stumble is told.

use crate::parts::{Asked, Part, wrong_part};
use crate::walk::{Stumble, Wanted};
use lapin_scalars::put_number;
use lapin_tokens::letters::Letter;
use lapin_tokens::names::Property;
use std::alloc::{AllocError, Global};

/// The most bytes of a token that are shown.
pub(crate) const SHOWN: usize = 40;

/// The names of properties in their order.
const NAMES: &str =
    "content_type, content_encoding, headers, delivery_mode, priority, correlation_id, reply_to, expiration, \
    message_id, timestamp, kind, user_id, app_id, cluster_id";

/// Adds what is wrong with a line: `token 4 is `hello`, and queue is wanted there: ..`.
pub(crate) fn put_stumble(
    alloc: Global,
    out: &mut Vec<u8>,
    stumble: &Stumble,
) -> Result<(), AllocError> {
    put_found(out, stumble)?;
    match stumble.wanted {
        Wanted::Field(kind) => {
            put(out, ", and ")?;
            put(out, stumble.field)?;
            put(out, " is wanted there: ")?;
            put(out, told_kind(kind))?;
            put_wrong_part(alloc, out, kind, stumble.found)?;
        }
        Wanted::Words(words) => {
            put(out, ", and ")?;
            put(out, words)?;
            put(out, " is wanted there")?;
        }
        Wanted::Method => put(out, ", and a method's name is wanted there, as basic.ack")?,
        Wanted::Call => put(
            out,
            ", and the name of a call is wanted there, as basic.publish",
        )?,
        Wanted::End => put(out, ", and the line should end before it")?,
    }
    put_form(out, stumble)
}

// The token, by its place.
fn put_found(out: &mut Vec<u8>, stumble: &Stumble) -> Result<(), AllocError> {
    let Some(found) = stumble.found else {
        return put(out, "it ends too early");
    };
    put(out, "token ")?;
    put_number(out, stumble.place)?;
    if found.is_empty() {
        return put(
            out,
            " is empty, since a space stands at an end or beside another",
        );
    }
    put(out, " is ")?;
    put_quoted(out, found, SHOWN)
}

/// Adds so many of the bytes at most, between backquotes.
pub(crate) fn put_quoted(out: &mut Vec<u8>, bytes: &[u8], most: usize) -> Result<(), AllocError> {
    out.push(b'`')?;
    put_shown(out, bytes, most)?;
    out.push(b'`')?;
    Ok(())
}

// The bytes as they can be shown: a byte that no letter, digit or mark of ASCII has becomes a question mark.
fn put_shown(out: &mut Vec<u8>, bytes: &[u8], most: usize) -> Result<(), AllocError> {
    for byte in bytes.iter().take(most) {
        let is_plain = b' ' <= *byte && *byte <= b'~';
        out.push(if is_plain { *byte } else { b'?' })?;
    }
    if most < bytes.len() {
        put(out, "..")?;
    }
    Ok(())
}

// The form of such a line, with the names of its fields.
fn put_form(out: &mut Vec<u8>, stumble: &Stumble) -> Result<(), AllocError> {
    if stumble.lead.is_empty() && stumble.head.is_empty() {
        return Ok(());
    }
    put(out, "; the form is `")?;
    put(out, stumble.lead)?;
    if !stumble.lead.is_empty() && !stumble.head.is_empty() {
        out.push(b' ')?;
    }
    put(
        out,
        if stumble.head.is_empty() {
            " .."
        } else {
            stumble.head
        },
    )?;
    if !stumble.name.is_empty() {
        out.push(b' ')?;
        put_shown(out, stumble.name, SHOWN)?;
    }
    for spec in stumble.row.split(' ') {
        if let Some((field, _)) = spec.split_once(':') {
            out.push(b' ')?;
            put(out, field)?;
        }
    }
    out.push(b'`')?;
    Ok(())
}

// What a field of the kind looks like.
fn told_kind(kind: &str) -> &'static str {
    match kind {
        "flag" => "0 or 1",
        "short" => "a number from 0 to 65535",
        "long" => "a number from 0 to 4294967295",
        "wide" => "a number from 0 to 18446744073709551615",
        "max" => "a number from 4096 to 4294967295",
        "text" =>
            "x and the text's bytes of UTF-8 as pairs of the digits 0 to 9 and a to f, at most 255 bytes",
        "bytes" => "x and the bytes as pairs of the digits 0 to 9 and a to f",
        "table" => "{} or {STR=VALUE,..} with rising keys",
        _ => "[] or [name=value,..] in the order of the format",
    }
}

// The part of properties or of a table that is wrong.
fn put_wrong_part(
    alloc: Global,
    out: &mut Vec<u8>,
    kind: &str,
    found: Option<&[u8]>,
) -> Result<(), AllocError> {
    let Some(token) = found else {
        return Ok(());
    };
    match wrong_part(alloc, kind, token) {
        Some(part) => put_part(out, part),
        None => Ok(()),
    }
}

fn put_part(out: &mut Vec<u8>, part: Part) -> Result<(), AllocError> {
    put(out, "; there ")?;
    put_quoted(out, part.part, SHOWN)?;
    put(out, " is wrong: ")?;
    match part.wanted {
        Asked::Name => {
            put(out, "the names are ")?;
            put(out, NAMES)
        }
        Asked::Order => {
            put(out, "each name stands once, in the order ")?;
            put(out, NAMES)
        }
        Asked::Property(property) => {
            put(out, "its value should be ")?;
            put(out, told_property(property))
        }
        asked => put(out, told_part(asked)),
    }
}

// What a part looks like.
fn told_part(asked: Asked) -> &'static str {
    match asked {
        Asked::Brackets => "it does not begin and end with its brackets",
        Asked::Pair => "a name, = and a value are wanted",
        Asked::Name | Asked::Order | Asked::Property(_) => "",
        Asked::Key =>
            "its key is not x and the text's bytes of UTF-8 as pairs of the digits 0 to 9 and a to f, at most 255 bytes",
        Asked::Rising => "its key is not above the key before it",
        Asked::Letter => "a value begins with one of the letters t b B s u I i l T S y F A V",
        Asked::Value(letter) => told_value(letter),
        Asked::Levels => "tables and arrays nest eight levels deep at most",
    }
}

// What a property's value looks like.
fn told_property(property: Property) -> &'static str {
    match property {
        Property::Headers => told_kind("table"),
        Property::DeliveryMode | Property::Priority => "a number from 0 to 255",
        Property::Timestamp => told_kind("wide"),
        _ => told_kind("text"),
    }
}

// What a value behind its letter looks like.
fn told_value(letter: Letter) -> &'static str {
    match letter {
        Letter::Boolean => "behind t stands 0 or 1",
        Letter::ShortShortInt => "behind b stands a number from -128 to 127",
        Letter::ShortShortUInt => "behind B stands a number from 0 to 255",
        Letter::ShortInt => "behind s stands a number from -32768 to 32767",
        Letter::ShortUInt => "behind u stands a number from 0 to 65535",
        Letter::LongInt => "behind I stands a number from -2147483648 to 2147483647",
        Letter::LongUInt => "behind i stands a number from 0 to 4294967295",
        Letter::LongLongInt =>
            "behind l stands a number from -9223372036854775808 to 9223372036854775807",
        Letter::Timestamp => "behind T stands a number from 0 to 18446744073709551615",
        Letter::LongString | Letter::ByteArray =>
            "behind its letter stand pairs of the digits 0 to 9 and a to f",
        Letter::FieldArray => "behind A stand values joined by commas, between [ and ]",
        Letter::FieldTable => "behind F stands a table",
        Letter::Void => "nothing stands behind V",
    }
}

/// Adds a text.
pub(crate) fn put(out: &mut Vec<u8>, text: &str) -> Result<(), AllocError> {
    out.extend_from_slice(text.as_bytes())
}
