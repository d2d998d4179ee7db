//! How values are shown, by `{}` and by `{:?}` alike: as docs/FORMAT.md writes them, so that what a program prints of a value can stand in
//! a line of its input. No clause promises these texts; tests compare them with those of the crates that print lines.

use crate::payload::Payload;
use crate::properties::BasicProperties;
use crate::text::{LongString, ShortString};
use crate::value::{AMQPValue, FieldArray, FieldTable};
use std::fmt;

// A letter, and behind it bytes as pairs of lower-case hexadecimal digits.
fn show_pairs<W: fmt::Write>(letter: &str, bytes: &[u8], f: &mut fmt::Formatter<W>) -> fmt::Result {
    f.write_str(letter)?;
    for byte in bytes {
        write!(f, "{byte:02x}")?;
    }
    Ok(())
}

impl fmt::Display for ShortString {
    fn fmt<W: fmt::Write>(&self, f: &mut fmt::Formatter<W>) -> fmt::Result {
        show_pairs("x", self.as_str().as_bytes(), f)
    }
}

impl fmt::Debug for ShortString {
    fn fmt<W: fmt::Write>(&self, f: &mut fmt::Formatter<W>) -> fmt::Result {
        fmt::Display::fmt(self, f)
    }
}

/// As the value of a field that is one.
impl fmt::Display for LongString {
    fn fmt<W: fmt::Write>(&self, f: &mut fmt::Formatter<W>) -> fmt::Result {
        show_pairs("S", self.as_bytes(), f)
    }
}

impl fmt::Debug for LongString {
    fn fmt<W: fmt::Write>(&self, f: &mut fmt::Formatter<W>) -> fmt::Result {
        fmt::Display::fmt(self, f)
    }
}

impl fmt::Display for Payload {
    fn fmt<W: fmt::Write>(&self, f: &mut fmt::Formatter<W>) -> fmt::Result {
        show_pairs("x", self.as_bytes(), f)
    }
}

impl fmt::Debug for Payload {
    fn fmt<W: fmt::Write>(&self, f: &mut fmt::Formatter<W>) -> fmt::Result {
        fmt::Display::fmt(self, f)
    }
}

// The comma before a member that is not the first.
fn show_comma<W: fmt::Write>(place: usize, f: &mut fmt::Formatter<W>) -> fmt::Result {
    if place == 0 {
        return Ok(());
    }
    f.write_str(",")
}

// A letter, and behind it a number.
fn show_number<T: fmt::Display + Copy, W: fmt::Write>(
    letter: &str,
    number: T,
    f: &mut fmt::Formatter<W>,
) -> fmt::Result {
    write!(f, "{letter}{number}")
}

#[cycle(shown)]
fn show_value<W: fmt::Write>(value: &AMQPValue, f: &mut fmt::Formatter<W>) -> fmt::Result {
    match value {
        AMQPValue::Boolean(flag) => show_number("t", u8::from(*flag), f),
        AMQPValue::ShortShortInt(number) => show_number("b", *number, f),
        AMQPValue::ShortShortUInt(number) => show_number("B", *number, f),
        AMQPValue::ShortInt(number) => show_number("s", *number, f),
        AMQPValue::ShortUInt(number) => show_number("u", *number, f),
        AMQPValue::LongInt(number) => show_number("I", *number, f),
        AMQPValue::LongUInt(number) => show_number("i", *number, f),
        AMQPValue::LongLongInt(number) => show_number("l", *number, f),
        AMQPValue::Timestamp(number) => show_number("T", *number, f),
        AMQPValue::LongString(text) => fmt::Display::fmt(text, f),
        AMQPValue::ByteArray(bytes) => show_pairs("y", bytes.as_bytes(), f),
        AMQPValue::FieldArray(array) => show_array(array, f),
        AMQPValue::FieldTable(table) => {
            f.write_str("F")?;
            show_table(table, f)
        }
        AMQPValue::Void => f.write_str("V"),
    }
}

#[cycle(shown)]
fn show_array<W: fmt::Write>(array: &FieldArray, f: &mut fmt::Formatter<W>) -> fmt::Result {
    f.write_str("A[")?;
    for place in 0..array.len() {
        if let Some(item) = array.at(place) {
            show_comma(place, f)?;
            show_value(item, f)?;
        }
    }
    f.write_str("]")
}

#[cycle(shown)]
fn show_table<W: fmt::Write>(table: &FieldTable, f: &mut fmt::Formatter<W>) -> fmt::Result {
    f.write_str("{")?;
    for place in 0..table.len() {
        if let Some((key, value)) = table.at(place) {
            show_comma(place, f)?;
            write!(f, "{key}=")?;
            show_value(value, f)?;
        }
    }
    f.write_str("}")
}

impl fmt::Display for AMQPValue {
    fn fmt<W: fmt::Write>(&self, f: &mut fmt::Formatter<W>) -> fmt::Result {
        show_value(self, f)
    }
}

impl fmt::Debug for AMQPValue {
    fn fmt<W: fmt::Write>(&self, f: &mut fmt::Formatter<W>) -> fmt::Result {
        show_value(self, f)
    }
}

impl fmt::Display for FieldArray {
    fn fmt<W: fmt::Write>(&self, f: &mut fmt::Formatter<W>) -> fmt::Result {
        show_array(self, f)
    }
}

impl fmt::Debug for FieldArray {
    fn fmt<W: fmt::Write>(&self, f: &mut fmt::Formatter<W>) -> fmt::Result {
        show_array(self, f)
    }
}

impl fmt::Display for FieldTable {
    fn fmt<W: fmt::Write>(&self, f: &mut fmt::Formatter<W>) -> fmt::Result {
        show_table(self, f)
    }
}

impl fmt::Debug for FieldTable {
    fn fmt<W: fmt::Write>(&self, f: &mut fmt::Formatter<W>) -> fmt::Result {
        show_table(self, f)
    }
}

// A property that is set, behind a comma where another came before it. Says whether none came yet.
fn show_property<T: fmt::Display + Copy, W: fmt::Write>(
    is_first: bool,
    name: &str,
    value: Option<T>,
    f: &mut fmt::Formatter<W>,
) -> Result<bool, fmt::Error> {
    let Some(value) = value else {
        return Ok(is_first);
    };
    let comma = if is_first { "" } else { "," };
    write!(f, "{comma}{name}={value}")?;
    Ok(false)
}

// The properties that say what the body is and how it is to be handled. Says whether none is set.
fn show_of_content<W: fmt::Write>(
    of: &BasicProperties,
    f: &mut fmt::Formatter<W>,
) -> Result<bool, fmt::Error> {
    let first = show_property(true, "content_type", of.content_type(), f)?;
    let first = show_property(first, "content_encoding", of.content_encoding(), f)?;
    let first = show_property(first, "headers", of.headers(), f)?;
    let first = show_property(first, "delivery_mode", of.delivery_mode(), f)?;
    show_property(first, "priority", of.priority(), f)
}

// The properties that say which message it is, behind those of the content. Says whether none came yet.
fn show_of_message<W: fmt::Write>(
    first: bool,
    of: &BasicProperties,
    f: &mut fmt::Formatter<W>,
) -> Result<bool, fmt::Error> {
    let first = show_property(first, "correlation_id", of.correlation_id(), f)?;
    let first = show_property(first, "reply_to", of.reply_to(), f)?;
    let first = show_property(first, "expiration", of.expiration(), f)?;
    let first = show_property(first, "message_id", of.message_id(), f)?;
    show_property(first, "timestamp", of.timestamp(), f)
}

// The properties that say whose message it is, behind those of the message. Says whether none is set at all.
fn show_of_sender<W: fmt::Write>(
    first: bool,
    of: &BasicProperties,
    f: &mut fmt::Formatter<W>,
) -> Result<bool, fmt::Error> {
    let first = show_property(first, "kind", of.kind(), f)?;
    let first = show_property(first, "user_id", of.user_id(), f)?;
    let first = show_property(first, "app_id", of.app_id(), f)?;
    show_property(first, "cluster_id", of.cluster_id(), f)
}

fn show_properties<W: fmt::Write>(
    properties: &BasicProperties,
    f: &mut fmt::Formatter<W>,
) -> fmt::Result {
    f.write_str("[")?;
    let first = show_of_content(properties, f)?;
    let first = show_of_message(first, properties, f)?;
    show_of_sender(first, properties, f)?;
    f.write_str("]")
}

impl fmt::Display for BasicProperties {
    fn fmt<W: fmt::Write>(&self, f: &mut fmt::Formatter<W>) -> fmt::Result {
        show_properties(self, f)
    }
}

impl fmt::Debug for BasicProperties {
    fn fmt<W: fmt::Write>(&self, f: &mut fmt::Formatter<W>) -> fmt::Result {
        show_properties(self, f)
    }
}
