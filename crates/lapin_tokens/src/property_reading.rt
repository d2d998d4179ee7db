//! The properties of a message: each that is given, once, in their order, between square brackets.

ghost use Rattle.std.specs.Prelude.{◌≡◌, true};
ghost use Rattle.lapin_values.specs.Properties.{no_properties};
ghost use Rattle.lapin_tokens.specs.Cursor.{Gives, GivesRest};
ghost use Rattle.lapin_tokens.specs.Properties.{short, headers as some_headers, octet, moment};
ghost use Rattle.lapin_tokens.specs.PropertyReading.{GivesPart, kind_at, text_at, put_text, set_at, closed, part_at, parts_at, properties_at};

use crate::cursor::Cursor;
use crate::names::{PROPERTIES, Property, name_of};
use crate::values::table_from;
use lapin_scalars::{ReadError, short_of, u8_of, u64_of};
use lapin_values::{BasicProperties, FieldTable, ShortString};
use std::alloc::Global;

#[tactic(auto, unfolding(crate::specs::PropertyReading::kind_at))]
fn short_text(alloc: Global, text: &mut Cursor) -> Result<ShortString, ReadError>
    ensures { Gives result text.new (kind_at short text.old) }
{
    let piece = text.word();
    short_of(alloc, piece)
}

#[tactic(auto, unfolding(crate::specs::PropertyReading::kind_at))]
fn headers(alloc: Global, text: &mut Cursor) -> Result<FieldTable, ReadError>
    ensures { Gives result text.new (kind_at some_headers text.old) }
{
    table_from(alloc, text, 8)
}

#[tactic(auto, unfolding(crate::specs::PropertyReading::kind_at))]
fn small_number(text: &mut Cursor) -> Result<u8, ReadError>
    ensures { Gives result text.new (kind_at octet text.old) }
{
    let piece = text.word();
    u8_of(piece)
}

#[tactic(auto, unfolding(crate::specs::PropertyReading::kind_at))]
fn time(text: &mut Cursor) -> Result<u64, ReadError>
    ensures { Gives result text.new (kind_at moment text.old) }
{
    let piece = text.word();
    u64_of(piece)
}

// The properties with a short text for one more; without it for a property of another kind.
fn with_text(property: Property, value: ShortString, properties: BasicProperties) -> BasicProperties
    ensures { result ≡ put_text property value properties }
{
    match property {
        Property::ContentType => properties.with_content_type(value),
        Property::ContentEncoding => properties.with_content_encoding(value),
        Property::CorrelationId => properties.with_correlation_id(value),
        Property::ReplyTo => properties.with_reply_to(value),
        Property::Expiration => properties.with_expiration(value),
        Property::MessageId => properties.with_message_id(value),
        Property::Kind => properties.with_kind(value),
        Property::UserId => properties.with_user_id(value),
        Property::AppId => properties.with_app_id(value),
        Property::ClusterId => properties.with_cluster_id(value),
        _ => properties,
    }
}

fn with_short(
    alloc: Global,
    property: Property,
    properties: BasicProperties,
    text: &mut Cursor,
) -> Result<BasicProperties, ReadError>
    ensures { Gives result text.new (text_at property properties text.old) }
{
    let value = short_text(alloc, text)?;
    Ok(with_text(property, value, properties))
}

fn with_headers(
    alloc: Global,
    properties: BasicProperties,
    text: &mut Cursor,
) -> Result<BasicProperties, ReadError>
    ensures { Gives result text.new (set_at Property.Headers properties text.old) }
{
    let value = headers(alloc, text)?;
    Ok(properties.with_headers(value))
}

fn with_delivery_mode(
    properties: BasicProperties,
    text: &mut Cursor,
) -> Result<BasicProperties, ReadError>
    ensures { Gives result text.new (set_at Property.DeliveryMode properties text.old) }
{
    let value = small_number(text)?;
    Ok(properties.with_delivery_mode(value))
}

fn with_priority(
    properties: BasicProperties,
    text: &mut Cursor,
) -> Result<BasicProperties, ReadError>
    ensures { Gives result text.new (set_at Property.Priority properties text.old) }
{
    let value = small_number(text)?;
    Ok(properties.with_priority(value))
}

fn with_timestamp(
    properties: BasicProperties,
    text: &mut Cursor,
) -> Result<BasicProperties, ReadError>
    ensures { Gives result text.new (set_at Property.Timestamp properties text.old) }
{
    let value = time(text)?;
    Ok(properties.with_timestamp(value))
}

// The properties with the value of one more, which stands next.
fn with_value(
    alloc: Global,
    property: Property,
    properties: BasicProperties,
    text: &mut Cursor,
) -> Result<BasicProperties, ReadError>
    ensures { Gives result text.new (set_at property properties text.old) }
{
    match property {
        Property::Headers => with_headers(alloc, properties, text),
        Property::DeliveryMode => with_delivery_mode(properties, text),
        Property::Priority => with_priority(properties, text),
        Property::Timestamp => with_timestamp(properties, text),
        Property::ContentType
        | Property::ContentEncoding
        | Property::CorrelationId
        | Property::ReplyTo
        | Property::Expiration
        | Property::MessageId
        | Property::Kind
        | Property::UserId
        | Property::AppId
        | Property::ClusterId => with_short(alloc, property, properties, text),
    }
}

// The property behind its mark and its name, where it stands next. Whether it is the first that is given says its mark.
#[tactic(auto, unfolding(crate::specs::PropertyReading::part_at))]
fn read_part(
    alloc: Global,
    property: Property,
    properties: BasicProperties,
    first: &mut bool,
    text: &mut Cursor,
) -> Result<BasicProperties, ReadError>
    ensures { GivesPart result first.new text.new (part_at property properties first.old text.old) }
{
    let mark = if *first { b'[' } else { b',' };
    if !text.skip_name(mark, name_of(property)) {
        return Ok(properties);
    }
    *first = false;
    with_value(alloc, property, properties, text)
}

fn close(first: bool, text: &mut Cursor) -> Result<(), ReadError>
    ensures { GivesRest result text.new (closed first text.old) }
{
    if first {
        text.expect(b'[')?;
    }
    text.expect(b']')
}

fn parts(alloc: Global, first: &mut bool, text: &mut Cursor) -> Result<BasicProperties, ReadError>
    requires { first.old ≡ true }
    ensures { GivesPart result first.new text.new (parts_at PROPERTIES no_properties true text.old) }
{
    let mut properties = BasicProperties::default();
    for property in PROPERTIES {
        properties = read_part(alloc, property, properties, first, text)?;
    }
    Ok(properties)
}

/// The properties that the bytes begin with.
#[tactic(auto, unfolding(crate::specs::PropertyReading::properties_at))]
pub fn properties_from(alloc: Global, text: &mut Cursor) -> Result<BasicProperties, ReadError>
    ensures { Gives result text.new (properties_at text.old) }
{
    let mut first = true;
    let properties = parts(alloc, &mut first, text)?;
    close(first, text)?;
    Ok(properties)
}
