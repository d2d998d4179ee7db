//! The text of a message's properties: each that is given, in their order, between square brackets.
//!
//! Where memory runs out, the text may end within the properties: the caller drops it.

ghost use Rattle.std.specs.Prelude.{◌≡◌, ◌++◌, ◌∷◌, ◌^◌, ℕ, List, [], Option, OnOk, IfOk, true, option_map};
ghost use Rattle.lapin_values.specs.Data.{Data};
ghost use Rattle.lapin_scalars.specs.Scalars.{scalar_text};
ghost use Rattle.lapin_scalars.specs.Scalars.Scalar.{text as a_text, number as a_number};
ghost use Rattle.lapin_tokens.specs.Values.{table_text};
ghost use Rattle.lapin_tokens.specs.Properties.{name, given, properties_text};
ghost use Rattle.lapin_tokens.specs.PropertyReading.{mark};
ghost use Rattle.lapin_tokens.specs.Writing.{marked, stays, ending_of, named, parts_text, is_missing, all_missing};

use crate::names::{PROPERTIES, Property, name_of};
use crate::value_writing::put_table;
use lapin_scalars::{put_hex, put_number};
use lapin_values::{BasicProperties, FieldTable, ShortString};
use std::alloc::{AllocError, Global};

// The mark, the name and the equals sign before a value.
fn put_name(out: &mut Vec<u8>, property: Property, first: bool) -> Result<(), AllocError>
    ensures { OnOk result (out.new.items ≡ out.old.items ++ mark first ∷ name property ++ 61 ∷ []) }
{
    out.push(if first { b'[' } else { b',' })?;
    out.extend_from_slice(name_of(property))?;
    out.push(b'=')?;
    Ok(())
}

fn put_text(
    alloc: Global,
    out: &mut Vec<u8>,
    property: Property,
    first: bool,
    value: Option<&ShortString>,
) -> Result<bool, AllocError>
    ensures { let v : Option (List ℕ) = option_map (λ s. s.now) value.entry in IfOk result (λ still. (still ≡ stays v first) × (out.new.items ≡ out.old.items ++ named (λ s. scalar_text a_text s) property first v)) }
{
    match value {
        Some(text) => {
            put_name(out, property, first)?;
            put_hex(alloc, out, text.as_str().as_bytes())?;
            Ok(false)
        }
        None => Ok(first),
    }
}

fn put_headers(
    alloc: Global,
    out: &mut Vec<u8>,
    first: bool,
    value: Option<&FieldTable>,
) -> Result<bool, AllocError>
    ensures { let v : Option (List (List ℕ × Data)) = option_map (λ t. t.now) value.entry in IfOk result (λ still. (still ≡ stays v first) × (out.new.items ≡ out.old.items ++ named (λ t. table_text t) Property.Headers first v)) }
{
    match value {
        Some(table) => {
            put_name(out, Property::Headers, first)?;
            put_table(alloc, out, table)?;
            Ok(false)
        }
        None => Ok(first),
    }
}

fn put_count(
    out: &mut Vec<u8>,
    property: Property,
    first: bool,
    value: Option<u64>,
) -> Result<bool, AllocError>
    ensures { IfOk result (λ still. (still ≡ stays value first) × (out.new.items ≡ out.old.items ++ named (λ n. scalar_text (a_number (2 ^ 64)) n) property first value)) }
{
    match value {
        Some(number) => {
            put_name(out, property, first)?;
            put_number(out, number)?;
            Ok(false)
        }
        None => Ok(first),
    }
}

fn wide(value: Option<u8>) -> Option<u64>
    ensures { result ≡ value }
{
    match value {
        Some(number) => Some(u64::from(number)),
        None => None,
    }
}

// A property behind its mark, where it is given. Answers whether the next is still the first that is given.
fn put_part(
    alloc: Global,
    out: &mut Vec<u8>,
    property: Property,
    first: bool,
    properties: &BasicProperties,
) -> Result<bool, AllocError>
    ensures { IfOk result (λ still. (still ≡ stays (given property properties.now) first) × (out.new.items ≡ out.old.items ++ marked property (given property properties.now) first)) }
{
    match property {
        Property::ContentType => put_text(alloc, out, property, first, properties.content_type()),
        Property::ContentEncoding => put_text(
            alloc,
            out,
            property,
            first,
            properties.content_encoding(),
        ),
        Property::Headers => put_headers(alloc, out, first, properties.headers()),
        Property::DeliveryMode => put_count(out, property, first, wide(properties.delivery_mode())),
        Property::Priority => put_count(out, property, first, wide(properties.priority())),
        Property::CorrelationId => put_text(
            alloc,
            out,
            property,
            first,
            properties.correlation_id(),
        ),
        Property::ReplyTo => put_text(alloc, out, property, first, properties.reply_to()),
        Property::Expiration => put_text(alloc, out, property, first, properties.expiration()),
        Property::MessageId => put_text(alloc, out, property, first, properties.message_id()),
        Property::Timestamp => put_count(out, property, first, properties.timestamp()),
        Property::Kind => put_text(alloc, out, property, first, properties.kind()),
        Property::UserId => put_text(alloc, out, property, first, properties.user_id()),
        Property::AppId => put_text(alloc, out, property, first, properties.app_id()),
        Property::ClusterId => put_text(alloc, out, property, first, properties.cluster_id()),
    }
}

fn put_parts(
    alloc: Global,
    out: &mut Vec<u8>,
    properties: &BasicProperties,
) -> Result<bool, AllocError>
    ensures { IfOk result (λ still. out.new.items ++ ending_of still ≡ out.old.items ++ parts_text PROPERTIES properties.now true) }
{
    let mut first = true;
    for property in PROPERTIES {
        first = put_part(alloc, out, property, first, properties)?;
    }
    Ok(first)
}

fn put_end(out: &mut Vec<u8>, first: bool) -> Result<(), AllocError>
    ensures { OnOk result (out.new.items ≡ out.old.items ++ ending_of first) }
{
    out.extend_from_slice(if first { b"[]" } else { b"]" })
}

// Adds the text of properties of which some may be given.
fn put_each(
    alloc: Global,
    out: &mut Vec<u8>,
    properties: &BasicProperties,
) -> Result<(), AllocError>
    ensures { OnOk result (out.new.items ≡ out.old.items ++ properties_text properties.now) }
{
    let first = put_parts(alloc, out, properties)?;
    put_end(out, first)
}

fn text_is_missing(value: Option<&ShortString>) -> bool
    ensures { let v : Option (List ℕ) = option_map (λ s. s.now) value.entry in result ≡ is_missing v }
{
    value.is_none()
}

fn headers_are_missing(value: Option<&FieldTable>) -> bool
    ensures { let v : Option (List (List ℕ × Data)) = option_map (λ t. t.now) value.entry in result ≡ is_missing v }
{
    value.is_none()
}

// Whether no property is given. All are asked for at once: the compiler makes one question of those for texts.
fn none_is_given(properties: &BasicProperties) -> bool
    ensures { result ≡ all_missing PROPERTIES properties.now }
{
    text_is_missing(properties.content_type())
        & (text_is_missing(properties.content_encoding())
            & (headers_are_missing(properties.headers())
                & (properties.delivery_mode().is_none()
                    & (properties.priority().is_none()
                        & (text_is_missing(properties.correlation_id())
                            & (text_is_missing(properties.reply_to())
                                & (text_is_missing(properties.expiration())
                                    & (text_is_missing(properties.message_id())
                                        & (properties.timestamp().is_none()
                                            & (text_is_missing(properties.kind())
                                                & (text_is_missing(properties.user_id())
                                                    & (text_is_missing(properties.app_id())
                                                        & text_is_missing(
                                                            properties.cluster_id(),
                                                        )))))))))))))
}

/// Adds the text of the properties.
#[tactic(auto, using(crate::proofs::WritingLaws::bare_text))]
pub fn put_properties(
    alloc: Global,
    out: &mut Vec<u8>,
    properties: &BasicProperties,
) -> Result<(), AllocError>
    ensures { OnOk result (out.new.items ≡ out.old.items ++ properties_text properties.now) }
{
    // Most messages have none.
    if none_is_given(properties) {
        return out.extend_from_slice(b"[]");
    }
    put_each(alloc, out, properties)
}
