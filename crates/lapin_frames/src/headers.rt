//! Content headers: the class, the size of the content, and the list of its properties (AMQP 0-9-1, section 4.2.6.1). A list is read as the octets
//! that it is, which the properties then carry, and written so; properties that carry none are written by a flag for each that is given, and these
//! properties in order.

ghost use Rattle.std.specs.Prelude.{◌≡◌, ◌++◌, ◌∷◌, ◌<◌, ◌^◌, [], false, OnOk, OnErr, is_some, option_map};
ghost use Rattle.lapin_fields.specs.Fields.{octet, wide, text as text_bytes, bits};
ghost use Rattle.lapin_fields.specs.Values.{table_bytes};
ghost use Rattle.lapin_fields.specs.Fits.{TextFits, TableFits, Refused};
ghost use Rattle.lapin_fields.specs.Reading.{GivesWhole};
ghost use Rattle.lapin_frames.specs.FrameFits.{GivenFits, FirstFit, NextFit, LastFit, PropertiesFit, HeaderFits};
ghost use Rattle.lapin_frames.specs.HeaderReading.{header_in};
ghost use Rattle.lapin_frames.specs.Headers.{given, header_front, first_properties, next_properties, last_properties, listed_bytes, carried_list as list_carried, properties_bytes, header_bytes};

use crate::carried::carrying;
use lapin_fields::{
    Octets, ReadFault, WriteFault, carried, packed_whole, put_octet, put_short, put_table,
    put_text, put_wide,
};
use lapin_methods::ContentHeader;
use lapin_values::{BasicProperties, NoMemory, ShortString};
use std::alloc::Global;

// The flag of the headers, and of no other property, in the first octet of flags.
const HEADERS_ALONE: u8 = 0x20;

fn is_given(text: Option<&ShortString>) -> bool
    ensures { result ≡ is_some (option_map (λ value. value.now) text.entry) }
{
    text.is_some()
}

fn has_headers(p: &BasicProperties) -> bool
    ensures { result ≡ is_some p.now.headers }
{
    p.headers().is_some()
}

fn first_marks(p: &BasicProperties) -> u8
    ensures { result ≡ bits (is_some p.now.expiration ∷ is_some p.now.reply_to ∷ is_some p.now.correlation_id ∷ is_some p.now.priority ∷ is_some p.now.delivery_mode ∷ is_some p.now.headers ∷ is_some p.now.content_encoding ∷ is_some p.now.content_type ∷ []) }
{
    packed_whole([
        is_given(p.expiration()),
        is_given(p.reply_to()),
        is_given(p.correlation_id()),
        p.priority().is_some(),
        p.delivery_mode().is_some(),
        has_headers(p),
        is_given(p.content_encoding()),
        is_given(p.content_type()),
    ])
}

fn last_marks(p: &BasicProperties) -> u8
    ensures { result ≡ bits (false ∷ false ∷ is_some p.now.cluster_id ∷ is_some p.now.app_id ∷ is_some p.now.user_id ∷ is_some p.now.kind ∷ is_some p.now.timestamp ∷ is_some p.now.message_id ∷ []) }
{
    packed_whole([
        false,
        false,
        is_given(p.cluster_id()),
        is_given(p.app_id()),
        is_given(p.user_id()),
        is_given(p.kind()),
        p.timestamp().is_some(),
        is_given(p.message_id()),
    ])
}

fn put_given(out: &mut Vec<u8>, text: Option<&ShortString>) -> Result<(), NoMemory>
    ensures bytes { OnOk result (out.new.items ≡ out.old.items ++ given text_bytes (option_map (λ value. value.now) text.entry)) }
    ensures fits { OnOk result (GivenFits TextFits (option_map (λ value. value.now) text.entry)) }
{
    match text {
        Some(text) => put_text(out, text),
        None => Ok(()),
    }
}

fn put_small(out: &mut Vec<u8>, number: Option<u8>) -> Result<(), NoMemory>
    ensures bytes { OnOk result (out.new.items ≡ out.old.items ++ given octet number) }
    ensures fits { OnOk result (GivenFits (λ n. n < 2 ^ 8) number) }
{
    match number {
        Some(number) => put_octet(out, number),
        None => Ok(()),
    }
}

fn put_time(out: &mut Vec<u8>, time: Option<u64>) -> Result<(), NoMemory>
    ensures bytes { OnOk result (out.new.items ≡ out.old.items ++ given wide time) }
    ensures fits { OnOk result (GivenFits (λ n. n < 2 ^ 64) time) }
{
    match time {
        Some(time) => put_wide(out, time),
        None => Ok(()),
    }
}

fn put_headers(alloc: Global, out: &mut Vec<u8>, p: &BasicProperties) -> Result<(), WriteFault>
    ensures bytes { OnOk result (out.new.items ≡ out.old.items ++ given table_bytes p.now.headers) }
    ensures fits { OnOk result (GivenFits TableFits p.now.headers) }
    ensures refused { Refused result (GivenFits TableFits p.now.headers) }
{
    match p.headers() {
        Some(table) => put_table(alloc, out, table),
        None => Ok(()),
    }
}

fn put_first(alloc: Global, out: &mut Vec<u8>, p: &BasicProperties) -> Result<(), WriteFault>
    ensures bytes { OnOk result (out.new.items ≡ out.old.items ++ first_properties p.now) }
    ensures fits { OnOk result (FirstFit p.now) }
    ensures refused { Refused result (FirstFit p.now) }
{
    put_given(out, p.content_type())?;
    put_given(out, p.content_encoding())?;
    put_headers(alloc, out, p)?;
    put_small(out, p.delivery_mode())?;
    Ok(())
}

fn put_next(out: &mut Vec<u8>, p: &BasicProperties) -> Result<(), NoMemory>
    ensures bytes { OnOk result (out.new.items ≡ out.old.items ++ next_properties p.now) }
    ensures fits { OnOk result (NextFit p.now) }
{
    put_small(out, p.priority())?;
    put_given(out, p.correlation_id())?;
    put_given(out, p.reply_to())?;
    put_given(out, p.expiration())
}

fn put_last(out: &mut Vec<u8>, p: &BasicProperties) -> Result<(), NoMemory>
    ensures bytes { OnOk result (out.new.items ≡ out.old.items ++ last_properties p.now) }
    ensures fits { OnOk result (LastFit p.now) }
{
    put_given(out, p.message_id())?;
    put_time(out, p.timestamp())?;
    put_given(out, p.kind())?;
    put_given(out, p.user_id())?;
    put_given(out, p.app_id())?;
    put_given(out, p.cluster_id())
}

/// The list that properties carry, where of all properties the headers alone are given, and carry it; `None` of any others.
pub fn carried_list(p: &BasicProperties) -> Option<&[u8]>
    ensures { option_map (λ list. list.now) result ≡ list_carried p.now }
{
    let table = p.headers()?;
    if first_marks(p) == HEADERS_ALONE && last_marks(p) == 0 {
        carried(table)
    } else {
        None
    }
}

// Adds the properties one by one, behind their flags.
fn put_listed(alloc: Global, out: &mut Vec<u8>, p: &BasicProperties) -> Result<(), WriteFault>
    ensures bytes { OnOk result (out.new.items ≡ out.old.items ++ listed_bytes p.now) }
    ensures fits { OnOk result (FirstFit p.now × NextFit p.now × LastFit p.now) }
    ensures refused { Refused result (FirstFit p.now × NextFit p.now × LastFit p.now) }
{
    put_octet(out, first_marks(p))?;
    put_octet(out, last_marks(p))?;
    put_first(alloc, out, p)?;
    put_next(out, p)?;
    put_last(out, p)?;
    Ok(())
}

// Adds the list of properties: the one that they carry, or theirs one by one.
fn put_list(alloc: Global, out: &mut Vec<u8>, p: &BasicProperties) -> Result<(), WriteFault>
    ensures bytes { OnOk result (out.new.items ≡ out.old.items ++ properties_bytes p.now) }
    ensures fits { OnOk result (PropertiesFit p.now) }
    ensures refused { Refused result (PropertiesFit p.now) }
{
    match carried_list(p) {
        Some(list) => {
            out.extend_from_slice(list)?;
            Ok(())
        }
        None => put_listed(alloc, out, p),
    }
}

/// Adds the list of properties, flags and all, or nothing: the one that they carry, or theirs one by one.
///
/// # Errors
/// `TooLong` and `TooDeep` exactly where headers that are given by their values do not fit, and `NoMemory`.
pub fn put_properties(
    alloc: Global,
    out: &mut Vec<u8>,
    p: &BasicProperties,
) -> Result<(), WriteFault>
    ensures ok { OnOk result (out.new.items ≡ out.old.items ++ properties_bytes p.now) }
    ensures fits { OnOk result (PropertiesFit p.now) }
    ensures err { OnErr result (out.new.items ≡ out.old.items) }
    ensures refused { Refused result (PropertiesFit p.now) }
{
    if let Some(list) = carried_list(p) {
        out.extend_from_slice(list)?;
        return Ok(());
    }
    let mut whole = Vec::new(alloc);
    put_listed(alloc, &mut whole, p)?;
    out.extend_from_slice(&whole)?;
    Ok(())
}

fn put_front(out: &mut Vec<u8>, header: &ContentHeader) -> Result<(), NoMemory>
    ensures bytes { OnOk result (out.new.items ≡ out.old.items ++ header_front header.now) }
    ensures fits { OnOk result ((header.now.class_id < 2 ^ 16) × (header.now.body_size < 2 ^ 64)) }
{
    put_short(out, header.class_id)?;
    put_short(out, 0)?;
    put_wide(out, header.body_size)
}

/// Adds a content header.
pub(crate) fn put_header(
    alloc: Global,
    out: &mut Vec<u8>,
    header: &ContentHeader,
) -> Result<(), WriteFault>
    ensures bytes { OnOk result (out.new.items ≡ out.old.items ++ header_bytes header.now) }
    ensures fits { OnOk result (HeaderFits header.now) }
    ensures refused { Refused result (HeaderFits header.now) }
{
    put_front(out, header)?;
    put_list(alloc, out, &header.properties)
}

/// The content header that the octets are.
pub(crate) fn header_of(alloc: Global, payload: &[u8]) -> Result<ContentHeader, ReadFault>
    ensures { GivesWhole result (header_in payload.now) }
{
    let mut octets = Octets::new(payload);
    let class_id = octets.short()?;
    octets.short()?;
    let body_size = octets.wide()?;
    let properties = carrying(alloc, octets.rest())?;
    Ok(ContentHeader {
        class_id,
        body_size,
        properties,
    })
}
