//! Short texts, behind their length in one octet (AMQP 0-9-1, section 4.2.5.3).

ghost use Rattle.std.specs.Prelude.{◌≡◌, ◌≤◌, ◌++◌, length, map, OnOk, IfOk};
ghost use Rattle.std.specs.Str.Lossy.{utf8_valid_len};
ghost use Rattle.lapin_fields.specs.Reading.{as_letter, readable, reply_at, text_at, string_at, passed, Gives, GivesAs, GivesOne, GivesText};
ghost use Rattle.lapin_fields.specs.Fields.{text as text_bytes};
ghost use Rattle.lapin_fields.specs.Fits.{TextFits};

use crate::fault::ReadFault;
use crate::octets::{Octets, put_octet};
use lapin_values::{NoMemory, ShortString};
use std::alloc::Global;

/// The text that the octets are, of which there are at most 255.
///
/// # Errors
/// `Malformed` exactly where they are not UTF-8, and `NoMemory`.
pub fn short_text(alloc: Global, bytes: &[u8]) -> Result<ShortString, ReadFault>
    requires { length bytes.now ≤ 255 }
    ensures { GivesText result bytes.now }
{
    match std::str::from_utf8(bytes) {
        Ok(text) => match ShortString::new(alloc, text) {
            Ok(text) => Ok(text),
            Err(_) => Err(ReadFault::NoMemory),
        },
        Err(_) => Err(ReadFault::Malformed),
    }
}

/// The octets of a short text, whatever they are. There are at most 255.
pub fn take_string<'a>(octets: &mut Octets<'a>) -> Result<&'a [u8], ReadFault>
    ensures value { GivesAs (λ s. s.now) result octets.new (string_at octets.old) }
    ensures short { IfOk result (λ s. length s.now ≤ 255) }
{
    let count = octets.octet()?;
    octets.piece(count as usize)
}

/// The short text that stands next.
pub fn take_text(alloc: Global, octets: &mut Octets) -> Result<ShortString, ReadFault>
    ensures { Gives result octets.new (text_at octets.old) }
{
    let count = octets.octet()?;
    let bytes = octets.piece(count as usize)?;
    short_text(alloc, bytes)
}

// Adds octets, each as a letter of its own.
fn put_letters(out: &mut Vec<u8>, octets: &[u8]) -> Result<(), NoMemory>
    ensures { OnOk result (out.new.items ≡ out.old.items ++ map as_letter octets.now) }
{
    for octet in octets {
        out.push(if *octet < 128 { *octet } else { b'?' })?;
    }
    Ok(())
}

// Octets of which a front is UTF-8, as a text.
fn mended(alloc: Global, bytes: &[u8], front: usize) -> Result<ShortString, ReadFault>
    requires front { front ≡ utf8_valid_len bytes.now }
    requires short { length bytes.now ≤ 255 }
    ensures { GivesOne (λ t. t) result (readable bytes.now) }
{
    let (letters, rest) = bytes.split_at(front);
    let mut text = Vec::from_slice(alloc, letters)?;
    put_letters(&mut text, rest)?;
    Ok(ShortString::literal(alloc, unsafe { std::str::from_utf8_unchecked(&text) })?)
}

/// A text of the octets, of which there are at most 255, whatever they are: what of them is UTF-8, and in the place of each octet behind
/// that which is no letter of ASCII a question mark.
///
/// # Errors
/// `NoMemory` alone.
pub fn readable_text(alloc: Global, bytes: &[u8]) -> Result<ShortString, ReadFault>
    requires { length bytes.now ≤ 255 }
    ensures { GivesOne (λ t. t) result (readable bytes.now) }
{
    match std::str::from_utf8(bytes) {
        Ok(text) => Ok(ShortString::literal(alloc, text)?),
        Err(fault) => mended(alloc, bytes, fault.valid_up_to()),
    }
}

/// The text of the broker's that stands next, whatever its octets are: a reply text, which a broker cuts at 255 octets, within a letter too, or a
/// name that a stranger gave a message.
pub fn take_reply(alloc: Global, octets: &mut Octets) -> Result<ShortString, ReadFault>
    ensures { Gives result octets.new (reply_at octets.old) }
{
    let bytes = take_string(octets)?;
    readable_text(alloc, bytes)
}

/// Passes a short text that the standard reserves.
pub fn skip_text(octets: &mut Octets) -> Result<(), ReadFault>
    ensures { GivesAs (λ _. tt) result octets.new (passed (string_at octets.old)) }
{
    let count = octets.octet()?;
    octets.piece(count as usize)?;
    Ok(())
}

/// Adds a short text behind its length.
#[tactic(auto, using(crate::proofs::WritingLaws::text_fits))]
pub fn put_text(out: &mut Vec<u8>, text: &ShortString) -> Result<(), NoMemory>
    ensures bytes { OnOk result (out.new.items ≡ out.old.items ++ text_bytes text.now) }
    ensures fits { TextFits text.now }
{
    let bytes = text.as_str().as_bytes();
    put_octet(out, bytes.len() as u8)?;
    out.extend_from_slice(bytes)?;
    Ok(())
}
