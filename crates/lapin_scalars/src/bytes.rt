//! Bytes as pairs of hexadecimal digits in lower case, and short texts, whose bytes are written so.

ghost use Rattle.std.specs.Prelude.{◌≡◌, ◌≤◌, ◌∷◌, ℕ, List, true, Some, length, IfSome, IfNone, IfOk};
ghost use Rattle.lapin_scalars.specs.Scalars.{scalar_text, scalar_fits};
ghost use Rattle.lapin_scalars.specs.Scalars.Scalar.{text as a_text, bytes as some_bytes, pairs as some_pairs};
ghost use Rattle.lapin_scalars.specs.Reading.{GivesValue, scalar_of};

use crate::fault::ReadError;
use crate::hexadecimal::{are_digits, decode, decode_few};
use crate::marks::behind;
use arrayvec::ArrayVec;
use lapin_values::{NoMemory, Payload, ShortString, ShortStringError};
use std::alloc::Global;

/// The bytes that pairs of digits say.
pub fn pairs_of(alloc: Global, digits: &[u8]) -> Result<Vec<u8>, ReadError>
    ensures { GivesValue (λ v. v.items) result (scalar_of some_pairs digits.now) }
{
    if digits.len() % 2 != 0 {
        return Err(ReadError::Bad);
    }
    if !are_digits(digits) {
        return Err(ReadError::Bad);
    }
    let bytes = decode(alloc, digits)?;
    Ok(bytes)
}

/// The bytes that an x and pairs of digits say.
pub fn bytes_of(alloc: Global, piece: &[u8]) -> Result<Vec<u8>, ReadError>
    ensures { GivesValue (λ v. v.items) result (scalar_of some_bytes piece.now) }
{
    match behind(b'x', piece) {
        Some(digits) => pairs_of(alloc, digits),
        None => Err(ReadError::Bad),
    }
}

// The short text of the bytes that a piece says.
fn text_of(alloc: Global, bytes: &[u8]) -> Result<ShortString, ReadError>
    ensures { (piece : List ℕ) → scalar_of some_bytes piece ≡ Some bytes.now → GivesValue (λ s. s) result (scalar_of a_text piece) }
{
    match str::from_utf8(bytes) {
        Ok(text) => match ShortString::new(alloc, text) {
            Ok(short) => Ok(short),
            Err(ShortStringError::TooLong { .. }) => Err(ReadError::Bad),
            Err(ShortStringError::NoMemory) => Err(ReadError::Memory),
        },
        Err(_) => Err(ReadError::Bad),
    }
}

// The short text that pairs of digits say behind an x. Few are decoded in place, so that only the text takes memory.
fn few_of(alloc: Global, digits: &[u8]) -> Result<ShortString, ReadError>
    requires { length digits.now ≤ 64 }
    ensures { GivesValue (λ s. s) result (scalar_of a_text (120 ∷ digits.now)) }
{
    if digits.len() % 2 != 0 {
        return Err(ReadError::Bad);
    }
    let mut bytes = ArrayVec::new();
    if !decode_few(digits, &mut bytes) {
        return Err(ReadError::Bad);
    }
    text_of(alloc, bytes.as_slice())
}

#[inline(never)]
fn many_of(alloc: Global, digits: &[u8]) -> Result<ShortString, ReadError>
    ensures { GivesValue (λ s. s) result (scalar_of a_text (120 ∷ digits.now)) }
{
    match pairs_of(alloc, digits) {
        Ok(bytes) => text_of(alloc, &bytes),
        Err(error) => Err(error),
    }
}

/// The short text that an x and pairs of digits say.
pub fn short_of(alloc: Global, piece: &[u8]) -> Result<ShortString, ReadError>
    ensures { GivesValue (λ s. s) result (scalar_of a_text piece.now) }
{
    match behind(b'x', piece) {
        Some([]) => Ok(ShortString::empty(alloc)?),
        Some(digits) => {
            if digits.len() > 64 {
                return many_of(alloc, digits);
            }
            few_of(alloc, digits)
        }
        None => Err(ReadError::Bad),
    }
}

/// The short text that a piece says, or `None` where it says none.
pub fn read_short(alloc: Global, piece: &[u8]) -> Result<Option<ShortString>, NoMemory>
    ensures found { IfOk result (λ o. IfSome o (λ s. (piece.now ≡ scalar_text a_text s) × (scalar_fits a_text s ≡ true))) }
    ensures none { IfOk result (λ o. IfNone o ((s : List ℕ) → scalar_fits a_text s ≡ true → piece.now ≡ scalar_text a_text s → ⊥)) }
{
    match short_of(alloc, piece) {
        Ok(short) => Ok(Some(short)),
        Err(ReadError::Bad) => Ok(None),
        Err(ReadError::Memory) => Err(NoMemory),
    }
}

/// The bytes that a piece says, or `None` where it says none.
pub fn read_bytes(alloc: Global, piece: &[u8]) -> Result<Option<Payload>, NoMemory>
    ensures found { IfOk result (λ o. IfSome o (λ b. (piece.now ≡ scalar_text some_bytes b) × (scalar_fits some_bytes b ≡ true))) }
    ensures none { IfOk result (λ o. IfNone o ((b : List ℕ) → scalar_fits some_bytes b ≡ true → piece.now ≡ scalar_text some_bytes b → ⊥)) }
{
    match bytes_of(alloc, piece) {
        Ok(bytes) => Ok(Some(Payload::from_bytes(bytes))),
        Err(ReadError::Bad) => Ok(None),
        Err(ReadError::Memory) => Err(NoMemory),
    }
}
