//! Numbers in decimal, without leading zeros, and with a sign only below 0.

ghost use Rattle.std.specs.Prelude.{◌≡◌, ◌≢◌, ◌↔◌, ◌+◌, ◌*◌, ◌<◌, ◌≤◌, ◌^◌, ◌∷◌, ℕ, ℤ, List, true, length, decimal, IsTrue, IfSome, IfNone};
ghost use Rattle.std.specs.Fmt.{signed_decimal};
ghost use Rattle.std.specs.Char.{digit_value};
ghost use Rattle.lapin_scalars.specs.Numerals.{StartsPlainly};
ghost use Rattle.lapin_scalars.specs.Scalars.{in_range};
ghost use Rattle.lapin_scalars.specs.Scalars.Scalar.{number as number_of, signed as signed_of};
ghost use Rattle.lapin_scalars.specs.Reading.{GivesValue, scalar_of};

use crate::fault::ReadError;

fn starts_plainly(piece: &[u8]) -> bool
    ensures { IsTrue result ↔ StartsPlainly piece.now }
{
    match piece {
        [] => false,
        [b'0'] => true,
        [first, ..] => *first != b'0',
    }
}

// The number with one digit more behind it.
#[inline(always)]
fn with_digit(number: u64, byte: u8) -> Option<u64>
    ensures some { IfSome result (λ n. (digit_value byte < 10) × (n ≡ number * 10 + digit_value byte) × (n < 2 ^ 64)) }
    ensures none { IfNone result (digit_value byte < 10 → 2 ^ 64 ≤ number * 10 + digit_value byte) }
{
    if byte < b'0' || b'9' < byte {
        return None;
    }
    number.checked_mul(10)?.checked_add(u64::from(byte - b'0'))
}

/// The number that a decimal without sign and leading zeros says, where it has at most 64 bits.
pub fn read_num(piece: &[u8]) -> Option<u64>
    ensures found { IfSome result (λ n. piece.now ≡ decimal n) }
    ensures none { IfNone result ((n : ℕ) → n < 2 ^ 64 → piece.now ≡ decimal n → ⊥) }
{
    if !starts_plainly(piece) {
        return None;
    }
    let mut number = 0;
    for byte in piece {
        number = with_digit(number, *byte)?;
    }
    Some(number)
}

/// The number of 64 bits that the bytes say.
pub fn u64_of(piece: &[u8]) -> Result<u64, ReadError>
    ensures { GivesValue (λ n. n) result (scalar_of (number_of (2 ^ 64)) piece.now) }
{
    match read_num(piece) {
        Some(number) => Ok(number),
        None => Err(ReadError::Bad),
    }
}

/// The number of 32 bits that the bytes say.
pub fn u32_of(piece: &[u8]) -> Result<u32, ReadError>
    ensures { GivesValue (λ n. n) result (scalar_of (number_of (2 ^ 32)) piece.now) }
{
    match read_num(piece) {
        Some(number) if number <= 0xffff_ffff => Ok(number as u32),
        _ => Err(ReadError::Bad),
    }
}

/// The number of 16 bits that the bytes say.
pub fn u16_of(piece: &[u8]) -> Result<u16, ReadError>
    ensures { GivesValue (λ n. n) result (scalar_of (number_of (2 ^ 16)) piece.now) }
{
    match read_num(piece) {
        Some(number) if number <= 0xffff => Ok(number as u16),
        _ => Err(ReadError::Bad),
    }
}

/// The number of 8 bits that the bytes say.
pub fn u8_of(piece: &[u8]) -> Result<u8, ReadError>
    ensures { GivesValue (λ n. n) result (scalar_of (number_of (2 ^ 8)) piece.now) }
{
    match read_num(piece) {
        Some(number) if number <= 0xff => Ok(number as u8),
        _ => Err(ReadError::Bad),
    }
}
