//! Signed numbers in decimal: a minus stands before a number below 0, and never before 0.

ghost use Rattle.std.specs.Prelude.{◌≡◌, ◌≤◌, ◌^◌, ◌∷◌, ℕ, ℤ, pos, true, IfSome, IfNone};
ghost use Rattle.std.specs.Fmt.{signed_decimal};
ghost use Rattle.lapin_scalars.specs.Scalars.{in_range};
ghost use Rattle.lapin_scalars.specs.Scalars.Scalar.{signed as a_signed};
ghost use Rattle.lapin_scalars.specs.Reading.{GivesValue, scalar_of};

use crate::fault::ReadError;
use crate::marks::behind;
use crate::numbers::read_num;

// The number below 0 whose digits stand behind the minus.
fn negative(digits: &[u8], limit: u64) -> Option<i64>
    requires { limit ≤ 2 ^ 63 }
    ensures found { IfSome result (λ z. (45 ∷ digits.now ≡ signed_decimal z) × (in_range limit z ≡ true)) }
    ensures none { IfNone result ((z : ℤ) → in_range limit z ≡ true → 45 ∷ digits.now ≡ signed_decimal z → ⊥) }
{
    match read_num(digits) {
        Some(number) => {
            if number == 0 {
                return None;
            }
            if number > limit {
                return None;
            }
            Some(-1 - (number - 1) as i64)
        }
        None => None,
    }
}

fn positive(piece: &[u8], limit: u64) -> Option<i64>
    requires { limit ≤ 2 ^ 63 }
    ensures found { IfSome result (λ z. (piece.now ≡ signed_decimal z) × (in_range limit z ≡ true)) }
    ensures none { IfNone result ((n : ℕ) → in_range limit (pos n) ≡ true → piece.now ≡ signed_decimal (pos n) → ⊥) }
{
    match read_num(piece) {
        Some(number) if number < limit => Some(number as i64),
        _ => None,
    }
}

// The number from minus the limit to below it.
fn number_within(piece: &[u8], limit: u64) -> Option<i64>
    requires { limit ≤ 2 ^ 63 }
    ensures found { IfSome result (λ z. (piece.now ≡ signed_decimal z) × (in_range limit z ≡ true)) }
    ensures none { IfNone result ((z : ℤ) → in_range limit z ≡ true → piece.now ≡ signed_decimal z → ⊥) }
{
    match behind(b'-', piece) {
        Some(digits) => negative(digits, limit),
        None => positive(piece, limit),
    }
}

/// The signed number of 8 bits that the bytes say.
pub fn i8_of(piece: &[u8]) -> Result<i8, ReadError>
    ensures { GivesValue (λ z. z) result (scalar_of (a_signed (2 ^ 7)) piece.now) }
{
    match number_within(piece, 0x80) {
        Some(number) => Ok(number as i8),
        None => Err(ReadError::Bad),
    }
}

/// The signed number of 16 bits that the bytes say.
pub fn i16_of(piece: &[u8]) -> Result<i16, ReadError>
    ensures { GivesValue (λ z. z) result (scalar_of (a_signed (2 ^ 15)) piece.now) }
{
    match number_within(piece, 0x8000) {
        Some(number) => Ok(number as i16),
        None => Err(ReadError::Bad),
    }
}

/// The signed number of 32 bits that the bytes say.
pub fn i32_of(piece: &[u8]) -> Result<i32, ReadError>
    ensures { GivesValue (λ z. z) result (scalar_of (a_signed (2 ^ 31)) piece.now) }
{
    match number_within(piece, 0x8000_0000) {
        Some(number) => Ok(number as i32),
        None => Err(ReadError::Bad),
    }
}

/// The signed number of 64 bits that the bytes say.
pub fn i64_of(piece: &[u8]) -> Result<i64, ReadError>
    ensures { GivesValue (λ z. z) result (scalar_of (a_signed (2 ^ 63)) piece.now) }
{
    match number_within(piece, 0x8000_0000_0000_0000) {
        Some(number) => Ok(number),
        None => Err(ReadError::Bad),
    }
}
