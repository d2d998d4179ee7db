//! Hexadecimal digits in lower case, two a byte, in loops that the compiler makes work on many bytes at once.

ghost use Rattle.std.specs.Prelude.{◌≡◌, ◌++◌, ◌+◌, ◌*◌, ◌/◌, ◌%◌, ◌<◌, ◌≤◌, [], true, false, length, slice_index, IfOk};
ghost use Rattle.std.specs.Vec.{vec_len, vec_capacity};
ghost use Rattle.hex.specs.Hex.{encode_lower, lower_digits};
ghost use Rattle.lapin_scalars.specs.Digits.{is_digit as is_a_digit, all_digits};

use arrayvec::ArrayVec;
use std::alloc::{AllocError, Global};

#[inline(always)]
fn is_digit(byte: u8) -> bool
    ensures { result ≡ is_a_digit byte }
{
    ((b'0' <= byte) & (byte <= b'9')) | ((b'a' <= byte) & (byte <= b'f'))
}

/// Whether every byte is a digit.
pub fn are_digits(bytes: &[u8]) -> bool
    ensures { result ≡ all_digits bytes.now }
{
    let mut all = true;
    for byte in bytes {
        all &= is_digit(*byte);
    }
    all
}

// The byte that two digits say, the first of them in the low 8 bits.
#[inline(always)]
fn byte_of(digits: u16) -> u8
    requires first { is_a_digit (digits % 256) ≡ true }
    requires second { is_a_digit (digits / 256) ≡ true }
    ensures first { slice_index lower_digits (result / 16) ≡ digits % 256 }
    ensures second { slice_index lower_digits (result % 16) ≡ digits / 256 }
{
    let first = (digits & 15) + 9 * ((digits >> 6) & 1);
    let second = ((digits >> 8) & 15) + 9 * (digits >> 14);
    (16 * first + second) as u8
}

/// The bytes that the pairs of digits say. No byte is written twice: the room is made at once, and not set to 0 first.
/// A pair is read as one number, since so the compiler reads many pairs at once.
pub fn decode(alloc: Global, digits: &[u8]) -> Result<Vec<u8>, AllocError>
    requires pairs { length digits.now % 2 ≡ 0 }
    requires digits { all_digits digits.now ≡ true }
    ensures { IfOk result (λ bytes. encode_lower bytes.items ≡ digits.now) }
{
    let mut bytes = Vec::with_capacity(alloc, digits.len() / 2)?;
    let (pairs, _) = digits.as_chunks::<2>();
    for pair in pairs {
        bytes.push_reserved(byte_of(u16::from_le_bytes(*pair)));
    }
    Ok(bytes)
}

// The value of each byte as a digit: 0 to 15, and 16 where it is none.
static VALUES: [u8; 256] = [
    16, 16, 16, 16, 16, 16, 16, 16, 16, 16, 16, 16, 16, 16, 16, 16, 16, 16, 16, 16, 16, 16, 16, 16,
    16, 16, 16, 16, 16, 16, 16, 16, 16, 16, 16, 16, 16, 16, 16, 16, 16, 16, 16, 16, 16, 16, 16, 16,
    0, 1, 2, 3, 4, 5, 6, 7, 8, 9, 16, 16, 16, 16, 16, 16, 16, 16, 16, 16, 16, 16, 16, 16, 16, 16,
    16, 16, 16, 16, 16, 16, 16, 16, 16, 16, 16, 16, 16, 16, 16, 16, 16, 16, 16, 16, 16, 16, 16, 10,
    11, 12, 13, 14, 15, 16, 16, 16, 16, 16, 16, 16, 16, 16, 16, 16, 16, 16, 16, 16, 16, 16, 16, 16,
    16, 16, 16, 16, 16, 16, 16, 16, 16, 16, 16, 16, 16, 16, 16, 16, 16, 16, 16, 16, 16, 16, 16, 16,
    16, 16, 16, 16, 16, 16, 16, 16, 16, 16, 16, 16, 16, 16, 16, 16, 16, 16, 16, 16, 16, 16, 16, 16,
    16, 16, 16, 16, 16, 16, 16, 16, 16, 16, 16, 16, 16, 16, 16, 16, 16, 16, 16, 16, 16, 16, 16, 16,
    16, 16, 16, 16, 16, 16, 16, 16, 16, 16, 16, 16, 16, 16, 16, 16, 16, 16, 16, 16, 16, 16, 16, 16,
    16, 16, 16, 16, 16, 16, 16, 16, 16, 16, 16, 16, 16, 16, 16, 16, 16, 16, 16, 16, 16, 16, 16, 16,
    16, 16, 16, 16, 16, 16, 16, 16, 16, 16, 16, 16, 16, 16,
];

// The value of a byte as a digit, or 16.
#[inline(always)]
fn value_of(byte: u8) -> u8
    ensures digit { result < 16 → (is_a_digit byte ≡ true) × (slice_index lower_digits result ≡ byte) }
    ensures other { 16 ≤ result → is_a_digit byte ≡ false }
{
    VALUES[byte as usize]
}

/// Reads few pairs, in place. Whether all are digits: then these are the bytes that they say. So few are looked up one by one.
#[inline(always)]
pub fn decode_few(digits: &[u8], bytes: &mut ArrayVec<u8, 32>) -> bool
    requires pairs { length digits.now % 2 ≡ 0 }
    requires few { length digits.now ≤ 64 }
    requires empty { bytes.old.items ≡ [] }
    ensures digits { result ≡ all_digits digits.now }
    ensures bytes { result ≡ true → encode_lower bytes.new.items ≡ digits.now }
{
    let (pairs, _) = digits.as_chunks::<2>();
    for pair in pairs {
        let high = value_of(pair[0]);
        let low = value_of(pair[1]);
        if high > 15 || low > 15 {
            return false;
        }
        bytes.push(16 * high + low);
    }
    true
}

// The digit that says a value. Between the last number and the first letter stand 39 other bytes.
#[inline(always)]
fn digit_of(value: u8) -> u8
    requires { value < 16 }
    ensures { result ≡ slice_index lower_digits value }
{
    let between = if value < 10 { 0 } else { 39 };
    b'0' + value + between
}

/// The text with the digits of the bytes behind it. There is room for them. The text is handed over, since a loop that
/// owns it writes many digits at once, and one behind a reference writes them one by one.
pub fn encode(mut text: Vec<u8>, bytes: &[u8]) -> Vec<u8>
    requires { vec_len text + 2 * length bytes.now ≤ vec_capacity text }
    ensures { result.items ≡ text.items ++ encode_lower bytes.now }
{
    for byte in bytes {
        text.push_reserved(digit_of(*byte >> 4));
        text.push_reserved(digit_of(*byte & 15));
    }
    text
}
