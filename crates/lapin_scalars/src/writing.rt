//! The text of a single value, added to the end of a text.
//!
//! Where memory runs out, the text may end within the value: the caller drops it.

ghost use Rattle.std.specs.Prelude.{◌≡◌, ◌++◌, ◌+◌, ◌*◌, ◌<◌, ◌≤◌, ◌^◌, OnOk, length, decimal, vec_len, vec_capacity};
ghost use Rattle.lapin_scalars.specs.Numerals.{two_digits};
ghost use Rattle.lapin_scalars.specs.Scalars.{scalar_text};
ghost use Rattle.lapin_scalars.specs.Scalars.Scalar.{bytes as some_bytes, pairs as some_pairs, flag as a_flag, number as a_number, signed as a_signed};

use crate::hexadecimal::encode;
use itoa::Buffer;
use std::alloc::{AllocError, Global};
use std::mem;

/// Adds the digits of the bytes.
pub fn put_pairs(alloc: Global, out: &mut Vec<u8>, bytes: &[u8]) -> Result<(), AllocError>
    ensures { OnOk result (out.new.items ≡ out.old.items ++ scalar_text some_pairs bytes.now) }
{
    let Some(count) = bytes.len().checked_mul(2) else {
        return Err(AllocError);
    };
    out.reserve(count)?;
    put_reserved(alloc, out, bytes);
    Ok(())
}

// Adds the digits of the bytes, where there is room for them.
#[inline(always)]
fn put_reserved(alloc: Global, out: &mut Vec<u8>, bytes: &[u8])
    requires { vec_len out.old + 2 * length bytes.now ≤ vec_capacity out.old }
    ensures { out.new.items ≡ out.old.items ++ scalar_text some_pairs bytes.now }
{
    if bytes.is_empty() {
        return;
    }
    let text = mem::replace(out, Vec::new(alloc));
    *out = encode(text, bytes);
}

/// Adds an x and the digits of the bytes: the text of bytes, and of a short text.
pub fn put_hex(alloc: Global, out: &mut Vec<u8>, bytes: &[u8]) -> Result<(), AllocError>
    ensures { OnOk result (out.new.items ≡ out.old.items ++ scalar_text some_bytes bytes.now) }
{
    let Some(count) = bytes.len().checked_mul(2) else {
        return Err(AllocError);
    };
    let Some(count) = count.checked_add(1) else {
        return Err(AllocError);
    };
    out.reserve(count)?;
    out.push_reserved(b'x');
    put_reserved(alloc, out, bytes);
    Ok(())
}

/// Adds a number in decimal.
pub fn put_number(out: &mut Vec<u8>, number: u64) -> Result<(), AllocError>
    ensures { OnOk result (out.new.items ≡ out.old.items ++ scalar_text (a_number (2 ^ 64)) number) }
{
    if number >= 100_000_000 || out.capacity() - out.len() < 8 {
        return put_any_number(out, number);
    }
    put_eight(out, number as u32);
    Ok(())
}

// Adds a number, however long, where there may be no room yet.
#[inline(never)]
fn put_any_number(out: &mut Vec<u8>, number: u64) -> Result<(), AllocError>
    ensures { OnOk result (out.new.items ≡ out.old.items ++ decimal number) }
{
    let mut buffer = Buffer::new();
    out.extend_from_slice(buffer.format(number).as_bytes())
}

// Adds a number of at most eight digits, where there is room for these.
#[inline(always)]
#[tactic(auto, using(crate::proofs::DigitLaws::decimal_four))]
fn put_eight(out: &mut Vec<u8>, number: u32)
    requires below { number < 100000000 }
    requires room { vec_len out.old + 8 ≤ vec_capacity out.old }
    ensures { out.new.items ≡ out.old.items ++ decimal number }
{
    if number < 100 {
        put_two(out, number);
    } else if number < 10_000 {
        put_four(out, number);
    } else {
        put_four(out, number / 10_000);
        put_two_digits(out, number % 10_000 / 100);
        put_two_digits(out, number % 100);
    }
}

// Adds a number of at most four digits, where there is room for these.
#[inline(always)]
#[tactic(auto, using(crate::proofs::DigitLaws::decimal_hundreds))]
fn put_four(out: &mut Vec<u8>, number: u32)
    requires below { number < 10000 }
    requires room { vec_len out.old + 4 ≤ vec_capacity out.old }
    ensures items { out.new.items ≡ out.old.items ++ decimal number }
    ensures len { vec_len out.new ≤ vec_len out.old + 4 }
    ensures capacity { vec_capacity out.new ≡ vec_capacity out.old }
{
    if number < 100 {
        put_two(out, number);
    } else {
        put_two(out, number / 100);
        put_two_digits(out, number % 100);
    }
}

// Adds a number of at most two digits, where there is room for these.
#[inline(always)]
#[tactic(auto, using(std::proofs::lemmas::Fmt::decimal_digit, crate::proofs::DigitLaws::decimal_tens))]
fn put_two(out: &mut Vec<u8>, number: u32)
    requires below { number < 100 }
    requires room { vec_len out.old + 2 ≤ vec_capacity out.old }
    ensures items { out.new.items ≡ out.old.items ++ decimal number }
    ensures len { vec_len out.new ≤ vec_len out.old + 2 }
    ensures capacity { vec_capacity out.new ≡ vec_capacity out.old }
{
    if number < 10 {
        out.push_reserved(b'0' + number as u8);
    } else {
        put_two_digits(out, number);
    }
}

// Adds the two digits of a number below 100, where there is room for them.
#[inline(always)]
fn put_two_digits(out: &mut Vec<u8>, number: u32)
    requires below { number < 100 }
    requires room { vec_len out.old + 2 ≤ vec_capacity out.old }
    ensures items { out.new.items ≡ out.old.items ++ two_digits number }
    ensures len { vec_len out.new ≡ vec_len out.old + 2 }
    ensures capacity { vec_capacity out.new ≡ vec_capacity out.old }
{
    out.push_reserved(b'0' + (number / 10) as u8);
    out.push_reserved(b'0' + (number % 10) as u8);
}

/// Adds a signed number in decimal.
pub fn put_signed(out: &mut Vec<u8>, number: i64) -> Result<(), AllocError>
    ensures { OnOk result (out.new.items ≡ out.old.items ++ scalar_text (a_signed (2 ^ 63)) number) }
{
    let mut buffer = Buffer::new();
    out.extend_from_slice(buffer.format(number).as_bytes())
}

/// Adds 0 or 1.
pub fn put_flag(out: &mut Vec<u8>, flag: bool) -> Result<(), AllocError>
    ensures { OnOk result (out.new.items ≡ out.old.items ++ scalar_text a_flag flag) }
{
    out.push(if flag { b'1' } else { b'0' })?;
    Ok(())
}
