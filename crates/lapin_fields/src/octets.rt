//! A walk through bytes: numbers with the most significant byte first (AMQP 0-9-1, section 4.2.5.1), and runs of bytes.

ghost use Rattle.std.specs.Prelude.{◌≡◌, ◌++◌, [], ℕ, List, OnOk};
ghost use Rattle.std.specs.Bool.{Decides};
ghost use Rattle.lapin_fields.specs.Reading.{octet_at, short_at, long_at, wide_at, piece_at, counted_at, Gives, GivesAs, Ends};
ghost use Rattle.lapin_fields.specs.Fields.{octet, short, long, wide, counted};
ghost use Rattle.lapin_fields.specs.Fits.{StringFits, Refused};

use crate::fault::{ReadFault, WriteFault};
use lapin_values::NoMemory;
use std::marker::Model;

/// The bytes that are still to be read. A contract sees them as a list.
#[derive(Drop)]
pub struct Octets<'a> {
    rest: &'a [u8],
}

impl<'a> Model for Octets<'a> {
    ghost Value = { List ℕ };

    ghost view = { λ t. t.rest.now };
}

impl<'a> Octets<'a> {
    /// A walk from the first byte on.
    pub fn new(bytes: &'a [u8]) -> Self
        ensures { result ≡ bytes.now }
    {
        Octets { rest: bytes }
    }

    /// Whether none are left.
    pub fn is_empty(&self) -> bool
        ensures { Decides result (self.now ≡ []) }
    {
        self.rest.is_empty()
    }

    /// The bytes that are left.
    pub fn rest(&self) -> &'a [u8]
        ensures { result.now ≡ self.now }
    {
        self.rest
    }

    /// The next byte.
    pub fn octet(&mut self) -> Result<u8, ReadFault>
        ensures { Gives result self.new (octet_at self.old) }
    {
        match self.rest {
            [first, rest @ ..] => {
                self.rest = rest;
                Ok(*first)
            }
            [] => Err(ReadFault::Malformed),
        }
    }

    /// The next two bytes as a number.
    pub fn short(&mut self) -> Result<u16, ReadFault>
        ensures { Gives result self.new (short_at self.old) }
    {
        match self.rest {
            [a, b, rest @ ..] => {
                self.rest = rest;
                Ok(u16::from_be_bytes([*a, *b]))
            }
            _ => Err(ReadFault::Malformed),
        }
    }

    /// The next four bytes as a number.
    pub fn long(&mut self) -> Result<u32, ReadFault>
        ensures { Gives result self.new (long_at self.old) }
    {
        match self.rest {
            [a, b, c, d, rest @ ..] => {
                self.rest = rest;
                Ok(u32::from_be_bytes([*a, *b, *c, *d]))
            }
            _ => Err(ReadFault::Malformed),
        }
    }

    /// The next eight bytes as a number.
    pub fn wide(&mut self) -> Result<u64, ReadFault>
        ensures { Gives result self.new (wide_at self.old) }
    {
        match self.rest {
            [a, b, c, d, e, f, g, h, rest @ ..] => {
                self.rest = rest;
                Ok(u64::from_be_bytes([*a, *b, *c, *d, *e, *f, *g, *h]))
            }
            _ => Err(ReadFault::Malformed),
        }
    }

    /// The next bytes, as many as are asked for.
    pub fn piece(&mut self, count: usize) -> Result<&'a [u8], ReadFault>
        ensures { GivesAs (λ p. p.now) result self.new (piece_at count self.old) }
    {
        if count > self.rest.len() {
            return Err(ReadFault::Malformed);
        }
        let (piece, rest) = self.rest.split_at(count);
        self.rest = rest;
        Ok(piece)
    }

    /// The next bytes behind their number in four bytes.
    pub fn counted(&mut self) -> Result<&'a [u8], ReadFault>
        ensures { GivesAs (λ p. p.now) result self.new (counted_at self.old) }
    {
        let count = self.long()?;
        self.piece(count as usize)
    }

    /// Nothing may be left.
    pub fn finish(&self) -> Result<(), ReadFault>
        ensures { Ends result self.now }
    {
        match self.rest {
            [] => Ok(()),
            _ => Err(ReadFault::Malformed),
        }
    }
}

/// Adds a number in two bytes.
pub fn put_short(out: &mut Vec<u8>, number: u16) -> Result<(), NoMemory>
    ensures { OnOk result (out.new.items ≡ out.old.items ++ short number) }
{
    out.extend_from_slice(&number.to_be_bytes())?;
    Ok(())
}

/// Adds a number in four bytes.
pub fn put_long(out: &mut Vec<u8>, number: u32) -> Result<(), NoMemory>
    ensures { OnOk result (out.new.items ≡ out.old.items ++ long number) }
{
    out.extend_from_slice(&number.to_be_bytes())?;
    Ok(())
}

/// Adds a number in eight bytes.
pub fn put_wide(out: &mut Vec<u8>, number: u64) -> Result<(), NoMemory>
    ensures { OnOk result (out.new.items ≡ out.old.items ++ wide number) }
{
    out.extend_from_slice(&number.to_be_bytes())?;
    Ok(())
}

/// Adds a byte.
pub fn put_octet(out: &mut Vec<u8>, byte: u8) -> Result<(), NoMemory>
    ensures { OnOk result (out.new.items ≡ out.old.items ++ octet byte) }
{
    out.push(byte)?;
    Ok(())
}

/// Adds bytes behind their number in four bytes.
pub fn put_counted(out: &mut Vec<u8>, bytes: &[u8]) -> Result<(), WriteFault>
    ensures bytes { OnOk result (out.new.items ≡ out.old.items ++ counted bytes.now) }
    ensures fits { OnOk result (StringFits bytes.now) }
    ensures refused { Refused result (StringFits bytes.now) }
{
    let Ok(count) = u32::try_from(bytes.len()) else {
        return Err(WriteFault::TooLong);
    };
    put_long(out, count)?;
    out.extend_from_slice(bytes)?;
    Ok(())
}
