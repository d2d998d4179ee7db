//! The first method of a broker, `connection.start`: its fields, and where they stand in its frame (AMQP 0-9-1, class 10, method 10).

ghost use Rattle.std.specs.Prelude.{◌≡◌, IfOk};
ghost use Rattle.lapin_fields.specs.Reading.{GivesAs};
ghost use Rattle.lapin_handshake.specs.Starting.{fields_at, fields_of, start_in, GivesWholeAs, GivesPlace, locale_in};

use crate::words::locale;
use lapin_fields::{Octets, ReadFault, take_around};

/// The fields of `connection.start`.
#[derive(Drop)]
pub struct Start<'a> {
    /// The version of the protocol.
    pub major: u8,
    pub minor: u8,
    /// What the broker tells of itself: the content of a table.
    pub properties: &'a [u8],
    /// Its mechanisms, a list of words.
    pub mechanisms: &'a [u8],
    /// Its locales, a list of words.
    pub locales: &'a [u8],
}

/// Where octets stand in a frame, and how many they are.
#[derive(Clone, Copy, Debug, PartialEq, Eq)]
#[repr(C)]
pub struct Place {
    pub at: usize,
    pub count: usize,
}

/// The fields that stand next.
pub(crate) fn take_fields<'a>(octets: &mut Octets<'a>) -> Result<Start<'a>, ReadFault>
    ensures { GivesAs (λ s. (s.major, s.minor, s.properties.now, s.mechanisms.now, s.locales.now)) result octets.new (fields_at octets.old) }
{
    let major = octets.octet()?;
    let minor = octets.octet()?;
    let properties = octets.counted()?;
    let mechanisms = octets.counted()?;
    let locales = octets.counted()?;
    Ok(Start {
        major,
        minor,
        properties,
        mechanisms,
        locales,
    })
}

// The fields of a payload, where it is that method's.
fn start_of<'a>(payload: &'a [u8]) -> Result<Start<'a>, ReadFault>
    ensures { GivesWholeAs (λ s. (s.major, s.minor, s.properties.now, s.mechanisms.now, s.locales.now)) result (fields_of payload.now) }
{
    let mut octets = Octets::new(payload);
    let class = octets.short()?;
    let number = octets.short()?;
    if class != 10 || number != 10 {
        return Err(ReadFault::Malformed);
    }
    let start = take_fields(&mut octets)?;
    octets.finish()?;
    Ok(start)
}

/// The fields of the start whose frame stands at the head of the bytes.
///
/// # Errors
/// `Malformed` only where no frame of a start stands there.
pub fn read_start<'a>(bytes: &'a [u8]) -> Result<Start<'a>, ReadFault>
    ensures { GivesWholeAs (λ s. (s.major, s.minor, s.properties.now, s.mechanisms.now, s.locales.now)) result (start_in bytes.now) }
{
    let mut octets = Octets::new(bytes);
    let frame = take_around(&mut octets)?;
    if frame.kind != 1 || frame.channel != 0 {
        return Err(ReadFault::Malformed);
    }
    start_of(frame.payload)
}

/// Where the broker's properties stand in the start whose frame stands at the head of the bytes.
///
/// # Errors
/// `Malformed` only where no frame of a start stands there.
pub fn properties_place(bytes: &[u8]) -> Result<Place, ReadFault>
    ensures { GivesPlace result bytes.now (start_in bytes.now) }
{
    let start = read_start(bytes)?;
    Ok(Place {
        at: 17,
        count: start.properties.len(),
    })
}

/// The locale that is said in answer to what stands at the head of the bytes.
///
/// # Errors
/// `NoMemory` alone.
pub(crate) fn said_locale(bytes: &[u8]) -> Result<&[u8], ReadFault>
    ensures { IfOk result (λ l. l.now ≡ locale_in (start_in bytes.now)) }
{
    match read_start(bytes) {
        Ok(start) => Ok(locale(start.locales)),
        Err(ReadFault::Malformed) => Ok(b"en_US"),
        Err(ReadFault::NoMemory) => Err(ReadFault::NoMemory),
    }
}
