//! What stands around the payload of a frame (AMQP 0-9-1, section 4.2.3).

ghost use Rattle.std.specs.Prelude.{◌≡◌, ◌++◌, OnOk};
ghost use Rattle.lapin_fields.specs.Around.{around, around_at, wanted_behind};
ghost use Rattle.lapin_fields.specs.Fits.{StringFits, Refused};
ghost use Rattle.lapin_fields.specs.Reading.{GivesAs};

use crate::fault::{ReadFault, WriteFault};
use crate::octets::{Octets, put_counted, put_octet, put_short};

/// The octet that ends a frame.
const END: u8 = 0xCE;

/// A frame whose payload is not looked into.
#[derive(Drop)]
pub struct Around<'a> {
    /// 1 a method, 2 a content header, 3 a body, 8 a heartbeat.
    pub kind: u8,
    /// The channel.
    pub channel: u16,
    /// What is in it.
    pub payload: &'a [u8],
}

/// Adds a frame.
pub fn put_around(
    out: &mut Vec<u8>,
    kind: u8,
    channel: u16,
    payload: &[u8],
) -> Result<(), WriteFault>
    ensures bytes { OnOk result (out.new.items ≡ out.old.items ++ around kind channel payload.now) }
    ensures fits { OnOk result (StringFits payload.now) }
    ensures refused { Refused result (StringFits payload.now) }
{
    put_octet(out, kind)?;
    put_short(out, channel)?;
    put_counted(out, payload)?;
    put_octet(out, END)?;
    Ok(())
}

/// The frame that stands next.
///
/// # Errors
/// `Malformed`, also where the bytes end before the frame does: `wanted` tells that.
pub fn take_around<'a>(octets: &mut Octets<'a>) -> Result<Around<'a>, ReadFault>
    ensures { GivesAs (λ a. (a.kind, a.channel, a.payload.now)) result octets.new (around_at octets.old) }
{
    let kind = octets.octet()?;
    let channel = octets.short()?;
    let payload = octets.counted()?;
    if octets.octet()? != END {
        return Err(ReadFault::Malformed);
    }
    Ok(Around {
        kind,
        channel,
        payload,
    })
}

/// How many bytes are wanted behind these at least, before a frame stands at their head: those of the seven that tell its size, or those
/// that are left of it; 0 where it is there.
#[tactic(auto, using(crate::proofs::PartLaws::few_wanted))]
pub fn wanted(bytes: &[u8]) -> usize
    ensures { result ≡ wanted_behind bytes.now }
{
    match bytes {
        [_, _, _, a, b, c, d, rest @ ..] => {
            let size = u32::from_be_bytes([*a, *b, *c, *d]) as usize;
            (size + 1).saturating_sub(rest.len())
        }
        _ => 7 - bytes.len(),
    }
}
