//! What the broker says on channel 0 that no session hears: the methods by which a connection is opened, heartbeats, and whether the
//! broker takes messages just now (AMQP 0-9-1, class 10; RabbitMQ, `connection.blocked`).

ghost use Rattle.std.specs.Prelude.{◌≡◌};
ghost use Rattle.lapin_fields.specs.Reading.{Gives};
ghost use Rattle.lapin_handshake.specs.Saying.{start_at, secure_at, tune_at, open_ok_at, close_at, blocked_at, said_at, frame_said_at, GivesSaid, method_said};

use crate::mechanism::{Offers, offered};
use crate::start::take_fields;
use lapin_fields::{Octets, ReadFault, take_around};

/// What a frame of the broker says.
#[derive(Clone, Copy, Debug, PartialEq, Eq)]
pub enum Said {
    /// `connection.start`: the version of the protocol, and which mechanisms the broker offers.
    Start {
        major: u8,
        minor: u8,
        offers: Offers,
    },
    /// `connection.secure`: a challenge.
    Secure,
    /// `connection.tune`: the broker's limits; 0 of the first two stands for none, and of the third for no heartbeats.
    Tune {
        channel_max: u16,
        frame_max: u32,
        heartbeat: u16,
    },
    /// `connection.open-ok`.
    OpenOk,
    /// `connection.close`, with its code.
    Close {
        code: u16,
    },
    /// `connection.blocked`: the broker takes no messages.
    Blocked,
    /// `connection.unblocked`: it takes them again.
    Unblocked,
    /// A heartbeat.
    Heartbeat,
}

fn take_start(octets: &mut Octets) -> Result<Said, ReadFault>
    ensures { Gives result octets.new (start_at octets.old) }
{
    let start = take_fields(octets)?;
    Ok(Said::Start {
        major: start.major,
        minor: start.minor,
        offers: offered(start.mechanisms),
    })
}

fn take_secure(octets: &mut Octets) -> Result<Said, ReadFault>
    ensures { Gives result octets.new (secure_at octets.old) }
{
    let _challenge = octets.counted()?;
    Ok(Said::Secure)
}

fn take_tune(octets: &mut Octets) -> Result<Said, ReadFault>
    ensures { Gives result octets.new (tune_at octets.old) }
{
    let channel_max = octets.short()?;
    let frame_max = octets.long()?;
    let heartbeat = octets.short()?;
    Ok(Said::Tune {
        channel_max,
        frame_max,
        heartbeat,
    })
}

fn take_open_ok(octets: &mut Octets) -> Result<Said, ReadFault>
    ensures { Gives result octets.new (open_ok_at octets.old) }
{
    let count = octets.octet()?;
    let _reserved = octets.piece(count as usize)?;
    Ok(Said::OpenOk)
}

fn take_close(octets: &mut Octets) -> Result<Said, ReadFault>
    ensures { Gives result octets.new (close_at octets.old) }
{
    let code = octets.short()?;
    let count = octets.octet()?;
    let _text = octets.piece(count as usize)?;
    let _class = octets.short()?;
    let _method = octets.short()?;
    Ok(Said::Close { code })
}

fn take_blocked(octets: &mut Octets) -> Result<Said, ReadFault>
    ensures { Gives result octets.new (blocked_at octets.old) }
{
    let count = octets.octet()?;
    let _reason = octets.piece(count as usize)?;
    Ok(Said::Blocked)
}

// What the fields of a method of the class connection say.
fn take_said(number: u16, octets: &mut Octets) -> Result<Said, ReadFault>
    ensures { Gives result octets.new (said_at number octets.old) }
{
    match number {
        10 => take_start(octets),
        20 => take_secure(octets),
        30 => take_tune(octets),
        41 => take_open_ok(octets),
        50 => take_close(octets),
        60 => take_blocked(octets),
        61 => Ok(Said::Unblocked),
        _ => Err(ReadFault::Malformed),
    }
}

// What the payload of a method's frame says, if it says what stands here.
fn said_of(payload: &[u8]) -> Result<Said, ReadFault>
    ensures { GivesSaid result (method_said payload.now) }
{
    let mut octets = Octets::new(payload);
    let class = octets.short()?;
    let number = octets.short()?;
    if class != 10 {
        return Err(ReadFault::Malformed);
    }
    let said = take_said(number, &mut octets)?;
    octets.finish()?;
    Ok(said)
}

/// What the frame says that stands at the head of the bytes.
///
/// # Errors
/// `Malformed` where there is none that says what stands here.
pub fn read_said(bytes: &[u8]) -> Result<Said, ReadFault>
    ensures { GivesSaid result (frame_said_at bytes.now) }
{
    let mut octets = Octets::new(bytes);
    let frame = take_around(&mut octets)?;
    if frame.channel != 0 {
        return Err(ReadFault::Malformed);
    }
    match frame.kind {
        1 => said_of(frame.payload),
        8 => Ok(Said::Heartbeat),
        _ => Err(ReadFault::Malformed),
    }
}
