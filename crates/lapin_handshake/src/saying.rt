//! What this side says while a connection is opened, and heartbeats, as bytes (AMQP 0-9-1, sections 2.2.4 and 4.2.7, class 10).

ghost use Rattle.std.specs.Prelude.{◌≡◌, ◌++◌, ◌≤◌, length, OnOk, ⊤};
ghost use Rattle.lapin_fields.specs.Around.{around};
ghost use Rattle.lapin_fields.specs.Fits.{StringFits, Refused};
ghost use Rattle.lapin_handshake.specs.Callers.{who_of};
ghost use Rattle.lapin_handshake.specs.Mechanisms.{response_of};
ghost use Rattle.lapin_handshake.specs.Replies.{protocol_header, heartbeat, start_ok_fields, secure_ok_fields, tune_ok_fields, open_fields, start_end, reply_bytes, ReplyFits};

use crate::caller::{Caller, put_client};
use crate::handshake::{Limits, Reply};
use crate::mechanism::{Mechanism, put_response};
use crate::texts::put_short_text;
use lapin_fields::{WriteFault, put_around, put_counted, put_long, put_octet, put_short};
use std::alloc::Global;

/// Adds the octets that come before all frames.
///
/// # Errors
/// `NoMemory` alone.
pub fn put_protocol_header(out: &mut Vec<u8>) -> Result<(), WriteFault>
    ensures bytes { OnOk result (out.new.items ≡ out.old.items ++ protocol_header) }
    ensures refused { Refused result ⊤ }
{
    out.extend_from_slice(&[65, 77, 81, 80, 0, 0, 9, 1])?;
    Ok(())
}

/// Adds a heartbeat.
///
/// # Errors
/// `NoMemory` alone.
pub fn put_heartbeat(out: &mut Vec<u8>) -> Result<(), WriteFault>
    ensures bytes { OnOk result (out.new.items ≡ out.old.items ++ heartbeat) }
    ensures refused { Refused result ⊤ }
{
    put_around(out, 8, 0, &[])
}

// Adds the frame of a method of channel 0.
fn put_method(out: &mut Vec<u8>, fields: &[u8]) -> Result<(), WriteFault>
    ensures bytes { OnOk result (out.new.items ≡ out.old.items ++ around 1 0 fields.now) }
    ensures refused { Refused result (StringFits fields.now) }
{
    put_around(out, 1, 0, fields)
}

#[tactic(auto, unfolding(crate::specs::Replies::start_ok_fields))]
fn put_start_ok(
    alloc: Global,
    out: &mut Vec<u8>,
    caller: &Caller,
    locale: &[u8],
    mechanism: Mechanism,
) -> Result<(), WriteFault>
    ensures bytes { OnOk result (out.new.items ≡ out.old.items ++ start_ok_fields (who_of caller.now) locale.now mechanism) }
    ensures refused { Refused result (StringFits (start_ok_fields (who_of caller.now) locale.now mechanism) × (length locale.now ≤ 255)) }
{
    let mut client = Vec::new(alloc);
    put_client(alloc, &mut client, caller.pairs)?;
    put_short(out, 10)?;
    put_short(out, 11)?;
    put_counted(out, &client)?;
    put_start_end(alloc, out, mechanism, caller.user, caller.password, locale)
}

// The mechanism, its response and the locale.
#[tactic(auto, unfolding(crate::specs::Replies::start_end))]
fn put_start_end(
    alloc: Global,
    out: &mut Vec<u8>,
    mechanism: Mechanism,
    user: &[u8],
    password: &[u8],
    locale: &[u8],
) -> Result<(), WriteFault>
    ensures bytes { OnOk result (out.new.items ≡ out.old.items ++ start_end mechanism user.now password.now locale.now) }
    ensures refused { Refused result (StringFits (start_end mechanism user.now password.now locale.now) × (length locale.now ≤ 255)) }
{
    let mut response = Vec::new(alloc);
    put_response(&mut response, mechanism, user, password)?;
    put_short_text(out, mechanism.word())?;
    put_counted(out, &response)?;
    put_short_text(out, locale)
}

fn put_secure_ok(
    alloc: Global,
    out: &mut Vec<u8>,
    caller: &Caller,
    mechanism: Mechanism,
) -> Result<(), WriteFault>
    ensures bytes { OnOk result (out.new.items ≡ out.old.items ++ secure_ok_fields (who_of caller.now) mechanism) }
    ensures refused { Refused result (StringFits (response_of mechanism caller.now.user.now caller.now.password.now)) }
{
    let mut response = Vec::new(alloc);
    put_response(&mut response, mechanism, caller.user, caller.password)?;
    put_short(out, 10)?;
    put_short(out, 21)?;
    put_counted(out, &response)
}

fn put_tune_ok(out: &mut Vec<u8>, limits: Limits) -> Result<(), WriteFault>
    ensures bytes { OnOk result (out.new.items ≡ out.old.items ++ tune_ok_fields limits) }
    ensures refused { Refused result ⊤ }
{
    put_short(out, 10)?;
    put_short(out, 31)?;
    put_short(out, limits.channel_max)?;
    put_long(out, limits.frame_max)?;
    put_short(out, limits.heartbeat)?;
    Ok(())
}

fn put_open(out: &mut Vec<u8>, vhost: &[u8]) -> Result<(), WriteFault>
    ensures bytes { OnOk result (out.new.items ≡ out.old.items ++ open_fields vhost.now) }
    ensures refused { Refused result (length vhost.now ≤ 255) }
{
    put_short(out, 10)?;
    put_short(out, 40)?;
    put_short_text(out, vhost)?;
    put_octet(out, 0)?;
    put_octet(out, 0)?;
    Ok(())
}

// Adds the frames of tune-ok and open.
fn put_tuned(
    alloc: Global,
    out: &mut Vec<u8>,
    limits: Limits,
    vhost: &[u8],
) -> Result<(), WriteFault>
    ensures bytes { OnOk result (out.new.items ≡ out.old.items ++ around 1 0 (tune_ok_fields limits) ++ around 1 0 (open_fields vhost.now)) }
    ensures refused { Refused result (length vhost.now ≤ 255) }
{
    let mut tune = Vec::new(alloc);
    put_tune_ok(&mut tune, limits)?;
    let mut open = Vec::new(alloc);
    put_open(&mut open, vhost)?;
    put_method(out, &tune)?;
    put_method(out, &open)
}

/// Adds the frames of a reply. After a fault a part of them may stand there.
///
/// # Errors
/// `TooLong` only where the name of the virtual host or the locale has more than 255 bytes, or what is told of this side more than a frame
/// has room for; `NoMemory`.
pub fn put_reply(
    alloc: Global,
    out: &mut Vec<u8>,
    reply: Reply,
    caller: &Caller,
    locale: &[u8],
) -> Result<(), WriteFault>
    ensures bytes { OnOk result (out.new.items ≡ out.old.items ++ reply_bytes (who_of caller.now) locale.now reply) }
    ensures refused { Refused result (ReplyFits (who_of caller.now) locale.now reply) }
{
    match reply {
        Reply::Nothing => Ok(()),
        Reply::StartOk(mechanism) => {
            let mut fields = Vec::new(alloc);
            put_start_ok(alloc, &mut fields, caller, locale, mechanism)?;
            put_method(out, &fields)
        }
        Reply::SecureOk(mechanism) => {
            let mut fields = Vec::new(alloc);
            put_secure_ok(alloc, &mut fields, caller, mechanism)?;
            put_method(out, &fields)
        }
        Reply::Open(limits) => put_tuned(alloc, out, limits, caller.vhost),
        Reply::CloseOk => put_method(out, &[0, 10, 0, 51]),
    }
}
