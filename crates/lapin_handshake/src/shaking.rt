//! An opening by its bytes: what stands at the head of the broker's bytes is read, and answered.

ghost use Rattle.std.specs.Prelude.{◌≡◌, IfOk, IfErr, OnOk};
ghost use Rattle.lapin_handshake.specs.Callers.{who_of, AreTellable};
ghost use Rattle.lapin_handshake.specs.Shaking.{IsShaken, IsAnswered, Unshaken, Unanswered, refused, too_long};

use crate::caller::{Caller, check_pairs};
use crate::fault::Unsaid;
use crate::handshake::{Handshake, Refusal, Reply, Stage};
use crate::said::{Said, read_said};
use crate::saying::put_reply;
use crate::start::said_locale;
use lapin_fields::{ReadFault, wanted};
use std::alloc::Global;

/// The most bytes of a frame of an opening that is taken, behind its size.
const LONGEST: usize = 131072;

/// What became of bytes of the broker.
#[derive(Clone, Copy, Debug, PartialEq, Eq)]
pub enum Shaken {
    /// They are the beginning of a frame: nothing is done before the rest of it is there.
    Part,
    /// Their first frame was read, and answered.
    Read,
    /// Their first frame, or what stands in its place, refuses the connection.
    Refused(Refusal),
}

/// Takes the frame at the head of the bytes of the broker, if it is there, and adds what is answered to it. The caller's pairs are looked at
/// first, also where there are no bytes yet. A frame that is too long is refused once its size is there, whether more of it came or not.
///
/// # Errors
/// `NotPairs` exactly where the caller's pairs can't be told; `TooLong` only where the reply has no room: the name of the virtual host has
/// more than 255 bytes, or what is told of this side more than a frame; `NoMemory`. After any of them the opening doesn't go on.
#[tactic(auto, using(crate::proofs::Faults::untold, crate::proofs::Faults::unshaken, crate::proofs::Faults::shaken))]
pub fn shake(
    alloc: Global,
    handshake: &mut Handshake,
    bytes: &[u8],
    caller: &Caller,
    out: &mut Vec<u8>,
) -> Result<Shaken, Unsaid>
    ensures told { IfOk result (λ shaken. IsShaken shaken bytes.now (who_of caller.now) handshake.old handshake.new out.old.items out.new.items) }
    ensures pairs { OnOk result (AreTellable caller.now.pairs.now) }
    ensures failed { IfErr result (λ fault. Unshaken fault bytes.now (who_of caller.now) handshake.old) }
{
    check_pairs(alloc, caller.pairs)?;
    if is_too_long(bytes) {
        return Ok(refuse(handshake, Refusal::Malformed));
    }
    if wanted(bytes) > 0 {
        return Ok(Shaken::Part);
    }
    let Ok(locale) = said_locale(bytes) else {
        return Err(Unsaid::NoMemory);
    };
    match read_said(bytes) {
        Ok(said) => {
            let shaken = answer(alloc, handshake, said, caller, locale, out)?;
            Ok(shaken)
        }
        Err(ReadFault::Malformed) => Ok(refuse(handshake, Refusal::Malformed)),
        Err(ReadFault::NoMemory) => Err(Unsaid::NoMemory),
    }
}

// Whether the frame at the head of the bytes is longer than one of an opening may be: by its size alone, however much of it is there.
fn is_too_long(bytes: &[u8]) -> bool
    ensures { result ≡ too_long bytes.now }
{
    let head = if bytes.len() < 7 { bytes } else { &bytes[..7] };
    wanted(head) > LONGEST
}

// The connection isn't opened.
fn refuse(handshake: &mut Handshake, refusal: Refusal) -> Shaken
    ensures told { result ≡ Shaken.Refused refusal }
    ensures after { handshake.new ≡ refused handshake.old }
{
    handshake.stage = Stage::Refused;
    Shaken::Refused(refusal)
}

// Answers what the broker says. A close is answered though it refuses.
#[tactic(auto, using(crate::proofs::Faults::unanswered, crate::proofs::Faults::always))]
fn answer(
    alloc: Global,
    handshake: &mut Handshake,
    said: Said,
    caller: &Caller,
    locale: &[u8],
    out: &mut Vec<u8>,
) -> Result<Shaken, Unsaid>
    ensures told { IfOk result (λ shaken. IsAnswered shaken said (who_of caller.now) locale.now handshake.old handshake.new out.old.items out.new.items) }
    ensures failed { IfErr result (λ fault. Unanswered fault said (who_of caller.now) locale.now handshake.old) }
{
    match handshake.hear(said) {
        Ok(reply) => {
            put_reply(alloc, out, reply, caller, locale)?;
            Ok(Shaken::Read)
        }
        Err(Refusal::Closed(code)) => {
            put_reply(alloc, out, Reply::CloseOk, caller, locale)?;
            Ok(Shaken::Refused(Refusal::Closed(code)))
        }
        Err(refusal) => Ok(Shaken::Refused(refusal)),
    }
}
