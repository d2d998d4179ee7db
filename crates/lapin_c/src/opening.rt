//! The exports of an opening and of heartbeats. C holds both in structs of its own, which hold numbers alone.

ghost use Rattle.std.specs.Prelude.{◌≡◌};
ghost use Rattle.lapin_handshake.specs.Beats.{beat_at};
ghost use Rattle.lapin_c.specs.Openings.{stage_of as stage_of_lem, number_of as number_of_lem, mechanism_of as mechanism_of_lem, word_number, handshake_of as handshake_of_lem, opening_of as opening_of_lem, fault_number, GavePlace, IsBeat, IsTold, Shakes};

use lapin_client::{Status, copy_out};
use lapin_fields::ReadFault;
use lapin_handshake::{
    Beat, Caller, Clock, Handshake, Limits, Mechanism, Place, Shaken, Stage, Unsaid,
    properties_place, shake,
};
use std::alloc::Global;

/// An opening: what is waited for, 0 for `connection.start`, 1 for `connection.tune`, 2 for `connection.open-ok`, 3 where the connection
/// is open and else where it was refused; the limits; and the mechanism, 0 for PLAIN, 1 for AMQPLAIN and else EXTERNAL.
#[derive(Clone, Copy, Debug, PartialEq, Eq)]
#[repr(C)]
pub struct Opening {
    pub stage: u32,
    pub frame_max: u32,
    pub channel_max: u16,
    pub heartbeat: u16,
    pub mechanism: u32,
}

fn stage_of(number: u32) -> Stage
    ensures { result ≡ stage_of_lem number }
{
    match number {
        0 => Stage::Start,
        1 => Stage::Tune,
        2 => Stage::Open,
        3 => Stage::Opened,
        _ => Stage::Refused,
    }
}

fn number_of(stage: Stage) -> u32
    ensures { result ≡ number_of_lem stage }
{
    match stage {
        Stage::Start => 0,
        Stage::Tune => 1,
        Stage::Open => 2,
        Stage::Opened => 3,
        Stage::Refused => 4,
    }
}

fn mechanism_of(number: u32) -> Mechanism
    ensures { result ≡ mechanism_of_lem number }
{
    match number {
        0 => Mechanism::Plain,
        1 => Mechanism::AmqPlain,
        _ => Mechanism::External,
    }
}

fn number_of_mechanism(mechanism: Mechanism) -> u32
    ensures { result ≡ word_number mechanism }
{
    match mechanism {
        Mechanism::Plain => 0,
        Mechanism::AmqPlain => 1,
        Mechanism::External => 2,
    }
}

fn handshake_of(opening: Opening) -> Handshake
    ensures { result ≡ handshake_of_lem opening }
{
    Handshake {
        stage: stage_of(opening.stage),
        mechanism: mechanism_of(opening.mechanism),
        limits: Limits {
            channel_max: opening.channel_max,
            frame_max: opening.frame_max,
            heartbeat: opening.heartbeat,
        },
    }
}

fn opening_of(handshake: Handshake) -> Opening
    ensures { result ≡ opening_of_lem handshake }
{
    Opening {
        stage: number_of(handshake.stage),
        frame_max: handshake.limits.frame_max,
        channel_max: handshake.limits.channel_max,
        heartbeat: handshake.limits.heartbeat,
        mechanism: number_of_mechanism(handshake.mechanism),
    }
}

/// Takes the frame at the head of the bytes of the broker, and writes what is answered to it, and how many bytes that is. Done: the frame
/// was read. Pending: it isn't there whole yet. Refused: the connection isn't opened, and the code says why. Where there is no room for the
/// reply, nothing is done; nor where the pairs can't be told, which is looked at first, also where there are no bytes.
#[unsafe(no_mangle)]
pub extern "C" fn lapin_shake(
    alloc: Global,
    opening: &mut Opening,
    bytes: &[u8],
    user: &[u8],
    password: &[u8],
    vhost: &[u8],
    pairs: &[u8],
    out: &mut [u8],
    written: &mut usize,
    code: &mut u16,
) -> u32
    ensures { Shakes result bytes.now (record { user = user.now; password = password.now; vhost = vhost.now; pairs = pairs.now }) opening.old opening.new out.old out.new written.new code.old code.new }
{
    let mut handshake = handshake_of(*opening);
    let caller = Caller {
        user,
        password,
        vhost,
        pairs,
    };
    let mut reply = Vec::new(alloc);
    *written = 0;
    let shaken = match shake(alloc, &mut handshake, bytes, &caller, &mut reply) {
        Ok(shaken) => shaken,
        Err(fault) => return number_of_fault(fault),
    };
    if out.len() < reply.len() {
        return Status::TooLong.code();
    }
    *written = copy_out(out, &reply);
    *opening = opening_of(handshake);
    told(shaken, code)
}

// What became of the bytes, and the code of a refusal.
fn told(shaken: Shaken, code: &mut u16) -> u32
    ensures { IsTold shaken result code.old code.new }
{
    match shaken {
        Shaken::Part => Status::Pending.code(),
        Shaken::Read => Status::Done.code(),
        Shaken::Refused(refusal) => {
            *code = refusal.code();
            Status::Refused.code()
        }
    }
}

fn number_of_fault(fault: Unsaid) -> u32
    ensures { result ≡ fault_number fault }
{
    match fault {
        Unsaid::NoMemory => Status::NoMemory.code(),
        Unsaid::TooLong | Unsaid::NotPairs => Status::NotInGrammar.code(),
    }
}

/// Where the broker's own properties stand in the start whose frame stands at the head of the bytes. Done, and the place is written; or not
/// in the grammar: no start stands there whole; or no memory.
#[unsafe(no_mangle)]
pub extern "C" fn lapin_server_properties(bytes: &[u8], place: &mut Place) -> u32
    ensures { GavePlace result bytes.now place.old place.new }
{
    match properties_place(bytes) {
        Ok(found) => {
            *place = found;
            Status::Done.code()
        }
        Err(ReadFault::Malformed) => Status::NotInGrammar.code(),
        Err(ReadFault::NoMemory) => Status::NoMemory.code(),
    }
}

/// What a clock says now: 0 nothing before so many milliseconds have passed, 1 a heartbeat is to be sent, 2 the broker was silent for too
/// long, 3 never anything.
#[unsafe(no_mangle)]
pub extern "C" fn lapin_beat(clock: &Clock, now: u64, wait: &mut u64) -> u32
    ensures { IsBeat result wait.old wait.new (beat_at now clock.now) }
{
    match clock.due(now) {
        Beat::Wait(milliseconds) => {
            *wait = milliseconds;
            0
        }
        Beat::Send => 1,
        Beat::Silent => 2,
        Beat::Never => 3,
    }
}
