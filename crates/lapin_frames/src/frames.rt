//! Frames: a method, a content header or a body with what stands around it (AMQP 0-9-1, section 4.2.3).

ghost use Rattle.std.specs.Prelude.{◌≡◌, ◌++◌, ◌∷◌, ◌<◌, ◌≤◌, [], length, OnOk, OnErr, IfOk, IfErr, Ok};
ghost use Rattle.lapin_fields.specs.Around.{around, wanted_behind};
ghost use Rattle.lapin_fields.specs.Fits.{Refused, StringFits};
ghost use Rattle.lapin_fields.specs.Reading.{GivesWhole};
ghost use Rattle.lapin_frames.specs.FrameFits.{FrameFits, MethodFits, RefusedWithin};
ghost use Rattle.lapin_frames.specs.FrameReading.{frame_in, heartbeat_in, read_in, read_at, used, whole};
ghost use Rattle.lapin_frames.specs.Frames.{bytes_of};
ghost use Rattle.lapin_frames.specs.MethodReading.{method_at};
ghost use Rattle.lapin_frames.specs.Methods.{method_bytes};

use crate::headers::{header_of, put_header};
use crate::methods::{put_method, take_method};
use lapin_fields::{Around, Octets, ReadFault, WriteFault, put_around, take_around, wanted};
use lapin_methods::{Frame, Method};
use lapin_values::Payload;
use std::alloc::{AllocError, Global};

const METHOD: u8 = 1;

const HEADER: u8 = 2;

const BODY: u8 = 3;

const HEARTBEAT: u8 = 8;

// The byte that ends a frame.
const END: u8 = 0xCE;

// The bytes of a frame beside what is in it.
const AROUND: usize = 8;

// Room for a method or a header, of which most need no more.
const USUAL: usize = 128;

/// What stands at the head of bytes.
#[derive(Drop)]
pub enum Read {
    /// A frame, in so many bytes.
    Frame(Frame, usize),
    /// A heartbeat, in so many bytes.
    Heartbeat(usize),
    /// The beginning of a frame.
    Part,
}

// How much room to make at first for the bytes of a frame: more is made where it does not suffice.
fn room_of(frame: &Frame) -> usize {
    match frame {
        Frame::Body(_, payload) => payload.as_bytes().len().saturating_add(AROUND),
        _ => USUAL,
    }
}

// Adds the bytes of a frame, or a part of them where that fails.
fn put_parts(alloc: Global, out: &mut Vec<u8>, frame: &Frame) -> Result<(), WriteFault>
    ensures bytes { OnOk result (out.new.items ≡ out.old.items ++ bytes_of frame.now) }
    ensures fits { OnOk result (FrameFits frame.now) }
    ensures refused { Refused result (FrameFits frame.now) }
{
    match frame {
        Frame::Method(channel, method) => {
            let mut payload = Vec::with_capacity(alloc, USUAL)?;
            put_method(alloc, &mut payload, method)?;
            put_around(out, METHOD, *channel, &payload)
        }
        Frame::Header(channel, header) => {
            let mut payload = Vec::with_capacity(alloc, USUAL)?;
            put_header(alloc, &mut payload, header)?;
            put_around(out, HEADER, *channel, &payload)
        }
        Frame::Body(channel, payload) => put_around(out, BODY, *channel, payload.as_bytes()),
    }
}

/// Adds the bytes of a frame, or nothing.
///
/// # Errors
/// `TooLong` and `TooDeep` exactly where the frame does not fit, and `NoMemory`.
pub fn put_frame(alloc: Global, out: &mut Vec<u8>, frame: &Frame) -> Result<(), WriteFault>
    ensures ok { OnOk result (out.new.items ≡ out.old.items ++ bytes_of frame.now) }
    ensures fits { OnOk result (FrameFits frame.now) }
    ensures err { OnErr result (out.new.items ≡ out.old.items) }
    ensures refused { Refused result (FrameFits frame.now) }
{
    let mut whole = Vec::with_capacity(alloc, room_of(frame))?;
    put_parts(alloc, &mut whole, frame)?;
    out.extend_from_slice(&whole)?;
    Ok(())
}

// Adds bytes, others behind them and the end of a frame, or nothing.
fn put_pieces(out: &mut Vec<u8>, head: &[u8], payload: &[u8]) -> Result<(), AllocError>
    ensures ok { OnOk result (out.new.items ≡ out.old.items ++ head.now ++ payload.now ++ 206 ∷ []) }
    ensures err { OnErr result (out.new.items ≡ out.old.items) }
{
    let before = out.len();
    out.extend_from_slice(head)?;
    if let Err(error) = out.extend_from_slice(payload) {
        out.truncate(before);
        return Err(error);
    }
    if let Err(error) = out.push(END) {
        out.truncate(before);
        return Err(error.into());
    }
    Ok(())
}

// Adds what stands around a payload, and the payload, if that is at most so many bytes; or nothing.
fn put_within(
    out: &mut Vec<u8>,
    kind: u8,
    channel: u16,
    payload: &[u8],
    limit: usize,
) -> Result<(), WriteFault>
    ensures ok { OnOk result ((out.new.items ≡ out.old.items ++ around kind channel payload.now) × (length (around kind channel payload.now) ≤ limit)) }
    ensures fits { OnOk result (StringFits payload.now) }
    ensures err { OnErr result (out.new.items ≡ out.old.items) }
    ensures refused { RefusedWithin result (StringFits payload.now) (limit < length (around kind channel payload.now)) }
{
    let Ok(count) = u32::try_from(payload.len()) else {
        return Err(WriteFault::TooLong);
    };
    if limit < AROUND || payload.len() > limit - AROUND {
        return Err(WriteFault::AboveLimit);
    }
    let [a, b] = channel.to_be_bytes();
    let [c, d, e, f] = count.to_be_bytes();
    match put_pieces(out, &[kind, a, b, c, d, e, f], payload) {
        Ok(()) => Ok(()),
        Err(_) => Err(WriteFault::NoMemory),
    }
}

/// Adds the bytes of a frame that has at most so many bytes, or nothing. What is in the frame is made in the room, which loses what it has:
/// who keeps it saves an allocation a frame.
///
/// # Errors
/// `AboveLimit` exactly where the frame could be written and has more bytes; `TooLong` and `TooDeep` where it could not, and `NoMemory`.
pub fn put_frame_within(
    alloc: Global,
    out: &mut Vec<u8>,
    room: &mut Vec<u8>,
    frame: &Frame,
    limit: usize,
) -> Result<(), WriteFault>
    ensures ok { OnOk result ((out.new.items ≡ out.old.items ++ bytes_of frame.now) × (length (bytes_of frame.now) ≤ limit)) }
    ensures fits { OnOk result (FrameFits frame.now) }
    ensures err { OnErr result (out.new.items ≡ out.old.items) }
    ensures refused { RefusedWithin result (FrameFits frame.now) (limit < length (bytes_of frame.now)) }
{
    match frame {
        Frame::Method(channel, method) => {
            room.clear();
            put_method(alloc, room, method)?;
            put_within(out, METHOD, *channel, room, limit)
        }
        Frame::Header(channel, header) => {
            room.clear();
            put_header(alloc, room, header)?;
            put_within(out, HEADER, *channel, room, limit)
        }
        Frame::Body(channel, payload) => {
            put_within(out, BODY, *channel, payload.as_bytes(), limit)
        }
    }
}

/// Adds a heartbeat, or nothing.
///
/// # Errors
/// `NoMemory`.
pub fn put_heartbeat(out: &mut Vec<u8>) -> Result<(), WriteFault>
    ensures ok { OnOk result (out.new.items ≡ out.old.items ++ around 8 0 []) }
    ensures err { OnErr result (out.new.items ≡ out.old.items) }
    ensures cause { IfErr result (λ e. e ≡ WriteFault.NoMemory) }
{
    out.extend_from_slice(&[HEARTBEAT, 0, 0, 0, 0, 0, 0, 0xCE])?;
    Ok(())
}

/// Adds the octets of a method, from its class on: what is in its frame; or nothing.
///
/// # Errors
/// `TooLong` and `TooDeep` exactly where the method does not fit, and `NoMemory`.
pub fn put_method_octets(
    alloc: Global,
    out: &mut Vec<u8>,
    method: &Method,
) -> Result<(), WriteFault>
    ensures ok { OnOk result (out.new.items ≡ out.old.items ++ method_bytes method.now) }
    ensures fits { OnOk result (MethodFits method.now) }
    ensures err { OnErr result (out.new.items ≡ out.old.items) }
    ensures refused { Refused result (MethodFits method.now) }
{
    let mut whole = Vec::with_capacity(alloc, USUAL)?;
    put_method(alloc, &mut whole, method)?;
    out.extend_from_slice(&whole)?;
    Ok(())
}

/// The method that octets are, from its class on: what is in its frame.
///
/// # Errors
/// `Malformed` exactly where they are none, and `NoMemory`.
pub fn method_in(alloc: Global, payload: &[u8]) -> Result<Method, ReadFault>
    ensures { GivesWhole result (whole (method_at payload.now)) }
{
    let mut octets = Octets::new(payload);
    let method = take_method(alloc, &mut octets)?;
    match octets.finish() {
        Ok(()) => Ok(method),
        Err(fault) => {
            drop(method);
            Err(fault)
        }
    }
}

// The frame of a type, from all that is in it.
fn frame_of(alloc: Global, kind: u8, channel: u16, payload: &[u8]) -> Result<Frame, ReadFault>
    ensures { GivesWhole result (frame_in kind channel payload.now) }
{
    match kind {
        METHOD => Ok(Frame::Method(channel, method_in(alloc, payload)?)),
        HEADER => Ok(Frame::Header(channel, header_of(alloc, payload)?)),
        BODY => Ok(Frame::Body(channel, Payload::new(alloc, payload)?)),
        _ => Err(ReadFault::Malformed),
    }
}

// A heartbeat is on channel 0 and has no payload.
fn heartbeat_of(channel: u16, payload: &[u8]) -> Result<Read, ReadFault>
    ensures { GivesWhole result (heartbeat_in channel payload.now) }
{
    match payload {
        [] => {
            if channel == 0 {
                Ok(Read::Heartbeat(AROUND))
            } else {
                Err(ReadFault::Malformed)
            }
        }
        _ => Err(ReadFault::Malformed),
    }
}

fn read_around(alloc: Global, around: &Around) -> Result<Read, ReadFault>
    ensures { GivesWhole result (read_in around.now.kind around.now.channel around.now.payload.now) }
{
    if around.kind == HEARTBEAT {
        return heartbeat_of(around.channel, around.payload);
    }
    let size = around.payload.len() + AROUND;
    let frame = frame_of(alloc, around.kind, around.channel, around.payload)?;
    Ok(Read::Frame(frame, size))
}

/// What stands at the head of the bytes.
///
/// # Errors
/// `Malformed` where it is no frame that a broker sends behind the handshake, and `NoMemory`.
pub fn read_frame(alloc: Global, bytes: &[u8]) -> Result<Read, ReadFault>
    ensures part { 0 < wanted_behind bytes.now → result ≡ Ok Read.Part }
    ensures found { wanted_behind bytes.now ≡ 0 → GivesWhole result (read_at bytes.now) }
    ensures used { IfOk result (λ read. used read ≤ length bytes.now) }
{
    if wanted(bytes) > 0 {
        return Ok(Read::Part);
    }
    let mut octets = Octets::new(bytes);
    let around = take_around(&mut octets)?;
    read_around(alloc, &around)
}
