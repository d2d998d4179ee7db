//! Bytes of the broker, in whatever pieces they come: each frame that is whole is handed to the session, once nothing of this side waits
//! that has begun.
ghost use Rattle.std.specs.Prelude.{◌≡◌, ◌≤◌, Some};
ghost use Rattle.lapin_client.specs.Clients.{IsSound};
ghost use Rattle.lapin_client.specs.Closes.{close_said};
ghost use Rattle.lapin_client.specs.Receiving.{Receives, Runs, Turns, TurnsBy, Takes, TakesIdle, IdleCounts, Hears, NotesHeard, HearCounts, HeadIs, NoticeIs, notice_in as notice_in_lem, is_of_content as is_of_content_lem, begins_content as begins_content_lem, is_deaf as is_deaf_lem, is_stray as is_stray_lem, length_at};
ghost use Rattle.lapin_client.specs.Refusals.{is_refusal};
ghost use Rattle.lapin_rules.specs.Drops.{frame_channel};
ghost use Rattle.lapin_tables.specs.ByChannel.{HasRoom};

use crate::client::Client;
use crate::closes::{Close, close_of, put_close};
use crate::status::Status;
use lapin_fields::wanted;
use lapin_frames::{Read, ReadFault, read_frame};
use lapin_handshake::{Said, read_said};
use lapin_machine::Session;
use lapin_types::{BasicMethod, ChannelState, Error, Frame, Method};
use std::alloc::Global;

// What stands at the head of the bytes that came.
#[derive(Drop)]
enum Head {
    // The beginning of a frame.
    Part,
    // A frame for the session, in so many bytes.
    Frame(Frame, usize),
    // A heartbeat, in so many bytes.
    Passed(usize),
    // The broker takes messages or takes none, in so many bytes.
    Blocked(bool, usize),
    // No frame.
    Malformed,
    // A frame that is longer than a frame may be.
    TooLong,
    // There was no memory for it.
    NoMemory,
}

impl Client {
    /// Takes bytes of the broker, and hands each frame that is whole to the session. Where a frame is refused, or its bytes are none, what
    /// came behind it is kept, and handed on by the next call.
    ///
    /// `NoMemory`: the bytes were not kept, and all is as it was: hand them in again. `Kept`: they were, and there was no memory for the frame
    /// at the head of what came, which stays there: call again, with no bytes.
    pub fn receive(&mut self, alloc: Global, bytes: &[u8]) -> Status
        requires { IsSound self.old }
        ensures sound { IsSound self.new }
        ensures told { Receives result bytes.now self.old self.new }
    {
        match self.came.add(bytes) {
            Ok(()) => self.run(alloc),
            Err(_) => Status::NoMemory,
        }
    }

    // Takes each frame that came whole.
    fn run(&mut self, alloc: Global) -> Status
        requires { IsSound self.old }
        ensures sound { IsSound self.new }
        ensures told { Runs result self.old self.new }
    {
        for _turn in 0..u64::MAX {
            match self.turn(alloc) {
                Status::Done => {}
                Status::Pending => return Status::Done,
                status => return status,
            }
        }
        Status::Kept
    }

    // Takes what stands at the head of the bytes that came. Pending where that is no whole frame yet.
    fn turn(&mut self, alloc: Global) -> Status
        requires { IsSound self.old }
        ensures sound { IsSound self.new }
        ensures told { Turns result self.old self.new }
    {
        match head_of(alloc, self.came.rest(), self.frame_max) {
            Head::Part => Status::Pending,
            Head::Frame(frame, length) => self.turn_by(alloc, frame, length),
            Head::Passed(length) => {
                self.came.pass(length);
                Status::Done
            }
            Head::Blocked(blocked, length) => {
                self.came.pass(length);
                self.blocked = blocked;
                Status::Done
            }
            Head::Malformed => Status::Malformed,
            Head::TooLong => Status::TooLong,
            Head::NoMemory => Status::Kept,
        }
    }

    // Takes the frame at the head of the bytes that came, of so many bytes. They stay where it isn't taken.
    fn turn_by(&mut self, alloc: Global, frame: Frame, length: usize) -> Status
        requires { IsSound self.old }
        ensures sound { IsSound self.new }
        ensures told { TurnsBy result frame length self.old self.new }
    {
        match self.take(alloc, frame) {
            Status::Done => {
                self.came.pass(length);
                Status::Done
            }
            Status::Refused => {
                self.came.pass(length);
                Status::Refused
            }
            status => status,
        }
    }

    // Takes a frame: first what has begun here leaves whole.
    fn take(&mut self, alloc: Global, frame: Frame) -> Status
        requires { IsSound self.old }
        ensures sound { IsSound self.new }
        ensures told { Takes result frame self.old self.new }
    {
        match self.finish(alloc) {
            Status::Done => self.take_idle(alloc, frame),
            Status::NoMemory => {
                drop(frame);
                Status::Kept
            }
            status => {
                drop(frame);
                status
            }
        }
    }

    // Takes a frame, where nothing waits here that has begun. A content of an opening that has ended is passed over.
    fn take_idle(&mut self, alloc: Global, frame: Frame) -> Status
        requires { IsSound self.old }
        ensures sound { IsSound self.new }
        ensures told { TakesIdle result frame self.old self.new }
        ensures count { IdleCounts result frame self.old self.new }
    {
        if is_stray(&self.session, &frame) {
            drop(frame);
            return Status::Done;
        }
        self.note(alloc, frame)
    }

    // The session takes a frame, and the close that it says, if it says one, is its channel's last.
    fn note(&mut self, alloc: Global, frame: Frame) -> Status
        requires { IsSound self.old }
        ensures sound { IsSound self.new }
        ensures told { NotesHeard result frame self.old self.new }
        ensures count { HearCounts result self.old self.new }
    {
        match close_of(alloc, &frame) {
            Ok(Some((channel, close))) => self.note_close(alloc, frame, channel, close),
            Ok(None) => self.hear(alloc, frame),
            Err(_) => {
                drop(frame);
                Status::Kept
            }
        }
    }

    // The session takes a frame that says a close.
    fn note_close(&mut self, alloc: Global, frame: Frame, channel: u16, close: Close) -> Status
        requires sound { IsSound self.old }
        requires said { close_said frame ≡ Some (channel, close) }
        ensures sound { IsSound self.new }
        ensures told { NotesHeard result frame self.old self.new }
        ensures count { HearCounts result self.old self.new }
    {
        match self.closes.reserve(channel) {
            Ok(()) => self.note_reserved(alloc, frame, channel, close),
            Err(_) => {
                drop(frame);
                drop(close);
                Status::Kept
            }
        }
    }

    // The same, where there is room for the close.
    fn note_reserved(&mut self, alloc: Global, frame: Frame, channel: u16, close: Close) -> Status
        requires sound { IsSound self.old }
        requires said { close_said frame ≡ Some (channel, close) }
        requires room { HasRoom channel self.old.closes }
        ensures sound { IsSound self.new }
        ensures told { NotesHeard result frame self.old self.new }
        ensures count { HearCounts result self.old self.new }
    {
        match self.hear(alloc, frame) {
            Status::Kept => {
                drop(close);
                Status::Kept
            }
            Status::Ended => {
                drop(close);
                Status::Ended
            }
            status => {
                put_close(&mut self.closes, channel, close);
                status
            }
        }
    }

    // The session takes a frame.
    fn hear(&mut self, alloc: Global, frame: Frame) -> Status
        requires { IsSound self.old }
        ensures sound { IsSound self.new }
        ensures told { Hears result frame self.old self.new }
        ensures count { HearCounts result self.old self.new }
    {
        if self.left == 0 {
            drop(frame);
            return Status::Ended;
        }
        match self.session.receive(alloc, frame) {
            Ok(heard) => {
                drop(heard);
                self.left -= 1;
                Status::Done
            }
            Err(error) => {
                if refuses(error) {
                    self.left -= 1;
                    self.keep(error);
                    return Status::Refused;
                }
                Status::Kept
            }
        }
    }
}

// Whether the session did something with a frame of which it told the error.
pub(crate) fn refuses(error: Error) -> bool
    ensures { result ≡ is_refusal error }
{
    !matches!(error, Error::NoMemory | Error::NumbersUsedUp)
}

// Whether a frame is part of a content, or begins one.
fn is_of_content(frame: &Frame) -> bool
    ensures { result ≡ is_of_content_lem frame.now }
{
    match frame {
        Frame::Method(_, Method::Basic(method)) => begins_content(method),
        Frame::Method(_, _) => false,
        Frame::Header(_, _) | Frame::Body(_, _) => true,
    }
}

// Whether a content follows a method.
fn begins_content(method: &BasicMethod) -> bool
    ensures { result ≡ begins_content_lem method.now }
{
    matches!(
        method,
        BasicMethod::Deliver { .. } | BasicMethod::Return { .. } | BasicMethod::GetOk { .. }
    )
}

fn channel_of(frame: &Frame) -> u16
    ensures { result ≡ frame_channel frame.now }
{
    match frame {
        Frame::Method(channel, _) => *channel,
        Frame::Header(channel, _) => *channel,
        Frame::Body(channel, _) => *channel,
    }
}

// Whether a channel of an open connection hears no contents: it is closed, not open yet, or both sides close it.
fn is_deaf(state: ChannelState) -> bool
    ensures { result ≡ is_deaf_lem state }
{
    matches!(
        state,
        ChannelState::Closed | ChannelState::Opening | ChannelState::Crossed
    )
}

// Whether a frame belongs to an opening of its channel that has ended: contents that were on their way as the broker closed it.
fn is_stray(session: &Session, frame: &Frame) -> bool
    ensures { result ≡ is_stray_lem frame.now session.now }
{
    let deaf = is_deaf(session.channel_state(channel_of(frame)));
    is_of_content(frame) && deaf
}

// What stands at the head of bytes, where no frame has more than so many.
#[tactic(auto, using(crate::proofs::Parts::part_short, crate::proofs::Parts::head_noticed))]
fn head_of(alloc: Global, bytes: &[u8], frame_max: u32) -> Head
    requires { 4096 ≤ frame_max }
    ensures { HeadIs result bytes.now frame_max }
{
    if length_of(bytes) > frame_max as usize {
        return Head::TooLong;
    }
    if wanted(bytes) > 0 {
        return Head::Part;
    }
    match read_frame(alloc, bytes) {
        Ok(Read::Frame(frame, length)) => Head::Frame(frame, length),
        Ok(Read::Heartbeat(length)) => Head::Passed(length),
        Err(ReadFault::Malformed) => notice_of(bytes),
        _ => Head::NoMemory,
    }
}

// What stands at the head of bytes, where that is whole, and neither a frame for the session nor a heartbeat.
#[tactic(auto, using(crate::proofs::Parts::noticed, crate::proofs::Parts::unnoticed, crate::proofs::Parts::none_said))]
fn notice_of(bytes: &[u8]) -> Head
    ensures { NoticeIs result bytes.now }
{
    match read_said(bytes) {
        Ok(said) => match notice_in(said) {
            Some(blocked) => Head::Blocked(blocked, length_of(bytes)),
            None => Head::Malformed,
        },
        Err(ReadFault::Malformed) => Head::Malformed,
        Err(ReadFault::NoMemory) => Head::NoMemory,
    }
}

// Whether the broker takes no messages, if what a frame says is that.
fn notice_in(said: Said) -> Option<bool>
    ensures { result ≡ notice_in_lem said }
{
    match said {
        Said::Blocked => Some(true),
        Said::Unblocked => Some(false),
        _ => None,
    }
}

// The octets of the frame at the head of bytes, told by its size; 0 where that isn't there.
fn length_of(bytes: &[u8]) -> usize
    ensures { result ≡ length_at bytes.now }
{
    match bytes {
        [_, _, _, a, b, c, d, ..] => u32::from_be_bytes([*a, *b, *c, *d]) as usize + 8,
        _ => 0,
    }
}
