//! Frames that leave, as bytes.
ghost use Rattle.std.specs.Prelude.{◌≡◌, ◌≤◌, ◌++◌, ◌<◌, false, None, Err, length, OnOk, OnErr};
ghost use Rattle.lapin_client.specs.Clients.{IsSound};
ghost use Rattle.lapin_frames.specs.FrameFits.{FrameFits, RefusedWithin};
ghost use Rattle.lapin_frames.specs.Frames.{bytes_of};
ghost use Rattle.lapin_client.specs.Sending.{Pulls, Finishes, Sends, Steps, Writes, WritesHeld};

use crate::client::Client;
use crate::status::Status;
use lapin_frames::{WriteFault, put_frame_within};
use lapin_types::{Frame, Left};
use std::alloc::Global;

impl Client {
    /// The frames that may leave, as bytes behind those that are still to be sent: until there is none, or until there are so many bytes;
    /// and then what is left of a begun publish, and the methods that wait, so that afterwards nothing waits but publishes that have not
    /// begun.
    ///
    /// `NoMemory`: what left stands behind what was to be sent, and a frame for whose bytes there was none is held: call again. `TooLong`: a
    /// frame has more bytes than a frame may have, and is lost; the client ends.
    pub fn send(&mut self, alloc: Global, flow: bool, enough: usize) -> Status
        requires { IsSound self.old }
        ensures sound { IsSound self.new }
        ensures told { Sends result flow enough self.old self.new }
    {
        match self.pull(alloc, flow, enough) {
            Status::Done => self.finish(alloc),
            status => status,
        }
    }

    /// What is left of a begun publish and the methods that wait leave, as bytes.
    pub fn finish(&mut self, alloc: Global) -> Status
        requires { IsSound self.old }
        ensures sound { IsSound self.new }
        ensures told { Finishes result self.old self.new }
    {
        match self.write_held(alloc) {
            Status::Done => self.finish_on(alloc),
            status => status,
        }
    }

    // The same where no frame is held.
    fn finish_on(&mut self, alloc: Global) -> Status
        requires sound { IsSound self.old }
        requires none { self.old.unsent ≡ None }
        ensures sound { IsSound self.new }
        ensures told { Finishes result self.old self.new }
    {
        loop {
            if self.left == 0 {
                return Status::Ended;
            }
            match self.step(alloc, false) {
                Step::Left => {}
                Step::Idle => return Status::Done,
                Step::Lost(status) => return status,
            }
        }
    }

    // Frames leave until there is none, or until there are so many bytes.
    fn pull(&mut self, alloc: Global, flow: bool, enough: usize) -> Status
        requires { IsSound self.old }
        ensures sound { IsSound self.new }
        ensures told { Pulls result enough flow self.old self.new }
    {
        match self.write_held(alloc) {
            Status::Done => self.pull_on(alloc, flow, enough),
            status => status,
        }
    }

    // The same where no frame is held.
    fn pull_on(&mut self, alloc: Global, flow: bool, enough: usize) -> Status
        requires sound { IsSound self.old }
        requires none { self.old.unsent ≡ None }
        ensures sound { IsSound self.new }
        ensures told { Pulls result enough flow self.old self.new }
    {
        while self.leaving.len() < enough {
            if self.left == 0 {
                return Status::Ended;
            }
            match self.step(alloc, flow) {
                Step::Left => {}
                Step::Idle => return Status::Done,
                Step::Lost(status) => return status,
            }
        }
        Status::Done
    }

    // A frame is asked for, and leaves as bytes, if there is one.
    fn step(&mut self, alloc: Global, flow: bool) -> Step
        requires sound { IsSound self.old }
        requires some { 0 < self.old.left }
        requires none { self.old.unsent ≡ None }
        ensures sound { IsSound self.new }
        ensures told { Steps result flow self.old self.new }
    {
        match self.session.next_frame(alloc, flow) {
            Ok(Some(left)) => {
                self.left -= 1;
                match self.write(alloc, left) {
                    Status::Done => Step::Left,
                    status => Step::Lost(status),
                }
            }
            Ok(None) => {
                self.left -= 1;
                Step::Idle
            }
            Err(_) => Step::Lost(Status::NoMemory),
        }
    }

    // The frame that is held leaves as bytes, if there is one.
    fn write_held(&mut self, alloc: Global) -> Status
        requires { IsSound self.old }
        ensures sound { IsSound self.new }
        ensures told { WritesHeld result self.old self.new }
    {
        match self.unsent.take() {
            Some(left) => self.write(alloc, left),
            None => Status::Done,
        }
    }

    // A frame leaves as bytes. Where there is no memory for them it is held; one that has too many is lost, and the client ends.
    fn write(&mut self, alloc: Global, left: Left) -> Status
        requires sound { IsSound self.old }
        requires none { self.old.unsent ≡ None }
        ensures sound { IsSound self.new }
        ensures told { Writes result left self.old self.new }
    {
        match put_left(
            alloc,
            &mut self.leaving,
            &mut self.room,
            &left.frame,
            self.frame_max,
        ) {
            Ok(()) => {
                drop(left);
                Status::Done
            }
            Err(fault) => self.unwritten(left, fault),
        }
    }

    // A frame was not written.
    fn unwritten(&mut self, left: Left, fault: WriteFault) -> Status
        requires sound { IsSound self.old }
        requires none { self.old.unsent ≡ None }
        requires refused { RefusedWithin (Err fault) (FrameFits left.frame) (self.old.frame_max < length (bytes_of left.frame)) }
        ensures sound { IsSound self.new }
        ensures told { Writes result left self.old self.new }
    {
        match fault {
            WriteFault::NoMemory => {
                self.unsent = Some(left);
                Status::NoMemory
            }
            _ => {
                drop(left);
                self.left = 0;
                Status::TooLong
            }
        }
    }
}

// What became of a request for a frame.
enum Step {
    // A frame left.
    Left,
    // None may leave.
    Idle,
    // There was no memory, or a frame was lost.
    Lost(Status),
}

// Adds the bytes of a frame that left.
fn put_left(
    alloc: Global,
    out: &mut Vec<u8>,
    room: &mut Vec<u8>,
    frame: &Frame,
    frame_max: u32,
) -> Result<(), WriteFault>
    ensures ok { OnOk result ((out.new.items ≡ out.old.items ++ bytes_of frame.now) × (length (bytes_of frame.now) ≤ frame_max)) }
    ensures fits { OnOk result (FrameFits frame.now) }
    ensures err { OnErr result (out.new.items ≡ out.old.items) }
    ensures refused { RefusedWithin result (FrameFits frame.now) (frame_max < length (bytes_of frame.now)) }
{
    put_frame_within(alloc, out, room, frame, frame_max as usize)
}
