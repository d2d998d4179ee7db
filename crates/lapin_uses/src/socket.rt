//! The thread of the running client that has the socket: it writes the frames that leave, hands in those that were read, and says that
//! the connection is gone.
//!
//! There is no socket here, and no bytes: a `Socket` is whoever encodes a frame and writes it. With one thread for both ways the loop is:
//! `send_all`, read a frame, `hear` it, and again; at the end of what can be read, or where a frame can't be written, `hang_up`.
ghost use Rattle.std.specs.Prelude.{Some, IfOk, IfErr};
ghost use Rattle.lapin_types.specs.declared.event.Event.TheVariants as event;
ghost use Rattle.lapin_machine.specs.World.{World, told_by};
ghost use Rattle.lapin_locked.specs.Known.{told};
ghost use Rattle.lapin_shared.specs.Grown.{Grew};
ghost use Rattle.lapin_shared.specs.Failed.{IfFailed};
ghost use Rattle.lapin_uses.specs.Sending.{OneSent, AllSent, IsWritten, frame_in};

use lapin_shared::{Caller, Crew, Logged, StepError};
use lapin_types::{Event, Frame, Record};
use std::alloc::Global;
use std::sync::Wait;

/// Where frames are written.
pub trait Socket {
    ghost use Rattle.std.specs.Prelude.{Bool};
    ghost use Rattle.lapin_types.specs.Types.{Frame};

    /// What it is after it was given a frame and took it, or didn't.
    ghost takes: { Self → Frame → Bool → Self → Type 0 };

    /// Writes a frame, and says whether it took it whole. Where it didn't, nothing more can be written.
    fn write(&mut self, frame: &Frame) -> bool
        ensures { takes self.old frame.now result self.new };
}

/// What a request for a frame came to.
#[derive(Clone, Copy, Debug, PartialEq, Eq)]
pub enum Sent {
    /// A frame left, and the socket took it.
    Taken,
    /// A frame left, and the socket didn't take it.
    Broken,
    /// No frame waits.
    Nothing,
}

/// Writes all that waits, frame by frame. True: none waits any more. False: the socket didn't take a frame; it has left all the same,
/// so the connection is to be given up.
///
/// # Errors
/// `NoMemory`: no frame left at the last request, and it may be called again. `Unread { place }`: a frame left, or none waited, and
/// its record has to be fetched and its frame written before the next.
pub fn send_all<L: Crew, S: Socket, R: Wait>(
    rt: &R,
    alloc: Global,
    caller: &mut Caller<L>,
    socket: &mut S,
) -> Result<bool, StepError>
    ensures { AllSent S.takes result caller.old caller.new socket.old socket.new }
{
    for _ in rt.forever() {
        match send_one(rt, alloc, caller, socket) {
            Ok(Sent::Taken) => {}
            Ok(Sent::Broken) => return Ok(false),
            Ok(Sent::Nothing) => return Ok(true),
            Err(error) => return Err(error),
        }
    }
    unreachable!()
}

// Asks for a frame, and writes it. `make` and `newest` are `next_frame` in two calls.
fn send_one<L: Crew, S: Socket, R: Wait>(
    rt: &R,
    alloc: Global,
    caller: &mut Caller<L>,
    socket: &mut S,
) -> Result<Sent, StepError>
    ensures { OneSent S.takes result caller.old caller.new socket.old socket.new }
{
    match caller.make(rt, alloc, Event::Next(true)) {
        Ok(_) => Ok(write(caller.newest(), socket)),
        Err(error) => Err(error),
    }
}

// Writes the frame that an entry tells.
fn write<S: Socket>(step: &Logged, socket: &mut S) -> Sent
    ensures { IsWritten S.takes (frame_in step.now.answer) result socket.old socket.new }
{
    match step.answer() {
        Some(Record::Frame(frame)) => {
            if socket.write(frame) {
                Sent::Taken
            } else {
                Sent::Broken
            }
        }
        _ => Sent::Nothing,
    }
}

/// Hands in a frame that the socket read, in the order in which they came, and answers the step's place. What became of it stands in
/// the log.
///
/// # Errors
/// `NoMemory`: the frame was not taken, and is gone; so give the connection up. `Unread`: it was taken.
pub fn hear<L: Crew, R: Wait>(
    rt: &R,
    alloc: Global,
    caller: &mut Caller<L>,
    frame: Frame,
) -> Result<u64, StepError>
    ensures ok { IfOk result (λ p. (w : World) × Grew caller.old caller.new (told p (event.Receive frame) (Some (told_by w (event.Receive frame))))) }
    ensures failed { IfErr result (λ e. IfFailed caller.old (event.Receive frame) e caller.new) }
{
    caller.make(rt, alloc, Event::Receive(frame))
}

/// Says that the connection is gone, and answers the step's place. Every ticket and confirm that was open has its error then, and
/// those that wait come back.
///
/// # Errors
/// `NoMemory`: the session doesn't know of it yet; call it again, since others may wait for ever. `Unread`: it knows.
pub fn hang_up<L: Crew, R: Wait>(
    rt: &R,
    alloc: Global,
    caller: &mut Caller<L>,
) -> Result<u64, StepError>
    ensures ok { IfOk result (λ p. (w : World) × Grew caller.old caller.new (told p event.Lost (Some (told_by w event.Lost)))) }
    ensures failed { IfErr result (λ e. IfFailed caller.old event.Lost e caller.new) }
{
    caller.make(rt, alloc, Event::Lost)
}
