//! The loop of a caller with one session and one connection: all that waits is sent, then a frame that came is heard, and again, until
//! nothing waits and nothing came.
//!
//! So two rules are kept by themselves: a publish that has begun leaves whole before a frame of the broker is handed in, and the frame
//! that is given back is the one that was handed out last.
ghost use Rattle.std.specs.Prelude.{IfOk, OnErr};
ghost use Rattle.lapin_loop.specs.Driving.{IsTurn, IsMade, IsCut, IsDriven, IsCutShort, IsSent, IsHeard, IsUnheard};

use crate::given_back::give_back;
use lapin_session::Session;
use lapin_types::{Error, Frame, Left, NoMemory};
use std::alloc::Global;

/// The two ways of a connection, as frames.
pub trait Wire {
    ghost use Rattle.std.specs.Prelude.{Bool, Option};
    ghost use Rattle.lapin_types.specs.Types.{Frame};

    /// What it is after it was given a frame and took it, or didn't.
    ghost takes: { Self → Frame → Bool → Self → Type 0 };

    /// What it is after it was asked for a frame, and gave one or had none.
    ghost gives: { Self → Option Frame → Self → Type 0 };

    /// Writes a frame, and says whether it took it whole.
    fn send(&mut self, frame: &Frame) -> bool
        ensures { takes self.old frame.now result self.new };

    /// The next frame that the broker sent; None where none is there now.
    fn hear(&mut self) -> Option<Frame>
        ensures { gives self.old result self.new };
}

/// What a turn came to.
#[derive(Drop)]
pub enum Turn {
    /// A frame left, and the wire took it.
    Sent,
    /// A frame came, and the session heard it.
    Heard,
    /// Nothing waited to leave, and none came.
    Quiet,
    /// A frame left, and the wire didn't take it. It was given back where that may be, and then the next turn sends it once more.
    Broken,
    /// A frame came that the session refused. The close that it asks for waits to leave: the next turns send it.
    Refused(Error),
}

/// How a loop of turns ended.
#[derive(Drop)]
pub enum Rest {
    /// Nothing waits to leave, and nothing came. What is held back by a pause or a limit waits on.
    Quiet,
    /// The wire didn't take a frame.
    Broken,
    /// The session refused a frame of the broker; call it again, so that the close leaves.
    Refused(Error),
}

/// Sends the next frame that waits; where none does, asks the wire for a frame and hands it in.
///
/// # Errors
/// `NoMemory`: either no frame was handed out, and nothing changed; or a frame that came was not taken, and is gone, so give the
/// connection up.
pub fn make_turn<W: Wire>(
    alloc: Global,
    session: &mut Session,
    wire: &mut W,
) -> Result<Turn, NoMemory>
    ensures ok { IfOk result (λ turn. IsTurn W.takes W.gives turn session.old session.new wire.old wire.new) }
    ensures err { OnErr result (IsCut W.gives session.old session.new wire.old wire.new) }
{
    match session.next_frame(alloc, true) {
        Ok(Some(left)) => Ok(send(session, wire, left)),
        Ok(None) => hear(alloc, session, wire),
        Err(_) => Err(NoMemory),
    }
}

// Gives the wire a frame that left. Where it doesn't take it, the frame is given back.
fn send<W: Wire>(session: &mut Session, wire: &mut W, left: Left) -> Turn
    ensures { IsSent W.takes left result session.old session.new wire.old wire.new }
{
    if wire.send(&left.frame) {
        drop(left);
        return Turn::Sent;
    }
    let _ = give_back(session, left);
    Turn::Broken
}

// Asks the wire for a frame, and hands it in.
fn hear<W: Wire>(alloc: Global, session: &mut Session, wire: &mut W) -> Result<Turn, NoMemory>
    ensures ok { IfOk result (λ turn. IsHeard W.gives turn session.old session.new wire.old wire.new) }
    ensures err { OnErr result (IsUnheard W.gives session.old session.new wire.old wire.new) }
{
    match wire.hear() {
        None => Ok(Turn::Quiet),
        Some(frame) => match session.receive(alloc, frame) {
            Ok(_) => Ok(Turn::Heard),
            Err(Error::NoMemory) => Err(NoMemory),
            Err(error) => Ok(Turn::Refused(error)),
        },
    }
}

/// Makes turns until nothing waits and nothing came, or one ends otherwise; but no more than `turns`, so that a busy broker can't keep
/// the caller for ever. None: as many were made, and more may wait or come; call it again.
///
/// # Errors
/// Those of `make_turn`. What was done before stands.
pub fn drive<W: Wire>(
    alloc: Global,
    session: &mut Session,
    wire: &mut W,
    turns: u64,
) -> Result<Option<Rest>, NoMemory>
    ensures ok { IfOk result (λ rest. IsDriven W.takes W.gives turns rest session.old session.new wire.old wire.new) }
    ensures err { OnErr result (IsCutShort W.takes W.gives turns session.old session.new wire.old wire.new) }
{
    for made in 0..turns {
        match turn_or_rest(alloc, session, wire) {
            Ok(None) => {}
            Ok(Some(rest)) => return Ok(Some(rest)),
            Err(NoMemory) => return Err(NoMemory),
        }
    }
    Ok(None)
}

// Makes a turn, and says how the loop ends, if it ends with it.
fn turn_or_rest<W: Wire>(
    alloc: Global,
    session: &mut Session,
    wire: &mut W,
) -> Result<Option<Rest>, NoMemory>
    ensures ok { IfOk result (λ rest. IsMade W.takes W.gives rest session.old session.new wire.old wire.new) }
    ensures err { OnErr result (IsCut W.gives session.old session.new wire.old wire.new) }
{
    match make_turn(alloc, session, wire) {
        Ok(Turn::Sent) => Ok(None),
        Ok(Turn::Heard) => Ok(None),
        Ok(Turn::Quiet) => Ok(Some(Rest::Quiet)),
        Ok(Turn::Broken) => Ok(Some(Rest::Broken)),
        Ok(Turn::Refused(error)) => Ok(Some(Rest::Refused(error))),
        Err(NoMemory) => Err(NoMemory),
    }
}
