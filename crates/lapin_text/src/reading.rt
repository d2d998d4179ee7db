//! Whole texts: the text of a frame, and the line of an event. Nothing may follow.

ghost use Rattle.std.specs.Prelude.{◌≡◌, IfOk, IfSome, IfNone};
ghost use Rattle.lapin_types.specs.declared.event.Event.{Event as AnEvent};
ghost use Rattle.lapin_types.specs.Types.{Frame as AFrame};
ghost use Rattle.lapin_tokens.specs.Reading.{GivesValue};
ghost use Rattle.lapin_text.specs.Frames.{frame_text, FrameFits};
ghost use Rattle.lapin_text.specs.Events.{line_of, HasLine};
ghost use Rattle.lapin_text.specs.LineReading.{frame_text_at, line_at};

use crate::events::read_event_tokens;
use crate::frames::read_frame_tokens;
use lapin_tokens::{ReadError, Tokens};
use lapin_types::{Event, Frame, NoMemory};
use std::alloc::Global;

#[tactic(auto, unfolding(crate::specs::LineReading::frame_text_at))]
fn whole_frame(alloc: Global, piece: &[u8]) -> Result<Frame, ReadError>
    ensures { GivesValue (λ f. f) result (frame_text_at piece.now) }
{
    let mut tokens = Tokens::new(piece);
    let frame = read_frame_tokens(alloc, &mut tokens)?;
    match tokens.next() {
        Some(_) => Err(ReadError::Bad),
        None => Ok(frame),
    }
}

#[tactic(auto, unfolding(crate::specs::LineReading::line_at))]
fn whole_line(alloc: Global, line: &[u8]) -> Result<Event, ReadError>
    ensures { GivesValue (λ e. e) result (line_at line.now) }
{
    let mut tokens = Tokens::new(line);
    let event = read_event_tokens(alloc, &mut tokens)?;
    match tokens.next() {
        Some(_) => Err(ReadError::Bad),
        None => Ok(event),
    }
}

/// The frame whose text the bytes are, or `None` where no frame that has a text has this one.
///
/// # Errors
/// `NoMemory`.
pub fn read_frame(alloc: Global, piece: &[u8]) -> Result<Option<Frame>, NoMemory>
    ensures found { IfOk result (λ o. IfSome o (λ f. (piece.now ≡ frame_text f) × FrameFits f)) }
    ensures none { IfOk result (λ o. IfNone o ((f : AFrame) → FrameFits f → piece.now ≡ frame_text f → ⊥)) }
{
    match whole_frame(alloc, piece) {
        Ok(frame) => Ok(Some(frame)),
        Err(ReadError::Bad) => Ok(None),
        Err(ReadError::Memory) => Err(NoMemory),
    }
}

/// The event whose line the bytes are, without a line end, or `None` where no event that has a line has this one.
///
/// # Errors
/// `NoMemory`.
pub fn read_event(alloc: Global, line: &[u8]) -> Result<Option<Event>, NoMemory>
    ensures found { IfOk result (λ o. IfSome o (λ e. (line.now ≡ line_of e) × HasLine e)) }
    ensures none { IfOk result (λ o. IfNone o ((e : AnEvent) → HasLine e → line.now ≡ line_of e → ⊥)) }
{
    match whole_line(alloc, line) {
        Ok(event) => Ok(Some(event)),
        Err(ReadError::Bad) => Ok(None),
        Err(ReadError::Memory) => Err(NoMemory),
    }
}
