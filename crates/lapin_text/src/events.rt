//! Events as tokens: `call C NAME ARGS`, `next BOOL`, `recv FRAME`, `ticket N`, `confirm N`, `consumer N`, `wait C`,
//! `aside-ticket N`, `aside-confirm N`, `acker N` and the acker's call, `delegate N`, `drop N`, `job`, `state C` and `lost`.
//!
//! An event is an arm here and a row in each table of the definitions. Whole lines are read in `reading`.

ghost use Rattle.std.specs.Prelude.{◌≡◌};
ghost use Rattle.lapin_tokens.specs.Reading.{Gives};
ghost use Rattle.lapin_text.specs.LineReading.{event_at};

use crate::ackers::read_acker_call;
use crate::calls::read_call;
use crate::frames::read_frame_tokens;
use crate::words::{Word, first_word};
use lapin_tokens::{ReadError, Tokens, flag, u16_at, u64_at};
use lapin_types::Event;
use std::alloc::Global;

/// The event whose tokens come next.
pub fn read_event_tokens(alloc: Global, tokens: &mut Tokens) -> Result<Event, ReadError>
    ensures { Gives result tokens.new (event_at tokens.old) }
{
    match first_word(tokens) {
        Some(Word::Call) => {
            let channel = u16_at(tokens)?;
            match read_call(alloc, tokens) {
                Ok(call) => Ok(Event::Call(channel, call)),
                Err(error) => Err(error),
            }
        }
        Some(Word::Next) => Ok(Event::Next(flag(tokens)?)),
        Some(Word::Recv) => match read_frame_tokens(alloc, tokens) {
            Ok(frame) => Ok(Event::Receive(frame)),
            Err(error) => Err(error),
        },
        Some(Word::Ticket) => Ok(Event::PollTicket(u64_at(tokens)?)),
        Some(Word::Confirm) => Ok(Event::PollConfirm(u64_at(tokens)?)),
        Some(Word::Consumer) => Ok(Event::PollConsumer(u64_at(tokens)?)),
        Some(Word::Wait) => Ok(Event::PollWait(u16_at(tokens)?)),
        Some(Word::AsideTicket) => Ok(Event::AsideTicket(u64_at(tokens)?)),
        Some(Word::AsideConfirm) => Ok(Event::AsideConfirm(u64_at(tokens)?)),
        Some(Word::Acker) => {
            let number = u64_at(tokens)?;
            match read_acker_call(tokens) {
                Ok(call) => Ok(Event::Acker(number, call)),
                Err(error) => Err(error),
            }
        }
        Some(Word::Delegate) => Ok(Event::Delegate(u64_at(tokens)?)),
        Some(Word::Drop) => Ok(Event::DropConsumer(u64_at(tokens)?)),
        Some(Word::Job) => Ok(Event::NextJob),
        Some(Word::State) => Ok(Event::State(u16_at(tokens)?)),
        Some(Word::Lost) => Ok(Event::Lost),
        _ => Err(ReadError::Bad),
    }
}
