//! Calls of an acker as tokens: `ack MULTIPLE`, `nack MULTIPLE REQUEUE` and `reject REQUEUE`.
//!
//! Which acker is called stands before them, in `events`; what its calls do stands in the session.

ghost use Rattle.std.specs.Prelude.{◌≡◌};
ghost use Rattle.lapin_tokens.specs.Reading.{Gives};
ghost use Rattle.lapin_text.specs.LineReading.{acker_call_at};

use crate::words::{Word, word_named};
use lapin_tokens::{ReadError, Tokens, flag};
use lapin_types::{AckerCall, BasicAckOptions, BasicNackOptions, BasicRejectOptions};

/// The call of an acker whose tokens come next.
#[tactic(auto, unfolding(crate::specs::LineReading::acker_call_at))]
pub fn read_acker_call(tokens: &mut Tokens) -> Result<AckerCall, ReadError>
    ensures { Gives result tokens.new (acker_call_at tokens.old) }
{
    match tokens.next() {
        None => Err(ReadError::Bad),
        Some(piece) => match word_named(piece) {
            Some(Word::Ack) => {
                let multiple = flag(tokens)?;
                Ok(AckerCall::Ack(BasicAckOptions { multiple }))
            }
            Some(Word::Nack) => {
                let multiple = flag(tokens)?;
                let requeue = flag(tokens)?;
                Ok(AckerCall::Nack(BasicNackOptions { multiple, requeue }))
            }
            Some(Word::Reject) => {
                let requeue = flag(tokens)?;
                Ok(AckerCall::Reject(BasicRejectOptions { requeue }))
            }
            _ => Err(ReadError::Bad),
        },
    }
}
