//! The text of a message: `STR STR BYTES`, its exchange, its routing key and its payload. Nothing may follow.

ghost use Rattle.std.specs.Prelude.{◌≡◌, IfOk, IfSome, IfNone};
ghost use Rattle.lapin_resend.specs.declared.message.Message.{Message as AMessage};
ghost use Rattle.lapin_tokens.specs.Reading.{GivesValue};
ghost use Rattle.lapin_resend_text.specs.Messages.{message_text, MessageFits, message_at};

use lapin_resend::Message;
use lapin_tokens::{ReadError, Tokens, payload, text};
use lapin_types::NoMemory;
use std::alloc::Global;

#[tactic(auto, unfolding(crate::specs::Messages::message_at))]
fn whole_message(alloc: Global, piece: &[u8]) -> Result<Message, ReadError>
    ensures { GivesValue (λ m. m) result (message_at piece.now) }
{
    let mut tokens = Tokens::new(piece);
    let exchange = text(alloc, &mut tokens)?;
    let routing_key = text(alloc, &mut tokens)?;
    let payload = payload(alloc, &mut tokens)?;
    match tokens.next() {
        Some(_) => Err(ReadError::Bad),
        None => Ok(Message {
            exchange,
            routing_key,
            payload,
        }),
    }
}

/// The message whose text the bytes are, or `None` where no message that has a text has this one.
///
/// # Errors
/// `NoMemory`.
pub fn read_message(alloc: Global, piece: &[u8]) -> Result<Option<Message>, NoMemory>
    ensures found { IfOk result (λ o. IfSome o (λ m. (piece.now ≡ message_text m) × MessageFits m)) }
    ensures none { IfOk result (λ o. IfNone o ((m : AMessage) → MessageFits m → piece.now ≡ message_text m → ⊥)) }
{
    match whole_message(alloc, piece) {
        Ok(message) => Ok(Some(message)),
        Err(ReadError::Bad) => Ok(None),
        Err(ReadError::Memory) => Err(NoMemory),
    }
}
