//! What the parts read of a call's words, and the words in which they tell an answer. Each part has the rest in its own file.
use lapin_types::{Acker, BasicReturnMessage, Delivery, Error, Payload, ShortString};
use std::alloc::Global;
use std::test::Fail;

/// A channel's number, a class or a reply code.
pub fn channel(word: &str) -> Result<u16, Fail> {
    Ok(word.parse::<u16>().ok().ok_or("no channel")?)
}

/// A number.
pub fn number(word: &str) -> Result<u64, Fail> {
    Ok(word.parse::<u64>().ok().ok_or("no number")?)
}

/// A number, or a dash for none.
pub fn optional(word: &str) -> Result<Option<u64>, Fail> {
    if word == "-" {
        return Ok(None);
    }
    Ok(Some(number(word)?))
}

/// An error: a loss, or a close with a reply code.
pub fn error(word: &str) -> Result<Error, Fail> {
    if word == "lost" {
        return Ok(Error::ConnectionLost);
    }
    Ok(Error::ProtocolError(channel(word)?))
}

/// A short text.
pub fn short(alloc: Global, word: &str) -> Result<ShortString, Fail> {
    Ok(ShortString::new(alloc, word)?)
}

/// A delivery of two bytes with this acker, whose tag it has.
pub fn delivery(alloc: Global, acker: Acker) -> Result<Delivery, Fail> {
    let exchange = short(alloc, "x")?;
    let routing_key = short(alloc, "q")?;
    let payload = Payload::new(alloc, b"hi")?;
    let tag = acker.delivery_tag;
    let mut delivery = Delivery::mock(tag, exchange, routing_key, false, payload);
    delivery.acker = acker;
    Ok(delivery)
}

/// A returned message with this acker, reply code and text.
pub fn returned(
    alloc: Global,
    acker: Acker,
    reply_code: u16,
    text: &str,
) -> Result<BasicReturnMessage, Fail> {
    let reply_text = short(alloc, text)?;
    let delivery = delivery(alloc, acker)?;
    Ok(BasicReturnMessage {
        delivery,
        reply_code,
        reply_text,
    })
}

/// An acker that was not used.
pub fn unused(channel_id: u16, delivery_tag: u64, number: u64) -> Acker {
    Acker {
        channel_id,
        delivery_tag,
        number,
        used: false,
    }
}

/// The bytes of a word, none of a dash.
pub fn payload(alloc: Global, word: &str) -> Result<Payload, Fail> {
    let bytes = if word == "-" { "" } else { word };
    Ok(Payload::new(alloc, bytes.as_bytes())?)
}

/// A text as it is.
pub fn said(alloc: Global, text: &str) -> Result<String, Fail> {
    Ok(String::from_str(alloc, text)?)
}

/// The answer to a line that a part can't read. No script wants it.
pub fn unread(alloc: Global) -> Result<String, Fail> {
    said(alloc, "?")
}

/// `yes` or `no`.
pub fn bit(alloc: Global, is: bool) -> Result<String, Fail> {
    said(alloc, if is { "yes" } else { "no" })
}

/// A number's digits.
pub fn digits(alloc: Global, number: u64) -> Result<String, Fail> {
    Ok(format!(in alloc; "{number}")?)
}

/// A number's digits, or a dash for none.
pub fn dash(alloc: Global, number: Option<u64>) -> Result<String, Fail> {
    match number {
        Some(number) => digits(alloc, number),
        None => said(alloc, "-"),
    }
}

/// An error by its name and its numbers.
pub fn refused(alloc: Global, error: Error) -> Result<String, Fail> {
    match error {
        Error::ProtocolError(code) => Ok(format!(in alloc; "ProtocolError {code}")?),
        Error::UnexpectedFrame { class, method } => {
            Ok(format!(in alloc; "UnexpectedFrame {class} {method}")?)
        }
        Error::PreconditionFailed { tag, current } => {
            Ok(format!(in alloc; "PreconditionFailed {tag} {current}")?)
        }
        error => said(alloc, name_of(error)),
    }
}

fn name_of(error: Error) -> &'static str {
    match error {
        Error::ConnectionLost => "ConnectionLost",
        Error::AlreadyTaken => "AlreadyTaken",
        Error::UnknownTicket => "UnknownTicket",
        _ => "?",
    }
}

/// An error that ends what is awaited.
pub fn failed(alloc: Global, error: Error) -> Result<String, Fail> {
    let error = refused(alloc, error)?;
    Ok(format!(in alloc; "failed {}", error.as_str())?)
}

/// What a call that may be refused answered, `done` where it was not.
pub fn done(alloc: Global, answer: Result<(), Error>) -> Result<String, Fail> {
    match answer {
        Ok(()) => said(alloc, "done"),
        Err(error) => refused(alloc, error),
    }
}
