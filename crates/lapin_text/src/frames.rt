//! Frames as text: `method C NAME FIELDS`, `header C CLASS SIZE PROPS` and `body C BYTES`.
//!
//! Here stand the tokens of frames. Whole texts of frames are read in `reading` and written in `printing`.

ghost use Rattle.std.specs.Prelude.{◌≡◌, ◌∷◌, [], IfSome, OnOk};
ghost use Rattle.lapin_types.specs.Types.frame;
ghost use Rattle.lapin_types.specs.Types.method;
ghost use Rattle.lapin_types.specs.Types.basic;
ghost use Rattle.lapin_tokens.specs.Fields.{token, short_number, wide_number};
ghost use Rattle.lapin_tokens.specs.Fields.Field.{props};
ghost use Rattle.lapin_tokens.specs.Reading.{Gives};
ghost use Rattle.lapin_tokens.specs.TokenText.{onto};
ghost use Rattle.lapin_text.specs.Frames.{frame_tokens};
ghost use Rattle.lapin_text.specs.declared.words.Word.TheVariants as word;
ghost use Rattle.lapin_text.specs.LineReading.{frame_at, frame_of_word};

use crate::words::{Word, first_frame_word};
use lapin_method_text::{put_method, read_method};
use lapin_tokens::{
    ReadError, Tokens, payload, properties, put_bytes, put_count, put_properties, put_word, u16_at,
    u64_at,
};
use lapin_types::{ContentHeader, Frame};
use std::alloc::{AllocError, Global};

/// What a `basic.ack` says, and on which channel.
#[derive(Clone, Copy, Debug, PartialEq, Eq)]
pub struct Acked {
    /// The channel.
    pub channel: u16,
    /// The delivery tag; 0 stands for all where `multiple` is true.
    pub delivery_tag: u64,
    /// Whether it is of all tags up to this one.
    pub multiple: bool,
}

/// What the next tokens acknowledge, where they are those of a `basic.ack`: what stands behind the word `method`. They are then read.
/// `None` where they are another frame's or its numbers are longer than 19 digits: the tokens may then be read in part.
#[inline(always)]
pub fn read_acked(tokens: &mut Tokens) -> Option<Acked>
    ensures { IfSome result (λ a. frame_of_word word.Method tokens.old ≡ Some (frame.Method a.channel (method.Basic (basic.Ack a.delivery_tag a.multiple)), tokens.new)) }
{
    let channel = tokens.number()?;
    if channel > 0xffff || !tokens.word(b"basic.ack") {
        return None;
    }
    let delivery_tag = tokens.number()?;
    let multiple = tokens.flag()?;
    Some(Acked {
        channel: channel as u16,
        delivery_tag,
        multiple,
    })
}

/// The method frame whose channel and method are the next tokens: what stands behind the word `method`.
///
/// # Errors
/// `Bad` where the tokens are no such frame's, or `Memory`.
#[inline(never)]
pub fn read_method_frame(alloc: Global, tokens: &mut Tokens) -> Result<Frame, ReadError>
    ensures { Gives result tokens.new (frame_of_word word.Method tokens.old) }
{
    let channel = u16_at(tokens)?;
    match read_method(alloc, tokens) {
        Ok(method) => Ok(Frame::Method(channel, method)),
        Err(error) => Err(error),
    }
}

/// The content header whose channel and fields are the next tokens: what stands behind the word `header`.
///
/// # Errors
/// `Bad` where the tokens are no such frame's, or `Memory`.
#[inline(never)]
pub fn read_header_frame(alloc: Global, tokens: &mut Tokens) -> Result<Frame, ReadError>
    ensures { Gives result tokens.new (frame_of_word word.Header tokens.old) }
{
    let channel = u16_at(tokens)?;
    let class_id = u16_at(tokens)?;
    let body_size = u64_at(tokens)?;
    let properties = properties(alloc, tokens)?;
    let header = ContentHeader {
        class_id,
        body_size,
        properties,
    };
    Ok(Frame::Header(channel, header))
}

/// The body frame whose channel and bytes are the next tokens: what stands behind the word `body`.
///
/// # Errors
/// `Bad` where the tokens are no such frame's, or `Memory`.
#[inline(never)]
pub fn read_body_frame(alloc: Global, tokens: &mut Tokens) -> Result<Frame, ReadError>
    ensures { Gives result tokens.new (frame_of_word word.Body tokens.old) }
{
    let channel = u16_at(tokens)?;
    let payload = payload(alloc, tokens)?;
    Ok(Frame::Body(channel, payload))
}

/// The frame whose tokens come next.
pub fn read_frame_tokens(alloc: Global, tokens: &mut Tokens) -> Result<Frame, ReadError>
    ensures { Gives result tokens.new (frame_at tokens.old) }
{
    match first_frame_word(tokens) {
        Some(Word::Method) => read_method_frame(alloc, tokens),
        Some(Word::Header) => read_header_frame(alloc, tokens),
        Some(Word::Body) => read_body_frame(alloc, tokens),
        _ => Err(ReadError::Bad),
    }
}

fn put_content(alloc: Global, out: &mut Vec<u8>, header: &ContentHeader) -> Result<(), AllocError>
    ensures { OnOk result (out.new.items ≡ onto out.old.items (token short_number header.now.class_id ∷ token wide_number header.now.body_size ∷ token props header.now.properties ∷ [])) }
{
    put_count(out, u64::from(header.class_id))?;
    put_count(out, header.body_size)?;
    put_properties(alloc, out, &header.properties)
}

/// Adds the frame's tokens, each behind a space. Where memory runs out, the text may end within the frame.
pub fn put_frame(alloc: Global, out: &mut Vec<u8>, frame: &Frame) -> Result<(), AllocError>
    ensures { OnOk result (out.new.items ≡ onto out.old.items (frame_tokens frame.now)) }
{
    match frame {
        Frame::Method(channel, method) => {
            put_word(out, b"method")?;
            put_count(out, u64::from(*channel))?;
            put_method(alloc, out, method)
        }
        Frame::Header(channel, header) => {
            put_word(out, b"header")?;
            put_count(out, u64::from(*channel))?;
            put_content(alloc, out, header)
        }
        Frame::Body(channel, payload) => {
            put_word(out, b"body")?;
            put_count(out, u64::from(*channel))?;
            put_bytes(alloc, out, payload.as_bytes())
        }
    }
}
