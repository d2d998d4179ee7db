//! What runs a table of pieces. A line is the kind of a piece, the piece, and behind an arrow what is read of it: a number or a
//! text as it is, bytes as a list, `kept` where it is read, and written and shown again as it was, `read`, or `none`.
use crate::pieces::PIECES;
use lapin_method_text::{put_method, read_method};
use lapin_scalars::{
    flag_of, i8_of, i16_of, i32_of, i64_of, read_bytes, read_num, read_short, u8_of, u16_of,
    u32_of, u64_of,
};
use lapin_text::{read_event, read_frame, write_frame};
use lapin_tokens::{Token, Tokens, properties_of, put_tokens, table_of};
use lapin_types::{BasicProperties, FieldTable, Frame, Method};
use std::alloc::Global;
use std::fmt;
use std::test::Fail;

#[test]
fn pieces_are_read_as_the_format_says(rt: HostRuntime) -> Result<(), Fail> {
    for line in PIECES.split('\n') {
        if let Some((piece, wanted)) = line.split_once(" -> ") {
            let (kind, piece) = piece.split_once(' ').ok_or("a line has a kind")?;
            let read = read(rt.alloc(), kind, piece.as_bytes())?;
            assert_eq!(rt; read.as_str(), wanted, "at {line}");
        }
    }
    Ok(())
}

fn read(alloc: Global, kind: &str, piece: &[u8]) -> Result<String, Fail> {
    match kind {
        "num" => unsigned(alloc, read_num(piece)),
        "u8" => unsigned(alloc, u8_of(piece).ok().map(u64::from)),
        "u16" => unsigned(alloc, u16_of(piece).ok().map(u64::from)),
        "u32" => unsigned(alloc, u32_of(piece).ok().map(u64::from)),
        "u64" => unsigned(alloc, u64_of(piece).ok()),
        "i8" => signed(alloc, i8_of(piece).ok().map(i64::from)),
        "i16" => signed(alloc, i16_of(piece).ok().map(i64::from)),
        "i32" => signed(alloc, i32_of(piece).ok().map(i64::from)),
        "i64" => signed(alloc, i64_of(piece).ok()),
        "flag" => unsigned(alloc, flag_of(piece).ok().map(u64::from)),
        "short" => short(alloc, piece),
        "bytes" => bytes(alloc, piece),
        _ => read_again(alloc, kind, piece),
    }
}

fn read_again(alloc: Global, kind: &str, piece: &[u8]) -> Result<String, Fail> {
    match kind {
        "table" => kept(alloc, piece, table(alloc, piece)?),
        "properties" => kept(alloc, piece, properties(alloc, piece)?),
        "method" => kept(alloc, piece, method(alloc, piece)?),
        "frame" => kept(alloc, piece, frame(alloc, piece)?),
        "event" => event(alloc, piece),
        _ => Err(Fail::from("no kind of piece has this name")),
    }
}

fn unsigned(alloc: Global, number: Option<u64>) -> Result<String, Fail> {
    match number {
        Some(number) => Ok(format!(in alloc; "{number}")?),
        None => Ok(String::from_str(alloc, "none")?),
    }
}

fn signed(alloc: Global, number: Option<i64>) -> Result<String, Fail> {
    match number {
        Some(number) => Ok(format!(in alloc; "{number}")?),
        None => Ok(String::from_str(alloc, "none")?),
    }
}

fn short(alloc: Global, piece: &[u8]) -> Result<String, Fail> {
    match read_short(alloc, piece)? {
        Some(text) => Ok(String::from_str(alloc, text.as_str())?),
        None => Ok(String::from_str(alloc, "none")?),
    }
}

fn bytes(alloc: Global, piece: &[u8]) -> Result<String, Fail> {
    match read_bytes(alloc, piece)? {
        Some(payload) => Ok(format!(in alloc; "{:?}", payload.as_bytes())?),
        None => Ok(String::from_str(alloc, "none")?),
    }
}

fn event(alloc: Global, piece: &[u8]) -> Result<String, Fail> {
    let word = match read_event(alloc, piece)? {
        Some(_) => "read",
        None => "none",
    };
    Ok(String::from_str(alloc, word)?)
}

// Whether what was written of a piece is the piece itself, behind a space or not.
fn kept(alloc: Global, piece: &[u8], written: Option<Vec<u8>>) -> Result<String, Fail> {
    let word = match &written {
        Some(text) => word_of(text.as_slice(), piece),
        None => "none",
    };
    Ok(String::from_str(alloc, word)?)
}

fn word_of(text: &[u8], piece: &[u8]) -> &'static str {
    let behind = text.get(1..).unwrap_or(text);
    if text == piece || behind == piece {
        "kept"
    } else {
        "changed"
    }
}

// Whether both `{}` and `{:?}` show a value as the piece that it was read of.
fn shown<T: fmt::Display + fmt::Debug>(alloc: Global, value: &T, piece: &[u8]) -> Result<(), Fail> {
    if is_plain(alloc, value, piece)? && is_debug(alloc, value, piece)? {
        Ok(())
    } else {
        Err(Fail::from("a value is shown otherwise than it is read"))
    }
}

fn is_plain<T: fmt::Display>(alloc: Global, value: &T, piece: &[u8]) -> Result<bool, Fail> {
    let text = format!(in alloc; "{value}")?;
    Ok(text.as_bytes() == piece)
}

fn is_debug<T: fmt::Debug>(alloc: Global, value: &T, piece: &[u8]) -> Result<bool, Fail> {
    let text = format!(in alloc; "{value:?}")?;
    Ok(text.as_bytes() == piece)
}

fn table(alloc: Global, piece: &[u8]) -> Result<Option<Vec<u8>>, Fail> {
    match table_of(alloc, piece) {
        Ok(table) => Ok(Some(table_text(alloc, &table, piece)?)),
        Err(_) => Ok(None),
    }
}

fn table_text(alloc: Global, table: &FieldTable, piece: &[u8]) -> Result<Vec<u8>, Fail> {
    let mut text = Vec::new(alloc);
    put_tokens(alloc, &mut text, &[Token::Table(table)])?;
    shown(alloc, table, piece)?;
    Ok(text)
}

fn properties(alloc: Global, piece: &[u8]) -> Result<Option<Vec<u8>>, Fail> {
    match properties_of(alloc, piece) {
        Ok(properties) => Ok(Some(properties_text(alloc, &properties, piece)?)),
        Err(_) => Ok(None),
    }
}

fn properties_text(
    alloc: Global,
    properties: &BasicProperties,
    piece: &[u8],
) -> Result<Vec<u8>, Fail> {
    let mut text = Vec::new(alloc);
    put_tokens(alloc, &mut text, &[Token::Properties(properties)])?;
    shown(alloc, properties, piece)?;
    Ok(text)
}

fn method(alloc: Global, piece: &[u8]) -> Result<Option<Vec<u8>>, Fail> {
    match read_method(alloc, &mut Tokens::new(piece)) {
        Ok(method) => Ok(Some(method_text(alloc, &method, piece)?)),
        Err(_) => Ok(None),
    }
}

fn method_text(alloc: Global, method: &Method, piece: &[u8]) -> Result<Vec<u8>, Fail> {
    let mut text = Vec::new(alloc);
    put_method(alloc, &mut text, method)?;
    shown(alloc, method, piece)?;
    Ok(text)
}

fn frame(alloc: Global, piece: &[u8]) -> Result<Option<Vec<u8>>, Fail> {
    match read_frame(alloc, piece)? {
        Some(frame) => Ok(Some(frame_text(alloc, &frame, piece)?)),
        None => Ok(None),
    }
}

fn frame_text(alloc: Global, frame: &Frame, piece: &[u8]) -> Result<Vec<u8>, Fail> {
    let mut text = Vec::new(alloc);
    write_frame(alloc, &mut text, frame)?;
    shown(alloc, frame, piece)?;
    Ok(text)
}
