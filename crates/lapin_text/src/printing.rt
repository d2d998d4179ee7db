//! Whole texts to be written: a frame, a record's line, and the text of many records.

ghost use Rattle.std.specs.Prelude.{◌≡◌, ◌++◌, ◌∷◌, IfOk, OnOk, OnErr};
ghost use Rattle.lapin_text.specs.Frames.{frame_text};
ghost use Rattle.lapin_text.specs.Records.{record_line, records_text, records_onto};

use crate::frames::put_frame;
use crate::records::put_record;
use lapin_types::{Frame, NoMemory, Record};
use std::alloc::{AllocError, Global};

// The frame's text behind a space.
#[tactic(auto, using(crate::proofs::Printed::onto_frame))]
fn spaced_frame(alloc: Global, frame: &Frame) -> Result<Vec<u8>, NoMemory>
    ensures { IfOk result (λ v. v.items ≡ 32 ∷ frame_text frame.now) }
{
    let mut spaced = Vec::new(alloc);
    put_frame(alloc, &mut spaced, frame)?;
    Ok(spaced)
}

#[tactic(auto, using(crate::proofs::Printed::line_from_onto))]
fn line_of_record(alloc: Global, record: &Record) -> Result<Vec<u8>, NoMemory>
    ensures { IfOk result (λ v. v.items ≡ record_line «record».now) }
{
    let mut line = Vec::new(alloc);
    put_record(alloc, &mut line, record)?;
    Ok(line)
}

/// Adds the frame's text, without a line end.
///
/// # Errors
/// `NoMemory`; the text is then unchanged.
pub fn write_frame(alloc: Global, text: &mut Vec<u8>, frame: &Frame) -> Result<(), NoMemory>
    ensures ok { OnOk result (text.new.items ≡ text.old.items ++ frame_text frame.now) }
    ensures err { OnErr result (text.new.items ≡ text.old.items) }
{
    match spaced_frame(alloc, frame) {
        Ok(spaced) => match text.extend_from_slice(&spaced[1..]) {
            Ok(()) => Ok(()),
            Err(_) => Err(NoMemory),
        },
        Err(_) => Err(NoMemory),
    }
}

/// Adds the record's line, without a line end.
///
/// # Errors
/// `NoMemory`; the text is then unchanged.
pub fn write_record(alloc: Global, text: &mut Vec<u8>, record: &Record) -> Result<(), NoMemory>
    ensures ok { OnOk result (text.new.items ≡ text.old.items ++ record_line «record».now) }
    ensures err { OnErr result (text.new.items ≡ text.old.items) }
{
    match line_of_record(alloc, record) {
        Ok(line) => match text.extend_from_slice(&line) {
            Ok(()) => Ok(()),
            Err(_) => Err(NoMemory),
        },
        Err(_) => Err(NoMemory),
    }
}

fn put_records(alloc: Global, out: &mut Vec<u8>, records: &[Record]) -> Result<(), AllocError>
    ensures { OnOk result (out.new.items ≡ records_onto out.old.items records.now) }
{
    for record in records {
        put_record(alloc, out, record)?;
        out.push(b'\n')?;
    }
    Ok(())
}

/// The text of records: the line of each in their order, ended by one line feed.
///
/// # Errors
/// `NoMemory`.
#[tactic(auto, using(crate::proofs::Printed::text_from_onto))]
pub fn print_records(alloc: Global, records: &[Record]) -> Result<Vec<u8>, NoMemory>
    ensures { IfOk result (λ text. text.items ≡ records_text records.now) }
{
    let mut text = Vec::new(alloc);
    put_records(alloc, &mut text, records)?;
    Ok(text)
}
