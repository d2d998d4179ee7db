//! What runs the rows. A row is bytes as the text of a session has them, and behind `==` the frame that they are, behind `->` what is
//! read of them: a frame, with the number of its bytes where more follow; `heartbeat`, `part` with how many bytes are wanted, or
//! `malformed`. The bytes of a frame behind `==` are also what is written of it, and those of one behind `<-`, that is given by values.
use crate::frames::rows::ROWS;
use lapin_frames::{Read, ReadFault, put_frame, wanted};
use lapin_text::{read_bytes, read_frame, write_frame};
use lapin_types::Frame;
use std::alloc::Global;
use std::test::Fail;

#[test]
fn frames_are_read_and_written_as_the_rows_say(rt: HostRuntime) -> Result<(), Fail> {
    for row in ROWS.split('\n') {
        if let Some((bytes, told)) = row.split_once(" -> ") {
            assert!(rt; is_read(rt.alloc(), bytes, told)?, "at {row}");
        }
        if let Some((bytes, frame)) = row.split_once(" == ") {
            assert!(rt; is_read(rt.alloc(), bytes, frame)?, "at {row}");
            assert!(rt; is_written(rt.alloc(), bytes, frame)?, "at {row}");
        }
        if let Some((bytes, frame)) = row.split_once(" <- ") {
            assert!(rt; is_written(rt.alloc(), bytes, frame)?, "at {row}");
        }
    }
    Ok(())
}

// Whether of bytes that is read.
fn is_read(alloc: Global, bytes: &str, told: &str) -> Result<bool, Fail> {
    let bytes = read_bytes(alloc, bytes.as_bytes())?.ok_or("bytes")?;
    let read = read(alloc, bytes.as_bytes())?;
    Ok(read.as_str() == told)
}

// Whether the bytes are what is written of that frame.
fn is_written(alloc: Global, bytes: &str, frame: &str) -> Result<bool, Fail> {
    let bytes = read_bytes(alloc, bytes.as_bytes())?.ok_or("bytes")?;
    let written = written(alloc, frame)?;
    Ok(written.as_slice() == bytes.as_bytes())
}

/// What is read at the head of the bytes, as a text.
fn read(alloc: Global, bytes: &[u8]) -> Result<String, Fail> {
    match lapin_frames::read_frame(alloc, bytes) {
        Ok(Read::Frame(frame, used)) => {
            let text = text_of(alloc, &frame);
            drop(frame);
            with_used(alloc, text?, used, bytes.len())
        }
        Ok(Read::Heartbeat(used)) => {
            with_used(
                alloc,
                String::from_str(alloc, "heartbeat")?,
                used,
                bytes.len(),
            )
        }
        Ok(Read::Part) => {
            let more = wanted(bytes);
            Ok(format!(in alloc; "part {more}")?)
        }
        Err(ReadFault::Malformed) => Ok(String::from_str(alloc, "malformed")?),
        Err(ReadFault::NoMemory) => Err(Fail::from("memory")),
    }
}

fn with_used(alloc: Global, text: String, used: usize, all: usize) -> Result<String, Fail> {
    if used == all {
        Ok(text)
    } else {
        Ok(format!(in alloc; "{used} {text}")?)
    }
}

fn text_of(alloc: Global, frame: &Frame) -> Result<String, Fail> {
    let mut text = Vec::new(alloc);
    write_frame(alloc, &mut text, frame)?;
    let text = std::str::from_utf8(text.as_slice()).map_err(|_| Fail::from("text"))?;
    Ok(String::from_str(alloc, text.trim())?)
}

// The bytes of the frame with that text.
fn written(alloc: Global, text: &str) -> Result<Vec<u8>, Fail> {
    let Some(frame) = read_frame(alloc, text.as_bytes())? else {
        return Err(Fail::from("no frame has this text"));
    };
    let mut out = Vec::new(alloc);
    let put = put_frame(alloc, &mut out, &frame);
    drop(frame);
    put.map_err(|_| Fail::from("it was not written"))?;
    Ok(out)
}
