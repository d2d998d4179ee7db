//! What runs a table: each transcript goes through the command `check`, and what it prints is compared, to the byte, with the lines
//! behind the arrows.
use crate::driver::{program, put};
use lapin_program::Status;
use std::alloc::AllocError;
use std::process::Abort;

/// Checks the transcripts of a table, which stand a blank line apart.
pub fn shows_all(rt: &(impl Abort + AllocGlobal), table: &str) -> Result<(), AllocError> {
    for transcript in table.split("\n\n") {
        shows(rt, transcript)?;
    }
    Ok(())
}

// Checks a transcript. A line is a frame that was seen, or what is printed behind an arrow, or says what it shows behind a `#`.
fn shows(rt: &(impl Abort + AllocGlobal), transcript: &str) -> Result<(), AllocError> {
    let alloc = rt.alloc();
    let mut input = String::from_str(alloc, "frame_max 4096\n")?;
    let mut output = String::new(alloc);
    for line in transcript.split('\n') {
        put_line(&mut input, &mut output, line)?;
    }
    let (status, sink) = program(alloc, "check", input.as_str())?;
    assert_eq!(rt; sink.bytes(), output.as_bytes(), "at {transcript}");
    assert_eq!(rt; status, Status::Fine, "at {transcript}");
    Ok(())
}

// Adds a line to the input or to the output.
fn put_line(input: &mut String, output: &mut String, line: &str) -> Result<(), AllocError> {
    if line.starts_with('#') {
        return Ok(());
    }
    match line.strip_prefix("-> ") {
        Some(printed) => put(output, printed),
        None => put(input, line),
    }
}
