//! What runs a table: each history's steps go through a command of the program, and what it prints is compared, to the byte, with the
//! history's records or reports; or each row has the words, an input, the status and what is written.
use crate::begun::begun;
use lapin_io::SureSink;
use lapin_program::{Status, run_in_memory};
use std::alloc::{AllocError, Global};
use std::process::Abort;

/// The words of a command line, which spaces part.
pub fn words_of(alloc: Global, line: &str) -> Result<Vec<String>, AllocError> {
    let mut words = Vec::new(alloc);
    for word in line.split(' ') {
        words.push(String::from_str(alloc, word)?)?;
    }
    Ok(words)
}

/// Runs the program on the words of this line and on an input.
pub fn program(alloc: Global, line: &str, input: &str) -> Result<(Status, SureSink), AllocError> {
    let words = words_of(alloc, line)?;
    Ok(run_in_memory(alloc, &words, input.as_bytes().to_vec(alloc)?))
}

/// Runs the program, and compares how it ends and what it writes.
pub fn ends_as(
    rt: &(impl Abort + AllocGlobal),
    line: &str,
    input: &str,
    wanted: Status,
    output: &str,
) -> Result<(), AllocError> {
    let (status, sink) = program(rt.alloc(), line, input)?;
    assert_eq!(rt; sink.bytes(), output.as_bytes(), "at {line}, {input}");
    assert_eq!(rt; status, wanted, "at {line}, {input}");
    Ok(())
}

/// Whether a run ended with that status, and wrote that.
pub fn is_as(status: Status, wanted: Status, found: &[u8], output: &[u8]) -> bool {
    status == wanted && found == output
}

/// Runs the rows of a table: the words, an input, the status, and what is written where something is, with ` | ` between them.
pub fn end_as_told(rt: &(impl Abort + AllocGlobal), table: &str) -> Result<(), AllocError> {
    for row in table.lines() {
        if !row.is_empty() {
            ends_as_told(rt, row)?;
        }
    }
    Ok(())
}

fn ends_as_told(rt: &(impl Abort + AllocGlobal), row: &str) -> Result<(), AllocError> {
    let mut fields = row.split(" | ");
    let line = fields.next().unwrap_or("");
    let input = unescaped(rt.alloc(), fields.next().unwrap_or(""))?;
    let wanted = status_named(fields.next().unwrap_or(""));
    let output = unescaped(rt.alloc(), fields.next().unwrap_or(""))?;
    match wanted {
        Some(wanted) => ends_as(rt, line, input.as_str(), wanted, output.as_str()),
        None => {
            assert!(rt; false, "{row} has no status");
            Ok(())
        }
    }
}

fn status_named(name: &str) -> Option<Status> {
    match name {
        "fine" => Some(Status::Fine),
        "bad words" => Some(Status::BadWords),
        "bad line" => Some(Status::BadLine),
        _ => None,
    }
}

/// The text of a field, in which `\n` stands for a line feed and `\r` for a carriage return.
pub fn unescaped(alloc: Global, field: &str) -> Result<String, AllocError> {
    let mut text = String::new(alloc);
    let mut pieces = field.split('\\');
    text.push_str(pieces.next().unwrap_or(""))?;
    for piece in pieces {
        let (letter, rest) = letter_of(piece);
        text.push_str(letter)?;
        text.push_str(rest)?;
    }
    Ok(text)
}

// What a letter behind a backslash stands for, and what follows it.
fn letter_of(piece: &str) -> (&'static str, &str) {
    if let Some(rest) = piece.strip_prefix("n") {
        ("\n", rest)
    } else if let Some(rest) = piece.strip_prefix("r") {
        ("\r", rest)
    } else {
        ("?", piece)
    }
}

/// Runs the histories of a table, which stand a blank line apart, through the command of this line.
pub fn shows_all(
    rt: &(impl Abort + AllocGlobal),
    command: &str,
    table: &str,
) -> Result<(), AllocError> {
    for history in table.split("\n\n") {
        shows(rt, command, history)?;
    }
    Ok(())
}

/// Runs a history. Its lines are `= NAME` for the steps of that beginning, a step and what is told of it with an arrow between
/// them, or say what it shows behind a `#`. Where the last record names a bad line, that is how the run has to end.
pub fn shows(
    rt: &(impl Abort + AllocGlobal),
    command: &str,
    history: &str,
) -> Result<(), AllocError> {
    let alloc = rt.alloc();
    let mut input = String::from_str(alloc, "frame_max 4096\n")?;
    let mut output = String::new(alloc);
    for line in history.split('\n') {
        put_line(rt, &mut input, &mut output, line)?;
    }
    let wanted = status_of(output.as_str());
    ends_as(rt, command, input.as_str(), wanted, output.as_str())
}

// How a run ends that prints this.
fn status_of(output: &str) -> Status {
    match output.contains("badline ") {
        true => Status::BadLine,
        false => Status::Fine,
    }
}

// Adds the step and the record of a line, or the steps of a beginning.
fn put_line(
    rt: &(impl Abort + AllocGlobal),
    input: &mut String,
    output: &mut String,
    line: &str,
) -> Result<(), AllocError> {
    let Some(name) = line.strip_prefix("= ") else {
        return put_step(rt, input, output, line);
    };
    let steps = begun(name);
    assert!(rt; steps.is_some(), "no beginning has the name {name}");
    for step in steps.unwrap_or("").split('\n') {
        put_step(rt, input, output, step)?;
    }
    Ok(())
}

// Adds the step and the record of a line.
fn put_step(
    rt: &(impl Abort + AllocGlobal),
    input: &mut String,
    output: &mut String,
    line: &str,
) -> Result<(), AllocError> {
    match line.split_once(" -> ") {
        Some((step, record)) => {
            put(input, step)?;
            put(output, record)
        }
        None => {
            assert!(rt;
                line.is_empty() || line.starts_with('#'),
                "{line} has no record"
            );
            Ok(())
        }
    }
}

/// A line more.
pub fn put(text: &mut String, line: &str) -> Result<(), AllocError> {
    text.push_str(line)?;
    text.push_str("\n")
}
