//! Why a run of the program ended, in words.
ghost use Rattle.std.specs.Prelude.{◌≡◌, [], IfOk};
ghost use Rattle.lapin_inputs.specs.declared.status.Status.TheVariants as status_;

use crate::lines::{Bad, Kind, first_bad};
use crate::telling::{SHOWN, put, put_quoted, put_stumble};
use lapin_inputs::Status;
use lapin_scalars::put_number;
use lapin_types::NoMemory;
use std::alloc::{AllocError, Global};

/// Why a run of the program with these words ended with this status, as text for standard error; empty where all went well. `input`
/// is what it read of its input.
///
/// # Errors
/// `NoMemory`.
pub fn why(
    alloc: Global,
    words: &[String],
    status: Status,
    input: &[u8],
) -> Result<Vec<u8>, NoMemory>
    ensures fine { status ≡ status_.Fine → IfOk result (λ text. text.items ≡ []) }
{
    match status {
        Status::Fine => Ok(Vec::new(alloc)),
        status => told(alloc, words, status, input),
    }
}

fn told(
    alloc: Global,
    words: &[String],
    status: Status,
    input: &[u8],
) -> Result<Vec<u8>, NoMemory> {
    let mut text = Vec::new(alloc);
    put(&mut text, "lapin: ")?;
    match status {
        Status::BadWords => put_bad_words(&mut text, words)?,
        Status::BadLine => put_bad_line(alloc, &mut text, words, input)?,
        status => put(&mut text, reason(status))?,
    }
    put(&mut text, "\n")?;
    Ok(text)
}

// What a status means to whoever called the program.
fn reason(status: Status) -> &'static str {
    match status {
        Status::Fine => "all is well",
        Status::BadWords => "the words behind the program's name are no command",
        Status::BadLine => {
            "a line is not in the format of docs/FORMAT.md; the last line of the output has its number"
        }
        Status::NoMemory => "there was no memory; the output is the beginning of the text",
        Status::ReadFault => "standard input could not be read",
        Status::WriteFault =>
            "standard output could not be written; it has the beginning of the text",
        Status::InputTooLong => "the input is longer than 16777216 bytes",
    }
}

// What is wrong with the words behind the program's name, and what tells more.
fn put_bad_words(text: &mut Vec<u8>, words: &[String]) -> Result<(), AllocError> {
    let Some(word) = command_word(words) else {
        return put(
            text,
            "no command is given, or a word is not UTF-8; --help lists the commands",
        );
    };
    match wanted_behind(word) {
        Some(wanted) => {
            put(text, "behind ")?;
            put(text, word)?;
            put(text, wanted)?;
            put(text, "; --help ")?;
            put(text, word)?;
            put(text, " says more")
        }
        None => {
            put_quoted(text, word.as_bytes(), SHOWN)?;
            put(text, " is no command; --help lists the commands")
        }
    }
}

// The word that should be a command: the first, or behind `--help` the second.
fn command_word(words: &[String]) -> Option<&str> {
    match words {
        [help, word, ..] if help.as_str() == "--help" => Some(word.as_str()),
        [word, ..] => Some(word.as_str()),
        [] => None,
    }
}

// What should stand behind the word of a command.
fn wanted_behind(word: &str) -> Option<&'static str> {
    match word {
        "session" | "joined" | "check" | "resend" => Some(" no other word stands"),
        "call" => Some(" one word stands, a queue of 1 to 255 bytes"),
        "generate" => Some(" one number stands, from 1 to 10000"),
        "shared" | "pool" => Some(" one number stands, from 1 to 64"),
        _ => None,
    }
}

// What the lines behind the first are, by the first word.
fn kind_of(words: &[String]) -> Kind {
    match words {
        [word, ..] => match word.as_str() {
            "session" | "shared" | "pool" => Kind::Events,
            "joined" => Kind::Steps,
            "check" => Kind::Transcript,
            "resend" => Kind::Resend,
            "call" => Kind::Calls,
            _ => Kind::Others,
        },
        [] => Kind::Others,
    }
}

fn put_bad_line(
    alloc: Global,
    text: &mut Vec<u8>,
    words: &[String],
    input: &[u8],
) -> Result<(), AllocError> {
    match first_bad(alloc, kind_of(words), input) {
        Some(bad) => put_bad(alloc, text, &bad),
        None => put(text, reason(Status::BadLine)),
    }
}

fn put_bad(alloc: Global, text: &mut Vec<u8>, bad: &Bad) -> Result<(), AllocError> {
    put(text, "line ")?;
    put_number(text, bad.number)?;
    put(text, ": ")?;
    if bad.line.is_empty() {
        put(text, "it is empty, or missing")?;
    } else if bad.line.last() == Some(&b'\r') {
        put(
            text,
            "a carriage return stands at its end; lines end by a line feed alone",
        )?;
    } else {
        match &bad.stumble {
            Some(stumble) => put_stumble(alloc, text, stumble)?,
            None => put(text, "it is not in the format of docs/FORMAT.md")?,
        }
    }
    Ok(())
}
