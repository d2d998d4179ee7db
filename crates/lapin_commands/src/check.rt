//! The command `check`: each line of its input is a frame that was seen, and the account and the finding of the transcript are
//! printed.
//!
//! What is found stands in `lapin_check`, its text in `lapin_check_text`. An entry of the account tells of frames behind it, so the
//! whole transcript is read before anything is printed.
ghost use Rattle.std.specs.Prelude.{◌≡◌, ◌≤◌, ◌++◌, IfOk, OnOk};
ghost use Rattle.lapin_commands.specs.Check.{PrintsCheck, checked_text};
ghost use Rattle.lapin_commands.specs.OneReading.{check_one};

use lapin_check::{Seen, check};
use lapin_check_text::{parse_seen, put_check};
use lapin_inputs::{Answers, put_bad_line, write_all};
use lapin_io::{Sink, SinkError};
use lapin_types::NoMemory;
use std::alloc::Global;

/// The command `check`: what is found in the transcript that the lines of an input are. No word stands behind its own.
pub enum OfCheck {}

impl Answers for OfCheck {
    ghost admits = { λ none. Unit {0} };

    ghost prints = { λ none input bad text. PrintsCheck input bad text };

    fn write<K: Sink>(
        alloc: Global,
        _argument: &str,
        input: &[u8],
        sink: &mut K,
    ) -> Result<Option<u64>, SinkError> {
        let Ok((text, bad)) = print_check(alloc, input) else {
            return Err(SinkError::NoMemory);
        };
        write_all(sink, &text)?;
        Ok(bad)
    }

    ghost one = { λ none input text other line all bad. check_one input text other line all bad };
}

// The text of the transcript of an input, with the number of its first bad line.
fn print_check(alloc: Global, input: &[u8]) -> Result<(Vec<u8>, Option<u64>), NoMemory>
    ensures { IfOk result (λ p. PrintsCheck input.now p.1 p.0.items) }
{
    let parsed = parse_seen(alloc, input)?;
    let mut text = Vec::new(alloc);
    if let Some(frame_max) = parsed.frame_max {
        put_checked(alloc, &mut text, frame_max, &parsed.transcript)?;
    }
    put_bad_line(alloc, &mut text, parsed.bad)?;
    Ok((text, parsed.bad))
}

// Appends the account and the finding of a transcript.
fn put_checked(
    alloc: Global,
    text: &mut Vec<u8>,
    frame_max: u32,
    transcript: &[Seen],
) -> Result<(), NoMemory>
    requires { 4096 ≤ frame_max }
    ensures { OnOk result (text.new.items ≡ text.old.items ++ checked_text frame_max transcript.now) }
{
    let mut account = Vec::new(alloc);
    let finding = check(alloc, frame_max, transcript, &mut account)?;
    put_check(alloc, text, &account, finding)
}
