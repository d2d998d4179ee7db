//! What all lines have in common: nothing follows what was read; an error that refuses is written; and the lines that go by their
//! event and its record.
ghost use Rattle.std.specs.Prelude.{◌≡◌, ◌++◌, ◌∷◌, [], ℕ, List, Option, IfOk, OnOk};
ghost use Rattle.lapin_types.specs.declared.record.Record.TheVariants as told;
ghost use Rattle.lapin_types.specs.Types.error as errors;
ghost use Rattle.lapin_machine.specs.Numbers.{HasNumbersFor};
ghost use Rattle.lapin_tokens.specs.Reading.{Gives};
ghost use Rattle.lapin_text.specs.LineReading.{line_at, whole};
ghost use Rattle.lapin_text.specs.Records.{record_tokens, line_onto};
ghost use Rattle.lapin_lines.specs.Lines.{IsMet, IsTaken};

use lapin_machine::Session;
use lapin_text::{put_record, put_refused, read_event};
use lapin_tokens::{ReadError, Tokens};
use lapin_types::{Error, Event, NoMemory, Record};
use std::alloc::Global;

// What was read, where it is the last of its line.
#[inline(always)]
pub(crate) fn last<T: Copy>(
    tokens: &mut Tokens,
    read: Result<T, ReadError>,
) -> Result<Option<T>, NoMemory>
    ensures { IfOk result (λ value. (given : Option (T × List (List ℕ))) → Gives read tokens.old given → value ≡ whole given) }
{
    match read {
        Ok(value) => match tokens.next() {
            Some(_) => Ok(None),
            None => Ok(Some(value)),
        },
        Err(ReadError::Bad) => Ok(None),
        Err(ReadError::Memory) => Err(NoMemory),
    }
}

// Takes a line by its event.
#[inline(never)]
pub(crate) fn take_event(
    alloc: Global,
    session: &mut Session,
    line: &[u8],
    text: &mut Vec<u8>,
) -> Result<bool, NoMemory>
    requires { HasNumbersFor 1 session.old }
    ensures { IfOk result (IsTaken (line_at line.now) session.old session.new text.old.items text.new.items) }
{
    match read_event(alloc, line)? {
        Some(event) => {
            print_step(alloc, session, event, text)?;
            Ok(true)
        }
        None => Ok(false),
    }
}

// Steps an event, and appends the line of its record.
#[inline(never)]
pub(crate) fn print_step(
    alloc: Global,
    session: &mut Session,
    event: Event,
    text: &mut Vec<u8>,
) -> Result<(), NoMemory>
    requires { HasNumbersFor 1 session.old }
    ensures { OnOk result (IsMet event session.old session.new text.old.items text.new.items) }
{
    match session.step(alloc, event) {
        Ok(record) => {
            let put = put_line(alloc, text, &record);
            drop(record);
            put
        }
        Err(Error::NoMemory) => Err(NoMemory),
        Err(_) => unreachable!(),
    }
}

// Appends the line of a record.
fn put_line(alloc: Global, text: &mut Vec<u8>, given: &Record) -> Result<(), NoMemory>
    ensures { OnOk result (text.new.items ≡ line_onto text.old.items (record_tokens given.now) ++ 10 ∷ []) }
{
    put_record(alloc, text, given)?;
    text.push(b'\n')?;
    Ok(())
}

// Appends the line of a refusal. Want of memory and of numbers have none.
#[inline(never)]
pub(crate) fn put_refusal(alloc: Global, text: &mut Vec<u8>, error: Error) -> Result<(), NoMemory>
    ensures memory { OnOk result (error ≡ errors.NoMemory → ⊥) }
    ensures text { OnOk result (text.new.items ≡ line_onto text.old.items (record_tokens (told.Refused error)) ++ 10 ∷ []) }
{
    match error {
        Error::NoMemory => Err(NoMemory),
        error => {
            put_refused(alloc, text, error)?;
            text.push(b'\n')?;
            Ok(())
        }
    }
}
