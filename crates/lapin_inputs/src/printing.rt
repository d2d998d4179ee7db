//! From the bytes of an input to the text that is written for it, for any run. `answer` calls it.
//!
//! A line is read, its step made, and what that prints appended to what is held, before the next line is read; and what is held
//! is put out while the run goes on. So no list of steps or of what they answer is made, and no whole text.
ghost use Rattle.std.specs.Prelude.{◌≡◌, ◌≤◌, ◌<◌, ◌^◌, ◌++◌, ◌∷◌, ◌⊎◌, [], ℕ, List, Some, None, length, IfOk, OnOk, OnErr, IfSome, IfNone, Option, IsErrOf};
ghost use Rattle.std.specs.Io.KnownBytes.{Appends};
ghost use Rattle.lapin_io.specs.Numbers.{Rose, Stayed};
ghost use Rattle.lapin_text.specs.Input.{max_line, IsMax};
ghost use Rattle.lapin_inputs.specs.Outcome.{WroteSome};
ghost use Rattle.lapin_inputs.specs.Printing.{NoFirst, bad_line_text, number_line};
ghost use Rattle.lapin_inputs.specs.Reading.{longest_input};
ghost use Rattle.lapin_inputs.specs.Writing.{WritesPrefix};

use crate::output::{put_out, write_all};
use crate::run::Run;
use lapin_io::{Sink, SinkError};
use lapin_text::{Lines, read_max};
use lapin_types::NoMemory;
use std::alloc::Global;

/// Makes the steps of an input in a new run, up to the first bad line, and writes what they answer. The number of that line.
///
/// # Errors
/// `Failed` where the sink failed, and `NoMemory`.
pub fn write_input<R: Run, K: Sink>(
    alloc: Global,
    argument: &str,
    input: &[u8],
    sink: &mut K,
) -> Result<Option<u64>, SinkError>
    requires argument { R.admits argument.now }
    requires short { length input.now ≤ longest_input }
    ensures ok { IfOk result (λ bad. (text : List ℕ) × R.prints argument.now input.now bad text × Appends (K.written sink.old) (K.written sink.new) text) }
    ensures faultless { OnOk result (Stayed (K.faults sink.old) (K.faults sink.new)) }
    ensures fault { IsErrOf result SinkError.Failed → Rose (K.faults sink.old) (K.faults sink.new) }
    ensures cut_short { IsErrOf result SinkError.Failed → WroteSome (K.written sink.old) (K.written sink.new) (R.prints argument.now input.now) }
    ensures no_memory { IsErrOf result SinkError.NoMemory → (sink.new ≡ sink.old)
        ⊎ WroteSome (K.written sink.old) (K.written sink.new) (R.prints argument.now input.now) }
{
    let mut lines = Lines::new(input);
    match take_max(&mut lines) {
        Some(frame_max) => match R::begin(alloc, argument, frame_max) {
            Ok(mut run) => write_lines::<R, K>(alloc, &mut run, &mut lines, sink),
            Err(_) => Err(SinkError::NoMemory),
        },
        None => write_rest(alloc, Vec::new(alloc), Some(1), sink),
    }
}

// The frame size that the first line gives; `None` where that line is missing or bad. It is passed.
fn take_max(lines: &mut Lines) -> Option<u32>
    ensures some { IfSome result (λ m. IsMax m × (lines.old ≡ max_line m ∷ lines.new)) }
    ensures none { IfNone result (NoFirst lines.old) }
{
    match lines.next() {
        Some(line) => read_max(line),
        None => None,
    }
}

// Makes the steps of the lines, the first of which is the second one of the input, and writes what they answer.
fn write_lines<R: Run, K: Sink>(
    alloc: Global,
    run: &mut R::State,
    lines: &mut Lines,
    sink: &mut K,
) -> Result<Option<u64>, SinkError>
    requires few { length lines.old ≤ 2 ^ 31 }
    requires takes { R.takes (length lines.old) run.old }
    ensures ok { IfOk result (λ bad. (past : R.Past) → R.stands past run.old → (text : List ℕ) × R.goes_on past 2 lines.old bad text × Appends (K.written sink.old) (K.written sink.new) (text ++ bad_line_text bad)) }
    ensures err { OnErr result ((past : R.Past) → R.stands past run.old → (bad : Option ℕ) × (text : List ℕ) × R.goes_on past 2 lines.old bad text × WritesPrefix (K.written sink.old) (K.written sink.new) (text ++ bad_line_text bad)) }
    ensures faultless { OnOk result (Stayed (K.faults sink.old) (K.faults sink.new)) }
    ensures fault { IsErrOf result SinkError.Failed → Rose (K.faults sink.old) (K.faults sink.new) }
{
    let mut held = Vec::new(alloc);
    let bad = put_lines::<R, K>(alloc, run, lines, &mut held, sink)?;
    write_rest(alloc, held, bad, sink)
}

// The same without the end: what is held at last is not written yet. The number of the first bad line.
fn put_lines<R: Run, K: Sink>(
    alloc: Global,
    run: &mut R::State,
    lines: &mut Lines,
    held: &mut Vec<u8>,
    sink: &mut K,
) -> Result<Option<u64>, SinkError>
    requires few { length lines.old ≤ 2 ^ 31 }
    requires takes { R.takes (length lines.old) run.old }
    requires empty { held.old.items ≡ [] }
    ensures ok { IfOk result (λ bad. (past : R.Past) → R.stands past run.old → (piece : List ℕ) × Appends (K.written sink.old) (K.written sink.new) piece × R.goes_on past 2 lines.old bad (piece ++ held.new.items)) }
    ensures err { OnErr result ((past : R.Past) → R.stands past run.old → (bad : Option ℕ) × (text : List ℕ) × R.goes_on past 2 lines.old bad text × WritesPrefix (K.written sink.old) (K.written sink.new) text) }
    ensures faultless { OnOk result (Stayed (K.faults sink.old) (K.faults sink.new)) }
    ensures fault { IsErrOf result SinkError.Failed → Rose (K.faults sink.old) (K.faults sink.new) }
    ensures faults { K.faults sink.old ≤ K.faults sink.new }
{
    let mut number = 2;
    while let Some(line) = lines.next() {
        let Ok(good) = R::take_line(alloc, run, line, held) else {
            return Err(SinkError::NoMemory);
        };
        if !good {
            return Ok(Some(number));
        }
        put_out(sink, held)?;
        number += 1;
    }
    Ok(None)
}

// Writes what is held, and the line that names the first bad line of the input, where there is one.
fn write_rest<K: Sink>(
    alloc: Global,
    mut held: Vec<u8>,
    bad: Option<u64>,
    sink: &mut K,
) -> Result<Option<u64>, SinkError>
    ensures ok { IfOk result (λ number. (number ≡ bad) × Appends (K.written sink.old) (K.written sink.new) (held.items ++ bad_line_text bad)) }
    ensures err { OnErr result (WritesPrefix (K.written sink.old) (K.written sink.new) (held.items ++ bad_line_text bad)) }
    ensures faultless { OnOk result (Stayed (K.faults sink.old) (K.faults sink.new)) }
    ensures fault { IsErrOf result SinkError.Failed → Rose (K.faults sink.old) (K.faults sink.new) }
{
    if put_bad_line(alloc, &mut held, bad).is_err() {
        return Err(SinkError::NoMemory);
    }
    write_all(sink, &held)?;
    Ok(bad)
}

/// Appends the line that names the first bad line of the input, where there is one.
///
/// # Errors
/// `NoMemory` alone.
pub fn put_bad_line(alloc: Global, text: &mut Vec<u8>, bad: Option<u64>) -> Result<(), NoMemory>
    ensures { OnOk result (text.new.items ≡ text.old.items ++ bad_line_text bad) }
{
    match bad {
        Some(line) => put_number(alloc, text, "badline", u128::from(line)),
        None => Ok(()),
    }
}

/// Appends a line with a name and a number.
///
/// # Errors
/// `NoMemory` alone.
pub fn put_number(
    alloc: Global,
    text: &mut Vec<u8>,
    name: &str,
    number: u128,
) -> Result<(), NoMemory>
    ensures { OnOk result (text.new.items ≡ text.old.items ++ number_line name.now number) }
{
    let line = format!(in alloc; "{name} {number}\n")?;
    text.extend_from_slice(line.as_bytes())?;
    Ok(())
}
