//! The driver: runs each case of the table by the program's top call, and compares what is told of it.

use crate::driver::{put, unescaped, words_of};
use crate::reasons::cases::CASES;
use lapin_io::{Source, SureSink, SureSource};
use lapin_program::run_program;
use lapin_reasons::{Heard, why};
use std::alloc::{AllocError, Global};
use std::process::Abort;

// What is told of an input.
fn told_of(alloc: Global, line: &str, input: &str) -> Result<Vec<u8>, AllocError> {
    let words = words_of(alloc, line)?;
    let mut source = Heard::new(alloc, SureSource::new(input.as_bytes().to_vec(alloc)?));
    let mut sink = SureSink::new(alloc);
    let status = run_program(alloc, &words, &mut source, &mut sink);
    match why(alloc, &words, status, source.bytes()) {
        Ok(text) => Ok(text),
        Err(_) => Err(AllocError),
    }
}

// Compares what is told of an input with a line.
fn tells(
    rt: &(impl Abort + AllocGlobal),
    line: &str,
    input: &str,
    told: &str,
) -> Result<(), AllocError> {
    let mut wanted = String::new(rt.alloc());
    put(&mut wanted, told)?;
    let found = told_of(rt.alloc(), line, input)?;
    assert_eq!(rt; found.as_slice(), wanted.as_bytes());
    Ok(())
}

fn is_explained(rt: &(impl Abort + AllocGlobal), case: &str) -> Result<(), AllocError> {
    let (run, told) = case.split_once('\n').unwrap_or((case, ""));
    let (line, input) = run.split_once(" | ").unwrap_or((run, ""));
    let input = unescaped(rt.alloc(), input)?;
    tells(rt, line, input.as_str(), told)
}

#[test]
fn bad_inputs_are_explained(rt: HostRuntime) -> Result<(), AllocError> {
    for case in CASES.split("\n\n") {
        is_explained(&rt, case)?;
    }
    Ok(())
}

// Behind the first lines stand two hundred thousand others, and a bad one.
fn long_input(alloc: Global, beginning: &str) -> Result<String, AllocError> {
    let mut input = String::from_str(alloc, beginning)?;
    for _ in 0..200_000 {
        input.push_str("next 1\n")?;
    }
    input.push_str("next 2\n")?;
    Ok(input)
}

// Of a long input the first bytes are remembered: a bad line among them is explained, one behind them is not.
#[test]
fn a_long_input_is_remembered_in_part(rt: HostRuntime) -> Result<(), AllocError> {
    for (beginning, wanted) in [
        (
            "frame_max 4096\nnext 2\n",
            "lapin: line 2: token 2 is `2`, and flow is wanted there: 0 or 1; the form is `next flow`",
        ),
        (
            "frame_max 4096\n",
            "lapin: a line is not in the format of docs/FORMAT.md; the last line of the output has its number",
        ),
    ] {
        let input = long_input(rt.alloc(), beginning)?;
        tells(&rt, "session", input.as_str(), wanted)?;
    }
    Ok(())
}
