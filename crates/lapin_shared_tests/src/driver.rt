//! Runs the command on an input in memory. The other modules call it.

use lapin_inputs::Status;
use lapin_io::{SureSink, SureSource};
use lapin_program::run_shared;
use lapin_shared::{Gate, History};
use std::alloc::{AllocError, Global};
use std::process::Abort;
use std::sync::Wait;
use std::test::Fail;
use std::thread::Threads;

/// The words of a command line, which spaces part. None is empty.
pub fn words_of(alloc: Global, line: &str) -> Result<Vec<String>, AllocError> {
    let mut words = Vec::new(alloc);
    for word in line.split(' ') {
        if !word.is_empty() {
            words.push(String::from_str(alloc, word)?)?;
        }
    }
    Ok(words)
}

/// Runs the words of a line on an input, compares the status and the text, and answers the history that was kept.
pub fn shared<G: Gate, R: Threads + Wait + Abort + Sync>(
    rt: &R,
    alloc: Global,
    gate: &G,
    line: &str,
    input: &str,
    status: Status,
    want: &str,
) -> Result<Option<History>, Fail> {
    let words = words_of(alloc, line)?;
    let mut source = SureSource::new(input.as_bytes().to_vec(alloc)?);
    let mut sink = SureSink::new(alloc);
    let mut kept = None;
    let got = run_shared(rt, alloc, &words, gate, &mut source, &mut sink, &mut kept);
    assert_eq!(rt; got, status);
    assert_eq!(rt; sink.bytes(), want.as_bytes());
    Ok(kept)
}
