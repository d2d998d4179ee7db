//! The command over a source or a sink that fails at one of its calls.

use crate::driver::words_of;
use lapin_inputs::Status;
use lapin_io::{MemorySink, MemorySource};
use lapin_program::run_shared;
use lapin_shared::{History, OpenGate};
use std::alloc::Global;
use std::process::Abort;
use std::sync::Wait;
use std::test::Fail;
use std::thread::Threads;

/// 30 bytes: in pieces of 8, and with the end, 5 reads.
const INPUT: &[u8] = b"frame_max 4096\nstate 1\nnext 1\n";

/// 30 bytes: in pieces of 8, 4 writes.
const OUTPUT: &str = "1 state open closed\n1 noframe\n";

/// Runs the command with a read and a write that fail, compares the status and what was written, and answers the history that was kept.
fn failing<R: Threads + Wait + Abort + Sync>(
    rt: &R,
    alloc: Global,
    read: u64,
    write: u64,
    status: Status,
    want: &str,
) -> Result<Option<History>, Fail> {
    let words = words_of(alloc, "shared 1")?;
    let mut source = MemorySource::new(INPUT.to_vec(alloc)?, 8, vec![in alloc; read]?);
    let mut sink = MemorySink::new(alloc, 8, vec![in alloc; write]?);
    let mut kept = None;
    let got = run_shared(
        rt,
        alloc,
        &words,
        &OpenGate,
        &mut source,
        &mut sink,
        &mut kept,
    );
    assert_eq!(rt; got, status, "at read {read}, write {write}");
    assert_eq!(rt;
        sink.bytes(),
        want.as_bytes(),
        "at read {read}, write {write}"
    );
    Ok(kept)
}

// Nothing is written where a read fails.
#[test]
fn a_failing_read_ends_the_run(rt: HostRuntime) -> Result<(), Fail> {
    for (read, status, want) in [
        (1, Status::ReadFault, ""),
        (5, Status::ReadFault, ""),
        (6, Status::Fine, OUTPUT),
    ] {
        let _kept = failing(&rt, rt.alloc(), read, 9, status, want)?;
    }
    Ok(())
}

// Where a write fails a prefix of the text is left, and the history whose text it is was kept.
#[test]
fn a_failing_write_leaves_a_prefix_of_the_text(rt: HostRuntime) -> Result<(), Fail> {
    for (write, status, want) in [
        (1, Status::WriteFault, ""),
        (4, Status::WriteFault, "1 state open closed\n1 no"),
        (5, Status::Fine, OUTPUT),
    ] {
        match failing(&rt, rt.alloc(), 9, write, status, want)? {
            Some(history) => assert_eq!(&rt; history.len(), 2),
            None => assert!(&rt; false),
        }
    }
    Ok(())
}
