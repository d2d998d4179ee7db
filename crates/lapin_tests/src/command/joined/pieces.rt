//! Output in pieces: what is held goes out once it has 65,536 bytes, while the run goes on, and the rest at the end.
use crate::driver::{is_as, words_of};
use lapin_io::{MemorySink, SureSource};
use lapin_program::{Status, run_program};
use std::alloc::{AllocError, Global};
use std::test::Fail;

// What a step prints: 18 bytes, so that 3,641 of them are the first piece and 65,538 bytes.
const LINE: &str = "state open closed\n";

// So many lines with that step, and this one behind them.
fn input_of(alloc: Global, steps: usize, end: &str) -> Result<Vec<u8>, AllocError> {
    let mut input = String::from_str(alloc, "frame_max 4096\n")?;
    for _ in 0..steps {
        input.push_str("client state 1\n")?;
    }
    input.push_str(end)?;
    input.as_bytes().to_vec(alloc)
}

// What so many steps print, and this behind it.
fn output_of(alloc: Global, steps: usize, end: &str) -> Result<String, AllocError> {
    let mut output = String::new(alloc);
    for _ in 0..steps {
        output.push_str(LINE)?;
    }
    output.push_str(end)?;
    Ok(output)
}

// Where a write fails, the pieces before it are what was written, and a bad line behind it is not named.
#[test]
fn a_text_goes_out_in_pieces(rt: HostRuntime) -> Result<(), Fail> {
    let alloc = rt.alloc();
    let words = words_of(alloc, "joined")?;
    for (steps, end, failing, wanted, written, last) in [
        (4000, "", 1, Status::WriteFault, 0, ""),
        (4000, "", 2, Status::WriteFault, 3641, ""),
        (4000, "", 3, Status::Fine, 4000, ""),
        (8000, "", 3, Status::WriteFault, 7282, ""),
        (3641, "", 2, Status::Fine, 3641, ""),
        (4000, "state 1", 2, Status::WriteFault, 3641, ""),
        (4000, "state 1", 3, Status::BadLine, 4000, "badline 4002\n"),
    ] {
        let mut source = SureSource::new(input_of(alloc, steps, end)?);
        let mut sink = MemorySink::new(alloc, 1 << 20, vec![in alloc; failing]?);
        let status = run_program(alloc, &words, &mut source, &mut sink);
        let output = output_of(alloc, written, last)?;
        let output = output.as_bytes();
        assert!(rt;
            is_as(status, wanted, sink.bytes(), output),
            "at {steps}, {failing}"
        );
    }
    Ok(())
}
