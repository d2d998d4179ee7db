//! The words of the command `call`, and a bad line of its input.
use crate::driver::{end_as_told, program};
use lapin_program::Status;
use std::alloc::AllocError;

const WORDS: &str = r"
call | frame_max 4096\n | bad words
call  | frame_max 4096\n | bad words
call a b | frame_max 4096\n | bad words
";

#[test]
fn a_queue_is_named_by_one_word(rt: HostRuntime) -> Result<(), AllocError> {
    end_as_told(&rt, WORDS)
}

#[test]
fn a_queue_has_at_most_255_bytes(rt: HostRuntime) -> Result<(), AllocError> {
    let alloc = rt.alloc();
    let mut line = String::from_str(alloc, "call ")?;
    for _ in 0..255 {
        line.push_str("q")?;
    }
    let (status, _longest) = program(alloc, line.as_str(), "frame_max 4096\n")?;
    assert_eq!(&rt; status, Status::Fine);
    line.push_str("q")?;
    let (status, _longer) = program(alloc, line.as_str(), "frame_max 4096\n")?;
    assert_eq!(&rt; status, Status::BadWords);
    Ok(())
}

const BAD_LINES: &str = r"
call q | frame_max 4096\ntake 1\ntake 01\ntake 1\n | bad line | unknown\nbadline 3\n
call q | frame_max 4095\ntake 1\n | bad line | badline 1\n
";

#[test]
fn a_bad_line_is_named(rt: HostRuntime) -> Result<(), AllocError> {
    end_as_told(&rt, BAD_LINES)
}
