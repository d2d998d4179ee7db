//! The words of the command line, and the exit statuses.
use crate::driver::end_as_told;
use lapin_program::{Status, run_in_memory};
use std::alloc::AllocError;
use std::process::Abort;
use std::test::Fail;

// Nothing is written where the words are no command. The words of the second row are one, which is empty.
const WORDS: &str = r"
session now | frame_max 4096\nnext 1\n | bad words
 | frame_max 4096\nnext 1\n | bad words
sessions | frame_max 4096\nnext 1\n | bad words
Session | frame_max 4096\nnext 1\n | bad words
--help | frame_max 4096\nnext 1\n | bad words
check now | frame_max 4096\nnext 1\n | bad words
resend  | frame_max 4096\nnext 1\n | bad words
call | frame_max 4096\nnext 1\n | bad words
call replies now | frame_max 4096\nnext 1\n | bad words
check | frame_max 4096\nnext 1\n | bad line | fine\nbadline 2\n
resend | frame_max 4096\nnext 1\n | bad line | badline 2\n
call replies | frame_max 4096\nnext 1\n | fine | frame method 1 channel.open\n
session | frame_max 4096\nnext 1\n | fine | noframe\n
";

#[test]
fn other_words_are_no_command(rt: HostRuntime) -> Result<(), Fail> {
    end_as_told(&rt, WORDS)?;
    no_words_are_no_command(&rt)?;
    Ok(())
}

fn no_words_are_no_command(rt: &(impl Abort + AllocGlobal)) -> Result<(), AllocError> {
    let input = b"frame_max 4096\nnext 1\n".to_vec(rt.alloc())?;
    let (status, sink) = run_in_memory(rt.alloc(), &[], input);
    assert_eq!(rt; status, Status::BadWords);
    assert!(rt; sink.bytes().is_empty());
    Ok(())
}

#[test]
fn each_status_has_its_code(rt: HostRuntime) -> Result<(), Fail> {
    for (status, code) in [
        (Status::Fine, 0),
        (Status::BadWords, 1),
        (Status::BadLine, 2),
        (Status::NoMemory, 3),
        (Status::ReadFault, 4),
        (Status::WriteFault, 5),
        (Status::InputTooLong, 6),
    ] {
        assert_eq!(rt; status.code(), code);
    }
    Ok(())
}
