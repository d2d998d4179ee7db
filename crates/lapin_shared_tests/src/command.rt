//! What the command prints, and what it keeps, with a gate that does nothing.

use crate::driver::shared;
use lapin_inputs::Status;
use lapin_shared::OpenGate;
use std::alloc::Global;
use std::process::Abort;
use std::sync::Wait;
use std::test::Fail;
use std::thread::Threads;

/// A publish, its ack and its polls, on a channel that asked for confirms.
const PUBLISH: &str = "frame_max 4096\n\
call 1 channel.open\nnext 1\nrecv method 1 channel.open-ok\n\
call 1 confirm.select 0\nnext 1\nrecv method 1 confirm.select-ok\n\
call 1 basic.publish x x68656c6c6f 0 0 x48656c6c6f20776f726c6421 []\n\
next 1\nnext 1\nnext 1\nrecv method 1 basic.ack 1 0\nticket 3\nconfirm 1\n";

const PUBLISHED: &str = "1 ticket 1\n1 frame method 1 channel.open\n1 received\n\
1 ticket 2\n1 frame method 1 confirm.select 0\n1 received\n1 publish 3 1\n\
1 frame method 1 basic.publish x x68656c6c6f 0 0\n1 frame header 1 60 12 []\n\
1 frame body 1 x48656c6c6f20776f726c6421\n1 received\n1 answer confirm 1\n1 confirmed ack -\n";

#[test]
fn one_caller_makes_the_whole_history(rt: HostRuntime) -> Result<(), Fail> {
    let kept = shared(
        &rt,
        rt.alloc(),
        &OpenGate,
        "shared 1",
        PUBLISH,
        Status::Fine,
        PUBLISHED,
    )?;
    match kept {
        Some(history) => assert_eq!(&rt; history.len(), 13),
        None => assert!(&rt; false),
    }
    Ok(())
}

/// Words that are no command, a line each. The last line has none.
const BAD_WORDS: &str = "shared 0
shared 65
shared
shared 1 2
shared x
shared 01
session
";

fn are_bad<R: Threads + Wait + Abort + Sync>(
    rt: &R,
    alloc: Global,
    line: &str,
) -> Result<(), Fail> {
    let input = "frame_max 4096\nlost\n";
    let kept = shared(rt, alloc, &OpenGate, line, input, Status::BadWords, "")?;
    assert!(rt; kept.is_none());
    Ok(())
}

#[test]
fn other_words_are_bad(rt: HostRuntime) -> Result<(), Fail> {
    for line in BAD_WORDS.split('\n') {
        are_bad(&rt, rt.alloc(), line)?;
    }
    Ok(())
}

#[test]
fn a_bad_line_ends_the_run(rt: HostRuntime) -> Result<(), Fail> {
    let rows: [(&str, &str, bool); 4] = [
        ("frame_max 4096\nlost\nx\n", "1 lost\nbadline 3\n", true),
        ("frame_max 4096\nx\nlost\n", "badline 2\n", true),
        ("frame_max 4095\nlost\n", "badline 1\n", false),
        ("", "badline 1\n", false),
    ];
    for (input, want, is_kept) in rows {
        let kept = shared(
            &rt,
            rt.alloc(),
            &OpenGate,
            "shared 64",
            input,
            Status::BadLine,
            want,
        )?;
        assert_eq!(&rt; kept.is_some(), is_kept);
    }
    Ok(())
}
