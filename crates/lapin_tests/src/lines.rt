//! Inputs by their lines: the first one, the last one, and the number of a bad one.
use crate::driver::{end_as_told, ends_as};
use lapin_program::Status;
use std::alloc::AllocError;
use std::process::Abort;
use std::test::Fail;

// What is printed for an input whose lines are in the format, and else up to its first bad line.
const INPUTS: &str = r"
session | frame_max 4096\n | fine
session | frame_max 4294967295\n | fine
session | frame_max 4096 | fine
session | frame_max 4096\nticket 1\nnext 1 | fine | refused UnknownTicket\nnoframe\n
session |  | bad line | badline 1\n
session | frame_max 4095\n | bad line | badline 1\n
session | frame_max 4294967296\nnext 1\n | bad line | badline 1\n
session | frame_max 04096\nnext 1\n | bad line | badline 1\n
session | frame_max +4096\nnext 1\n | bad line | badline 1\n
session | frame_max  4096\nnext 1\n | bad line | badline 1\n
session | frame_max 4096 \nnext 1\n | bad line | badline 1\n
session | frame_max 4096\r\nnext 1\n | bad line | badline 1\n
session | frame_max \nnext 1\n | bad line | badline 1\n
session | frame_max\nnext 1\n | bad line | badline 1\n
session | Frame_max 4096\nnext 1\n | bad line | badline 1\n
session | \nframe_max 4096\nnext 1\n | bad line | badline 1\n
session | next 1\nframe_max 4096\nnext 1\n | bad line | badline 1\n
session | frame_max 4096\nnext 1\nnxt 1\nnext 1\n | bad line | noframe\nbadline 3\n
session | frame_max 4096\nnext 1\n\nnext 1\n | bad line | noframe\nbadline 3\n
session | frame_max 4096\nnext 1\nframe_max 4096\n | bad line | noframe\nbadline 3\n
session | frame_max 4096\nticket 1\nnext | bad line | refused UnknownTicket\nbadline 3\n
session | frame_max 4096\nnext 1 \n | bad line | badline 2\n
session | frame_max 4096\nnext  1\n | bad line | badline 2\n
session | frame_max 4096\n next 1\n | bad line | badline 2\n
session | frame_max 4096\nnext 2\n | bad line | badline 2\n
session | frame_max 4096\nticket 01\n | bad line | badline 2\n
session | frame_max 4096\nnext 1\r\n | bad line | badline 2\n
";

#[test]
fn inputs_are_read_by_their_lines(rt: HostRuntime) -> Result<(), Fail> {
    end_as_told(&rt, INPUTS)?;
    Ok(())
}

// Lines that begin with a word of the format and are not in it: too little stands behind the word, too much, or something else.
const BAD_LINES: &str = "\
next
next 1 1
next x31
confirm
confirm -1
confirm 1 1
confirm 18446744073709551616
ticket
ticket 1 0
consumer
consumer x1
consumer 1 1
acker
acker 1
acker 1 ack
acker 1 ack 2
acker 1 ack 0 0
acker 1 nack 0
acker 1 take 0
acker 1 reject 1 x
recv
recv method
recv method 1
recv method 65536 basic.ack 1 0
recv method 1 basic.ack 1
recv method 1 basic.ack 1 0 0
recv method 1 basic.ack 1 2
recv method 1 basic.acks 1 0
recv method 1 basic.deliver x74 1 0 x
recv header 1 60 0
recv header 1 60 0 [] []
recv header 1 65536 0 []
recv body 1
recv body 1 61
recv body 1 x6
recv body 1 x61 x61
recv frame 1
call
call 1
call 1 basic.publish
call 1 basic.publish x x 0 0 x
call 1 basic.publish x x 0 0 x [] []
call 1 basic.publish x x 0 2 x []
call 1 basic.publish x x 0 0 x {}
call 1 basic.publishes x x 0 0 x []
call 65536 channel.open
call 1 channel.open 1
call 1 basic.deliver x 1 0 x x";

// Nothing is done for such a line, and nothing behind it is read.
#[test]
fn a_word_alone_makes_no_line(rt: HostRuntime) -> Result<(), Fail> {
    for line in BAD_LINES.lines() {
        makes_no_line(&rt, line)?;
    }
    Ok(())
}

fn makes_no_line(rt: &(impl Abort + AllocGlobal), line: &str) -> Result<(), AllocError> {
    let mut input = String::from_str(rt.alloc(), "frame_max 4096\n")?;
    input.push_str(line)?;
    input.push_str("\nnext 1\n")?;
    ends_as(
        rt,
        "session",
        input.as_str(),
        Status::BadLine,
        "badline 2\n",
    )
}

// Behind the first line and a thousand others the next has the number 1002.
#[test]
fn lines_are_counted_from_one(rt: HostRuntime) -> Result<(), Fail> {
    let alloc = rt.alloc();
    let mut input = String::from_str(alloc, "frame_max 4096\n")?;
    let mut output = String::new(alloc);
    for _ in 0..1_000 {
        input.push_str("next 1\n")?;
        output.push_str("noframe\n")?;
    }
    input.push_str("next 2\nnext 1\n")?;
    output.push_str("badline 1002\n")?;
    ends_as(
        &rt,
        "session",
        input.as_str(),
        Status::BadLine,
        output.as_str(),
    )?;
    Ok(())
}
