//! How a payload is cut: a frame holds `frame_max` bytes, 8 of which are not of the body.
use crate::driver::ends_as;
use lapin_program::Status;
use std::alloc::AllocError;
use std::test::Fail;

const OPEN: &str = "frame_max 4096\ncall 1 channel.open\nnext 1\nrecv method 1 channel.open-ok\n";

const OPENED: &str = "ticket 1\nframe method 1 channel.open\nreceived\n";

// A publish with a payload of so many letters, and five frame requests.
fn put_publish(events: &mut String, length: usize) -> Result<(), AllocError> {
    events.push_str("call 1 basic.publish x x68656c6c6f 0 0 x")?;
    put_payload(events, length)?;
    events.push_str(" []\nnext 1\nnext 1\nnext 1\nnext 1\nnext 1\n")
}

// Its records: the method, this header, and the two bodies, where they have letters.
fn put_frames(
    records: &mut String,
    header: &str,
    first: usize,
    second: usize,
) -> Result<(), AllocError> {
    records.push_str("publish 2 1\nframe method 1 basic.publish x x68656c6c6f 0 0\n")?;
    records.push_str(header)?;
    for body in [first, second] {
        if body > 0 {
            records.push_str("frame body 1 x")?;
            put_payload(records, body)?;
            records.push_str("\n")?;
        }
    }
    for body in [first, second, 0] {
        if body == 0 {
            records.push_str("noframe\n")?;
        }
    }
    Ok(())
}

// The text of as many letters `a`.
fn put_payload(text: &mut String, length: usize) -> Result<(), AllocError> {
    for _ in 0..length {
        text.push_str("61")?;
    }
    Ok(())
}

#[test]
fn bodies_are_cut_to_the_frame_size(rt: HostRuntime) -> Result<(), Fail> {
    let alloc = rt.alloc();
    for (length, header, first, second) in [
        (0, "frame header 1 60 0 []\n", 0, 0),
        (4088, "frame header 1 60 4088 []\n", 4088, 0),
        (4089, "frame header 1 60 4089 []\n", 4088, 1),
        (5000, "frame header 1 60 5000 []\n", 4088, 912),
    ] {
        let mut events = String::from_str(alloc, OPEN)?;
        put_publish(&mut events, length)?;
        let mut records = String::from_str(alloc, OPENED)?;
        put_frames(&mut records, header, first, second)?;
        ends_as(
            &rt,
            "session",
            events.as_str(),
            Status::Fine,
            records.as_str(),
        )?;
    }
    Ok(())
}
