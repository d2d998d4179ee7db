//! Whole runs of the program by their words: `joined` with inputs that have a bad line, `generate` with its summary, and words
//! that are no command.
use crate::driver::{end_as_told, ends_as};
use lapin_program::Status;
use std::test::Fail;

// The words, an input, how the program ends, and what it writes.
const PROGRAMS: &str = r"
joined | frame_max 4096\ndeliver\n | fine | nothing\n
joined | frame_max 4096\n | fine
joined | frame_max 4294967295\nclient next 1\nread | fine | noframe\nnothing\n
joined |  | bad line | badline 1\n
joined | frame_max 4095\ndeliver\n | bad line | badline 1\n
joined | deliver\n | bad line | badline 1\n
joined | frame_max 4096\ndeliver\nnext 1\nread\n | bad line | nothing\nbadline 3\n
joined | frame_max 4096\ndeliver\n\nread\n | bad line | nothing\nbadline 3\n
joined | frame_max 4096\ndeliver \n | bad line | badline 2\n
joined | frame_max 4096\nread\nsend channel.open-ok\n | bad line | nothing\nbadline 3\n
joined | frame_max 4096\nclient \n | bad line | badline 2\n
joined now | frame_max 4096\ndeliver\n | bad words
Joined | frame_max 4096\ndeliver\n | bad words
joined  | frame_max 4096\ndeliver\n | bad words
generate 3 |  | fine | publishes 3\nframes 11\nbytes 222\nacks 3\n
generate 1 | frame_max 4096\ndeliver\n | fine | publishes 1\nframes 5\nbytes 37\nacks 1\n
generate |  | bad words
generate 0 |  | bad words
generate 01 |  | bad words
generate +1 |  | bad words
generate x |  | bad words
generate 10001 |  | bad words
generate 18446744073709551617 |  | bad words
generate 3 3 |  | bad words
";

#[test]
fn programs_end_as_they_should(rt: HostRuntime) -> Result<(), Fail> {
    end_as_told(&rt, PROGRAMS)?;
    Ok(())
}

// Publish i has (37 i) mod 9000 bytes. The lengths run through 0 to 8999 once, and their sum is 40,495,500; 4,088 of them take one
// body, 4,088 take two and 823 take three. So the frames are 2 of the channel, 18,000 methods and headers, and 14,733 bodies.
#[test]
fn nine_thousand_publishes_come_to_their_acks(rt: HostRuntime) -> Result<(), Fail> {
    let output = "publishes 9000\nframes 32735\nbytes 40495500\nacks 9000\n";
    ends_as(&rt, "generate 9000", "", Status::Fine, output)?;
    Ok(())
}
