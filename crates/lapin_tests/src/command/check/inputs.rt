//! Inputs as a whole: the first line, and a bad line behind a transcript.
use crate::driver::end_as_told;
use std::alloc::AllocError;

const INPUTS: &str = r"
check | frame_max 4095\n | bad line | badline 1\n
check | frame_max 4096\nup method 1 channel.open\nread\n | bad line | fine\nbadline 3\n
check | frame_max 4096\n | fine | fine\n
";

#[test]
fn bad_lines(rt: HostRuntime) -> Result<(), AllocError> {
    end_as_told(&rt, INPUTS)
}
