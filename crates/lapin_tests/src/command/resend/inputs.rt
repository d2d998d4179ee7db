//! Inputs as a whole: the first line, and a bad line behind steps.
use crate::driver::end_as_told;
use std::alloc::AllocError;

const INPUTS: &str = r"
resend | frame_max 4095\n | bad line | badline 1\n
resend | frame_max 4096\nsubmit x x71 x6869\nnext 1\nnext\n | bad line | message 1\nbadline 3\n
resend | frame_max 4096\n | fine
resend now | frame_max 4096\n | bad words
";

#[test]
fn bad_lines(rt: HostRuntime) -> Result<(), AllocError> {
    end_as_told(&rt, INPUTS)
}
