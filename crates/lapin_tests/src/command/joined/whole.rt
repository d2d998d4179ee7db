//! A whole joined run by the calls of the library: the steps of an input are parsed, made, and their reports printed.
use lapin_joint::run_joined;
use lapin_joint_text::{parse_steps, print_reports};
use lapin_types::NoMemory;
use std::alloc::Global;
use std::test::Fail;

const INPUT: &str = "frame_max 4096
client call 1 channel.open
client next 1
deliver
read
send method 1 channel.open-ok
deliver
client lost
lose
read 1
client state 1
";

const TEXT: &str = "ticket 1
frame method 1 channel.open
nothing
read
sent
received
notlawful
lost
";

// The number of the first bad line, and the text of the reports of the steps before it.
fn printed(alloc: Global, input: &str) -> Result<(Option<u64>, Vec<u8>), NoMemory> {
    let parsed = parse_steps(alloc, input.as_bytes())?;
    let frame_max = match parsed.frame_max {
        Some(frame_max) if 4096 <= frame_max => frame_max,
        _ => 4096,
    };
    let mut reports = Vec::new(alloc);
    run_joined(alloc, frame_max, parsed.steps, &mut reports)?;
    Ok((parsed.bad, print_reports(alloc, &reports)?))
}

#[test]
fn a_joined_run_leaves_a_report_a_step(rt: HostRuntime) -> Result<(), Fail> {
    let (bad, text) = printed(rt.alloc(), INPUT)?;
    assert_eq!(rt; bad, Some(10));
    assert_eq!(rt; text.as_slice(), TEXT.as_bytes());
    Ok(())
}
