//! A whole run of a caller by the calls of the library: its steps are read, made, and their reports printed.
use lapin_call::{CallStep, run_calls};
use lapin_call_text::{put_report, read_step};
use lapin_types::{NoMemory, ShortString};
use std::alloc::Global;
use std::test::Fail;

const STEPS: &str = "next 1
ask x x71 x6869
recv method 1 channel.open-ok
ask x x71 x6869
collect
take 1
take 2";

const TEXT: &str = "frame method 1 channel.open
notopen opening
received
call 1
collected 0 0 0
waiting
unknown
";

// The steps of a text, of which each line is one.
fn steps_of(alloc: Global, text: &str) -> Result<Vec<CallStep>, NoMemory> {
    let mut steps = Vec::new(alloc);
    for line in text.lines() {
        if let Some(step) = read_step(alloc, line.as_bytes())? {
            steps.push(step)?;
        }
    }
    Ok(steps)
}

// The text of the reports of at most a thousand steps, whose replies come to the queue `replies`.
fn printed(alloc: Global, text: &str) -> Result<Vec<u8>, NoMemory> {
    let queue = ShortString::literal(alloc, "replies")?;
    let steps = steps_of(alloc, text)?;
    let mut reports = Vec::new(alloc);
    if steps.len() <= 1000 {
        run_calls(alloc, 4096, queue, steps, &mut reports)?;
    }
    let mut out = Vec::new(alloc);
    for report in &reports {
        put_report(alloc, &mut out, report)?;
        out.push(b'\n')?;
    }
    Ok(out)
}

#[test]
fn a_run_leaves_a_report_a_step(rt: HostRuntime) -> Result<(), Fail> {
    let text = printed(rt.alloc(), STEPS)?;
    assert_eq!(rt; text.as_slice(), TEXT.as_bytes());
    Ok(())
}
