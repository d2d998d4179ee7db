//! A whole run of a publisher that sends again by the calls of the library: its steps are read, made, and their reports printed.
use lapin_resend::{ResendStep, run_resend};
use lapin_resend_text::{put_resend_report, read_resend_step};
use lapin_types::NoMemory;
use std::alloc::Global;
use std::test::Fail;

const STEPS: &str = "submit x x71 x6869
next
status 1
status 2
lose";

const TEXT: &str = "message 1
frame method 1 channel.open
waiting
unknown
lost
";

// The steps of a text, of which each line is one.
fn steps_of(alloc: Global, text: &str) -> Result<Vec<ResendStep>, NoMemory> {
    let mut steps = Vec::new(alloc);
    for line in text.lines() {
        if let Some(step) = read_resend_step(alloc, line.as_bytes())? {
            steps.push(step)?;
        }
    }
    Ok(steps)
}

// The text of the reports of at most a thousand steps.
fn printed(alloc: Global, text: &str) -> Result<Vec<u8>, NoMemory> {
    let steps = steps_of(alloc, text)?;
    let mut reports = Vec::new(alloc);
    if steps.len() <= 1000 {
        run_resend(alloc, 4096, steps, &mut reports)?;
    }
    let mut out = Vec::new(alloc);
    for report in &reports {
        put_resend_report(alloc, &mut out, report)?;
        out.push(b'\n')?;
    }
    Ok(out)
}

#[test]
fn a_run_leaves_a_report_a_step(rt: HostRuntime) -> Result<(), Fail> {
    let text = printed(rt.alloc(), STEPS)?;
    assert_eq!(rt; text.as_slice(), TEXT.as_bytes());
    Ok(())
}
