//! The transcript of a joined run: what its broker read and sent, in order, and that nothing is found in it.
use lapin_check::{Finding, Seen, check};
use lapin_joint_text::parse_steps;
use lapin_text::write_frame;
use lapin_transcript::transcript_of;
use lapin_types::NoMemory;
use std::alloc::Global;
use std::test::Fail;

// What isn't lawful, and what is on the way at a loss, is not seen.
const STEPS: &str = "frame_max 4096
client call 1 channel.open
client next 1
send method 1 basic.ack 1 0
read
send method 1 channel.open-ok
deliver
client call 1 tx.select
client next 1
lose
send method 1 tx.select-ok
";

const TEXT: &str = "up method 1 channel.open
down method 1 channel.open-ok
";

fn put_seen(alloc: Global, out: &mut Vec<u8>, seen: &Seen) -> Result<(), NoMemory> {
    match seen {
        Seen::Up(frame) => {
            out.extend_from_slice(b"up ")?;
            write_frame(alloc, out, frame)?;
        }
        Seen::Down(frame) => {
            out.extend_from_slice(b"down ")?;
            write_frame(alloc, out, frame)?;
        }
    }
    out.push(b'\n')?;
    Ok(())
}

// The text of the transcript of a run, and what is found in it.
fn seen_in(alloc: Global, input: &str) -> Result<(Vec<u8>, Finding), NoMemory> {
    let parsed = parse_steps(alloc, input.as_bytes())?;
    let mut transcript = Vec::new(alloc);
    transcript_of(alloc, 4096, parsed.steps, &mut transcript)?;
    let mut out = Vec::new(alloc);
    for seen in &transcript {
        put_seen(alloc, &mut out, seen)?;
    }
    let mut account = Vec::new(alloc);
    let finding = check(alloc, 4096, &transcript, &mut account)?;
    Ok((out, finding))
}

#[test]
fn a_transcript_has_what_the_broker_read_and_sent(rt: HostRuntime) -> Result<(), Fail> {
    let (text, finding) = seen_in(rt.alloc(), STEPS)?;
    assert_eq!(rt; text.as_slice(), TEXT.as_bytes());
    assert_eq!(rt; finding, Finding::Fine);
    Ok(())
}
