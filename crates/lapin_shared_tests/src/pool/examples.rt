//! The example of a pool: the lines of its file with the first caller's records, and then what the working caller did and the cards.
//!
//! `examples/check.py` compares the file with this run.

use crate::pool::stepping::pool;
use lapin_shared::OpenGate;
use std::test::Fail;

/// The run of the file. A line without an event is printed behind the first caller's.
const RUNS: &str = "# examples/pool-work-queue.txt
call 1 channel.open -> ticket 1
next 1 -> frame method 1 channel.open
recv method 1 channel.open-ok -> received
call 1 basic.qos 4 0 -> ticket 2
next 1 -> frame method 1 basic.qos 4 0
recv method 1 basic.qos-ok -> received
call 1 basic.consume x7461736b73 x74 0 0 0 0 {} -> ticket 3
next 1 -> frame method 1 basic.consume x7461736b73 x74 0 0 0 0 {}
recv method 1 basic.consume-ok x74 -> received
delegate 1 -> delegated
recv method 1 basic.deliver x74 1 0 x x7461736b73 -> received
recv header 1 60 4 [] -> received
recv body 1 x61206a70 -> received
recv method 1 basic.deliver x74 2 1 x x7461736b73 -> received
recv header 1 60 4 [] -> received
recv body 1 x6e6f2e31 -> received
recv method 1 basic.deliver x74 3 0 x x7461736b73 -> received
recv header 1 60 4 [] -> received
recv body 1 x6e6f2e32 -> received
recv method 1 basic.deliver x74 4 0 x x7461736b73 -> received
recv header 1 60 0 [] -> received
 -> 2 job 1 item 1 x x7461736b73 0 [] x61206a70 1
 -> 2 ticket 4
 -> 2 job 1 item 2 x x7461736b73 1 [] x6e6f2e31 2
 -> 2 ticket 5
 -> 2 job 1 item 3 x x7461736b73 0 [] x6e6f2e32 3
 -> 2 ticket 6
 -> 2 job 1 item 4 x x7461736b73 0 [] x 4
 -> 2 nojob
 -> cards 4
 -> card 2 22 1 ack 23
 -> card 2 24 2 reject 25
 -> card 2 26 3 requeue 27
 -> card 2 28 4 nothing -";

// Adds the event and the record of a line.
fn put_line(input: &mut String, output: &mut String, line: &str) -> Result<(), Fail> {
    if let Some((event, record)) = line.split_once(" -> ") {
        if !event.is_empty() {
            input.push_str(event)?;
            input.push_str("\n")?;
            output.push_str("1 ")?;
        }
        output.push_str(record)?;
        output.push_str("\n")?;
    }
    Ok(())
}

#[test]
fn the_example_runs_as_it_says(rt: HostRuntime) -> Result<(), Fail> {
    let mut input = String::from_str(rt.alloc(), "frame_max 4096\n")?;
    let mut output = String::new(rt.alloc());
    for line in RUNS.split('\n') {
        put_line(&mut input, &mut output, line)?;
    }
    let (text, _end) = pool(&rt, rt.alloc(), &OpenGate, "pool 1", &input)?;
    assert_eq!(&rt; text.as_slice(), output.as_bytes());
    Ok(())
}
