//! Every frame in every state: each method, a stray header and a stray body, sent to channel 0 and to a channel in each of its states,
//! while the connection is open, closing, closed and lost.
use crate::driver::shows;
use std::alloc::{AllocError, Global};
use std::test::Fail;

/// A line a frame: its text, with a mark in the place of the channel; the class and method that its refusal names; and what becomes of it
/// on channel 0, and on channel 1 closed, opening, open, closing with its close unsent, closing with its close sent, and crossed. R: it is
/// received. P: it is passed over. U: it is refused, and the connection closes. Where the channel is open or closing a request of each
/// kind of reply is open; its opening is selected where all these have left, so in the last but one state alone. Behind these stand channels
/// 0 and 1 while the connection is closing with its close unsent, closing with its close sent, closed, and lost.
const FRAMES: &str = "
method ? connection.close 320 x 0 0 | 10 50 | R U U U U U U R P R P P P P P
method ? connection.close-ok | 10 51 | U U U U U U U R P R P P P P P
method ? channel.open | 20 10 | U U U U U U U P P P P P P P P
method ? channel.open-ok | 20 11 | U U R U U U U P P P P P P P P
method ? channel.flow 1 | 20 20 | U U U R R R U P P P P P P P P
method ? channel.flow-ok 1 | 20 21 | U U U R R R U P P P P P P P P
method ? channel.close 404 x 0 0 | 20 40 | U U R R R R U P P P P P P P P
method ? channel.close-ok | 20 41 | U U U U R R R P P P P P P P P
method ? access.request x2f 0 0 0 0 0 | 30 10 | U U U U U U U P P P P P P P P
method ? access.request-ok | 30 11 | U U U R R R U P P P P P P P P
method ? exchange.declare x65 x746f706963 0 0 0 0 0 {} | 40 10 | U U U U U U U P P P P P P P P
method ? exchange.declare-ok | 40 11 | U U U R R R U P P P P P P P P
method ? exchange.delete x65 0 0 | 40 20 | U U U U U U U P P P P P P P P
method ? exchange.delete-ok | 40 21 | U U U R R R U P P P P P P P P
method ? exchange.bind x64 x73 x6b 0 {} | 40 30 | U U U U U U U P P P P P P P P
method ? exchange.bind-ok | 40 31 | U U U R R R U P P P P P P P P
method ? exchange.unbind x64 x73 x6b 0 {} | 40 40 | U U U U U U U P P P P P P P P
method ? exchange.unbind-ok | 40 51 | U U U R R R U P P P P P P P P
method ? queue.declare x71 0 0 0 0 0 {} | 50 10 | U U U U U U U P P P P P P P P
method ? queue.declare-ok x71 0 0 | 50 11 | U U U R R R U P P P P P P P P
method ? queue.bind x71 x65 x6b 0 {} | 50 20 | U U U U U U U P P P P P P P P
method ? queue.bind-ok | 50 21 | U U U R R R U P P P P P P P P
method ? queue.purge x71 0 | 50 30 | U U U U U U U P P P P P P P P
method ? queue.purge-ok 0 | 50 31 | U U U R R R U P P P P P P P P
method ? queue.delete x71 0 0 0 | 50 40 | U U U U U U U P P P P P P P P
method ? queue.delete-ok 0 | 50 41 | U U U R R R U P P P P P P P P
method ? queue.unbind x71 x65 x6b {} | 50 50 | U U U U U U U P P P P P P P P
method ? queue.unbind-ok | 50 51 | U U U R R R U P P P P P P P P
method ? basic.qos 1 0 | 60 10 | U U U U U U U P P P P P P P P
method ? basic.qos-ok | 60 11 | U U U R R R U P P P P P P P P
method ? basic.consume x71 x74 0 0 0 0 {} | 60 20 | U U U U U U U P P P P P P P P
method ? basic.consume-ok x74 | 60 21 | U U U R R R U P P P P P P P P
method ? basic.cancel x74 0 | 60 30 | U U U R R R U P P P P P P P P
method ? basic.cancel-ok x74 | 60 31 | U U U R R R U P P P P P P P P
method ? basic.publish x x71 0 0 | 60 40 | U U U U U U U P P P P P P P P
method ? basic.return 312 x x x71 | 60 50 | U U U R R R U P P P P P P P P
method ? basic.deliver x74 1 0 x x71 | 60 60 | U U U R R R U P P P P P P P P
method ? basic.get x71 0 | 60 70 | U U U U U U U P P P P P P P P
method ? basic.get-ok 1 0 x x71 0 | 60 71 | U U U R R R U P P P P P P P P
method ? basic.get-empty | 60 72 | U U U R R R U P P P P P P P P
method ? basic.ack 1 0 | 60 80 | U U U P P F U P P P P P P P P
method ? basic.reject 1 0 | 60 90 | U U U U U U U P P P P P P P P
method ? basic.recover-async 0 | 60 100 | U U U U U U U P P P P P P P P
method ? basic.recover 0 | 60 110 | U U U U U U U P P P P P P P P
method ? basic.recover-ok | 60 111 | U U U R R R U P P P P P P P P
method ? basic.nack 1 0 0 | 60 120 | U U U P P F U P P P P P P P P
method ? confirm.select 0 | 85 10 | U U U U U U U P P P P P P P P
method ? confirm.select-ok | 85 11 | U U U R R R U P P P P P P P P
method ? tx.select | 90 10 | U U U U U U U P P P P P P P P
method ? tx.select-ok | 90 11 | U U U R R R U P P P P P P P P
method ? tx.commit | 90 20 | U U U U U U U P P P P P P P P
method ? tx.commit-ok | 90 21 | U U U R R R U P P P P P P P P
method ? tx.rollback | 90 30 | U U U U U U U P P P P P P P P
method ? tx.rollback-ok | 90 31 | U U U R R R U P P P P P P P P
header ? 60 1 [] | 60 0 | U U U U U U U P P P P P P P P
body ? x61 | 0 0 | U U U U U U U P P P P P P P P
";

// How a history begins, in the order of the table. A call of each kind awaits its reply where the channel is open.
const STATES: [&str; 15] = [
    "state 1 -> state open closed",
    "state 1 -> state open closed",
    "call 1 channel.open -> ticket 1
state 1 -> state open opening",
    "= every request
state 1 -> state open open",
    "= every request
call 1 channel.close 200 x -> ticket 22
state 1 -> state open closing",
    "= every request
= every request left
state 1 -> state open closing",
    "= crossed
state 1 -> state open crossed",
    CLOSING,
    CLOSING,
    CLOSE_SENT,
    CLOSE_SENT,
    CLOSED,
    CLOSED,
    LOST,
    LOST,
];

const CLOSING: &str = "call 1 channel.open -> ticket 1
call 0 connection.close 200 x -> ticket 2
state 1 -> state closing down";

const CLOSE_SENT: &str = "call 1 channel.open -> ticket 1
call 0 connection.close 200 x -> ticket 2
next 1 -> frame method 0 connection.close 200 x 0 0
state 1 -> state closing down";

const CLOSED: &str = "call 1 channel.open -> ticket 1
recv method 0 connection.close 320 x 0 0 -> received
state 1 -> state closed down";

const LOST: &str = "call 1 channel.open -> ticket 1
lost -> lost
state 1 -> state lost down";

// What becomes of a frame, by its mark.
fn put_record(history: &mut String, mark: &str, numbers: &str) -> Result<(), AllocError> {
    match mark {
        "R" => history.push_str("received"),
        "P" => history.push_str("passed"),
        "F" => history.push_str("refused PreconditionFailed 1 0"),
        _ => {
            history.push_str("refused UnexpectedFrame ")?;
            history.push_str(numbers)
        }
    }
}

// The history of a frame on channel 0 or 1, in the state that this one begins with.
fn history_of(
    alloc: Global,
    begun: &str,
    channel: &str,
    frame: &str,
    mark: &str,
    numbers: &str,
) -> Result<String, AllocError> {
    let mut history = String::from_str(alloc, begun)?;
    history.push_str("\nrecv ")?;
    if let Some((kind, rest)) = frame.split_once('?') {
        history.push_str(kind)?;
        history.push_str(channel)?;
        history.push_str(rest)?;
    }
    history.push_str(" -> ")?;
    put_record(&mut history, mark, numbers)?;
    Ok(history)
}

// The channel that a column of the table is about.
fn channel_at(place: usize) -> &'static str {
    if matches!(place, 0 | 7 | 9 | 11 | 13) {
        "0"
    } else {
        "1"
    }
}

#[test]
fn any_frame(rt: HostRuntime) -> Result<(), Fail> {
    let alloc = rt.alloc();
    for line in FRAMES.lines() {
        if let Some((frame, rest)) = line.split_once(" | ")
            && let Some((numbers, marks)) = rest.split_once(" | ")
        {
            for (place, mark) in marks.split(' ').enumerate() {
                let begun = STATES.get(place).copied().unwrap_or("");
                let channel = channel_at(place);
                let history = history_of(alloc, begun, channel, frame, mark, numbers)?;
                shows(&rt, "session", history.as_str())?;
            }
        }
    }
    Ok(())
}
