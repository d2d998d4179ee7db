//! What the command prints: a delivery and its verdict, and the jobs that are none.

use crate::pool::stepping::{CONSUMING, DELIVERED, pool};
use lapin_shared::OpenGate;
use std::test::Fail;

/// What the beginning and a delivery print.
const TAKEN: &str =
    "1 ticket 1\n1 frame method 1 channel.open\n1 received\n1 ticket 2\n1 delegated\n\
1 received\n1 received\n1 received\n";

#[test]
fn a_delivery_is_acked(rt: HostRuntime) -> Result<(), Fail> {
    let mut input = String::from_str(rt.alloc(), CONSUMING)?;
    input.push_str(DELIVERED)?;
    let (text, _end) = pool(&rt, rt.alloc(), &OpenGate, "pool 1", &input)?;
    let mut want = String::from_str(rt.alloc(), TAKEN)?;
    want.push_str(
        "2 job 1 item 1 x x71 0 [] x61 1\n2 ticket 3\n2 nojob\ncards 1\ncard 2 9 1 ack 10\n",
    )?;
    assert_eq!(&rt; text.as_slice(), want.as_bytes());
    Ok(())
}

#[test]
fn a_second_delivery_is_not_queued_again(rt: HostRuntime) -> Result<(), Fail> {
    let mut input = String::from_str(rt.alloc(), CONSUMING)?;
    input.push_str(
        "recv method 1 basic.deliver x74 1 1 x x71\nrecv header 1 60 1 []\nrecv body 1 x6e\n",
    )?;
    let (text, _end) = pool(&rt, rt.alloc(), &OpenGate, "pool 1", &input)?;
    let mut want = String::from_str(rt.alloc(), TAKEN)?;
    want.push_str(
        "2 job 1 item 1 x x71 1 [] x6e 1\n2 ticket 3\n2 nojob\ncards 1\ncard 2 9 1 reject 10\n",
    )?;
    assert_eq!(&rt; text.as_slice(), want.as_bytes());
    Ok(())
}

// A worker takes a discard, an error and an end, and goes on to the delivery of the second consumer.
#[test]
fn pool_goes_on(rt: HostRuntime) -> Result<(), Fail> {
    let mut input = String::from_str(rt.alloc(), CONSUMING)?;
    input.push_str("call 1 basic.recover-async 1\nrecv method 1 channel.close 404 x 0 0\n")?;
    input.push_str("call 1 channel.open\nnext 1\nrecv method 1 channel.open-ok\n")?;
    input.push_str("call 1 basic.consume x71 x74 0 0 0 1 {}\ndelegate 2\n")?;
    input.push_str(DELIVERED)?;
    let (text, end) = pool(&rt, rt.alloc(), &OpenGate, "pool 1", &input)?;
    let tail = b"2 job 1 discard\n2 job 1 failed ProtocolError 404\n2 job 1 end\n\
2 job 2 item 1 x x71 0 [] x61 1\n2 ticket 6\n2 nojob\ncards 1\ncard 2 19 1 ack 20\n";
    assert!(&rt; text.as_slice().ends_with(tail.as_slice()));
    assert_eq!(&rt; end.cards.len(), 1);
    Ok(())
}
