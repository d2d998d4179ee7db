//! A loss before each frame of a publish, and after its last, with a get and a consume that wait for their replies.
use crate::driver::shows;
use std::alloc::{AllocError, Global};
use std::test::Fail;

/// One byte more than a body frame of 4096 has room for.
const PAYLOAD: usize = 4089;

const BEGUN: &str = "= selected
call 1 basic.get x71 0 -> ticket 3
call 1 basic.consume x71 x74 0 0 0 0 {} -> ticket 4
next 1 -> frame method 1 basic.get x71 0
next 1 -> frame method 1 basic.consume x71 x74 0 0 0 0 {}
";

const LOST: &str = "lost -> lost
ticket 3 -> error ConnectionLost
ticket 4 -> error ConnectionLost
confirm 1 -> error ConnectionLost
next 1 -> noframe
state 1 -> state lost down
ticket 3 -> refused AlreadyTaken
confirm 1 -> refused AlreadyTaken
wait 1 -> returned 0
consumer 1 -> refused UnknownTicket
recv method 1 basic.ack 1 0 -> passed
call 1 basic.publish x x71 0 0 x [] -> refused InvalidChannelState down
lost -> lost
";

fn put_bytes(text: &mut String, count: usize) -> Result<(), AllocError> {
    text.push('x')?;
    for _ in 0..count {
        text.push_str("00")?;
    }
    Ok(())
}

// The history in which so many frames of the publish leave before the loss. Its ticket is answered where all four have.
fn history_of(alloc: Global, frames: usize) -> Result<String, AllocError> {
    let mut history = String::from_str(alloc, BEGUN)?;
    history.push_str("call 1 basic.publish x x71 0 0 ")?;
    put_bytes(&mut history, PAYLOAD)?;
    history.push_str(" [] -> publish 5 1\n")?;
    if 0 < frames {
        history.push_str("next 1 -> frame method 1 basic.publish x x71 0 0\n")?;
    }
    if 1 < frames {
        history.push_str("next 1 -> frame header 1 60 4089 []\n")?;
    }
    if 2 < frames {
        history.push_str("next 1 -> frame body 1 ")?;
        put_bytes(&mut history, PAYLOAD - 1)?;
        history.push_str("\n")?;
    }
    if 3 < frames {
        history.push_str("next 1 -> frame body 1 x00\n")?;
    }
    history.push_str(LOST)?;
    history.push_str(if frames == 4 {
        "ticket 5 -> answer confirm 1"
    } else {
        "ticket 5 -> error ConnectionLost"
    })?;
    Ok(history)
}

#[test]
fn any_loss(rt: HostRuntime) -> Result<(), Fail> {
    for frames in 0..5 {
        let history = history_of(rt.alloc(), frames)?;
        shows(&rt, "session", history.as_str())?;
    }
    Ok(())
}
