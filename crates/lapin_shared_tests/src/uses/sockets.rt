//! A history of the socket's thread: frames are written, the broker's answer is heard, and a socket that takes no more is given up.

ghost use Rattle.std.specs.Prelude.{◌≡◌};

use lapin_shared::{Caller, Client, Crew};
use lapin_types::{ChannelMethod, Frame, Method};
use lapin_uses::{Socket, hang_up, hear, send_all};
use std::alloc::Global;
use std::marker::Brand;
use std::process::Abort;
use std::sync::Wait;
use std::sync::ledger::Blank;
use std::test::Fail;

// A socket that takes so many frames.
#[derive(Drop)]
struct Room {
    left: u8,
}

impl Socket for Room {
    ghost takes = { λ _ _ _ _. Unit {0} };

    fn write(&mut self, _frame: &Frame) -> bool {
        if self.left == 0 {
            return false;
        }
        self.left -= 1;
        true
    }
}

fn opens<L: Crew, R: Wait>(rt: &R, alloc: Global, caller: &mut Caller<L>, channel: u16) -> bool {
    caller.open_channel(rt, alloc, channel).is_ok()
}

// Two channels are asked for, and the frames of both are written by three requests; the broker opens the first. Then the frame of a
// third channel finds no room, and the connection is given up. Each step has the next place.
fn story<L: Crew, R: Wait + Abort>(
    rt: &R,
    alloc: Global,
    caller: &mut Caller<L>,
) -> Result<(), Fail> {
    let mut socket = Room { left: 2 };
    assert!(rt; opens(rt, alloc, caller, 1));
    assert!(rt; opens(rt, alloc, caller, 2));
    assert!(rt; send_all(rt, alloc, caller, &mut socket)?);
    let open = Frame::Method(1, Method::Channel(ChannelMethod::OpenOk));
    assert_eq!(rt; hear(rt, alloc, caller, open)?, 6);
    assert!(rt; opens(rt, alloc, caller, 3));
    assert!(rt; !send_all(rt, alloc, caller, &mut socket)?);
    assert_eq!(rt; hang_up(rt, alloc, caller)?, 9);
    Ok(())
}

fn alone<L: Crew, R: Wait + Abort>(rt: &R, alloc: Global, blank: Blank) -> Result<(), Fail>
    requires name { blank.name ≡ L.name }
    requires parts { (blank.parts ≡ 1) × (blank.parts ≡ L.parts) }
{
    let (_client, mut callers) = Client::<L>::new(alloc, 4096, 1, blank)?;
    story(rt, alloc, &mut callers[0])
}

#[test]
fn frames_are_written_until_the_socket_takes_no_more(rt: HostRuntime) -> Result<(), Fail> {
    alone::<Brand, _>(&rt, rt.alloc(), Blank::new(1))
}
