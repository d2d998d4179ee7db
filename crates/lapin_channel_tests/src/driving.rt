//! The loop over a wire that is a script: what it sends is told as text, and what it hears stands in a list.

use lapin_loop::{Rest, Wire, drive};
use lapin_session::Session;
use lapin_text::{read_frame, write_frame};
use lapin_types::{ChannelState, Error, Frame};
use std::alloc::Global;
use std::process::Abort;
use std::test::Fail;

/// A wire in memory: the text of the frames that it took, a line each, and the frames that are to come, last first. It takes only so many.
struct Script {
    alloc: Global,
    sent: Vec<u8>,
    room: u64,
    coming: Vec<Frame>,
}

impl Drop for Script {
    fn drop(self) {
        let Script {
            alloc: _,
            sent: _,
            room: _,
            coming: _,
        } = self;
    }
}

impl Wire for Script {
    ghost takes = { λ _ _ _ _. Unit {0} };

    ghost gives = { λ _ _ _. Unit {0} };

    fn send(&mut self, frame: &Frame) -> bool {
        if self.room == 0 {
            return false;
        }
        self.room -= 1;
        write_frame(self.alloc, &mut self.sent, frame).is_ok() && self.sent.push(b'\n').is_ok()
    }

    fn hear(&mut self) -> Option<Frame> {
        self.coming.pop()
    }
}

fn make_script(alloc: Global, room: u64, coming: &[&str]) -> Result<Script, Error> {
    let mut frames = Vec::new(alloc);
    for text in coming {
        match read_frame(alloc, text.as_bytes())? {
            Some(frame) => frames.push(frame)?,
            None => return Err(Error::UnknownTicket),
        }
    }
    Ok(Script {
        alloc,
        sent: Vec::new(alloc),
        room,
        coming: frames,
    })
}

// How a loop of turns ends, in words.
fn rested(
    alloc: Global,
    session: &mut Session,
    wire: &mut Script,
    turns: u64,
) -> Result<&'static str, Error> {
    let rest = drive(alloc, session, wire, turns)?;
    Ok(match rest {
        Some(Rest::Quiet) => "quiet",
        Some(Rest::Broken) => "broken",
        Some(
            Rest::Refused(
                Error::UnexpectedFrame {
                    class: 20,
                    method: 11,
                },
            ),
        ) => "unexpected open-ok",
        Some(Rest::Refused(_)) => "refused",
        None => "turns are over",
    })
}

fn is_sent(wire: &Script, text: &str) -> bool {
    wire.sent.as_slice() == text.as_bytes()
}

fn is_in(session: &Session, channel: u16, state: ChannelState) -> bool {
    session.channel_state(channel) == state
}

#[test]
fn all_is_sent_and_all_is_heard(rt: HostRuntime) -> Result<(), Fail> {
    let mut session = Session::new(rt.alloc(), 4096)?;
    let coming = ["method 2 channel.open-ok", "method 1 channel.open-ok"];
    let mut wire = make_script(rt.alloc(), 9, &coming)?;
    both_are_opened(&rt, rt.alloc(), &mut session, &mut wire)?;
    Ok(())
}

fn both_are_opened<R: Abort>(
    rt: &R,
    alloc: Global,
    session: &mut Session,
    wire: &mut Script,
) -> Result<(), Error> {
    session.open_channel(alloc, 1)?;
    session.open_channel(alloc, 2)?;
    assert!(rt; rested(alloc, session, wire, 100)? == "quiet");
    assert!(rt; is_sent(wire, "method 1 channel.open\nmethod 2 channel.open\n"));
    assert!(rt; is_in(session, 1, ChannelState::Open));
    assert!(rt; is_in(session, 2, ChannelState::Open));
    Ok(())
}

// No more turns are made than were allowed; the next loop goes on.
#[test]
fn a_loop_has_so_many_turns(rt: HostRuntime) -> Result<(), Fail> {
    let mut session = Session::new(rt.alloc(), 4096)?;
    let mut wire = make_script(rt.alloc(), 9, &["method 1 channel.open-ok"])?;
    turns_are_counted(&rt, rt.alloc(), &mut session, &mut wire)?;
    Ok(())
}

fn turns_are_counted<R: Abort>(
    rt: &R,
    alloc: Global,
    session: &mut Session,
    wire: &mut Script,
) -> Result<(), Error> {
    session.open_channel(alloc, 1)?;
    assert!(rt; rested(alloc, session, wire, 0)? == "turns are over");
    assert!(rt; wire.sent.is_empty());
    assert!(rt; rested(alloc, session, wire, 1)? == "turns are over");
    assert!(rt; is_sent(wire, "method 1 channel.open\n"));
    assert!(rt; is_in(session, 1, ChannelState::Opening));
    assert!(rt; rested(alloc, session, wire, 1)? == "turns are over");
    assert!(rt; is_in(session, 1, ChannelState::Open));
    assert!(rt; rested(alloc, session, wire, 1)? == "quiet");
    Ok(())
}

// A frame that the wire didn't take is sent by the next loop.
#[test]
fn a_frame_that_was_not_taken_comes_again(rt: HostRuntime) -> Result<(), Fail> {
    let mut session = Session::new(rt.alloc(), 4096)?;
    let mut wire = make_script(rt.alloc(), 0, &[])?;
    is_sent_again(&rt, rt.alloc(), &mut session, &mut wire)?;
    Ok(())
}

fn is_sent_again<R: Abort>(
    rt: &R,
    alloc: Global,
    session: &mut Session,
    wire: &mut Script,
) -> Result<(), Error> {
    session.open_channel(alloc, 1)?;
    assert!(rt; rested(alloc, session, wire, 100)? == "broken");
    assert!(rt; wire.sent.is_empty());
    wire.room = 1;
    assert!(rt; rested(alloc, session, wire, 100)? == "quiet");
    assert!(rt; is_sent(wire, "method 1 channel.open\n"));
    Ok(())
}

// A frame that is refused ends the loop, and the next one sends the close that it asks for.
#[test]
fn the_close_of_a_refused_frame_leaves(rt: HostRuntime) -> Result<(), Fail> {
    let mut session = Session::new(rt.alloc(), 4096)?;
    let mut wire = make_script(rt.alloc(), 9, &["method 1 channel.open-ok"])?;
    close_leaves(&rt, rt.alloc(), &mut session, &mut wire)?;
    Ok(())
}

fn close_leaves<R: Abort>(
    rt: &R,
    alloc: Global,
    session: &mut Session,
    wire: &mut Script,
) -> Result<(), Error> {
    assert!(rt; rested(alloc, session, wire, 100)? == "unexpected open-ok");
    assert!(rt; wire.sent.is_empty());
    let _rest = rested(alloc, session, wire, 100)?;
    assert!(rt; wire.sent.starts_with(b"method 0 connection.close 505 "));
    Ok(())
}
