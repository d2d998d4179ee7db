//! A frame that a writer could not write and gives back, by what leaves next.

use lapin_loop::give_back;
use lapin_session::Session;
use lapin_types::{ChannelMethod, ConnectionState, Error, Frame, Left, Method, Poll, ShortString};
use std::alloc::Global;
use std::process::Abort;
use std::test::Fail;

// A frame in a word: `channel.open` or its close-ok on channel 7, and whether it was handed out before.
fn told(left: &Left) -> &'static str {
    match (&left.frame, left.again) {
        (Frame::Method(7, Method::Channel(ChannelMethod::Open)), false) => "open",
        (Frame::Method(7, Method::Channel(ChannelMethod::Open)), true) => "open again",
        (Frame::Method(7, Method::Channel(ChannelMethod::CloseOk)), false) => "close-ok",
        _ => "another",
    }
}

// The next frame, which is written.
fn written(session: &mut Session, alloc: Global) -> Result<&'static str, Error> {
    match session.next_frame(alloc, true)? {
        Some(left) => {
            let word = told(&left);
            drop(left);
            Ok(word)
        }
        None => Ok("none"),
    }
}

// The next frame, which can't be written and is given back.
fn given_back(session: &mut Session, alloc: Global) -> Result<&'static str, Error> {
    match session.next_frame(alloc, true)? {
        Some(left) => {
            let word = told(&left);
            Ok(if give_back(session, left) {
                word
            } else {
                "not taken back"
            })
        }
        None => Ok("none"),
    }
}

// The broker closes channel 7.
fn closed(session: &mut Session, alloc: Global) -> Result<(), Error> {
    let reply_text = ShortString::literal(alloc, "NOT_FOUND")?;
    let close = ChannelMethod::Close {
        reply_code: 404,
        reply_text,
        class_id: 0,
        method_id: 0,
    };
    let _heard = session.receive(alloc, Frame::Method(7, Method::Channel(close)))?;
    Ok(())
}

// The frame is handed out once more, marked so, and then no further time. Its ticket and its channel are as before.
#[test]
fn a_frame_given_back_is_handed_out_once_more(rt: HostRuntime) -> Result<(), Fail> {
    let mut session = Session::new(rt.alloc(), 4096)?;
    comes_once_more(&rt, rt.alloc(), &mut session)?;
    Ok(())
}

fn comes_once_more<R: Abort>(rt: &R, alloc: Global, session: &mut Session) -> Result<(), Error> {
    let opening = session.open_channel(alloc, 7)?;
    assert!(rt; given_back(session, alloc)? == "open");
    assert!(rt; session.retrying());
    assert!(rt; written(session, alloc)? == "open again");
    assert!(rt; !session.retrying());
    assert!(rt; written(session, alloc)? == "none");
    assert!(rt; matches!(opening.poll(session)?, Poll::Pending));
    assert!(rt; session.connection_state() == ConnectionState::Open);
    Ok(())
}

// The broker closes the channel in the meantime: the frame is gone, and close-ok is what leaves next.
#[test]
fn a_frame_of_an_ended_opening_is_gone(rt: HostRuntime) -> Result<(), Fail> {
    let mut session = Session::new(rt.alloc(), 4096)?;
    goes_with_its_channel(&rt, rt.alloc(), &mut session)?;
    Ok(())
}

fn goes_with_its_channel<R: Abort>(
    rt: &R,
    alloc: Global,
    session: &mut Session,
) -> Result<(), Error> {
    let _opening = session.open_channel(alloc, 7)?;
    assert!(rt; given_back(session, alloc)? == "open");
    closed(session, alloc)?;
    assert!(rt; !session.retrying());
    assert!(rt; written(session, alloc)? == "close-ok");
    assert!(rt; written(session, alloc)? == "none");
    Ok(())
}

// The connection is lost in the meantime: the frame is gone, and nothing leaves any more.
#[test]
fn a_frame_of_a_lost_connection_is_gone(rt: HostRuntime) -> Result<(), Fail> {
    let mut session = Session::new(rt.alloc(), 4096)?;
    goes_with_its_connection(&rt, rt.alloc(), &mut session)?;
    Ok(())
}

fn goes_with_its_connection<R: Abort>(
    rt: &R,
    alloc: Global,
    session: &mut Session,
) -> Result<(), Error> {
    let _opening = session.open_channel(alloc, 7)?;
    assert!(rt; given_back(session, alloc)? == "open");
    session.lost(alloc)?;
    assert!(rt; !session.retrying());
    assert!(rt; written(session, alloc)? == "none");
    assert!(rt; session.connection_state() == ConnectionState::Lost);
    Ok(())
}
