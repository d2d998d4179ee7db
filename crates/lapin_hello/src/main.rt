//! A first program over the session: a channel is opened and asked for confirms, a message is published, and the broker confirms it.
//! The broker is a script here: with a socket, `send_all` encodes each frame and writes it, and `hear` is called with a frame that was
//! read. Copy it, and put your own calls in the place of these.
#![tactic(auto)]

use anyhow::Result;
use lapin_session::{Channel, Session};
use lapin_types::{
    BasicMethod, BasicProperties, BasicPublishOptions, ChannelMethod, ConfirmMethod,
    ConfirmSelectOptions, Frame, Method, Poll, ShortString,
};
use std::alloc::Global;

// Sends all that waits to leave.
fn send_all(rt: &HostRuntime, alloc: Global, session: &mut Session) -> Result<()> {
    for _ in 0..u64::MAX {
        match session.next_frame(alloc, true)? {
            Some(left) => {
                let shown = println!(rt; "-> {}", left.frame);
                drop(left);
                shown?;
            }
            None => return Ok(()),
        }
    }
    Ok(())
}

// Hands in a frame that the broker sent on channel 1.
fn hear(rt: &HostRuntime, alloc: Global, session: &mut Session, method: Method) -> Result<()> {
    let frame = Frame::Method(1, method);
    let shown = println!(rt; "<- {frame}");
    session.receive(alloc, frame)?;
    shown?;
    Ok(())
}

fn main(rt: HostRuntime) -> Result<()> {
    let alloc = rt.alloc();
    let mut session = Session::new(alloc, 131_072)?;
    let opening = session.open_channel(alloc, 1)?;
    send_all(&rt, alloc, &mut session)?;
    hear(
        &rt,
        alloc,
        &mut session,
        Method::Channel(ChannelMethod::OpenOk),
    )?;
    opening.poll(&mut session)?;

    let channel = Channel { id: 1 };
    let asked = channel.confirm_select(alloc, &mut session, ConfirmSelectOptions::default())?;
    send_all(&rt, alloc, &mut session)?;
    hear(
        &rt,
        alloc,
        &mut session,
        Method::Confirm(ConfirmMethod::SelectOk),
    )?;
    asked.poll(&mut session)?;

    let published = channel.basic_publish(
        alloc,
        &mut session,
        ShortString::empty(alloc)?,
        ShortString::literal(alloc, "hello")?,
        BasicPublishOptions::default(),
        b"Hello world!",
        BasicProperties::default().with_delivery_mode(2),
    )?;
    send_all(&rt, alloc, &mut session)?;
    published.ticket.poll(&mut session)?;
    let ack = BasicMethod::Ack {
        delivery_tag: 1,
        multiple: false,
    };
    hear(&rt, alloc, &mut session, Method::Basic(ack))?;
    match published.confirm.poll(&mut session)? {
        Poll::Ready(Ok(outcome)) => println!(rt; "stored: {}", outcome.is_ack())?,
        Poll::Ready(Err(error)) => println!(rt; "unsure: {error}")?,
        Poll::Pending => println!(rt; "not known yet")?,
    }
    Ok(())
}
