//! Three histories of a worker: a message of each fate, the end after a cancel, and a message whose channel ends before its turn.

use crate::uses::{CHANNEL, receive, short};
use lapin_session::{Acked, Channel, Consumer, Session};
use lapin_types::{
    BasicCancelOptions, BasicConsumeOptions, BasicMethod, BasicProperties, ChannelMethod,
    ContentHeader, Delivery, Error, FieldTable, Frame, Left, Method, Payload,
};
use lapin_uses::{Fate, Handler, Turn, take_one};
use std::alloc::Global;
use std::process::Abort;
use std::test::Fail;

// Decides by the text of a message.
#[derive(Drop)]
struct ByText;

impl Handler for ByText {
    ghost decides = { λ _ _ _ _. Unit {0} };

    fn handle(&mut self, delivery: &Delivery) -> Fate {
        match delivery.payload.as_bytes() {
            b"good" => Fate::Acknowledge,
            b"busy" => Fate::GiveBack,
            _ => Fate::Refuse,
        }
    }
}

// Consumes from a queue under the tag `t`, without wait.
fn consume(session: &mut Session, alloc: Global) -> Result<(), Error> {
    let queue = short(alloc, "mail")?;
    let tag = short(alloc, "t")?;
    let options = BasicConsumeOptions {
        nowait: true,
        ..BasicConsumeOptions::default()
    };
    let arguments = FieldTable::new(alloc);
    Channel { id: CHANNEL }.basic_consume(alloc, session, queue, tag, options, arguments)?;
    Ok(())
}

// The channel is open, and its first consumer is registered; both frames have left.
fn begin(session: &mut Session, alloc: Global) -> Result<(), Error> {
    let _ticket = session.open_channel(alloc, CHANNEL)?;
    left(session, alloc)?;
    let open = Method::Channel(ChannelMethod::OpenOk);
    receive(session, alloc, Frame::Method(CHANNEL, open))?;
    consume(session, alloc)?;
    left(session, alloc)?;
    Ok(())
}

fn deliver(alloc: Global, delivery_tag: u64) -> Result<Frame, Error> {
    let deliver = BasicMethod::Deliver {
        consumer_tag: short(alloc, "t")?,
        delivery_tag,
        redelivered: false,
        exchange: short(alloc, "")?,
        routing_key: short(alloc, "mail")?,
    };
    Ok(Frame::Method(CHANNEL, Method::Basic(deliver)))
}

// A message of four bytes comes for the consumer, in three frames.
fn hand(session: &mut Session, alloc: Global, tag: u64, text: &[u8]) -> Result<(), Error> {
    let frame = deliver(alloc, tag)?;
    receive(session, alloc, frame)?;
    let header = ContentHeader {
        class_id: 60,
        body_size: 4,
        properties: BasicProperties::default(),
    };
    receive(session, alloc, Frame::Header(CHANNEL, header))?;
    let body = Payload::new(alloc, text)?;
    receive(session, alloc, Frame::Body(CHANNEL, body))
}

fn cancel(session: &mut Session, alloc: Global) -> Result<(), Error> {
    let tag = short(alloc, "t")?;
    let options = BasicCancelOptions { nowait: true };
    let _ticket = Channel { id: CHANNEL }.basic_cancel(alloc, session, tag, options)?;
    Ok(())
}

fn close(session: &mut Session, alloc: Global) -> Result<(), Error> {
    let close = ChannelMethod::Close {
        reply_code: 404,
        reply_text: short(alloc, "NOT_FOUND")?,
        class_id: 0,
        method_id: 0,
    };
    receive(
        session,
        alloc,
        Frame::Method(CHANNEL, Method::Channel(close)),
    )
}

fn word(turn: &Turn) -> &'static str {
    match turn {
        Turn::Pending => "pending",
        Turn::End => "end",
        Turn::Failed(_) => "failed",
        Turn::Handled(handled) => match &handled.answer {
            Ok(Acked::Ticket(_)) => "ticket",
            Ok(Acked::Yes) => "yes",
            Ok(Acked::No) => "void",
            Err(_) => "unsent",
        },
    }
}

// A turn with the first consumer, in a word.
fn turn(session: &mut Session, alloc: Global) -> Result<&'static str, Error> {
    let turn = take_one(alloc, session, &Consumer { number: 1 }, &mut ByText)?;
    let word = word(&turn);
    drop(turn);
    Ok(word)
}

fn name(left: &Left) -> &'static str {
    let Frame::Method(CHANNEL, Method::Basic(method)) = &left.frame else {
        return "another";
    };
    match method {
        BasicMethod::Ack {
            delivery_tag: 1,
            multiple: false,
        } => "ack 1",
        BasicMethod::Nack {
            delivery_tag: 2,
            multiple: false,
            requeue: true,
        } => "nack 2 again",
        BasicMethod::Reject {
            delivery_tag: 3,
            requeue: false,
        } => "reject 3",
        _ => "another",
    }
}

// The next frame, in a word.
fn left(session: &mut Session, alloc: Global) -> Result<&'static str, Error> {
    match session.next_frame(alloc, true)? {
        Some(left) => {
            let name = name(&left);
            drop(left);
            Ok(name)
        }
        None => Ok("none"),
    }
}

fn turns_are<R: Abort>(
    rt: &R,
    session: &mut Session,
    alloc: Global,
    words: &[&'static str],
) -> Result<(), Error> {
    for word in words {
        assert_eq!(rt; turn(session, alloc)?, *word);
    }
    Ok(())
}

// What the handler decides on a message leaves as the method of its fate, under the message's tag.
fn each_fate<R: Abort>(rt: &R, session: &mut Session, alloc: Global) -> Result<(), Error> {
    begin(session, alloc)?;
    turns_are(rt, session, alloc, &["pending"])?;
    hand(session, alloc, 1, b"good")?;
    hand(session, alloc, 2, b"busy")?;
    hand(session, alloc, 3, b"poor")?;
    turns_are(
        rt,
        session,
        alloc,
        &["ticket", "ticket", "ticket", "pending"],
    )?;
    for expected in ["ack 1", "nack 2 again", "reject 3", "none"] {
        assert_eq!(rt; left(session, alloc)?, expected);
    }
    Ok(())
}

// What came before the cancel is handled still; then the end is there, again and again.
fn canceled<R: Abort>(rt: &R, session: &mut Session, alloc: Global) -> Result<(), Error> {
    begin(session, alloc)?;
    hand(session, alloc, 1, b"good")?;
    cancel(session, alloc)?;
    turns_are(rt, session, alloc, &["ticket", "end", "end"])
}

// The broker closes the channel before the message has its turn: it is handed out still, and void; the error and the end follow.
fn closed<R: Abort>(rt: &R, session: &mut Session, alloc: Global) -> Result<(), Error> {
    begin(session, alloc)?;
    hand(session, alloc, 1, b"good")?;
    close(session, alloc)?;
    turns_are(rt, session, alloc, &["void", "failed", "end"])
}

#[test]
fn a_message_of_each_fate(rt: HostRuntime) -> Result<(), Fail> {
    let alloc = rt.alloc();
    let mut session = Session::new(alloc, 4096)?;
    let done = each_fate(&rt, &mut session, alloc);
    drop(session);
    Ok(done?)
}

#[test]
fn the_end_after_a_cancel(rt: HostRuntime) -> Result<(), Fail> {
    let alloc = rt.alloc();
    let mut session = Session::new(alloc, 4096)?;
    let done = canceled(&rt, &mut session, alloc);
    drop(session);
    Ok(done?)
}

#[test]
fn a_message_whose_channel_has_ended(rt: HostRuntime) -> Result<(), Fail> {
    let alloc = rt.alloc();
    let mut session = Session::new(alloc, 4096)?;
    let done = closed(&rt, &mut session, alloc);
    drop(session);
    Ok(done?)
}
