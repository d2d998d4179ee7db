//! The outbox: in which order frames leave, what is given back, what drops tell, and what poison answers.
use crate::alike::put;
use crate::script::{Part, Words, runs};
use crate::texts::{bit, channel, dash, error, number, optional, refused, said, short, unread};
use lapin_outbox::{Dropped, Outbox, Pushed};
use lapin_types::{
    BasicProperties, BasicPublishOptions, Error, Frame, Left, Method, NoMemory, Payload, Publish,
    TxMethod,
};
use std::alloc::Global;
use std::test::Fail;

// An outbox, and the frame that it handed out last.
#[derive(Drop)]
struct Letterbox {
    outbox: Outbox,
    held: Option<Left>,
}

impl Part for Letterbox {
    fn answer(&mut self, alloc: Global, call: &Words) -> Result<String, Fail> {
        match call.name {
            "method" => self.method(alloc, channel(call.first)?, optional(call.second)?),
            "publish" => self.publish(alloc, call),
            "pop" => self.pop(alloc, call.first == "1", named(alloc, call)?.as_slice()),
            "retry" => self.retry(alloc),
            "drop-unbegun" => dropped(alloc, self.outbox.drop_unbegun(channel(call.first)?)),
            "drop-channel" => dropped(alloc, self.outbox.drop_channel(channel(call.first)?)),
            "drop-all" => dropped(alloc, self.outbox.drop_all()),
            "reserve" => self.reserve(alloc),
            _ => self.reads(alloc, call),
        }
    }
}

impl Letterbox {
    fn new(alloc: Global) -> Result<Letterbox, NoMemory> {
        let outbox = Outbox::new(alloc, 4096)?;
        Ok(Letterbox { outbox, held: None })
    }

    fn method(&mut self, alloc: Global, channel: u16, ticket: Option<u64>) -> Result<String, Fail> {
        let method = Method::Tx(TxMethod::Select);
        let pushed = self.outbox.push_method(alloc, channel, method, ticket)?;
        pushed_text(alloc, pushed)
    }

    fn publish(&mut self, alloc: Global, call: &Words) -> Result<String, Fail> {
        let channel = channel(call.first)?;
        let confirm = number(call.second)?;
        let length = number(call.third)?;
        let publish = made(alloc, channel, confirm, length)?;
        let pushed = self.outbox.push_publish(alloc, publish)?;
        pushed_text(alloc, pushed)
    }

    fn pop(&mut self, alloc: Global, flow: bool, full: &[u16]) -> Result<String, Fail> {
        put(&mut self.held, self.outbox.pop(alloc, flow, full)?);
        match &self.held {
            Some(left) => left_text(alloc, left),
            None => said(alloc, "none"),
        }
    }

    fn retry(&mut self, alloc: Global) -> Result<String, Fail> {
        if self.outbox.retrying() {
            return said(alloc, "retrying");
        }
        match self.held.take() {
            Some(left) => self.outbox.retry(left),
            None => return said(alloc, "nothing"),
        }
        said(alloc, "done")
    }

    fn reserve(&mut self, alloc: Global) -> Result<String, Fail> {
        self.outbox.reserve(alloc)?;
        said(alloc, "done")
    }

    fn reads(&mut self, alloc: Global, call: &Words) -> Result<String, Fail> {
        match call.name {
            "retrying" => bit(alloc, self.outbox.retrying()),
            "pending" => bit(alloc, self.outbox.has_pending()),
            "amid" => bit(alloc, self.outbox.is_amid(channel(call.first)?)),
            "poisoned" => poison_text(alloc, self.outbox.poisoned(channel(call.first)?)),
            _ => self.poisons(alloc, call),
        }
    }

    fn poisons(&mut self, alloc: Global, call: &Words) -> Result<String, Fail> {
        match call.name {
            "poison" => self.outbox.poison(error(call.first)?),
            "heal" => self.outbox.drop_poison(),
            "poison-channel" => {
                self.outbox
                    .poison_channel(alloc, channel(call.first)?, error(call.second)?)?
            }
            "heal-channel" => self.outbox.drop_channel_poison(channel(call.first)?),
            "let-go" => self.outbox.let_go(channel(call.first)?),
            "let-go-all" => self.outbox.let_go_all(),
            _ => return unread(alloc),
        }
        said(alloc, "done")
    }
}

// The full channels that a request names.
fn named(alloc: Global, call: &Words) -> Result<Vec<u16>, Fail> {
    let mut full = Vec::new(alloc);
    for word in [call.second, call.third, call.fourth] {
        if !word.is_empty() {
            full.push(channel(word)?)?;
        }
    }
    Ok(full)
}

// A publish whose ticket is its confirm's number and 10, of so many bytes.
fn made(alloc: Global, channel: u16, confirm: u64, length: u64) -> Result<Publish, Fail> {
    Ok(Publish {
        confirm,
        ticket: confirm.saturating_add(10),
        channel,
        exchange: short(alloc, "x")?,
        routing_key: short(alloc, "q")?,
        options: BasicPublishOptions::default(),
        payload: bytes(alloc, length)?,
        properties: BasicProperties::default(),
    })
}

fn bytes(alloc: Global, length: u64) -> Result<Payload, Fail> {
    let mut bytes = Vec::new(alloc);
    bytes.resize(length as usize, b'a')?;
    Ok(Payload::from_bytes(bytes))
}

fn pushed_text(alloc: Global, pushed: Pushed) -> Result<String, Fail> {
    match pushed {
        Pushed::Queued => said(alloc, "queued"),
        Pushed::Poisoned(error) => refused(alloc, error),
    }
}

fn poison_text(alloc: Global, poison: Option<Error>) -> Result<String, Fail> {
    match poison {
        Some(error) => refused(alloc, error),
        None => said(alloc, "-"),
    }
}

// The ticket and the confirm of an entry that was taken out.
fn dropped(alloc: Global, dropped: Option<Dropped>) -> Result<String, Fail> {
    match dropped {
        Some(dropped) => pair(alloc, dropped.ticket, dropped.publish),
        None => said(alloc, "none"),
    }
}

fn pair(alloc: Global, ticket: Option<u64>, publish: Option<u64>) -> Result<String, Fail> {
    let ticket = dash(alloc, ticket)?;
    let publish = dash(alloc, publish)?;
    Ok(format!(in alloc; "{} {}", ticket.as_str(), publish.as_str())?)
}

// The frame, its ticket and confirm, and its marks.
fn left_text(alloc: Global, left: &Left) -> Result<String, Fail> {
    let frame = frame_text(alloc, &left.frame)?;
    let pair = pair(alloc, left.ticket, left.publish)?;
    let marks = marks(left.first, left.last);
    let again = if left.again { " again" } else { "" };
    Ok(format!(in alloc; "{} {} {marks}{again}", frame.as_str(), pair.as_str())?)
}

// A method with its class and number, a header with its size, a body with its length.
fn frame_text(alloc: Global, frame: &Frame) -> Result<String, Fail> {
    match frame {
        Frame::Method(channel, method) => numbered(alloc, *channel, method),
        Frame::Header(channel, header) => {
            Ok(format!(in alloc; "header {channel} {}", header.body_size)?)
        }
        Frame::Body(channel, payload) => {
            Ok(format!(in alloc; "body {channel} {}", payload.as_bytes().len())?)
        }
    }
}

fn numbered(alloc: Global, channel: u16, method: &Method) -> Result<String, Fail> {
    let class = method.class_id();
    let number = method.method_id();
    Ok(format!(in alloc; "method {channel} {class}.{number}")?)
}

fn marks(first: bool, last: bool) -> &'static str {
    match (first, last) {
        (true, true) => "first last",
        (true, false) => "first",
        (false, true) => "last",
        (false, false) => "amid",
    }
}

// tx.select is 90.10, basic.publish 60.40. What follows a begun publish goes before methods, methods before publishes, and no
// publish begins without flow. A body has at most 4096 - 8 bytes.
const ORDER: &str = "\
    pending -> no
    pop 1 -> none
    publish 1 1 5000 -> queued
    publish 2 2 0 -> queued
    method 1 5 -> queued
    method 2 - -> queued
    pending -> yes
    pop 0 -> method 1 90.10 5 - first last
    pop 0 -> method 2 90.10 - - first last
    pop 0 -> none
    amid 1 -> no
    pop 1 -> method 1 60.40 11 1 first
    amid 1 -> yes
    amid 2 -> no
    method 3 6 -> queued
    pop 0 -> header 1 5000 11 1 amid
    pop 0 -> body 1 4088 11 1 amid
    pop 0 -> body 1 912 11 1 last
    amid 1 -> no
    pop 1 -> method 3 90.10 6 - first last
    pop 1 -> method 2 60.40 12 2 first
    pop 1 -> header 2 0 12 2 last
    pop 1 -> none
    pending -> no";

// A payload of 4088 bytes has one body, one of 4089 two.
const CUTS: &str = "\
    publish 1 1 4088 -> queued
    publish 1 2 4089 -> queued
    reserve -> done
    pop 1 -> method 1 60.40 11 1 first
    pop 1 -> header 1 4088 11 1 amid
    pop 1 -> body 1 4088 11 1 last
    pop 1 -> method 1 60.40 12 2 first
    pop 1 -> header 1 4089 12 2 amid
    pop 1 -> body 1 4088 12 2 amid
    pop 1 -> body 1 1 12 2 last
    pop 1 -> none";

// A frame that is given back comes next, whatever waits and without flow, marked so, and once; what leaves behind it isn't marked.
const RETRIES: &str = "\
    publish 1 1 3 -> queued
    retry -> nothing
    pop 1 -> method 1 60.40 11 1 first
    method 2 5 -> queued
    retrying -> no
    retry -> done
    retrying -> yes
    pending -> yes
    pop 0 -> method 1 60.40 11 1 first again
    retrying -> no
    pop 0 -> header 1 3 11 1 amid
    retry -> done
    pop 0 -> header 1 3 11 1 amid again
    retry -> done
    pop 0 -> header 1 3 11 1 amid again
    pop 0 -> body 1 3 11 1 last
    pop 0 -> method 2 90.10 5 - first last
    retry -> done
    pending -> yes
    let-go 1 -> done
    retrying -> yes
    let-go 2 -> done
    retrying -> no
    pop 1 -> none
    method 2 6 -> queued
    pop 1 -> method 2 90.10 6 - first last
    retry -> done
    let-go-all -> done
    pending -> no";

// Each of the four frames of a publish of 4089 bytes is given back, and comes once more; the bodies have the payload's bytes all the same.
const EACH_RETRIED: &str = "\
    publish 1 1 4089 -> queued
    pop 1 -> method 1 60.40 11 1 first
    retry -> done
    pop 0 -> method 1 60.40 11 1 first again
    pop 0 -> header 1 4089 11 1 amid
    retry -> done
    pop 0 -> header 1 4089 11 1 amid again
    pop 0 -> body 1 4088 11 1 amid
    retry -> done
    pop 0 -> body 1 4088 11 1 amid again
    pop 0 -> body 1 1 11 1 last
    retry -> done
    pop 0 -> body 1 1 11 1 last again
    pop 1 -> none
    pending -> no";

// Publishes of full channels wait, and the first of a channel that isn't full goes, however many wait in front of it. One that
// was passed over goes before all behind it as soon as its channel is full no more.
const FULL: &str = "\
    publish 1 1 0 -> queued
    publish 2 2 0 -> queued
    publish 1 3 0 -> queued
    publish 3 4 0 -> queued
    publish 2 5 0 -> queued
    publish 3 6 0 -> queued
    pop 1 1 2 3 -> none
    pop 0 -> none
    pop 0 1 2 -> none
    method 1 7 -> queued
    pop 1 1 2 3 -> method 1 90.10 7 - first last
    pop 1 1 2 -> method 3 60.40 14 4 first
    pop 1 1 2 3 -> header 3 0 14 4 last
    pop 1 1 2 -> method 3 60.40 16 6 first
    retry -> done
    pop 0 1 2 3 -> method 3 60.40 16 6 first again
    pop 1 3 -> header 3 0 16 6 last
    pop 1 1 -> method 2 60.40 12 2 first
    pop 1 -> header 2 0 12 2 last
    publish 3 8 0 -> queued
    pop 1 1 2 -> method 3 60.40 18 8 first
    pop 1 -> header 3 0 18 8 last
    pop 1 2 -> method 1 60.40 11 1 first
    pop 1 -> header 1 0 11 1 last
    pop 1 2 -> method 1 60.40 13 3 first
    pop 1 -> header 1 0 13 3 last
    pop 1 2 -> none
    pending -> yes
    pop 1 -> method 2 60.40 15 5 first
    pop 1 2 -> header 2 0 15 5 last
    pop 1 -> none
    pending -> no";

// Drops take publishes that were passed over as they take others, and what joins behind them is found.
const FULL_DROPS: &str = "\
    publish 1 1 0 -> queued
    publish 2 2 0 -> queued
    publish 1 3 0 -> queued
    publish 3 4 0 -> queued
    pop 1 1 2 3 -> none
    drop-unbegun 1 -> 11 1
    pop 1 2 3 -> method 1 60.40 13 3 first
    pop 1 -> header 1 0 13 3 last
    publish 1 5 0 -> queued
    drop-channel 2 -> 12 2
    drop-channel 2 -> none
    publish 2 6 0 -> queued
    pop 1 3 -> method 1 60.40 15 5 first
    pop 1 -> header 1 0 15 5 last
    pop 1 3 2 -> none
    drop-unbegun 3 -> 14 4
    publish 3 7 0 -> queued
    publish 2 8 0 -> queued
    pop 1 3 -> method 2 60.40 16 6 first
    pop 1 -> header 2 0 16 6 last
    pop 1 2 -> method 3 60.40 17 7 first
    pop 1 -> header 3 0 17 7 last
    pop 1 2 -> none
    drop-all -> 18 8
    pop 1 2 -> none
    publish 4 9 0 -> queued
    publish 2 10 0 -> queued
    pop 1 4 2 -> none
    drop-all -> 19 9
    pop 1 4 -> method 2 60.40 20 10 first
    pop 1 -> header 2 0 20 10 last
    pop 1 -> none
    pending -> no";

// A drop of a channel tells of the frame that was given back, of what is left of a begun publish as one, of methods, of publishes.
const DROPS: &str = "\
    drop-all -> none
    drop-channel 1 -> none
    publish 1 1 3 -> queued
    publish 1 2 3 -> queued
    publish 2 3 3 -> queued
    publish 1 4 3 -> queued
    method 1 5 -> queued
    method 2 - -> queued
    method 2 6 -> queued
    drop-unbegun 2 -> 13 3
    drop-unbegun 2 -> none
    drop-unbegun 1 -> 11 1
    pop 1 -> method 1 90.10 5 - first last
    pop 1 -> method 2 90.10 - - first last
    pop 1 -> method 2 90.10 6 - first last
    pop 1 -> method 1 60.40 12 2 first
    method 1 7 -> queued
    publish 3 8 3 -> queued
    retry -> done
    drop-channel 2 -> none
    drop-channel 1 -> 12 2
    retrying -> no
    amid 1 -> yes
    drop-channel 1 -> 12 2
    amid 1 -> no
    drop-channel 1 -> 7 -
    drop-channel 1 -> 14 4
    drop-channel 1 -> none
    method 2 9 -> queued
    drop-all -> 9 -
    drop-all -> 18 8
    drop-all -> none
    pending -> no";

// The channel's error goes before the outbox's, and a push that meets one queues nothing.
const POISON: &str = "\
    poisoned 1 -> -
    poison lost -> done
    poison-channel 1 404 -> done
    poisoned 1 -> ProtocolError 404
    poisoned 2 -> ConnectionLost
    method 1 1 -> ProtocolError 404
    publish 1 1 3 -> ProtocolError 404
    method 2 1 -> ConnectionLost
    publish 2 1 3 -> ConnectionLost
    pending -> no
    heal-channel 1 -> done
    poisoned 1 -> ConnectionLost
    poison-channel 1 406 -> done
    heal -> done
    method 1 1 -> ProtocolError 406
    method 2 1 -> queued
    pop 1 -> method 2 90.10 1 - first last
    heal-channel 1 -> done
    heal-channel 1 -> done
    publish 1 1 3 -> queued
    poison lost -> done
    pop 1 -> method 1 60.40 11 1 first";

#[test]
fn frames_leave_in_order(rt: HostRuntime) -> Result<(), Fail> {
    for script in [
        ORDER,
        CUTS,
        RETRIES,
        EACH_RETRIED,
        FULL,
        FULL_DROPS,
        DROPS,
        POISON,
    ] {
        runs(&rt, rt.alloc(), Letterbox::new(rt.alloc())?, script)?;
    }
    Ok(())
}
