//! Confirms: which tag a publish takes, what settlements and ends make of it, and where returned messages go.
ghost use Rattle.std.specs.Prelude.{◌≡◌, false, IsTrue, IsSome};
ghost use Rattle.std.specs.List.{list_any};
ghost use Rattle.lapin_tables.specs.ByChannel.{at_channel};
ghost use Rattle.lapin_confirm.specs.PublishStates.{is_open_on};

use crate::alike::put;
use crate::confirm_scripts::{
    BARE, EARLY, EMPTIED, LEAVING, REJECTS, RETURNED, SETTLEMENTS, TAGS, WINDOW,
};
use crate::script::{Part, Words, runs};
use crate::texts::{
    bit, channel, digits, done, error, failed, number, refused, returned, said, unread, unused,
};
use lapin_confirm::{Confirms, SettleKind};
use lapin_types::{BasicReturnMessage, Confirmation, Error, NoMemory, Outcome, ReturnedList};
use std::alloc::Global;
use std::test::Fail;

// Confirms, and the message that a result had last.
#[derive(Drop)]
struct Office {
    confirms: Confirms,
    message: Option<BasicReturnMessage>,
}

impl Part for Office {
    fn answer(&mut self, alloc: Global, call: &Words) -> Result<String, Fail> {
        match call.name {
            "take" => self.take(alloc, number(call.first)?),
            "bare" => bare(alloc, self.confirms.take_bare(number(call.first)?)),
            "aside" => done(alloc, self.confirms.set_aside(alloc, number(call.first)?)),
            "ready" => bit(alloc, self.confirms.ready(number(call.first)?)),
            _ => self.on_channel(alloc, channel(call.first)?, call),
        }
    }
}

impl Office {
    fn new(alloc: Global) -> Result<Office, NoMemory> {
        let confirms = Confirms::new(alloc)?;
        Ok(Office {
            confirms,
            message: None,
        })
    }

    fn take(&mut self, alloc: Global, number: u64) -> Result<String, Fail> {
        match self.confirms.take(number) {
            Ok(Some(Ok(confirmation))) => {
                let word = outcome_word(&confirmation);
                put(&mut self.message, confirmation.take_message());
                outcome(alloc, word, message_text(&self.message))
            }
            Ok(Some(Err(error))) => failed(alloc, error),
            Ok(None) => said(alloc, "none"),
            Err(error) => refused(alloc, error),
        }
    }

    fn on_channel(&mut self, alloc: Global, channel: u16, call: &Words) -> Result<String, Fail> {
        match call.name {
            "begin" => begin(&mut self.confirms, alloc, channel),
            "add" => add(&mut self.confirms, alloc, channel),
            "publish" => publish(&mut self.confirms, alloc, channel),
            "overtaken" => overtaken(&mut self.confirms, alloc, channel),
            "crossed" => crossed(&mut self.confirms, alloc, channel),
            "refuse" => refuse(&mut self.confirms, alloc, channel, error(call.second)?),
            "ack" => self.settle(alloc, channel, SettleKind::Ack, number(call.second)?),
            "nack" => self.settle(alloc, channel, SettleKind::Nack, number(call.second)?),
            "arrived" => self.arrived(alloc, channel, call.second),
            "drain" => list_text(alloc, &self.confirms.drain(alloc, channel)?),
            _ => self.changes(alloc, channel, call),
        }
    }

    fn settle(
        &mut self,
        alloc: Global,
        channel: u16,
        kind: SettleKind,
        tag: u64,
    ) -> Result<String, Fail> {
        done(alloc, self.confirms.settle_one(channel, kind, tag))
    }

    fn arrived(&mut self, alloc: Global, channel: u16, text: &str) -> Result<String, Fail> {
        let message = returned(alloc, unused(0, 0, 0), 312, text)?;
        self.confirms.arrived(alloc, channel, message)?;
        said(alloc, "done")
    }

    fn changes(&mut self, alloc: Global, channel: u16, call: &Words) -> Result<String, Fail> {
        match call.name {
            "reserve" => self.confirms.reserve(alloc, channel)?,
            "called" => self.confirms.select_called(channel),
            "select" => self.confirms.select_left(channel),
            "limit" => self.confirms.set_limit(channel, number(call.second)?),
            "ack-all" => self.confirms.settle_all(channel, SettleKind::Ack),
            "nack-all" => self.confirms.settle_all(channel, SettleKind::Nack),
            "ack-to" => settle_to(&mut self.confirms, channel, SettleKind::Ack, call.second)?,
            "nack-to" => settle_to(&mut self.confirms, channel, SettleKind::Nack, call.second)?,
            "end" => self.confirms.end(channel, error(call.second)?),
            _ => return self.reads(alloc, channel, call.name),
        }
        said(alloc, "done")
    }

    fn reads(&mut self, alloc: Global, channel: u16, name: &str) -> Result<String, Fail> {
        match name {
            "asked" => bit(alloc, self.confirms.asked(channel)),
            "selected" => bit(alloc, self.confirms.selected(channel)),
            "full" => bit(alloc, self.confirms.full(channel)),
            "current" => digits(alloc, self.confirms.current(channel)),
            "pending" => digits(alloc, self.confirms.pending(channel) as u64),
            "queued" => digits(alloc, self.confirms.queued(channel) as u64),
            "span" => digits(alloc, self.confirms.span(channel)),
            "limit-of" => digits(alloc, self.confirms.limit(channel)),
            _ => unread(alloc),
        }
    }
}

// ---- calls that ask something of the confirms

// Whether a channel is seen to have an opening: something was set on it.
fn has_opening(confirms: &Confirms, channel: u16) -> bool
    ensures { IsTrue result → IsSome (at_channel channel confirms.now.what.publish_states.confirm_modes) }
{
    confirms.selected(channel) || confirms.asked(channel) || confirms.limit(channel) > 0
}

// Whether nothing of a channel is open.
fn is_over(confirms: &Confirms, channel: u16) -> bool
    ensures { IsTrue result → list_any (is_open_on channel) confirms.now.what.publish_states.cells ≡ false }
{
    confirms.pending(channel) == 0 && confirms.queued(channel) == 0
}

fn begin(confirms: &mut Confirms, alloc: Global, channel: u16) -> Result<String, Fail> {
    if !is_over(confirms, channel) {
        return said(alloc, "open");
    }
    confirms.begin(alloc, channel)?;
    said(alloc, "done")
}

fn add(confirms: &mut Confirms, alloc: Global, channel: u16) -> Result<String, Fail> {
    if !has_opening(confirms, channel) {
        return said(alloc, "no opening");
    }
    let number = confirms.add(alloc, channel)?;
    digits(alloc, number)
}

// A publish that leaves at once: its number and its tag.
fn publish(confirms: &mut Confirms, alloc: Global, channel: u16) -> Result<String, Fail> {
    if !has_opening(confirms, channel) {
        return said(alloc, "no opening");
    }
    let number = confirms.add(alloc, channel)?;
    tagged(alloc, number, confirms.register(number))
}

// A publish that leaves behind a select which was called after it: its number and its tag.
fn overtaken(confirms: &mut Confirms, alloc: Global, channel: u16) -> Result<String, Fail> {
    if !has_opening(confirms, channel) {
        return said(alloc, "no opening");
    }
    let number = confirms.add(alloc, channel)?;
    confirms.select_left(channel);
    tagged(alloc, number, confirms.register(number))
}

// Two publishes of which the second leaves first: their numbers and tags in the order of leaving.
fn crossed(confirms: &mut Confirms, alloc: Global, channel: u16) -> Result<String, Fail> {
    if !has_opening(confirms, channel) {
        return said(alloc, "no opening");
    }
    let first = confirms.add(alloc, channel)?;
    let second = confirms.add(alloc, channel)?;
    let of_second = confirms.register(second);
    let of_first = confirms.register(first);
    let text = tagged(alloc, second, of_second)?;
    let other = tagged(alloc, first, of_first)?;
    Ok(format!(in alloc; "{} {}", text.as_str(), other.as_str())?)
}

fn tagged(alloc: Global, number: u64, tag: Option<u64>) -> Result<String, Fail> {
    match tag {
        Some(tag) => Ok(format!(in alloc; "{number} {tag}")?),
        None => Ok(format!(in alloc; "{number} -")?),
    }
}

// A publish that is rejected before it leaves: its number.
fn refuse(
    confirms: &mut Confirms,
    alloc: Global,
    channel: u16,
    error: Error,
) -> Result<String, Fail> {
    if !has_opening(confirms, channel) {
        return said(alloc, "no opening");
    }
    let number = confirms.add(alloc, channel)?;
    confirms.reject(number, error);
    digits(alloc, number)
}

fn settle_to(
    confirms: &mut Confirms,
    channel: u16,
    kind: SettleKind,
    word: &str,
) -> Result<(), Fail> {
    let tag = number(word)?;
    if tag == 0 {
        return Err(Fail::from("0 is no tag"));
    }
    confirms.settle_up_to(channel, kind, tag);
    Ok(())
}

// ---- messages and results in words

// An outcome alone, if one was given so.
fn bare(alloc: Global, given: Option<Outcome>) -> Result<String, Fail> {
    match given {
        Some(Outcome::Ack) => said(alloc, "ack"),
        Some(Outcome::Nack) => said(alloc, "nack"),
        Some(Outcome::NotRequested) => said(alloc, "not requested"),
        Some(Outcome::Failed(error)) => failed(alloc, error),
        None => said(alloc, "none"),
    }
}

fn outcome(alloc: Global, word: &str, text: &str) -> Result<String, Fail> {
    Ok(format!(in alloc; "{word} {text}")?)
}

fn outcome_word(given: &Confirmation) -> &'static str {
    match (given.is_ack(), given.is_nack()) {
        (true, false) => "ack",
        (false, true) => "nack",
        (false, false) => "not requested",
        (true, true) => "?",
    }
}

fn message_text(message: &Option<BasicReturnMessage>) -> &str {
    match message {
        Some(message) => message.reply_text.as_str(),
        None => "-",
    }
}

// How many messages, and the text of each.
fn list_text(alloc: Global, list: &ReturnedList) -> Result<String, Fail> {
    let mut text = digits(alloc, list.len() as u64)?;
    for place in 0..list.len() {
        if let Some(message) = list.at(place) {
            text.push_str(" ")?;
            text.push_str(message.reply_text.as_str())?;
        }
    }
    Ok(text)
}

#[test]
fn confirms_take_tags_and_are_settled(rt: HostRuntime) -> Result<(), Fail> {
    for script in [
        TAGS,
        LEAVING,
        SETTLEMENTS,
        WINDOW,
        RETURNED,
        EARLY,
        EMPTIED,
        REJECTS,
        BARE,
    ] {
        runs(&rt, rt.alloc(), Office::new(rt.alloc())?, script)?;
    }
    Ok(())
}
