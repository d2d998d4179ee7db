//! Contents: the methods that begin one, headers and bodies.
//!
//! The session comes here once it knows that the frame is received. How headers and bodies become a whole content stands in
//! `lapin_content`, what a whole one does in `whole`.

ghost use Rattle.std.specs.Prelude.{◌≡◌, true, IfOk, OnOk, OnErr};
ghost use Rattle.lapin_types.specs.declared.record.Record.TheVariants.{Received};
ghost use Rattle.lapin_types.specs.declared.request.ReplyKind.TheVariants.{BasicGetOk};
ghost use Rattle.lapin_rules.specs.declared.broker_frames.Incoming.TheVariants.{Content};
ghost use Rattle.lapin_rules.specs.declared.broker_frames.ContentPart.TheVariants.{GetOk, Return, Deliver};
ghost use Rattle.lapin_rules.specs.Words.{is_some};
ghost use Rattle.lapin_rules.specs.Requests.{first_request};
ghost use Rattle.lapin_rules.specs.Wire.{Wire as AWire, requests_of};
ghost use Rattle.lapin_rules.specs.Content.{receives_part as receives_part_lem, get_ticket as get_ticket_lem, whole_by, after_part};
ghost use Rattle.lapin_content.specs.Channels.{expected_on};
ghost use Rattle.lapin_rules.specs.Phases.{is_up};
ghost use Rattle.lapin_rules.specs.Unexpected.{refused};
ghost use Rattle.lapin_rules.specs.Receiving.{incoming_up};
ghost use Rattle.lapin_machine.specs.World.{receiving, readings_of};
ghost use Rattle.lapin_machine.specs.Told.{HeardTold, WasHeard};
ghost use Rattle.lapin_machine.specs.Numbers.{HasNumbers, ReceiveCause};
ghost use Rattle.lapin_machine.specs.Whole.{is_awaited};

use crate::channel::Heard;
use crate::session::Session;
use crate::whole::{complete, make_room};
use lapin_content::{Contents, Start, Whole};
use lapin_rules::{ContentPart, receives_on};
use lapin_types::{Error, ReplyKind, ShortString};
use std::alloc::Global;

/// The class of every message (AMQP 0-9-1, class basic).
const BASIC_CLASS: u16 = 60;

impl Session {
    // Whether a part of a content is received: the answer to a get where a get is open, a header or a body where the content at the
    // front of its channel waits for it.
    pub(crate) fn receives_part(&self, channel: u16, part: &ContentPart) -> bool
        ensures { result ≡ receives_part_lem channel part.now self.now.wire }
    {
        let hears = receives_on(self.channel_state(channel));
        match part {
            ContentPart::GetOk(_) => hears && self.has_get(channel),
            ContentPart::Return(_) | ContentPart::Deliver(_, _) => hears,
            ContentPart::Header(header) => {
                hears && self.contents.hears_header(channel, header.class_id)
            }
            ContentPart::Body(payload) => {
                hears && self.contents.hears_body(channel, payload.as_bytes())
            }
        }
    }

    // Whether a get is open on a channel.
    fn has_get(&self, channel: u16) -> bool
        ensures { result ≡ is_some (first_request BasicGetOk (requests_of channel self.now.wire)) }
    {
        match self
            .outstanding
            .replies
            .first(channel, ReplyKind::BasicGetOk)
        {
            Some(_) => true,
            None => false,
        }
    }

    // The ticket of the oldest get of a channel, if there is a get and somebody holds its ticket.
    fn get_ticket(&self, channel: u16) -> Option<u64>
        ensures { result ≡ get_ticket_lem channel self.now.wire }
    {
        match self
            .outstanding
            .replies
            .first(channel, ReplyKind::BasicGetOk)
        {
            Some(request) => request.ticket,
            None => None,
        }
    }

    // A part of a content that comes while the connection is open: it is received, or the connection is closed.
    #[tactic(auto, using(crate::proofs::Causes::numbers_so))]
    pub(crate) fn receive_content(
        &mut self,
        alloc: Global,
        class: u16,
        number: u16,
        channel: u16,
        part: ContentPart,
    ) -> Result<Heard, Error>
        requires { is_up self.old.wire.link ≡ true }
        ensures told { HeardTold result (incoming_up self.old.wire (readings_of self.old.confirm_state self.old.slots) (refused class number) (Content channel part)) }
        ensures ok { WasHeard result (self.new ≡ receiving (Content channel part) (incoming_up self.old.wire (readings_of self.old.confirm_state self.old.slots) (refused class number) (Content channel part)) self.old) (self.new ≡ self.old) }
        ensures cause { ReceiveCause result (Content channel part) self.old.wire }
    {
        if self.receives_part(channel, &part) {
            self.receive_part(alloc, channel, part)
        } else {
            drop(part);
            self.refuse(alloc, class, number)
        }
    }

    // A part of a content that is received.
    #[tactic(auto, using(crate::proofs::Causes::numbers_so))]
    pub(crate) fn receive_part(
        &mut self,
        alloc: Global,
        channel: u16,
        part: ContentPart,
    ) -> Result<Heard, Error>
        requires { receives_part_lem channel part self.old.wire ≡ true }
        ensures told { HeardTold result Received }
        ensures ok { WasHeard result (self.new ≡ receiving (Content channel part) Received self.old) (self.new ≡ self.old) }
        ensures cause { ReceiveCause result (Content channel part) self.old.wire }
    {
        match part {
            ContentPart::GetOk(start) => self.receive_get_ok(alloc, channel, start),
            ContentPart::Return(start) => self.receive_return(alloc, channel, start),
            ContentPart::Deliver(tag, start) => self.receive_deliver(alloc, channel, tag, start),
            part @ (ContentPart::Header(_) | ContentPart::Body(_)) => {
                self.receive_bytes(alloc, channel, part)
            }
        }
    }

    // The answer to a get: it takes the oldest get of its channel, whose content begins.
    fn receive_get_ok(&mut self, alloc: Global, channel: u16, start: Start) -> Result<Heard, Error>
        requires { receives_part_lem channel (GetOk start) self.old.wire ≡ true }
        ensures told { HeardTold result Received }
        ensures ok { WasHeard result (self.new ≡ receiving (Content channel (GetOk start)) Received self.old) (self.new ≡ self.old) }
        ensures numbers { HasNumbers result }
    {
        let start = start.for_ticket(self.get_ticket(channel));
        self.contents.expect(alloc, channel, BASIC_CLASS, start)?;
        let request = self
            .outstanding
            .replies
            .take_first(channel, ReplyKind::BasicGetOk);
        drop(request);
        Ok(Heard::Received)
    }

    // A message is given back: its content begins.
    fn receive_return(&mut self, alloc: Global, channel: u16, start: Start) -> Result<Heard, Error>
        requires { receives_part_lem channel (Return start) self.old.wire ≡ true }
        ensures told { HeardTold result Received }
        ensures ok { WasHeard result (self.new ≡ receiving (Content channel (Return start)) Received self.old) (self.new ≡ self.old) }
        ensures numbers { HasNumbers result }
    {
        self.contents.expect(alloc, channel, BASIC_CLASS, start)?;
        Ok(Heard::Received)
    }

    // A delivery for the consumer that is registered under its tag: its content begins.
    fn receive_deliver(
        &mut self,
        alloc: Global,
        channel: u16,
        tag: ShortString,
        start: Start,
    ) -> Result<Heard, Error>
        requires { receives_part_lem channel (Deliver tag start) self.old.wire ≡ true }
        ensures told { HeardTold result Received }
        ensures ok { WasHeard result (self.new ≡ receiving (Content channel (Deliver tag start)) Received self.old) (self.new ≡ self.old) }
        ensures numbers { HasNumbers result }
    {
        let start = start.for_consumer(self.deliveries.find(channel, tag.as_str()));
        self.contents.expect(alloc, channel, BASIC_CLASS, start)?;
        Ok(Heard::Received)
    }

    // A header or a body goes to the content at the front. Where the content is whole with it, the room for what it then does is made
    // first.
    #[inline(never)]
    fn receive_bytes(
        &mut self,
        alloc: Global,
        channel: u16,
        part: ContentPart,
    ) -> Result<Heard, Error>
        requires received { receives_part_lem channel part self.old.wire ≡ true }
        requires front { is_awaited part (expected_on channel self.old.wire.contents) ≡ true }
        ensures told { HeardTold result Received }
        ensures ok { WasHeard result (self.new ≡ receiving (Content channel part) Received self.old) (self.new ≡ self.old) }
        ensures cause { ReceiveCause result (Content channel part) self.old.wire }
    {
        let made = make_room(
            alloc,
            &self.contents,
            &mut self.confirms,
            &mut self.deliveries,
            channel,
            &part,
        );
        let place = match made {
            Ok(place) => place,
            Err(error) => {
                drop(part);
                return Err(error);
            }
        };
        match take_part(alloc, &mut self.contents, channel, part) {
            Ok(Some(whole)) => {
                complete(
                    alloc,
                    &mut self.outstanding,
                    &mut self.confirms,
                    &mut self.deliveries,
                    channel,
                    whole,
                    place,
                );
                Ok(Heard::Received)
            }
            Ok(None) => {
                drop(place);
                Ok(Heard::Received)
            }
            Err(_) => {
                drop(place);
                Err(Error::NoMemory)
            }
        }
    }
}

// The content at the front takes a header or a body that it waits for. The answer is the content, if it is whole now.
fn take_part(
    alloc: Global,
    contents: &mut Contents,
    channel: u16,
    part: ContentPart,
) -> Result<Option<Whole>, Error>
    requires { is_awaited part (expected_on channel contents.old) ≡ true }
    ensures told { IfOk result (λ whole. whole ≡ whole_by part (expected_on channel contents.old)) }
    ensures after { OnOk result ((b : AWire) → b.contents ≡ contents.old → after_part channel part b ≡ record b { contents = contents.new }) }
    ensures err { OnErr result (contents.new ≡ contents.old) }
{
    match part {
        ContentPart::Header(header) => contents.header(alloc, channel, header),
        ContentPart::Body(payload) => contents.body(alloc, channel, payload),
        other => {
            drop(other);
            unreachable!()
        }
    }
}
