//! A publish that has begun: its method has left, and its header and bodies follow one by one.
//!
//! The order of these frames and their marks live here, the cut of the payload in `bodies`. The outbox calls this file.

ghost use Rattle.std.specs.Prelude.{◌≡◌, ℕ, true, ◌<◌, IfOk, OnOk, OnErr, drop, length, slice_get};
ghost use Rattle.lapin_types.specs.Types.method;
ghost use Rattle.lapin_types.specs.Types.basic;
ghost use Rattle.lapin_rules.specs.Frames.{is_empty, left_publish, rest_of};
ghost use Rattle.lapin_outbox.specs.Begun.{first_left};
ghost use Rattle.lapin_outbox.specs.Drops.{AreOn, told_rest};
ghost use Rattle.lapin_rules.specs.Drops.{is_rest_of};

use crate::bodies::Bodies;
use crate::dropped::Dropped;
use lapin_types::{
    BasicMethod, BasicProperties, BasicPublishOptions, ContentHeader, Frame, Left, Method,
    NoMemory, Payload, Publish, ShortString,
};
use std::alloc::Global;
use std::marker::Model;

// How many bytes a frame has beside its payload (AMQP 0-9-1, section 4.2.3).
const FRAME_OVERHEAD: u32 = 8;

// The class basic, to which each content belongs.
const BASIC_CLASS: u16 = 60;

/// What of a begun publish has not left. A contract sees the list of its entries.
#[derive(Drop)]
pub(crate) struct Begun {
    ticket: u64,
    confirm: u64,
    channel: u16,
    // Until it leaves.
    header: Option<ContentHeader>,
    bodies: Bodies,
}

impl Model for Begun {
    ghost use Rattle.std.specs.Prelude.{List};
    ghost use Rattle.lapin_rules.specs.Frames.{RestEntry};
    ghost use Rattle.std.specs.Coded.{coded_list};
    ghost use Rattle.lapin_outbox.specs.Begun.{following, frames_left};
    ghost use Rattle.lapin_outbox.specs.Codes.{rest_entry_code};

    ghost Value = { List RestEntry };

    ghost coded = { coded_list rest_entry_code };

    ghost view = { λ b. following b.ticket b.confirm (frames_left b.channel b.header b.bodies) };
}

impl Begun {
    /// Begins a publish: its method frame leaves, and the other frames follow.
    pub(crate) fn new(publish: Publish, frame_max: u32) -> (Left, Begun)
        requires { 8 < frame_max }
        ensures left { result.0 ≡ left_publish publish }
        ensures rest { result.1 ≡ rest_of frame_max publish }
    {
        let Publish {
            confirm,
            ticket,
            channel,
            exchange,
            routing_key,
            options,
            payload,
            properties,
        } = publish;
        let left = Left {
            frame: Frame::Method(channel, publish_method(exchange, routing_key, options)),
            ticket: Some(ticket),
            publish: Some(confirm),
            first: true,
            last: false,
            again: false,
        };
        let room = (frame_max - FRAME_OVERHEAD) as usize;
        let begun = Begun {
            ticket,
            confirm,
            channel,
            header: Some(header_of(&payload, properties)),
            bodies: Bodies::new(payload, room),
        };
        (left, begun)
    }

    /// Whether all frames have left.
    pub(crate) fn is_empty(&self) -> bool
        ensures { result ≡ is_empty self.now }
    {
        self.header.is_none() && self.bodies.is_empty()
    }

    /// Whether some of its frames have not left and it is of this channel.
    pub(crate) fn is_of(&self, channel: u16) -> bool
        ensures { result ≡ is_rest_of channel self.now }
    {
        !self.is_empty() && self.channel == channel
    }

    /// A law, and nothing runs: all its frames are on one channel.
    pub(crate) fn frames_are_on_one_channel(&self)
        ensures { (c : ℕ) → is_rest_of c self.now ≡ true → AreOn c self.now }
    {
        let _channel = self.channel;
    }

    /// What a drop tells of it; None where all frames have left.
    pub(crate) fn dropped(&self) -> Option<Dropped>
        ensures { result ≡ slice_get (told_rest self.now) 0 }
    {
        if self.is_empty() {
            return None;
        }
        Some(Dropped {
            ticket: Some(self.ticket),
            publish: Some(self.confirm),
        })
    }

    /// Takes out the next frame; None where all have left. Where there is no memory nothing is taken.
    #[inline(never)]
    pub(crate) fn next(&mut self, alloc: Global) -> Result<Option<Left>, NoMemory>
        ensures told { IfOk result (λ left. left ≡ first_left self.old) }
        ensures ok { OnOk result (self.new ≡ drop 1 self.old) }
        ensures err { OnErr result (self.new ≡ self.old) }
    {
        let frame = match self.header.take() {
            Some(header) => Frame::Header(self.channel, header),
            None => match self.bodies.next(alloc)? {
                Some(body) => Frame::Body(self.channel, body),
                None => return Ok(None),
            },
        };
        Ok(Some(Left {
            frame,
            ticket: Some(self.ticket),
            publish: Some(self.confirm),
            first: false,
            last: self.bodies.is_empty(),
            again: false,
        }))
    }
}

fn publish_method(
    exchange: ShortString,
    routing_key: ShortString,
    options: BasicPublishOptions,
) -> Method
    ensures { result ≡ method.Basic (basic.Publish exchange routing_key options.mandatory options.immediate) }
{
    Method::Basic(BasicMethod::Publish {
        exchange,
        routing_key,
        mandatory: options.mandatory,
        immediate: options.immediate,
    })
}

// The header of a content: how many bytes it has, and its properties.
fn header_of(payload: &Payload, properties: BasicProperties) -> ContentHeader
    ensures { result ≡ record { class_id = 60; body_size = length payload.now; properties = properties } }
{
    ContentHeader {
        class_id: BASIC_CLASS,
        body_size: payload.as_bytes().len() as u64,
        properties,
    }
}
