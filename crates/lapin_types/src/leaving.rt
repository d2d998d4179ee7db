//! A publish that waits to leave, and a frame as it leaves. Their order stands in the crates above.

ghost use Rattle.std.specs.Prelude.{◌≡◌, IfOk};
ghost use Rattle.std.specs.Bool.{Decides};

use lapin_methods::{BasicPublishOptions, Frame};
use lapin_values::{BasicProperties, NoMemory, Payload, ShortString};
use std::alloc::Global;

/// An accepted publish, before its frames leave.
#[derive(Debug, Drop)]
pub struct Publish {
    /// Its confirm number.
    pub confirm: u64,
    /// Its ticket.
    pub ticket: u64,
    /// Its channel.
    pub channel: u16,
    /// The exchange to publish to.
    pub exchange: ShortString,
    /// The routing key.
    pub routing_key: ShortString,
    /// The marks of `basic.publish`.
    pub options: BasicPublishOptions,
    /// The bytes of the message.
    pub payload: Payload,
    /// The properties of the message.
    pub properties: BasicProperties,
}

impl Publish {
    /// An equal publish, in memory of its own.
    pub fn try_clone(&self, alloc: Global) -> Result<Publish, NoMemory>
        ensures { IfOk result (λ copy. copy ≡ self.now) }
    {
        Ok(Publish {
            confirm: self.confirm,
            ticket: self.ticket,
            channel: self.channel,
            exchange: self.exchange.try_clone(alloc)?,
            routing_key: self.routing_key.try_clone(alloc)?,
            options: self.options,
            payload: self.payload.try_clone(alloc)?,
            properties: self.properties.try_clone(alloc)?,
        })
    }

    /// Whether two publishes are equal in every field.
    pub fn same(&self, other: &Publish) -> bool
        ensures { Decides result (self.now ≡ other.now) }
    {
        self.confirm == other.confirm
            && self.ticket == other.ticket
            && self.channel == other.channel
            && self.exchange == other.exchange
            && self.routing_key == other.routing_key
            && self.options == other.options
            && self.payload == other.payload
            && self.properties.same(&other.properties)
    }
}

impl PartialEq for Publish {
    ghost use Rattle.lapin_values.specs.Same.{same_by, same_by_per};
    ghost use Rattle.lapin_types.specs.contracts.leaving.Publish as it;

    ghost eq = { same_by it.the_row.coded };

    ghost laws = { same_by_per it.the_row.coded };

    fn eq(&self, other: &Publish) -> bool {
        self.same(other)
    }
}

/// A frame as it leaves, with whose it is.
#[derive(Debug, Drop)]
pub struct Left {
    /// The frame.
    pub frame: Frame,
    /// The ticket with which the method or the publish was pushed.
    pub ticket: Option<u64>,
    /// The confirm number of the publish, on each of its frames.
    pub publish: Option<u64>,
    /// Whether it is the method frame: of a publish its first frame, of any other method its only one.
    pub first: bool,
    /// Whether it is the last frame: of a publish its header or its last body, of any other method its only one.
    pub last: bool,
    /// Whether it was handed out before and given back.
    pub again: bool,
}

impl Left {
    /// An equal value, in memory of its own.
    pub fn try_clone(&self, alloc: Global) -> Result<Left, NoMemory>
        ensures { IfOk result (λ copy. copy ≡ self.now) }
    {
        Ok(Left {
            frame: self.frame.try_clone(alloc)?,
            ticket: self.ticket,
            publish: self.publish,
            first: self.first,
            last: self.last,
            again: self.again,
        })
    }

    /// Whether two frames leave alike, equal in every field.
    pub fn same(&self, other: &Left) -> bool
        ensures { Decides result (self.now ≡ other.now) }
    {
        self.frame.same(&other.frame)
            && self.ticket == other.ticket
            && self.publish == other.publish
            && self.first == other.first
            && self.last == other.last
            && self.again == other.again
    }
}

impl PartialEq for Left {
    ghost use Rattle.lapin_values.specs.Same.{same_by, same_by_per};
    ghost use Rattle.lapin_types.specs.contracts.leaving.Left as it;

    ghost eq = { same_by it.the_row.coded };

    ghost laws = { same_by_per it.the_row.coded };

    fn eq(&self, other: &Left) -> bool {
        self.same(other)
    }
}
