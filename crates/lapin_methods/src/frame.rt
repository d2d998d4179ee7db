//! Content headers and frames.
//!
//! Here stand frames as data. How a publish is cut into frames and how frames are received stands in the crates above.

ghost use Rattle.std.specs.Prelude.{◌≡◌, IfOk};
ghost use Rattle.std.specs.Bool.{Decides};

use crate::method::Method;
use lapin_values::{BasicProperties, NoMemory, Payload};
use std::alloc::Global;

/// The header of a content (AMQP 0-9-1, section 4.2.6.1, "The Content Header").
#[derive(Drop)]
pub struct ContentHeader {
    /// The class of the content: 60, basic.
    pub class_id: u16,
    /// How many bytes the bodies have in all.
    pub body_size: u64,
    /// The properties of the content.
    pub properties: BasicProperties,
}

impl ContentHeader {
    /// An equal header, in memory of its own.
    pub fn try_clone(&self, alloc: Global) -> Result<ContentHeader, NoMemory>
        ensures { IfOk result (λ copy. copy ≡ self.now) }
    {
        Ok(ContentHeader {
            class_id: self.class_id,
            body_size: self.body_size,
            properties: self.properties.try_clone(alloc)?,
        })
    }

    /// Whether two headers are equal in every field.
    pub fn same(&self, other: &ContentHeader) -> bool
        ensures { Decides result (self.now ≡ other.now) }
    {
        self.class_id == other.class_id
            && self.body_size == other.body_size
            && self.properties.same(&other.properties)
    }
}

impl PartialEq for ContentHeader {
    ghost use Rattle.lapin_values.specs.Same.{same_by, same_by_per};
    ghost use Rattle.lapin_methods.specs.contracts.frame.ContentHeader as it;

    ghost eq = { same_by it.the_row.coded };

    ghost laws = { same_by_per it.the_row.coded };

    fn eq(&self, other: &ContentHeader) -> bool {
        self.same(other)
    }
}

/// A frame with the number of its channel (AMQP 0-9-1, section 4.2.3, "General Frame Format").
#[derive(Drop)]
pub enum Frame {
    /// A method.
    Method(u16, Method),
    /// The header of a content.
    Header(u16, ContentHeader),
    /// Bytes of a content.
    Body(u16, Payload),
}

impl Frame {
    /// An equal frame, in memory of its own.
    pub fn try_clone(&self, alloc: Global) -> Result<Frame, NoMemory>
        ensures { IfOk result (λ copy. copy ≡ self.now) }
    {
        match self {
            Frame::Method(channel, method) => Ok(Frame::Method(*channel, method.try_clone(alloc)?)),
            Frame::Header(channel, header) => Ok(Frame::Header(*channel, header.try_clone(alloc)?)),
            Frame::Body(channel, payload) => Ok(Frame::Body(*channel, payload.try_clone(alloc)?)),
        }
    }

    /// Whether two frames are equal in every field.
    pub fn same(&self, other: &Frame) -> bool
        ensures { Decides result (self.now ≡ other.now) }
    {
        match (self, other) {
            (Frame::Method(a, left), Frame::Method(b, right)) => a == b && left.same(right),
            (Frame::Header(a, left), Frame::Header(b, right)) => a == b && left.same(right),
            (Frame::Body(a, left), Frame::Body(b, right)) => a == b && left == right,
            _ => false,
        }
    }
}

impl PartialEq for Frame {
    ghost use Rattle.lapin_values.specs.Same.{same_by, same_by_per};
    ghost use Rattle.lapin_methods.specs.contracts.frame.Frame as it;

    ghost eq = { same_by it.the_row.coded };

    ghost laws = { same_by_per it.the_row.coded };

    fn eq(&self, other: &Frame) -> bool {
        self.same(other)
    }
}
