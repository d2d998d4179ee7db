//! One expected content: it waits for its header, or for bytes. Which of a channel's contents is served stands in `queue`.

ghost use Rattle.std.specs.Prelude.{◌≡◌, OnOk, OnErr, None, Some, true};
ghost use Rattle.std.specs.Option.{option_map};
ghost use Rattle.lapin_content.specs.Contents.{expected, waits_for, left_of, takes_body, grown_by, whole_of, whole_alone, is_alone, begun_by};

use crate::begun::Begun;
use crate::start::{Start, Whole};
use lapin_types::{BasicProperties, NoMemory, Payload};
use std::alloc::Global;
use std::marker::Model;

/// An expected content.
#[derive(Drop)]
pub(crate) struct Entry {
    class_id: u16,
    start: Start,
    begun: Option<Begun>,
}

impl Model for Entry {
    ghost use Rattle.lapin_content.specs.Contents.{Expected};
    ghost use Rattle.lapin_content.specs.Codes.{expected_code};

    ghost Value = { Expected };

    ghost coded = { expected_code };

    ghost view = { λ a. record { class_id = a.class_id; start = a.start; begun = a.begun } };
}

impl Entry {
    /// A content that waits for its header.
    pub(crate) fn new(class_id: u16, start: Start) -> Entry
        ensures { result ≡ expected class_id start }
    {
        Entry {
            class_id,
            start,
            begun: None,
        }
    }

    /// What began it.
    pub(crate) fn start(&self) -> &Start
        ensures { result.now ≡ self.now.start }
    {
        &self.start
    }

    /// What began it.
    pub(crate) fn into_start(self) -> Start
        ensures { result ≡ self.start }
    {
        self.start
    }

    /// Whether it waits for a header of the class.
    pub(crate) fn waits_for(&self, class_id: u16) -> bool
        ensures { result ≡ waits_for class_id self.now }
    {
        self.begun.is_none() && self.class_id == class_id
    }

    /// How many bytes it still lacks, if its header came.
    pub(crate) fn left(&self) -> Option<u64>
        ensures { result ≡ left_of self.now }
    {
        match &self.begun {
            Some(begun) => Some(begun.left()),
            None => None,
        }
    }

    /// Whether these bytes alone are the content.
    pub(crate) fn is_alone(&self, bytes: &[u8]) -> bool
        ensures { result ≡ is_alone bytes.now self.now }
    {
        match &self.begun {
            Some(begun) => begun.lacks_only(bytes),
            None => false,
        }
    }

    /// Its header came, and it has bytes.
    pub(crate) fn begin(&mut self, alloc: Global, properties: BasicProperties, size: u64)
        ensures { self.new ≡ begun_by properties size self.old }
    {
        self.begun = Some(Begun::new(alloc, properties, size));
    }

    /// Appends a body.
    pub(crate) fn append(&mut self, payload: &Payload) -> Result<(), NoMemory>
        requires { takes_body payload.now self.old ≡ true }
        ensures ok { OnOk result (self.new ≡ grown_by payload.now self.old) }
        ensures err { OnErr result (self.new ≡ self.old) }
    {
        let Some(begun) = &mut self.begun else {
            unreachable!()
        };
        begun.append(payload)
    }

    /// The content, as its bodies so far have it.
    pub(crate) fn into_whole(self) -> Option<Whole>
        ensures { result ≡ whole_of self }
    {
        let Entry { start, begun, .. } = self;
        match begun {
            Some(begun) => {
                let (properties, payload) = begun.into_parts();
                Some(Whole {
                    start,
                    properties,
                    payload,
                })
            }
            None => None,
        }
    }

    /// The content whose only body is this one: the payload itself.
    pub(crate) fn into_whole_of(self, payload: Payload) -> Option<Whole>
        ensures { result ≡ whole_alone payload self }
    {
        let Entry { start, begun, .. } = self;
        match begun {
            Some(begun) => Some(Whole {
                start,
                properties: begun.into_properties(),
                payload,
            }),
            None => None,
        }
    }
}
