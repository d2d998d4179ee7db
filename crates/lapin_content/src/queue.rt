//! The contents that one channel expects, in order of their starts: what comes goes to the front. The table of all channels
//! stands in `contents`.

ghost use Rattle.std.specs.Prelude.{◌≡◌, ◌⊎◌, ◌++◌, ◌∷◌, [], OnOk, OnErr, Err, drop, true};
ghost use Rattle.std.specs.Option.{option_copied};
ghost use Rattle.lapin_content.specs.Contents.{expected, heard_header, after_header, heard_body, after_body, awaited, front_start, front_waits, front_takes, front_is_alone, front_begun, front_grown, empty_whole, front_whole, without_whole, front_alone, UnlessNoMemory};

use crate::entry::Entry;
use crate::start::{Start, Whole};
use lapin_types::{BasicProperties, Error, NoMemory, Payload};
use std::alloc::Global;
use std::collections::VecDeque;
use std::marker::Model;

/// The contents that one channel expects. Contracts see their list.
#[derive(Drop)]
pub(crate) struct Queue {
    entries: VecDeque<Entry>,
}

impl Model for Queue {
    ghost use Rattle.std.specs.Prelude.{List};
    ghost use Rattle.std.specs.Coded.{coded_list};
    ghost use Rattle.lapin_content.specs.Contents.{Expected};
    ghost use Rattle.lapin_content.specs.Codes.{expected_code};

    ghost Value = { List Expected };

    ghost coded = { coded_list expected_code };

    ghost view = { λ a. a.entries.items };
}

impl Queue {
    /// Nothing is expected. It takes no memory yet.
    pub(crate) fn new(alloc: Global) -> Queue
        ensures { result ≡ [] }
    {
        Queue {
            entries: VecDeque::new(alloc),
        }
    }

    /// One more content is expected, behind the others.
    pub(crate) fn expect(&mut self, class_id: u16, start: Start) -> Result<(), NoMemory>
        ensures ok { OnOk result (self.new ≡ self.old ++ expected class_id start ∷ []) }
        ensures err { OnErr result (self.new ≡ self.old) }
    {
        self.entries.reserve(1)?;
        self.entries.push_back_reserved(Entry::new(class_id, start));
        Ok(())
    }

    /// How many bytes the front still lacks, if its header came.
    pub(crate) fn awaits(&self) -> Option<u64>
        ensures { result ≡ awaited self.now }
    {
        match self.entries.front() {
            Some(front) => front.left(),
            None => None,
        }
    }

    /// What began the front.
    pub(crate) fn front(&self) -> Option<&Start>
        ensures { option_copied result ≡ front_start self.now }
    {
        match self.entries.front() {
            Some(front) => Some(front.start()),
            None => None,
        }
    }

    /// Takes out the front.
    pub(crate) fn reset(&mut self) -> Option<Start>
        ensures front { result ≡ front_start self.old }
        ensures rest { self.new ≡ drop 1 self.old }
    {
        match self.entries.pop_front() {
            Some(entry) => Some(entry.into_start()),
            None => None,
        }
    }

    /// Nothing is expected any more.
    pub(crate) fn clear(&mut self)
        ensures { self.new ≡ [] }
    {
        self.entries.clear();
    }

    /// A header came. The answer is the whole content where it has no byte.
    pub(crate) fn header(
        &mut self,
        alloc: Global,
        class_id: u16,
        body_size: u64,
        properties: BasicProperties,
    ) -> Result<Option<Whole>, Error>
        ensures told { result ≡ heard_header (record { class_id = class_id; body_size = body_size; properties = properties }) self.old }
        ensures queue { self.new ≡ after_header (record { class_id = class_id; body_size = body_size; properties = properties }) self.old }
    {
        if !self.waits_for(class_id) {
            self.drop_front();
            let_go(properties);
            return Err(Error::UnexpectedFrame {
                class: class_id,
                method: 0,
            });
        }
        if body_size == 0 {
            return Ok(self.take_empty(alloc, properties));
        }
        self.begin(alloc, properties, body_size);
        Ok(None)
    }

    /// A body came. The answer is the whole content where it lacks no byte now.
    pub(crate) fn body(&mut self, payload: Payload) -> Result<Option<Whole>, Error>
        ensures told { (result ≡ Err Error.NoMemory) ⊎ (result ≡ heard_body payload self.old) }
        ensures queue { UnlessNoMemory result (self.new ≡ after_body payload self.old) (self.new ≡ self.old) }
    {
        if !self.takes(payload.as_bytes()) {
            self.drop_front();
            return Err(Error::UnexpectedFrame {
                class: 0,
                method: 0,
            });
        }
        if self.is_alone(payload.as_bytes()) {
            return Ok(self.take_alone(payload));
        }
        if self.append(&payload).is_err() {
            return Err(Error::NoMemory);
        }
        Ok(self.take_whole())
    }

    /// Whether the front waits for a header of the class.
    pub(crate) fn waits_for(&self, class_id: u16) -> bool
        ensures { result ≡ front_waits class_id self.now }
    {
        match self.entries.front() {
            Some(front) => front.waits_for(class_id),
            None => false,
        }
    }

    /// Whether the front has had its header and lacks as many bytes.
    pub(crate) fn takes(&self, bytes: &[u8]) -> bool
        ensures { result ≡ front_takes bytes.now self.now }
    {
        match self.awaits() {
            Some(left) => bytes.len() as u64 <= left,
            None => false,
        }
    }

    // Whether these bytes alone are the front's content.
    fn is_alone(&self, bytes: &[u8]) -> bool
        ensures { result ≡ front_is_alone bytes.now self.now }
    {
        match self.entries.front() {
            Some(front) => front.is_alone(bytes),
            None => false,
        }
    }

    fn drop_front(&mut self)
        ensures { self.new ≡ drop 1 self.old }
    {
        let _ = self.entries.pop_front();
    }

    // The front's header came, and it has bytes.
    fn begin(&mut self, alloc: Global, properties: BasicProperties, size: u64)
        ensures { self.new ≡ front_begun properties size self.old }
    {
        match self.entries.front_mut() {
            Some(front) => front.begin(alloc, properties, size),
            None => let_go(properties),
        }
    }

    // The front grows by a body.
    fn append(&mut self, payload: &Payload) -> Result<(), NoMemory>
        requires { front_takes payload.now self.old ≡ true }
        ensures ok { OnOk result (self.new ≡ front_grown payload.now self.old) }
        ensures err { OnErr result (self.new ≡ self.old) }
    {
        let Some(front) = self.entries.front_mut() else {
            unreachable!()
        };
        front.append(payload)
    }

    // Takes out the front, whose header came and which has no byte.
    fn take_empty(&mut self, alloc: Global, properties: BasicProperties) -> Option<Whole>
        ensures whole { result ≡ empty_whole properties self.old }
        ensures rest { self.new ≡ drop 1 self.old }
    {
        match self.entries.pop_front() {
            Some(entry) => Some(Whole {
                start: entry.into_start(),
                properties,
                payload: Payload::from_bytes(Vec::new(alloc)),
            }),
            None => {
                let_go(properties);
                None
            }
        }
    }

    // Takes out the front, whose only body is this one.
    fn take_alone(&mut self, payload: Payload) -> Option<Whole>
        ensures whole { result ≡ front_alone payload self.old }
        ensures rest { self.new ≡ drop 1 self.old }
    {
        match self.entries.pop_front() {
            Some(entry) => entry.into_whole_of(payload),
            None => None,
        }
    }

    // Takes out the front where it lacks no byte.
    fn take_whole(&mut self) -> Option<Whole>
        ensures whole { result ≡ front_whole self.old }
        ensures rest { self.new ≡ without_whole self.old }
    {
        if self.awaits() != Some(0) {
            return None;
        }
        match self.entries.pop_front() {
            Some(entry) => entry.into_whole(),
            None => None,
        }
    }
}

// Drops properties, in one place.
fn let_go(_properties: BasicProperties) {}
