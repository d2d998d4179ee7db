//! The contents that all channels expect.
//!
//! `basic.deliver`, `basic.get-ok` and `basic.return` announce a content on their channel; several may be announced before the
//! first is whole, and each keeps its own parts. A header or a body belongs to the front of its channel's list. One that the
//! front does not wait for is an unexpected frame, and the front is gone with it: what its bytes were to be can't be known any
//! more. What follows for the connection is the session's.

ghost use Rattle.std.specs.Prelude.{◌≡◌, ◌⊎◌, [], Err, None, IfOk, IsOk, OnOk, OnErr};
ghost use Rattle.lapin_tables.specs.ByChannel.{at_channel};
ghost use Rattle.std.specs.Option.{option_copied};
ghost use Rattle.lapin_content.specs.Contents.{awaited, front_start, front_waits, front_takes, heard_header, heard_body, UnlessNoMemory};
ghost use Rattle.lapin_content.specs.Channels.{expected_on, after_mark};
ghost use Rattle.lapin_content.specs.Marks as mark;

use crate::queue::Queue;
use crate::start::{Start, Whole};
use lapin_tables::ByChannel;
use lapin_types::{BasicProperties, ContentHeader, Error, NoMemory, Payload};
use std::alloc::Global;
use std::marker::Model;

/// The contents that all channels expect. Contracts see the channels that ever expected one, each with its list. A channel is
/// found in the same time with one and with sixty thousand.
pub struct Contents {
    channels: ByChannel<Queue>,
}

impl Drop for Contents {
    fn drop(self) {
        let Contents { channels: _ } = self;
    }
}

impl Model for Contents {
    ghost use Rattle.lapin_content.specs.Channels.{Channels};
    ghost use Rattle.lapin_content.specs.Codes.{channels_code};

    ghost Value = { Channels };

    ghost coded = { channels_code };

    ghost view = { λ a. a.channels.entries };
}

impl Contents {
    /// Nothing is expected. It takes no memory yet, so it doesn't fail.
    pub fn new(alloc: Global) -> Result<Contents, NoMemory>
        ensures made { IfOk result (λ made. made ≡ []) }
        ensures succeeds { IsOk result }
    {
        Ok(Contents {
            channels: ByChannel::new(alloc),
        })
    }

    /// A content of a class is expected on a channel, behind those that are expected there.
    ///
    /// # Errors
    ///
    /// `NoMemory`; nothing changes then.
    pub fn expect(
        &mut self,
        alloc: Global,
        channel: u16,
        class_id: u16,
        start: Start,
    ) -> Result<(), NoMemory>
        ensures ok { OnOk result (self.new ≡ after_mark self.old (mark.Awaited channel class_id start)) }
        ensures err { OnErr result (self.new ≡ self.old) }
    {
        let Some(queue) = self.channels.get_mut(channel) else {
            return self.expect_first(alloc, channel, class_id, start);
        };
        queue.expect(class_id, start)
    }

    // A content is expected on a channel that never expected one.
    fn expect_first(
        &mut self,
        alloc: Global,
        channel: u16,
        class_id: u16,
        start: Start,
    ) -> Result<(), NoMemory>
        requires { at_channel channel self.old ≡ None }
        ensures ok { OnOk result (self.new ≡ after_mark self.old (mark.Awaited channel class_id start)) }
        ensures err { OnErr result (self.new ≡ self.old) }
    {
        self.channels.reserve(channel)?;
        let mut queue = Queue::new(alloc);
        queue.expect(class_id, start)?;
        self.channels.insert_reserved(channel, queue);
        Ok(())
    }

    /// A header came on a channel: it brings the front's properties and size. The answer is the whole content where it has no
    /// byte, else None. It takes no memory, whatever size the header announces.
    ///
    /// # Errors
    ///
    /// `UnexpectedFrame` with the header's class and 0 exactly where the front doesn't wait for a header of this class. The
    /// front, if there was one, is then gone.
    pub fn header(
        &mut self,
        alloc: Global,
        channel: u16,
        header: ContentHeader,
    ) -> Result<Option<Whole>, Error>
        ensures told { result ≡ heard_header header (expected_on channel self.old) }
        ensures after { self.new ≡ after_mark self.old (mark.Header channel header) }
    {
        let ContentHeader {
            class_id,
            body_size,
            properties,
        } = header;
        self.header_of(alloc, channel, class_id, body_size, properties)
    }

    fn header_of(
        &mut self,
        alloc: Global,
        channel: u16,
        class_id: u16,
        body_size: u64,
        properties: BasicProperties,
    ) -> Result<Option<Whole>, Error>
        ensures told { result ≡ heard_header (record { class_id = class_id; body_size = body_size; properties = properties }) (expected_on channel self.old) }
        ensures after { self.new ≡ after_mark self.old (mark.Header channel (record { class_id = class_id; body_size = body_size; properties = properties })) }
    {
        let Some(queue) = self.channels.get_mut(channel) else {
            let_go(properties);
            return Err(Error::UnexpectedFrame {
                class: class_id,
                method: 0,
            });
        };
        queue.header(alloc, class_id, body_size, properties)
    }

    /// A body came on a channel: its bytes join those of the front. The answer is the whole content where it lacks no byte
    /// now, else None. A body without a byte changes nothing.
    ///
    /// # Errors
    ///
    /// `UnexpectedFrame` with 0 and 0 exactly where the front hasn't had its header or lacks fewer bytes. The front, if there
    /// was one, is then gone. `NoMemory`; nothing changes then.
    pub fn body(
        &mut self,
        _alloc: Global,
        channel: u16,
        payload: Payload,
    ) -> Result<Option<Whole>, Error>
        ensures told { (result ≡ Err Error.NoMemory) ⊎ (result ≡ heard_body payload (expected_on channel self.old)) }
        ensures after { UnlessNoMemory result (self.new ≡ after_mark self.old (mark.Body channel payload)) (self.new ≡ self.old) }
    {
        let Some(queue) = self.channels.get_mut(channel) else {
            return Err(Error::UnexpectedFrame {
                class: 0,
                method: 0,
            });
        };
        queue.body(payload)
    }

    /// Takes out the front of a channel; None exactly where nothing is expected there.
    pub fn reset(&mut self, channel: u16) -> Option<Start>
        ensures front { result ≡ front_start (expected_on channel self.old) }
        ensures after { self.new ≡ after_mark self.old (mark.Reset channel) }
    {
        let Some(queue) = self.channels.get_mut(channel) else {
            return None;
        };
        queue.reset()
    }

    /// Nothing is expected on a channel any more, as after a `reset` for each content.
    pub fn drop_channel(&mut self, channel: u16)
        ensures { self.new ≡ after_mark self.old (mark.Dropped channel) }
    {
        let Some(queue) = self.channels.get_mut(channel) else {
            return;
        };
        queue.clear();
    }

    /// Nothing is expected on any channel any more.
    pub fn drop_all(&mut self)
        ensures { self.new ≡ [] }
    {
        self.channels.clear();
    }

    /// What began the front of a channel; None exactly where nothing is expected there.
    pub fn front(&self, channel: u16) -> Option<&Start>
        ensures { option_copied result ≡ front_start (expected_on channel self.now) }
    {
        match self.channels.get(channel) {
            Some(queue) => queue.front(),
            None => None,
        }
    }

    /// Whether a header of a class would be received on a channel: its front waits for one.
    pub fn hears_header(&self, channel: u16, class_id: u16) -> bool
        ensures { result ≡ front_waits class_id (expected_on channel self.now) }
    {
        match self.channels.get(channel) {
            Some(queue) => queue.waits_for(class_id),
            None => false,
        }
    }

    /// Whether a body would be received on a channel: its front had its header and lacks at least as many bytes.
    pub fn hears_body(&self, channel: u16, body: &[u8]) -> bool
        ensures { result ≡ front_takes body.now (expected_on channel self.now) }
    {
        match self.channels.get(channel) {
            Some(queue) => queue.takes(body),
            None => false,
        }
    }

    /// How many bytes the front of a channel still awaits; None exactly where nothing is expected there or the front waits for
    /// its header.
    pub fn awaits(&self, channel: u16) -> Option<u64>
        ensures { result ≡ awaited (expected_on channel self.now) }
    {
        match self.channels.get(channel) {
            Some(queue) => queue.awaits(),
            None => None,
        }
    }
}

// Drops properties, in one place.
fn let_go(_properties: BasicProperties) {}
