//! The free broker: the state of a connection and of all its channels, and how reads and sends change it. What a single channel
//! keeps, and the rules for it, stand in the channel's own file.

ghost use Rattle.std.specs.Prelude.{◌≡◌, true, Some, None, OnOk, OnErr, IfOk, length};
ghost use Rattle.std.specs.Option.{option_copied};
ghost use Rattle.lapin_tables.specs.ByChannel.{at_channel};
ghost use Rattle.lapin_broker.specs.States.{new_broker, channel_at, is_broken as is_broken_lem, is_up as is_up_lem, state_of_connection, state_of_peer, owes_on, reading_on, is_sending as is_sending_lem, is_settled as is_settled_lem, after_loss};
ghost use Rattle.std.specs.List.{list_any};
ghost use Rattle.lapin_broker.specs.Plain.{is_sending_on};
ghost use Rattle.lapin_broker.specs.Tags.{has_tag as has_tag_lem};
ghost use Rattle.lapin_broker.specs.Reads.{read as read_lem, read_sorted as read_sorted_lem, read_up as read_up_lem, read_down as read_down_lem, read_piece as read_piece_lem, with_piece as with_piece_lem, read_on as read_on_lem, read_channel, number_on, admits as admits_lem, content_after as content_after_lem};
ghost use Rattle.lapin_broker.specs.Sends.{may, may_in, send as send_lem, send_on, is_read_on as is_read_on_lem};

use crate::channel::{BrokerChannel, begins, breaks};
use crate::content::Content;
use crate::frames::{BrokerFrame, ClientFrame, broker_frame, channel_of, client_frame, tag_of};
use crate::peer::{BrokerState, Connection, Peer, PeerState};
use lapin_tables::ByChannel;
use lapin_types::{Frame, NoMemory};
use std::alloc::Global;
use std::marker::Model;

/// The free broker: one side of a connection, free in all that the protocol leaves to a broker.
///
/// A read is a function of the state and the frame; a frame that a client may not send makes the broker Broken, for good. A send is
/// a choice among what `may_send` allows. Publishes of a channel are numbered from 1 from its first `confirm.select` on, and a
/// number waits to be settled by an ack or a nack. Contracts see the state as a record of plain lists.
///
/// A step's cost doesn't grow with what was read, sent or settled before, nor with the number of channels.
pub struct Broker {
    frame_max: u32,
    connection: Connection,
    channels: ByChannel<BrokerChannel>,
    // The content that is being read, with its channel.
    reading: Option<(u16, Content)>,
}

impl Drop for Broker {
    fn drop(self) {
        let Broker {
            frame_max: _,
            connection: _,
            channels: _,
            reading: _,
        } = self;
    }
}

impl Model for Broker {
    ghost use Rattle.lapin_broker.specs.States.{Broker};

    ghost Value = { Broker };

    ghost view = { λ a. record {
      frame_max = a.frame_max;
      connection = a.connection;
      channels = a.channels.entries;
      reading = a.reading;
    } };
}

impl Broker {
    /// A broker that is up, with every channel free. `frame_max` is the greatest size of a frame in bytes, 8 of which are not the
    /// payload's (AMQP 0-9-1, section 4.2.3); so a body of `frame_max` minus 8 bytes is the longest that it reads. It takes no memory
    /// yet.
    ///
    /// # Errors
    /// None today; `NoMemory` is in the type for a state that takes some.
    pub fn new(alloc: Global, frame_max: u32) -> Result<Broker, NoMemory>
        ensures { IfOk result (λ made. made ≡ new_broker frame_max) }
    {
        Ok(Broker {
            frame_max,
            connection: Connection::Up,
            channels: ByChannel::new(alloc),
            reading: None,
        })
    }

    /// Reads a frame of the client. One that the client may not send now makes the broker Broken, and is no error.
    ///
    /// # Errors
    /// `NoMemory` where there is none for what the channel keeps; nothing is read then.
    pub fn read(&mut self, alloc: Global, frame: &Frame) -> Result<(), NoMemory>
        ensures ok { OnOk result (self.new ≡ read_lem self.old frame.now) }
        ensures err { OnErr result (self.new ≡ self.old) }
    {
        let sorted = client_frame(frame);
        if sorted.is_connection_close() {
            self.connection = self.connection.after_client_close();
            return Ok(());
        }
        if sorted.is_connection_close_ok() {
            self.connection = self.connection.after_client_close_ok();
            return Ok(());
        }
        if self.connection.is_up() {
            return self.read_up(alloc, channel_of(frame), frame, sorted);
        }
        if self.connection.is_leaving() {
            self.connection = Connection::Broken;
        }
        Ok(())
    }

    fn read_up(
        &mut self,
        alloc: Global,
        channel: u16,
        frame: &Frame,
        sorted: ClientFrame,
    ) -> Result<(), NoMemory>
        ensures ok { OnOk result (self.new ≡ read_up_lem self.old.reading channel frame.now sorted self.old) }
        ensures err { OnErr result (self.new ≡ self.old) }
    {
        match self.reading {
            Some((open, content)) => {
                if open == channel {
                    return self.read_piece(channel, content, sorted);
                }
                self.connection = Connection::Broken;
                Ok(())
            }
            None => self.read_on(alloc, channel, frame, sorted),
        }
    }

    fn read_piece(
        &mut self,
        channel: u16,
        content: Content,
        sorted: ClientFrame,
    ) -> Result<(), NoMemory>
        ensures ok { OnOk result (self.new ≡ read_piece_lem channel content sorted self.old) }
        ensures err { OnErr result (self.new ≡ self.old) }
    {
        if !admits(self.frame_max, content, sorted) {
            self.connection = Connection::Broken;
            return Ok(());
        }
        let left = content_after(content, sorted);
        if !left.is_idle() {
            self.reading = Some((channel, left));
            return Ok(());
        }
        self.number(channel)?;
        self.reading = None;
        Ok(())
    }

    // A publish of a channel is whole.
    fn number(&mut self, channel: u16) -> Result<(), NoMemory>
        ensures ok { OnOk result (self.new ≡ number_on channel self.old) }
        ensures err { OnErr result (self.new ≡ self.old) }
    {
        let Some(known) = self.channels.get_mut(channel) else {
            return Ok(());
        };
        known.number()
    }

    fn read_on(
        &mut self,
        alloc: Global,
        channel: u16,
        frame: &Frame,
        sorted: ClientFrame,
    ) -> Result<(), NoMemory>
        ensures ok { OnOk result (self.new ≡ read_on_lem channel frame.now sorted self.old) }
        ensures err { OnErr result (self.new ≡ self.old) }
    {
        let peer = self.peer(channel);
        if breaks(peer, sorted) {
            self.connection = Connection::Broken;
            return Ok(());
        }
        self.change(alloc, channel, frame, sorted)?;
        if begins(peer, sorted) {
            self.reading = Some((channel, Content::Begun));
        }
        Ok(())
    }

    // A channel reads a frame that doesn't break the broker.
    fn change(
        &mut self,
        alloc: Global,
        channel: u16,
        frame: &Frame,
        sorted: ClientFrame,
    ) -> Result<(), NoMemory>
        ensures ok { OnOk result (self.new ≡ read_channel channel frame.now sorted self.old) }
        ensures err { OnErr result (self.new ≡ self.old) }
    {
        if let Some(known) = self.channels.get_mut(channel) {
            return known.read(alloc, frame, sorted);
        }
        let mut fresh = BrokerChannel::new(alloc);
        fresh.read(alloc, frame, sorted)?;
        self.channels.insert(channel, fresh)?;
        Ok(())
    }

    /// Whether the client sent what it may not send. Nothing is read or sent from then on.
    pub fn broken(&self) -> bool
        ensures { result ≡ is_broken_lem self.now.connection }
    {
        self.connection.is_broken()
    }

    /// Whether a frame may be sent in this state. It takes no memory.
    pub fn may_send(&self, frame: &Frame) -> bool
        ensures { result ≡ may self.now frame.now }
    {
        let sorted = broker_frame(frame);
        if sorted.is_connection_close() {
            return self.connection.is_up();
        }
        if sorted.is_connection_close_ok() {
            return self.connection.owes();
        }
        self.connection.is_up() && self.may_on(channel_of(frame), tag_of(frame), sorted)
    }

    fn may_on(&self, channel: u16, tag: &str, sorted: BrokerFrame) -> bool
        ensures { result ≡ may_in (channel_at self.now channel).peer (channel_at self.now channel) tag.now sorted }
    {
        match self.channels.get(channel) {
            Some(known) => known.may(tag, sorted),
            None => false,
        }
    }

    /// Sends a frame that may be sent.
    ///
    /// # Errors
    /// `NoMemory` where there is none for a tag that may be delivered to from now on; nothing is sent then.
    pub fn send(&mut self, alloc: Global, frame: &Frame) -> Result<(), NoMemory>
        requires { may self.old frame.now ≡ true }
        ensures ok { OnOk result (self.new ≡ send_lem self.old frame.now) }
        ensures err { OnErr result (self.new ≡ self.old) }
    {
        let sorted = broker_frame(frame);
        if sorted.is_connection_close() {
            self.connection = Connection::Stopped;
            return Ok(());
        }
        if sorted.is_connection_close_ok() {
            self.connection = self.connection.after_own_close_ok();
            return Ok(());
        }
        let channel = channel_of(frame);
        self.give(alloc, channel, tag_of(frame), sorted)?;
        if sorted.is_close() && is_read_on(channel, self.reading) {
            self.reading = None;
        }
        Ok(())
    }

    // A channel sends a frame.
    fn give(
        &mut self,
        alloc: Global,
        channel: u16,
        tag: &str,
        sorted: BrokerFrame,
    ) -> Result<(), NoMemory>
        ensures ok { OnOk result (self.new ≡ send_on channel tag.now sorted self.old) }
        ensures err { OnErr result (self.new ≡ self.old) }
    {
        let Some(known) = self.channels.get_mut(channel) else {
            return Ok(());
        };
        known.send(alloc, tag, sorted)
    }

    /// The connection is lost: nothing is read or sent any more. A broker that is Broken stays so.
    pub fn lose(&mut self)
        ensures { self.new ≡ after_loss self.old }
    {
        self.connection = self.connection.lost();
    }

    /// The state of the connection.
    pub fn state(&self) -> BrokerState
        ensures { result ≡ state_of_connection self.now.connection }
    {
        self.connection.state()
    }

    /// The state of a channel. One that was never asked for is free, and channel 0, which is the connection's own, always is.
    pub fn channel_state(&self, channel: u16) -> PeerState
        ensures { result ≡ state_of_peer (channel_at self.now channel).peer }
    {
        self.peer(channel).state()
    }

    /// Whether it is up.
    pub(crate) fn is_up(&self) -> bool
        ensures { result ≡ is_up_lem self.now.connection }
    {
        self.connection.is_up()
    }

    /// Whether a content is being sent on any channel.
    pub(crate) fn is_sending(&self) -> bool
        ensures { result ≡ list_any is_sending_on self.now.channels }
    {
        self.channels
            .entries()
            .iter()
            .any(|entry| entry.1.is_sending())
    }

    /// Each channel that was ever open, with what it keeps.
    pub(crate) fn channels(&self) -> &[(u16, BrokerChannel)]
        ensures { result.now ≡ self.now.channels }
    {
        self.channels.entries()
    }

    /// What a channel keeps, where it was ever open.
    pub(crate) fn channel(&self, channel: u16) -> Option<&BrokerChannel>
        ensures { option_copied result ≡ at_channel channel self.now.channels }
    {
        self.channels.get(channel)
    }

    // Where a channel stands.
    fn peer(&self, channel: u16) -> Peer
        ensures { result ≡ (channel_at self.now channel).peer }
    {
        match self.channels.get(channel) {
            Some(known) => known.peer(),
            None => Peer::Free,
        }
    }

    /// Whether a channel is stopping and owes close-ok; with 0, whether the connection is leaving, or is stopped and owes
    /// close-ok.
    pub fn owes(&self, channel: u16) -> bool
        ensures { result ≡ owes_on channel self.now }
    {
        if channel == 0 {
            self.connection.owes()
        } else {
            self.peer(channel).owes()
        }
    }

    /// The open channel whose content is being read: its next frame must be that content's header or body.
    pub fn reading(&self) -> Option<u16>
        ensures { result ≡ reading_on self.now.reading }
    {
        match self.reading {
            Some((channel, _)) => Some(channel),
            None => None,
        }
    }

    /// Whether a content is being sent on a channel.
    pub fn sending(&self, channel: u16) -> bool
        ensures { result ≡ is_sending_lem (channel_at self.now channel) }
    {
        match self.channels.get(channel) {
            Some(known) => known.is_sending(),
            None => false,
        }
    }

    /// How many requests of a channel wait for their reply.
    pub fn waiting(&self, channel: u16) -> usize
        ensures { result ≡ length (channel_at self.now channel).waiting }
    {
        match self.channels.get(channel) {
            Some(known) => known.waiting().len(),
            None => 0,
        }
    }

    /// How many publishes of a channel took a number, which is also the last number. None is taken before a `confirm.select`.
    pub fn numbered(&self, channel: u16) -> u64
        ensures { result ≡ length (channel_at self.now channel).numbers }
    {
        match self.channels.get(channel) {
            Some(known) => known.numbers().count(),
            None => 0,
        }
    }

    /// Whether a number of a channel is settled. One that no publish took isn't.
    pub fn settled(&self, channel: u16, number: u64) -> bool
        ensures { result ≡ is_settled_lem number (channel_at self.now channel).numbers }
    {
        match self.channels.get(channel) {
            Some(known) => known.is_settled(number),
            None => false,
        }
    }

    /// Whether a tag of a channel may be delivered to.
    pub fn delivers(&self, channel: u16, tag: &str) -> bool
        ensures { result ≡ has_tag_lem tag.now (channel_at self.now channel).tags }
    {
        match self.channels.get(channel) {
            Some(known) => known.delivers(tag),
            None => false,
        }
    }
}

// Whether a header or body may come next.
fn admits(frame_max: u32, content: Content, sorted: ClientFrame) -> bool
    ensures { result ≡ admits_lem frame_max content sorted }
{
    match sorted {
        ClientFrame::Header(class, _) => content.takes_header(class),
        ClientFrame::Body(size) => {
            content.takes_body(size) && size <= u64::from(frame_max).saturating_sub(8)
        }
        _ => false,
    }
}

// What is left once it came.
fn content_after(content: Content, sorted: ClientFrame) -> Content
    ensures { result ≡ content_after_lem content sorted }
{
    match sorted {
        ClientFrame::Header(_, size) => Content::of_size(size),
        ClientFrame::Body(size) => content.without_bytes(size),
        _ => content,
    }
}

fn is_read_on(channel: u16, reading: Option<(u16, Content)>) -> bool
    ensures { result ≡ is_read_on_lem channel reading }
{
    match reading {
        Some((open, _)) => open == channel,
        None => false,
    }
}
