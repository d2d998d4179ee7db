//! A channel of the broker: where it stands, and what it keeps while it isn't free.

ghost use Rattle.std.specs.Prelude.{◌≡◌, [], OnOk, OnErr};
ghost use Rattle.lapin_broker.specs.States.{free_channel, is_settled as is_settled_lem, is_sending as is_sending_lem};
ghost use Rattle.lapin_broker.specs.Tags.{has_tag as has_tag_lem};
ghost use Rattle.lapin_broker.specs.Reads.{breaks_in, breaks_open as breaks_open_lem, begins_in, read_in, read_open as read_open_lem, read_stopping as read_stopping_lem, read_owing as read_owing_lem, with_request, with_next_number};
ghost use Rattle.lapin_broker.specs.Sends.{may_in, may_open as may_open_lem, may_start as may_start_lem, may_leave as may_leave_lem, first_is as first_is_lem, first_name as first_name_lem, none_waits as none_waits_lem, after_send, after_reply, after_close_ok as after_close_ok_lem};

use crate::content::Content;
use crate::frames::{BrokerFrame, ClientFrame, echo_of, tag_of};
use crate::numbers::{is_settled, may_settle, settle, take_number};
use crate::peer::Peer;
use crate::request::{Request, RequestKind};
use crate::tags::{add_tag, has_tag, is_empty, remove_tag, same_text};
use lapin_tables::Numbered;
use lapin_types::{Frame, NoMemory, ShortString};
use std::alloc::Global;
use std::collections::VecDeque;
use std::marker::Model;

/// A channel of the broker.
#[derive(Drop)]
pub(crate) struct BrokerChannel {
    // Where it stands.
    peer: Peer,
    // Whether a `confirm.select` was read.
    selected: bool,
    // Of the whole publishes that were read since then: which aren't settled.
    numbers: Numbered<()>,
    // The requests that wait, in order.
    waiting: VecDeque<Request>,
    // The tags that may be delivered to.
    tags: Vec<ShortString>,
    // The content that is being sent.
    sending: Content,
}

impl Model for BrokerChannel {
    ghost use Rattle.lapin_broker.specs.States.{Channel};

    ghost Value = { Channel };

    ghost view = { λ a. record {
      peer = a.peer;
      selected = a.selected;
      numbers = a.numbers.slots;
      waiting = a.waiting.items;
      tags = a.tags.items;
      sending = a.sending;
    } };
}

impl BrokerChannel {
    /// A free channel. It takes no memory yet.
    pub(crate) fn new(alloc: Global) -> BrokerChannel
        ensures { result ≡ free_channel }
    {
        BrokerChannel {
            peer: Peer::Free,
            selected: false,
            numbers: Numbered::new(alloc),
            waiting: VecDeque::new(alloc),
            tags: Vec::new(alloc),
            sending: Content::Idle,
        }
    }

    /// Where it stands.
    pub(crate) fn peer(&self) -> Peer
        ensures { result ≡ self.now.peer }
    {
        self.peer
    }

    /// Whether a content is being sent.
    pub(crate) fn is_sending(&self) -> bool
        ensures { result ≡ is_sending_lem self.now }
    {
        !self.sending.is_idle()
    }

    /// The requests that wait.
    pub(crate) fn waiting(&self) -> &VecDeque<Request>
        ensures { result.now.items ≡ self.now.waiting }
    {
        &self.waiting
    }

    /// The numbers.
    pub(crate) fn numbers(&self) -> &Numbered<()>
        ensures { result.now.slots ≡ self.now.numbers }
    {
        &self.numbers
    }

    /// Whether a number is settled.
    pub(crate) fn is_settled(&self, number: u64) -> bool
        ensures { result ≡ is_settled_lem number self.now.numbers }
    {
        is_settled(&self.numbers, number)
    }

    /// Whether a tag may be delivered to.
    pub(crate) fn delivers(&self, tag: &str) -> bool
        ensures { result ≡ has_tag_lem tag.now self.now.tags }
    {
        has_tag(self.tags.as_slice(), tag)
    }

    /// A frame of the client is read that doesn't break the broker. Where there is no memory nothing changes.
    pub(crate) fn read(
        &mut self,
        alloc: Global,
        frame: &Frame,
        sorted: ClientFrame,
    ) -> Result<(), NoMemory>
        ensures ok { OnOk result (self.new ≡ read_in self.old.peer frame.now self.old sorted) }
        ensures err { OnErr result (self.new ≡ self.old) }
    {
        match self.peer {
            Peer::Free => {
                if sorted.is_open() {
                    self.peer = Peer::Asked;
                }
                Ok(())
            }
            Peer::Open => self.read_open(alloc, frame, sorted),
            Peer::Stopping => {
                self.read_stopping(alloc, sorted);
                Ok(())
            }
            Peer::StoppingOwes => {
                self.read_owing(sorted);
                Ok(())
            }
            _ => Ok(()),
        }
    }

    fn read_open(
        &mut self,
        alloc: Global,
        frame: &Frame,
        sorted: ClientFrame,
    ) -> Result<(), NoMemory>
        ensures ok { OnOk result (self.new ≡ read_open_lem frame.now self.old sorted) }
        ensures err { OnErr result (self.new ≡ self.old) }
    {
        match sorted {
            ClientFrame::Select(true) => {
                self.ask(alloc, RequestKind::Select, frame)?;
                self.selected = true;
                Ok(())
            }
            ClientFrame::Select(false) => {
                self.selected = true;
                Ok(())
            }
            ClientFrame::Ask(kind) => self.ask(alloc, kind, frame),
            ClientFrame::Consume => add_tag(alloc, &mut self.tags, tag_of(frame)),
            ClientFrame::Cancel => {
                remove_tag(&mut self.tags, tag_of(frame));
                Ok(())
            }
            ClientFrame::Close => {
                self.peer = Peer::Leaving;
                Ok(())
            }
            _ => Ok(()),
        }
    }

    // A request joins those that wait.
    fn ask(&mut self, alloc: Global, kind: RequestKind, frame: &Frame) -> Result<(), NoMemory>
        ensures ok { OnOk result (self.new ≡ with_request kind frame.now self.old) }
        ensures err { OnErr result (self.new ≡ self.old) }
    {
        let echo = echo_of(alloc, frame)?;
        self.waiting.push_back(Request { kind, echo })?;
        Ok(())
    }

    fn read_stopping(&mut self, alloc: Global, sorted: ClientFrame)
        ensures { self.new ≡ read_stopping_lem self.old sorted }
    {
        match sorted {
            ClientFrame::Close => self.peer = Peer::StoppingOwes,
            ClientFrame::CloseOk => *self = BrokerChannel::new(alloc),
            _ => {}
        }
    }

    fn read_owing(&mut self, sorted: ClientFrame)
        ensures { self.new ≡ read_owing_lem self.old sorted }
    {
        if let ClientFrame::CloseOk = sorted {
            self.peer = Peer::StoppingAnswered;
        }
    }

    /// A whole publish was read: it takes the next number where a `confirm.select` was read.
    pub(crate) fn number(&mut self) -> Result<(), NoMemory>
        ensures ok { OnOk result (self.new ≡ with_next_number self.old) }
        ensures err { OnErr result (self.new ≡ self.old) }
    {
        if self.selected {
            take_number(&mut self.numbers)?;
        }
        Ok(())
    }

    /// Whether a frame that names a tag may be sent.
    pub(crate) fn may(&self, tag: &str, sorted: BrokerFrame) -> bool
        ensures { result ≡ may_in self.now.peer self.now tag.now sorted }
    {
        match self.peer {
            Peer::Asked => sorted.is_open_ok() || sorted.is_close(),
            Peer::Open => sorted.is_close() || self.may_open(tag, sorted),
            Peer::Leaving => {
                if sorted.is_close_ok() {
                    self.sending.is_idle() && self.waiting.is_empty()
                } else {
                    self.may_open(tag, sorted)
                }
            }
            Peer::StoppingOwes => sorted.is_close_ok(),
            Peer::StoppingAnswered => sorted.is_close_ok(),
            _ => false,
        }
    }

    fn may_open(&self, tag: &str, sorted: BrokerFrame) -> bool
        ensures { result ≡ may_open_lem self.now tag.now sorted }
    {
        match sorted {
            BrokerFrame::Header(class, _) => self.sending.takes_header(class),
            BrokerFrame::Body(size) => self.sending.takes_body(size),
            BrokerFrame::Reply(kind) => self.sending.is_idle() && first_is(&self.waiting, kind),
            BrokerFrame::ConsumeOk => self.sending.is_idle() && self.may_consume(tag),
            BrokerFrame::CancelOk => {
                self.sending.is_idle()
                    && first_is(&self.waiting, RequestKind::Cancel)
                    && same_text(first_name(&self.waiting), tag)
            }
            BrokerFrame::GetOk => self.sending.is_idle()
                && first_is(&self.waiting, RequestKind::Get),
            BrokerFrame::Settle(number, multiple) => {
                self.sending.is_idle() && may_settle(&self.numbers, number, multiple)
            }
            BrokerFrame::Deliver | BrokerFrame::Cancel => {
                self.sending.is_idle() && has_tag(self.tags.as_slice(), tag)
            }
            BrokerFrame::Return | BrokerFrame::Flow => self.sending.is_idle(),
            _ => false,
        }
    }

    fn may_consume(&self, tag: &str) -> bool
        ensures { result ≡ may_start_lem self.now tag.now BrokerFrame.ConsumeOk }
    {
        first_is(&self.waiting, RequestKind::Consume)
            && (is_empty(first_name(&self.waiting)) || same_text(first_name(&self.waiting), tag))
    }

    /// A frame that names a tag is sent. Where there is no memory nothing changes.
    pub(crate) fn send(
        &mut self,
        alloc: Global,
        tag: &str,
        sorted: BrokerFrame,
    ) -> Result<(), NoMemory>
        ensures ok { OnOk result (self.new ≡ after_send tag.now sorted self.old) }
        ensures err { OnErr result (self.new ≡ self.old) }
    {
        match sorted {
            BrokerFrame::OpenOk => self.peer = Peer::Open,
            BrokerFrame::Close => self.stop(),
            BrokerFrame::CloseOk => self.answer_close(alloc),
            BrokerFrame::Reply(_) => self.reply(),
            BrokerFrame::ConsumeOk => {
                add_tag(alloc, &mut self.tags, tag)?;
                self.reply();
            }
            BrokerFrame::CancelOk => {
                remove_tag(&mut self.tags, tag);
                self.reply();
            }
            BrokerFrame::GetOk => {
                self.sending = Content::Begun;
                self.reply();
            }
            BrokerFrame::Settle(number, multiple) => settle(&mut self.numbers, number, multiple),
            BrokerFrame::Deliver | BrokerFrame::Return => self.sending = Content::Begun,
            BrokerFrame::Cancel => remove_tag(&mut self.tags, tag),
            BrokerFrame::Header(_, size) => self.sending = Content::of_size(size),
            BrokerFrame::Body(size) => self.sending = self.sending.without_bytes(size),
            _ => {}
        }
        Ok(())
    }

    fn stop(&mut self)
        ensures { self.new ≡ after_send [] BrokerFrame.Close self.old }
    {
        self.peer = Peer::Stopping;
        self.sending = Content::Idle;
        self.waiting.clear();
    }

    fn answer_close(&mut self, alloc: Global)
        ensures { self.new ≡ after_close_ok_lem self.old.peer self.old }
    {
        match self.peer {
            Peer::StoppingOwes => self.peer = Peer::Stopping,
            _ => *self = BrokerChannel::new(alloc),
        }
    }

    fn reply(&mut self)
        ensures { self.new ≡ after_reply self.old }
    {
        let _ = self.waiting.pop_front();
    }
}

fn first_is(waiting: &VecDeque<Request>, kind: RequestKind) -> bool
    ensures { result ≡ first_is_lem kind waiting.now.items }
{
    match waiting.front() {
        Some(request) => request.kind.same(kind),
        None => false,
    }
}

fn first_name(waiting: &VecDeque<Request>) -> &str
    ensures { result.now ≡ first_name_lem waiting.now.items }
{
    match waiting.front() {
        Some(request) => request.echo.name(),
        None => "",
    }
}

/// Whether a frame that is read breaks the broker, where the channel stands there.
pub(crate) fn breaks(peer: Peer, sorted: ClientFrame) -> bool
    ensures { result ≡ breaks_in peer sorted }
{
    match peer {
        Peer::Free => !sorted.is_open(),
        Peer::Asked | Peer::Leaving => true,
        Peer::Open => breaks_open(sorted),
        _ => false,
    }
}

fn breaks_open(sorted: ClientFrame) -> bool
    ensures { result ≡ breaks_open_lem sorted }
{
    !matches!(
        sorted,
        ClientFrame::Publish
            | ClientFrame::Select(_)
            | ClientFrame::Ask(_)
            | ClientFrame::Consume
            | ClientFrame::Cancel
            | ClientFrame::Tell
            | ClientFrame::Close
    )
}

/// Whether a frame that is read begins a content, where the channel stands there.
pub(crate) fn begins(peer: Peer, sorted: ClientFrame) -> bool
    ensures { result ≡ begins_in peer sorted }
{
    match peer {
        Peer::Open => sorted.is_publish(),
        _ => false,
    }
}
