//! Closes of the broker and its answers to closes of this side, on a channel and on the connection.
//!
//! The session comes here once it knows that the frame is received. What an end drops and resolves stands in `lapin_outstanding`.

ghost use Rattle.std.specs.Prelude.{◌≡◌, ◌<◌, true, false, Some, None, if◌then◌else◌};
ghost use Rattle.lapin_tables.specs.ByChannel.{on_channel};
ghost use Rattle.lapin_types.specs.declared.record.Record.TheVariants.{Received};
ghost use Rattle.lapin_rules.specs.declared.broker_frames.Incoming.TheVariants.{ChannelClose as ChannelCloseFrame, ChannelCloseOk as ChannelCloseOkFrame, ConnectionClose as ConnectionCloseFrame, ConnectionCloseOk as ConnectionCloseOkFrame};
ghost use Rattle.lapin_rules.specs.Ends.{cancels_at};
ghost use Rattle.lapin_types.specs.declared.request.ReplyKind.TheVariants.{ChannelCloseOk as ChannelCloseOkKind};
ghost use Rattle.lapin_rules.specs.Requests.{first_request, without_kind, no_requests, ticket_of as ticket_of_lem};
ghost use Rattle.lapin_rules.specs.Phases.{is_up};
ghost use Rattle.lapin_rules.specs.ChannelClose.{has_sent_close as has_sent_close_lem};
ghost use Rattle.lapin_rules.specs.Wire.{state_of, phase_of};
ghost use Rattle.lapin_rules.specs.ChannelClose.{receives_close as receives_close_lem, receives_close_ok as receives_close_ok_lem};
ghost use Rattle.lapin_rules.specs.ConnectionClose.{has_sent};
ghost use Rattle.lapin_rules.specs.ChannelClose.{close_ok_end as close_ok_end_lem};
ghost use Rattle.lapin_outbox.specs.Open.{requests_at, spare_on, KeepsRoom};
ghost use Rattle.lapin_outstanding.specs.Ended.{emptied_outbox};
ghost use Rattle.lapin_machine.specs.Kept.{kept_request, with_kept, is_close_sent as is_close_sent_lem};
ghost use Rattle.lapin_machine.specs.World.{receiving};
ghost use Rattle.lapin_machine.specs.Told.{HeardTold, WasHeard};
ghost use Rattle.lapin_machine.specs.Numbers.{HasNumbers};

use crate::channel::Heard;
use crate::closing::go_down;
use crate::session::Session;
use lapin_outbox::Replies;
use lapin_outstanding::Outstanding;
use lapin_rules::{
    ChannelMove, ChannelPhase, CloseStage, ConnectionMove, ConnectionPhase, close_ok_end,
    consumers_end, has_sent_close,
};
use lapin_types::{ChannelMethod, ConnectionMethod, Error, Method, ReplyKind, Request};
use std::alloc::Global;

impl Session {
    // The broker closes a channel: its opening ends, and close-ok is queued. Where this side's close has left the two crossed.
    pub(crate) fn receive_channel_close(
        &mut self,
        alloc: Global,
        channel: u16,
        code: u16,
    ) -> Result<Heard, Error>
        requires { receives_close_lem (state_of channel self.old.wire) ≡ true }
        ensures told { HeardTold result Received }
        ensures ok { WasHeard result (self.new ≡ receiving (ChannelCloseFrame channel code) Received self.old) (self.new ≡ self.old) }
        ensures numbers { HasNumbers result }
    {
        let phase = self.phase(channel);
        self.outstanding.outbox.reserve(alloc)?;
        self.outstanding.replies.reserve(alloc, channel)?;
        let error = Error::ProtocolError(code);
        self.deliveries.end_channel(alloc, channel, Some(error))?;
        let close = kept_close(&mut self.outstanding.replies, channel, phase);
        let kept = ticket_of(&close);
        self.outstanding
            .end_opening(&mut self.confirms, channel, kept, error);
        self.contents.drop_channel(channel);
        self.phases.go(channel, ChannelMove::Close);
        keep(&mut self.outstanding.replies, alloc, channel, close);
        self.outstanding
            .queue_own(alloc, channel, Method::Channel(ChannelMethod::CloseOk));
        Ok(Heard::Received)
    }

    // The broker answers a close of a channel: the channel is closed and the close done.
    pub(crate) fn receive_channel_close_ok(
        &mut self,
        alloc: Global,
        channel: u16,
    ) -> Result<Heard, Error>
        requires { receives_close_ok_lem (state_of channel self.old.wire) ≡ true }
        ensures told { HeardTold result Received }
        ensures ok { WasHeard result (self.new ≡ receiving (ChannelCloseOkFrame channel) Received self.old) (self.new ≡ self.old) }
        ensures numbers { HasNumbers result }
    {
        match close_ok_end(self.phase(channel)) {
            Some(error) => self.end_closing(alloc, channel, error),
            None => {
                self.end_crossed(channel);
                Ok(Heard::Received)
            }
        }
    }

    // The opening of a channel that this side closes ends with the answer. The close is done first, also where it has not left:
    // the end drops it then. Its consumers get their end, after the session's own close the error too.
    fn end_closing(&mut self, alloc: Global, channel: u16, error: Error) -> Result<Heard, Error>
        requires received { receives_close_ok_lem (state_of channel self.old.wire) ≡ true }
        requires end { close_ok_end_lem (phase_of channel self.old.wire) ≡ Some error }
        ensures told { HeardTold result Received }
        ensures ok { WasHeard result (self.new ≡ receiving (ChannelCloseOkFrame channel) Received self.old) (self.new ≡ self.old) }
        ensures numbers { HasNumbers result }
    {
        let due = consumers_end(self.phase(channel));
        self.deliveries.end_channel(alloc, channel, due)?;
        let close = take_close(&mut self.outstanding.replies, channel);
        self.outstanding.done(into_ticket(close));
        self.outstanding
            .end_opening(&mut self.confirms, channel, None, error);
        self.contents.drop_channel(channel);
        self.phases.go(channel, ChannelMove::CloseOk);
        Ok(Heard::Received)
    }

    // A crossed close ended the opening before.
    fn end_crossed(&mut self, channel: u16)
        requires received { receives_close_ok_lem (state_of channel self.old.wire) ≡ true }
        requires end { close_ok_end_lem (phase_of channel self.old.wire) ≡ None }
        ensures { self.new ≡ receiving (ChannelCloseOkFrame channel) Received self.old }
    {
        let close = take_request(
            &mut self.outstanding.replies,
            channel,
            ReplyKind::ChannelCloseOk,
        );
        self.phases.go(channel, ChannelMove::CloseOk);
        self.outstanding.done(into_ticket(close));
    }

    // The broker closes the connection, which is open, or which this side is closing: close-ok is queued. Where this side's close
    // has left the connection is still closing; else it is closed.
    pub(crate) fn receive_connection_close(
        &mut self,
        alloc: Global,
        code: u16,
    ) -> Result<Heard, Error>
        ensures told { HeardTold result Received }
        ensures ok { WasHeard result (self.new ≡ receiving (ConnectionCloseFrame code) Received self.old) (self.new ≡ self.old) }
        ensures numbers { HasNumbers result }
    {
        self.outstanding.outbox.reserve(alloc)?;
        if is_close_sent(self.link) {
            self.link = self.link.after(ConnectionMove::Close);
            self.outstanding
                .queue_own(alloc, 0, Method::Connection(ConnectionMethod::CloseOk));
            return Ok(Heard::Received);
        }
        let replies = Replies::new(alloc)?;
        self.deliveries.reserve_ends(alloc)?;
        let to = self.link.after(ConnectionMove::Close);
        go_down(
            alloc,
            &mut self.link,
            &mut self.phases,
            &mut self.outstanding,
            &mut self.confirms,
            &mut self.contents,
            &mut self.deliveries,
            replies,
            to,
            Error::ProtocolError(code),
        );
        self.outstanding
            .queue_own(alloc, 0, Method::Connection(ConnectionMethod::CloseOk));
        Ok(Heard::Received)
    }

    // The broker answers this side's close of the connection: it is closed and the close done. A close that has not left is
    // dropped.
    pub(crate) fn receive_connection_close_ok(&mut self)
        requires { is_up self.old.wire.link ≡ false }
        ensures { self.new ≡ receiving ConnectionCloseOkFrame Received self.old }
    {
        let close = take_request(
            &mut self.outstanding.replies,
            0,
            ReplyKind::ConnectionCloseOk,
        );
        drop_unsent(self.link, &mut self.outstanding);
        self.link = self.link.after(ConnectionMove::CloseOk);
        self.outstanding.done(into_ticket(close));
    }
}

// Where this side's close of a channel has left, its request is taken out, to be kept.
fn kept_close(replies: &mut Replies, channel: u16, phase: ChannelPhase) -> Option<Request>
    ensures close { result ≡ kept_request (has_sent_close_lem phase) (requests_at channel replies.old.what) }
    ensures emptied { on_channel channel no_requests replies.new.what ≡ on_channel channel no_requests replies.old.what }
    ensures cancels { cancels_at channel replies.new.what ≡ cancels_at channel replies.old.what }
    ensures room { KeepsRoom replies.old replies.new }
{
    if !has_sent_close(phase) {
        return None;
    }
    take_close(replies, channel)
}

// A request that is kept is open again, in the room that was made.
fn keep(replies: &mut Replies, alloc: Global, channel: u16, close: Option<Request>)
    requires { 0 < spare_on channel replies.old }
    ensures { replies.new.what ≡ with_kept channel close replies.old.what }
{
    if let Some(request) = close {
        replies.expect(alloc, channel, request).unwrap();
    }
}

// Takes out the request of this side's close of a channel, if there is one. Its open cancels stay.
fn take_close(replies: &mut Replies, channel: u16) -> Option<Request>
    ensures taken { result ≡ first_request ChannelCloseOkKind (requests_at channel replies.old.what) }
    ensures waiting { replies.new.what ≡ on_channel channel (without_kind ChannelCloseOkKind) replies.old.what }
    ensures cancels { cancels_at channel replies.new.what ≡ cancels_at channel replies.old.what }
    ensures room { KeepsRoom replies.old replies.new }
{
    take_request(replies, channel, ReplyKind::ChannelCloseOk)
}

// Takes out the oldest request of a kind, if there is one.
fn take_request(replies: &mut Replies, channel: u16, kind: ReplyKind) -> Option<Request>
    ensures taken { result ≡ first_request kind (requests_at channel replies.old.what) }
    ensures waiting { replies.new.what ≡ on_channel channel (without_kind kind) replies.old.what }
    ensures room { KeepsRoom replies.old replies.new }
{
    replies.take_first(channel, kind)
}

// A close of the connection that has not left is dropped; it is then all that waits.
fn drop_unsent(link: ConnectionPhase, outstanding: &mut Outstanding)
    ensures outbox { outstanding.new.outbox.what ≡ (if has_sent link then outstanding.old.outbox.what else emptied_outbox outstanding.old.outbox.what) }
    ensures requests { outstanding.new.replies ≡ outstanding.old.replies }
    ensures tickets { outstanding.new.tickets ≡ outstanding.old.tickets }
{
    if let ConnectionPhase::Closing(CloseStage::Queued) = link {
        outstanding.drop_waiting();
    }
}

// Whether this side is closing the connection and its close has left.
fn is_close_sent(link: ConnectionPhase) -> bool
    ensures { result ≡ is_close_sent_lem link }
{
    matches!(
        link,
        ConnectionPhase::Closing(CloseStage::Sent | CloseStage::Crossed)
    )
}

// The ticket of a request, if there is a request and somebody holds its ticket.
fn ticket_of(request: &Option<Request>) -> Option<u64>
    ensures { result ≡ ticket_of_lem request.now }
{
    match request {
        Some(request) => request.ticket,
        None => None,
    }
}

// The same, where the request is not needed any more.
fn into_ticket(request: Option<Request>) -> Option<u64>
    ensures { result ≡ ticket_of_lem request }
{
    match request {
        Some(request) => request.into_ticket(),
        None => None,
    }
}
