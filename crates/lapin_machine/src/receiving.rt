//! Frames of the broker: replies and settlements. Closes stand in `receiving_closes`. A frame that is not received closes the
//! connection with its class and method.

ghost use Rattle.std.specs.Prelude.{◌≡◌, ℕ, true, IfOk, OnOk, OnErr, if◌then◌else◌};
ghost use Rattle.lapin_types.specs.declared.event.Event.TheVariants as event;
ghost use Rattle.lapin_types.specs.Types.basic;
ghost use Rattle.lapin_types.specs.Types.error;
ghost use Rattle.lapin_types.specs.Types.frame;
ghost use Rattle.lapin_types.specs.Types.method;
ghost use Rattle.lapin_types.specs.declared.record.Record.TheVariants.{Received, Passed, Refused};
ghost use Rattle.lapin_confirm.specs.PublishStates.{single_of, multiple_of, selected_on};
ghost use Rattle.lapin_rules.specs.declared.broker_frames.Incoming.{Incoming as AnIncoming};
ghost use Rattle.lapin_rules.specs.declared.broker_frames.Incoming.TheVariants.{Reply as ReplyFrame, Settlement as SettlementFrame, Flow as FlowFrame};
ghost use Rattle.lapin_rules.specs.Phases.{is_up};
ghost use Rattle.lapin_rules.specs.Unexpected.{refused};
ghost use Rattle.std.specs.List.{fold};
ghost use Rattle.lapin_delivery.specs.WithRoom.{what};
ghost use Rattle.lapin_delivery.specs.Deliveries.{after_mark as after_deliveries_mark};
ghost use Rattle.lapin_rules.specs.Receiving.{incoming_up, when};
ghost use Rattle.lapin_rules.specs.Registry.{request_deliveries};
ghost use Rattle.lapin_rules.specs.Requests.{first_request};
ghost use Rattle.lapin_outbox.specs.Open.{requests_at};
ghost use Rattle.lapin_rules.specs.Wire.{state_of, receives_on as receives_on_lem};
ghost use Rattle.lapin_rules.specs.Reply.{receives_reply};
ghost use Rattle.lapin_rules.specs.ConnectionClose.{receives_down as receives_down_lem};
ghost use Rattle.lapin_machine.specs.World.{told_by, next, receiving, readings_of, settlement_told};
ghost use Rattle.lapin_machine.specs.Told.{HeardTold, WasHeard};
ghost use Rattle.lapin_machine.specs.Numbers.{HasCause, HasNumbers, ReceiveCause};
ghost use Rattle.lapin_rules.specs.Incoming.{incoming_of};

use crate::channel::Heard;
use crate::closing::{begin_close, go_down};
use crate::receiving_consumers::answer_first;
use crate::session::{Session, no_replies};
use lapin_delivery::Deliveries;
use lapin_outbox::Replies;
use lapin_outstanding::{is_open, phase_replied};
use lapin_rules::{
    ChannelMove, Closer, ConnectionMove, Incoming, SettleKind, Settlement, class_of, method_of,
    opens, receives_close, receives_close_ok, receives_down, receives_on, session_close,
    sort_frame, unexpected_close,
};
use lapin_ticket::Place;
use lapin_types::{
    Answer, BasicMethod, ChannelMethod, Error, Frame, Method, NoMemory, Record, ReplyKind,
};
use std::alloc::Global;

impl Session {
    /// Takes a frame of the broker.
    ///
    /// While the connection is open: a reply is received in its state and takes the oldest request of its kind on its channel; the
    /// answer to a get, a delivery and a returned message begin a content, whose header and bodies are received while it waits for
    /// them; a cancel of a consumer is received on an open or closing channel; a settlement is received on an open or closing channel, and passed over where the channel asked for no confirms; a close is
    /// received on a channel with a live opening, its answer where this side's close is under way, and a close of the connection
    /// always. Once the connection is not open every frame is passed over, but for two while this side closes it: the answer,
    /// and the broker's first close.
    ///
    /// # Errors
    /// `UnexpectedFrame` with the class and method of a frame that is not received (0 and 0 of a body, the class and 0 of a
    /// header): the connection is then closed with the reply code 505, and every opening ends. `PreconditionFailed` where a
    /// single settlement names a tag that is not pending, with that tag and the last tag taken: an open channel is then closed
    /// with the reply code 406. `NumbersUsedUp` where a message is whole and the next acker would pass the greatest `u64`, or
    /// consume-ok comes and the next consumer would, and `NoMemory`: nothing changes then.
    #[tactic(auto, using(crate::proofs::Causes::numbers_so))]
    pub fn receive(&mut self, alloc: Global, frame: Frame) -> Result<Heard, Error>
        ensures told { HeardTold result (told_by self.old (event.Receive frame)) }
        ensures ok { WasHeard result (self.new ≡ next self.old (event.Receive frame)) (self.new ≡ self.old) }
        ensures cause { ReceiveCause result (incoming_of frame) self.old.wire }
    {
        let class = class_of(&frame);
        let number = method_of(&frame);
        let incoming = sort_frame(frame);
        if self.link.is_up() {
            self.receive_up(alloc, class, number, incoming)
        } else {
            self.receive_down(alloc, incoming)
        }
    }

    /// Receives a `basic.ack`, as `receive` does the frame that says it: without that frame.
    ///
    /// # Errors
    /// Those of `receive`.
    #[tactic(auto, using(crate::proofs::Causes::numbers_so))]
    pub fn receive_ack(
        &mut self,
        alloc: Global,
        channel: u16,
        delivery_tag: u64,
        multiple: bool,
    ) -> Result<Heard, Error>
        ensures told { HeardTold result (told_by self.old (event.Receive (frame.Method channel (method.Basic (basic.Ack delivery_tag multiple))))) }
        ensures ok { WasHeard result (self.new ≡ next self.old (event.Receive (frame.Method channel (method.Basic (basic.Ack delivery_tag multiple))))) (self.new ≡ self.old) }
        ensures cause { ReceiveCause result (incoming_of (frame.Method channel (method.Basic (basic.Ack delivery_tag multiple)))) self.old.wire }
    {
        if self.link.is_up() && receives_on(self.channel_state(channel)) {
            let settlement = Settlement {
                kind: SettleKind::Ack,
                tag: delivery_tag,
                multiple,
            };
            return self.receive_settlement(alloc, channel, settlement);
        }
        let method = Method::Basic(BasicMethod::Ack {
            delivery_tag,
            multiple,
        });
        self.receive(alloc, Frame::Method(channel, method))
    }

    // A frame that comes while the connection is open.
    #[tactic(auto, using(crate::proofs::Causes::numbers_so))]
    fn receive_up(
        &mut self,
        alloc: Global,
        class: u16,
        number: u16,
        incoming: Incoming,
    ) -> Result<Heard, Error>
        requires { is_up self.old.wire.link ≡ true }
        ensures told { HeardTold result (incoming_up self.old.wire (readings_of self.old.confirm_state self.old.slots) (refused class number) incoming) }
        ensures ok { WasHeard result (self.new ≡ receiving incoming (incoming_up self.old.wire (readings_of self.old.confirm_state self.old.slots) (refused class number) incoming) self.old) (self.new ≡ self.old) }
        ensures cause { ReceiveCause result incoming self.old.wire }
    {
        match incoming {
            Incoming::Reply(channel, kind, answer) => {
                self.receive_reply(alloc, class, number, channel, kind, answer)
            }
            Incoming::Settlement(channel, settlement) => {
                if receives_on(self.channel_state(channel)) {
                    self.receive_settlement(alloc, channel, settlement)
                } else {
                    self.refuse(alloc, class, number)
                }
            }
            Incoming::Content(channel, part) => {
                self.receive_content(alloc, class, number, channel, part)
            }
            Incoming::Consumer(channel, part) => {
                self.receive_of_consumer(alloc, class, number, channel, part)
            }
            Incoming::Flow(channel, active) => {
                if receives_on(self.channel_state(channel)) {
                    self.receive_flow(alloc, channel, active)
                } else {
                    self.refuse(alloc, class, number)
                }
            }
            Incoming::ChannelClose(channel, code) => {
                if receives_close(self.channel_state(channel)) {
                    self.receive_channel_close(alloc, channel, code)
                } else {
                    self.refuse(alloc, class, number)
                }
            }
            Incoming::ChannelCloseOk(channel) => {
                if receives_close_ok(self.channel_state(channel)) {
                    self.receive_channel_close_ok(alloc, channel)
                } else {
                    self.refuse(alloc, class, number)
                }
            }
            Incoming::ConnectionClose(code) => self.receive_connection_close(alloc, code),
            Incoming::ConnectionCloseOk | Incoming::Other => self.refuse(alloc, class, number),
        }
    }

    // A frame that comes once the connection is not open.
    fn receive_down(&mut self, alloc: Global, incoming: Incoming) -> Result<Heard, Error>
        ensures told { HeardTold result (if receives_down_lem self.old.wire.link incoming then Received else Passed) }
        ensures ok { WasHeard result (self.new ≡ receiving incoming (if receives_down_lem self.old.wire.link incoming then Received else Passed) self.old) (self.new ≡ self.old) }
        ensures numbers { HasNumbers result }
    {
        if !receives_down(self.link, &incoming) {
            drop(incoming);
            return Ok(Heard::Passed);
        }
        match incoming {
            Incoming::ConnectionClose(code) => self.receive_connection_close(alloc, code),
            other => {
                drop(other);
                self.receive_connection_close_ok();
                Ok(Heard::Received)
            }
        }
    }

    // A frame that is not received: the connection is closed, and every opening ends.
    pub(crate) fn refuse(&mut self, alloc: Global, class: u16, number: u16) -> Result<Heard, Error>
        requires { is_up self.old.wire.link ≡ true }
        ensures told { HeardTold result (refused class number) }
        ensures ok { WasHeard result ((i : AnIncoming) → self.new ≡ receiving i (refused class number) self.old) (self.new ≡ self.old) }
        ensures numbers { HasNumbers result }
    {
        self.outstanding.outbox.reserve(alloc)?;
        self.deliveries.reserve_ends(alloc)?;
        let method = unexpected_close(alloc, class, number)?;
        let replies = no_replies(alloc);
        let to = self.link.after(ConnectionMove::CloseBegun);
        let error = Error::ProtocolError(505);
        go_down(
            alloc,
            &mut self.link,
            &mut self.phases,
            &mut self.outstanding,
            &mut self.confirms,
            &mut self.contents,
            &mut self.deliveries,
            replies,
            to,
            error,
        );
        self.outstanding.queue_own(alloc, 0, method);
        Err(Error::UnexpectedFrame {
            class,
            method: number,
        })
    }

    // A reply: it is received, or the connection is closed.
    fn receive_reply(
        &mut self,
        alloc: Global,
        class: u16,
        number: u16,
        channel: u16,
        kind: ReplyKind,
        answer: Answer,
    ) -> Result<Heard, Error>
        requires { is_up self.old.wire.link ≡ true }
        ensures told { HeardTold result (when (receives_reply channel kind self.old.wire) (refused class number)) }
        ensures ok { WasHeard result (self.new ≡ receiving (ReplyFrame channel kind answer) (when (receives_reply channel kind self.old.wire) (refused class number)) self.old) (self.new ≡ self.old) }
        ensures numbers { HasNumbers result }
    {
        if self.awaits(channel, kind) {
            self.take_reply(alloc, channel, kind, answer)
        } else {
            drop(answer);
            self.refuse(alloc, class, number)
        }
    }

    // A reply that is received: it opens its channel where it is `channel.open-ok`, what its request declared is recorded, and the
    // ticket of its request is resolved.
    fn take_reply(
        &mut self,
        alloc: Global,
        channel: u16,
        kind: ReplyKind,
        answer: Answer,
    ) -> Result<Heard, Error>
        requires { receives_reply channel kind self.old.wire ≡ true }
        ensures told { HeardTold result Received }
        ensures ok { WasHeard result (self.new ≡ receiving (ReplyFrame channel kind answer) Received self.old) (self.new ≡ self.old) }
        ensures numbers { HasNumbers result }
    {
        let Ok(place) = Place::new(alloc) else {
            drop(answer);
            return Err(Error::NoMemory);
        };
        let completed = complete_first(
            &mut self.deliveries,
            &self.outstanding.replies,
            alloc,
            channel,
            kind,
            &answer,
        );
        if let Err(NoMemory) = completed {
            drop(answer);
            return Err(Error::NoMemory);
        }
        phase_replied(&mut self.phases, channel, kind);
        answer_first(&mut self.outstanding, channel, kind, answer, place);
        Ok(Heard::Received)
    }

    // A flow on a channel that receives it: an open channel is paused or goes on, and the broker is answered.
    fn receive_flow(&mut self, alloc: Global, channel: u16, active: bool) -> Result<Heard, Error>
        ensures told { HeardTold result Received }
        ensures ok { WasHeard result (self.new ≡ receiving (FlowFrame channel active) Received self.old) (self.new ≡ self.old) }
        ensures numbers { HasNumbers result }
    {
        if !is_open(self.channel_state(channel)) {
            return Ok(Heard::Received);
        }
        self.outstanding.outbox.reserve(alloc)?;
        self.phases.go(channel, ChannelMove::Flow { active });
        let method = Method::Channel(ChannelMethod::FlowOk { active });
        self.outstanding.queue_own(alloc, channel, method);
        Ok(Heard::Received)
    }

    // A settlement on a channel that receives it.
    fn receive_settlement(
        &mut self,
        alloc: Global,
        channel: u16,
        settlement: Settlement,
    ) -> Result<Heard, Error>
        requires { receives_on_lem (state_of channel self.old.wire) ≡ true }
        ensures told { HeardTold result (settlement_told channel settlement self.old) }
        ensures ok { WasHeard result (self.new ≡ receiving (SettlementFrame channel settlement) (settlement_told channel settlement self.old) self.old) (self.new ≡ self.old) }
        ensures numbers { HasNumbers result }
    {
        if !self.confirms.selected(channel) {
            return Ok(Heard::Passed);
        }
        if settlement.multiple {
            self.settle_many(channel, settlement.kind, settlement.tag);
            return Ok(Heard::Received);
        }
        self.settle_single(alloc, channel, settlement.kind, settlement.tag)
    }

    // A settlement of many tags: of every tag up to its own, or with tag 0 of every tag.
    fn settle_many(&mut self, channel: u16, kind: SettleKind, tag: u64)
        ensures { self.new ≡ receiving (SettlementFrame channel (multiple_of kind tag)) Received self.old }
    {
        if tag == 0 {
            self.confirms.settle_all(channel, kind);
        } else {
            self.confirms.settle_up_to(channel, kind, tag);
        }
    }

    // A settlement of one tag on a selected opening. Where the tag is not pending an open channel is closed.
    fn settle_single(
        &mut self,
        alloc: Global,
        channel: u16,
        kind: SettleKind,
        tag: u64,
    ) -> Result<Heard, Error>
        requires { selected_on channel self.old.confirm_state.publish_states ≡ true }
        ensures told { HeardTold result (settlement_told channel (single_of kind tag) self.old) }
        ensures ok { WasHeard result (self.new ≡ receiving (SettlementFrame channel (single_of kind tag)) (settlement_told channel (single_of kind tag) self.old) self.old) (self.new ≡ self.old) }
        ensures numbers { HasNumbers result }
    {
        match self.confirms.settle_one(channel, kind, tag) {
            Ok(()) => Ok(Heard::Received),
            Err(error) => {
                self.close_unless_closing(alloc, channel, kind)?;
                Err(error)
            }
        }
    }

    // The session closes an open channel after a settlement of a tag that is not pending; one that is closing stays so.
    fn close_unless_closing(
        &mut self,
        alloc: Global,
        channel: u16,
        kind: SettleKind,
    ) -> Result<(), NoMemory>
        ensures ok { OnOk result ((tag current : ℕ) → self.new ≡ receiving (SettlementFrame channel (single_of kind tag)) (Refused (error.PreconditionFailed tag current)) self.old) }
        ensures err { OnErr result (self.new ≡ self.old) }
    {
        if !is_open(self.channel_state(channel)) {
            return Ok(());
        }
        let method = session_close(alloc, kind)?;
        self.outstanding.outbox.reserve(alloc)?;
        begin_close(
            &mut self.phases,
            &mut self.outstanding,
            &mut self.confirms,
            channel,
            Closer::Session,
        );
        self.outstanding.queue_own(alloc, channel, method);
        Ok(())
    }

    pub(crate) fn step_receive(&mut self, alloc: Global, frame: Frame) -> Result<Record, Error>
        ensures told { IfOk result (λ r. r ≡ told_by self.old (event.Receive frame)) }
        ensures ok { OnOk result (self.new ≡ next self.old (event.Receive frame)) }
        ensures err { OnErr result (self.new ≡ self.old) }
        ensures cause { HasCause result (event.Receive frame) self.old.wire }
    {
        match self.receive(alloc, frame) {
            Ok(Heard::Received) => Ok(Record::Received),
            Ok(Heard::Passed) => Ok(Record::Passed),
            Err(Error::NoMemory) => Err(Error::NoMemory),
            Err(Error::NumbersUsedUp) => Err(Error::NumbersUsedUp),
            Err(error) => Ok(Record::Refused(error)),
        }
    }
}

// The oldest request of a kind on a channel is completed with an answer: what it declared is recorded.
fn complete_first(
    deliveries: &mut Deliveries,
    replies: &Replies,
    alloc: Global,
    channel: u16,
    kind: ReplyKind,
    answer: &Answer,
) -> Result<(), NoMemory>
    ensures ok { OnOk result (what deliveries.new ≡ fold after_deliveries_mark (what deliveries.old) (request_deliveries channel answer.now (first_request kind (requests_at channel replies.now.what)))) }
    ensures err { OnErr result (what deliveries.new ≡ what deliveries.old) }
{
    match replies.first(channel, kind) {
        Some(request) => deliveries.complete(alloc, channel, &request.reply, answer),
        None => Ok(()),
    }
}
