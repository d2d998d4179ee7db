//! What the broker says of consumers: the answers to a consume, a cancel and a recover, and its own cancel.
//!
//! The session comes here once it knows that the frame is received. What becomes of the consumers stands in `lapin_consumer`.

ghost use Rattle.std.specs.Prelude.{◌≡◌, true, false, [], IfOk};
ghost use Rattle.std.specs.List.{fold};
ghost use Rattle.lapin_types.specs.declared.record.Record.TheVariants.{Received};
ghost use Rattle.lapin_rules.specs.declared.broker_frames.Incoming.TheVariants.{Consumer as ConsumerFrame};
ghost use Rattle.lapin_rules.specs.declared.broker_frames.ConsumerPart.TheVariants.{ConsumeOk, CancelOk, RecoverOk, Cancel};
ghost use Rattle.lapin_rules.specs.Consumers.{receives_consumer as receives_consumer_lem, queue_asked as queue_asked_lem, queue_in as queue_in_lem};
ghost use Rattle.lapin_rules.specs.Words.{is_some};
ghost use Rattle.lapin_rules.specs.Requests.{first_request, without_request};
ghost use Rattle.lapin_outbox.specs.Open.{requests_at};
ghost use Rattle.lapin_ticket.specs.Slots as answers;
ghost use Rattle.lapin_rules.specs.Reply.{receives_reply, reply_marks};
ghost use Rattle.lapin_rules.specs.Wire.{state_of, is_open as is_open_lem};
ghost use Rattle.lapin_rules.specs.Phases.{is_up};
ghost use Rattle.lapin_rules.specs.Unexpected.{refused};
ghost use Rattle.lapin_rules.specs.Receiving.{incoming_up};
ghost use Rattle.lapin_machine.specs.World.{receiving, readings_of};
ghost use Rattle.lapin_machine.specs.Told.{HeardTold, WasHeard};
ghost use Rattle.lapin_machine.specs.Numbers.{HasNumbers, ReceiveCause};

use crate::channel::Heard;
use crate::session::Session;
use lapin_outstanding::{Outstanding, is_open};
use lapin_rules::{ConsumerPart, receives, receives_on};
use lapin_ticket::Place;
use lapin_types::{
    Answer, BasicConsumeOptions, BasicMethod, Error, Method, NoMemory, Reply, ReplyKind,
    ShortString,
};
use std::alloc::Global;

impl Session {
    // Whether what the broker says of consumers is received: a reply where a request of its kind is open, its own cancel on a channel
    // that is open or closing.
    pub(crate) fn receives_consumer(&self, channel: u16, part: &ConsumerPart) -> bool
        ensures { result ≡ receives_consumer_lem channel part.now self.now.wire }
    {
        match part {
            ConsumerPart::ConsumeOk(_) => self.awaits(channel, ReplyKind::BasicConsumeOk),
            ConsumerPart::CancelOk(_) => self.awaits(channel, ReplyKind::BasicCancelOk),
            ConsumerPart::RecoverOk => self.awaits(channel, ReplyKind::BasicRecoverOk),
            ConsumerPart::Cancel(_, _) => receives_on(self.channel_state(channel)),
        }
    }

    // Whether a reply of this kind is received on a channel.
    pub(crate) fn awaits(&self, channel: u16, kind: ReplyKind) -> bool
        ensures { result ≡ receives_reply channel kind self.now.wire }
    {
        receives(kind, self.channel_state(channel))
            && self.outstanding.replies.first(channel, kind).is_some()
    }

    // What the broker says of consumers while the connection is open: it is received, or the connection is closed.
    #[tactic(auto, using(crate::proofs::Causes::numbers_so))]
    pub(crate) fn receive_of_consumer(
        &mut self,
        alloc: Global,
        class: u16,
        number: u16,
        channel: u16,
        part: ConsumerPart,
    ) -> Result<Heard, Error>
        requires { is_up self.old.wire.link ≡ true }
        ensures told { HeardTold result (incoming_up self.old.wire (readings_of self.old.confirm_state self.old.slots) (refused class number) (ConsumerFrame channel part)) }
        ensures ok { WasHeard result (self.new ≡ receiving (ConsumerFrame channel part) (incoming_up self.old.wire (readings_of self.old.confirm_state self.old.slots) (refused class number) (ConsumerFrame channel part)) self.old) (self.new ≡ self.old) }
        ensures cause { ReceiveCause result (ConsumerFrame channel part) self.old.wire }
    {
        if self.receives_consumer(channel, &part) {
            self.receive_consumer(alloc, channel, part)
        } else {
            drop(part);
            self.refuse(alloc, class, number)
        }
    }

    // What the broker says of consumers, where it is received.
    pub(crate) fn receive_consumer(
        &mut self,
        alloc: Global,
        channel: u16,
        part: ConsumerPart,
    ) -> Result<Heard, Error>
        requires { receives_consumer_lem channel part self.old.wire ≡ true }
        ensures told { HeardTold result Received }
        ensures ok { WasHeard result (self.new ≡ receiving (ConsumerFrame channel part) Received self.old) (self.new ≡ self.old) }
        ensures cause { ReceiveCause result (ConsumerFrame channel part) self.old.wire }
    {
        match part {
            ConsumerPart::ConsumeOk(tag) => self.receive_consume_ok(alloc, channel, tag),
            ConsumerPart::CancelOk(tag) => self.receive_cancel_ok(alloc, channel, tag),
            ConsumerPart::RecoverOk => self.receive_recover_ok(alloc, channel),
            ConsumerPart::Cancel(tag, nowait) => self.receive_cancel(alloc, channel, tag, nowait),
        }
    }

    // The oldest consume of the channel is answered: its consumer is registered under the tag that the broker names.
    fn receive_consume_ok(
        &mut self,
        alloc: Global,
        channel: u16,
        tag: ShortString,
    ) -> Result<Heard, Error>
        requires { receives_consumer_lem channel (ConsumeOk tag) self.old.wire ≡ true }
        ensures told { HeardTold result Received }
        ensures ok { WasHeard result (self.new ≡ receiving (ConsumerFrame channel (ConsumeOk tag)) Received self.old) (self.new ≡ self.old) }
        ensures cause { ReceiveCause result (ConsumerFrame channel (ConsumeOk tag)) self.old.wire }
    {
        let place = Place::new(alloc)?;
        let queue = self.queue_asked(alloc, channel)?;
        let options = BasicConsumeOptions::default();
        let number = self
            .deliveries
            .consume(alloc, channel, tag, queue, options)?;
        let answer = Answer::Consumer(number);
        answer_first(
            &mut self.outstanding,
            channel,
            ReplyKind::BasicConsumeOk,
            answer,
            place,
        );
        Ok(Heard::Received)
    }

    // The oldest cancel of the channel is answered: the consumer of the tag that the broker names gets its end.
    fn receive_cancel_ok(
        &mut self,
        alloc: Global,
        channel: u16,
        tag: ShortString,
    ) -> Result<Heard, Error>
        requires { receives_consumer_lem channel (CancelOk tag) self.old.wire ≡ true }
        ensures told { HeardTold result Received }
        ensures ok { WasHeard result (self.new ≡ receiving (ConsumerFrame channel (CancelOk tag)) Received self.old) (self.new ≡ self.old) }
        ensures numbers { HasNumbers result }
    {
        let place = Place::new(alloc)?;
        self.deliveries.cancel(alloc, channel, tag.as_str())?;
        answer_first(
            &mut self.outstanding,
            channel,
            ReplyKind::BasicCancelOk,
            Answer::Done,
            place,
        );
        Ok(Heard::Received)
    }

    // The oldest recover of the channel is answered: what its consumers were handed before is void.
    fn receive_recover_ok(&mut self, alloc: Global, channel: u16) -> Result<Heard, Error>
        requires { receives_consumer_lem channel RecoverOk self.old.wire ≡ true }
        ensures told { HeardTold result Received }
        ensures ok { WasHeard result (self.new ≡ receiving (ConsumerFrame channel RecoverOk) Received self.old) (self.new ≡ self.old) }
        ensures numbers { HasNumbers result }
    {
        let place = Place::new(alloc)?;
        self.deliveries.discard(alloc, channel)?;
        answer_first(
            &mut self.outstanding,
            channel,
            ReplyKind::BasicRecoverOk,
            Answer::Done,
            place,
        );
        Ok(Heard::Received)
    }

    // The broker cancels the consumer of a tag, which gets its end. On an open channel it is answered, unless it asks for no answer.
    fn receive_cancel(
        &mut self,
        alloc: Global,
        channel: u16,
        tag: ShortString,
        nowait: bool,
    ) -> Result<Heard, Error>
        ensures told { HeardTold result Received }
        ensures ok { WasHeard result (self.new ≡ receiving (ConsumerFrame channel (Cancel tag nowait)) Received self.old) (self.new ≡ self.old) }
        ensures numbers { HasNumbers result }
    {
        if is_open(self.channel_state(channel)) && !nowait {
            return self.answer_cancel(alloc, channel, tag);
        }
        self.deliveries.cancel(alloc, channel, tag.as_str())?;
        Ok(Heard::Received)
    }

    // The same where it is answered.
    fn answer_cancel(
        &mut self,
        alloc: Global,
        channel: u16,
        tag: ShortString,
    ) -> Result<Heard, Error>
        requires { is_open_lem (state_of channel self.old.wire) ≡ true }
        ensures told { HeardTold result Received }
        ensures ok { WasHeard result (self.new ≡ receiving (ConsumerFrame channel (Cancel tag false)) Received self.old) (self.new ≡ self.old) }
        ensures numbers { HasNumbers result }
    {
        self.outstanding.outbox.reserve(alloc)?;
        self.deliveries.cancel(alloc, channel, tag.as_str())?;
        let method = Method::Basic(BasicMethod::CancelOk { consumer_tag: tag });
        self.outstanding.queue_own(alloc, channel, method);
        Ok(Heard::Received)
    }

    // A copy of the queue that the oldest consume of a channel names.
    fn queue_asked(&self, alloc: Global, channel: u16) -> Result<ShortString, NoMemory>
        ensures { IfOk result (λ queue. queue ≡ queue_asked_lem channel self.now.wire) }
    {
        match self
            .outstanding
            .replies
            .first(channel, ReplyKind::BasicConsumeOk)
        {
            Some(request) => queue_in(alloc, &request.reply),
            None => ShortString::empty(alloc),
        }
    }
}

// A copy of the queue that a request for a consumer names; another request names none.
fn queue_in(alloc: Global, reply: &Reply) -> Result<ShortString, NoMemory>
    ensures { IfOk result (λ queue. queue ≡ queue_in_lem reply.now) }
{
    match reply {
        Reply::BasicConsumeOk { queue, .. } => queue.try_clone(alloc),
        _ => ShortString::empty(alloc),
    }
}

// The oldest request of a kind on a channel is taken, and its ticket answered, if somebody holds it, in the room that was made for
// the answer.
pub(crate) fn answer_first(
    outstanding: &mut Outstanding,
    channel: u16,
    kind: ReplyKind,
    answer: Answer,
    place: Place,
)
    requires { is_some (first_request kind (requests_at channel outstanding.old.replies.what)) ≡ true }
    ensures requests { outstanding.new.replies.what ≡ without_request channel kind outstanding.old.replies.what }
    ensures slots { outstanding.new.tickets.slots ≡ fold answers.after_mark outstanding.old.tickets.slots (reply_marks answer (first_request kind (requests_at channel outstanding.old.replies.what))) }
    ensures outbox { outstanding.new.outbox ≡ outstanding.old.outbox }
{
    match outstanding.replies.take_first(channel, kind) {
        Some(request) => outstanding.resolve(request.into_ticket(), answer, place),
        None => drop(answer),
    }
}
