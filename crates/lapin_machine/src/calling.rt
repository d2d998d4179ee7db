//! Calls: what the application asks for.
//!
//! Each is refused by the channel's state, then for want of numbers; then it is queued whole, or nothing changes.

ghost use Rattle.std.specs.Prelude.{◌≡◌, ◌&&◌, ◌<◌, false, Some, IfOk, OnOk, OnErr};
ghost use Rattle.std.specs.List.{fold};
ghost use Rattle.lapin_types.specs.declared.event.Event.TheVariants.{Call as CallEvent};
ghost use Rattle.lapin_types.specs.declared.call.Call.TheVariants.{OpenChannel, BasicPublish, TryBasicPublish};
ghost use Rattle.lapin_rules.specs.declared.calls.Asked.TheVariants as ask;
ghost use Rattle.lapin_rules.specs.Calls.{asked as asked_lem, publishes};
ghost use Rattle.lapin_rules.specs.Asking.{call_record, is_held};
ghost use Rattle.lapin_rules.specs.Wire.{state_of, is_open as is_open_lem};
ghost use Rattle.lapin_confirm.specs.PublishStates.{at_limit_on};
ghost use Rattle.lapin_rules.specs.Select.{queued_marks};
ghost use Rattle.lapin_rules.specs.Consumers.{called_deliveries, cancel_deliveries, all_deliveries};
ghost use Rattle.lapin_rules.specs.Registry.{line_deliveries, at_once_deliveries};
ghost use Rattle.lapin_delivery.specs.WithRoom.{what};
ghost use Rattle.lapin_delivery.specs.Deliveries.{after_mark as after_deliveries_mark};
ghost use Rattle.lapin_confirm.specs.Machine as confirm_state;
ghost use Rattle.lapin_machine.specs.World.{told_by, next, asking, readings_of};
ghost use Rattle.lapin_machine.specs.Told.{TicketTold, PublishTold, ticket_told, publish_told};
ghost use Rattle.lapin_machine.specs.Numbers.{HasCause, CallCause, TryCause, AskCause};

use crate::channel::{Published, PublisherConfirm, Ticket};
use crate::session::Session;
use lapin_confirm::Confirms;
use lapin_delivery::Deliveries;
use lapin_outstanding::{is_closed, is_open, place_at_once};
use lapin_rules::{Answered, Asked, AtLeaving, ChannelMove, Row, is_try, sort_call};
use lapin_types::{
    BasicMethod, BasicProperties, BasicPublishOptions, Call, ChannelMethod, ConfirmMethod, Error,
    Method, NoMemory, Payload, Publish, Record, Reply, ShortString,
};
use std::alloc::Global;

impl Session {
    /// Opens a channel (AMQP 0-9-1, `channel.open`). The ticket is answered with the channel's number at the broker's
    /// `channel.open-ok`.
    ///
    /// # Errors
    /// `InvalidChannelState` where the channel is not closed, also on channel 0; `NumbersUsedUp` where the next ticket would
    /// pass the greatest `u64`; `NoMemory`. Nothing changes then.
    pub fn open_channel(&mut self, alloc: Global, channel: u16) -> Result<Ticket, Error>
        ensures told { TicketTold result (told_by self.old (CallEvent channel OpenChannel)) }
        ensures ok { OnOk result (self.new ≡ next self.old (CallEvent channel OpenChannel)) }
        ensures err { OnErr result (self.new ≡ self.old) }
        ensures cause { CallCause result channel OpenChannel self.old.wire }
    {
        let state = self.channel_state(channel);
        if !is_closed(state) {
            return Err(Error::InvalidChannelState(state));
        }
        if self.outstanding.tickets.next_number().is_none() {
            return Err(Error::NumbersUsedUp);
        }
        self.phases.reserve(channel)?;
        self.outstanding.reserve(alloc, channel)?;
        self.deliveries.reserve_opening(channel)?;
        self.confirms.begin(alloc, channel)?;
        self.deliveries.begin(alloc, channel);
        self.phases.go(channel, ChannelMove::OpenCalled);
        let method = Method::Channel(ChannelMethod::Open);
        let number = self
            .outstanding
            .queue_awaiting(alloc, channel, method, Reply::ChannelOpenOk);
        Ok(Ticket { number })
    }

    /// Makes any call but a publish: it is refused by the channel's state, or done as its line of the table says.
    ///
    /// # Errors
    /// `InvalidChannelState` where the call is not allowed in the channel's state, `NumbersUsedUp` where the next ticket would
    /// pass the greatest `u64`, `NoMemory`. Nothing changes then.
    pub fn call(&mut self, alloc: Global, channel: u16, call: Call) -> Result<Ticket, Error>
        requires { publishes (asked_lem call) ≡ false }
        ensures told { TicketTold result (told_by self.old (CallEvent channel call)) }
        ensures ok { OnOk result (self.new ≡ next self.old (CallEvent channel call)) }
        ensures err { OnErr result (self.new ≡ self.old) }
        ensures cause { CallCause result channel call self.old.wire }
    {
        let asked = sort_call(alloc, call)?;
        self.ask(alloc, channel, asked)
    }

    // A sorted call that is no publish.
    fn ask(&mut self, alloc: Global, channel: u16, asked: Asked) -> Result<Ticket, Error>
        requires { publishes asked ≡ false }
        ensures told { TicketTold result (call_record channel asked self.old.wire) }
        ensures ok { OnOk result (self.new ≡ asking channel asked self.old) }
        ensures err { OnErr result (self.new ≡ self.old) }
        ensures cause { AskCause result channel asked self.old.wire }
    {
        match asked {
            Asked::Open => self.open_channel(alloc, channel),
            Asked::CloseChannel(reply_code, reply_text) => {
                self.channel_close(alloc, channel, reply_code, reply_text)
            }
            Asked::CloseConnection(reply_code, reply_text) => {
                self.close_connection(alloc, channel, reply_code, reply_text)
            }
            Asked::Method(row) => self.queue_row(alloc, channel, row),
            Asked::Consume {
                method,
                consumer_tag,
                queue,
                options,
            } => self.consume_at_once(alloc, channel, method, consumer_tag, queue, options),
            Asked::Limit(limit) => self.limit_confirms(alloc, channel, limit),
            Asked::Publish { .. } => unreachable!(),
            Asked::Nothing => Err(Error::InvalidChannelState(self.channel_state(channel))),
        }
    }

    // A call that is its line of the table. What is let go is let go by `drop`: so the ways by which a line can be let go, one
    // for each of its methods and replies, are no ways through this function.
    pub(crate) fn queue_row(
        &mut self,
        alloc: Global,
        channel: u16,
        row: Row,
    ) -> Result<Ticket, Error>
        ensures told { TicketTold result (call_record channel (ask.Method row) self.old.wire) }
        ensures ok { OnOk result (self.new ≡ asking channel (ask.Method row) self.old) }
        ensures err { OnErr result (self.new ≡ self.old) }
        ensures cause { AskCause result channel (ask.Method row) self.old.wire }
    {
        let state = self.channel_state(channel);
        if !is_open(state) {
            drop(row);
            return Err(Error::InvalidChannelState(state));
        }
        if self.outstanding.tickets.next_number().is_none() {
            drop(row);
            return Err(Error::NumbersUsedUp);
        }
        if self.outstanding.reserve(alloc, channel).is_err() {
            drop(row);
            return Err(Error::NoMemory);
        }
        let Ok(place) = place_at_once(alloc, &row.answered) else {
            drop(row);
            return Err(Error::NoMemory);
        };
        if let Err(NoMemory) = line_called(&mut self.deliveries, alloc, channel, &row) {
            drop(row);
            return Err(Error::NoMemory);
        }
        confirms_called(&mut self.confirms, channel, &row.method);
        let number = self.outstanding.queue_line(alloc, channel, row, place);
        Ok(Ticket { number })
    }

    /// Publishes a message (AMQP 0-9-1, `basic.publish`), as `Channel::basic_publish`.
    pub fn basic_publish(
        &mut self,
        alloc: Global,
        channel: u16,
        exchange: ShortString,
        routing_key: ShortString,
        options: BasicPublishOptions,
        payload: Payload,
        properties: BasicProperties,
    ) -> Result<Published, Error>
        ensures told { PublishTold result (told_by self.old (CallEvent channel (BasicPublish exchange routing_key options payload properties))) }
        ensures ok { OnOk result (self.new ≡ next self.old (CallEvent channel (BasicPublish exchange routing_key options payload properties))) }
        ensures err { OnErr result (self.new ≡ self.old) }
        ensures cause { CallCause result channel (BasicPublish exchange routing_key options payload properties) self.old.wire }
    {
        let state = self.channel_state(channel);
        if !is_open(state) {
            return Err(Error::InvalidChannelState(state));
        }
        if self.outstanding.tickets.next_number().is_none() {
            return Err(Error::NumbersUsedUp);
        }
        self.outstanding.reserve(alloc, channel)?;
        let confirm = self.confirms.add(alloc, channel)?;
        let ticket = self
            .outstanding
            .tickets
            .give(channel, AtLeaving::Confirm(confirm));
        let publish = Publish {
            confirm,
            ticket,
            channel,
            exchange,
            routing_key,
            options,
            payload,
            properties,
        };
        let _queued = self.outstanding.outbox.push_publish_reserved(publish);
        Ok(Published {
            ticket: Ticket { number: ticket },
            confirm: PublisherConfirm { number: confirm },
        })
    }

    /// Publishes a message, unless as many publishes of the channel wait or are outstanding as its limit allows, as
    /// `Channel::try_basic_publish`.
    pub fn try_basic_publish(
        &mut self,
        alloc: Global,
        channel: u16,
        exchange: ShortString,
        routing_key: ShortString,
        options: BasicPublishOptions,
        payload: Payload,
        properties: BasicProperties,
    ) -> Result<Published, Error>
        ensures told { PublishTold result (told_by self.old (CallEvent channel (TryBasicPublish exchange routing_key options payload properties))) }
        ensures ok { OnOk result (self.new ≡ next self.old (CallEvent channel (TryBasicPublish exchange routing_key options payload properties))) }
        ensures err { OnErr result (self.new ≡ self.old) }
        ensures cause { TryCause result channel (TryBasicPublish exchange routing_key options payload properties) self.old }
    {
        if self.is_at_limit(channel) {
            let limit = self.confirms.limit(channel);
            return Err(Error::ConfirmsOutstanding { limit });
        }
        self.basic_publish(
            alloc,
            channel,
            exchange,
            routing_key,
            options,
            payload,
            properties,
        )
    }

    // Whether a channel is open and at its limit, so that a try publish is refused.
    fn is_at_limit(&self, channel: u16) -> bool
        ensures { result ≡ (is_open_lem (state_of channel self.now.wire) && at_limit_on channel self.now.confirm_state.publish_states) }
    {
        is_open(self.channel_state(channel)) && self.confirms.at_limit(channel)
    }

    // A limit of outstanding confirms: it is set, and the ticket answered, in the call, and nothing is queued.
    fn limit_confirms(&mut self, alloc: Global, channel: u16, limit: u64) -> Result<Ticket, Error>
        ensures told { TicketTold result (call_record channel (ask.Limit limit) self.old.wire) }
        ensures ok { OnOk result (self.new ≡ asking channel (ask.Limit limit) self.old) }
        ensures err { OnErr result (self.new ≡ self.old) }
        ensures cause { AskCause result channel (ask.Limit limit) self.old.wire }
    {
        let state = self.channel_state(channel);
        if !is_open(state) {
            return Err(Error::InvalidChannelState(state));
        }
        if self.outstanding.tickets.next_number().is_none() {
            return Err(Error::NumbersUsedUp);
        }
        self.outstanding.tickets.reserve(alloc, channel)?;
        let number = self.outstanding.tickets.give(channel, AtLeaving::Nothing);
        self.outstanding.done(Some(number));
        self.confirms.set_limit(channel, limit);
        Ok(Ticket { number })
    }

    pub(crate) fn step_call(
        &mut self,
        alloc: Global,
        channel: u16,
        call: Call,
    ) -> Result<Record, Error>
        ensures told { IfOk result (λ r. r ≡ told_by self.old (CallEvent channel call)) }
        ensures ok { OnOk result (self.new ≡ next self.old (CallEvent channel call)) }
        ensures err { OnErr result (self.new ≡ self.old) }
        ensures cause { HasCause result (CallEvent channel call) self.old.wire }
    {
        if is_try(&call) && self.is_at_limit(channel) {
            drop(call);
            let limit = self.confirms.limit(channel);
            return Ok(Record::Refused(Error::ConfirmsOutstanding { limit }));
        }
        self.step_asked(alloc, channel, call)
    }

    // A call that no limit refuses.
    fn step_asked(&mut self, alloc: Global, channel: u16, call: Call) -> Result<Record, Error>
        requires { is_held channel call self.old.wire (readings_of self.old.confirm_state self.old.slots) ≡ false }
        ensures told { IfOk result (λ r. r ≡ call_record channel (asked_lem call) self.old.wire) }
        ensures ok { OnOk result (self.new ≡ asking channel (asked_lem call) self.old) }
        ensures err { OnErr result (self.new ≡ self.old) }
        ensures cause { HasCause result (CallEvent channel call) self.old.wire }
    {
        let asked = sort_call(alloc, call)?;
        match asked {
            Asked::Publish {
                exchange,
                routing_key,
                options,
                payload,
                properties,
            } => publish_record(self.basic_publish(
                alloc,
                channel,
                exchange,
                routing_key,
                options,
                payload,
                properties,
            )),
            asked => ticket_record(self.ask(alloc, channel, asked)),
        }
    }
}

// A call of this line was accepted: one of the class basic says something of consumers, any other that is made without wait has its
// answer, and what it declared is recorded.
fn line_called(
    deliveries: &mut Deliveries,
    alloc: Global,
    channel: u16,
    row: &Row,
) -> Result<(), NoMemory>
    ensures ok { OnOk result (what deliveries.new ≡ fold after_deliveries_mark (what deliveries.old) (line_deliveries channel row.now.method row.now.answered)) }
    ensures err { OnErr result (what deliveries.new ≡ what deliveries.old) }
{
    match &row.method {
        Method::Basic(method) => consumers_called(deliveries, alloc, channel, method),
        _ => completed_at_once(deliveries, alloc, channel, &row.answered),
    }
}

// A call that queues this method was accepted: a cancel asks for its consumer's end, an acknowledgement of all there is and
// `basic.recover-async` make void what was handed on before.
fn consumers_called(
    deliveries: &mut Deliveries,
    alloc: Global,
    channel: u16,
    method: &BasicMethod,
) -> Result<(), NoMemory>
    ensures ok { OnOk result (what deliveries.new ≡ fold after_deliveries_mark (what deliveries.old) (called_deliveries channel method.now)) }
    ensures err { OnErr result (what deliveries.new ≡ what deliveries.old) }
{
    match method {
        BasicMethod::Cancel {
            consumer_tag,
            nowait,
        } => cancel_called(deliveries, alloc, channel, consumer_tag, *nowait),
        BasicMethod::Ack {
            delivery_tag,
            multiple,
        } => ack_called(deliveries, alloc, channel, *delivery_tag, *multiple),
        BasicMethod::Nack {
            delivery_tag,
            multiple,
            ..
        } => ack_called(deliveries, alloc, channel, *delivery_tag, *multiple),
        BasicMethod::RecoverAsync { .. } => deliveries.discard(alloc, channel),
        _ => Ok(()),
    }
}

// A call that is answered so was accepted: without wait its request is completed in the call.
fn completed_at_once(
    deliveries: &mut Deliveries,
    alloc: Global,
    channel: u16,
    answered: &Answered,
) -> Result<(), NoMemory>
    ensures ok { OnOk result (what deliveries.new ≡ fold after_deliveries_mark (what deliveries.old) (at_once_deliveries channel answered.now)) }
    ensures err { OnErr result (what deliveries.new ≡ what deliveries.old) }
{
    match answered {
        Answered::AtOnce(reply, answer) => deliveries.complete(alloc, channel, reply, answer),
        _ => Ok(()),
    }
}

// A cancel was called.
fn cancel_called(
    deliveries: &mut Deliveries,
    alloc: Global,
    channel: u16,
    tag: &ShortString,
    nowait: bool,
) -> Result<(), NoMemory>
    ensures ok { OnOk result (what deliveries.new ≡ fold after_deliveries_mark (what deliveries.old) (cancel_deliveries channel tag.now nowait)) }
    ensures err { OnErr result (what deliveries.new ≡ what deliveries.old) }
{
    if nowait {
        return deliveries.cancel_at_once(alloc, channel, tag.as_str());
    }
    deliveries.ask_cancel(channel, tag.as_str());
    Ok(())
}

// An acknowledgement was called: one of all there is discards.
fn ack_called(
    deliveries: &mut Deliveries,
    alloc: Global,
    channel: u16,
    tag: u64,
    multiple: bool,
) -> Result<(), NoMemory>
    ensures ok { OnOk result (what deliveries.new ≡ fold after_deliveries_mark (what deliveries.old) (all_deliveries channel tag multiple)) }
    ensures err { OnErr result (what deliveries.new ≡ what deliveries.old) }
{
    if multiple && tag == 0 {
        deliveries.discard(alloc, channel)
    } else {
        Ok(())
    }
}

// A call that queues this method was accepted: `confirm.select` asks for confirms.
fn confirms_called(confirms: &mut Confirms, channel: u16, method: &Method)
    ensures { confirms.new.what ≡ fold confirm_state.after_mark confirms.old.what (queued_marks channel method.now) }
{
    if let Method::Confirm(ConfirmMethod::Select { .. }) = method {
        confirms.select_called(channel);
    }
}

// The record of a call's answer; want of memory and of numbers have none.
pub(crate) fn ticket_record(told: Result<Ticket, Error>) -> Result<Record, Error>
    ensures { result ≡ ticket_told told }
{
    match told {
        Ok(ticket) => Ok(Record::Ticket(ticket.number)),
        Err(Error::NoMemory) => Err(Error::NoMemory),
        Err(Error::NumbersUsedUp) => Err(Error::NumbersUsedUp),
        Err(error) => Ok(Record::Refused(error)),
    }
}

fn publish_record(told: Result<Published, Error>) -> Result<Record, Error>
    ensures { result ≡ publish_told told }
{
    match told {
        Ok(published) => Ok(Record::Publish {
            ticket: published.ticket.number,
            confirm: published.confirm.number,
        }),
        Err(Error::NoMemory) => Err(Error::NoMemory),
        Err(Error::NumbersUsedUp) => Err(Error::NumbersUsedUp),
        Err(error) => Ok(Record::Refused(error)),
    }
}
