//! A channel's calls of the class basic (AMQP 0-9-1, class 60, with RabbitMQ's nack).
//!
//! A line each over the session's calls. Nothing is kept here, and nothing is decided: which method a call queues and what its ticket
//! is answered with stands in the table of calls.

ghost use Rattle.std.specs.Prelude.{◌≡◌, OnOk, OnErr};
ghost use Rattle.lapin_types.specs.declared.event.Event.TheVariants.{Call as CallEvent};
ghost use Rattle.lapin_types.specs.declared.call.Call.TheVariants as call;
ghost use Rattle.lapin_machine.specs.World.{told_by, next};
ghost use Rattle.lapin_machine.specs.Told.{PublishTold, TicketTold};
ghost use Rattle.lapin_machine.specs.Numbers.{CallCause, TryCause};

use crate::channel::Channel;
use lapin_machine::{Published, Session, Ticket};
use lapin_types::{
    BasicAckOptions, BasicCancelOptions, BasicConsumeOptions, BasicGetOptions, BasicNackOptions,
    BasicProperties, BasicPublishOptions, BasicQosOptions, BasicRecoverAsyncOptions,
    BasicRecoverOptions, BasicRejectOptions, Call, Error, FieldTable, Payload, ShortString,
};
use std::alloc::Global;

impl Channel {
    /// Limits how many messages may be unacknowledged (AMQP 0-9-1, `basic.qos`, whose limit in bytes is 0: none). The
    /// ticket is `Done` at the broker's `basic.qos-ok`.
    ///
    /// # Errors
    /// `InvalidChannelState` where the channel is not open, `NumbersUsedUp` where the next ticket would pass the greatest
    /// `u64`, `NoMemory`. Nothing changes then.
    pub fn basic_qos(
        &self,
        alloc: Global,
        session: &mut Session,
        prefetch_count: u16,
        options: BasicQosOptions,
    ) -> Result<Ticket, Error>
        ensures told { TicketTold result (told_by session.old (CallEvent self.now.id (call.BasicQos prefetch_count options))) }
        ensures ok { OnOk result (session.new ≡ next session.old (CallEvent self.now.id (call.BasicQos prefetch_count options))) }
        ensures err { OnErr result (session.new ≡ session.old) }
        ensures cause { CallCause result self.now.id (call.BasicQos prefetch_count options) session.old.wire }
    {
        let call = Call::BasicQos {
            prefetch_count,
            options,
        };
        session.call(alloc, self.id, call)
    }

    /// Asks the broker to deliver the messages of a queue (AMQP 0-9-1, `basic.consume`). The ticket is answered with `Consumer` and
    /// the consumer's number at the broker's `basic.consume-ok`, whose tag is then the consumer's, with `nowait` at once, and the
    /// tag is then the given one. A consumer that was registered on this channel under the same tag receives nothing more.
    ///
    /// # Errors
    /// `InvalidChannelState` where the channel is not open, `NumbersUsedUp` where the next ticket, or with `nowait` the next
    /// consumer, would pass the greatest `u64`, `NoMemory`. Nothing changes then.
    pub fn basic_consume(
        &self,
        alloc: Global,
        session: &mut Session,
        queue: ShortString,
        consumer_tag: ShortString,
        options: BasicConsumeOptions,
        arguments: FieldTable,
    ) -> Result<Ticket, Error>
        ensures told { TicketTold result (told_by session.old (CallEvent self.now.id (call.BasicConsume queue consumer_tag options arguments))) }
        ensures ok { OnOk result (session.new ≡ next session.old (CallEvent self.now.id (call.BasicConsume queue consumer_tag options arguments))) }
        ensures err { OnErr result (session.new ≡ session.old) }
        ensures cause { CallCause result self.now.id (call.BasicConsume queue consumer_tag options arguments) session.old.wire }
    {
        let call = Call::BasicConsume {
            queue,
            consumer_tag,
            options,
            arguments,
        };
        session.call(alloc, self.id, call)
    }

    /// Asks the broker to end a consumer (AMQP 0-9-1, `basic.cancel`): the consumer that is registered under the tag has no delegate
    /// from now on. The ticket is `Done` at the broker's `basic.cancel-ok`, with `nowait` at once; the consumer of the tag that the
    /// reply names, with `nowait` of the given tag, is then registered no more and is given its end.
    ///
    /// # Errors
    /// `InvalidChannelState` where the channel is not open, `NumbersUsedUp` where the next ticket would pass the greatest
    /// `u64`, `NoMemory`. Nothing changes then.
    pub fn basic_cancel(
        &self,
        alloc: Global,
        session: &mut Session,
        consumer_tag: ShortString,
        options: BasicCancelOptions,
    ) -> Result<Ticket, Error>
        ensures told { TicketTold result (told_by session.old (CallEvent self.now.id (call.BasicCancel consumer_tag options))) }
        ensures ok { OnOk result (session.new ≡ next session.old (CallEvent self.now.id (call.BasicCancel consumer_tag options))) }
        ensures err { OnErr result (session.new ≡ session.old) }
        ensures cause { CallCause result self.now.id (call.BasicCancel consumer_tag options) session.old.wire }
    {
        let call = Call::BasicCancel {
            consumer_tag,
            options,
        };
        session.call(alloc, self.id, call)
    }

    /// Publishes a message (AMQP 0-9-1, `basic.publish`). Its frames leave whole and in one piece, after all publishes
    /// that were called before it. The payload may have any length. The ticket is answered with `Confirm` and the
    /// confirm's number as the last frame leaves.
    ///
    /// # Errors
    /// `InvalidChannelState` where the channel is not open, `NumbersUsedUp` where the next ticket or confirm would pass the
    /// greatest `u64`, `NoMemory`. Nothing changes then.
    pub fn basic_publish(
        &self,
        alloc: Global,
        session: &mut Session,
        exchange: ShortString,
        routing_key: ShortString,
        options: BasicPublishOptions,
        payload: &[u8],
        properties: BasicProperties,
    ) -> Result<Published, Error>
        ensures told { PublishTold result (told_by session.old (CallEvent self.now.id (call.BasicPublish exchange routing_key options payload.now properties))) }
        ensures ok { OnOk result (session.new ≡ next session.old (CallEvent self.now.id (call.BasicPublish exchange routing_key options payload.now properties))) }
        ensures err { OnErr result (session.new ≡ session.old) }
        ensures cause { CallCause result self.now.id (call.BasicPublish exchange routing_key options payload.now properties) session.old.wire }
    {
        let payload = Payload::new(alloc, payload)?;
        session.basic_publish(
            alloc,
            self.id,
            exchange,
            routing_key,
            options,
            payload,
            properties,
        )
    }

    /// Publishes a message as `basic_publish` does, unless the channel has a limit of outstanding confirms (`confirm_limit`) and its
    /// publishes that have not begun to leave and its outstanding confirms are together at least as many. It is then refused, and
    /// may be called again once a confirm has come.
    ///
    /// # Errors
    /// `InvalidChannelState` where the channel is not open, `ConfirmsOutstanding` with the limit where so many wait or are
    /// outstanding, `NumbersUsedUp` where the next ticket or confirm would pass the greatest `u64`, `NoMemory`. Nothing changes
    /// then.
    pub fn try_basic_publish(
        &self,
        alloc: Global,
        session: &mut Session,
        exchange: ShortString,
        routing_key: ShortString,
        options: BasicPublishOptions,
        payload: &[u8],
        properties: BasicProperties,
    ) -> Result<Published, Error>
        ensures told { PublishTold result (told_by session.old (CallEvent self.now.id (call.TryBasicPublish exchange routing_key options payload.now properties))) }
        ensures ok { OnOk result (session.new ≡ next session.old (CallEvent self.now.id (call.TryBasicPublish exchange routing_key options payload.now properties))) }
        ensures err { OnErr result (session.new ≡ session.old) }
        ensures cause { TryCause result self.now.id (call.TryBasicPublish exchange routing_key options payload.now properties) session.old }
    {
        let content = Payload::new(alloc, payload)?;
        session.try_basic_publish(
            alloc,
            self.id,
            exchange,
            routing_key,
            options,
            content,
            properties,
        )
    }

    /// Asks for one message of a queue (AMQP 0-9-1, `basic.get`). The ticket is answered with `Got` and the message once its
    /// content is whole, or with `Got` and none at the broker's `basic.get-empty`. The message is given an acker.
    ///
    /// # Errors
    /// `InvalidChannelState` where the channel is not open, `NumbersUsedUp` where the next ticket would pass the greatest
    /// `u64`, `NoMemory`. Nothing changes then.
    pub fn basic_get(
        &self,
        alloc: Global,
        session: &mut Session,
        queue: ShortString,
        options: BasicGetOptions,
    ) -> Result<Ticket, Error>
        ensures told { TicketTold result (told_by session.old (CallEvent self.now.id (call.BasicGet queue options))) }
        ensures ok { OnOk result (session.new ≡ next session.old (CallEvent self.now.id (call.BasicGet queue options))) }
        ensures err { OnErr result (session.new ≡ session.old) }
        ensures cause { CallCause result self.now.id (call.BasicGet queue options) session.old.wire }
    {
        session.call(alloc, self.id, Call::BasicGet { queue, options })
    }

    /// Acknowledges a delivery, with `multiple` all up to it, and all with tag 0 (AMQP 0-9-1, `basic.ack`). The ticket
    /// is `Done` as the frame leaves, since the broker answers nothing. With `multiple` and tag 0 all that waits in the queues
    /// of the channel's consumers is void from the call on.
    ///
    /// # Errors
    /// `InvalidChannelState` where the channel is not open, `NumbersUsedUp` where the next ticket would pass the greatest
    /// `u64`, `NoMemory`. Nothing changes then.
    pub fn basic_ack(
        &self,
        alloc: Global,
        session: &mut Session,
        delivery_tag: u64,
        options: BasicAckOptions,
    ) -> Result<Ticket, Error>
        ensures told { TicketTold result (told_by session.old (CallEvent self.now.id (call.BasicAck delivery_tag options))) }
        ensures ok { OnOk result (session.new ≡ next session.old (CallEvent self.now.id (call.BasicAck delivery_tag options))) }
        ensures err { OnErr result (session.new ≡ session.old) }
        ensures cause { CallCause result self.now.id (call.BasicAck delivery_tag options) session.old.wire }
    {
        let call = Call::BasicAck {
            delivery_tag,
            options,
        };
        session.call(alloc, self.id, call)
    }

    /// Gives a delivery back, with `multiple` all up to it, and all with tag 0 (RabbitMQ, `basic.nack`). The ticket is
    /// `Done` as the frame leaves, since the broker answers nothing. With `multiple` and tag 0 all that waits in the queues
    /// of the channel's consumers is void from the call on.
    ///
    /// # Errors
    /// `InvalidChannelState` where the channel is not open, `NumbersUsedUp` where the next ticket would pass the greatest
    /// `u64`, `NoMemory`. Nothing changes then.
    pub fn basic_nack(
        &self,
        alloc: Global,
        session: &mut Session,
        delivery_tag: u64,
        options: BasicNackOptions,
    ) -> Result<Ticket, Error>
        ensures told { TicketTold result (told_by session.old (CallEvent self.now.id (call.BasicNack delivery_tag options))) }
        ensures ok { OnOk result (session.new ≡ next session.old (CallEvent self.now.id (call.BasicNack delivery_tag options))) }
        ensures err { OnErr result (session.new ≡ session.old) }
        ensures cause { CallCause result self.now.id (call.BasicNack delivery_tag options) session.old.wire }
    {
        let call = Call::BasicNack {
            delivery_tag,
            options,
        };
        session.call(alloc, self.id, call)
    }

    /// Gives one delivery back (AMQP 0-9-1, `basic.reject`). The ticket is `Done` as the frame leaves, since the broker
    /// answers nothing.
    ///
    /// # Errors
    /// `InvalidChannelState` where the channel is not open, `NumbersUsedUp` where the next ticket would pass the greatest
    /// `u64`, `NoMemory`. Nothing changes then.
    pub fn basic_reject(
        &self,
        alloc: Global,
        session: &mut Session,
        delivery_tag: u64,
        options: BasicRejectOptions,
    ) -> Result<Ticket, Error>
        ensures told { TicketTold result (told_by session.old (CallEvent self.now.id (call.BasicReject delivery_tag options))) }
        ensures ok { OnOk result (session.new ≡ next session.old (CallEvent self.now.id (call.BasicReject delivery_tag options))) }
        ensures err { OnErr result (session.new ≡ session.old) }
        ensures cause { CallCause result self.now.id (call.BasicReject delivery_tag options) session.old.wire }
    {
        let call = Call::BasicReject {
            delivery_tag,
            options,
        };
        session.call(alloc, self.id, call)
    }

    /// Asks for all unacknowledged messages again (AMQP 0-9-1, `basic.recover-async`). The ticket is `Done` as the
    /// frame leaves, since the broker answers nothing. All that waits in the queues of the channel's consumers is void from the
    /// call on.
    ///
    /// # Errors
    /// `InvalidChannelState` where the channel is not open, `NumbersUsedUp` where the next ticket would pass the greatest
    /// `u64`, `NoMemory`. Nothing changes then.
    pub fn basic_recover_async(
        &self,
        alloc: Global,
        session: &mut Session,
        options: BasicRecoverAsyncOptions,
    ) -> Result<Ticket, Error>
        ensures told { TicketTold result (told_by session.old (CallEvent self.now.id (call.BasicRecoverAsync options))) }
        ensures ok { OnOk result (session.new ≡ next session.old (CallEvent self.now.id (call.BasicRecoverAsync options))) }
        ensures err { OnErr result (session.new ≡ session.old) }
        ensures cause { CallCause result self.now.id (call.BasicRecoverAsync options) session.old.wire }
    {
        let call = Call::BasicRecoverAsync { options };
        session.call(alloc, self.id, call)
    }

    /// Asks for all unacknowledged messages again (AMQP 0-9-1, `basic.recover`). The ticket is `Done` at the broker's
    /// `basic.recover-ok`, and all that waits in the queues of the channel's consumers is void then.
    ///
    /// # Errors
    /// `InvalidChannelState` where the channel is not open, `NumbersUsedUp` where the next ticket would pass the greatest
    /// `u64`, `NoMemory`. Nothing changes then.
    pub fn basic_recover(
        &self,
        alloc: Global,
        session: &mut Session,
        options: BasicRecoverOptions,
    ) -> Result<Ticket, Error>
        ensures told { TicketTold result (told_by session.old (CallEvent self.now.id (call.BasicRecover options))) }
        ensures ok { OnOk result (session.new ≡ next session.old (CallEvent self.now.id (call.BasicRecover options))) }
        ensures err { OnErr result (session.new ≡ session.old) }
        ensures cause { CallCause result self.now.id (call.BasicRecover options) session.old.wire }
    {
        let call = Call::BasicRecover { options };
        session.call(alloc, self.id, call)
    }
}
