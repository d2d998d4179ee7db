//! A caller's calls of the class basic (AMQP 0-9-1, class 60, with RabbitMQ's nack), each as one step.
//!
//! A line each over `step`. Nothing is kept here, and nothing is decided: what a call does stands in the table of calls.

ghost use Rattle.lapin_types.specs.declared.call.Call.TheVariants as call;
ghost use Rattle.lapin_types.specs.declared.event.Event.TheVariants as event;
ghost use Rattle.lapin_shared.specs.Failed.{IsStep};

use crate::caller::{Caller, StepError};
use lapin_locked::{Crew, Told};
use lapin_types::{
    BasicAckOptions, BasicCancelOptions, BasicConsumeOptions, BasicGetOptions, BasicNackOptions,
    BasicProperties, BasicPublishOptions, BasicQosOptions, BasicRecoverAsyncOptions,
    BasicRecoverOptions, BasicRejectOptions, Call, Event, FieldTable, Payload, ShortString,
};
use std::alloc::Global;
use std::sync::Wait;

impl<L: Crew> Caller<L> {
    ghost use Rattle.std.specs.Prelude.{⊤};
    ghost use Rattle.std.specs.Borrow.{sem, follows_so};
    ghost use mathlib.Core.Option.{none};
    ghost use Rattle.lapin_shared.specs.contracts.caller.Caller.{the_row};

    /// Limits how many messages may be unacknowledged (AMQP 0-9-1, `basic.qos`).
    pub fn basic_qos<R: Wait>(
        &mut self,
        rt: &R,
        alloc: Global,
        channel: u16,
        prefetch_count: u16,
        options: BasicQosOptions,
    ) -> Result<&Told, StepError>
        ensures* after { sem 𝓛 (follows_so (the_row L.row L.Ledger) (the_row L.row L.Ledger) self.entry.ghost_name none (λ _ _. ⊤) (λ new. IsStep result (λ t. t.now) self.old (event.Call channel (call.BasicQos prefetch_count options)) new)) }
    {
        let call = Call::BasicQos {
            prefetch_count,
            options,
        };
        self.step(rt, alloc, Event::Call(channel, call))
    }

    /// Asks the broker to deliver the messages of a queue (AMQP 0-9-1, `basic.consume`).
    pub fn basic_consume<R: Wait>(
        &mut self,
        rt: &R,
        alloc: Global,
        channel: u16,
        queue: ShortString,
        consumer_tag: ShortString,
        options: BasicConsumeOptions,
        arguments: FieldTable,
    ) -> Result<&Told, StepError>
        ensures* after { sem 𝓛 (follows_so (the_row L.row L.Ledger) (the_row L.row L.Ledger) self.entry.ghost_name none (λ _ _. ⊤) (λ new. IsStep result (λ t. t.now) self.old (event.Call channel (call.BasicConsume queue consumer_tag options arguments)) new)) }
    {
        let call = Call::BasicConsume {
            queue,
            consumer_tag,
            options,
            arguments,
        };
        self.step(rt, alloc, Event::Call(channel, call))
    }

    /// Asks the broker to end a consumer (AMQP 0-9-1, `basic.cancel`).
    pub fn basic_cancel<R: Wait>(
        &mut self,
        rt: &R,
        alloc: Global,
        channel: u16,
        consumer_tag: ShortString,
        options: BasicCancelOptions,
    ) -> Result<&Told, StepError>
        ensures* after { sem 𝓛 (follows_so (the_row L.row L.Ledger) (the_row L.row L.Ledger) self.entry.ghost_name none (λ _ _. ⊤) (λ new. IsStep result (λ t. t.now) self.old (event.Call channel (call.BasicCancel consumer_tag options)) new)) }
    {
        let call = Call::BasicCancel {
            consumer_tag,
            options,
        };
        self.step(rt, alloc, Event::Call(channel, call))
    }

    /// Publishes a message (AMQP 0-9-1, `basic.publish`). Where there is no memory for the payload's copy no step is made.
    pub fn basic_publish<R: Wait>(
        &mut self,
        rt: &R,
        alloc: Global,
        channel: u16,
        exchange: ShortString,
        routing_key: ShortString,
        options: BasicPublishOptions,
        payload: &[u8],
        properties: BasicProperties,
    ) -> Result<&Told, StepError>
        ensures* after { sem 𝓛 (follows_so (the_row L.row L.Ledger) (the_row L.row L.Ledger) self.entry.ghost_name none (λ _ _. ⊤) (λ new. IsStep result (λ t. t.now) self.old (event.Call channel (call.BasicPublish exchange routing_key options payload.now properties)) new)) }
    {
        let Ok(payload) = Payload::new(alloc, payload) else {
            drop(exchange);
            drop(routing_key);
            drop(properties);
            return Err(StepError::NoMemory);
        };
        let call = Call::BasicPublish {
            exchange,
            routing_key,
            options,
            payload,
            properties,
        };
        self.step(rt, alloc, Event::Call(channel, call))
    }

    /// Publishes a message, unless as many of the channel wait or are outstanding as its limit allows. Where there is no memory for
    /// the payload's copy no step is made.
    pub fn try_basic_publish<R: Wait>(
        &mut self,
        rt: &R,
        alloc: Global,
        channel: u16,
        exchange: ShortString,
        routing_key: ShortString,
        options: BasicPublishOptions,
        payload: &[u8],
        properties: BasicProperties,
    ) -> Result<&Told, StepError>
        ensures* after { sem 𝓛 (follows_so (the_row L.row L.Ledger) (the_row L.row L.Ledger) self.entry.ghost_name none (λ _ _. ⊤) (λ new. IsStep result (λ t. t.now) self.old (event.Call channel (call.TryBasicPublish exchange routing_key options payload.now properties)) new)) }
    {
        let Ok(payload) = Payload::new(alloc, payload) else {
            drop(exchange);
            drop(routing_key);
            drop(properties);
            return Err(StepError::NoMemory);
        };
        let call = Call::TryBasicPublish {
            exchange,
            routing_key,
            options,
            payload,
            properties,
        };
        self.step(rt, alloc, Event::Call(channel, call))
    }

    /// Asks for one message of a queue (AMQP 0-9-1, `basic.get`).
    pub fn basic_get<R: Wait>(
        &mut self,
        rt: &R,
        alloc: Global,
        channel: u16,
        queue: ShortString,
        options: BasicGetOptions,
    ) -> Result<&Told, StepError>
        ensures* after { sem 𝓛 (follows_so (the_row L.row L.Ledger) (the_row L.row L.Ledger) self.entry.ghost_name none (λ _ _. ⊤) (λ new. IsStep result (λ t. t.now) self.old (event.Call channel (call.BasicGet queue options)) new)) }
    {
        let call = Call::BasicGet { queue, options };
        self.step(rt, alloc, Event::Call(channel, call))
    }

    /// Acknowledges a delivery, with `multiple` all up to it (AMQP 0-9-1, `basic.ack`).
    pub fn basic_ack<R: Wait>(
        &mut self,
        rt: &R,
        alloc: Global,
        channel: u16,
        delivery_tag: u64,
        options: BasicAckOptions,
    ) -> Result<&Told, StepError>
        ensures* after { sem 𝓛 (follows_so (the_row L.row L.Ledger) (the_row L.row L.Ledger) self.entry.ghost_name none (λ _ _. ⊤) (λ new. IsStep result (λ t. t.now) self.old (event.Call channel (call.BasicAck delivery_tag options)) new)) }
    {
        let call = Call::BasicAck {
            delivery_tag,
            options,
        };
        self.step(rt, alloc, Event::Call(channel, call))
    }

    /// Gives a delivery back, with `multiple` all up to it (RabbitMQ, `basic.nack`).
    pub fn basic_nack<R: Wait>(
        &mut self,
        rt: &R,
        alloc: Global,
        channel: u16,
        delivery_tag: u64,
        options: BasicNackOptions,
    ) -> Result<&Told, StepError>
        ensures* after { sem 𝓛 (follows_so (the_row L.row L.Ledger) (the_row L.row L.Ledger) self.entry.ghost_name none (λ _ _. ⊤) (λ new. IsStep result (λ t. t.now) self.old (event.Call channel (call.BasicNack delivery_tag options)) new)) }
    {
        let call = Call::BasicNack {
            delivery_tag,
            options,
        };
        self.step(rt, alloc, Event::Call(channel, call))
    }

    /// Gives one delivery back (AMQP 0-9-1, `basic.reject`).
    pub fn basic_reject<R: Wait>(
        &mut self,
        rt: &R,
        alloc: Global,
        channel: u16,
        delivery_tag: u64,
        options: BasicRejectOptions,
    ) -> Result<&Told, StepError>
        ensures* after { sem 𝓛 (follows_so (the_row L.row L.Ledger) (the_row L.row L.Ledger) self.entry.ghost_name none (λ _ _. ⊤) (λ new. IsStep result (λ t. t.now) self.old (event.Call channel (call.BasicReject delivery_tag options)) new)) }
    {
        let call = Call::BasicReject {
            delivery_tag,
            options,
        };
        self.step(rt, alloc, Event::Call(channel, call))
    }

    /// Asks for all unacknowledged messages again, without a reply (AMQP 0-9-1, `basic.recover-async`).
    pub fn basic_recover_async<R: Wait>(
        &mut self,
        rt: &R,
        alloc: Global,
        channel: u16,
        options: BasicRecoverAsyncOptions,
    ) -> Result<&Told, StepError>
        ensures* after { sem 𝓛 (follows_so (the_row L.row L.Ledger) (the_row L.row L.Ledger) self.entry.ghost_name none (λ _ _. ⊤) (λ new. IsStep result (λ t. t.now) self.old (event.Call channel (call.BasicRecoverAsync options)) new)) }
    {
        let call = Call::BasicRecoverAsync { options };
        self.step(rt, alloc, Event::Call(channel, call))
    }

    /// Asks for all unacknowledged messages again (AMQP 0-9-1, `basic.recover`).
    pub fn basic_recover<R: Wait>(
        &mut self,
        rt: &R,
        alloc: Global,
        channel: u16,
        options: BasicRecoverOptions,
    ) -> Result<&Told, StepError>
        ensures* after { sem 𝓛 (follows_so (the_row L.row L.Ledger) (the_row L.row L.Ledger) self.entry.ghost_name none (λ _ _. ⊤) (λ new. IsStep result (λ t. t.now) self.old (event.Call channel (call.BasicRecover options)) new)) }
    {
        let call = Call::BasicRecover { options };
        self.step(rt, alloc, Event::Call(channel, call))
    }
}
