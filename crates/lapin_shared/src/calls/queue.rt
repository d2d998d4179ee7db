//! A caller's calls of the class queue (AMQP 0-9-1, class 50), each as one step.
//!
//! A line each over `step`. Nothing is kept here, and nothing is decided: what a call does stands in the table of calls.

ghost use Rattle.lapin_types.specs.declared.call.Call.TheVariants as call;
ghost use Rattle.lapin_types.specs.declared.event.Event.TheVariants as event;
ghost use Rattle.lapin_shared.specs.Failed.{IsStep};

use crate::caller::{Caller, StepError};
use lapin_locked::{Crew, Told};
use lapin_types::{
    Call, Event, FieldTable, QueueBindOptions, QueueDeclareOptions, QueueDeleteOptions,
    QueuePurgeOptions, ShortString,
};
use std::alloc::Global;
use std::sync::Wait;

impl<L: Crew> Caller<L> {
    ghost use Rattle.std.specs.Prelude.{⊤};
    ghost use Rattle.std.specs.Borrow.{sem, follows_so};
    ghost use mathlib.Core.Option.{none};
    ghost use Rattle.lapin_shared.specs.contracts.caller.Caller.{the_row};

    /// Declares a queue (AMQP 0-9-1, `queue.declare`).
    pub fn queue_declare<R: Wait>(
        &mut self,
        rt: &R,
        alloc: Global,
        channel: u16,
        queue: ShortString,
        options: QueueDeclareOptions,
        arguments: FieldTable,
    ) -> Result<&Told, StepError>
        ensures* after { sem 𝓛 (follows_so (the_row L.row L.Ledger) (the_row L.row L.Ledger) self.entry.ghost_name none (λ _ _. ⊤) (λ new. IsStep result (λ t. t.now) self.old (event.Call channel (call.QueueDeclare queue options arguments)) new)) }
    {
        let call = Call::QueueDeclare {
            queue,
            options,
            arguments,
        };
        self.step(rt, alloc, Event::Call(channel, call))
    }

    /// Binds a queue to an exchange (AMQP 0-9-1, `queue.bind`).
    pub fn queue_bind<R: Wait>(
        &mut self,
        rt: &R,
        alloc: Global,
        channel: u16,
        queue: ShortString,
        exchange: ShortString,
        routing_key: ShortString,
        options: QueueBindOptions,
        arguments: FieldTable,
    ) -> Result<&Told, StepError>
        ensures* after { sem 𝓛 (follows_so (the_row L.row L.Ledger) (the_row L.row L.Ledger) self.entry.ghost_name none (λ _ _. ⊤) (λ new. IsStep result (λ t. t.now) self.old (event.Call channel (call.QueueBind queue exchange routing_key options arguments)) new)) }
    {
        let call = Call::QueueBind {
            queue,
            exchange,
            routing_key,
            options,
            arguments,
        };
        self.step(rt, alloc, Event::Call(channel, call))
    }

    /// Drops the messages of a queue (AMQP 0-9-1, `queue.purge`).
    pub fn queue_purge<R: Wait>(
        &mut self,
        rt: &R,
        alloc: Global,
        channel: u16,
        queue: ShortString,
        options: QueuePurgeOptions,
    ) -> Result<&Told, StepError>
        ensures* after { sem 𝓛 (follows_so (the_row L.row L.Ledger) (the_row L.row L.Ledger) self.entry.ghost_name none (λ _ _. ⊤) (λ new. IsStep result (λ t. t.now) self.old (event.Call channel (call.QueuePurge queue options)) new)) }
    {
        let call = Call::QueuePurge { queue, options };
        self.step(rt, alloc, Event::Call(channel, call))
    }

    /// Deletes a queue (AMQP 0-9-1, `queue.delete`).
    pub fn queue_delete<R: Wait>(
        &mut self,
        rt: &R,
        alloc: Global,
        channel: u16,
        queue: ShortString,
        options: QueueDeleteOptions,
    ) -> Result<&Told, StepError>
        ensures* after { sem 𝓛 (follows_so (the_row L.row L.Ledger) (the_row L.row L.Ledger) self.entry.ghost_name none (λ _ _. ⊤) (λ new. IsStep result (λ t. t.now) self.old (event.Call channel (call.QueueDelete queue options)) new)) }
    {
        let call = Call::QueueDelete { queue, options };
        self.step(rt, alloc, Event::Call(channel, call))
    }

    /// Takes a queue's binding to an exchange away (AMQP 0-9-1, `queue.unbind`).
    pub fn queue_unbind<R: Wait>(
        &mut self,
        rt: &R,
        alloc: Global,
        channel: u16,
        queue: ShortString,
        exchange: ShortString,
        routing_key: ShortString,
        arguments: FieldTable,
    ) -> Result<&Told, StepError>
        ensures* after { sem 𝓛 (follows_so (the_row L.row L.Ledger) (the_row L.row L.Ledger) self.entry.ghost_name none (λ _ _. ⊤) (λ new. IsStep result (λ t. t.now) self.old (event.Call channel (call.QueueUnbind queue exchange routing_key arguments)) new)) }
    {
        let call = Call::QueueUnbind {
            queue,
            exchange,
            routing_key,
            arguments,
        };
        self.step(rt, alloc, Event::Call(channel, call))
    }
}
