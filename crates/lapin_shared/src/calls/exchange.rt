//! A caller's calls of the class exchange (AMQP 0-9-1, class 40, with RabbitMQ's bindings between exchanges), each as one step.
//!
//! A line each over `step`. Nothing is kept here, and nothing is decided: what a call does stands in the table of calls.

ghost use Rattle.lapin_types.specs.declared.call.Call.TheVariants as call;
ghost use Rattle.lapin_types.specs.declared.event.Event.TheVariants as event;
ghost use Rattle.lapin_shared.specs.Failed.{IsStep};

use crate::caller::{Caller, StepError};
use lapin_locked::{Crew, Told};
use lapin_types::{
    Call, Event, ExchangeBindOptions, ExchangeDeclareOptions, ExchangeDeleteOptions, ExchangeKind,
    ExchangeUnbindOptions, FieldTable, ShortString,
};
use std::alloc::Global;
use std::sync::Wait;

impl<L: Crew> Caller<L> {
    ghost use Rattle.std.specs.Prelude.{⊤};
    ghost use Rattle.std.specs.Borrow.{sem, follows_so};
    ghost use mathlib.Core.Option.{none};
    ghost use Rattle.lapin_shared.specs.contracts.caller.Caller.{the_row};

    /// Declares an exchange (AMQP 0-9-1, `exchange.declare`).
    pub fn exchange_declare<R: Wait>(
        &mut self,
        rt: &R,
        alloc: Global,
        channel: u16,
        exchange: ShortString,
        kind: ExchangeKind,
        options: ExchangeDeclareOptions,
        arguments: FieldTable,
    ) -> Result<&Told, StepError>
        ensures* after { sem 𝓛 (follows_so (the_row L.row L.Ledger) (the_row L.row L.Ledger) self.entry.ghost_name none (λ _ _. ⊤) (λ new. IsStep result (λ t. t.now) self.old (event.Call channel (call.ExchangeDeclare exchange kind options arguments)) new)) }
    {
        let call = Call::ExchangeDeclare {
            exchange,
            kind,
            options,
            arguments,
        };
        self.step(rt, alloc, Event::Call(channel, call))
    }

    /// Deletes an exchange (AMQP 0-9-1, `exchange.delete`).
    pub fn exchange_delete<R: Wait>(
        &mut self,
        rt: &R,
        alloc: Global,
        channel: u16,
        exchange: ShortString,
        options: ExchangeDeleteOptions,
    ) -> Result<&Told, StepError>
        ensures* after { sem 𝓛 (follows_so (the_row L.row L.Ledger) (the_row L.row L.Ledger) self.entry.ghost_name none (λ _ _. ⊤) (λ new. IsStep result (λ t. t.now) self.old (event.Call channel (call.ExchangeDelete exchange options)) new)) }
    {
        let call = Call::ExchangeDelete { exchange, options };
        self.step(rt, alloc, Event::Call(channel, call))
    }

    /// Binds an exchange to another one (RabbitMQ, `exchange.bind`).
    pub fn exchange_bind<R: Wait>(
        &mut self,
        rt: &R,
        alloc: Global,
        channel: u16,
        destination: ShortString,
        source: ShortString,
        routing_key: ShortString,
        options: ExchangeBindOptions,
        arguments: FieldTable,
    ) -> Result<&Told, StepError>
        ensures* after { sem 𝓛 (follows_so (the_row L.row L.Ledger) (the_row L.row L.Ledger) self.entry.ghost_name none (λ _ _. ⊤) (λ new. IsStep result (λ t. t.now) self.old (event.Call channel (call.ExchangeBind destination source routing_key options arguments)) new)) }
    {
        let call = Call::ExchangeBind {
            destination,
            source,
            routing_key,
            options,
            arguments,
        };
        self.step(rt, alloc, Event::Call(channel, call))
    }

    /// Takes a binding between two exchanges away (RabbitMQ, `exchange.unbind`).
    pub fn exchange_unbind<R: Wait>(
        &mut self,
        rt: &R,
        alloc: Global,
        channel: u16,
        destination: ShortString,
        source: ShortString,
        routing_key: ShortString,
        options: ExchangeUnbindOptions,
        arguments: FieldTable,
    ) -> Result<&Told, StepError>
        ensures* after { sem 𝓛 (follows_so (the_row L.row L.Ledger) (the_row L.row L.Ledger) self.entry.ghost_name none (λ _ _. ⊤) (λ new. IsStep result (λ t. t.now) self.old (event.Call channel (call.ExchangeUnbind destination source routing_key options arguments)) new)) }
    {
        let call = Call::ExchangeUnbind {
            destination,
            source,
            routing_key,
            options,
            arguments,
        };
        self.step(rt, alloc, Event::Call(channel, call))
    }
}
