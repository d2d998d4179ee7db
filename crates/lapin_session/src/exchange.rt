//! A channel's calls of the class exchange (AMQP 0-9-1, class 40, with the bindings between exchanges that RabbitMQ adds).
//!
//! A line each over the session's calls. Nothing is kept here, and nothing is decided: which method a call queues and what its ticket
//! is answered with stands in the table of calls.

ghost use Rattle.std.specs.Prelude.{◌≡◌, OnOk, OnErr};
ghost use Rattle.lapin_types.specs.declared.event.Event.TheVariants.{Call as CallEvent};
ghost use Rattle.lapin_types.specs.declared.call.Call.TheVariants as call;
ghost use Rattle.lapin_machine.specs.World.{told_by, next};
ghost use Rattle.lapin_machine.specs.Told.{TicketTold};
ghost use Rattle.lapin_machine.specs.Numbers.{CallCause};

use crate::channel::Channel;
use lapin_machine::{Session, Ticket};
use lapin_types::{
    Call, Error, ExchangeBindOptions, ExchangeDeclareOptions, ExchangeDeleteOptions, ExchangeKind,
    ExchangeUnbindOptions, FieldTable, ShortString,
};
use std::alloc::Global;

impl Channel {
    /// Declares an exchange of a kind (AMQP 0-9-1, `exchange.declare`). The ticket is `Done` at the broker's
    /// `exchange.declare-ok`, with `nowait` at once.
    ///
    /// # Errors
    /// `InvalidChannelState` where the channel is not open, `NumbersUsedUp` where the next ticket would pass the greatest
    /// `u64`, `NoMemory`. Nothing changes then.
    pub fn exchange_declare(
        &self,
        alloc: Global,
        session: &mut Session,
        exchange: ShortString,
        kind: ExchangeKind,
        options: ExchangeDeclareOptions,
        arguments: FieldTable,
    ) -> Result<Ticket, Error>
        ensures told { TicketTold result (told_by session.old (CallEvent self.now.id (call.ExchangeDeclare exchange kind options arguments))) }
        ensures ok { OnOk result (session.new ≡ next session.old (CallEvent self.now.id (call.ExchangeDeclare exchange kind options arguments))) }
        ensures err { OnErr result (session.new ≡ session.old) }
        ensures cause { CallCause result self.now.id (call.ExchangeDeclare exchange kind options arguments) session.old.wire }
    {
        let call = Call::ExchangeDeclare {
            exchange,
            kind,
            options,
            arguments,
        };
        session.call(alloc, self.id, call)
    }

    /// Deletes an exchange (AMQP 0-9-1, `exchange.delete`). The ticket is `Done` at the broker's `exchange.delete-ok`,
    /// with `nowait` at once.
    ///
    /// # Errors
    /// `InvalidChannelState` where the channel is not open, `NumbersUsedUp` where the next ticket would pass the greatest
    /// `u64`, `NoMemory`. Nothing changes then.
    pub fn exchange_delete(
        &self,
        alloc: Global,
        session: &mut Session,
        exchange: ShortString,
        options: ExchangeDeleteOptions,
    ) -> Result<Ticket, Error>
        ensures told { TicketTold result (told_by session.old (CallEvent self.now.id (call.ExchangeDelete exchange options))) }
        ensures ok { OnOk result (session.new ≡ next session.old (CallEvent self.now.id (call.ExchangeDelete exchange options))) }
        ensures err { OnErr result (session.new ≡ session.old) }
        ensures cause { CallCause result self.now.id (call.ExchangeDelete exchange options) session.old.wire }
    {
        let call = Call::ExchangeDelete { exchange, options };
        session.call(alloc, self.id, call)
    }

    /// Binds an exchange to another one, from which it then gets messages (RabbitMQ, `exchange.bind`). The ticket is
    /// `Done` at the broker's `exchange.bind-ok`, with `nowait` at once.
    ///
    /// # Errors
    /// `InvalidChannelState` where the channel is not open, `NumbersUsedUp` where the next ticket would pass the greatest
    /// `u64`, `NoMemory`. Nothing changes then.
    pub fn exchange_bind(
        &self,
        alloc: Global,
        session: &mut Session,
        destination: ShortString,
        source: ShortString,
        routing_key: ShortString,
        options: ExchangeBindOptions,
        arguments: FieldTable,
    ) -> Result<Ticket, Error>
        ensures told { TicketTold result (told_by session.old (CallEvent self.now.id (call.ExchangeBind destination source routing_key options arguments))) }
        ensures ok { OnOk result (session.new ≡ next session.old (CallEvent self.now.id (call.ExchangeBind destination source routing_key options arguments))) }
        ensures err { OnErr result (session.new ≡ session.old) }
        ensures cause { CallCause result self.now.id (call.ExchangeBind destination source routing_key options arguments) session.old.wire }
    {
        let call = Call::ExchangeBind {
            destination,
            source,
            routing_key,
            options,
            arguments,
        };
        session.call(alloc, self.id, call)
    }

    /// Takes a binding between two exchanges away (RabbitMQ, `exchange.unbind`). The ticket is `Done` at the broker's
    /// `exchange.unbind-ok`, with `nowait` at once.
    ///
    /// # Errors
    /// `InvalidChannelState` where the channel is not open, `NumbersUsedUp` where the next ticket would pass the greatest
    /// `u64`, `NoMemory`. Nothing changes then.
    pub fn exchange_unbind(
        &self,
        alloc: Global,
        session: &mut Session,
        destination: ShortString,
        source: ShortString,
        routing_key: ShortString,
        options: ExchangeUnbindOptions,
        arguments: FieldTable,
    ) -> Result<Ticket, Error>
        ensures told { TicketTold result (told_by session.old (CallEvent self.now.id (call.ExchangeUnbind destination source routing_key options arguments))) }
        ensures ok { OnOk result (session.new ≡ next session.old (CallEvent self.now.id (call.ExchangeUnbind destination source routing_key options arguments))) }
        ensures err { OnErr result (session.new ≡ session.old) }
        ensures cause { CallCause result self.now.id (call.ExchangeUnbind destination source routing_key options arguments) session.old.wire }
    {
        let call = Call::ExchangeUnbind {
            destination,
            source,
            routing_key,
            options,
            arguments,
        };
        session.call(alloc, self.id, call)
    }
}
