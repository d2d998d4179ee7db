//! A channel's calls of the class queue (AMQP 0-9-1, class 50).
//!
//! A line each over the session's calls. Nothing is kept here, and nothing is decided: which method a call queues and what its ticket
//! is answered with stands in the table of calls.

ghost use Rattle.std.specs.Prelude.{◌≡◌, OnOk, OnErr};
ghost use Rattle.lapin_types.specs.declared.event.Event.TheVariants.{Call as CallEvent};
ghost use Rattle.lapin_types.specs.declared.call.Call.TheVariants as call;
ghost use Rattle.lapin_machine.specs.World.{told_by, next};
ghost use Rattle.lapin_machine.specs.Told.{TicketTold};
ghost use Rattle.lapin_machine.specs.Numbers.{CallCause};

use crate::channel::Channel;
use lapin_machine::{Session, Ticket};
use lapin_types::{
    Call, Error, FieldTable, QueueBindOptions, QueueDeclareOptions, QueueDeleteOptions,
    QueuePurgeOptions, ShortString,
};
use std::alloc::Global;

impl Channel {
    /// Declares a queue (AMQP 0-9-1, `queue.declare`). The ticket is answered with the `Queue` of the broker's
    /// `queue.declare-ok`; the broker names the queue where the name is empty. With `nowait` it is answered at once,
    /// with the given name and counts of 0.
    ///
    /// # Errors
    /// `InvalidChannelState` where the channel is not open, `NumbersUsedUp` where the next ticket would pass the greatest
    /// `u64`, `NoMemory`. Nothing changes then.
    pub fn queue_declare(
        &self,
        alloc: Global,
        session: &mut Session,
        queue: ShortString,
        options: QueueDeclareOptions,
        arguments: FieldTable,
    ) -> Result<Ticket, Error>
        ensures told { TicketTold result (told_by session.old (CallEvent self.now.id (call.QueueDeclare queue options arguments))) }
        ensures ok { OnOk result (session.new ≡ next session.old (CallEvent self.now.id (call.QueueDeclare queue options arguments))) }
        ensures err { OnErr result (session.new ≡ session.old) }
        ensures cause { CallCause result self.now.id (call.QueueDeclare queue options arguments) session.old.wire }
    {
        let call = Call::QueueDeclare {
            queue,
            options,
            arguments,
        };
        session.call(alloc, self.id, call)
    }

    /// Binds a queue to an exchange, from which it then gets messages (AMQP 0-9-1, `queue.bind`). The ticket is `Done`
    /// at the broker's `queue.bind-ok`, with `nowait` at once.
    ///
    /// # Errors
    /// `InvalidChannelState` where the channel is not open, `NumbersUsedUp` where the next ticket would pass the greatest
    /// `u64`, `NoMemory`. Nothing changes then.
    pub fn queue_bind(
        &self,
        alloc: Global,
        session: &mut Session,
        queue: ShortString,
        exchange: ShortString,
        routing_key: ShortString,
        options: QueueBindOptions,
        arguments: FieldTable,
    ) -> Result<Ticket, Error>
        ensures told { TicketTold result (told_by session.old (CallEvent self.now.id (call.QueueBind queue exchange routing_key options arguments))) }
        ensures ok { OnOk result (session.new ≡ next session.old (CallEvent self.now.id (call.QueueBind queue exchange routing_key options arguments))) }
        ensures err { OnErr result (session.new ≡ session.old) }
        ensures cause { CallCause result self.now.id (call.QueueBind queue exchange routing_key options arguments) session.old.wire }
    {
        let call = Call::QueueBind {
            queue,
            exchange,
            routing_key,
            options,
            arguments,
        };
        session.call(alloc, self.id, call)
    }

    /// Drops the messages of a queue (AMQP 0-9-1, `queue.purge`). The ticket is answered with the `Count` of dropped
    /// messages at the broker's `queue.purge-ok`, with `nowait` at once with 0.
    ///
    /// # Errors
    /// `InvalidChannelState` where the channel is not open, `NumbersUsedUp` where the next ticket would pass the greatest
    /// `u64`, `NoMemory`. Nothing changes then.
    pub fn queue_purge(
        &self,
        alloc: Global,
        session: &mut Session,
        queue: ShortString,
        options: QueuePurgeOptions,
    ) -> Result<Ticket, Error>
        ensures told { TicketTold result (told_by session.old (CallEvent self.now.id (call.QueuePurge queue options))) }
        ensures ok { OnOk result (session.new ≡ next session.old (CallEvent self.now.id (call.QueuePurge queue options))) }
        ensures err { OnErr result (session.new ≡ session.old) }
        ensures cause { CallCause result self.now.id (call.QueuePurge queue options) session.old.wire }
    {
        let call = Call::QueuePurge { queue, options };
        session.call(alloc, self.id, call)
    }

    /// Deletes a queue (AMQP 0-9-1, `queue.delete`). The ticket is answered with the `Count` of messages that it held
    /// at the broker's `queue.delete-ok`, with `nowait` at once with 0.
    ///
    /// # Errors
    /// `InvalidChannelState` where the channel is not open, `NumbersUsedUp` where the next ticket would pass the greatest
    /// `u64`, `NoMemory`. Nothing changes then.
    pub fn queue_delete(
        &self,
        alloc: Global,
        session: &mut Session,
        queue: ShortString,
        options: QueueDeleteOptions,
    ) -> Result<Ticket, Error>
        ensures told { TicketTold result (told_by session.old (CallEvent self.now.id (call.QueueDelete queue options))) }
        ensures ok { OnOk result (session.new ≡ next session.old (CallEvent self.now.id (call.QueueDelete queue options))) }
        ensures err { OnErr result (session.new ≡ session.old) }
        ensures cause { CallCause result self.now.id (call.QueueDelete queue options) session.old.wire }
    {
        let call = Call::QueueDelete { queue, options };
        session.call(alloc, self.id, call)
    }

    /// Takes a queue's binding to an exchange away (AMQP 0-9-1, `queue.unbind`). The ticket is `Done` at the broker's
    /// `queue.unbind-ok`; the method has no `nowait`.
    ///
    /// # Errors
    /// `InvalidChannelState` where the channel is not open, `NumbersUsedUp` where the next ticket would pass the greatest
    /// `u64`, `NoMemory`. Nothing changes then.
    pub fn queue_unbind(
        &self,
        alloc: Global,
        session: &mut Session,
        queue: ShortString,
        exchange: ShortString,
        routing_key: ShortString,
        arguments: FieldTable,
    ) -> Result<Ticket, Error>
        ensures told { TicketTold result (told_by session.old (CallEvent self.now.id (call.QueueUnbind queue exchange routing_key arguments))) }
        ensures ok { OnOk result (session.new ≡ next session.old (CallEvent self.now.id (call.QueueUnbind queue exchange routing_key arguments))) }
        ensures err { OnErr result (session.new ≡ session.old) }
        ensures cause { CallCause result self.now.id (call.QueueUnbind queue exchange routing_key arguments) session.old.wire }
    {
        let call = Call::QueueUnbind {
            queue,
            exchange,
            routing_key,
            arguments,
        };
        session.call(alloc, self.id, call)
    }
}
