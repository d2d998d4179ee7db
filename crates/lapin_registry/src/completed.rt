//! What a completed request records: each declare, bind, unbind and delete by its own call of the registry, with copies of what its
//! request named. Every other request records nothing.

ghost use Rattle.std.specs.Prelude.{◌≡◌, OnOk, OnErr};
ghost use Rattle.lapin_registry.specs.Topology.{after_mark, after_marks};
ghost use Rattle.lapin_registry.specs.Completed.{recorded, queue_recorded};
ghost use Rattle.lapin_registry.specs.Marks as mark;

use crate::registry::Registry;
use lapin_types::{
    Answer, ExchangeDeclareOptions, ExchangeKind, FieldTable, NoMemory, QueueDeclareOptions, Reply,
    ShortString,
};
use std::alloc::Global;

impl Registry {
    /// A request was completed with an answer, by its reply or in the call without wait: what it declared, bound, unbound or deleted
    /// is recorded.
    ///
    /// # Errors
    ///
    /// `NoMemory`; nothing changes then.
    pub fn complete(
        &mut self,
        alloc: Global,
        reply: &Reply,
        answer: &Answer,
    ) -> Result<(), NoMemory>
        ensures ok { OnOk result (self.new ≡ after_marks self.old (recorded reply.now answer.now)) }
        ensures err { OnErr result (self.new ≡ self.old) }
    {
        match reply {
            Reply::ExchangeDeclareOk {
                exchange,
                kind,
                options,
                arguments,
            } => self.exchange_declared(alloc, exchange, kind, *options, arguments),
            Reply::ExchangeBindOk {
                destination,
                source,
                routing_key,
                arguments,
            } => self.exchange_bound(alloc, destination, source, routing_key, arguments),
            Reply::QueueDeclareOk { options, arguments } => {
                self.queue_declared(alloc, answer, *options, arguments)
            }
            Reply::QueueBindOk {
                queue,
                exchange,
                routing_key,
                arguments,
            } => self.queue_bound(alloc, queue, exchange, routing_key, arguments),
            Reply::ExchangeDeleteOk { exchange } => {
                self.deregister_exchange(exchange.as_str());
                Ok(())
            }
            Reply::ExchangeUnbindOk {
                destination,
                source,
                routing_key,
                arguments,
            } => {
                let (destination, source) = (destination.as_str(), source.as_str());
                self.deregister_exchange_binding(
                    destination,
                    source,
                    routing_key.as_str(),
                    arguments,
                );
                Ok(())
            }
            Reply::QueueUnbindOk {
                queue,
                exchange,
                routing_key,
                arguments,
            } => {
                let (queue, exchange) = (queue.as_str(), exchange.as_str());
                self.deregister_queue_binding(queue, exchange, routing_key.as_str(), arguments);
                Ok(())
            }
            Reply::QueueDeleteOk { queue } => {
                self.deregister_queue(queue.as_str());
                Ok(())
            }
            _ => Ok(()),
        }
    }

    // A declare of an exchange was completed.
    fn exchange_declared(
        &mut self,
        alloc: Global,
        name: &ShortString,
        kind: &ExchangeKind,
        options: ExchangeDeclareOptions,
        arguments: &FieldTable,
    ) -> Result<(), NoMemory>
        ensures ok { OnOk result (self.new ≡ after_mark self.old (mark.ExchangeDeclared name.now kind.now options arguments.now)) }
        ensures err { OnErr result (self.new ≡ self.old) }
    {
        let name = name.try_clone(alloc)?;
        let kind = kind.try_clone(alloc)?;
        let arguments = arguments.try_clone(alloc)?;
        self.register_exchange(alloc, name, kind, options, arguments)
    }

    // A bind of an exchange was completed.
    fn exchange_bound(
        &mut self,
        alloc: Global,
        destination: &ShortString,
        source: &ShortString,
        routing_key: &ShortString,
        arguments: &FieldTable,
    ) -> Result<(), NoMemory>
        ensures ok { OnOk result (self.new ≡ after_mark self.old (mark.ExchangeBound destination.now source.now routing_key.now arguments.now)) }
        ensures err { OnErr result (self.new ≡ self.old) }
    {
        let destination = destination.try_clone(alloc)?;
        let source = source.try_clone(alloc)?;
        let routing_key = routing_key.try_clone(alloc)?;
        let arguments = arguments.try_clone(alloc)?;
        self.register_exchange_binding(alloc, destination, source, routing_key, arguments)
    }

    // A declare of a queue was completed: the answer names the queue.
    fn queue_declared(
        &mut self,
        alloc: Global,
        answer: &Answer,
        options: QueueDeclareOptions,
        arguments: &FieldTable,
    ) -> Result<(), NoMemory>
        ensures ok { OnOk result (self.new ≡ after_marks self.old (queue_recorded options arguments.now answer.now)) }
        ensures err { OnErr result (self.new ≡ self.old) }
    {
        let Answer::Queue(queue) = answer else {
            return Ok(());
        };
        let name = queue.name().try_clone(alloc)?;
        let arguments = arguments.try_clone(alloc)?;
        self.register_queue(alloc, name, options, arguments)
    }

    // A bind of a queue was completed.
    fn queue_bound(
        &mut self,
        alloc: Global,
        queue: &ShortString,
        source: &ShortString,
        routing_key: &ShortString,
        arguments: &FieldTable,
    ) -> Result<(), NoMemory>
        ensures ok { OnOk result (self.new ≡ after_mark self.old (mark.QueueBound queue.now source.now routing_key.now arguments.now)) }
        ensures err { OnErr result (self.new ≡ self.old) }
    {
        let queue = queue.try_clone(alloc)?;
        let source = source.try_clone(alloc)?;
        let routing_key = routing_key.try_clone(alloc)?;
        let arguments = arguments.try_clone(alloc)?;
        self.register_queue_binding(alloc, queue, source, routing_key, arguments)
    }
}
