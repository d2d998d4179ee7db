//! The registry of one channel: the calls that record what it completed.

ghost use Rattle.std.specs.Prelude.{◌≡◌, OnOk, OnErr, IfOk, IsOk};
ghost use Rattle.lapin_registry.specs.Topology.{empty_definition, after_mark};
ghost use Rattle.lapin_registry.specs.Marks as mark;

use crate::bindings::BindingDefinition;
use crate::exchanges::{ExchangeEdit, Exchanges};
use crate::queues::{QueueEdit, Queues};
use lapin_types::{
    ExchangeDeclareOptions, ExchangeKind, FieldTable, NoMemory, QueueDeclareOptions, ShortString,
};
use std::alloc::Global;
use std::marker::Model;

/// What a channel declared and bound.
#[derive(Debug, Drop)]
pub struct ChannelDefinition {
    /// Its exchanges, in rising order of name.
    pub exchanges: Exchanges,
    /// Its queues, in rising order of name.
    pub queues: Queues,
}

/// The registry of a channel. A contract sees what it recorded.
#[derive(Debug)]
pub struct Registry {
    definition: ChannelDefinition,
}

impl Drop for Registry {
    fn drop(self) {
        let Registry { definition: _ } = self;
    }
}

impl Model for Registry {
    ghost use Rattle.lapin_registry.specs.declared.registry.ChannelDefinition.{ChannelDefinition};
    ghost use Rattle.lapin_registry.specs.contracts.registry.ChannelDefinition as channel;

    ghost Value = { ChannelDefinition };

    ghost coded = { channel.the_row.coded };

    ghost view = { λ r. r.definition };
}

impl Registry {
    /// Nothing is recorded, as an opening begins. It takes no memory yet, so it doesn't fail.
    pub fn new(alloc: Global) -> Result<Registry, NoMemory>
        ensures made { IfOk result (λ made. made ≡ empty_definition) }
        ensures succeeds { IsOk result }
    {
        Ok(Registry {
            definition: ChannelDefinition {
                exchanges: Exchanges::new(alloc),
                queues: Queues::new(alloc),
            },
        })
    }

    /// Nothing is recorded any more, as a further opening begins.
    pub fn clear(&mut self)
        ensures { self.new ≡ empty_definition }
    {
        self.definition.exchanges.clear();
        self.definition.queues.clear();
    }

    /// What the channel declared and bound.
    pub fn definition(&self) -> &ChannelDefinition
        ensures { result.now ≡ self.now }
    {
        &self.definition
    }

    /// A declare of an exchange is completed, passive or not: it is recorded under its name, and keeps the bindings recorded there.
    ///
    /// # Errors
    ///
    /// `NoMemory`; nothing changes then.
    pub fn register_exchange(
        &mut self,
        alloc: Global,
        name: ShortString,
        kind: ExchangeKind,
        options: ExchangeDeclareOptions,
        arguments: FieldTable,
    ) -> Result<(), NoMemory>
        ensures ok { OnOk result (self.new ≡ after_mark self.old (mark.ExchangeDeclared name kind options arguments)) }
        ensures err { OnErr result (self.new ≡ self.old) }
    {
        let edit = ExchangeEdit::Declare(kind, options, arguments);
        self.definition.exchanges.amend(alloc, name, edit)
    }

    /// A declare of a queue is completed, passive or not: it is recorded under its name, and keeps the bindings recorded there.
    ///
    /// # Errors
    ///
    /// `NoMemory`; nothing changes then.
    pub fn register_queue(
        &mut self,
        alloc: Global,
        name: ShortString,
        options: QueueDeclareOptions,
        arguments: FieldTable,
    ) -> Result<(), NoMemory>
        ensures ok { OnOk result (self.new ≡ after_mark self.old (mark.QueueDeclared name options arguments)) }
        ensures err { OnErr result (self.new ≡ self.old) }
    {
        let edit = QueueEdit::Declare(options, arguments);
        self.definition.queues.amend(alloc, name, edit)
    }

    /// A delete of an exchange is completed: the name is gone with its bindings. Nothing changes where it is absent.
    pub fn deregister_exchange(&mut self, name: &str)
        ensures { self.new ≡ after_mark self.old (mark.ExchangeDeleted name.now) }
    {
        self.definition.exchanges.remove(name);
    }

    /// A delete of a queue is completed: the name is gone with its bindings. Nothing changes where it is absent.
    pub fn deregister_queue(&mut self, name: &str)
        ensures { self.new ≡ after_mark self.old (mark.QueueDeleted name.now) }
    {
        self.definition.queues.remove(name);
    }

    /// A bind of an exchange to a source is completed: the binding joins the others of its destination, which is made undeclared
    /// where it is absent.
    ///
    /// # Errors
    ///
    /// `NoMemory`; nothing changes then.
    pub fn register_exchange_binding(
        &mut self,
        alloc: Global,
        destination: ShortString,
        source: ShortString,
        routing_key: ShortString,
        arguments: FieldTable,
    ) -> Result<(), NoMemory>
        ensures ok { OnOk result (self.new ≡ after_mark self.old (mark.ExchangeBound destination source routing_key arguments)) }
        ensures err { OnErr result (self.new ≡ self.old) }
    {
        let binding = BindingDefinition {
            source,
            routing_key,
            arguments,
        };
        let edit = ExchangeEdit::Bind(binding);
        self.definition.exchanges.amend(alloc, destination, edit)
    }

    /// A bind of a queue to a source is completed: the binding joins the others of the queue, which is made undeclared where it is
    /// absent.
    ///
    /// # Errors
    ///
    /// `NoMemory`; nothing changes then.
    pub fn register_queue_binding(
        &mut self,
        alloc: Global,
        destination: ShortString,
        source: ShortString,
        routing_key: ShortString,
        arguments: FieldTable,
    ) -> Result<(), NoMemory>
        ensures ok { OnOk result (self.new ≡ after_mark self.old (mark.QueueBound destination source routing_key arguments)) }
        ensures err { OnErr result (self.new ≡ self.old) }
    {
        let binding = BindingDefinition {
            source,
            routing_key,
            arguments,
        };
        let edit = QueueEdit::Bind(binding);
        self.definition.queues.amend(alloc, destination, edit)
    }

    /// An unbind of an exchange is completed: every binding of the destination that has this source, key and arguments is gone.
    /// Nothing changes where the destination is absent.
    pub fn deregister_exchange_binding(
        &mut self,
        destination: &str,
        source: &str,
        routing_key: &str,
        arguments: &FieldTable,
    )
        ensures { self.new ≡ after_mark self.old (mark.ExchangeUnbound destination.now source.now routing_key.now arguments.now) }
    {
        self.definition
            .exchanges
            .unbind(destination, source, routing_key, arguments);
    }

    /// An unbind of a queue is completed: every binding of the queue that has this source, key and arguments is gone. Nothing
    /// changes where the queue is absent.
    pub fn deregister_queue_binding(
        &mut self,
        destination: &str,
        source: &str,
        routing_key: &str,
        arguments: &FieldTable,
    )
        ensures { self.new ≡ after_mark self.old (mark.QueueUnbound destination.now source.now routing_key.now arguments.now) }
    {
        self.definition
            .queues
            .unbind(destination, source, routing_key, arguments);
    }
}
