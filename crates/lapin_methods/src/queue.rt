//! The methods of the class queue (AMQP 0-9-1, class 50).
//!
//! Here stand the methods as data, with their numbers, equality and copies. What they do stands in the
//! crates above.

ghost use Rattle.std.specs.Prelude.{◌≡◌, IfOk};
ghost use Rattle.std.specs.Bool.{Decides};
ghost use Rattle.lapin_methods.specs.Numbers.{queue_number};

use lapin_values::{FieldTable, NoMemory, ShortString};
use std::alloc::Global;

/// A method of the class queue.
#[derive(Clone, PartialEq, Drop)]
pub enum QueueMethod {
    /// Declares a queue. The broker names it where the name is empty.
    Declare {
        queue: ShortString,
        passive: bool,
        durable: bool,
        exclusive: bool,
        auto_delete: bool,
        nowait: bool,
        arguments: FieldTable,
    },
    /// The queue is declared: its name, its ready messages and its consumers.
    DeclareOk {
        queue: ShortString,
        message_count: u32,
        consumer_count: u32,
    },
    /// Binds a queue to an exchange.
    Bind {
        queue: ShortString,
        exchange: ShortString,
        routing_key: ShortString,
        nowait: bool,
        arguments: FieldTable,
    },
    /// The queue is bound.
    BindOk,
    /// Drops the queue's messages that aren't awaiting an acknowledgement.
    Purge {
        queue: ShortString,
        nowait: bool,
    },
    /// The queue is purged of that many messages.
    PurgeOk {
        message_count: u32,
    },
    /// Deletes a queue.
    Delete {
        queue: ShortString,
        if_unused: bool,
        if_empty: bool,
        nowait: bool,
    },
    /// The queue is deleted with that many messages.
    DeleteOk {
        message_count: u32,
    },
    /// Takes a binding of a queue away.
    Unbind {
        queue: ShortString,
        exchange: ShortString,
        routing_key: ShortString,
        arguments: FieldTable,
    },
    /// The binding is gone.
    UnbindOk,
}

impl QueueMethod {
    /// The number of the method in its class.
    pub fn method_id(&self) -> u16
        ensures { result ≡ queue_number self.now }
    {
        match self {
            QueueMethod::Declare { .. } => 10,
            QueueMethod::DeclareOk { .. } => 11,
            QueueMethod::Bind { .. } => 20,
            QueueMethod::BindOk => 21,
            QueueMethod::Purge { .. } => 30,
            QueueMethod::PurgeOk { .. } => 31,
            QueueMethod::Delete { .. } => 40,
            QueueMethod::DeleteOk { .. } => 41,
            QueueMethod::Unbind { .. } => 50,
            QueueMethod::UnbindOk => 51,
        }
    }

    /// An equal method, in memory of its own.
    pub fn try_clone(&self, _alloc: Global) -> Result<QueueMethod, NoMemory>
        ensures { IfOk result (λ copy. copy ≡ self.now) }
    {
        Ok(self.clone()?)
    }

    /// Whether two methods are equal in every field.
    #[tactic(auto, using(crate::proofs::QueueAlike::queue_alike))]
    pub fn same(&self, other: &QueueMethod) -> bool
        ensures { Decides result (self.now ≡ other.now) }
    {
        self == other
    }
}
