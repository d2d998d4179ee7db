//! The methods of the class exchange (AMQP 0-9-1, class 40, with the bindings between exchanges that RabbitMQ adds).
//!
//! Here stand the methods as data, with their numbers, equality and copies. What they do stands in the
//! crates above.

ghost use Rattle.std.specs.Prelude.{◌≡◌, IfOk};
ghost use Rattle.std.specs.Bool.{Decides};
ghost use Rattle.lapin_methods.specs.Numbers.{exchange_number};

use lapin_values::{FieldTable, NoMemory, ShortString};
use std::alloc::Global;

/// A method of the class exchange.
#[derive(Clone, PartialEq, Drop)]
pub enum ExchangeMethod {
    /// Declares an exchange of a kind, as `direct`.
    Declare {
        exchange: ShortString,
        kind: ShortString,
        passive: bool,
        durable: bool,
        auto_delete: bool,
        internal: bool,
        nowait: bool,
        arguments: FieldTable,
    },
    /// The exchange is declared.
    DeclareOk,
    /// Deletes an exchange.
    Delete {
        exchange: ShortString,
        if_unused: bool,
        nowait: bool,
    },
    /// The exchange is deleted.
    DeleteOk,
    /// Binds an exchange to another one.
    Bind {
        destination: ShortString,
        source: ShortString,
        routing_key: ShortString,
        nowait: bool,
        arguments: FieldTable,
    },
    /// The exchanges are bound.
    BindOk,
    /// Takes a binding between two exchanges away.
    Unbind {
        destination: ShortString,
        source: ShortString,
        routing_key: ShortString,
        nowait: bool,
        arguments: FieldTable,
    },
    /// The binding is gone.
    UnbindOk,
}

impl ExchangeMethod {
    /// The number of the method in its class.
    pub fn method_id(&self) -> u16
        ensures { result ≡ exchange_number self.now }
    {
        match self {
            ExchangeMethod::Declare { .. } => 10,
            ExchangeMethod::DeclareOk => 11,
            ExchangeMethod::Delete { .. } => 20,
            ExchangeMethod::DeleteOk => 21,
            ExchangeMethod::Bind { .. } => 30,
            ExchangeMethod::BindOk => 31,
            ExchangeMethod::Unbind { .. } => 40,
            ExchangeMethod::UnbindOk => 51,
        }
    }

    /// An equal method, in memory of its own.
    pub fn try_clone(&self, _alloc: Global) -> Result<ExchangeMethod, NoMemory>
        ensures { IfOk result (λ copy. copy ≡ self.now) }
    {
        Ok(self.clone()?)
    }

    /// Whether two methods are equal in every field.
    #[tactic(auto, using(crate::proofs::ExchangeAlike::exchange_alike))]
    pub fn same(&self, other: &ExchangeMethod) -> bool
        ensures { Decides result (self.now ≡ other.now) }
    {
        self == other
    }
}
