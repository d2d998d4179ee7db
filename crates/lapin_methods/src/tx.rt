//! The methods of the class tx (AMQP 0-9-1, class 90).
//!
//! Here stand the methods as data, with their numbers, equality and copies. What they do stands in the
//! crates above.

ghost use Rattle.std.specs.Prelude.{◌≡◌, IfOk};
ghost use Rattle.std.specs.Bool.{Decides};
ghost use Rattle.lapin_methods.specs.Numbers.{tx_number};

use lapin_values::NoMemory;
use std::alloc::Global;

/// A method of the class tx.
#[derive(Clone, PartialEq, Drop)]
pub enum TxMethod {
    /// Makes the channel transactional.
    Select,
    /// The channel is transactional.
    SelectOk,
    /// Commits the transaction.
    Commit,
    /// The transaction is committed.
    CommitOk,
    /// Drops the transaction.
    Rollback,
    /// The transaction is dropped.
    RollbackOk,
}

impl TxMethod {
    /// The number of the method in its class.
    pub fn method_id(&self) -> u16
        ensures { result ≡ tx_number self.now }
    {
        match self {
            TxMethod::Select => 10,
            TxMethod::SelectOk => 11,
            TxMethod::Commit => 20,
            TxMethod::CommitOk => 21,
            TxMethod::Rollback => 30,
            TxMethod::RollbackOk => 31,
        }
    }

    /// An equal method, in memory of its own.
    pub fn try_clone(&self, _alloc: Global) -> Result<TxMethod, NoMemory>
        ensures { IfOk result (λ copy. copy ≡ self.now) }
    {
        Ok(self.clone()?)
    }

    /// Whether two methods are equal in every field.
    pub fn same(&self, other: &TxMethod) -> bool
        ensures { Decides result (self.now ≡ other.now) }
    {
        self == other
    }
}
