//! The methods of the class connection (AMQP 0-9-1, class 10) that a session carries: a close and its answer.
//!
//! Here stand the methods as data, with their numbers, equality and copies. What they do stands in the
//! crates above.

ghost use Rattle.std.specs.Prelude.{◌≡◌, IfOk};
ghost use Rattle.std.specs.Bool.{Decides};
ghost use Rattle.lapin_methods.specs.Numbers.{connection_number};

use lapin_values::{NoMemory, ShortString};
use std::alloc::Global;

/// A method of the class connection.
#[derive(Clone, PartialEq, Drop)]
pub enum ConnectionMethod {
    /// Asks the peer to close the connection. Either side sends it. The class and method are those of the
    /// frame that failed, or 0.
    Close {
        reply_code: u16,
        reply_text: ShortString,
        class_id: u16,
        method_id: u16,
    },
    /// Confirms a close of the connection.
    CloseOk,
}

impl ConnectionMethod {
    /// The number of the method in its class.
    pub fn method_id(&self) -> u16
        ensures { result ≡ connection_number self.now }
    {
        match self {
            ConnectionMethod::Close { .. } => 50,
            ConnectionMethod::CloseOk => 51,
        }
    }

    /// An equal method, in memory of its own.
    pub fn try_clone(&self, _alloc: Global) -> Result<ConnectionMethod, NoMemory>
        ensures { IfOk result (λ copy. copy ≡ self.now) }
    {
        Ok(self.clone()?)
    }

    /// Whether two methods are equal in every field.
    pub fn same(&self, other: &ConnectionMethod) -> bool
        ensures { Decides result (self.now ≡ other.now) }
    {
        self == other
    }
}
