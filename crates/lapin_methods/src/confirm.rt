//! The methods of the class confirm (class 85 of RabbitMQ's publisher confirms).
//!
//! Here stand the methods as data, with their numbers, equality and copies. What they do stands in the
//! crates above.

ghost use Rattle.std.specs.Prelude.{◌≡◌, IfOk};
ghost use Rattle.std.specs.Bool.{Decides};
ghost use Rattle.lapin_methods.specs.Numbers.{confirm_number};

use lapin_values::NoMemory;
use std::alloc::Global;

/// A method of the class confirm.
#[derive(Clone, PartialEq, Drop)]
pub enum ConfirmMethod {
    /// Asks the broker to confirm what is published on the channel.
    Select { nowait: bool },
    /// The broker confirms publishes from now on.
    SelectOk,
}

impl ConfirmMethod {
    /// The number of the method in its class.
    pub fn method_id(&self) -> u16
        ensures { result ≡ confirm_number self.now }
    {
        match self {
            ConfirmMethod::Select { .. } => 10,
            ConfirmMethod::SelectOk => 11,
        }
    }

    /// An equal method, in memory of its own.
    pub fn try_clone(&self, _alloc: Global) -> Result<ConfirmMethod, NoMemory>
        ensures { IfOk result (λ copy. copy ≡ self.now) }
    {
        Ok(self.clone()?)
    }

    /// Whether two methods are equal in every field.
    pub fn same(&self, other: &ConfirmMethod) -> bool
        ensures { Decides result (self.now ≡ other.now) }
    {
        self == other
    }
}
