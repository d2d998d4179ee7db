//! The methods of the class access (class 30, which brokers keep from AMQP 0-8).
//!
//! Here stand the methods as data, with their numbers, equality and copies. What they do stands in the
//! crates above.

ghost use Rattle.std.specs.Prelude.{◌≡◌, IfOk};
ghost use Rattle.std.specs.Bool.{Decides};
ghost use Rattle.lapin_methods.specs.Numbers.{access_number};

use lapin_values::{NoMemory, ShortString};
use std::alloc::Global;

/// A method of the class access.
#[derive(Clone, PartialEq, Drop)]
pub enum AccessMethod {
    /// Asks for access to a realm.
    Request {
        realm: ShortString,
        exclusive: bool,
        passive: bool,
        active: bool,
        write: bool,
        read: bool,
    },
    /// Access is given.
    RequestOk,
}

impl AccessMethod {
    /// The number of the method in its class.
    pub fn method_id(&self) -> u16
        ensures { result ≡ access_number self.now }
    {
        match self {
            AccessMethod::Request { .. } => 10,
            AccessMethod::RequestOk => 11,
        }
    }

    /// An equal method, in memory of its own.
    pub fn try_clone(&self, _alloc: Global) -> Result<AccessMethod, NoMemory>
        ensures { IfOk result (λ copy. copy ≡ self.now) }
    {
        Ok(self.clone()?)
    }

    /// Whether two methods are equal in every field.
    #[tactic(auto, using(crate::proofs::AccessAlike::access_alike))]
    pub fn same(&self, other: &AccessMethod) -> bool
        ensures { Decides result (self.now ≡ other.now) }
    {
        self == other
    }
}
