//! A method of any class, and its two numbers.
//!
//! Here stands the sum of the classes. Each class has a file of its own.

ghost use Rattle.std.specs.Prelude.{◌≡◌, IfOk};
ghost use Rattle.std.specs.Bool.{Decides};
ghost use Rattle.lapin_methods.specs.Numbers.{class_number, method_number};

use crate::access::AccessMethod;
use crate::basic::BasicMethod;
use crate::channel::ChannelMethod;
use crate::confirm::ConfirmMethod;
use crate::connection::ConnectionMethod;
use crate::exchange::ExchangeMethod;
use crate::queue::QueueMethod;
use crate::tx::TxMethod;
use lapin_values::NoMemory;
use std::alloc::Global;

/// A method of any class (AMQP 0-9-1).
#[derive(Drop)]
pub enum Method {
    Connection(ConnectionMethod),
    Channel(ChannelMethod),
    Access(AccessMethod),
    Exchange(ExchangeMethod),
    Queue(QueueMethod),
    Basic(BasicMethod),
    Confirm(ConfirmMethod),
    Tx(TxMethod),
}

impl Method {
    /// The number of the method's class.
    pub fn class_id(&self) -> u16
        ensures { result ≡ class_number self.now }
    {
        match self {
            Method::Connection(_) => 10,
            Method::Channel(_) => 20,
            Method::Access(_) => 30,
            Method::Exchange(_) => 40,
            Method::Queue(_) => 50,
            Method::Basic(_) => 60,
            Method::Confirm(_) => 85,
            Method::Tx(_) => 90,
        }
    }

    /// The number of the method in its class.
    pub fn method_id(&self) -> u16
        ensures { result ≡ method_number self.now }
    {
        match self {
            Method::Connection(method) => method.method_id(),
            Method::Channel(method) => method.method_id(),
            Method::Access(method) => method.method_id(),
            Method::Exchange(method) => method.method_id(),
            Method::Queue(method) => method.method_id(),
            Method::Basic(method) => method.method_id(),
            Method::Confirm(method) => method.method_id(),
            Method::Tx(method) => method.method_id(),
        }
    }

    /// An equal method, in memory of its own.
    pub fn try_clone(&self, alloc: Global) -> Result<Method, NoMemory>
        ensures { IfOk result (λ copy. copy ≡ self.now) }
    {
        match self {
            Method::Connection(method) => Ok(Method::Connection(method.try_clone(alloc)?)),
            Method::Channel(method) => Ok(Method::Channel(method.try_clone(alloc)?)),
            Method::Access(method) => Ok(Method::Access(method.try_clone(alloc)?)),
            Method::Exchange(method) => Ok(Method::Exchange(method.try_clone(alloc)?)),
            Method::Queue(method) => Ok(Method::Queue(method.try_clone(alloc)?)),
            Method::Basic(method) => Ok(Method::Basic(method.try_clone(alloc)?)),
            Method::Confirm(method) => Ok(Method::Confirm(method.try_clone(alloc)?)),
            Method::Tx(method) => Ok(Method::Tx(method.try_clone(alloc)?)),
        }
    }

    /// Whether two methods are equal in every field.
    pub fn same(&self, other: &Method) -> bool
        ensures { Decides result (self.now ≡ other.now) }
    {
        match (self, other) {
            (Method::Connection(left), Method::Connection(right)) => left.same(right),
            (Method::Channel(left), Method::Channel(right)) => left.same(right),
            (Method::Access(left), Method::Access(right)) => left.same(right),
            (Method::Exchange(left), Method::Exchange(right)) => left.same(right),
            (Method::Queue(left), Method::Queue(right)) => left.same(right),
            (Method::Basic(left), Method::Basic(right)) => left.same(right),
            (Method::Confirm(left), Method::Confirm(right)) => left.same(right),
            (Method::Tx(left), Method::Tx(right)) => left.same(right),
            _ => false,
        }
    }
}

impl PartialEq for Method {
    ghost use Rattle.lapin_values.specs.Same.{same_by, same_by_per};
    ghost use Rattle.lapin_methods.specs.contracts.method.Method as it;

    ghost eq = { same_by it.the_row.coded };

    ghost laws = { same_by_per it.the_row.coded };

    fn eq(&self, other: &Method) -> bool {
        self.same(other)
    }
}
