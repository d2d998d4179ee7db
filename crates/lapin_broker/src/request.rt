//! A request that waits for its reply: its kind, and what of the request the reply repeats. Which reply may be sent stands
//! elsewhere.

ghost use Rattle.std.specs.Prelude.{◌≡◌, IfOk};
ghost use Rattle.lapin_broker.specs.Requests.{echo_name as echo_name_lem, same_kind as same_kind_lem};

use lapin_types::{NoMemory, ShortString};
use std::alloc::Global;

/// The kind of a request that waits, named by its method.
#[derive(Clone, Copy, Debug, PartialEq, Eq)]
pub enum RequestKind {
    /// `channel.flow`.
    Flow,
    /// `access.request`.
    Access,
    /// `exchange.declare`.
    ExchangeDeclare,
    /// `exchange.delete`.
    ExchangeDelete,
    /// `exchange.bind`.
    ExchangeBind,
    /// `exchange.unbind`.
    ExchangeUnbind,
    /// `queue.declare`.
    QueueDeclare,
    /// `queue.bind`.
    QueueBind,
    /// `queue.purge`.
    QueuePurge,
    /// `queue.delete`.
    QueueDelete,
    /// `queue.unbind`.
    QueueUnbind,
    /// `basic.qos`.
    Qos,
    /// `basic.consume`.
    Consume,
    /// `basic.cancel`.
    Cancel,
    /// `basic.get`.
    Get,
    /// `basic.recover`.
    Recover,
    /// `confirm.select`.
    Select,
    /// `tx.select`.
    TxSelect,
    /// `tx.commit`.
    TxCommit,
    /// `tx.rollback`.
    TxRollback,
}

impl RequestKind {
    /// Whether two kinds are the same.
    pub fn same(self, other: RequestKind) -> bool
        ensures { result ≡ same_kind_lem self other }
    {
        self == other
    }
}

/// What of a request its reply repeats: a name or a value.
#[derive(Debug, Drop)]
pub enum Echo {
    /// Nothing.
    Nothing,
    /// The name of a queue or the tag of a consumer.
    Name(ShortString),
    /// The value of a flow method.
    Active(bool),
}

/// A request that waits for its reply.
#[derive(Debug, Drop)]
pub struct Request {
    /// Its kind.
    pub kind: RequestKind,
    /// What its reply repeats.
    pub echo: Echo,
}

impl Echo {
    /// The name that was asked for, empty where none was.
    pub fn name(&self) -> &str
        ensures { result.now ≡ echo_name_lem self.now }
    {
        match self {
            Echo::Name(name) => name.as_str(),
            _ => "",
        }
    }

    /// An equal value, in memory of its own.
    pub fn try_clone(&self, alloc: Global) -> Result<Echo, NoMemory>
        ensures { IfOk result (λ copy. copy ≡ self.now) }
    {
        match self {
            Echo::Nothing => Ok(Echo::Nothing),
            Echo::Name(name) => Ok(Echo::Name(name.try_clone(alloc)?)),
            Echo::Active(active) => Ok(Echo::Active(*active)),
        }
    }
}
