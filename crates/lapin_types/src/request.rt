//! Open requests: what a call awaits from the broker. Which reply resolves which request stands in the crates
//! above.

ghost use Rattle.std.specs.Prelude.{◌≡◌};
ghost use Rattle.lapin_types.specs.Requests.{kind_of};

use crate::exchange_kind::ExchangeKind;
use lapin_methods::{BasicConsumeOptions, ExchangeDeclareOptions, QueueDeclareOptions};
use lapin_values::{FieldTable, ShortString};

/// The kind of a reply that is awaited.
#[derive(Clone, Copy, Debug, PartialEq, Eq)]
pub enum ReplyKind {
    /// `connection.close-ok`.
    ConnectionCloseOk,
    /// `channel.open-ok`.
    ChannelOpenOk,
    /// `channel.flow-ok`.
    ChannelFlowOk,
    /// `channel.close-ok`.
    ChannelCloseOk,
    /// `access.request-ok`.
    AccessRequestOk,
    /// `exchange.declare-ok`.
    ExchangeDeclareOk,
    /// `exchange.delete-ok`.
    ExchangeDeleteOk,
    /// `exchange.bind-ok`.
    ExchangeBindOk,
    /// `exchange.unbind-ok`.
    ExchangeUnbindOk,
    /// `queue.declare-ok`.
    QueueDeclareOk,
    /// `queue.bind-ok`.
    QueueBindOk,
    /// `queue.purge-ok`.
    QueuePurgeOk,
    /// `queue.delete-ok`.
    QueueDeleteOk,
    /// `queue.unbind-ok`.
    QueueUnbindOk,
    /// `basic.qos-ok`.
    BasicQosOk,
    /// `basic.consume-ok`.
    BasicConsumeOk,
    /// `basic.cancel-ok`.
    BasicCancelOk,
    /// `basic.get-ok`, or `basic.get-empty` in its place.
    BasicGetOk,
    /// `basic.recover-ok`.
    BasicRecoverOk,
    /// `confirm.select-ok`.
    ConfirmSelectOk,
    /// `tx.select-ok`.
    TxSelectOk,
    /// `tx.commit-ok`.
    TxCommitOk,
    /// `tx.rollback-ok`.
    TxRollbackOk,
}

/// A reply that is awaited, with what its answer and the record of declared names need.
#[derive(Debug, Drop)]
pub enum Reply {
    /// `connection.close-ok`.
    ConnectionCloseOk,
    /// `channel.open-ok`.
    ChannelOpenOk,
    /// `channel.flow-ok`.
    ChannelFlowOk,
    /// `channel.close-ok`.
    ChannelCloseOk,
    /// `access.request-ok`.
    AccessRequestOk,
    /// `exchange.declare-ok`.
    ExchangeDeclareOk {
        /// The name of the exchange.
        exchange: ShortString,
        /// Its kind.
        kind: ExchangeKind,
        /// The marks of the declare.
        options: ExchangeDeclareOptions,
        /// Further arguments.
        arguments: FieldTable,
    },
    /// `exchange.delete-ok`.
    ExchangeDeleteOk {
        /// The name of the exchange.
        exchange: ShortString,
    },
    /// `exchange.bind-ok`.
    ExchangeBindOk {
        /// The exchange that gets the messages.
        destination: ShortString,
        /// The exchange that they come from.
        source: ShortString,
        /// The routing key.
        routing_key: ShortString,
        /// Further arguments.
        arguments: FieldTable,
    },
    /// `exchange.unbind-ok`.
    ExchangeUnbindOk {
        /// The exchange that gets the messages.
        destination: ShortString,
        /// The exchange that they come from.
        source: ShortString,
        /// The routing key.
        routing_key: ShortString,
        /// Further arguments.
        arguments: FieldTable,
    },
    /// `queue.declare-ok`.
    QueueDeclareOk {
        /// The marks of the declare.
        options: QueueDeclareOptions,
        /// Further arguments.
        arguments: FieldTable,
    },
    /// `queue.bind-ok`.
    QueueBindOk {
        /// The queue that gets the messages.
        queue: ShortString,
        /// The exchange that the messages come from.
        exchange: ShortString,
        /// The routing key.
        routing_key: ShortString,
        /// Further arguments.
        arguments: FieldTable,
    },
    /// `queue.purge-ok`.
    QueuePurgeOk,
    /// `queue.delete-ok`.
    QueueDeleteOk {
        /// The name of the queue.
        queue: ShortString,
    },
    /// `queue.unbind-ok`.
    QueueUnbindOk {
        /// The queue that gets the messages.
        queue: ShortString,
        /// The exchange that the messages come from.
        exchange: ShortString,
        /// The routing key.
        routing_key: ShortString,
        /// Further arguments.
        arguments: FieldTable,
    },
    /// `basic.qos-ok`.
    BasicQosOk,
    /// `basic.consume-ok`.
    BasicConsumeOk {
        /// The name of the queue.
        queue: ShortString,
        /// The marks of the consume.
        options: BasicConsumeOptions,
    },
    /// `basic.cancel-ok`.
    BasicCancelOk,
    /// `basic.get-ok`, or `basic.get-empty` in its place.
    BasicGetOk,
    /// `basic.recover-ok`.
    BasicRecoverOk,
    /// `confirm.select-ok`.
    ConfirmSelectOk,
    /// `tx.select-ok`.
    TxSelectOk,
    /// `tx.commit-ok`.
    TxCommitOk,
    /// `tx.rollback-ok`.
    TxRollbackOk,
}

impl Reply {
    /// The kind of the reply alone.
    pub fn kind(&self) -> ReplyKind
        ensures { result ≡ kind_of self.now }
    {
        match self {
            Reply::ConnectionCloseOk => ReplyKind::ConnectionCloseOk,
            Reply::ChannelOpenOk => ReplyKind::ChannelOpenOk,
            Reply::ChannelFlowOk => ReplyKind::ChannelFlowOk,
            Reply::ChannelCloseOk => ReplyKind::ChannelCloseOk,
            Reply::AccessRequestOk => ReplyKind::AccessRequestOk,
            Reply::ExchangeDeclareOk { .. } => ReplyKind::ExchangeDeclareOk,
            Reply::ExchangeDeleteOk { .. } => ReplyKind::ExchangeDeleteOk,
            Reply::ExchangeBindOk { .. } => ReplyKind::ExchangeBindOk,
            Reply::ExchangeUnbindOk { .. } => ReplyKind::ExchangeUnbindOk,
            Reply::QueueDeclareOk { .. } => ReplyKind::QueueDeclareOk,
            Reply::QueueBindOk { .. } => ReplyKind::QueueBindOk,
            Reply::QueuePurgeOk => ReplyKind::QueuePurgeOk,
            Reply::QueueDeleteOk { .. } => ReplyKind::QueueDeleteOk,
            Reply::QueueUnbindOk { .. } => ReplyKind::QueueUnbindOk,
            Reply::BasicQosOk => ReplyKind::BasicQosOk,
            Reply::BasicConsumeOk { .. } => ReplyKind::BasicConsumeOk,
            Reply::BasicCancelOk => ReplyKind::BasicCancelOk,
            Reply::BasicGetOk => ReplyKind::BasicGetOk,
            Reply::BasicRecoverOk => ReplyKind::BasicRecoverOk,
            Reply::ConfirmSelectOk => ReplyKind::ConfirmSelectOk,
            Reply::TxSelectOk => ReplyKind::TxSelectOk,
            Reply::TxCommitOk => ReplyKind::TxCommitOk,
            Reply::TxRollbackOk => ReplyKind::TxRollbackOk,
        }
    }
}

/// A call that awaits its reply.
#[derive(Debug, Drop)]
pub struct Request {
    /// The ticket that the reply resolves, None where nobody holds one.
    pub ticket: Option<u64>,
    /// The reply that is awaited.
    pub reply: Reply,
}

impl Request {
    /// The ticket that the reply resolves. What its answer would need is let go.
    pub fn into_ticket(self) -> Option<u64>
        ensures { result ≡ self.ticket }
    {
        self.ticket
    }
}
