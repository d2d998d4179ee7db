//! The calls of a channel and of the connection, as data. What they do stands in the crates above.

ghost use Rattle.std.specs.Prelude.{◌≡◌, IfOk};

use crate::exchange_kind::ExchangeKind;
use lapin_methods::{
    AccessRequestOptions, BasicAckOptions, BasicCancelOptions, BasicConsumeOptions,
    BasicGetOptions, BasicNackOptions, BasicPublishOptions, BasicQosOptions,
    BasicRecoverAsyncOptions, BasicRecoverOptions, BasicRejectOptions, ChannelFlowOptions,
    ConfirmSelectOptions, ExchangeBindOptions, ExchangeDeclareOptions, ExchangeDeleteOptions,
    ExchangeUnbindOptions, QueueBindOptions, QueueDeclareOptions, QueueDeleteOptions,
    QueuePurgeOptions,
};
use lapin_values::{BasicProperties, FieldTable, NoMemory, Payload, ShortString};
use std::alloc::Global;

mod basic;
mod channel;
mod equality;
mod exchange;
mod queue;

/// A call with its arguments. Its channel stands in the event.
#[derive(Debug, PartialEq, Drop)]
pub enum Call {
    /// Opens the channel (`channel.open`).
    OpenChannel,
    /// Closes the connection (`connection.close`), on channel 0.
    ConnectionClose {
        /// Why, by the standard's reply codes.
        reply_code: u16,
        /// Why, in words.
        reply_text: ShortString,
    },
    /// Closes the channel (`channel.close`).
    ChannelClose {
        /// Why, by the standard's reply codes.
        reply_code: u16,
        /// Why, in words.
        reply_text: ShortString,
    },
    /// Asks the broker to go on or to pause (`channel.flow`).
    ChannelFlow {
        /// The marks of the method.
        options: ChannelFlowOptions,
    },
    /// Asks for access to a realm (`access.request`).
    AccessRequest {
        /// The realm.
        realm: ShortString,
        /// The marks of the method.
        options: AccessRequestOptions,
    },
    /// Declares an exchange (`exchange.declare`).
    ExchangeDeclare {
        /// Its name.
        exchange: ShortString,
        /// Its kind.
        kind: ExchangeKind,
        /// The marks of the method.
        options: ExchangeDeclareOptions,
        /// Further arguments.
        arguments: FieldTable,
    },
    /// Deletes an exchange (`exchange.delete`).
    ExchangeDelete {
        /// Its name.
        exchange: ShortString,
        /// The marks of the method.
        options: ExchangeDeleteOptions,
    },
    /// Binds an exchange to another one (`exchange.bind`).
    ExchangeBind {
        /// The exchange that gets the messages.
        destination: ShortString,
        /// The exchange that they come from.
        source: ShortString,
        /// The routing key.
        routing_key: ShortString,
        /// The marks of the method.
        options: ExchangeBindOptions,
        /// Further arguments.
        arguments: FieldTable,
    },
    /// Takes a binding between two exchanges away (`exchange.unbind`).
    ExchangeUnbind {
        /// The exchange that got the messages.
        destination: ShortString,
        /// The exchange that they came from.
        source: ShortString,
        /// The routing key.
        routing_key: ShortString,
        /// The marks of the method.
        options: ExchangeUnbindOptions,
        /// Further arguments.
        arguments: FieldTable,
    },
    /// Declares a queue (`queue.declare`).
    QueueDeclare {
        /// Its name; the broker names it where this is empty.
        queue: ShortString,
        /// The marks of the method.
        options: QueueDeclareOptions,
        /// Further arguments.
        arguments: FieldTable,
    },
    /// Binds a queue to an exchange (`queue.bind`).
    QueueBind {
        /// The queue that gets the messages.
        queue: ShortString,
        /// The exchange that they come from.
        exchange: ShortString,
        /// The routing key.
        routing_key: ShortString,
        /// The marks of the method.
        options: QueueBindOptions,
        /// Further arguments.
        arguments: FieldTable,
    },
    /// Drops the messages of a queue (`queue.purge`).
    QueuePurge {
        /// Its name.
        queue: ShortString,
        /// The marks of the method.
        options: QueuePurgeOptions,
    },
    /// Deletes a queue (`queue.delete`).
    QueueDelete {
        /// Its name.
        queue: ShortString,
        /// The marks of the method.
        options: QueueDeleteOptions,
    },
    /// Takes a queue's binding to an exchange away (`queue.unbind`).
    QueueUnbind {
        /// The queue that got the messages.
        queue: ShortString,
        /// The exchange that they came from.
        exchange: ShortString,
        /// The routing key.
        routing_key: ShortString,
        /// Further arguments.
        arguments: FieldTable,
    },
    /// Asks for a limit of unacknowledged messages (`basic.qos`).
    BasicQos {
        /// How many may be unacknowledged.
        prefetch_count: u16,
        /// The marks of the method.
        options: BasicQosOptions,
    },
    /// Asks for the messages of a queue, as they come (`basic.consume`).
    BasicConsume {
        /// The queue.
        queue: ShortString,
        /// The tag of the consumer; the broker makes one up where this is empty.
        consumer_tag: ShortString,
        /// The marks of the method.
        options: BasicConsumeOptions,
        /// Further arguments.
        arguments: FieldTable,
    },
    /// Asks for no more messages (`basic.cancel`).
    BasicCancel {
        /// The tag of the consumer.
        consumer_tag: ShortString,
        /// The marks of the method.
        options: BasicCancelOptions,
    },
    /// Publishes a message (`basic.publish`).
    BasicPublish {
        /// The exchange to publish to, empty for the default one.
        exchange: ShortString,
        /// The routing key.
        routing_key: ShortString,
        /// The marks of the method.
        options: BasicPublishOptions,
        /// The bytes of the message.
        payload: Payload,
        /// The properties of the message.
        properties: BasicProperties,
    },
    /// Publishes a message, unless as many of the channel wait or are outstanding as its limit allows.
    TryBasicPublish {
        /// The exchange to publish to, empty for the default one.
        exchange: ShortString,
        /// The routing key.
        routing_key: ShortString,
        /// The marks of the method.
        options: BasicPublishOptions,
        /// The bytes of the message.
        payload: Payload,
        /// The properties of the message.
        properties: BasicProperties,
    },
    /// Asks for one message of a queue (`basic.get`).
    BasicGet {
        /// The queue.
        queue: ShortString,
        /// The marks of the method.
        options: BasicGetOptions,
    },
    /// Acknowledges deliveries (`basic.ack`).
    BasicAck {
        /// The tag of the delivery; 0 with `multiple` stands for all.
        delivery_tag: u64,
        /// The marks of the method.
        options: BasicAckOptions,
    },
    /// Gives deliveries back (RabbitMQ, `basic.nack`).
    BasicNack {
        /// The tag of the delivery; 0 with `multiple` stands for all.
        delivery_tag: u64,
        /// The marks of the method.
        options: BasicNackOptions,
    },
    /// Gives one delivery back (`basic.reject`).
    BasicReject {
        /// The tag of the delivery.
        delivery_tag: u64,
        /// The marks of the method.
        options: BasicRejectOptions,
    },
    /// Asks for unacknowledged messages again, without a reply (`basic.recover-async`).
    BasicRecoverAsync {
        /// The marks of the method.
        options: BasicRecoverAsyncOptions,
    },
    /// Asks for unacknowledged messages again (`basic.recover`).
    BasicRecover {
        /// The marks of the method.
        options: BasicRecoverOptions,
    },
    /// Asks for publisher confirms (RabbitMQ, `confirm.select`).
    ConfirmSelect {
        /// The marks of the method.
        options: ConfirmSelectOptions,
    },
    /// Limits how many confirms of the channel's opening may be outstanding; nothing is sent.
    ConfirmLimit {
        /// The limit; 0 stands for none.
        limit: u64,
    },
    /// Begins transactions (`tx.select`).
    TxSelect,
    /// Commits a transaction (`tx.commit`).
    TxCommit,
    /// Rolls a transaction back (`tx.rollback`).
    TxRollback,
}

impl Call {
    /// An equal call, in memory of its own.
    pub fn try_clone(&self, alloc: Global) -> Result<Call, NoMemory>
        ensures { IfOk result (λ copy. copy ≡ self.now) }
    {
        match self {
            Call::OpenChannel => Ok(Call::OpenChannel),
            Call::ConnectionClose {
                reply_code,
                reply_text,
            } => channel::copied_connection_close(reply_code, reply_text, alloc),
            Call::ChannelClose {
                reply_code,
                reply_text,
            } => channel::copied_channel_close(reply_code, reply_text, alloc),
            Call::ChannelFlow { options } => Ok(Call::ChannelFlow { options: *options }),
            Call::AccessRequest { realm, options } => channel::copied_access_request(
                realm, options, alloc,
            ),
            Call::ExchangeDeclare {
                exchange,
                kind,
                options,
                arguments,
            } => exchange::copied_exchange_declare(exchange, kind, options, arguments, alloc),
            Call::ExchangeDelete { exchange, options } => exchange::copied_exchange_delete(
                exchange, options, alloc,
            ),
            Call::ExchangeBind {
                destination,
                source,
                routing_key,
                options,
                arguments,
            } => exchange::copied_exchange_bind(
                destination,
                source,
                routing_key,
                options,
                arguments,
                alloc,
            ),
            Call::ExchangeUnbind {
                destination,
                source,
                routing_key,
                options,
                arguments,
            } => exchange::copied_exchange_unbind(
                destination,
                source,
                routing_key,
                options,
                arguments,
                alloc,
            ),
            Call::QueueDeclare {
                queue,
                options,
                arguments,
            } => queue::copied_queue_declare(queue, options, arguments, alloc),
            Call::QueueBind {
                queue,
                exchange,
                routing_key,
                options,
                arguments,
            } => queue::copied_queue_bind(queue, exchange, routing_key, options, arguments, alloc),
            Call::QueuePurge { queue, options } => queue::copied_queue_purge(queue, options, alloc),
            Call::QueueDelete { queue, options } => queue::copied_queue_delete(
                queue, options, alloc,
            ),
            Call::QueueUnbind {
                queue,
                exchange,
                routing_key,
                arguments,
            } => queue::copied_queue_unbind(queue, exchange, routing_key, arguments, alloc),
            Call::BasicQos {
                prefetch_count,
                options,
            } => Ok(Call::BasicQos {
                prefetch_count: *prefetch_count,
                options: *options,
            }),
            Call::BasicConsume {
                queue,
                consumer_tag,
                options,
                arguments,
            } => basic::copied_basic_consume(queue, consumer_tag, options, arguments, alloc),
            Call::BasicCancel {
                consumer_tag,
                options,
            } => basic::copied_basic_cancel(consumer_tag, options, alloc),
            Call::BasicPublish {
                exchange,
                routing_key,
                options,
                payload,
                properties,
            } => basic::copied_basic_publish(
                exchange,
                routing_key,
                options,
                payload,
                properties,
                alloc,
            ),
            Call::TryBasicPublish {
                exchange,
                routing_key,
                options,
                payload,
                properties,
            } => basic::copied_try_basic_publish(
                exchange,
                routing_key,
                options,
                payload,
                properties,
                alloc,
            ),
            Call::BasicGet { queue, options } => basic::copied_basic_get(queue, options, alloc),
            Call::BasicAck {
                delivery_tag,
                options,
            } => Ok(Call::BasicAck {
                delivery_tag: *delivery_tag,
                options: *options,
            }),
            Call::BasicNack {
                delivery_tag,
                options,
            } => Ok(Call::BasicNack {
                delivery_tag: *delivery_tag,
                options: *options,
            }),
            Call::BasicReject {
                delivery_tag,
                options,
            } => Ok(Call::BasicReject {
                delivery_tag: *delivery_tag,
                options: *options,
            }),
            Call::BasicRecoverAsync { options } => Ok(Call::BasicRecoverAsync {
                options: *options,
            }),
            Call::BasicRecover { options } => Ok(Call::BasicRecover { options: *options }),
            Call::ConfirmSelect { options } => Ok(Call::ConfirmSelect { options: *options }),
            Call::ConfirmLimit { limit } => Ok(Call::ConfirmLimit { limit: *limit }),
            Call::TxSelect => Ok(Call::TxSelect),
            Call::TxCommit => Ok(Call::TxCommit),
            Call::TxRollback => Ok(Call::TxRollback),
        }
    }
}
