//! The options of calls and methods: the marks that a method carries, as a struct a method.
//!
//! Here stand plain marks alone, all false by default. What they mean to a session stands in the crates above.

/// The marks of `basic.qos`.
#[derive(Clone, Copy, Debug, Default, PartialEq, Eq)]
pub struct BasicQosOptions {
    /// Whether the limit is the channel's and not each consumer's (as RabbitMQ reads it).
    pub global: bool,
}

/// The marks of `basic.consume`.
#[derive(Clone, Copy, Debug, Default, PartialEq, Eq)]
pub struct BasicConsumeOptions {
    /// Whether messages that this connection published are left out.
    pub no_local: bool,
    /// Whether the broker takes a message as acknowledged once it is sent.
    pub no_ack: bool,
    /// Whether no other consumer may take from the queue.
    pub exclusive: bool,
    /// Whether the broker sends no answer.
    pub nowait: bool,
}

/// The marks of `basic.cancel`.
#[derive(Clone, Copy, Debug, Default, PartialEq, Eq)]
pub struct BasicCancelOptions {
    /// Whether the broker sends no answer.
    pub nowait: bool,
}

/// The marks of `basic.publish`.
#[derive(Clone, Copy, Debug, Default, PartialEq, Eq)]
pub struct BasicPublishOptions {
    /// Whether a message that can't be routed to a queue is returned.
    pub mandatory: bool,
    /// Whether a message that no consumer can take at once is returned.
    pub immediate: bool,
}

/// The marks of `basic.deliver`.
#[derive(Clone, Copy, Debug, Default, PartialEq, Eq)]
pub struct BasicDeliverOptions {
    /// Whether the message may have been delivered before.
    pub redelivered: bool,
}

/// The marks of `basic.get`.
#[derive(Clone, Copy, Debug, Default, PartialEq, Eq)]
pub struct BasicGetOptions {
    /// Whether the broker takes a message as acknowledged once it is sent.
    pub no_ack: bool,
}

/// The marks of `basic.get-ok`.
#[derive(Clone, Copy, Debug, Default, PartialEq, Eq)]
pub struct BasicGetOkOptions {
    /// Whether the message may have been delivered before.
    pub redelivered: bool,
}

/// The marks of `basic.ack`.
#[derive(Clone, Copy, Debug, Default, PartialEq, Eq)]
pub struct BasicAckOptions {
    /// Whether all earlier tags are settled too; with tag 0 all that are pending.
    pub multiple: bool,
}

/// The marks of `basic.reject`.
#[derive(Clone, Copy, Debug, Default, PartialEq, Eq)]
pub struct BasicRejectOptions {
    /// Whether the message goes back to its queue.
    pub requeue: bool,
}

/// The marks of `basic.recover-async`.
#[derive(Clone, Copy, Debug, Default, PartialEq, Eq)]
pub struct BasicRecoverAsyncOptions {
    /// Whether another consumer may get the messages.
    pub requeue: bool,
}

/// The marks of `basic.recover`.
#[derive(Clone, Copy, Debug, Default, PartialEq, Eq)]
pub struct BasicRecoverOptions {
    /// Whether another consumer may get the messages.
    pub requeue: bool,
}

/// The marks of `basic.nack`.
#[derive(Clone, Copy, Debug, Default, PartialEq, Eq)]
pub struct BasicNackOptions {
    /// Whether all earlier tags are settled too; with tag 0 all that are pending.
    pub multiple: bool,
    /// Whether the message goes back to its queue.
    pub requeue: bool,
}

/// The marks of `channel.flow`.
#[derive(Clone, Copy, Debug, Default, PartialEq, Eq)]
pub struct ChannelFlowOptions {
    /// Whether the peer may send contents.
    pub active: bool,
}

/// The marks of `channel.flow-ok`.
#[derive(Clone, Copy, Debug, Default, PartialEq, Eq)]
pub struct ChannelFlowOkOptions {
    /// Whether contents are being sent.
    pub active: bool,
}

/// The marks of `access.request`.
#[derive(Clone, Copy, Debug, Default, PartialEq, Eq)]
pub struct AccessRequestOptions {
    /// Whether exclusive access is asked for.
    pub exclusive: bool,
    /// Whether passive access is asked for.
    pub passive: bool,
    /// Whether active access is asked for.
    pub active: bool,
    /// Whether publishing is asked for.
    pub write: bool,
    /// Whether getting messages is asked for.
    pub read: bool,
}

/// The marks of `exchange.declare`.
#[derive(Clone, Copy, Debug, Default, PartialEq, Eq)]
pub struct ExchangeDeclareOptions {
    /// Whether the call only asks if it exists.
    pub passive: bool,
    /// Whether it survives a restart of the broker.
    pub durable: bool,
    /// Whether it is deleted once nobody uses it any more.
    pub auto_delete: bool,
    /// Whether only other exchanges may publish to it.
    pub internal: bool,
    /// Whether the broker sends no answer.
    pub nowait: bool,
}

/// The marks of `exchange.delete`.
#[derive(Clone, Copy, Debug, Default, PartialEq, Eq)]
pub struct ExchangeDeleteOptions {
    /// Whether it is deleted only where nobody uses it.
    pub if_unused: bool,
    /// Whether the broker sends no answer.
    pub nowait: bool,
}

/// The marks of `exchange.bind`.
#[derive(Clone, Copy, Debug, Default, PartialEq, Eq)]
pub struct ExchangeBindOptions {
    /// Whether the broker sends no answer.
    pub nowait: bool,
}

/// The marks of `exchange.unbind`.
#[derive(Clone, Copy, Debug, Default, PartialEq, Eq)]
pub struct ExchangeUnbindOptions {
    /// Whether the broker sends no answer.
    pub nowait: bool,
}

/// The marks of `queue.declare`.
#[derive(Clone, Copy, Debug, Default, PartialEq, Eq)]
pub struct QueueDeclareOptions {
    /// Whether the call only asks if it exists.
    pub passive: bool,
    /// Whether it survives a restart of the broker.
    pub durable: bool,
    /// Whether only this connection may use the queue.
    pub exclusive: bool,
    /// Whether it is deleted once nobody uses it any more.
    pub auto_delete: bool,
    /// Whether the broker sends no answer.
    pub nowait: bool,
}

/// The marks of `queue.bind`.
#[derive(Clone, Copy, Debug, Default, PartialEq, Eq)]
pub struct QueueBindOptions {
    /// Whether the broker sends no answer.
    pub nowait: bool,
}

/// The marks of `queue.purge`.
#[derive(Clone, Copy, Debug, Default, PartialEq, Eq)]
pub struct QueuePurgeOptions {
    /// Whether the broker sends no answer.
    pub nowait: bool,
}

/// The marks of `queue.delete`.
#[derive(Clone, Copy, Debug, Default, PartialEq, Eq)]
pub struct QueueDeleteOptions {
    /// Whether it is deleted only where nobody uses it.
    pub if_unused: bool,
    /// Whether it is deleted only where it holds no message.
    pub if_empty: bool,
    /// Whether the broker sends no answer.
    pub nowait: bool,
}

/// The marks of `confirm.select`.
#[derive(Clone, Copy, Debug, Default, PartialEq, Eq)]
pub struct ConfirmSelectOptions {
    /// Whether the broker sends no answer.
    pub nowait: bool,
}
