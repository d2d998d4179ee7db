//! The call that queues a method: a table a class, with a line a call. A publish has more than its method, and is not here.

ghost use Rattle.std.specs.Prelude.{◌≡◌};
ghost use Rattle.lapin_text.specs.Calls.{kind_named as kind_named_lem, channel_call as channel_call_lem, access_call as access_call_lem, exchange_call as exchange_call_lem, queue_call as queue_call_lem, basic_call as basic_call_lem, confirm_call as confirm_call_lem, tx_call as tx_call_lem, call_of as call_of_lem};

use lapin_types::{
    AccessMethod, AccessRequestOptions, BasicAckOptions, BasicCancelOptions, BasicConsumeOptions,
    BasicGetOptions, BasicMethod, BasicNackOptions, BasicQosOptions, BasicRecoverAsyncOptions,
    BasicRecoverOptions, BasicRejectOptions, Call, ChannelFlowOptions, ChannelMethod,
    ConfirmMethod, ConfirmSelectOptions, ExchangeBindOptions, ExchangeDeclareOptions,
    ExchangeDeleteOptions, ExchangeKind, ExchangeMethod, ExchangeUnbindOptions, Method,
    QueueBindOptions, QueueDeclareOptions, QueueDeleteOptions, QueueMethod, QueuePurgeOptions,
    ShortString, TxMethod,
};

// One of the standard's four words is the named kind, any other text a custom one.
fn kind_named(name: ShortString) -> ExchangeKind
    ensures { result ≡ kind_named_lem name }
{
    let text = name.as_str();
    if text == "direct" {
        ExchangeKind::Direct
    } else if text == "fanout" {
        ExchangeKind::Fanout
    } else if text == "headers" {
        ExchangeKind::Headers
    } else if text == "topic" {
        ExchangeKind::Topic
    } else {
        ExchangeKind::Custom(name)
    }
}

fn channel_call(method: ChannelMethod) -> Option<Call>
    ensures { result ≡ channel_call_lem method }
{
    match method {
        ChannelMethod::Open => Some(Call::OpenChannel),
        ChannelMethod::Flow { active } => Some(Call::ChannelFlow {
            options: ChannelFlowOptions { active },
        }),
        _ => None,
    }
}

fn access_call(method: AccessMethod) -> Option<Call>
    ensures { result ≡ access_call_lem method }
{
    match method {
        AccessMethod::Request {
            realm,
            exclusive,
            passive,
            active,
            write,
            read,
        } => Some(Call::AccessRequest {
            realm,
            options: AccessRequestOptions {
                exclusive,
                passive,
                active,
                write,
                read,
            },
        }),
        _ => None,
    }
}

fn exchange_call(method: ExchangeMethod) -> Option<Call>
    ensures { result ≡ exchange_call_lem method }
{
    match method {
        ExchangeMethod::Declare {
            exchange,
            kind,
            passive,
            durable,
            auto_delete,
            internal,
            nowait,
            arguments,
        } => Some(Call::ExchangeDeclare {
            exchange,
            kind: kind_named(kind),
            options: ExchangeDeclareOptions {
                passive,
                durable,
                auto_delete,
                internal,
                nowait,
            },
            arguments,
        }),
        ExchangeMethod::Delete {
            exchange,
            if_unused,
            nowait,
        } => Some(Call::ExchangeDelete {
            exchange,
            options: ExchangeDeleteOptions { if_unused, nowait },
        }),
        ExchangeMethod::Bind {
            destination,
            source,
            routing_key,
            nowait,
            arguments,
        } => Some(Call::ExchangeBind {
            destination,
            source,
            routing_key,
            options: ExchangeBindOptions { nowait },
            arguments,
        }),
        ExchangeMethod::Unbind {
            destination,
            source,
            routing_key,
            nowait,
            arguments,
        } => Some(Call::ExchangeUnbind {
            destination,
            source,
            routing_key,
            options: ExchangeUnbindOptions { nowait },
            arguments,
        }),
        _ => None,
    }
}

fn queue_call(method: QueueMethod) -> Option<Call>
    ensures { result ≡ queue_call_lem method }
{
    match method {
        QueueMethod::Declare {
            queue,
            passive,
            durable,
            exclusive,
            auto_delete,
            nowait,
            arguments,
        } => Some(Call::QueueDeclare {
            queue,
            options: QueueDeclareOptions {
                passive,
                durable,
                exclusive,
                auto_delete,
                nowait,
            },
            arguments,
        }),
        QueueMethod::Bind {
            queue,
            exchange,
            routing_key,
            nowait,
            arguments,
        } => Some(Call::QueueBind {
            queue,
            exchange,
            routing_key,
            options: QueueBindOptions { nowait },
            arguments,
        }),
        QueueMethod::Purge { queue, nowait } => Some(Call::QueuePurge {
            queue,
            options: QueuePurgeOptions { nowait },
        }),
        QueueMethod::Delete {
            queue,
            if_unused,
            if_empty,
            nowait,
        } => Some(Call::QueueDelete {
            queue,
            options: QueueDeleteOptions {
                if_unused,
                if_empty,
                nowait,
            },
        }),
        QueueMethod::Unbind {
            queue,
            exchange,
            routing_key,
            arguments,
        } => Some(Call::QueueUnbind {
            queue,
            exchange,
            routing_key,
            arguments,
        }),
        _ => None,
    }
}

fn basic_call(method: BasicMethod) -> Option<Call>
    ensures { result ≡ basic_call_lem method }
{
    match method {
        BasicMethod::Qos {
            prefetch_count,
            global,
        } => Some(Call::BasicQos {
            prefetch_count,
            options: BasicQosOptions { global },
        }),
        BasicMethod::Consume {
            queue,
            consumer_tag,
            no_local,
            no_ack,
            exclusive,
            nowait,
            arguments,
        } => Some(Call::BasicConsume {
            queue,
            consumer_tag,
            options: BasicConsumeOptions {
                no_local,
                no_ack,
                exclusive,
                nowait,
            },
            arguments,
        }),
        BasicMethod::Cancel {
            consumer_tag,
            nowait,
        } => Some(Call::BasicCancel {
            consumer_tag,
            options: BasicCancelOptions { nowait },
        }),
        BasicMethod::Get { queue, no_ack } => Some(Call::BasicGet {
            queue,
            options: BasicGetOptions { no_ack },
        }),
        BasicMethod::Ack {
            delivery_tag,
            multiple,
        } => Some(Call::BasicAck {
            delivery_tag,
            options: BasicAckOptions { multiple },
        }),
        BasicMethod::Nack {
            delivery_tag,
            multiple,
            requeue,
        } => Some(Call::BasicNack {
            delivery_tag,
            options: BasicNackOptions { multiple, requeue },
        }),
        BasicMethod::Reject {
            delivery_tag,
            requeue,
        } => Some(Call::BasicReject {
            delivery_tag,
            options: BasicRejectOptions { requeue },
        }),
        BasicMethod::RecoverAsync { requeue } => Some(Call::BasicRecoverAsync {
            options: BasicRecoverAsyncOptions { requeue },
        }),
        BasicMethod::Recover { requeue } => Some(Call::BasicRecover {
            options: BasicRecoverOptions { requeue },
        }),
        _ => None,
    }
}

fn confirm_call(method: ConfirmMethod) -> Option<Call>
    ensures { result ≡ confirm_call_lem method }
{
    match method {
        ConfirmMethod::Select { nowait } => Some(Call::ConfirmSelect {
            options: ConfirmSelectOptions { nowait },
        }),
        _ => None,
    }
}

fn tx_call(method: TxMethod) -> Option<Call>
    ensures { result ≡ tx_call_lem method }
{
    match method {
        TxMethod::Select => Some(Call::TxSelect),
        TxMethod::Commit => Some(Call::TxCommit),
        TxMethod::Rollback => Some(Call::TxRollback),
        _ => None,
    }
}

/// The call that queues this method and has its fields alone; None where no call does.
pub fn call_of(method: Method) -> Option<Call>
    ensures { result ≡ call_of_lem method }
{
    match method {
        Method::Channel(method) => channel_call(method),
        Method::Access(method) => access_call(method),
        Method::Exchange(method) => exchange_call(method),
        Method::Queue(method) => queue_call(method),
        Method::Basic(method) => basic_call(method),
        Method::Confirm(method) => confirm_call(method),
        Method::Tx(method) => tx_call(method),
        _ => None,
    }
}
