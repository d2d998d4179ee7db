//! The lines of the class queue. A reply that is awaited keeps what it declares, binds or takes away.

ghost use Rattle.std.specs.Prelude.{◌≡◌, IfOk};
ghost use Rattle.lapin_types.specs.declared.call.Call.TheVariants as call;
ghost use Rattle.lapin_rules.specs.Calls.{asked};

use super::{Asked, awaiting, unless_nowait};
use lapin_types::{
    Answer, FieldTable, Method, NoMemory, Queue, QueueBindOptions, QueueDeclareOptions,
    QueueDeleteOptions, QueueMethod, QueuePurgeOptions, Reply, ShortString,
};
use std::alloc::Global;

pub(crate) fn declare(
    alloc: Global,
    queue: ShortString,
    options: QueueDeclareOptions,
    arguments: FieldTable,
) -> Result<Asked, NoMemory>
    ensures { IfOk result (λ a. a ≡ asked (call.QueueDeclare queue options arguments)) }
{
    let reply = Reply::QueueDeclareOk {
        options,
        arguments: arguments.try_clone(alloc)?,
    };
    let answer = Answer::Queue(Queue::new(queue.try_clone(alloc)?, 0, 0));
    let method = Method::Queue(QueueMethod::Declare {
        queue,
        passive: options.passive,
        durable: options.durable,
        exclusive: options.exclusive,
        auto_delete: options.auto_delete,
        nowait: options.nowait,
        arguments,
    });
    Ok(unless_nowait(method, options.nowait, reply, answer))
}

pub(crate) fn bind(
    alloc: Global,
    queue: ShortString,
    exchange: ShortString,
    routing_key: ShortString,
    options: QueueBindOptions,
    arguments: FieldTable,
) -> Result<Asked, NoMemory>
    ensures { IfOk result (λ a. a ≡ asked (call.QueueBind queue exchange routing_key options arguments)) }
{
    let reply = Reply::QueueBindOk {
        queue: queue.try_clone(alloc)?,
        exchange: exchange.try_clone(alloc)?,
        routing_key: routing_key.try_clone(alloc)?,
        arguments: arguments.try_clone(alloc)?,
    };
    let method = Method::Queue(QueueMethod::Bind {
        queue,
        exchange,
        routing_key,
        nowait: options.nowait,
        arguments,
    });
    Ok(unless_nowait(method, options.nowait, reply, Answer::Done))
}

pub(crate) fn purge(queue: ShortString, options: QueuePurgeOptions) -> Asked
    ensures { result ≡ asked (call.QueuePurge queue options) }
{
    let nowait = options.nowait;
    let method = Method::Queue(QueueMethod::Purge { queue, nowait });
    unless_nowait(method, nowait, Reply::QueuePurgeOk, Answer::Count(0))
}

pub(crate) fn delete(
    alloc: Global,
    queue: ShortString,
    options: QueueDeleteOptions,
) -> Result<Asked, NoMemory>
    ensures { IfOk result (λ a. a ≡ asked (call.QueueDelete queue options)) }
{
    let reply = Reply::QueueDeleteOk {
        queue: queue.try_clone(alloc)?,
    };
    let method = Method::Queue(QueueMethod::Delete {
        queue,
        if_unused: options.if_unused,
        if_empty: options.if_empty,
        nowait: options.nowait,
    });
    Ok(unless_nowait(method, options.nowait, reply, Answer::Count(0)))
}

pub(crate) fn unbind(
    alloc: Global,
    queue: ShortString,
    exchange: ShortString,
    routing_key: ShortString,
    arguments: FieldTable,
) -> Result<Asked, NoMemory>
    ensures { IfOk result (λ a. a ≡ asked (call.QueueUnbind queue exchange routing_key arguments)) }
{
    let reply = Reply::QueueUnbindOk {
        queue: queue.try_clone(alloc)?,
        exchange: exchange.try_clone(alloc)?,
        routing_key: routing_key.try_clone(alloc)?,
        arguments: arguments.try_clone(alloc)?,
    };
    let method = Method::Queue(QueueMethod::Unbind {
        queue,
        exchange,
        routing_key,
        arguments,
    });
    Ok(awaiting(method, reply))
}
