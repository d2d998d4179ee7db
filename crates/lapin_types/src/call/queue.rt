//! The calls on queues: a copy of each, and whether a call is one of them with given arguments. What they do
//! stands in the crates above.

ghost use Rattle.std.specs.Prelude.{◌≡◌, IfOk};
ghost use Rattle.std.specs.Bool.{Decides};
ghost use Rattle.lapin_types.specs.declared.call.Call.TheVariants as variant;

use crate::call::Call;
use lapin_methods::{QueueBindOptions, QueueDeclareOptions, QueueDeleteOptions, QueuePurgeOptions};
use lapin_values::{FieldTable, NoMemory, ShortString};
use std::alloc::Global;

/// A copy of `Call::QueueDeclare`.
pub fn copied_queue_declare(
    queue: &ShortString,
    options: &QueueDeclareOptions,
    arguments: &FieldTable,
    alloc: Global,
) -> Result<Call, NoMemory>
    ensures { IfOk result (λ copy. copy ≡ variant.QueueDeclare queue.now options.now arguments.now) }
{
    Ok(Call::QueueDeclare {
        queue: queue.try_clone(alloc)?,
        options: *options,
        arguments: arguments.try_clone(alloc)?,
    })
}

/// A copy of `Call::QueueBind`.
pub fn copied_queue_bind(
    queue: &ShortString,
    exchange: &ShortString,
    routing_key: &ShortString,
    options: &QueueBindOptions,
    arguments: &FieldTable,
    alloc: Global,
) -> Result<Call, NoMemory>
    ensures { IfOk result (λ copy. copy ≡ variant.QueueBind queue.now exchange.now routing_key.now options.now arguments.now) }
{
    Ok(Call::QueueBind {
        queue: queue.try_clone(alloc)?,
        exchange: exchange.try_clone(alloc)?,
        routing_key: routing_key.try_clone(alloc)?,
        options: *options,
        arguments: arguments.try_clone(alloc)?,
    })
}

/// A copy of `Call::QueuePurge`.
pub fn copied_queue_purge(
    queue: &ShortString,
    options: &QueuePurgeOptions,
    alloc: Global,
) -> Result<Call, NoMemory>
    ensures { IfOk result (λ copy. copy ≡ variant.QueuePurge queue.now options.now) }
{
    Ok(Call::QueuePurge {
        queue: queue.try_clone(alloc)?,
        options: *options,
    })
}

/// A copy of `Call::QueueDelete`.
pub fn copied_queue_delete(
    queue: &ShortString,
    options: &QueueDeleteOptions,
    alloc: Global,
) -> Result<Call, NoMemory>
    ensures { IfOk result (λ copy. copy ≡ variant.QueueDelete queue.now options.now) }
{
    Ok(Call::QueueDelete {
        queue: queue.try_clone(alloc)?,
        options: *options,
    })
}

/// A copy of `Call::QueueUnbind`.
pub fn copied_queue_unbind(
    queue: &ShortString,
    exchange: &ShortString,
    routing_key: &ShortString,
    arguments: &FieldTable,
    alloc: Global,
) -> Result<Call, NoMemory>
    ensures { IfOk result (λ copy. copy ≡ variant.QueueUnbind queue.now exchange.now routing_key.now arguments.now) }
{
    Ok(Call::QueueUnbind {
        queue: queue.try_clone(alloc)?,
        exchange: exchange.try_clone(alloc)?,
        routing_key: routing_key.try_clone(alloc)?,
        arguments: arguments.try_clone(alloc)?,
    })
}
