//! The calls on messages: a copy of each, and whether a call is one of them with given arguments. What they do
//! stands in the crates above.

ghost use Rattle.std.specs.Prelude.{◌≡◌, IfOk};
ghost use Rattle.std.specs.Bool.{Decides};
ghost use Rattle.lapin_types.specs.declared.call.Call.TheVariants as variant;

use crate::call::Call;
use lapin_methods::{
    BasicAckOptions, BasicCancelOptions, BasicConsumeOptions, BasicGetOptions, BasicNackOptions,
    BasicPublishOptions, BasicQosOptions, BasicRecoverAsyncOptions, BasicRecoverOptions,
    BasicRejectOptions,
};
use lapin_values::{BasicProperties, FieldTable, NoMemory, Payload, ShortString};
use std::alloc::Global;

/// A copy of `Call::BasicConsume`.
pub fn copied_basic_consume(
    queue: &ShortString,
    consumer_tag: &ShortString,
    options: &BasicConsumeOptions,
    arguments: &FieldTable,
    alloc: Global,
) -> Result<Call, NoMemory>
    ensures { IfOk result (λ copy. copy ≡ variant.BasicConsume queue.now consumer_tag.now options.now arguments.now) }
{
    Ok(Call::BasicConsume {
        queue: queue.try_clone(alloc)?,
        consumer_tag: consumer_tag.try_clone(alloc)?,
        options: *options,
        arguments: arguments.try_clone(alloc)?,
    })
}

/// A copy of `Call::BasicCancel`.
pub fn copied_basic_cancel(
    consumer_tag: &ShortString,
    options: &BasicCancelOptions,
    alloc: Global,
) -> Result<Call, NoMemory>
    ensures { IfOk result (λ copy. copy ≡ variant.BasicCancel consumer_tag.now options.now) }
{
    Ok(Call::BasicCancel {
        consumer_tag: consumer_tag.try_clone(alloc)?,
        options: *options,
    })
}

/// A copy of `Call::BasicPublish`.
pub fn copied_basic_publish(
    exchange: &ShortString,
    routing_key: &ShortString,
    options: &BasicPublishOptions,
    payload: &Payload,
    properties: &BasicProperties,
    alloc: Global,
) -> Result<Call, NoMemory>
    ensures { IfOk result (λ copy. copy ≡ variant.BasicPublish exchange.now routing_key.now options.now payload.now properties.now) }
{
    Ok(Call::BasicPublish {
        exchange: exchange.try_clone(alloc)?,
        routing_key: routing_key.try_clone(alloc)?,
        options: *options,
        payload: payload.try_clone(alloc)?,
        properties: properties.try_clone(alloc)?,
    })
}

/// A copy of `Call::TryBasicPublish`.
pub fn copied_try_basic_publish(
    exchange: &ShortString,
    routing_key: &ShortString,
    options: &BasicPublishOptions,
    payload: &Payload,
    properties: &BasicProperties,
    alloc: Global,
) -> Result<Call, NoMemory>
    ensures { IfOk result (λ copy. copy ≡ variant.TryBasicPublish exchange.now routing_key.now options.now payload.now properties.now) }
{
    Ok(Call::TryBasicPublish {
        exchange: exchange.try_clone(alloc)?,
        routing_key: routing_key.try_clone(alloc)?,
        options: *options,
        payload: payload.try_clone(alloc)?,
        properties: properties.try_clone(alloc)?,
    })
}

/// A copy of `Call::BasicGet`.
pub fn copied_basic_get(
    queue: &ShortString,
    options: &BasicGetOptions,
    alloc: Global,
) -> Result<Call, NoMemory>
    ensures { IfOk result (λ copy. copy ≡ variant.BasicGet queue.now options.now) }
{
    Ok(Call::BasicGet {
        queue: queue.try_clone(alloc)?,
        options: *options,
    })
}
