//! The calls on exchanges: a copy of each, and whether a call is one of them with given arguments. What they do
//! stands in the crates above.

ghost use Rattle.std.specs.Prelude.{◌≡◌, IfOk};
ghost use Rattle.std.specs.Bool.{Decides};
ghost use Rattle.lapin_types.specs.declared.call.Call.TheVariants as variant;

use crate::call::Call;
use crate::exchange_kind::ExchangeKind;
use lapin_methods::{
    ExchangeBindOptions, ExchangeDeclareOptions, ExchangeDeleteOptions, ExchangeUnbindOptions,
};
use lapin_values::{FieldTable, NoMemory, ShortString};
use std::alloc::Global;

/// A copy of `Call::ExchangeDeclare`.
pub fn copied_exchange_declare(
    exchange: &ShortString,
    kind: &ExchangeKind,
    options: &ExchangeDeclareOptions,
    arguments: &FieldTable,
    alloc: Global,
) -> Result<Call, NoMemory>
    ensures { IfOk result (λ copy. copy ≡ variant.ExchangeDeclare exchange.now kind.now options.now arguments.now) }
{
    Ok(Call::ExchangeDeclare {
        exchange: exchange.try_clone(alloc)?,
        kind: kind.try_clone(alloc)?,
        options: *options,
        arguments: arguments.try_clone(alloc)?,
    })
}

/// A copy of `Call::ExchangeDelete`.
pub fn copied_exchange_delete(
    exchange: &ShortString,
    options: &ExchangeDeleteOptions,
    alloc: Global,
) -> Result<Call, NoMemory>
    ensures { IfOk result (λ copy. copy ≡ variant.ExchangeDelete exchange.now options.now) }
{
    Ok(Call::ExchangeDelete {
        exchange: exchange.try_clone(alloc)?,
        options: *options,
    })
}

/// A copy of `Call::ExchangeBind`.
pub fn copied_exchange_bind(
    destination: &ShortString,
    source: &ShortString,
    routing_key: &ShortString,
    options: &ExchangeBindOptions,
    arguments: &FieldTable,
    alloc: Global,
) -> Result<Call, NoMemory>
    ensures { IfOk result (λ copy. copy ≡ variant.ExchangeBind destination.now source.now routing_key.now options.now arguments.now) }
{
    Ok(Call::ExchangeBind {
        destination: destination.try_clone(alloc)?,
        source: source.try_clone(alloc)?,
        routing_key: routing_key.try_clone(alloc)?,
        options: *options,
        arguments: arguments.try_clone(alloc)?,
    })
}

/// A copy of `Call::ExchangeUnbind`.
pub fn copied_exchange_unbind(
    destination: &ShortString,
    source: &ShortString,
    routing_key: &ShortString,
    options: &ExchangeUnbindOptions,
    arguments: &FieldTable,
    alloc: Global,
) -> Result<Call, NoMemory>
    ensures { IfOk result (λ copy. copy ≡ variant.ExchangeUnbind destination.now source.now routing_key.now options.now arguments.now) }
{
    Ok(Call::ExchangeUnbind {
        destination: destination.try_clone(alloc)?,
        source: source.try_clone(alloc)?,
        routing_key: routing_key.try_clone(alloc)?,
        options: *options,
        arguments: arguments.try_clone(alloc)?,
    })
}
