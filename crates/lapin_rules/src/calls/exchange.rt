//! The lines of the class exchange. A reply that is awaited keeps what it declares, binds or takes away.

ghost use Rattle.std.specs.Prelude.{◌≡◌, IfOk};
ghost use Rattle.lapin_types.specs.declared.call.Call.TheVariants as call;
ghost use Rattle.lapin_types.specs.ExchangeKinds.{kind_text};
ghost use Rattle.lapin_rules.specs.Calls.{asked};

use super::{Asked, unless_nowait};
use lapin_types::{
    Answer, ExchangeBindOptions, ExchangeDeclareOptions, ExchangeDeleteOptions, ExchangeKind,
    ExchangeMethod, ExchangeUnbindOptions, FieldTable, Method, NoMemory, Reply, ShortString,
};
use std::alloc::Global;

pub(crate) fn declare(
    alloc: Global,
    exchange: ShortString,
    kind: ExchangeKind,
    options: ExchangeDeclareOptions,
    arguments: FieldTable,
) -> Result<Asked, NoMemory>
    ensures { IfOk result (λ a. a ≡ asked (call.ExchangeDeclare exchange kind options arguments)) }
{
    let name = exchange.try_clone(alloc)?;
    let more = arguments.try_clone(alloc)?;
    let text = kind_name(alloc, &kind)?;
    let reply = Reply::ExchangeDeclareOk {
        exchange: name,
        kind,
        options,
        arguments: more,
    };
    let method = Method::Exchange(ExchangeMethod::Declare {
        exchange,
        kind: text,
        passive: options.passive,
        durable: options.durable,
        auto_delete: options.auto_delete,
        internal: options.internal,
        nowait: options.nowait,
        arguments,
    });
    Ok(unless_nowait(method, options.nowait, reply, Answer::Done))
}

// The text of a kind, which is never longer than a short string.
fn kind_name(alloc: Global, kind: &ExchangeKind) -> Result<ShortString, NoMemory>
    ensures { IfOk result (λ text. text ≡ kind_text kind.now) }
{
    match ShortString::new(alloc, kind.kind()) {
        Ok(text) => Ok(text),
        Err(_) => Err(NoMemory),
    }
}

pub(crate) fn delete(
    alloc: Global,
    exchange: ShortString,
    options: ExchangeDeleteOptions,
) -> Result<Asked, NoMemory>
    ensures { IfOk result (λ a. a ≡ asked (call.ExchangeDelete exchange options)) }
{
    let reply = Reply::ExchangeDeleteOk {
        exchange: exchange.try_clone(alloc)?,
    };
    let method = Method::Exchange(ExchangeMethod::Delete {
        exchange,
        if_unused: options.if_unused,
        nowait: options.nowait,
    });
    Ok(unless_nowait(method, options.nowait, reply, Answer::Done))
}

pub(crate) fn bind(
    alloc: Global,
    destination: ShortString,
    source: ShortString,
    routing_key: ShortString,
    options: ExchangeBindOptions,
    arguments: FieldTable,
) -> Result<Asked, NoMemory>
    ensures { IfOk result (λ a. a ≡ asked (call.ExchangeBind destination source routing_key options arguments)) }
{
    let reply = Reply::ExchangeBindOk {
        destination: destination.try_clone(alloc)?,
        source: source.try_clone(alloc)?,
        routing_key: routing_key.try_clone(alloc)?,
        arguments: arguments.try_clone(alloc)?,
    };
    let method = Method::Exchange(ExchangeMethod::Bind {
        destination,
        source,
        routing_key,
        nowait: options.nowait,
        arguments,
    });
    Ok(unless_nowait(method, options.nowait, reply, Answer::Done))
}

pub(crate) fn unbind(
    alloc: Global,
    destination: ShortString,
    source: ShortString,
    routing_key: ShortString,
    options: ExchangeUnbindOptions,
    arguments: FieldTable,
) -> Result<Asked, NoMemory>
    ensures { IfOk result (λ a. a ≡ asked (call.ExchangeUnbind destination source routing_key options arguments)) }
{
    let reply = Reply::ExchangeUnbindOk {
        destination: destination.try_clone(alloc)?,
        source: source.try_clone(alloc)?,
        routing_key: routing_key.try_clone(alloc)?,
        arguments: arguments.try_clone(alloc)?,
    };
    let method = Method::Exchange(ExchangeMethod::Unbind {
        destination,
        source,
        routing_key,
        nowait: options.nowait,
        arguments,
    });
    Ok(unless_nowait(method, options.nowait, reply, Answer::Done))
}
