//! The lines of the class basic, but for the publish.

ghost use Rattle.std.specs.Prelude.{◌≡◌, true, IfOk};
ghost use Rattle.lapin_types.specs.Types.method as method_;
ghost use Rattle.lapin_types.specs.Types.basic;
ghost use Rattle.lapin_types.specs.declared.call.Call.TheVariants as call;
ghost use Rattle.lapin_rules.specs.Calls.{asked};

use super::{Asked, awaiting, done_as_it_leaves, unless_nowait};
use lapin_types::{
    Answer, BasicAckOptions, BasicCancelOptions, BasicConsumeOptions, BasicGetOptions, BasicMethod,
    BasicNackOptions, BasicQosOptions, BasicRecoverAsyncOptions, BasicRecoverOptions,
    BasicRejectOptions, FieldTable, Method, NoMemory, Reply, ShortString,
};
use std::alloc::Global;

pub(crate) fn qos(prefetch_count: u16, options: BasicQosOptions) -> Asked
    ensures { result ≡ asked (call.BasicQos prefetch_count options) }
{
    let method = BasicMethod::Qos {
        prefetch_count,
        global: options.global,
    };
    awaiting(Method::Basic(method), Reply::BasicQosOk)
}

// The method takes the tag and the queue, and without wait the registration needs them too: a copy of each, in a function of its
// own.
pub(crate) fn consume(
    alloc: Global,
    queue: ShortString,
    consumer_tag: ShortString,
    options: BasicConsumeOptions,
    arguments: FieldTable,
) -> Result<Asked, NoMemory>
    ensures { IfOk result (λ a. a ≡ asked (call.BasicConsume queue consumer_tag options arguments)) }
{
    let name = queue.try_clone(alloc)?;
    if options.nowait {
        return consume_at_once(alloc, queue, name, consumer_tag, options, arguments);
    }
    let method = consume_method(queue, consumer_tag, options, arguments);
    let reply = Reply::BasicConsumeOk {
        queue: name,
        options,
    };
    Ok(awaiting(method, reply))
}

fn consume_at_once(
    alloc: Global,
    queue: ShortString,
    name: ShortString,
    consumer_tag: ShortString,
    options: BasicConsumeOptions,
    arguments: FieldTable,
) -> Result<Asked, NoMemory>
    requires same { name ≡ queue }
    requires nowait { options.nowait ≡ true }
    ensures { IfOk result (λ a. a ≡ asked (call.BasicConsume queue consumer_tag options arguments)) }
{
    let tag = consumer_tag.try_clone(alloc)?;
    Ok(Asked::Consume {
        method: consume_method(queue, consumer_tag, options, arguments),
        consumer_tag: tag,
        queue: name,
        options,
    })
}

fn consume_method(
    queue: ShortString,
    consumer_tag: ShortString,
    options: BasicConsumeOptions,
    arguments: FieldTable,
) -> Method
    ensures { result ≡ method_.Basic (basic.Consume queue consumer_tag options.no_local options.no_ack options.exclusive options.nowait arguments) }
{
    Method::Basic(BasicMethod::Consume {
        queue,
        consumer_tag,
        no_local: options.no_local,
        no_ack: options.no_ack,
        exclusive: options.exclusive,
        nowait: options.nowait,
        arguments,
    })
}

pub(crate) fn cancel(consumer_tag: ShortString, options: BasicCancelOptions) -> Asked
    ensures { result ≡ asked (call.BasicCancel consumer_tag options) }
{
    let nowait = options.nowait;
    let method = BasicMethod::Cancel {
        consumer_tag,
        nowait,
    };
    unless_nowait(
        Method::Basic(method),
        nowait,
        Reply::BasicCancelOk,
        Answer::Done,
    )
}

pub(crate) fn get(queue: ShortString, options: BasicGetOptions) -> Asked
    ensures { result ≡ asked (call.BasicGet queue options) }
{
    let method = BasicMethod::Get {
        queue,
        no_ack: options.no_ack,
    };
    awaiting(Method::Basic(method), Reply::BasicGetOk)
}

pub(crate) fn ack(delivery_tag: u64, options: BasicAckOptions) -> Asked
    ensures { result ≡ asked (call.BasicAck delivery_tag options) }
{
    let method = BasicMethod::Ack {
        delivery_tag,
        multiple: options.multiple,
    };
    done_as_it_leaves(Method::Basic(method))
}

pub(crate) fn nack(delivery_tag: u64, options: BasicNackOptions) -> Asked
    ensures { result ≡ asked (call.BasicNack delivery_tag options) }
{
    let method = BasicMethod::Nack {
        delivery_tag,
        multiple: options.multiple,
        requeue: options.requeue,
    };
    done_as_it_leaves(Method::Basic(method))
}

pub(crate) fn reject(delivery_tag: u64, options: BasicRejectOptions) -> Asked
    ensures { result ≡ asked (call.BasicReject delivery_tag options) }
{
    let method = BasicMethod::Reject {
        delivery_tag,
        requeue: options.requeue,
    };
    done_as_it_leaves(Method::Basic(method))
}

pub(crate) fn recover_async(options: BasicRecoverAsyncOptions) -> Asked
    ensures { result ≡ asked (call.BasicRecoverAsync options) }
{
    let method = BasicMethod::RecoverAsync {
        requeue: options.requeue,
    };
    done_as_it_leaves(Method::Basic(method))
}

pub(crate) fn recover(options: BasicRecoverOptions) -> Asked
    ensures { result ≡ asked (call.BasicRecover options) }
{
    let method = BasicMethod::Recover {
        requeue: options.requeue,
    };
    awaiting(Method::Basic(method), Reply::BasicRecoverOk)
}
