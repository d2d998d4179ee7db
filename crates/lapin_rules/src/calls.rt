//! What a call is to a session: the table of calls.
//!
//! One line a call, as the definition of `specs/Calls.antt` says. Six calls do something else than to queue their method; all others
//! are their line of the table, made by class in the files below. The session asks here, and nothing here knows of a state.

ghost use Rattle.std.specs.Prelude.{◌≡◌, IfOk};
ghost use Rattle.lapin_rules.specs.Calls.{asked, is_try as is_try_lem, awaiting as awaiting_lem, answered_at_once as answered_at_once_lem, unless_nowait as unless_nowait_lem, done_as_it_leaves as done_as_it_leaves_lem};
ghost use Rattle.lapin_rules.specs.Asking.{is_allowed as is_allowed_lem};
ghost use Rattle.lapin_rules.specs.Select.{is_select as is_select_lem};
ghost use Rattle.lapin_rules.specs.Ackers.{acker_asked};
ghost use Rattle.lapin_rules.specs.declared.calls.Asked.TheVariants as ask;
ghost use Rattle.lapin_types.specs.Types.method as method_;
ghost use Rattle.lapin_types.specs.declared.call.Call.TheVariants as call;

use crate::marks::AtLeaving;
use lapin_types::{
    AckerCall, Answer, BasicConsumeOptions, BasicMethod, BasicProperties, BasicPublishOptions,
    Call, ChannelState, ConfirmMethod, ConfirmSelectOptions, Method, NoMemory, Payload, Reply,
    ShortString, TxMethod,
};
use std::alloc::Global;

mod basic;
mod channel;
mod exchange;
mod queue;

/// A line of the table of calls.
#[derive(Debug, Drop)]
pub struct Row {
    /// The method that the call queues.
    pub method: Method,
    /// How its ticket is answered.
    pub answered: Answered,
}

/// How the ticket of a call is answered.
#[derive(Debug, Drop)]
pub enum Answered {
    /// By the reply that the call awaits.
    ByReply(Reply),
    /// In the call, which is made without wait: with an answer in place of that of the reply.
    AtOnce(Reply, Answer),
    /// As its frame leaves.
    AsItLeaves(AtLeaving),
}

/// A call, as the rules see it.
#[derive(Debug, Drop)]
pub enum Asked {
    /// Opens the channel.
    Open,
    /// Closes the channel, with a reply code and a reply text.
    CloseChannel(u16, ShortString),
    /// Closes the connection, with a reply code and a reply text.
    CloseConnection(u16, ShortString),
    /// Publishes a message.
    Publish {
        /// The exchange to publish to.
        exchange: ShortString,
        /// The routing key.
        routing_key: ShortString,
        /// The marks of the method.
        options: BasicPublishOptions,
        /// The bytes of the message.
        payload: Payload,
        /// The properties of the message.
        properties: BasicProperties,
    },
    /// Registers a consumer itself, without wait.
    Consume {
        /// The method that the call queues.
        method: Method,
        /// The tag of the consumer.
        consumer_tag: ShortString,
        /// The queue that it consumes from.
        queue: ShortString,
        /// The marks of the method.
        options: BasicConsumeOptions,
    },
    /// Limits the outstanding confirms of the channel's opening, 0 for no limit.
    Limit(u64),
    /// Any other call: it queues its method, and does what its line says.
    Method(Row),
    /// Nothing that a state allows: what is left of a publish that its channel's limit refused.
    Nothing,
}

/// Whether a call may be made on a channel in this state: an open on a closed one, a close of the connection on channel 0 of an
/// open connection, every other call on an open one.
pub fn is_allowed(asked: &Asked, state: ChannelState) -> bool
    ensures { result ≡ is_allowed_lem asked.now state }
{
    match asked {
        Asked::Open => matches!(state, ChannelState::Closed),
        Asked::CloseConnection(_, _) => matches!(state, ChannelState::Base),
        Asked::Nothing => false,
        _ => matches!(state, ChannelState::Open),
    }
}

/// Whether a call is a publish that its channel's limit may refuse.
pub fn is_try(call: &Call) -> bool
    ensures { result ≡ is_try_lem call.now }
{
    matches!(call, Call::TryBasicPublish { .. })
}

/// Sorts a call: one line a call, as in the table of calls.
///
/// # Errors
/// `NoMemory` alone.
pub fn sort_call(alloc: Global, call: Call) -> Result<Asked, NoMemory>
    ensures { IfOk result (λ a. a ≡ asked call) }
{
    match call {
        Call::OpenChannel => Ok(Asked::Open),
        Call::ChannelClose {
            reply_code,
            reply_text,
        } => Ok(Asked::CloseChannel(reply_code, reply_text)),
        Call::ConnectionClose {
            reply_code,
            reply_text,
        } => Ok(Asked::CloseConnection(reply_code, reply_text)),
        Call::BasicPublish {
            exchange,
            routing_key,
            options,
            payload,
            properties,
        } => Ok(Asked::Publish {
            exchange,
            routing_key,
            options,
            payload,
            properties,
        }),
        Call::TryBasicPublish {
            exchange,
            routing_key,
            options,
            payload,
            properties,
        } => Ok(Asked::Publish {
            exchange,
            routing_key,
            options,
            payload,
            properties,
        }),
        Call::ChannelFlow { options } => Ok(channel::flow(options)),
        Call::AccessRequest { realm, options } => Ok(channel::access_request(realm, options)),
        Call::ExchangeDeclare {
            exchange,
            kind,
            options,
            arguments,
        } => exchange::declare(alloc, exchange, kind, options, arguments),
        Call::ExchangeDelete { exchange, options } => exchange::delete(alloc, exchange, options),
        Call::ExchangeBind {
            destination,
            source,
            routing_key,
            options,
            arguments,
        } => exchange::bind(alloc, destination, source, routing_key, options, arguments),
        Call::ExchangeUnbind {
            destination,
            source,
            routing_key,
            options,
            arguments,
        } => exchange::unbind(alloc, destination, source, routing_key, options, arguments),
        Call::QueueDeclare {
            queue,
            options,
            arguments,
        } => queue::declare(alloc, queue, options, arguments),
        Call::QueueBind {
            queue,
            exchange,
            routing_key,
            options,
            arguments,
        } => queue::bind(alloc, queue, exchange, routing_key, options, arguments),
        Call::QueuePurge { queue, options } => Ok(queue::purge(queue, options)),
        Call::QueueDelete { queue, options } => queue::delete(alloc, queue, options),
        Call::QueueUnbind {
            queue,
            exchange,
            routing_key,
            arguments,
        } => queue::unbind(alloc, queue, exchange, routing_key, arguments),
        Call::BasicQos {
            prefetch_count,
            options,
        } => Ok(basic::qos(prefetch_count, options)),
        Call::BasicConsume {
            queue,
            consumer_tag,
            options,
            arguments,
        } => basic::consume(alloc, queue, consumer_tag, options, arguments),
        Call::BasicCancel {
            consumer_tag,
            options,
        } => Ok(basic::cancel(consumer_tag, options)),
        Call::BasicGet { queue, options } => Ok(basic::get(queue, options)),
        Call::BasicAck {
            delivery_tag,
            options,
        } => Ok(basic::ack(delivery_tag, options)),
        Call::BasicNack {
            delivery_tag,
            options,
        } => Ok(basic::nack(delivery_tag, options)),
        Call::BasicReject {
            delivery_tag,
            options,
        } => Ok(basic::reject(delivery_tag, options)),
        Call::BasicRecoverAsync { options } => Ok(basic::recover_async(options)),
        Call::BasicRecover { options } => Ok(basic::recover(options)),
        Call::ConfirmSelect { options } => Ok(confirm_select(options)),
        Call::ConfirmLimit { limit } => Ok(Asked::Limit(limit)),
        Call::TxSelect => Ok(tx(TxMethod::Select, Reply::TxSelectOk)),
        Call::TxCommit => Ok(tx(TxMethod::Commit, Reply::TxCommitOk)),
        Call::TxRollback => Ok(tx(TxMethod::Rollback, Reply::TxRollbackOk)),
    }
}

/// What an acker's call asks for: the method of its name with the delivery tag; its ticket answers yes as the frame leaves.
pub fn acker_row(call: AckerCall, delivery_tag: u64) -> Row
    ensures { ask.Method result ≡ acker_asked call delivery_tag }
{
    let method = match call {
        AckerCall::Ack(options) => BasicMethod::Ack {
            delivery_tag,
            multiple: options.multiple,
        },
        AckerCall::Nack(options) => BasicMethod::Nack {
            delivery_tag,
            multiple: options.multiple,
            requeue: options.requeue,
        },
        AckerCall::Reject(options) => BasicMethod::Reject {
            delivery_tag,
            requeue: options.requeue,
        },
    };
    Row {
        method: Method::Basic(method),
        answered: Answered::AsItLeaves(AtLeaving::Yes),
    }
}

/// Whether a method is `confirm.select`.
pub fn is_select(method: &Method) -> bool
    ensures { result ≡ is_select_lem method.now }
{
    matches!(method, Method::Confirm(ConfirmMethod::Select { .. }))
}

fn confirm_select(options: ConfirmSelectOptions) -> Asked
    ensures { result ≡ asked (call.ConfirmSelect options) }
{
    let nowait = options.nowait;
    let method = Method::Confirm(ConfirmMethod::Select { nowait });
    unless_nowait(method, nowait, Reply::ConfirmSelectOk, Answer::Done)
}

fn tx(method: TxMethod, reply: Reply) -> Asked
    ensures { result ≡ awaiting_lem (method_.Tx method) reply }
{
    awaiting(Method::Tx(method), reply)
}

// A call that awaits this reply.
pub(crate) fn awaiting(method: Method, reply: Reply) -> Asked
    ensures { result ≡ awaiting_lem method reply }
{
    Asked::Method(Row {
        method,
        answered: Answered::ByReply(reply),
    })
}

// A call that awaits this reply, or without wait makes this answer itself.
pub(crate) fn unless_nowait(method: Method, nowait: bool, reply: Reply, answer: Answer) -> Asked
    ensures { result ≡ unless_nowait_lem method nowait reply answer }
{
    if nowait {
        answered_at_once(method, reply, answer)
    } else {
        awaiting(method, reply)
    }
}

// A call that awaits no reply, and is answered as it is made.
fn answered_at_once(method: Method, reply: Reply, answer: Answer) -> Asked
    ensures { result ≡ answered_at_once_lem method reply answer }
{
    Asked::Method(Row {
        method,
        answered: Answered::AtOnce(reply, answer),
    })
}

// A call that awaits no reply, and is done as its frame leaves.
pub(crate) fn done_as_it_leaves(method: Method) -> Asked
    ensures { result ≡ done_as_it_leaves_lem method }
{
    Asked::Method(Row {
        method,
        answered: Answered::AsItLeaves(AtLeaving::Done),
    })
}
