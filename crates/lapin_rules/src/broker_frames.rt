//! What a broker's frame is to a channel.
//!
//! Here a frame is sorted, once for all methods; what a channel does with it is the session's.

ghost use Rattle.std.specs.Prelude.{◌≡◌, false};
ghost use Rattle.lapin_rules.specs.Incoming.{incoming_of, incoming_method, on_connection as on_connection_lem, settlement as settlement_lem, tells_all, frame_class, frame_method};
ghost use Rattle.lapin_types.specs.Types.basic;
ghost use Rattle.lapin_types.specs.Types.method as method_;
ghost use Rattle.lapin_rules.specs.Requests.{is_kind as is_kind_lem};
ghost use Rattle.lapin_rules.specs.declared.broker_frames.Incoming.TheVariants as incoming;
ghost use Rattle.lapin_types.specs.declared.answer.Answer.TheVariants as answer;
ghost use Rattle.lapin_rules.specs.Wire.{receives_on as receives_on_lem};
ghost use Rattle.lapin_rules.specs.Opening.{opens as opens_lem};
ghost use Rattle.lapin_rules.specs.Reply.{receives as receives_lem};
ghost use Rattle.lapin_rules.specs.ChannelClose.{receives_close as receives_close_lem, receives_close_ok as receives_close_ok_lem};
ghost use Rattle.lapin_rules.specs.ConnectionClose.{receives_down as receives_down_lem};

use crate::marks::{SettleKind, Settlement};
use crate::phases::{CloseStage, ConnectionPhase};
use lapin_content::Start;
use lapin_types::{
    AccessMethod, Answer, BasicMethod, ChannelMethod, ChannelState, ConfirmMethod,
    ConnectionMethod, ContentHeader, ExchangeMethod, Frame, Method, Payload, Queue, QueueMethod,
    ReplyKind, Request, ShortString, TxMethod,
};

/// A frame that begins a content, or belongs to one.
#[derive(Debug, Drop)]
pub enum ContentPart {
    /// The broker answers a get with a message: what begins its content, which names no ticket yet.
    GetOk(Start),
    /// The broker gives a message back: what begins its content.
    Return(Start),
    /// The broker delivers a message to the consumer of this tag: what begins its content, which names no consumer yet.
    Deliver(ShortString, Start),
    /// The header of a content.
    Header(ContentHeader),
    /// Bytes of a content.
    Body(Payload),
}

/// A frame that is about consumers, with the tag that it names.
#[derive(Debug, Drop)]
pub enum ConsumerPart {
    /// `basic.consume-ok`.
    ConsumeOk(ShortString),
    /// `basic.cancel-ok`.
    CancelOk(ShortString),
    /// `basic.recover-ok`.
    RecoverOk,
    /// The broker's own `basic.cancel`, and whether it asks for no answer.
    Cancel(ShortString, bool),
}

/// A broker's frame, as the rules see it.
#[derive(Debug, Drop)]
pub enum Incoming {
    /// A reply to the oldest open request of its kind on the channel, with the answer that it makes.
    Reply(u16, ReplyKind, Answer),
    /// A settlement of publishes of the channel.
    Settlement(u16, Settlement),
    /// A part of a content of the channel.
    Content(u16, ContentPart),
    /// What is about consumers of the channel.
    Consumer(u16, ConsumerPart),
    /// The broker pauses the channel, or with true ends the pause.
    Flow(u16, bool),
    /// The broker closes the channel, with its reply code.
    ChannelClose(u16, u16),
    /// The broker answers a close of the channel.
    ChannelCloseOk(u16),
    /// The broker closes the connection, with its reply code.
    ConnectionClose(u16),
    /// The broker answers a close of the connection.
    ConnectionCloseOk,
    /// A frame that is received in no state.
    Other,
}

/// Sorts a frame of the broker.
pub fn sort_frame(frame: Frame) -> Incoming
    ensures { result ≡ incoming_of frame }
{
    match frame {
        Frame::Method(channel, method) => sort_method(channel, method),
        Frame::Header(channel, header) => Incoming::Content(channel, ContentPart::Header(header)),
        Frame::Body(channel, payload) => Incoming::Content(channel, ContentPart::Body(payload)),
    }
}

fn sort_method(channel: u16, method: Method) -> Incoming
    ensures { result ≡ incoming_method channel method }
{
    match method {
        Method::Connection(method) => sort_connection(channel, method),
        Method::Channel(method) => sort_channel(channel, method),
        Method::Access(AccessMethod::RequestOk) => done(channel, ReplyKind::AccessRequestOk),
        Method::Exchange(method) => sort_exchange(channel, method),
        Method::Queue(method) => sort_queue(channel, method),
        Method::Basic(method) => sort_basic(channel, method),
        Method::Confirm(ConfirmMethod::SelectOk) => done(channel, ReplyKind::ConfirmSelectOk),
        Method::Tx(TxMethod::SelectOk) => done(channel, ReplyKind::TxSelectOk),
        Method::Tx(TxMethod::CommitOk) => done(channel, ReplyKind::TxCommitOk),
        Method::Tx(TxMethod::RollbackOk) => done(channel, ReplyKind::TxRollbackOk),
        _ => Incoming::Other,
    }
}

fn sort_connection(channel: u16, method: ConnectionMethod) -> Incoming
    ensures { result ≡ incoming_method channel (method_.Connection method) }
{
    match method {
        ConnectionMethod::Close { reply_code, .. } => {
            on_connection(channel, Incoming::ConnectionClose(reply_code))
        }
        ConnectionMethod::CloseOk => on_connection(channel, Incoming::ConnectionCloseOk),
    }
}

fn sort_channel(channel: u16, method: ChannelMethod) -> Incoming
    ensures { result ≡ incoming_method channel (method_.Channel method) }
{
    match method {
        ChannelMethod::OpenOk => {
            Incoming::Reply(channel, ReplyKind::ChannelOpenOk, Answer::Channel(channel))
        }
        ChannelMethod::Flow { active } => Incoming::Flow(channel, active),
        ChannelMethod::FlowOk { active } => {
            Incoming::Reply(channel, ReplyKind::ChannelFlowOk, Answer::Flow(active))
        }
        ChannelMethod::Close { reply_code, .. } => Incoming::ChannelClose(channel, reply_code),
        ChannelMethod::CloseOk => Incoming::ChannelCloseOk(channel),
        _ => Incoming::Other,
    }
}

fn sort_exchange(channel: u16, method: ExchangeMethod) -> Incoming
    ensures { result ≡ incoming_method channel (method_.Exchange method) }
{
    match method {
        ExchangeMethod::DeclareOk => done(channel, ReplyKind::ExchangeDeclareOk),
        ExchangeMethod::DeleteOk => done(channel, ReplyKind::ExchangeDeleteOk),
        ExchangeMethod::BindOk => done(channel, ReplyKind::ExchangeBindOk),
        ExchangeMethod::UnbindOk => done(channel, ReplyKind::ExchangeUnbindOk),
        _ => Incoming::Other,
    }
}

fn sort_queue(channel: u16, method: QueueMethod) -> Incoming
    ensures { result ≡ incoming_method channel (method_.Queue method) }
{
    match method {
        QueueMethod::DeclareOk {
            queue,
            message_count,
            consumer_count,
        } => {
            let answer = Answer::Queue(Queue::new(queue, message_count, consumer_count));
            Incoming::Reply(channel, ReplyKind::QueueDeclareOk, answer)
        }
        QueueMethod::BindOk => done(channel, ReplyKind::QueueBindOk),
        QueueMethod::UnbindOk => done(channel, ReplyKind::QueueUnbindOk),
        QueueMethod::PurgeOk { message_count } => Incoming::Reply(
            channel,
            ReplyKind::QueuePurgeOk,
            Answer::Count(message_count),
        ),
        QueueMethod::DeleteOk { message_count } => Incoming::Reply(
            channel,
            ReplyKind::QueueDeleteOk,
            Answer::Count(message_count),
        ),
        _ => Incoming::Other,
    }
}

fn sort_basic(channel: u16, method: BasicMethod) -> Incoming
    ensures { result ≡ incoming_method channel (method_.Basic method) }
{
    match method {
        BasicMethod::QosOk => done(channel, ReplyKind::BasicQosOk),
        BasicMethod::RecoverOk => Incoming::Consumer(channel, ConsumerPart::RecoverOk),
        BasicMethod::ConsumeOk { consumer_tag } => {
            Incoming::Consumer(channel, ConsumerPart::ConsumeOk(consumer_tag))
        }
        BasicMethod::CancelOk { consumer_tag } => {
            Incoming::Consumer(channel, ConsumerPart::CancelOk(consumer_tag))
        }
        BasicMethod::Cancel {
            consumer_tag,
            nowait,
        } => Incoming::Consumer(channel, ConsumerPart::Cancel(consumer_tag, nowait)),
        BasicMethod::Ack {
            delivery_tag,
            multiple,
        } => settlement(channel, SettleKind::Ack, delivery_tag, multiple),
        BasicMethod::Nack {
            delivery_tag,
            multiple,
            requeue: _requeue,
        } => settlement(channel, SettleKind::Nack, delivery_tag, multiple),
        method => sort_content(channel, method),
    }
}

// A method that begins a content, or tells that there is none; or one that only a client sends.
fn sort_content(channel: u16, method: BasicMethod) -> Incoming
    requires { tells_all method ≡ false }
    ensures { result ≡ incoming_method channel (method_.Basic method) }
{
    match method {
        BasicMethod::Deliver {
            consumer_tag,
            delivery_tag,
            redelivered,
            exchange,
            routing_key,
        } => delivered(
            channel,
            consumer_tag,
            delivery_tag,
            redelivered,
            exchange,
            routing_key,
        ),
        BasicMethod::GetEmpty => {
            Incoming::Reply(channel, ReplyKind::BasicGetOk, Answer::Got(None))
        }
        BasicMethod::GetOk {
            delivery_tag,
            redelivered,
            exchange,
            routing_key,
            message_count,
        } => got(
            channel,
            delivery_tag,
            redelivered,
            exchange,
            routing_key,
            message_count,
        ),
        BasicMethod::Return {
            reply_code,
            reply_text,
            exchange,
            routing_key,
        } => returned(channel, reply_code, reply_text, exchange, routing_key),
        _ => Incoming::Other,
    }
}

fn delivered(
    channel: u16,
    consumer_tag: ShortString,
    delivery_tag: u64,
    redelivered: bool,
    exchange: ShortString,
    routing_key: ShortString,
) -> Incoming
    ensures { result ≡ incoming_method channel (method_.Basic (basic.Deliver consumer_tag delivery_tag redelivered exchange routing_key)) }
{
    let start = Start::Deliver {
        consumer: None,
        delivery_tag,
        exchange,
        routing_key,
        redelivered,
    };
    Incoming::Content(channel, ContentPart::Deliver(consumer_tag, start))
}

fn got(
    channel: u16,
    delivery_tag: u64,
    redelivered: bool,
    exchange: ShortString,
    routing_key: ShortString,
    message_count: u32,
) -> Incoming
    ensures { result ≡ incoming_method channel (method_.Basic (basic.GetOk delivery_tag redelivered exchange routing_key message_count)) }
{
    let start = Start::Get {
        ticket: None,
        delivery_tag,
        exchange,
        routing_key,
        redelivered,
        message_count,
    };
    Incoming::Content(channel, ContentPart::GetOk(start))
}

fn returned(
    channel: u16,
    reply_code: u16,
    reply_text: ShortString,
    exchange: ShortString,
    routing_key: ShortString,
) -> Incoming
    ensures { result ≡ incoming_method channel (method_.Basic (basic.Return reply_code reply_text exchange routing_key)) }
{
    let start = Start::Return {
        reply_code,
        reply_text,
        exchange,
        routing_key,
    };
    Incoming::Content(channel, ContentPart::Return(start))
}

// A settlement of one tag, or of many.
fn settlement(channel: u16, kind: SettleKind, tag: u64, multiple: bool) -> Incoming
    ensures { result ≡ incoming.Settlement channel (settlement_lem kind tag multiple) }
{
    Incoming::Settlement(
        channel,
        Settlement {
            kind,
            tag,
            multiple,
        },
    )
}

// A reply that tells nothing but that its call is done.
fn done(channel: u16, kind: ReplyKind) -> Incoming
    ensures { result ≡ incoming.Reply channel kind answer.Done }
{
    Incoming::Reply(channel, kind, Answer::Done)
}

// Closes of the connection are received on its own channel alone.
fn on_connection(channel: u16, incoming: Incoming) -> Incoming
    ensures { result ≡ on_connection_lem channel incoming }
{
    if channel == 0 {
        incoming
    } else {
        Incoming::Other
    }
}

/// The class of a frame: a method's or a header's own, 0 for a body.
pub fn class_of(frame: &Frame) -> u16
    ensures { result ≡ frame_class frame.now }
{
    match frame {
        Frame::Method(_, method) => method.class_id(),
        Frame::Header(_, header) => header.class_id,
        Frame::Body(_, _) => 0,
    }
}

/// The method of a frame, 0 for a header and a body.
pub fn method_of(frame: &Frame) -> u16
    ensures { result ≡ frame_method frame.now }
{
    match frame {
        Frame::Method(_, method) => method.method_id(),
        _ => 0,
    }
}

/// Whether a request awaits a reply of this kind.
pub fn is_kind(kind: ReplyKind, request: &Request) -> bool
    ensures { result ≡ is_kind_lem kind request.now }
{
    request.reply.kind() == kind
}

/// Whether settlements and replies are received in a state: on an open channel, and still on one that this side is closing.
pub fn receives_on(state: ChannelState) -> bool
    ensures { result ≡ receives_on_lem state }
{
    matches!(state, ChannelState::Open | ChannelState::Closing)
}

/// Whether `channel.close` is received in a state.
pub fn receives_close(state: ChannelState) -> bool
    ensures { result ≡ receives_close_lem state }
{
    matches!(
        state,
        ChannelState::Opening | ChannelState::Open | ChannelState::Closing
    )
}

/// Whether `channel.close-ok` is received in a state.
pub fn receives_close_ok(state: ChannelState) -> bool
    ensures { result ≡ receives_close_ok_lem state }
{
    matches!(state, ChannelState::Closing | ChannelState::Crossed)
}

/// Whether a frame is received though the connection is not open: while this side closes it, `connection.close-ok` and the first
/// `connection.close`.
pub fn receives_down(link: ConnectionPhase, incoming: &Incoming) -> bool
    ensures { result ≡ receives_down_lem link incoming.now }
{
    match (link, incoming) {
        (ConnectionPhase::Closing(_), Incoming::ConnectionCloseOk) => true,
        (ConnectionPhase::Closing(stage), Incoming::ConnectionClose(_)) => !matches!(
            stage,
            CloseStage::Crossed
        ),
        _ => false,
    }
}

/// Whether a reply of this kind opens its channel.
pub fn opens(kind: ReplyKind) -> bool
    ensures { result ≡ opens_lem kind }
{
    matches!(kind, ReplyKind::ChannelOpenOk)
}

/// Whether a reply of this kind is received in a state: `channel.open-ok` on an opening channel, every other one where replies are
/// received.
pub fn receives(kind: ReplyKind, state: ChannelState) -> bool
    ensures { result ≡ receives_lem kind state }
{
    if opens(kind) {
        matches!(state, ChannelState::Opening)
    } else {
        receives_on(state)
    }
}
