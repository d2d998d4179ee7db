//! What a frame is to the broker: one that a client sent, and one that the broker is to send. A method's kind is decided here
//! and nowhere else. What a kind does stands elsewhere.

ghost use Rattle.std.specs.Prelude.{◌≡◌, IfOk};
ghost use Rattle.lapin_broker.specs.Frames.{channel_of as channel_of_lem, tag_of as tag_of_lem, tag_in as tag_in_lem, echo_of as echo_of_lem, echo_in as echo_in_lem, client_frame as client_frame_lem, client_method as client_method_lem, client_channel as client_channel_lem, client_exchange as client_exchange_lem, client_queue as client_queue_lem, client_basic as client_basic_lem, client_confirm as client_confirm_lem, client_tx as client_tx_lem, broker_frame as broker_frame_lem, broker_method as broker_method_lem, broker_channel as broker_channel_lem, broker_exchange as broker_exchange_lem, broker_queue as broker_queue_lem, broker_basic as broker_basic_lem, broker_tx as broker_tx_lem, ask_unless as ask_unless_lem};
ghost use Rattle.lapin_broker.specs.Reads.{is_connection_close as client_closes_connection, is_connection_close_ok as client_answers_connection, is_open as client_opens, is_publish as client_publishes};
ghost use Rattle.lapin_broker.specs.Sends.{is_connection_close as broker_closes_connection, is_connection_close_ok as broker_answers_connection, is_open_ok as broker_opens, is_close as broker_closes, is_close_ok as broker_answers};

use crate::request::{Echo, RequestKind};
use lapin_types::{
    AccessMethod, BasicMethod, ChannelMethod, ConfirmMethod, ConnectionMethod, ExchangeMethod,
    Frame, Method, NoMemory, QueueMethod, TxMethod,
};
use std::alloc::Global;

/// A frame that a client sent, as the broker sorts it. The names and texts stand in the frame itself.
#[derive(Clone, Copy, Debug, PartialEq, Eq)]
pub enum ClientFrame {
    /// `connection.close` on channel 0.
    ConnectionClose,
    /// `connection.close-ok` on channel 0.
    ConnectionCloseOk,
    /// `channel.open` above channel 0.
    Open,
    /// `channel.close`.
    Close,
    /// `channel.close-ok`.
    CloseOk,
    /// `basic.publish`, which begins a content.
    Publish,
    /// A content's header: its class, and its size in bytes.
    Header(u16, u64),
    /// A content's body of so many bytes.
    Body(u64),
    /// `confirm.select`, and whether it awaits its reply.
    Select(bool),
    /// Any other method that awaits a reply.
    Ask(RequestKind),
    /// `basic.consume` without wait.
    Consume,
    /// `basic.cancel` without wait.
    Cancel,
    /// A method that is read and changes nothing: a settlement of a delivery, `basic.recover-async`, `channel.flow-ok`,
    /// `basic.cancel-ok`, or a call without wait.
    Tell,
    /// A frame that no client sends, or on a channel where it has no meaning.
    Other,
}

/// A frame that the broker is to send, as it is sorted. The names and texts stand in the frame itself.
#[derive(Clone, Copy, Debug, PartialEq, Eq)]
pub enum BrokerFrame {
    /// `connection.close` on channel 0.
    ConnectionClose,
    /// `connection.close-ok` on channel 0.
    ConnectionCloseOk,
    /// `channel.open-ok`.
    OpenOk,
    /// `channel.close`.
    Close,
    /// `channel.close-ok`.
    CloseOk,
    /// A reply to a request of this kind, free in all its fields. The three replies below have rules of their own.
    Reply(RequestKind),
    /// `basic.consume-ok`, which names a tag.
    ConsumeOk,
    /// `basic.cancel-ok`, which names a tag.
    CancelOk,
    /// `basic.get-ok`, which begins a content.
    GetOk,
    /// `basic.ack` or `basic.nack`: its number, and whether it is multiple.
    Settle(u64, bool),
    /// `basic.deliver`, which names a tag and begins a content.
    Deliver,
    /// `basic.return`, which begins a content.
    Return,
    /// `basic.cancel`, which names a tag.
    Cancel,
    /// `channel.flow`.
    Flow,
    /// A content's header: its class and size.
    Header(u16, u64),
    /// A content's body of so many bytes.
    Body(u64),
    /// A frame that no broker sends, or on a channel where it has no meaning.
    Other,
}

impl ClientFrame {
    /// Whether it closes the connection.
    pub fn is_connection_close(self) -> bool
        ensures { result ≡ client_closes_connection self }
    {
        matches!(self, ClientFrame::ConnectionClose)
    }

    /// Whether it answers the close of the connection.
    pub fn is_connection_close_ok(self) -> bool
        ensures { result ≡ client_answers_connection self }
    {
        matches!(self, ClientFrame::ConnectionCloseOk)
    }

    /// Whether it opens a channel.
    pub fn is_open(self) -> bool
        ensures { result ≡ client_opens self }
    {
        matches!(self, ClientFrame::Open)
    }

    /// Whether it begins a content.
    pub fn is_publish(self) -> bool
        ensures { result ≡ client_publishes self }
    {
        matches!(self, ClientFrame::Publish)
    }
}

impl BrokerFrame {
    /// Whether it closes the connection.
    pub fn is_connection_close(self) -> bool
        ensures { result ≡ broker_closes_connection self }
    {
        matches!(self, BrokerFrame::ConnectionClose)
    }

    /// Whether it answers the close of the connection.
    pub fn is_connection_close_ok(self) -> bool
        ensures { result ≡ broker_answers_connection self }
    {
        matches!(self, BrokerFrame::ConnectionCloseOk)
    }

    /// Whether it answers the open of a channel.
    pub fn is_open_ok(self) -> bool
        ensures { result ≡ broker_opens self }
    {
        matches!(self, BrokerFrame::OpenOk)
    }

    /// Whether it closes a channel.
    pub fn is_close(self) -> bool
        ensures { result ≡ broker_closes self }
    {
        matches!(self, BrokerFrame::Close)
    }

    /// Whether it answers the close of a channel.
    pub fn is_close_ok(self) -> bool
        ensures { result ≡ broker_answers self }
    {
        matches!(self, BrokerFrame::CloseOk)
    }
}

/// The channel of a frame.
pub fn channel_of(frame: &Frame) -> u16
    ensures { result ≡ channel_of_lem frame.now }
{
    match frame {
        Frame::Method(channel, _) => *channel,
        Frame::Header(channel, _) => *channel,
        Frame::Body(channel, _) => *channel,
    }
}

/// The consumer tag that a frame names, empty where it names none.
pub fn tag_of(frame: &Frame) -> &str
    ensures { result.now ≡ tag_of_lem frame.now }
{
    match frame {
        Frame::Method(_, Method::Basic(method)) => tag_in(method),
        _ => "",
    }
}

fn tag_in(method: &BasicMethod) -> &str
    ensures { result.now ≡ tag_in_lem method.now }
{
    match method {
        BasicMethod::Consume { consumer_tag, .. } => consumer_tag.as_str(),
        BasicMethod::ConsumeOk { consumer_tag } => consumer_tag.as_str(),
        BasicMethod::Cancel { consumer_tag, .. } => consumer_tag.as_str(),
        BasicMethod::CancelOk { consumer_tag } => consumer_tag.as_str(),
        BasicMethod::Deliver { consumer_tag, .. } => consumer_tag.as_str(),
        _ => "",
    }
}

/// What of a request its reply repeats, in memory of its own.
pub fn echo_of(alloc: Global, frame: &Frame) -> Result<Echo, NoMemory>
    ensures { IfOk result (λ echo. echo ≡ echo_of_lem frame.now) }
{
    match frame {
        Frame::Method(_, method) => echo_in(alloc, method),
        _ => Ok(Echo::Nothing),
    }
}

fn echo_in(alloc: Global, method: &Method) -> Result<Echo, NoMemory>
    ensures { IfOk result (λ echo. echo ≡ echo_in_lem method.now) }
{
    match method {
        Method::Channel(ChannelMethod::Flow { active }) => Ok(Echo::Active(*active)),
        Method::Queue(QueueMethod::Declare { queue, .. }) => {
            Ok(Echo::Name(queue.try_clone(alloc)?))
        }
        Method::Basic(BasicMethod::Consume { consumer_tag, .. }) => {
            Ok(Echo::Name(consumer_tag.try_clone(alloc)?))
        }
        Method::Basic(BasicMethod::Cancel { consumer_tag, .. }) => {
            Ok(Echo::Name(consumer_tag.try_clone(alloc)?))
        }
        _ => Ok(Echo::Nothing),
    }
}

/// Sorts a frame that a client sent.
pub fn client_frame(frame: &Frame) -> ClientFrame
    ensures { result ≡ client_frame_lem frame.now }
{
    match frame {
        Frame::Method(channel, method) => client_method(*channel, method),
        Frame::Header(_, header) => ClientFrame::Header(header.class_id, header.body_size),
        Frame::Body(_, payload) => ClientFrame::Body(payload.as_bytes().len() as u64),
    }
}

fn client_method(channel: u16, method: &Method) -> ClientFrame
    ensures { result ≡ client_method_lem channel method.now }
{
    match method {
        Method::Connection(ConnectionMethod::Close { .. }) if channel == 0 => {
            ClientFrame::ConnectionClose
        }
        Method::Connection(ConnectionMethod::CloseOk) if channel == 0 => {
            ClientFrame::ConnectionCloseOk
        }
        Method::Connection(_) => ClientFrame::Other,
        Method::Channel(method) => client_channel(channel, method),
        Method::Access(AccessMethod::Request { .. }) => ClientFrame::Ask(RequestKind::Access),
        Method::Access(AccessMethod::RequestOk) => ClientFrame::Other,
        Method::Exchange(method) => client_exchange(method),
        Method::Queue(method) => client_queue(method),
        Method::Basic(method) => client_basic(method),
        Method::Confirm(method) => client_confirm(method),
        Method::Tx(method) => client_tx(method),
    }
}

// A request, unless it is without wait.
fn ask_unless(nowait: bool, kind: RequestKind) -> ClientFrame
    ensures { result ≡ ask_unless_lem nowait kind }
{
    if nowait {
        ClientFrame::Tell
    } else {
        ClientFrame::Ask(kind)
    }
}

fn client_channel(channel: u16, method: &ChannelMethod) -> ClientFrame
    ensures { result ≡ client_channel_lem channel method.now }
{
    match method {
        ChannelMethod::Open => {
            if channel == 0 {
                ClientFrame::Other
            } else {
                ClientFrame::Open
            }
        }
        ChannelMethod::Flow { .. } => ClientFrame::Ask(RequestKind::Flow),
        ChannelMethod::FlowOk { .. } => ClientFrame::Tell,
        ChannelMethod::Close { .. } => ClientFrame::Close,
        ChannelMethod::CloseOk => ClientFrame::CloseOk,
        ChannelMethod::OpenOk => ClientFrame::Other,
    }
}

fn client_exchange(method: &ExchangeMethod) -> ClientFrame
    ensures { result ≡ client_exchange_lem method.now }
{
    match method {
        ExchangeMethod::Declare { nowait, .. } => ask_unless(*nowait, RequestKind::ExchangeDeclare),
        ExchangeMethod::Delete { nowait, .. } => ask_unless(*nowait, RequestKind::ExchangeDelete),
        ExchangeMethod::Bind { nowait, .. } => ask_unless(*nowait, RequestKind::ExchangeBind),
        ExchangeMethod::Unbind { nowait, .. } => ask_unless(*nowait, RequestKind::ExchangeUnbind),
        _ => ClientFrame::Other,
    }
}

fn client_queue(method: &QueueMethod) -> ClientFrame
    ensures { result ≡ client_queue_lem method.now }
{
    match method {
        QueueMethod::Declare { nowait, .. } => ask_unless(*nowait, RequestKind::QueueDeclare),
        QueueMethod::Bind { nowait, .. } => ask_unless(*nowait, RequestKind::QueueBind),
        QueueMethod::Purge { nowait, .. } => ask_unless(*nowait, RequestKind::QueuePurge),
        QueueMethod::Delete { nowait, .. } => ask_unless(*nowait, RequestKind::QueueDelete),
        QueueMethod::Unbind { .. } => ClientFrame::Ask(RequestKind::QueueUnbind),
        _ => ClientFrame::Other,
    }
}

fn client_basic(method: &BasicMethod) -> ClientFrame
    ensures { result ≡ client_basic_lem method.now }
{
    match method {
        BasicMethod::Qos { .. } => ClientFrame::Ask(RequestKind::Qos),
        BasicMethod::Consume { nowait, .. } => {
            if *nowait {
                ClientFrame::Consume
            } else {
                ClientFrame::Ask(RequestKind::Consume)
            }
        }
        BasicMethod::Cancel { nowait, .. } => {
            if *nowait {
                ClientFrame::Cancel
            } else {
                ClientFrame::Ask(RequestKind::Cancel)
            }
        }
        BasicMethod::Publish { .. } => ClientFrame::Publish,
        BasicMethod::Get { .. } => ClientFrame::Ask(RequestKind::Get),
        BasicMethod::Recover { .. } => ClientFrame::Ask(RequestKind::Recover),
        BasicMethod::Ack { .. } => ClientFrame::Tell,
        BasicMethod::Nack { .. } => ClientFrame::Tell,
        BasicMethod::Reject { .. } => ClientFrame::Tell,
        BasicMethod::RecoverAsync { .. } => ClientFrame::Tell,
        BasicMethod::CancelOk { .. } => ClientFrame::Tell,
        _ => ClientFrame::Other,
    }
}

fn client_confirm(method: &ConfirmMethod) -> ClientFrame
    ensures { result ≡ client_confirm_lem method.now }
{
    match method {
        ConfirmMethod::Select { nowait } => ClientFrame::Select(!*nowait),
        ConfirmMethod::SelectOk => ClientFrame::Other,
    }
}

fn client_tx(method: &TxMethod) -> ClientFrame
    ensures { result ≡ client_tx_lem method.now }
{
    match method {
        TxMethod::Select => ClientFrame::Ask(RequestKind::TxSelect),
        TxMethod::Commit => ClientFrame::Ask(RequestKind::TxCommit),
        TxMethod::Rollback => ClientFrame::Ask(RequestKind::TxRollback),
        _ => ClientFrame::Other,
    }
}

/// Sorts a frame that the broker is to send.
pub fn broker_frame(frame: &Frame) -> BrokerFrame
    ensures { result ≡ broker_frame_lem frame.now }
{
    match frame {
        Frame::Method(channel, method) => broker_method(*channel, method),
        Frame::Header(_, header) => BrokerFrame::Header(header.class_id, header.body_size),
        Frame::Body(_, payload) => BrokerFrame::Body(payload.as_bytes().len() as u64),
    }
}

fn broker_method(channel: u16, method: &Method) -> BrokerFrame
    ensures { result ≡ broker_method_lem channel method.now }
{
    match method {
        Method::Connection(ConnectionMethod::Close { .. }) if channel == 0 => {
            BrokerFrame::ConnectionClose
        }
        Method::Connection(ConnectionMethod::CloseOk) if channel == 0 => {
            BrokerFrame::ConnectionCloseOk
        }
        Method::Connection(_) => BrokerFrame::Other,
        Method::Channel(method) => broker_channel(method),
        Method::Access(AccessMethod::RequestOk) => BrokerFrame::Reply(RequestKind::Access),
        Method::Access(AccessMethod::Request { .. }) => BrokerFrame::Other,
        Method::Exchange(method) => broker_exchange(method),
        Method::Queue(method) => broker_queue(method),
        Method::Basic(method) => broker_basic(method),
        Method::Confirm(ConfirmMethod::SelectOk) => BrokerFrame::Reply(RequestKind::Select),
        Method::Confirm(ConfirmMethod::Select { .. }) => BrokerFrame::Other,
        Method::Tx(method) => broker_tx(method),
    }
}

fn broker_channel(method: &ChannelMethod) -> BrokerFrame
    ensures { result ≡ broker_channel_lem method.now }
{
    match method {
        ChannelMethod::OpenOk => BrokerFrame::OpenOk,
        ChannelMethod::Close { .. } => BrokerFrame::Close,
        ChannelMethod::CloseOk => BrokerFrame::CloseOk,
        ChannelMethod::Flow { .. } => BrokerFrame::Flow,
        ChannelMethod::FlowOk { .. } => BrokerFrame::Reply(RequestKind::Flow),
        ChannelMethod::Open => BrokerFrame::Other,
    }
}

fn broker_exchange(method: &ExchangeMethod) -> BrokerFrame
    ensures { result ≡ broker_exchange_lem method.now }
{
    match method {
        ExchangeMethod::DeclareOk => BrokerFrame::Reply(RequestKind::ExchangeDeclare),
        ExchangeMethod::DeleteOk => BrokerFrame::Reply(RequestKind::ExchangeDelete),
        ExchangeMethod::BindOk => BrokerFrame::Reply(RequestKind::ExchangeBind),
        ExchangeMethod::UnbindOk => BrokerFrame::Reply(RequestKind::ExchangeUnbind),
        _ => BrokerFrame::Other,
    }
}

fn broker_queue(method: &QueueMethod) -> BrokerFrame
    ensures { result ≡ broker_queue_lem method.now }
{
    match method {
        QueueMethod::DeclareOk { .. } => BrokerFrame::Reply(RequestKind::QueueDeclare),
        QueueMethod::BindOk => BrokerFrame::Reply(RequestKind::QueueBind),
        QueueMethod::PurgeOk { .. } => BrokerFrame::Reply(RequestKind::QueuePurge),
        QueueMethod::DeleteOk { .. } => BrokerFrame::Reply(RequestKind::QueueDelete),
        QueueMethod::UnbindOk => BrokerFrame::Reply(RequestKind::QueueUnbind),
        _ => BrokerFrame::Other,
    }
}

fn broker_basic(method: &BasicMethod) -> BrokerFrame
    ensures { result ≡ broker_basic_lem method.now }
{
    match method {
        BasicMethod::QosOk => BrokerFrame::Reply(RequestKind::Qos),
        BasicMethod::RecoverOk => BrokerFrame::Reply(RequestKind::Recover),
        BasicMethod::GetEmpty => BrokerFrame::Reply(RequestKind::Get),
        BasicMethod::ConsumeOk { .. } => BrokerFrame::ConsumeOk,
        BasicMethod::CancelOk { .. } => BrokerFrame::CancelOk,
        BasicMethod::GetOk { .. } => BrokerFrame::GetOk,
        BasicMethod::Ack {
            delivery_tag,
            multiple,
        } => BrokerFrame::Settle(*delivery_tag, *multiple),
        BasicMethod::Nack {
            delivery_tag,
            multiple,
            ..
        } => BrokerFrame::Settle(*delivery_tag, *multiple),
        BasicMethod::Deliver { .. } => BrokerFrame::Deliver,
        BasicMethod::Return { .. } => BrokerFrame::Return,
        BasicMethod::Cancel { .. } => BrokerFrame::Cancel,
        _ => BrokerFrame::Other,
    }
}

fn broker_tx(method: &TxMethod) -> BrokerFrame
    ensures { result ≡ broker_tx_lem method.now }
{
    match method {
        TxMethod::SelectOk => BrokerFrame::Reply(RequestKind::TxSelect),
        TxMethod::CommitOk => BrokerFrame::Reply(RequestKind::TxCommit),
        TxMethod::RollbackOk => BrokerFrame::Reply(RequestKind::TxRollback),
        _ => BrokerFrame::Other,
    }
}
