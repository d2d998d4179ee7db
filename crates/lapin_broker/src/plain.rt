//! The plain broker: of what the free broker may send, the one frame that a plain rule picks. What may be sent at all stands
//! elsewhere.

ghost use Rattle.std.specs.Prelude.{◌≡◌, true, None, IfOk, IfSome};
ghost use Rattle.std.specs.Option.{option_map};
ghost use Rattle.lapin_broker.specs.Plain.{plain, plain_in, plain_open as plain_open_lem, has_plain as has_plain_lem, reply_by, given_name as given_name_lem, lowest_from, lower as lower_lem, least as least_lem, or_close_ok, echo_active};
ghost use Rattle.lapin_broker.specs.Requests.{echo_name};
ghost use Rattle.lapin_broker.specs.Sends.{may};

use crate::broker::Broker;
use crate::channel::BrokerChannel;
use crate::peer::Peer;
use crate::request::{Echo, Request, RequestKind};
use crate::tags::is_empty;
use lapin_types::{
    AccessMethod, BasicMethod, ChannelMethod, ConfirmMethod, ConnectionMethod, ExchangeMethod,
    Frame, Method, NoMemory, QueueMethod, ShortString, TxMethod,
};
use std::alloc::Global;

/// The plain broker: a rule for one who drives a free broker by hand, as a test does.
///
/// It answers what was asked of it in order, acks each publish of its own, and neither begins a content nor closes.
pub struct PlainBroker;

impl PlainBroker {
    /// The frame that a broker sends next by the plain rule, None where the rule gives none. It may always be sent. The broker
    /// itself stays as it is until `Broker::send`.
    ///
    /// The close-ok of the connection comes first. Else, while the connection is up and no content is being sent, the lowest
    /// channel that has something gives it: the close-ok that it owes; or open-ok; or the reply to its first request; or a single
    /// ack of the lowest number that isn't settled; or, where the client closed it, close-ok. Replies have the asked names and tags
    /// (`amq.gen` where a broker is to make one up) and counts 0, a get is answered by get-empty, and flow-ok repeats the asked value.
    ///
    /// It looks at every channel that was ever asked for.
    ///
    /// # Errors
    /// `NoMemory` where there is none for the copy of a name.
    pub fn next(alloc: Global, broker: &Broker) -> Result<Option<Frame>, NoMemory>
        ensures given { IfOk result (λ frame. frame ≡ plain broker.now) }
        ensures allowed { IfOk result (λ frame. IfSome frame (λ f. may broker.now f ≡ true)) }
    {
        plain_frame(alloc, broker)
    }
}

fn plain_frame(alloc: Global, broker: &Broker) -> Result<Option<Frame>, NoMemory>
    ensures { IfOk result (λ frame. frame ≡ plain broker.now) }
{
    if broker.owes(0) {
        return Ok(Some(Frame::Method(0, Method::Connection(ConnectionMethod::CloseOk))));
    }
    if !broker.is_up() || broker.is_sending() {
        return Ok(None);
    }
    let Some(channel) = lowest(broker.channels()) else {
        return Ok(None);
    };
    let Some(known) = broker.channel(channel) else {
        return Ok(None);
    };
    let method = plain_method(alloc, known)?;
    Ok(on_channel(channel, method))
}

fn on_channel(channel: u16, method: Option<Method>) -> Option<Frame>
    ensures { result ≡ option_map (λ m. Frame.Method channel m) method }
{
    match method {
        Some(method) => Some(Frame::Method(channel, method)),
        None => None,
    }
}

// The lowest channel that has something to send.
fn lowest(entries: &[(u16, BrokerChannel)]) -> Option<u16>
    ensures { result ≡ lowest_from None entries.now }
{
    let mut best = None;
    for entry in entries {
        best = lower(best, entry);
    }
    best
}

fn lower(best: Option<u16>, entry: &(u16, BrokerChannel)) -> Option<u16>
    ensures { result ≡ lower_lem best entry.now }
{
    if has_plain(&entry.1) {
        Some(least(best, entry.0))
    } else {
        best
    }
}

fn least(best: Option<u16>, channel: u16) -> u16
    ensures { result ≡ least_lem best channel }
{
    match best {
        Some(lowest) => { if channel < lowest { channel } else { lowest } }
        None => channel,
    }
}

fn has_plain(channel: &BrokerChannel) -> bool
    ensures { result ≡ has_plain_lem channel.now }
{
    match channel.peer() {
        Peer::StoppingOwes | Peer::StoppingAnswered | Peer::Asked | Peer::Leaving => true,
        Peer::Open => {
            !channel.waiting().is_empty() || channel.numbers().first_number().is_some()
        }
        _ => false,
    }
}

fn plain_method(alloc: Global, channel: &BrokerChannel) -> Result<Option<Method>, NoMemory>
    ensures { IfOk result (λ method. method ≡ plain_in channel.now.peer channel.now) }
{
    match channel.peer() {
        Peer::StoppingOwes | Peer::StoppingAnswered => {
            Ok(Some(Method::Channel(ChannelMethod::CloseOk)))
        }
        Peer::Asked => Ok(Some(Method::Channel(ChannelMethod::OpenOk))),
        Peer::Open => plain_open(alloc, channel),
        Peer::Leaving => plain_leaving(alloc, channel),
        _ => Ok(None),
    }
}

fn plain_leaving(alloc: Global, channel: &BrokerChannel) -> Result<Option<Method>, NoMemory>
    ensures { IfOk result (λ method. method ≡ or_close_ok (plain_open_lem channel.now.waiting channel.now)) }
{
    match plain_open(alloc, channel)? {
        Some(method) => Ok(Some(method)),
        None => Ok(Some(Method::Channel(ChannelMethod::CloseOk))),
    }
}

fn plain_open(alloc: Global, channel: &BrokerChannel) -> Result<Option<Method>, NoMemory>
    ensures { IfOk result (λ method. method ≡ plain_open_lem channel.now.waiting channel.now) }
{
    if let Some(request) = channel.waiting().front() {
        return Ok(Some(plain_reply(alloc, request)?));
    }
    match channel.numbers().first_number() {
        Some(number) => Ok(Some(Method::Basic(BasicMethod::Ack {
            delivery_tag: number,
            multiple: false,
        }))),
        None => Ok(None),
    }
}

fn plain_reply(alloc: Global, request: &Request) -> Result<Method, NoMemory>
    ensures { IfOk result (λ method. method ≡ reply_by request.now.kind request.now.echo) }
{
    match request.kind {
        RequestKind::Flow => Ok(Method::Channel(ChannelMethod::FlowOk {
            active: active(&request.echo),
        })),
        RequestKind::Access => Ok(Method::Access(AccessMethod::RequestOk)),
        RequestKind::ExchangeDeclare => Ok(Method::Exchange(ExchangeMethod::DeclareOk)),
        RequestKind::ExchangeDelete => Ok(Method::Exchange(ExchangeMethod::DeleteOk)),
        RequestKind::ExchangeBind => Ok(Method::Exchange(ExchangeMethod::BindOk)),
        RequestKind::ExchangeUnbind => Ok(Method::Exchange(ExchangeMethod::UnbindOk)),
        RequestKind::QueueDeclare => declare_ok(alloc, &request.echo),
        RequestKind::QueueBind => Ok(Method::Queue(QueueMethod::BindOk)),
        RequestKind::QueuePurge => Ok(Method::Queue(QueueMethod::PurgeOk { message_count: 0 })),
        RequestKind::QueueDelete => Ok(Method::Queue(QueueMethod::DeleteOk { message_count: 0 })),
        RequestKind::QueueUnbind => Ok(Method::Queue(QueueMethod::UnbindOk)),
        RequestKind::Qos => Ok(Method::Basic(BasicMethod::QosOk)),
        RequestKind::Consume => consume_ok(alloc, &request.echo),
        RequestKind::Cancel => cancel_ok(alloc, &request.echo),
        RequestKind::Get => Ok(Method::Basic(BasicMethod::GetEmpty)),
        RequestKind::Recover => Ok(Method::Basic(BasicMethod::RecoverOk)),
        RequestKind::Select => Ok(Method::Confirm(ConfirmMethod::SelectOk)),
        RequestKind::TxSelect => Ok(Method::Tx(TxMethod::SelectOk)),
        RequestKind::TxCommit => Ok(Method::Tx(TxMethod::CommitOk)),
        RequestKind::TxRollback => Ok(Method::Tx(TxMethod::RollbackOk)),
    }
}

fn active(echo: &Echo) -> bool
    ensures { result ≡ echo_active echo.now }
{
    match echo {
        Echo::Active(active) => *active,
        _ => true,
    }
}

fn declare_ok(alloc: Global, echo: &Echo) -> Result<Method, NoMemory>
    ensures { IfOk result (λ method. method ≡ reply_by RequestKind.QueueDeclare echo.now) }
{
    Ok(Method::Queue(QueueMethod::DeclareOk {
        queue: given_name(alloc, echo)?,
        message_count: 0,
        consumer_count: 0,
    }))
}

fn consume_ok(alloc: Global, echo: &Echo) -> Result<Method, NoMemory>
    ensures { IfOk result (λ method. method ≡ reply_by RequestKind.Consume echo.now) }
{
    Ok(Method::Basic(BasicMethod::ConsumeOk {
        consumer_tag: given_name(alloc, echo)?,
    }))
}

fn cancel_ok(alloc: Global, echo: &Echo) -> Result<Method, NoMemory>
    ensures { IfOk result (λ method. method ≡ reply_by RequestKind.Cancel echo.now) }
{
    Ok(Method::Basic(BasicMethod::CancelOk {
        consumer_tag: text(alloc, echo.name())?,
    }))
}

fn given_name(alloc: Global, echo: &Echo) -> Result<ShortString, NoMemory>
    ensures { IfOk result (λ name. name ≡ given_name_lem (echo_name echo.now)) }
{
    let name = echo.name();
    if is_empty(name) {
        text(alloc, "amq.gen")
    } else {
        text(alloc, name)
    }
}

fn text(alloc: Global, text: &str) -> Result<ShortString, NoMemory>
    ensures { IfOk result (λ short. short ≡ text.now) }
{
    match ShortString::new(alloc, text) {
        Ok(short) => Ok(short),
        Err(_) => Err(NoMemory),
    }
}
