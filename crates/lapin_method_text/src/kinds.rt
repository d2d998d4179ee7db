//! The kinds of methods and their names, as `basic.publish`.
//!
//! Here stands which name is which method's. The fields stand in a file a class; what methods do stands in the crates above.

ghost use Rattle.std.specs.Prelude.{◌≡◌, ◌≤◌, length, codes, IsTrue};
ghost use Rattle.std.specs.List.{slice_get};
ghost use Rattle.lapin_method_text.specs.MethodReading.{kind_at};
ghost use Rattle.lapin_method_text.specs.declared.kinds.BasicKind.TheVariants as basic_kind;
ghost use Rattle.lapin_method_text.specs.Slots.{slot, candidate as candidate_lem};
ghost use Rattle.lapin_method_text.specs.Methods.{method_name, connection_name, channel_name, access_name, exchange_name, queue_name, basic_name, confirm_name, tx_name};

use lapin_tokens::is_word;

/// The methods of the class connection (AMQP 0-9-1, class 10).
#[derive(Clone, Copy, Debug, PartialEq, Eq)]
pub enum ConnectionKind {
    Close,
    CloseOk,
}

/// The methods of the class channel (AMQP 0-9-1, class 20).
#[derive(Clone, Copy, Debug, PartialEq, Eq)]
pub enum ChannelKind {
    Open,
    OpenOk,
    Flow,
    FlowOk,
    Close,
    CloseOk,
}

/// The methods of the class access (class 30, which brokers keep from AMQP 0-8).
#[derive(Clone, Copy, Debug, PartialEq, Eq)]
pub enum AccessKind {
    Request,
    RequestOk,
}

/// The methods of the class exchange (AMQP 0-9-1, class 40, with RabbitMQ's bindings between exchanges).
#[derive(Clone, Copy, Debug, PartialEq, Eq)]
pub enum ExchangeMethodKind {
    Declare,
    DeclareOk,
    Delete,
    DeleteOk,
    Bind,
    BindOk,
    Unbind,
    UnbindOk,
}

/// The methods of the class queue (AMQP 0-9-1, class 50).
#[derive(Clone, Copy, Debug, PartialEq, Eq)]
pub enum QueueKind {
    Declare,
    DeclareOk,
    Bind,
    BindOk,
    Purge,
    PurgeOk,
    Delete,
    DeleteOk,
    Unbind,
    UnbindOk,
}

/// The methods of the class basic (AMQP 0-9-1, class 60, with RabbitMQ's nack).
#[derive(Clone, Copy, Debug, PartialEq, Eq)]
pub enum BasicKind {
    Qos,
    QosOk,
    Consume,
    ConsumeOk,
    Cancel,
    CancelOk,
    Publish,
    Return,
    Deliver,
    Get,
    GetOk,
    GetEmpty,
    Ack,
    Reject,
    RecoverAsync,
    Recover,
    RecoverOk,
    Nack,
}

/// The methods of the class confirm (class 85, RabbitMQ's publisher confirms).
#[derive(Clone, Copy, Debug, PartialEq, Eq)]
pub enum ConfirmKind {
    Select,
    SelectOk,
}

/// The methods of the class tx (AMQP 0-9-1, class 90).
#[derive(Clone, Copy, Debug, PartialEq, Eq)]
pub enum TxKind {
    Select,
    SelectOk,
    Commit,
    CommitOk,
    Rollback,
    RollbackOk,
}

/// The methods of all classes.
#[derive(Clone, Copy, Debug, PartialEq, Eq)]
pub enum MethodKind {
    Connection(ConnectionKind),
    Channel(ChannelKind),
    Access(AccessKind),
    Exchange(ExchangeMethodKind),
    Queue(QueueKind),
    Basic(BasicKind),
    Confirm(ConfirmKind),
    Tx(TxKind),
}

/// Each method once.
pub const KINDS: [MethodKind; 54] = [
    MethodKind::Connection(ConnectionKind::Close),
    MethodKind::Connection(ConnectionKind::CloseOk),
    MethodKind::Channel(ChannelKind::Open),
    MethodKind::Channel(ChannelKind::OpenOk),
    MethodKind::Channel(ChannelKind::Flow),
    MethodKind::Channel(ChannelKind::FlowOk),
    MethodKind::Channel(ChannelKind::Close),
    MethodKind::Channel(ChannelKind::CloseOk),
    MethodKind::Access(AccessKind::Request),
    MethodKind::Access(AccessKind::RequestOk),
    MethodKind::Exchange(ExchangeMethodKind::Declare),
    MethodKind::Exchange(ExchangeMethodKind::DeclareOk),
    MethodKind::Exchange(ExchangeMethodKind::Delete),
    MethodKind::Exchange(ExchangeMethodKind::DeleteOk),
    MethodKind::Exchange(ExchangeMethodKind::Bind),
    MethodKind::Exchange(ExchangeMethodKind::BindOk),
    MethodKind::Exchange(ExchangeMethodKind::Unbind),
    MethodKind::Exchange(ExchangeMethodKind::UnbindOk),
    MethodKind::Queue(QueueKind::Declare),
    MethodKind::Queue(QueueKind::DeclareOk),
    MethodKind::Queue(QueueKind::Bind),
    MethodKind::Queue(QueueKind::BindOk),
    MethodKind::Queue(QueueKind::Purge),
    MethodKind::Queue(QueueKind::PurgeOk),
    MethodKind::Queue(QueueKind::Delete),
    MethodKind::Queue(QueueKind::DeleteOk),
    MethodKind::Queue(QueueKind::Unbind),
    MethodKind::Queue(QueueKind::UnbindOk),
    MethodKind::Basic(BasicKind::Qos),
    MethodKind::Basic(BasicKind::QosOk),
    MethodKind::Basic(BasicKind::Consume),
    MethodKind::Basic(BasicKind::ConsumeOk),
    MethodKind::Basic(BasicKind::Cancel),
    MethodKind::Basic(BasicKind::CancelOk),
    MethodKind::Basic(BasicKind::Publish),
    MethodKind::Basic(BasicKind::Return),
    MethodKind::Basic(BasicKind::Deliver),
    MethodKind::Basic(BasicKind::Get),
    MethodKind::Basic(BasicKind::GetOk),
    MethodKind::Basic(BasicKind::GetEmpty),
    MethodKind::Basic(BasicKind::Ack),
    MethodKind::Basic(BasicKind::Reject),
    MethodKind::Basic(BasicKind::RecoverAsync),
    MethodKind::Basic(BasicKind::Recover),
    MethodKind::Basic(BasicKind::RecoverOk),
    MethodKind::Basic(BasicKind::Nack),
    MethodKind::Confirm(ConfirmKind::Select),
    MethodKind::Confirm(ConfirmKind::SelectOk),
    MethodKind::Tx(TxKind::Select),
    MethodKind::Tx(TxKind::SelectOk),
    MethodKind::Tx(TxKind::Commit),
    MethodKind::Tx(TxKind::CommitOk),
    MethodKind::Tx(TxKind::Rollback),
    MethodKind::Tx(TxKind::RollbackOk),
];

fn name_of_connection(kind: ConnectionKind) -> &'static [u8]
    ensures { result.now ≡ connection_name kind }
{
    match kind {
        ConnectionKind::Close => b"connection.close",
        ConnectionKind::CloseOk => b"connection.close-ok",
    }
}

fn name_of_channel(kind: ChannelKind) -> &'static [u8]
    ensures { result.now ≡ channel_name kind }
{
    match kind {
        ChannelKind::Open => b"channel.open",
        ChannelKind::OpenOk => b"channel.open-ok",
        ChannelKind::Flow => b"channel.flow",
        ChannelKind::FlowOk => b"channel.flow-ok",
        ChannelKind::Close => b"channel.close",
        ChannelKind::CloseOk => b"channel.close-ok",
    }
}

fn name_of_access(kind: AccessKind) -> &'static [u8]
    ensures { result.now ≡ access_name kind }
{
    match kind {
        AccessKind::Request => b"access.request",
        AccessKind::RequestOk => b"access.request-ok",
    }
}

fn name_of_exchange(kind: ExchangeMethodKind) -> &'static [u8]
    ensures { result.now ≡ exchange_name kind }
{
    match kind {
        ExchangeMethodKind::Declare => b"exchange.declare",
        ExchangeMethodKind::DeclareOk => b"exchange.declare-ok",
        ExchangeMethodKind::Delete => b"exchange.delete",
        ExchangeMethodKind::DeleteOk => b"exchange.delete-ok",
        ExchangeMethodKind::Bind => b"exchange.bind",
        ExchangeMethodKind::BindOk => b"exchange.bind-ok",
        ExchangeMethodKind::Unbind => b"exchange.unbind",
        ExchangeMethodKind::UnbindOk => b"exchange.unbind-ok",
    }
}

fn name_of_queue(kind: QueueKind) -> &'static [u8]
    ensures { result.now ≡ queue_name kind }
{
    match kind {
        QueueKind::Declare => b"queue.declare",
        QueueKind::DeclareOk => b"queue.declare-ok",
        QueueKind::Bind => b"queue.bind",
        QueueKind::BindOk => b"queue.bind-ok",
        QueueKind::Purge => b"queue.purge",
        QueueKind::PurgeOk => b"queue.purge-ok",
        QueueKind::Delete => b"queue.delete",
        QueueKind::DeleteOk => b"queue.delete-ok",
        QueueKind::Unbind => b"queue.unbind",
        QueueKind::UnbindOk => b"queue.unbind-ok",
    }
}

fn name_of_basic(kind: BasicKind) -> &'static [u8]
    ensures { result.now ≡ basic_name kind }
{
    match kind {
        BasicKind::Qos => b"basic.qos",
        BasicKind::QosOk => b"basic.qos-ok",
        BasicKind::Consume => b"basic.consume",
        BasicKind::ConsumeOk => b"basic.consume-ok",
        BasicKind::Cancel => b"basic.cancel",
        BasicKind::CancelOk => b"basic.cancel-ok",
        BasicKind::Publish => b"basic.publish",
        BasicKind::Return => b"basic.return",
        BasicKind::Deliver => b"basic.deliver",
        BasicKind::Get => b"basic.get",
        BasicKind::GetOk => b"basic.get-ok",
        BasicKind::GetEmpty => b"basic.get-empty",
        BasicKind::Ack => b"basic.ack",
        BasicKind::Reject => b"basic.reject",
        BasicKind::RecoverAsync => b"basic.recover-async",
        BasicKind::Recover => b"basic.recover",
        BasicKind::RecoverOk => b"basic.recover-ok",
        BasicKind::Nack => b"basic.nack",
    }
}

fn name_of_confirm(kind: ConfirmKind) -> &'static [u8]
    ensures { result.now ≡ confirm_name kind }
{
    match kind {
        ConfirmKind::Select => b"confirm.select",
        ConfirmKind::SelectOk => b"confirm.select-ok",
    }
}

fn name_of_tx(kind: TxKind) -> &'static [u8]
    ensures { result.now ≡ tx_name kind }
{
    match kind {
        TxKind::Select => b"tx.select",
        TxKind::SelectOk => b"tx.select-ok",
        TxKind::Commit => b"tx.commit",
        TxKind::CommitOk => b"tx.commit-ok",
        TxKind::Rollback => b"tx.rollback",
        TxKind::RollbackOk => b"tx.rollback-ok",
    }
}

/// The name of a method.
pub fn name_of(kind: MethodKind) -> &'static [u8]
    ensures { result.now ≡ method_name kind }
{
    match kind {
        MethodKind::Connection(kind) => name_of_connection(kind),
        MethodKind::Channel(kind) => name_of_channel(kind),
        MethodKind::Access(kind) => name_of_access(kind),
        MethodKind::Exchange(kind) => name_of_exchange(kind),
        MethodKind::Queue(kind) => name_of_queue(kind),
        MethodKind::Basic(kind) => name_of_basic(kind),
        MethodKind::Confirm(kind) => name_of_confirm(kind),
        MethodKind::Tx(kind) => name_of_tx(kind),
    }
}

/// Where the method stands in `KINDS` whose name has the slot; 54, behind the last, where none has. A slot is made of a name's
/// length and of three of its bytes, with factors for which no two names share one; where a name joins,
/// `bench/method_tables.py` makes table and factors anew.
pub const PLACES: [u8; 128] = [
    54, 54, 3, 54, 20, 54, 4, 54, 54, 54, 54, 25, 48, 54, 9, 54, 54, 54, 54, 54, 54, 54, 54, 54,
    54, 54, 54, 22, 17, 54, 54, 30, 54, 54, 12, 54, 54, 0, 47, 38, 54, 11, 18, 54, 54, 54, 54, 21,
    54, 16, 43, 32, 54, 54, 40, 52, 5, 49, 54, 54, 54, 54, 2, 35, 54, 54, 50, 34, 54, 7, 54, 54,
    54, 36, 39, 54, 54, 54, 54, 14, 54, 27, 54, 53, 54, 54, 13, 24, 54, 54, 33, 54, 45, 29, 19, 54,
    54, 54, 42, 31, 54, 8, 26, 23, 54, 54, 54, 44, 54, 54, 54, 41, 54, 54, 6, 51, 54, 10, 28, 54,
    1, 46, 15, 54, 54, 54, 37, 54,
];

// The slot of a name.
fn slot_of(name: &[u8]) -> usize
    requires long { 5 ≤ length name.now }
    requires short { length name.now ≤ 19 }
    ensures { result ≡ slot name.now }
{
    let ends = name[3] as usize + name[name.len() - 1] as usize;
    (17 * name.len() + 8 * ends + 31 * (name[name.len() - 5] as usize)) % 128
}

// The kind that stands at a place.
fn kind_in(kinds: &[MethodKind], place: usize) -> Option<MethodKind>
    ensures { result ≡ slice_get kinds.now place }
{
    if place < kinds.len() {
        Some(kinds[place])
    } else {
        None
    }
}

// The only method that may have this name.
#[tactic(auto, unfolding(crate::specs::Slots::candidate))]
fn candidate(name: &[u8]) -> Option<MethodKind>
    ensures { result ≡ candidate_lem name.now }
{
    if name.len() < 5 || 19 < name.len() {
        return None;
    }
    kind_in(&KINDS, PLACES[slot_of(name)] as usize)
}

// The method of which the bytes are the name, by the name's slot.
fn kind_found(name: &[u8]) -> Option<MethodKind>
    ensures { result ≡ kind_at name.now }
{
    match candidate(name) {
        Some(kind) => {
            if is_word(name_of(kind), name) {
                Some(kind)
            } else {
                None
            }
        }
        None => None,
    }
}

/// Whether the name is that of a publish.
pub fn is_publish(name: &[u8]) -> bool
    ensures { IsTrue result → name.now ≡ basic_name basic_kind.Publish }
{
    matches!(name, b"basic.publish")
}

// Whether the name is that of a confirmation.
fn is_ack(name: &[u8]) -> bool
    ensures { IsTrue result → name.now ≡ basic_name basic_kind.Ack }
{
    matches!(name, b"basic.ack")
}

// Whether the bytes are what a delivery's name has behind its class.
fn is_deliver_behind(rest: &[u8]) -> bool
    ensures { IsTrue result → rest.now ≡ codes "deliver" }
{
    matches!(rest, b"deliver")
}

// The class and the rest are told one by one: of so many bytes at once a proof finds no end.
fn is_deliver(name: &[u8]) -> bool
    ensures { IsTrue result → name.now ≡ basic_name basic_kind.Deliver }
{
    match name {
        [b'b', b'a', b's', b'i', b'c', b'.', rest @ ..] => is_deliver_behind(rest),
        _ => false,
    }
}

/// The method of which the bytes are the name. Those of a confirmation and of a delivery are told apart before a search.
pub fn kind_named(name: &[u8]) -> Option<MethodKind>
    ensures { result ≡ kind_at name.now }
{
    if is_ack(name) {
        return Some(MethodKind::Basic(BasicKind::Ack));
    }
    if is_deliver(name) {
        return Some(MethodKind::Basic(BasicKind::Deliver));
    }
    kind_found(name)
}
