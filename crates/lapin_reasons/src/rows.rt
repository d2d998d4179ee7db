//! The fields of each method as a text, and which methods a caller may call, to explain a bad line by.
//!
//! This file is made by bench/method_tables.py from the tables of methods. What a line is read by stands there; here is what is said.

use lapin_method_text::kinds::{
    AccessKind, BasicKind, ChannelKind, ConfirmKind, ConnectionKind, ExchangeMethodKind,
    MethodKind, QueueKind, TxKind,
};

/// The fields of a method, each as its name, a colon and its kind.
pub(crate) fn fields_of(kind: MethodKind) -> &'static str {
    match kind {
        MethodKind::Connection(kind) => connection_fields(kind),
        MethodKind::Channel(kind) => channel_fields(kind),
        MethodKind::Access(kind) => access_fields(kind),
        MethodKind::Exchange(kind) => exchange_fields(kind),
        MethodKind::Queue(kind) => queue_fields(kind),
        MethodKind::Basic(kind) => basic_fields(kind),
        MethodKind::Confirm(kind) => confirm_fields(kind),
        MethodKind::Tx(kind) => tx_fields(kind),
    }
}

/// Whether a caller may call it, as a method that a call queues.
pub(crate) fn is_called(kind: MethodKind) -> bool {
    match kind {
        MethodKind::Connection(ConnectionKind::Close) => true,
        MethodKind::Channel(ChannelKind::Open) => true,
        MethodKind::Channel(ChannelKind::Flow) => true,
        MethodKind::Channel(ChannelKind::Close) => true,
        MethodKind::Access(AccessKind::Request) => true,
        MethodKind::Exchange(ExchangeMethodKind::Declare) => true,
        MethodKind::Exchange(ExchangeMethodKind::Delete) => true,
        MethodKind::Exchange(ExchangeMethodKind::Bind) => true,
        MethodKind::Exchange(ExchangeMethodKind::Unbind) => true,
        MethodKind::Queue(QueueKind::Declare) => true,
        MethodKind::Queue(QueueKind::Bind) => true,
        MethodKind::Queue(QueueKind::Purge) => true,
        MethodKind::Queue(QueueKind::Delete) => true,
        MethodKind::Queue(QueueKind::Unbind) => true,
        MethodKind::Basic(BasicKind::Qos) => true,
        MethodKind::Basic(BasicKind::Consume) => true,
        MethodKind::Basic(BasicKind::Cancel) => true,
        MethodKind::Basic(BasicKind::Publish) => true,
        MethodKind::Basic(BasicKind::Get) => true,
        MethodKind::Basic(BasicKind::Ack) => true,
        MethodKind::Basic(BasicKind::Reject) => true,
        MethodKind::Basic(BasicKind::RecoverAsync) => true,
        MethodKind::Basic(BasicKind::Recover) => true,
        MethodKind::Basic(BasicKind::Nack) => true,
        MethodKind::Confirm(ConfirmKind::Select) => true,
        MethodKind::Tx(TxKind::Select) => true,
        MethodKind::Tx(TxKind::Commit) => true,
        MethodKind::Tx(TxKind::Rollback) => true,
        _ => false,
    }
}

fn connection_fields(kind: ConnectionKind) -> &'static str {
    match kind {
        ConnectionKind::Close => "reply_code:short reply_text:text class_id:short method_id:short",
        ConnectionKind::CloseOk => "",
    }
}

fn channel_fields(kind: ChannelKind) -> &'static str {
    match kind {
        ChannelKind::Open => "",
        ChannelKind::OpenOk => "",
        ChannelKind::Flow => "active:flag",
        ChannelKind::FlowOk => "active:flag",
        ChannelKind::Close => "reply_code:short reply_text:text class_id:short method_id:short",
        ChannelKind::CloseOk => "",
    }
}

fn access_fields(kind: AccessKind) -> &'static str {
    match kind {
        AccessKind::Request =>
            "realm:text exclusive:flag passive:flag active:flag write:flag read:flag",
        AccessKind::RequestOk => "",
    }
}

fn exchange_fields(kind: ExchangeMethodKind) -> &'static str {
    match kind {
        ExchangeMethodKind::Declare =>
            "exchange:text kind:text passive:flag durable:flag auto_delete:flag internal:flag nowait:flag arguments:table",
        ExchangeMethodKind::DeclareOk => "",
        ExchangeMethodKind::Delete => "exchange:text if_unused:flag nowait:flag",
        ExchangeMethodKind::DeleteOk => "",
        ExchangeMethodKind::Bind =>
            "destination:text source:text routing_key:text nowait:flag arguments:table",
        ExchangeMethodKind::BindOk => "",
        ExchangeMethodKind::Unbind =>
            "destination:text source:text routing_key:text nowait:flag arguments:table",
        ExchangeMethodKind::UnbindOk => "",
    }
}

fn queue_fields(kind: QueueKind) -> &'static str {
    match kind {
        QueueKind::Declare =>
            "queue:text passive:flag durable:flag exclusive:flag auto_delete:flag nowait:flag arguments:table",
        QueueKind::DeclareOk => "queue:text message_count:long consumer_count:long",
        QueueKind::Bind => "queue:text exchange:text routing_key:text nowait:flag arguments:table",
        QueueKind::BindOk => "",
        QueueKind::Purge => "queue:text nowait:flag",
        QueueKind::PurgeOk => "message_count:long",
        QueueKind::Delete => "queue:text if_unused:flag if_empty:flag nowait:flag",
        QueueKind::DeleteOk => "message_count:long",
        QueueKind::Unbind => "queue:text exchange:text routing_key:text arguments:table",
        QueueKind::UnbindOk => "",
    }
}

fn basic_fields(kind: BasicKind) -> &'static str {
    match kind {
        BasicKind::Qos => "prefetch_count:short global:flag",
        BasicKind::QosOk => "",
        BasicKind::Consume =>
            "queue:text consumer_tag:text no_local:flag no_ack:flag exclusive:flag nowait:flag arguments:table",
        BasicKind::ConsumeOk => "consumer_tag:text",
        BasicKind::Cancel => "consumer_tag:text nowait:flag",
        BasicKind::CancelOk => "consumer_tag:text",
        BasicKind::Publish => "exchange:text routing_key:text mandatory:flag immediate:flag",
        BasicKind::Return => "reply_code:short reply_text:text exchange:text routing_key:text",
        BasicKind::Deliver =>
            "consumer_tag:text delivery_tag:wide redelivered:flag exchange:text routing_key:text",
        BasicKind::Get => "queue:text no_ack:flag",
        BasicKind::GetOk =>
            "delivery_tag:wide redelivered:flag exchange:text routing_key:text message_count:long",
        BasicKind::GetEmpty => "",
        BasicKind::Ack => "delivery_tag:wide multiple:flag",
        BasicKind::Reject => "delivery_tag:wide requeue:flag",
        BasicKind::RecoverAsync => "requeue:flag",
        BasicKind::Recover => "requeue:flag",
        BasicKind::RecoverOk => "",
        BasicKind::Nack => "delivery_tag:wide multiple:flag requeue:flag",
    }
}

fn confirm_fields(kind: ConfirmKind) -> &'static str {
    match kind {
        ConfirmKind::Select => "nowait:flag",
        ConfirmKind::SelectOk => "",
    }
}

fn tx_fields(kind: TxKind) -> &'static str {
    match kind {
        TxKind::Select => "",
        TxKind::SelectOk => "",
        TxKind::Commit => "",
        TxKind::CommitOk => "",
        TxKind::Rollback => "",
        TxKind::RollbackOk => "",
    }
}
