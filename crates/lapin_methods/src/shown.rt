//! How methods, headers and frames are shown, by `{}` and by `{:?}` alike: as docs/FORMAT.md writes them, so that a frame that a program
//! prints can stand in a line of its input. No clause promises these texts; tests compare them with those of the crates that print lines.
//!
//! A row of a class's table is a method's variant, its name, and its fields in order, each shown by itself (`plain`) or as 0 or 1
//! (`flag`).

use crate::access::AccessMethod;
use crate::basic::BasicMethod;
use crate::channel::ChannelMethod;
use crate::confirm::ConfirmMethod;
use crate::connection::ConnectionMethod;
use crate::exchange::ExchangeMethod;
use crate::frame::{ContentHeader, Frame};
use crate::method::Method;
use crate::queue::QueueMethod;
use crate::tx::TxMethod;
use std::fmt;

/// What is shown of a method so far; nothing more is, once the writer failed.
#[derive(Drop)]
struct Shown<'a, W> {
    f: &'a mut fmt::Formatter<W>,
    so_far: fmt::Result,
}

impl<'a, W: fmt::Write> Shown<'a, W> {
    // A method by its name.
    fn named(f: &'a mut fmt::Formatter<W>, name: &str) -> Shown<'a, W> {
        let so_far = write!(f, "{name}");
        Shown { f, so_far }
    }

    // A field, behind a space.
    fn plain<T: fmt::Display>(self, field: &T) -> Shown<'a, W> {
        let Shown { f, so_far } = self;
        let so_far = match so_far {
            Ok(()) => write!(f, " {field}"),
            Err(error) => Err(error),
        };
        Shown { f, so_far }
    }

    // A field that is a mark, as 0 or 1.
    fn flag(self, field: &bool) -> Shown<'a, W> {
        self.plain(&u8::from(*field))
    }
}

/// The name and the fields of the method.
macro_rules! show_rows {
    ($method:ident, $f:ident; $methods:ident;
        $($name:ident $text:literal { $($field:ident: $of:ident),* },)*) => {
        match $method {
            $($methods::$name { $($field),* } => Shown::named($f, $text)$(.$of($field))*.so_far,)*
        }
    };
}

fn show_connection<W: fmt::Write>(
    method: &ConnectionMethod,
    f: &mut fmt::Formatter<W>,
) -> fmt::Result {
    show_rows!(method, f; ConnectionMethod;
        Close "connection.close" { reply_code: plain, reply_text: plain, class_id: plain, method_id: plain },
        CloseOk "connection.close-ok" {},
    )
}

fn show_channel<W: fmt::Write>(method: &ChannelMethod, f: &mut fmt::Formatter<W>) -> fmt::Result {
    show_rows!(method, f; ChannelMethod;
        Open "channel.open" {},
        OpenOk "channel.open-ok" {},
        Flow "channel.flow" { active: flag },
        FlowOk "channel.flow-ok" { active: flag },
        Close "channel.close" { reply_code: plain, reply_text: plain, class_id: plain, method_id: plain },
        CloseOk "channel.close-ok" {},
    )
}

fn show_access<W: fmt::Write>(method: &AccessMethod, f: &mut fmt::Formatter<W>) -> fmt::Result {
    show_rows!(method, f; AccessMethod;
        Request "access.request" { realm: plain, exclusive: flag, passive: flag, active: flag, write: flag,
            read: flag },
        RequestOk "access.request-ok" {},
    )
}

fn show_exchange<W: fmt::Write>(method: &ExchangeMethod, f: &mut fmt::Formatter<W>) -> fmt::Result {
    show_rows!(method, f; ExchangeMethod;
        Declare "exchange.declare" { exchange: plain, kind: plain, passive: flag, durable: flag,
            auto_delete: flag, internal: flag, nowait: flag, arguments: plain },
        DeclareOk "exchange.declare-ok" {},
        Delete "exchange.delete" { exchange: plain, if_unused: flag, nowait: flag },
        DeleteOk "exchange.delete-ok" {},
        Bind "exchange.bind" { destination: plain, source: plain, routing_key: plain, nowait: flag,
            arguments: plain },
        BindOk "exchange.bind-ok" {},
        Unbind "exchange.unbind" { destination: plain, source: plain, routing_key: plain, nowait: flag,
            arguments: plain },
        UnbindOk "exchange.unbind-ok" {},
    )
}

fn show_queue<W: fmt::Write>(method: &QueueMethod, f: &mut fmt::Formatter<W>) -> fmt::Result {
    show_rows!(method, f; QueueMethod;
        Declare "queue.declare" { queue: plain, passive: flag, durable: flag, exclusive: flag,
            auto_delete: flag, nowait: flag, arguments: plain },
        DeclareOk "queue.declare-ok" { queue: plain, message_count: plain, consumer_count: plain },
        Bind "queue.bind" { queue: plain, exchange: plain, routing_key: plain, nowait: flag, arguments: plain },
        BindOk "queue.bind-ok" {},
        Purge "queue.purge" { queue: plain, nowait: flag },
        PurgeOk "queue.purge-ok" { message_count: plain },
        Delete "queue.delete" { queue: plain, if_unused: flag, if_empty: flag, nowait: flag },
        DeleteOk "queue.delete-ok" { message_count: plain },
        Unbind "queue.unbind" { queue: plain, exchange: plain, routing_key: plain, arguments: plain },
        UnbindOk "queue.unbind-ok" {},
    )
}

fn show_basic<W: fmt::Write>(method: &BasicMethod, f: &mut fmt::Formatter<W>) -> fmt::Result {
    show_rows!(method, f; BasicMethod;
        Qos "basic.qos" { prefetch_count: plain, global: flag },
        QosOk "basic.qos-ok" {},
        Consume "basic.consume" { queue: plain, consumer_tag: plain, no_local: flag, no_ack: flag,
            exclusive: flag, nowait: flag, arguments: plain },
        ConsumeOk "basic.consume-ok" { consumer_tag: plain },
        Cancel "basic.cancel" { consumer_tag: plain, nowait: flag },
        CancelOk "basic.cancel-ok" { consumer_tag: plain },
        Publish "basic.publish" { exchange: plain, routing_key: plain, mandatory: flag, immediate: flag },
        Return "basic.return" { reply_code: plain, reply_text: plain, exchange: plain, routing_key: plain },
        Deliver "basic.deliver" { consumer_tag: plain, delivery_tag: plain, redelivered: flag,
            exchange: plain, routing_key: plain },
        Get "basic.get" { queue: plain, no_ack: flag },
        GetOk "basic.get-ok" { delivery_tag: plain, redelivered: flag, exchange: plain, routing_key: plain,
            message_count: plain },
        GetEmpty "basic.get-empty" {},
        Ack "basic.ack" { delivery_tag: plain, multiple: flag },
        Reject "basic.reject" { delivery_tag: plain, requeue: flag },
        RecoverAsync "basic.recover-async" { requeue: flag },
        Recover "basic.recover" { requeue: flag },
        RecoverOk "basic.recover-ok" {},
        Nack "basic.nack" { delivery_tag: plain, multiple: flag, requeue: flag },
    )
}

fn show_confirm<W: fmt::Write>(method: &ConfirmMethod, f: &mut fmt::Formatter<W>) -> fmt::Result {
    show_rows!(method, f; ConfirmMethod;
        Select "confirm.select" { nowait: flag },
        SelectOk "confirm.select-ok" {},
    )
}

fn show_tx<W: fmt::Write>(method: &TxMethod, f: &mut fmt::Formatter<W>) -> fmt::Result {
    show_rows!(method, f; TxMethod;
        Select "tx.select" {},
        SelectOk "tx.select-ok" {},
        Commit "tx.commit" {},
        CommitOk "tx.commit-ok" {},
        Rollback "tx.rollback" {},
        RollbackOk "tx.rollback-ok" {},
    )
}

fn show_method<W: fmt::Write>(method: &Method, f: &mut fmt::Formatter<W>) -> fmt::Result {
    match method {
        Method::Connection(method) => show_connection(method, f),
        Method::Channel(method) => show_channel(method, f),
        Method::Access(method) => show_access(method, f),
        Method::Exchange(method) => show_exchange(method, f),
        Method::Queue(method) => show_queue(method, f),
        Method::Basic(method) => show_basic(method, f),
        Method::Confirm(method) => show_confirm(method, f),
        Method::Tx(method) => show_tx(method, f),
    }
}

// The class, the size and the properties.
fn show_header<W: fmt::Write>(header: &ContentHeader, f: &mut fmt::Formatter<W>) -> fmt::Result {
    write!(
        f,
        "{} {} {}",
        header.class_id, header.body_size, header.properties
    )
}

fn show_frame<W: fmt::Write>(frame: &Frame, f: &mut fmt::Formatter<W>) -> fmt::Result {
    match frame {
        Frame::Method(channel, method) => write!(f, "method {channel} {method}"),
        Frame::Header(channel, header) => write!(f, "header {channel} {header}"),
        Frame::Body(channel, payload) => write!(f, "body {channel} {payload}"),
    }
}

impl fmt::Display for ConnectionMethod {
    fn fmt<W: fmt::Write>(&self, f: &mut fmt::Formatter<W>) -> fmt::Result {
        show_connection(self, f)
    }
}

impl fmt::Debug for ConnectionMethod {
    fn fmt<W: fmt::Write>(&self, f: &mut fmt::Formatter<W>) -> fmt::Result {
        show_connection(self, f)
    }
}

impl fmt::Display for ChannelMethod {
    fn fmt<W: fmt::Write>(&self, f: &mut fmt::Formatter<W>) -> fmt::Result {
        show_channel(self, f)
    }
}

impl fmt::Debug for ChannelMethod {
    fn fmt<W: fmt::Write>(&self, f: &mut fmt::Formatter<W>) -> fmt::Result {
        show_channel(self, f)
    }
}

impl fmt::Display for AccessMethod {
    fn fmt<W: fmt::Write>(&self, f: &mut fmt::Formatter<W>) -> fmt::Result {
        show_access(self, f)
    }
}

impl fmt::Debug for AccessMethod {
    fn fmt<W: fmt::Write>(&self, f: &mut fmt::Formatter<W>) -> fmt::Result {
        show_access(self, f)
    }
}

impl fmt::Display for ExchangeMethod {
    fn fmt<W: fmt::Write>(&self, f: &mut fmt::Formatter<W>) -> fmt::Result {
        show_exchange(self, f)
    }
}

impl fmt::Debug for ExchangeMethod {
    fn fmt<W: fmt::Write>(&self, f: &mut fmt::Formatter<W>) -> fmt::Result {
        show_exchange(self, f)
    }
}

impl fmt::Display for QueueMethod {
    fn fmt<W: fmt::Write>(&self, f: &mut fmt::Formatter<W>) -> fmt::Result {
        show_queue(self, f)
    }
}

impl fmt::Debug for QueueMethod {
    fn fmt<W: fmt::Write>(&self, f: &mut fmt::Formatter<W>) -> fmt::Result {
        show_queue(self, f)
    }
}

impl fmt::Display for BasicMethod {
    fn fmt<W: fmt::Write>(&self, f: &mut fmt::Formatter<W>) -> fmt::Result {
        show_basic(self, f)
    }
}

impl fmt::Debug for BasicMethod {
    fn fmt<W: fmt::Write>(&self, f: &mut fmt::Formatter<W>) -> fmt::Result {
        show_basic(self, f)
    }
}

impl fmt::Display for ConfirmMethod {
    fn fmt<W: fmt::Write>(&self, f: &mut fmt::Formatter<W>) -> fmt::Result {
        show_confirm(self, f)
    }
}

impl fmt::Debug for ConfirmMethod {
    fn fmt<W: fmt::Write>(&self, f: &mut fmt::Formatter<W>) -> fmt::Result {
        show_confirm(self, f)
    }
}

impl fmt::Display for TxMethod {
    fn fmt<W: fmt::Write>(&self, f: &mut fmt::Formatter<W>) -> fmt::Result {
        show_tx(self, f)
    }
}

impl fmt::Debug for TxMethod {
    fn fmt<W: fmt::Write>(&self, f: &mut fmt::Formatter<W>) -> fmt::Result {
        show_tx(self, f)
    }
}

impl fmt::Display for Method {
    fn fmt<W: fmt::Write>(&self, f: &mut fmt::Formatter<W>) -> fmt::Result {
        show_method(self, f)
    }
}

impl fmt::Debug for Method {
    fn fmt<W: fmt::Write>(&self, f: &mut fmt::Formatter<W>) -> fmt::Result {
        show_method(self, f)
    }
}

impl fmt::Display for ContentHeader {
    fn fmt<W: fmt::Write>(&self, f: &mut fmt::Formatter<W>) -> fmt::Result {
        show_header(self, f)
    }
}

impl fmt::Debug for ContentHeader {
    fn fmt<W: fmt::Write>(&self, f: &mut fmt::Formatter<W>) -> fmt::Result {
        show_header(self, f)
    }
}

impl fmt::Display for Frame {
    fn fmt<W: fmt::Write>(&self, f: &mut fmt::Formatter<W>) -> fmt::Result {
        show_frame(self, f)
    }
}

impl fmt::Debug for Frame {
    fn fmt<W: fmt::Write>(&self, f: &mut fmt::Formatter<W>) -> fmt::Result {
        show_frame(self, f)
    }
}
