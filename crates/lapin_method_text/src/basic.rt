//! The text of the methods of the class basic (AMQP 0-9-1, class 60, with RabbitMQ's nack).
//!
//! Here stands the class's table, one row a method: its name and the kinds of its fields in their order.

ghost use Rattle.std.specs.Prelude.{◌≡◌, OnOk};
ghost use Rattle.lapin_tokens.specs.Reading.{Gives};
ghost use Rattle.lapin_tokens.specs.TokenText.{onto};
ghost use Rattle.lapin_method_text.specs.Methods.{basic_tokens};
ghost use Rattle.lapin_method_text.specs.MethodReading.{basic_at};

use crate::kinds::BasicKind;
use crate::rows::{put_field, put_row, read_row, value_at};
use lapin_methods::BasicMethod;
use lapin_tokens::{
    ReadError, Tokens, flag, put_count, put_flag, put_table, put_text, put_word, table, text,
    u16_at, u32_at, u64_at,
};
use std::alloc::{AllocError, Global};

macro_rules! basic_table {
    ($row:ident, $($given:tt),*) => {
        $row!($($given),*; BasicKind, BasicMethod;
            Qos b"basic.qos" { prefetch_count: short, global: flag },
            QosOk b"basic.qos-ok" {},
            Consume b"basic.consume" { queue: text, consumer_tag: text, no_local: flag, no_ack: flag,
                exclusive: flag, nowait: flag, arguments: table },
            ConsumeOk b"basic.consume-ok" { consumer_tag: text },
            Cancel b"basic.cancel" { consumer_tag: text, nowait: flag },
            CancelOk b"basic.cancel-ok" { consumer_tag: text },
            Publish b"basic.publish" { exchange: text, routing_key: text, mandatory: flag, immediate: flag },
            Return b"basic.return" { reply_code: short, reply_text: text, exchange: text, routing_key: text },
            Deliver b"basic.deliver" { consumer_tag: text, delivery_tag: wide, redelivered: flag,
                exchange: text, routing_key: text },
            Get b"basic.get" { queue: text, no_ack: flag },
            GetOk b"basic.get-ok" { delivery_tag: wide, redelivered: flag, exchange: text,
                routing_key: text, message_count: long },
            GetEmpty b"basic.get-empty" {},
            Ack b"basic.ack" { delivery_tag: wide, multiple: flag },
            Reject b"basic.reject" { delivery_tag: wide, requeue: flag },
            RecoverAsync b"basic.recover-async" { requeue: flag },
            Recover b"basic.recover" { requeue: flag },
            RecoverOk b"basic.recover-ok" {},
            Nack b"basic.nack" { delivery_tag: wide, multiple: flag, requeue: flag },
        )
    };
}

/// The method of this kind, whose fields are the next tokens.
#[tactic(auto, unfolding(crate::specs::MethodReading::basic_at))]
pub fn read_basic(
    alloc: Global,
    kind: BasicKind,
    tokens: &mut Tokens,
) -> Result<BasicMethod, ReadError>
    ensures { Gives result tokens.new (basic_at kind tokens.old) }
{
    basic_table!(read_row, kind, alloc, tokens)
}

/// Adds the method's name and fields, each behind a space.
pub fn put_basic(alloc: Global, out: &mut Vec<u8>, method: &BasicMethod) -> Result<(), AllocError>
    ensures { OnOk result (out.new.items ≡ onto out.old.items (basic_tokens method.now)) }
{
    basic_table!(put_row, method, alloc, out)
}
