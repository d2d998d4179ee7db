//! The text of the methods of the class queue (AMQP 0-9-1, class 50).
//!
//! Here stands the class's table, one row a method: its name and the kinds of its fields in their order.

ghost use Rattle.std.specs.Prelude.{◌≡◌, OnOk};
ghost use Rattle.lapin_tokens.specs.Reading.{Gives};
ghost use Rattle.lapin_tokens.specs.TokenText.{onto};
ghost use Rattle.lapin_method_text.specs.Methods.{queue_tokens};
ghost use Rattle.lapin_method_text.specs.MethodReading.{queue_at};

use crate::kinds::QueueKind;
use crate::rows::{put_field, put_row, read_row, value_at};
use lapin_methods::QueueMethod;
use lapin_tokens::{
    ReadError, Tokens, flag, put_count, put_flag, put_table, put_text, put_word, table, text,
    u32_at,
};
use std::alloc::{AllocError, Global};

macro_rules! queue_table {
    ($row:ident, $($given:tt),*) => {
        $row!($($given),*; QueueKind, QueueMethod;
            Declare b"queue.declare" { queue: text, passive: flag, durable: flag, exclusive: flag,
                auto_delete: flag, nowait: flag, arguments: table },
            DeclareOk b"queue.declare-ok" { queue: text, message_count: long, consumer_count: long },
            Bind b"queue.bind" { queue: text, exchange: text, routing_key: text,
                nowait: flag, arguments: table },
            BindOk b"queue.bind-ok" {},
            Purge b"queue.purge" { queue: text, nowait: flag },
            PurgeOk b"queue.purge-ok" { message_count: long },
            Delete b"queue.delete" { queue: text, if_unused: flag, if_empty: flag, nowait: flag },
            DeleteOk b"queue.delete-ok" { message_count: long },
            Unbind b"queue.unbind" { queue: text, exchange: text, routing_key: text, arguments: table },
            UnbindOk b"queue.unbind-ok" {},
        )
    };
}

/// The method of this kind, whose fields are the next tokens.
#[tactic(auto, unfolding(crate::specs::MethodReading::queue_at))]
pub fn read_queue(
    alloc: Global,
    kind: QueueKind,
    tokens: &mut Tokens,
) -> Result<QueueMethod, ReadError>
    ensures { Gives result tokens.new (queue_at kind tokens.old) }
{
    queue_table!(read_row, kind, alloc, tokens)
}

/// Adds the method's name and fields, each behind a space.
pub fn put_queue(alloc: Global, out: &mut Vec<u8>, method: &QueueMethod) -> Result<(), AllocError>
    ensures { OnOk result (out.new.items ≡ onto out.old.items (queue_tokens method.now)) }
{
    queue_table!(put_row, method, alloc, out)
}
