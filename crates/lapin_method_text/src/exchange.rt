//! The text of the methods of the class exchange (AMQP 0-9-1, class 40, with RabbitMQ's bindings between exchanges).
//!
//! Here stands the class's table, one row a method: its name and the kinds of its fields in their order.

ghost use Rattle.std.specs.Prelude.{◌≡◌, OnOk};
ghost use Rattle.lapin_tokens.specs.Reading.{Gives};
ghost use Rattle.lapin_tokens.specs.TokenText.{onto};
ghost use Rattle.lapin_method_text.specs.Methods.{exchange_tokens};
ghost use Rattle.lapin_method_text.specs.MethodReading.{exchange_at};

use crate::kinds::ExchangeMethodKind;
use crate::rows::{put_field, put_row, read_row, value_at};
use lapin_methods::ExchangeMethod;
use lapin_tokens::{ReadError, Tokens, flag, put_flag, put_table, put_text, put_word, table, text};
use std::alloc::{AllocError, Global};

macro_rules! exchange_table {
    ($row:ident, $($given:tt),*) => {
        $row!($($given),*; ExchangeMethodKind, ExchangeMethod;
            Declare b"exchange.declare" { exchange: text, kind: text, passive: flag, durable: flag,
                auto_delete: flag, internal: flag, nowait: flag, arguments: table },
            DeclareOk b"exchange.declare-ok" {},
            Delete b"exchange.delete" { exchange: text, if_unused: flag, nowait: flag },
            DeleteOk b"exchange.delete-ok" {},
            Bind b"exchange.bind" { destination: text, source: text, routing_key: text,
                nowait: flag, arguments: table },
            BindOk b"exchange.bind-ok" {},
            Unbind b"exchange.unbind" { destination: text, source: text, routing_key: text,
                nowait: flag, arguments: table },
            UnbindOk b"exchange.unbind-ok" {},
        )
    };
}

/// The method of this kind, whose fields are the next tokens.
#[tactic(auto, unfolding(crate::specs::MethodReading::exchange_at))]
pub fn read_exchange(
    alloc: Global,
    kind: ExchangeMethodKind,
    tokens: &mut Tokens,
) -> Result<ExchangeMethod, ReadError>
    ensures { Gives result tokens.new (exchange_at kind tokens.old) }
{
    exchange_table!(read_row, kind, alloc, tokens)
}

/// Adds the method's name and fields, each behind a space.
pub fn put_exchange(
    alloc: Global,
    out: &mut Vec<u8>,
    method: &ExchangeMethod,
) -> Result<(), AllocError>
    ensures { OnOk result (out.new.items ≡ onto out.old.items (exchange_tokens method.now)) }
{
    exchange_table!(put_row, method, alloc, out)
}
