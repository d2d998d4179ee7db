//! The text of the methods of the class connection (AMQP 0-9-1, class 10).
//!
//! Here stands the class's table, one row a method: its name and the kinds of its fields in their order.

ghost use Rattle.std.specs.Prelude.{◌≡◌, OnOk};
ghost use Rattle.lapin_tokens.specs.Reading.{Gives};
ghost use Rattle.lapin_tokens.specs.TokenText.{onto};
ghost use Rattle.lapin_method_text.specs.Methods.{connection_tokens};
ghost use Rattle.lapin_method_text.specs.MethodReading.{connection_at};

use crate::kinds::ConnectionKind;
use crate::rows::{put_field, put_row, read_row, value_at};
use lapin_methods::ConnectionMethod;
use lapin_tokens::{ReadError, Tokens, put_count, put_text, put_word, text, u16_at};
use std::alloc::{AllocError, Global};

macro_rules! connection_table {
    ($row:ident, $($given:tt),*) => {
        $row!($($given),*; ConnectionKind, ConnectionMethod;
            Close b"connection.close" { reply_code: short, reply_text: text,
                class_id: short, method_id: short },
            CloseOk b"connection.close-ok" {},
        )
    };
}

/// The method of this kind, whose fields are the next tokens.
#[tactic(auto, unfolding(crate::specs::MethodReading::connection_at))]
pub fn read_connection(
    alloc: Global,
    kind: ConnectionKind,
    tokens: &mut Tokens,
) -> Result<ConnectionMethod, ReadError>
    ensures { Gives result tokens.new (connection_at kind tokens.old) }
{
    connection_table!(read_row, kind, alloc, tokens)
}

/// Adds the method's name and fields, each behind a space.
pub fn put_connection(
    alloc: Global,
    out: &mut Vec<u8>,
    method: &ConnectionMethod,
) -> Result<(), AllocError>
    ensures { OnOk result (out.new.items ≡ onto out.old.items (connection_tokens method.now)) }
{
    connection_table!(put_row, method, alloc, out)
}
