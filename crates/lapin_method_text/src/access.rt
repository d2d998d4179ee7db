//! The text of the methods of the class access (class 30, which brokers keep from AMQP 0-8).
//!
//! Here stands the class's table, one row a method: its name and the kinds of its fields in their order.

ghost use Rattle.std.specs.Prelude.{◌≡◌, OnOk};
ghost use Rattle.lapin_tokens.specs.Reading.{Gives};
ghost use Rattle.lapin_tokens.specs.TokenText.{onto};
ghost use Rattle.lapin_method_text.specs.Methods.{access_tokens};
ghost use Rattle.lapin_method_text.specs.MethodReading.{access_at};

use crate::kinds::AccessKind;
use crate::rows::{put_field, put_row, read_row, value_at};
use lapin_methods::AccessMethod;
use lapin_tokens::{ReadError, Tokens, flag, put_flag, put_text, put_word, text};
use std::alloc::{AllocError, Global};

macro_rules! access_table {
    ($row:ident, $($given:tt),*) => {
        $row!($($given),*; AccessKind, AccessMethod;
            Request b"access.request" { realm: text, exclusive: flag, passive: flag,
                active: flag, write: flag, read: flag },
            RequestOk b"access.request-ok" {},
        )
    };
}

/// The method of this kind, whose fields are the next tokens.
#[tactic(auto, unfolding(crate::specs::MethodReading::access_at))]
pub fn read_access(
    alloc: Global,
    kind: AccessKind,
    tokens: &mut Tokens,
) -> Result<AccessMethod, ReadError>
    ensures { Gives result tokens.new (access_at kind tokens.old) }
{
    access_table!(read_row, kind, alloc, tokens)
}

/// Adds the method's name and fields, each behind a space.
pub fn put_access(alloc: Global, out: &mut Vec<u8>, method: &AccessMethod) -> Result<(), AllocError>
    ensures { OnOk result (out.new.items ≡ onto out.old.items (access_tokens method.now)) }
{
    access_table!(put_row, method, alloc, out)
}
