//! The text of the methods of the class confirm (class 85, RabbitMQ's publisher confirms).
//!
//! Here stands the class's table, one row a method: its name and the kinds of its fields in their order.

ghost use Rattle.std.specs.Prelude.{◌≡◌, OnOk};
ghost use Rattle.lapin_tokens.specs.Reading.{Gives};
ghost use Rattle.lapin_tokens.specs.TokenText.{onto};
ghost use Rattle.lapin_method_text.specs.Methods.{confirm_tokens};
ghost use Rattle.lapin_method_text.specs.MethodReading.{confirm_at};

use crate::kinds::ConfirmKind;
use crate::rows::{put_field, put_row, read_row, value_at};
use lapin_methods::ConfirmMethod;
use lapin_tokens::{ReadError, Tokens, flag, put_flag, put_word};
use std::alloc::{AllocError, Global};

macro_rules! confirm_table {
    ($row:ident, $($given:tt),*) => {
        $row!($($given),*; ConfirmKind, ConfirmMethod;
            Select b"confirm.select" { nowait: flag },
            SelectOk b"confirm.select-ok" {},
        )
    };
}

/// The method of this kind, whose fields are the next tokens.
#[tactic(auto, unfolding(crate::specs::MethodReading::confirm_at))]
pub fn read_confirm(
    alloc: Global,
    kind: ConfirmKind,
    tokens: &mut Tokens,
) -> Result<ConfirmMethod, ReadError>
    ensures { Gives result tokens.new (confirm_at kind tokens.old) }
{
    confirm_table!(read_row, kind, alloc, tokens)
}

/// Adds the method's name and fields, each behind a space.
pub fn put_confirm(
    alloc: Global,
    out: &mut Vec<u8>,
    method: &ConfirmMethod,
) -> Result<(), AllocError>
    ensures { OnOk result (out.new.items ≡ onto out.old.items (confirm_tokens method.now)) }
{
    confirm_table!(put_row, method, alloc, out)
}
