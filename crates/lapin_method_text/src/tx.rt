//! The text of the methods of the class tx (AMQP 0-9-1, class 90).
//!
//! Here stands the class's table, one row a method: its name and the kinds of its fields in their order.

ghost use Rattle.std.specs.Prelude.{◌≡◌, OnOk};
ghost use Rattle.lapin_tokens.specs.Reading.{Gives};
ghost use Rattle.lapin_tokens.specs.TokenText.{onto};
ghost use Rattle.lapin_method_text.specs.Methods.{tx_tokens};
ghost use Rattle.lapin_method_text.specs.MethodReading.{tx_at};

use crate::kinds::TxKind;
use crate::rows::{put_field, put_row, read_row, value_at};
use lapin_methods::TxMethod;
use lapin_tokens::{ReadError, Tokens, put_word};
use std::alloc::{AllocError, Global};

macro_rules! tx_table {
    ($row:ident, $($given:tt),*) => {
        $row!($($given),*; TxKind, TxMethod;
            Select b"tx.select" {},
            SelectOk b"tx.select-ok" {},
            Commit b"tx.commit" {},
            CommitOk b"tx.commit-ok" {},
            Rollback b"tx.rollback" {},
            RollbackOk b"tx.rollback-ok" {},
        )
    };
}

/// The method of this kind, whose fields are the next tokens.
#[tactic(auto, unfolding(crate::specs::MethodReading::tx_at))]
pub fn read_tx(alloc: Global, kind: TxKind, tokens: &mut Tokens) -> Result<TxMethod, ReadError>
    ensures { Gives result tokens.new (tx_at kind tokens.old) }
{
    tx_table!(read_row, kind, alloc, tokens)
}

/// Adds the method's name and fields, each behind a space.
pub fn put_tx(alloc: Global, out: &mut Vec<u8>, method: &TxMethod) -> Result<(), AllocError>
    ensures { OnOk result (out.new.items ≡ onto out.old.items (tx_tokens method.now)) }
{
    tx_table!(put_row, method, alloc, out)
}
