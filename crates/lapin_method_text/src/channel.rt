//! The text of the methods of the class channel (AMQP 0-9-1, class 20).
//!
//! Here stands the class's table, one row a method: its name and the kinds of its fields in their order.

ghost use Rattle.std.specs.Prelude.{◌≡◌, OnOk};
ghost use Rattle.lapin_tokens.specs.Reading.{Gives};
ghost use Rattle.lapin_tokens.specs.TokenText.{onto};
ghost use Rattle.lapin_method_text.specs.Methods.{channel_tokens};
ghost use Rattle.lapin_method_text.specs.MethodReading.{channel_at};

use crate::kinds::ChannelKind;
use crate::rows::{put_field, put_row, read_row, value_at};
use lapin_methods::ChannelMethod;
use lapin_tokens::{
    ReadError, Tokens, flag, put_count, put_flag, put_text, put_word, text, u16_at,
};
use std::alloc::{AllocError, Global};

macro_rules! channel_table {
    ($row:ident, $($given:tt),*) => {
        $row!($($given),*; ChannelKind, ChannelMethod;
            Open b"channel.open" {},
            OpenOk b"channel.open-ok" {},
            Flow b"channel.flow" { active: flag },
            FlowOk b"channel.flow-ok" { active: flag },
            Close b"channel.close" { reply_code: short, reply_text: text, class_id: short, method_id: short },
            CloseOk b"channel.close-ok" {},
        )
    };
}

/// The method of this kind, whose fields are the next tokens.
#[tactic(auto, unfolding(crate::specs::MethodReading::channel_at))]
pub fn read_channel(
    alloc: Global,
    kind: ChannelKind,
    tokens: &mut Tokens,
) -> Result<ChannelMethod, ReadError>
    ensures { Gives result tokens.new (channel_at kind tokens.old) }
{
    channel_table!(read_row, kind, alloc, tokens)
}

/// Adds the method's name and fields, each behind a space.
pub fn put_channel(
    alloc: Global,
    out: &mut Vec<u8>,
    method: &ChannelMethod,
) -> Result<(), AllocError>
    ensures { OnOk result (out.new.items ≡ onto out.old.items (channel_tokens method.now)) }
{
    channel_table!(put_row, method, alloc, out)
}
