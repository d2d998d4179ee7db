//! The calls on the connection, a channel as a whole, access and confirms: a copy of each, and whether a call is one of them with given arguments. What they do
//! stands in the crates above.

ghost use Rattle.std.specs.Prelude.{◌≡◌, IfOk};
ghost use Rattle.std.specs.Bool.{Decides};
ghost use Rattle.lapin_types.specs.declared.call.Call.TheVariants as variant;

use crate::call::Call;
use lapin_methods::{AccessRequestOptions, ChannelFlowOptions, ConfirmSelectOptions};
use lapin_values::{NoMemory, ShortString};
use std::alloc::Global;

/// A copy of `Call::ConnectionClose`.
pub fn copied_connection_close(
    reply_code: &u16,
    reply_text: &ShortString,
    alloc: Global,
) -> Result<Call, NoMemory>
    ensures { IfOk result (λ copy. copy ≡ variant.ConnectionClose reply_code.now reply_text.now) }
{
    Ok(Call::ConnectionClose {
        reply_code: *reply_code,
        reply_text: reply_text.try_clone(alloc)?,
    })
}

/// A copy of `Call::ChannelClose`.
pub fn copied_channel_close(
    reply_code: &u16,
    reply_text: &ShortString,
    alloc: Global,
) -> Result<Call, NoMemory>
    ensures { IfOk result (λ copy. copy ≡ variant.ChannelClose reply_code.now reply_text.now) }
{
    Ok(Call::ChannelClose {
        reply_code: *reply_code,
        reply_text: reply_text.try_clone(alloc)?,
    })
}

/// A copy of `Call::AccessRequest`.
pub fn copied_access_request(
    realm: &ShortString,
    options: &AccessRequestOptions,
    alloc: Global,
) -> Result<Call, NoMemory>
    ensures { IfOk result (λ copy. copy ≡ variant.AccessRequest realm.now options.now) }
{
    Ok(Call::AccessRequest {
        realm: realm.try_clone(alloc)?,
        options: *options,
    })
}
