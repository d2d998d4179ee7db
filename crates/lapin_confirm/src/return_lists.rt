//! The message of one confirm, found by where the confirm belongs.

ghost use Rattle.std.specs.Prelude.{◌≡◌, ℕ, ◌≤◌, Bool, List, None, OnOk, OnErr, is_some};
ghost use Rattle.lapin_rules.specs.ReturnLists.{return_of, taken_out, set_by};
ghost use Rattle.lapin_tables.specs.Numbered.{under, with_under};
ghost use Rattle.lapin_confirm.specs.ConfirmState.{origin_return_lists, on_origin};
ghost use Rattle.lapin_confirm.specs.Aside.{is_aside_in, marked};
ghost use Rattle.lapin_confirm.specs.Ties.{returned_by_channel_of, MessagesFit};

use crate::origin::Origin;
use crate::returned::Returned;
use lapin_tables::{ByChannel, Packed};
use lapin_types::BasicReturnMessage;
use std::alloc::AllocError;

/// Takes out the message that a confirm took, if it took one, and forgets where the confirm belongs.
pub fn take_message(
    origins: &mut Packed<Origin>,
    returned_by_channel: &mut ByChannel<Returned>,
    number: u64,
) -> Option<BasicReturnMessage>
    ensures message { result ≡ return_of number (origin_return_lists (under number origins.old.slots) (returned_by_channel_of returned_by_channel.old.entries)) }
    ensures returned_by_channel { returned_by_channel_of returned_by_channel.new.entries ≡ on_origin (under number origins.old.slots) (taken_out number) (returned_by_channel_of returned_by_channel.old.entries) }
    ensures origins { origins.new.slots ≡ with_under number None origins.old.slots }
    ensures spare { origins.old.spare ≤ origins.new.spare }
    ensures room { (rooms : List (ℕ × Bool)) → MessagesFit rooms returned_by_channel.old.entries → MessagesFit rooms returned_by_channel.new.entries }
{
    let Some(origin) = origins.take(number) else {
        return None;
    };
    let Some(returned_messages) = returned_by_channel.get_mut(origin.channel) else {
        return None;
    };
    returned_messages.take(number)
}

/// Whether a confirm took a message, and still has it.
pub fn has_message(
    origins: &Packed<Origin>,
    returned_by_channel: &ByChannel<Returned>,
    number: u64,
) -> bool
    ensures { result ≡ is_some (return_of number (origin_return_lists (under number origins.now.slots) (returned_by_channel_of returned_by_channel.now.entries))) }
{
    let Some(origin) = origins.get(number) else {
        return false;
    };
    match returned_by_channel.get(origin.channel) {
        Some(returned_messages) => returned_messages.holds(number),
        None => false,
    }
}

/// Whether a confirm was set aside.
#[inline(always)]
pub fn is_aside(origins: &Packed<Origin>, number: u64) -> bool
    ensures { result ≡ is_aside_in (under number origins.now.slots) }
{
    match origins.get(number) {
        Some(origin) => origin.aside,
        None => false,
    }
}

/// A confirm is set aside in the returned messages of its channel.
pub fn put_by(
    origins: &Packed<Origin>,
    returned_by_channel: &mut ByChannel<Returned>,
    number: u64,
    resolved: bool,
) -> Result<(), AllocError>
    ensures ok { OnOk result (returned_by_channel_of returned_by_channel.new.entries ≡ on_origin (under number origins.now.slots) (set_by number resolved) (returned_by_channel_of returned_by_channel.old.entries)) }
    ensures err { OnErr result (returned_by_channel_of returned_by_channel.new.entries ≡ returned_by_channel_of returned_by_channel.old.entries) }
    ensures room { (rooms : List (ℕ × Bool)) → MessagesFit rooms returned_by_channel.old.entries → MessagesFit rooms returned_by_channel.new.entries }
{
    let Some(origin) = origins.get(number) else {
        return Ok(());
    };
    let Some(returned_messages) = returned_by_channel.get_mut(origin.channel) else {
        return Ok(());
    };
    if let Err(error) = returned_messages.put_by(number, resolved) {
        return Err(error);
    }
    Ok(())
}

/// What is kept of a confirm says from now on that it was set aside.
pub fn mark_aside(origins: &mut Packed<Origin>, number: u64)
    ensures slots { origins.new.slots ≡ marked number (under number origins.old.slots) origins.old.slots }
    ensures spare { origins.old.spare ≤ origins.new.spare }
{
    let Some(origin) = origins.get(number) else {
        return;
    };
    let channel = origin.channel;
    origins.set(
        number,
        Origin {
            channel,
            aside: true,
        },
    );
}
