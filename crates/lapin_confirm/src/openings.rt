//! A new opening of a channel: its confirm mode and its returned messages, which stay for the openings after it.

ghost use Rattle.std.specs.Prelude.{◌≡◌, ◌≤◌, ◌<◌, length, ℕ, List, None, OnOk, OnErr, IsOk, IsSome, Bool, if◌then◌else◌};
ghost use Rattle.lapin_tables.specs.ByChannel.{at_channel, HasRoom};
ghost use Rattle.lapin_full.specs.ChannelSet.{reach};
ghost use Rattle.lapin_rules.specs.Words.{is_some, with_channel};
ghost use Rattle.lapin_rules.specs.ReturnLists.{renewed};
ghost use Rattle.lapin_confirm.specs.WithRoom.{spare_in};
ghost use Rattle.lapin_confirm.specs.ConfirmState.{return_lists_in, messages_off};
ghost use Rattle.lapin_confirm.specs.declared.confirm_mode.ConfirmMode.{ConfirmMode as AConfirmMode};
ghost use Rattle.lapin_confirm.specs.Drain.{remaining, less_all};
ghost use Rattle.lapin_confirm.specs.FullSet.{ShowsFull};
ghost use Rattle.lapin_confirm.specs.Ties.{returned_by_channel_of, MessagesFit, AllTied, deque_spare};

use crate::cell::Cell;
use crate::confirm_mode::ConfirmMode;
use crate::early::{let_go_all, take_early};
use crate::origin::Origin;
use crate::returned::Returned;
use lapin_full::ChannelSet;
use lapin_tables::{ByChannel, Packed};
use lapin_types::BasicReturnMessage;
use std::alloc::{AllocError, Global};
use std::collections::VecDeque;

/// Makes the place where the confirm mode of a channel will stand, if there is none yet, and the one where it is shown as full.
pub fn make_place(
    confirm_modes: &mut ByChannel<ConfirmMode>,
    full: &mut ChannelSet,
    channel: u16,
) -> Result<(), AllocError>
    requires { ShowsFull full.old confirm_modes.old.entries }
    ensures same { confirm_modes.new.entries ≡ confirm_modes.old.entries }
    ensures place { OnOk result (at_channel channel confirm_modes.new.entries ≡ None → HasRoom channel confirm_modes.new) }
    ensures full { ShowsFull full.new confirm_modes.old.entries }
    ensures reached { OnOk result (channel < reach full.new) }
    ensures succeeds { IsSome (at_channel channel confirm_modes.old.entries) → IsOk result }
{
    if confirm_modes.get(channel).is_some() {
        return Ok(());
    }
    full.reserve(channel)?;
    confirm_modes.reserve(channel)?;
    Ok(())
}

/// Puts the confirm mode of a new opening at its channel, in the place that was made.
pub fn put_confirm_mode(
    confirm_modes: &mut ByChannel<ConfirmMode>,
    channel: u16,
    fresh: ConfirmMode,
)
    requires { at_channel channel confirm_modes.old.entries ≡ None → HasRoom channel confirm_modes.old }
    ensures { confirm_modes.new.entries ≡ with_channel channel fresh confirm_modes.old.entries }
{
    let Some(mode) = confirm_modes.get_mut(channel) else {
        confirm_modes.insert_reserved(channel, fresh);
        return;
    };
    *mode = fresh;
}

/// The returned messages of a channel are as a new opening needs them, and of those that stood aside and are resolved nothing is kept;
/// first ones have room for a message where that is promised, and the channel's early messages are let go.
pub fn renew_returned_messages(
    returned_by_channel: &mut ByChannel<Returned>,
    cells: &mut Packed<Cell>,
    origins: &mut Packed<Origin>,
    early: &mut VecDeque<(u16, BasicReturnMessage)>,
    alloc: Global,
    channel: u16,
    promised: bool,
) -> Result<(), AllocError>
    ensures ok { OnOk result (returned_by_channel_of returned_by_channel.new.entries ≡ with_channel channel (renewed (return_lists_in (at_channel channel (returned_by_channel_of returned_by_channel.old.entries)))) (returned_by_channel_of returned_by_channel.old.entries)) }
    ensures err { OnErr result (returned_by_channel.new.entries ≡ returned_by_channel.old.entries) }
    ensures remains { OnOk result (remaining cells.new.slots origins.new.slots ≡ less_all (return_lists_in (at_channel channel (returned_by_channel_of returned_by_channel.old.entries))).aside (remaining cells.old.slots origins.old.slots)) }
    ensures same { OnErr result (remaining cells.new.slots origins.new.slots ≡ remaining cells.old.slots origins.old.slots) }
    ensures tied { (es : List (ℕ × AConfirmMode)) → AllTied es cells.old.slots → AllTied es cells.new.slots }
    ensures counts { (length cells.new.slots ≡ length cells.old.slots) × (length origins.new.slots ≡ length origins.old.slots) }
    ensures kept { (cells.old.spare ≤ cells.new.spare) × (origins.old.spare ≤ origins.new.spare) }
    ensures messages { (rooms : List (ℕ × Bool)) → spare_in (at_channel channel rooms) ≡ (if promised then 1 else 0) → MessagesFit rooms returned_by_channel.old.entries → MessagesFit rooms returned_by_channel.new.entries }
    ensures early { OnOk result (early.new.items ≡ (if is_some (at_channel channel (returned_by_channel_of returned_by_channel.old.entries)) then early.old.items else messages_off channel early.old.items)) }
    ensures early_same { OnErr result (early.new.items ≡ early.old.items) }
    ensures early_room { deque_spare early.old ≤ deque_spare early.new }
    ensures succeeds { IsSome (at_channel channel (returned_by_channel_of returned_by_channel.old.entries)) → IsOk result }
{
    let Some(returned_messages) = returned_by_channel.get_mut(channel) else {
        let returned_messages = Returned::with_room(alloc, promised)?;
        returned_by_channel.reserve(channel)?;
        let_go_all(take_early(alloc, channel, early)?);
        returned_by_channel.insert_reserved(channel, returned_messages);
        return Ok(());
    };
    returned_messages.renew(cells, origins);
    Ok(())
}
