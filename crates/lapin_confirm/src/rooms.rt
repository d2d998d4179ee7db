//! The room for a channel's next publish or message: of which channels it is promised, and how it is made and used.
//!
//! The cells of all channels stand in one window, so room there is made for every channel that has a promise, and one more.

ghost use Rattle.std.specs.Prelude.{◌≡◌, ◌≢◌, ℕ, ◌+◌, ◌<◌, ◌≤◌, Bool, true, false, List, Option, Some, OnOk, OnErr, IsOk, IsSome, if◌then◌else◌};
ghost use Rattle.lapin_tables.specs.ByChannel.{at_channel, on_channel};
ghost use Rattle.lapin_confirm.specs.declared.cell.Cell.{Cell as ACell};
ghost use Rattle.lapin_confirm.specs.WithRoom.{spare_in};
ghost use Rattle.lapin_confirm.specs.FullSet.{ShowsFull};
ghost use Rattle.lapin_confirm.specs.Ties.{confirm_mode_states, returned_by_channel_of, promised, AllTied, TagFits, TagsFit, MessageFits, MessagesFit, HaveRoom, HasMore, deque_spare};

use crate::cell::Cell;
use crate::confirm_mode::ConfirmMode;
use crate::origin::Origin;
use crate::returned::Returned;
use lapin_tables::{ByChannel, Packed};
use lapin_types::BasicReturnMessage;
use std::alloc::AllocError;
use std::collections::VecDeque;

/// Whether there is room for the next publish or message of a channel.
pub fn is_promised(rooms: &ByChannel<bool>, channel: u16) -> bool
    ensures { spare_in (at_channel channel rooms.now.entries) ≡ (if result then 1 else 0) }
{
    match rooms.get(channel) {
        Some(promised) => *promised,
        None => false,
    }
}

/// The room that was made for a channel is promised.
pub fn promise(rooms: &mut ByChannel<bool>, channel: u16)
    ensures { rooms.new.entries ≡ on_channel channel (λ _. true) rooms.old.entries }
{
    if let Some(promised) = rooms.get_mut(channel) {
        *promised = true;
    }
}

/// The room of a channel is used.
pub fn give_up(rooms: &mut ByChannel<bool>, channel: u16)
    ensures { rooms.new.entries ≡ on_channel channel (λ _. false) rooms.old.entries }
{
    if let Some(promised) = rooms.get_mut(channel) {
        *promised = false;
    }
}

/// Makes room for one more publish or message of a channel, beside what is promised.
pub fn make_room(
    channel: u16,
    rooms: &mut ByChannel<bool>,
    cells: &mut Packed<Cell>,
    origins: &mut Packed<Origin>,
    confirm_modes: &mut ByChannel<ConfirmMode>,
    returned_by_channel: &mut ByChannel<Returned>,
    early: &mut VecDeque<(u16, BasicReturnMessage)>,
) -> Result<(), AllocError>
    requires tied { AllTied confirm_modes.old.entries cells.old.slots }
    requires room { HaveRoom rooms.old.entries confirm_modes.old.entries returned_by_channel.old.entries cells.old.spare }
    requires origins { promised rooms.old.entries ≤ origins.old.spare }
    requires early { promised rooms.old.entries ≤ deque_spare early.old }
    ensures cells { cells.new.slots ≡ cells.old.slots }
    ensures confirm_modes { confirm_mode_states confirm_modes.new.entries ≡ confirm_mode_states confirm_modes.old.entries }
    ensures returned_by_channel { returned_by_channel_of returned_by_channel.new.entries ≡ returned_by_channel_of returned_by_channel.old.entries }
    ensures rooms { (c : ℕ) → spare_in (at_channel c rooms.new.entries) ≡ spare_in (at_channel c rooms.old.entries) }
    ensures tied { AllTied confirm_modes.new.entries cells.new.slots }
    ensures room { HaveRoom rooms.new.entries confirm_modes.new.entries returned_by_channel.new.entries cells.new.spare }
    ensures more { OnOk result (HasMore channel rooms.new.entries confirm_modes.new.entries returned_by_channel.new.entries cells.new.spare) }
    ensures origins { origins.new.slots ≡ origins.old.slots }
    ensures kept { promised rooms.new.entries ≤ origins.new.spare }
    ensures origin { OnOk result (promised rooms.new.entries < origins.new.spare) }
    ensures early { early.new.items ≡ early.old.items }
    ensures early_kept { promised rooms.new.entries ≤ deque_spare early.new }
    ensures early_more { OnOk result (promised rooms.new.entries < deque_spare early.new) }
    ensures full { (full : List ℕ) → ShowsFull full confirm_modes.old.entries → ShowsFull full confirm_modes.new.entries }
{
    note(channel, rooms)?;
    cells.reserve(rooms.entries().len() + 1)?;
    origins.reserve(rooms.entries().len() + 1)?;
    early.reserve(rooms.entries().len() + 1)?;
    make_room_for_tag(channel, confirm_modes)?;
    make_room_for_message(channel, returned_by_channel)?;
    Ok(())
}

// The channel is among those that may have a promise.
fn note(channel: u16, rooms: &mut ByChannel<bool>) -> Result<(), AllocError>
    ensures same { (c : ℕ) → spare_in (at_channel c rooms.new.entries) ≡ spare_in (at_channel c rooms.old.entries) }
    ensures count { promised rooms.new.entries ≡ promised rooms.old.entries }
    ensures known { OnOk result (IsSome (at_channel channel rooms.new.entries)) }
{
    if rooms.get(channel).is_some() {
        return Ok(());
    }
    rooms.insert(channel, false)?;
    Ok(())
}

// The next publish of the channel has room for its tag, beside those that are queued.
fn make_room_for_tag(
    channel: u16,
    confirm_modes: &mut ByChannel<ConfirmMode>,
) -> Result<(), AllocError>
    requires { TagFits 0 (at_channel channel confirm_modes.old.entries) }
    ensures confirm_modes { confirm_mode_states confirm_modes.new.entries ≡ confirm_mode_states confirm_modes.old.entries }
    ensures tied { (cells : List (Option ACell)) → AllTied confirm_modes.old.entries cells → AllTied confirm_modes.new.entries cells }
    ensures tags { (rooms : List (ℕ × Bool)) → TagsFit rooms confirm_modes.old.entries → TagsFit rooms confirm_modes.new.entries }
    ensures full { (full : List ℕ) → ShowsFull full confirm_modes.old.entries → ShowsFull full confirm_modes.new.entries }
    ensures more { OnOk result (TagFits 1 (at_channel channel confirm_modes.new.entries)) }
{
    let Some(mode) = confirm_modes.get_mut(channel) else {
        return Ok(());
    };
    mode.tags.reserve_beside(mode.queued)?;
    Ok(())
}

// The next message of the channel has room.
fn make_room_for_message(
    channel: u16,
    returned_by_channel: &mut ByChannel<Returned>,
) -> Result<(), AllocError>
    ensures returned_by_channel { returned_by_channel_of returned_by_channel.new.entries ≡ returned_by_channel_of returned_by_channel.old.entries }
    ensures messages { (rooms : List (ℕ × Bool)) → MessagesFit rooms returned_by_channel.old.entries → MessagesFit rooms returned_by_channel.new.entries }
    ensures more { OnOk result (MessageFits 1 (at_channel channel returned_by_channel.new.entries)) }
{
    let Some(returned_messages) = returned_by_channel.get_mut(channel) else {
        return Ok(());
    };
    returned_messages.reserve()?;
    Ok(())
}

/// Uses the room that is promised to the next publish of a channel, or makes room for it.
pub fn use_room(
    channel: u16,
    rooms: &mut ByChannel<bool>,
    cells: &mut Packed<Cell>,
    origins: &mut Packed<Origin>,
    mode: &mut ConfirmMode,
) -> Result<(), AllocError>
    requires cells { promised rooms.old.entries ≤ cells.old.spare }
    requires origins { promised rooms.old.entries ≤ origins.old.spare }
    requires tags { TagFits (spare_in (at_channel channel rooms.old.entries)) (Some mode.old) }
    ensures cells { cells.new.slots ≡ cells.old.slots }
    ensures origins { origins.new.slots ≡ origins.old.slots }
    ensures tags { mode.new.tags.slots ≡ mode.old.tags.slots }
    ensures rest { mode.new ≡ record mode.old { tags = mode.new.tags } }
    ensures others { (c : ℕ) → c ≢ channel → at_channel c rooms.new.entries ≡ at_channel c rooms.old.entries }
    ensures used { spare_in (at_channel channel rooms.new.entries) ≡ 0 }
    ensures less { promised rooms.new.entries ≤ promised rooms.old.entries }
    ensures unused { OnErr result (rooms.new.entries ≡ rooms.old.entries) }
    ensures spare { OnOk result (promised rooms.new.entries < cells.new.spare) }
    ensures origin { OnOk result (promised rooms.new.entries < origins.new.spare) }
    ensures fits { (promised rooms.new.entries ≤ cells.new.spare) × (promised rooms.new.entries ≤ origins.new.spare) }
    ensures room { OnOk result (mode.new.queued < mode.new.tags.spare) }
    ensures kept { mode.new.queued ≤ mode.new.tags.spare }
    ensures succeeds { 0 < spare_in (at_channel channel rooms.old.entries) → IsOk result }
{
    if is_promised(rooms, channel) {
        give_up(rooms, channel);
        return Ok(());
    }
    cells.reserve(rooms.entries().len() + 1)?;
    origins.reserve(rooms.entries().len() + 1)?;
    mode.tags.reserve_beside(mode.queued)?;
    Ok(())
}
