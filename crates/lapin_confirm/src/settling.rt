//! What runs over one channel's confirm mode and the cells: a publish joins, its tag is taken, tags are settled, the opening ends.
//!
//! Each function keeps the confirm mode and the cells tied. A settlement looks up one place, or walks from the least pending tag:
//! what is settled already costs nothing. An end walks the pending tags too, and the numbers only while a publish is queued.

ghost use Rattle.std.specs.Prelude.{◌≡◌, ◌≢◌, ℕ, ◌+◌, ◌<◌, ◌≤◌, ◌^◌, ◌==◌, nat_le, true, false, ◌∷◌, ◌++◌, [], Some, length, map, is_some, if◌then◌else◌};
ghost use Rattle.std.specs.Option.{option_map};
ghost use Rattle.std.specs.Bool.{Decides};
ghost use Rattle.lapin_tables.specs.Numbered.{under, with_under};
ghost use Rattle.lapin_confirm.specs.PublishStates.{tag_for, cell_with, settled_cell, ended_cell, ended_confirm_mode};
ghost use Rattle.lapin_confirm.specs.Ties.{Tied, KeepsTags, confirm_mode_state, confirm_mode_after};

use crate::cell::Cell;
use crate::confirm_mode::ConfirmMode;
use lapin_tables::Packed;
use lapin_types::{Error, Outcome};

/// Adds a publish of the channel, in the room that was made.
pub fn enqueue(channel: u16, mode: &mut ConfirmMode, cells: &mut Packed<Cell>) -> u64
    requires tied { Tied channel mode.old cells.old.slots }
    requires spare { 0 < cells.old.spare }
    requires room { mode.old.queued < mode.old.tags.spare }
    requires numbers { length cells.old.slots + 1 < 2 ^ 64 }
    ensures number { result ≡ length cells.old.slots + 1 }
    ensures cells { cells.new.slots ≡ cells.old.slots ++ Some (Cell.Queued channel) ∷ [] }
    ensures spare { cells.old.spare ≤ cells.new.spare + 1 }
    ensures tied { Tied channel mode.new cells.new.slots }
    ensures mode { confirm_mode_state mode.new ≡ confirm_mode_state mode.old }
    ensures pending { mode.new.pending ≡ mode.old.pending }
{
    mode.queued += 1;
    cells.push_reserved(Cell::Queued(channel))
}

/// The method frame of a publish of the channel leaves: it takes its tag, if the opening is selected.
pub fn leave(
    channel: u16,
    mode: &mut ConfirmMode,
    cells: &mut Packed<Cell>,
    number: u64,
) -> Option<u64>
    requires tied { Tied channel mode.old cells.old.slots }
    requires queued { under number cells.old.slots ≡ Some (Cell.Queued channel) }
    requires fits { length cells.old.slots < 2 ^ 64 }
    ensures tag { result ≡ tag_for (Some (confirm_mode_state mode.old)) }
    ensures cells { cells.new.slots ≡ with_under number (Some (cell_with channel result)) cells.old.slots }
    ensures tied { Tied channel mode.new cells.new.slots }
    ensures mode { confirm_mode_state mode.new ≡ confirm_mode_after result (confirm_mode_state mode.old) }
    ensures spare { cells.old.spare ≤ cells.new.spare }
    ensures room { KeepsTags mode.old mode.new }
{
    let tag = take_tag(mode, number);
    cells.set(number, cell_for(channel, tag));
    tag
}

fn take_tag(mode: &mut ConfirmMode, number: u64) -> Option<u64>
    requires queued { 0 < mode.old.queued }
    requires room { mode.old.queued ≤ mode.old.tags.spare }
    requires numbers { length mode.old.tags.slots + 1 < 2 ^ 64 }
    requires pending { mode.old.pending + 1 < 2 ^ 64 }
    ensures tag { result ≡ tag_for (Some (confirm_mode_state mode.old)) }
    ensures queued { mode.new.queued + 1 ≡ mode.old.queued }
    ensures room { mode.new.queued ≤ mode.new.tags.spare }
    ensures kept { KeepsTags mode.old mode.new }
    ensures mode { confirm_mode_state mode.new ≡ confirm_mode_after result (confirm_mode_state mode.old) }
    ensures tags { mode.new.tags.slots ≡ (if is_some result then mode.old.tags.slots ++ Some number ∷ [] else mode.old.tags.slots) }
    ensures pending { mode.new.pending ≡ (if is_some result then mode.old.pending + 1 else mode.old.pending) }
{
    mode.queued -= 1;
    if !mode.selected {
        return None;
    }
    mode.pending += 1;
    Some(mode.tags.push_reserved(number))
}

fn cell_for(channel: u16, tag: Option<u64>) -> Cell
    ensures { result ≡ cell_with channel tag }
{
    match tag {
        Some(tag) => Cell::Pending(channel, tag),
        None => Cell::Resolved(Outcome::NotRequested),
    }
}

/// Settles one tag of the channel, and says whether it was pending.
pub fn settle_tag(
    channel: u16,
    mode: &mut ConfirmMode,
    cells: &mut Packed<Cell>,
    tag: u64,
    outcome: Outcome,
) -> bool
    requires { Tied channel mode.old cells.old.slots }
    ensures found { result ≡ is_some (under tag mode.old.tags.slots) }
    ensures cells { cells.new.slots ≡ map (option_map (settled_cell channel (λ t. tag == t) outcome)) cells.old.slots }
    ensures tied { Tied channel mode.new cells.new.slots }
    ensures mode { confirm_mode_state mode.new ≡ confirm_mode_state mode.old }
    ensures pending { result ≡ true → mode.new.pending + 1 ≡ mode.old.pending }
    ensures as_many { result ≡ false → mode.new.pending ≡ mode.old.pending }
    ensures spare { cells.old.spare ≤ cells.new.spare }
    ensures room { KeepsTags mode.old mode.new }
{
    let Some(number) = mode.tags.take(tag) else {
        return false;
    };
    cells.set(number, Cell::Resolved(outcome));
    mode.pending -= 1;
    true
}

/// Settles the pending tags of the channel up to one, in rising order.
pub fn settle_through(
    channel: u16,
    mode: &mut ConfirmMode,
    cells: &mut Packed<Cell>,
    limit: u64,
    outcome: Outcome,
)
    requires { Tied channel mode.old cells.old.slots }
    ensures cells { cells.new.slots ≡ map (option_map (settled_cell channel (λ t. nat_le t limit) outcome)) cells.old.slots }
    ensures tied { Tied channel mode.new cells.new.slots }
    ensures mode { confirm_mode_state mode.new ≡ confirm_mode_state mode.old }
    ensures spare { cells.old.spare ≤ cells.new.spare }
    ensures room { KeepsTags mode.old mode.new }
{
    while let Some(tag) = mode.tags.first_number() {
        if tag > limit {
            break;
        }
        let _ = settle_tag(channel, mode, cells, tag, outcome);
    }
}

/// Rejects a publish of the channel that has not left: it gives up the room of its tag.
pub fn reject(
    channel: u16,
    mode: &mut ConfirmMode,
    cells: &mut Packed<Cell>,
    number: u64,
    error: Error,
)
    requires tied { Tied channel mode.old cells.old.slots }
    requires queued { under number cells.old.slots ≡ Some (Cell.Queued channel) }
    ensures cells { cells.new.slots ≡ with_under number (Some (Cell.Resolved (Outcome.Failed error))) cells.old.slots }
    ensures tied { Tied channel mode.new cells.new.slots }
    ensures mode { confirm_mode_state mode.new ≡ confirm_mode_state mode.old }
    ensures pending { mode.new.pending ≡ mode.old.pending }
    ensures spare { cells.old.spare ≤ cells.new.spare }
    ensures room { KeepsTags mode.old mode.new }
{
    mode.queued -= 1;
    cells.set(number, Cell::Resolved(Outcome::Failed(error)));
}

fn is_queued_on(channel: u16, cells: &Packed<Cell>, number: u64) -> bool
    ensures { Decides result (under number cells.now.slots ≡ Some (Cell.Queued channel)) }
{
    match cells.get(number) {
        Some(Cell::Queued(of)) => of == channel,
        _ => false,
    }
}

// Rejects the publish under a number, if it is one of the channel that has not left.
fn reject_if_queued(
    channel: u16,
    mode: &mut ConfirmMode,
    cells: &mut Packed<Cell>,
    number: u64,
    error: Error,
)
    requires { Tied channel mode.old cells.old.slots }
    ensures same { map (option_map (ended_cell channel error)) cells.new.slots ≡ map (option_map (ended_cell channel error)) cells.old.slots }
    ensures queued { (n : ℕ) → under n cells.new.slots ≡ Some (Cell.Queued channel) → (n ≢ number) × (under n cells.old.slots ≡ Some (Cell.Queued channel)) }
    ensures tied { Tied channel mode.new cells.new.slots }
    ensures mode { confirm_mode_state mode.new ≡ confirm_mode_state mode.old }
    ensures spare { cells.old.spare ≤ cells.new.spare }
    ensures room { KeepsTags mode.old mode.new }
{
    if !is_queued_on(channel, cells, number) {
        return;
    }
    reject(channel, mode, cells, number, error);
}

// Rejects every publish of the channel that has not left, from the last number down to the oldest of them.
fn reject_queued(channel: u16, mode: &mut ConfirmMode, cells: &mut Packed<Cell>, error: Error)
    requires { Tied channel mode.old cells.old.slots }
    ensures same { map (option_map (ended_cell channel error)) cells.new.slots ≡ map (option_map (ended_cell channel error)) cells.old.slots }
    ensures none { mode.new.queued ≡ 0 }
    ensures tied { Tied channel mode.new cells.new.slots }
    ensures mode { confirm_mode_state mode.new ≡ confirm_mode_state mode.old }
    ensures spare { cells.old.spare ≤ cells.new.spare }
    ensures room { KeepsTags mode.old mode.new }
{
    let mut number = cells.count();
    while mode.queued > 0 {
        reject_if_queued(channel, mode, cells, number, error);
        number -= 1;
    }
}

/// Ends the opening of the channel: all of it that is unresolved is resolved with the error.
pub fn end_opening(channel: u16, mode: &mut ConfirmMode, cells: &mut Packed<Cell>, error: Error)
    requires { Tied channel mode.old cells.old.slots }
    ensures cells { cells.new.slots ≡ map (option_map (ended_cell channel error)) cells.old.slots }
    ensures tied { Tied channel mode.new cells.new.slots }
    ensures mode { confirm_mode_state mode.new ≡ ended_confirm_mode (confirm_mode_state mode.old) }
    ensures spare { cells.old.spare ≤ cells.new.spare }
    ensures room { KeepsTags mode.old mode.new }
{
    reject_queued(channel, mode, cells, error);
    let last = mode.tags.count();
    settle_through(channel, mode, cells, last, Outcome::Failed(error));
    mode.asked = false;
    mode.limit = 0;
}
