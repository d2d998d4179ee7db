//! One ticket's slot, and what becomes of it: its publish begins, its last frame leaves, it is answered, it fails.
//!
//! What many tickets get at once stands in `ends`. A slot is changed where it stands.

ghost use Rattle.std.specs.Prelude.{◌≡◌, ◌≤◌, Some, None, Err};
ghost use Rattle.lapin_rules.specs.TicketReadings as mark;
ghost use Rattle.lapin_ticket.specs.Slots.{after_mark, left_slot};
ghost use Rattle.lapin_ticket.specs.Packed.{held_in};
ghost use Rattle.lapin_tables.specs.Numbered.{under, with_under};

use crate::{Held, Slot};
use lapin_rules::AtLeaving;
use lapin_tables::Numbered;
use lapin_types::Error;

// The method frame of the ticket's publish leaves.
pub(crate) fn begin(slots: &mut Numbered<Slot>, number: u64)
    ensures slots { slots.new.slots ≡ after_mark slots.old.slots (mark.Begun number) }
    ensures room { slots.new.spare ≡ slots.old.spare }
{
    if let Some(slot) = slots.get_mut(number) {
        if let Slot::Open(_, _, begun) = slot {
            *begun = true;
        }
    }
}

// The last frame of the ticket's call leaves, which may answer it.
pub(crate) fn leave(slots: &mut Numbered<Slot>, number: u64)
    ensures slots { slots.new.slots ≡ after_mark slots.old.slots (mark.LastLeft number) }
    ensures room { slots.new.spare ≡ slots.old.spare }
{
    if let Some(slot) = slots.get_mut(number) {
        leave_slot(slot);
    }
}

// An open ticket is answered.
pub(crate) fn answer(slots: &mut Numbered<Slot>, number: u64, answer: Held)
    ensures slots { slots.new.slots ≡ after_mark slots.old.slots (mark.Answered number answer) }
    ensures room { slots.new.spare ≡ slots.old.spare }
{
    if let Some(slot) = slots.get_mut(number) {
        if let Slot::Open(..) = slot {
            *slot = Slot::Held(answer);
        }
    }
}

// An open ticket fails.
pub(crate) fn fail(slots: &mut Numbered<Slot>, number: u64, error: Error)
    ensures slots { slots.new.slots ≡ after_mark slots.old.slots (mark.Answered number (Err error)) }
    ensures room { slots.new.spare ≡ slots.old.spare }
{
    answer(slots, number, Held::failed(error));
}

// Takes the answer of a ticket that has one out, and its slot with it.
pub(crate) fn take_held(slots: &mut Numbered<Slot>, number: u64) -> Option<Held>
    ensures answer { result ≡ held_in (under number slots.old.slots) }
    ensures slots { slots.new.slots ≡ with_under number None slots.old.slots }
    ensures room { slots.old.spare ≤ slots.new.spare }
{
    match slots.take(number) {
        Some(Slot::Held(answer)) => Some(answer),
        _ => None,
    }
}

// An open slot holds the answer that its last frame's leaving gives, if it gives one.
fn leave_slot(slot: &mut Slot)
    ensures { Some slot.new ≡ left_slot (Some slot.old) }
{
    if let Slot::Open(_, at_leaving, _) = slot {
        match *at_leaving {
            AtLeaving::Nothing => {}
            AtLeaving::Done => *slot = Slot::Held(Held::done()),
            AtLeaving::Confirm(number) => *slot = Slot::Held(Held::confirm(number)),
            AtLeaving::Yes => *slot = Slot::Held(Held::yes()),
        }
    }
}
