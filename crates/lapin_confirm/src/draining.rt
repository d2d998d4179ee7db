//! A drain: the returned messages of a channel are given, and nothing is kept of confirms that were set aside and are over.

ghost use Rattle.std.specs.Prelude.{◌≡◌, ℕ, ◌≤◌, List, length, OnOk, OnErr, IfOk};
ghost use Rattle.lapin_confirm.specs.declared.confirm_mode.ConfirmMode.{ConfirmMode as AConfirmMode};
ghost use Rattle.lapin_rules.specs.ConfirmMarks as mark;
ghost use Rattle.lapin_confirm.specs.Machine.{after_mark};
ghost use Rattle.lapin_confirm.specs.Drain.{drained_on, remaining, less_all};
ghost use Rattle.lapin_confirm.specs.Ties.{AllTied};

use crate::cell::Cell;
use crate::confirms::Confirms;
use crate::early::take_early;
use crate::origin::Origin;
use crate::sweep::leave_one;
use lapin_tables::Packed;
use lapin_types::{NoMemory, ReturnedList};
use std::alloc::Global;
use std::collections::VecDeque;

impl Confirms {
    /// Gives the returned messages of a channel, each once: those that are unconfirmed, then those that were kept, then those of
    /// confirms that were set aside and are resolved by now, in the order of setting aside. Messages that wait for a settlement stay,
    /// as do the confirms that are unresolved. Where there is no memory nothing changes.
    pub fn drain(&mut self, alloc: Global, channel: u16) -> Result<ReturnedList, NoMemory>
        ensures given { IfOk result (λ list. list ≡ drained_on channel self.old.what) }
        ensures ok { OnOk result (self.new.what ≡ after_mark self.old.what (mark.Drained channel)) }
        ensures err { OnErr result (self.new.what ≡ self.old.what) }
        ensures spare { self.new.spare ≡ self.old.spare }
    {
        let Some(returned_messages) = self.returned_by_channel.get_mut(channel) else {
            return Ok(ReturnedList::new(take_early(alloc, channel, &mut self.early)?));
        };
        match returned_messages.drain(alloc, &self.cells) {
            Err(_) => Err(NoMemory),
            Ok((messages, mut over)) => {
                leave_all(&mut self.cells, &mut self.origins, &mut over);
                Ok(ReturnedList::new(messages))
            }
        }
    }
}

// Of these confirms nothing is kept any more, if they are resolved.
fn leave_all(cells: &mut Packed<Cell>, origins: &mut Packed<Origin>, over: &mut VecDeque<u64>)
    ensures remains { remaining cells.new.slots origins.new.slots ≡ less_all over.old.items (remaining cells.old.slots origins.old.slots) }
    ensures tied { (es : List (ℕ × AConfirmMode)) → AllTied es cells.old.slots → AllTied es cells.new.slots }
    ensures counts { (length cells.new.slots ≡ length cells.old.slots) × (length origins.new.slots ≡ length origins.old.slots) }
    ensures spare { (cells.old.spare ≤ cells.new.spare) × (origins.old.spare ≤ origins.new.spare) }
{
    while let Some(number) = over.pop_front() {
        leave_one(cells, origins, number);
    }
}
