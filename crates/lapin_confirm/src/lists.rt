//! The lists of a channel's returned messages (AMQP 0-9-1, `basic.return`), until they are given.
//!
//! A message is moved from list to list, never copied. Where one waits for a settlement there is room for it to be attached to
//! a confirm, so that a settlement takes no memory.

ghost use Rattle.std.specs.Prelude.{List, ◌≡◌, ℕ, ◌+◌, ◌<◌, ◌≤◌, [], true, false, OnOk, OnErr, IsOk, IfOk, length, slice_get, is_some};
ghost use Rattle.std.specs.Bool.{Decides};
ghost use Rattle.std.specs.VecDeque.{deque_len, deque_capacity};
ghost use Rattle.lapin_rules.specs.ReturnLists.{no_return_lists, arrived_in, attached_to, message_at, without, without_all, return_of, taken_out, set_by, renewed, drained_messages, drained_return_lists};
ghost use Rattle.std.specs.List.{filter};
ghost use Rattle.lapin_confirm.specs.Drain.{is_over, remaining, less_all};
ghost use Rattle.lapin_confirm.specs.declared.confirm_mode.ConfirmMode.{ConfirmMode as AConfirmMode};
ghost use Rattle.lapin_confirm.specs.Ties.{AllTied};
ghost use Rattle.lapin_confirm.specs.ReturnedMessages.{place_in, is_of as is_of_lem, HasPlace};

use crate::cell::Cell;
use crate::origin::Origin;
use crate::sweep::{Sweep, leave_one, pour, sweep_all};
use lapin_tables::Packed;
use lapin_types::{BasicReturnMessage, NoMemory};
use std::alloc::{AllocError, Global};
use std::collections::VecDeque;
use std::marker::Model;

/// The lists of a channel to which a message may come back. Contracts see them, and for how many more messages there is room.
#[derive(Drop)]
pub struct Lists {
    attached: VecDeque<(u64, BasicReturnMessage)>,
    waiting: VecDeque<BasicReturnMessage>,
    unconfirmed: VecDeque<BasicReturnMessage>,
    kept: VecDeque<BasicReturnMessage>,
    aside: VecDeque<u64>,
}

impl Model for Lists {
    ghost use Rattle.std.specs.Prelude.{◌-◌, ◌≤◌, ◌+◌};
    ghost use Rattle.std.specs.VecDeque.{deque_len, deque_capacity};
    ghost use Rattle.lapin_confirm.specs.ReturnedMessages.{ReturnedMessages, returned_messages_code};

    ghost Value = { ReturnedMessages };

    ghost coded = { returned_messages_code };

    ghost view = { λ a. record {
      return_lists = record { attached = a.attached.items; waiting = a.waiting.items; unconfirmed = a.unconfirmed.items; kept = a.kept.items; aside = a.aside.items };
      to_wait = deque_capacity a.waiting - deque_len a.waiting;
      to_attach = deque_capacity a.attached - deque_len a.attached - deque_len a.waiting;
      to_stay = deque_capacity a.unconfirmed - deque_len a.unconfirmed;
    } };

    ghost invariant = { λ a. deque_len a.attached + deque_len a.waiting ≤ deque_capacity a.attached };
}

impl Lists {
    /// No message. It takes no memory yet.
    pub fn new(alloc: Global) -> Lists
        ensures { result.return_lists ≡ no_return_lists }
    {
        Lists {
            attached: VecDeque::new(alloc),
            waiting: VecDeque::new(alloc),
            unconfirmed: VecDeque::new(alloc),
            kept: VecDeque::new(alloc),
            aside: VecDeque::new(alloc),
        }
    }

    /// Makes room for the next `arrive`. The messages stay, also where there is no memory.
    pub fn reserve(&mut self) -> Result<(), AllocError>
        ensures room { OnOk result (HasPlace self.new) }
        ensures same { self.new.return_lists ≡ self.old.return_lists }
        ensures place { HasPlace self.old → HasPlace self.new }
        ensures succeeds { HasPlace self.old → IsOk result }
    {
        self.waiting.reserve(1)?;
        self.attached.reserve(self.waiting.len() + 1)?;
        self.unconfirmed.reserve(1)
    }

    /// A message arrives, in the room that was made: it waits where the opening is selected.
    pub fn arrive(&mut self, selected: bool, message: BasicReturnMessage)
        requires { HasPlace self.old }
        ensures { self.new.return_lists ≡ arrived_in selected message self.old.return_lists }
    {
        if selected {
            self.waiting.push_back_reserved(message);
        } else {
            self.unconfirmed.push_back_reserved(message);
        }
    }

    /// Whether no message waits for a settlement.
    pub fn has_none_waiting(&self) -> bool
        ensures { Decides result (self.now.return_lists.waiting ≡ []) }
    {
        self.waiting.is_empty()
    }

    /// The oldest waiting message, if there is one, is attached to a confirm.
    pub fn attach(&mut self, number: u64)
        ensures return_lists { self.new.return_lists ≡ attached_to number self.old.return_lists }
        ensures room { HasPlace self.old → HasPlace self.new }
    {
        let Some(message) = self.waiting.pop_front() else {
            return;
        };
        self.attached.push_back_reserved((number, message));
    }

    /// Takes out the message that a confirm took, if it took one.
    pub fn take(&mut self, number: u64) -> Option<BasicReturnMessage>
        ensures message { result ≡ return_of number self.old.return_lists }
        ensures return_lists { self.new.return_lists ≡ taken_out number self.old.return_lists }
        ensures room { HasPlace self.old → HasPlace self.new }
    {
        taken_from(&mut self.attached, number)
    }

    /// Whether a confirm took a message, and still has it.
    pub fn holds(&self, number: u64) -> bool
        ensures { result ≡ is_some (return_of number self.now.return_lists) }
    {
        place_of(number, &self.attached).is_some()
    }

    /// The number of a confirm that was set aside unresolved joins those that stand aside.
    pub fn lay(&mut self, number: u64) -> Result<(), AllocError>
        ensures ok { OnOk result (self.new.return_lists ≡ set_by number false self.old.return_lists) }
        ensures err { OnErr result (self.new.return_lists ≡ self.old.return_lists) }
        ensures place { HasPlace self.old → HasPlace self.new }
    {
        self.aside.reserve(1)?;
        self.aside.push_back_reserved(number);
        Ok(())
    }

    /// Gives the unconfirmed messages, the kept ones, and those of confirms that stand aside and are over; and beside them the
    /// numbers of these confirms.
    pub fn drain(
        &mut self,
        alloc: Global,
        cells: &Packed<Cell>,
    ) -> Result<(Vec<BasicReturnMessage>, VecDeque<u64>), NoMemory>
        ensures given { IfOk result (λ r. r.0.items ≡ drained_messages (is_over cells.now.slots) self.old.return_lists) }
        ensures over { IfOk result (λ r. r.1.items ≡ filter (is_over cells.now.slots) self.old.return_lists.aside) }
        ensures return_lists { OnOk result (self.new.return_lists ≡ drained_return_lists (is_over cells.now.slots) self.old.return_lists) }
        ensures err { OnErr result (self.new.return_lists ≡ self.old.return_lists) }
        ensures place { HasPlace self.old → HasPlace self.new }
    {
        let most = total(self.unconfirmed.len(), self.kept.len(), self.aside.len())?;
        let mut sweep = Sweep::with_room(alloc, most, self.aside.len())?;
        pour(&mut self.unconfirmed, &mut sweep.given);
        pour(&mut self.kept, &mut sweep.given);
        sweep_all(&mut self.aside, cells, &mut self.attached, &mut sweep);
        let Sweep { left, over, given } = sweep;
        self.aside = left;
        Ok((given, over))
    }

    /// A new opening begins: nothing waits, is kept or stands aside. Messages of confirms that were not asked for yet stay.
    /// Of those that stand aside and are resolved nothing is kept any more.
    pub fn renew(&mut self, cells: &mut Packed<Cell>, origins: &mut Packed<Origin>)
        ensures return_lists { self.new.return_lists ≡ renewed self.old.return_lists }
        ensures place { HasPlace self.old → HasPlace self.new }
        ensures remains { remaining cells.new.slots origins.new.slots ≡ less_all self.old.return_lists.aside (remaining cells.old.slots origins.old.slots) }
        ensures tied { (es : List (ℕ × AConfirmMode)) → AllTied es cells.old.slots → AllTied es cells.new.slots }
        ensures counts { (length cells.new.slots ≡ length cells.old.slots) × (length origins.new.slots ≡ length origins.old.slots) }
        ensures kept { (cells.old.spare ≤ cells.new.spare) × (origins.old.spare ≤ origins.new.spare) }
    {
        forget(&mut self.attached, &mut self.aside, cells, origins);
        self.waiting.clear();
        self.unconfirmed.clear();
        self.kept.clear();
    }

    /// The message of a confirm that was set aside resolved, if it took one, is kept.
    pub fn keep(&mut self, number: u64) -> Result<(), AllocError>
        ensures ok { OnOk result (self.new.return_lists ≡ set_by number true self.old.return_lists) }
        ensures err { OnErr result (self.new.return_lists ≡ self.old.return_lists) }
        ensures place { HasPlace self.old → HasPlace self.new }
    {
        self.kept.reserve(1)?;
        if let Some(message) = taken_from(&mut self.attached, number) {
            self.kept.push_back_reserved(message);
        }
        Ok(())
    }
}

/// Takes out the message that a confirm took, if it took one. It walks those that were taken and not given.
pub fn taken_from(
    attached: &mut VecDeque<(u64, BasicReturnMessage)>,
    number: u64,
) -> Option<BasicReturnMessage>
    ensures message { result ≡ message_at number attached.old.items }
    ensures items { attached.new.items ≡ without number attached.old.items }
    ensures room { (deque_len attached.new ≤ deque_len attached.old) × (deque_capacity attached.new ≡ deque_capacity attached.old) }
{
    let Some(place) = place_of(number, attached) else {
        return None;
    };
    match attached.remove(place) {
        Some((_number, message)) => Some(message),
        None => None,
    }
}

// Takes out the messages of these confirms. Of those that are resolved nothing is kept any more.
fn forget(
    attached: &mut VecDeque<(u64, BasicReturnMessage)>,
    numbers: &mut VecDeque<u64>,
    cells: &mut Packed<Cell>,
    origins: &mut Packed<Origin>,
)
    ensures items { attached.new.items ≡ without_all numbers.old.items attached.old.items }
    ensures none { numbers.new.items ≡ [] }
    ensures room { (deque_len attached.new ≤ deque_len attached.old) × (deque_capacity attached.new ≡ deque_capacity attached.old) }
    ensures remains { remaining cells.new.slots origins.new.slots ≡ less_all numbers.old.items (remaining cells.old.slots origins.old.slots) }
    ensures tied { (es : List (ℕ × AConfirmMode)) → AllTied es cells.old.slots → AllTied es cells.new.slots }
    ensures counts { (length cells.new.slots ≡ length cells.old.slots) × (length origins.new.slots ≡ length origins.old.slots) }
    ensures kept { (cells.old.spare ≤ cells.new.spare) × (origins.old.spare ≤ origins.new.spare) }
{
    while let Some(number) = numbers.pop_front() {
        if let Some(message) = taken_from(attached, number) {
            let_go(message);
        }
        leave_one(cells, origins, number);
    }
}

/// Lets a message go.
pub fn let_go(_message: BasicReturnMessage) {}

/// Lets a message go, if there is one.
pub fn let_go_any(_message: Option<BasicReturnMessage>) {}

// How many these are together.
fn total(first: usize, second: usize, third: usize) -> Result<usize, NoMemory>
    ensures { IfOk result (λ n. n ≡ first + second + third) }
{
    let Some(two) = first.checked_add(second) else {
        return Err(NoMemory);
    };
    match two.checked_add(third) {
        Some(most) => Ok(most),
        None => Err(NoMemory),
    }
}

// The place of the message that a confirm took.
fn place_of(number: u64, attached: &VecDeque<(u64, BasicReturnMessage)>) -> Option<usize>
    ensures { result ≡ place_in number attached.now.items }
{
    let mut place = 0;
    while place < attached.len() {
        if is_of(number, attached, place) {
            return Some(place);
        }
        place += 1;
    }
    None
}

fn is_of(number: u64, attached: &VecDeque<(u64, BasicReturnMessage)>, place: usize) -> bool
    ensures { result ≡ is_of_lem number (slice_get attached.now.items place) }
{
    match attached.get(place) {
        Some(message) => message.0 == number,
        None => false,
    }
}
