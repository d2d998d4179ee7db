//! The returned messages of a channel (AMQP 0-9-1, `basic.return`), whose lists take no memory before they are needed.
//!
//! Most channels never publish, so the lists stand in a box that is made with the first room for a message, or the first confirm that
//! is set aside.

ghost use Rattle.std.specs.Prelude.{List, ◌≡◌, ℕ, ◌≤◌, [], true, false, OnOk, OnErr, IsOk, IfOk, length, is_some};
ghost use Rattle.std.specs.Bool.{Decides};
ghost use Rattle.std.specs.List.{filter};
ghost use Rattle.lapin_rules.specs.ReturnLists.{no_return_lists, arrived_in, attached_to, return_of, taken_out, set_by, renewed, drained_messages, drained_return_lists};
ghost use Rattle.lapin_confirm.specs.Drain.{is_over, remaining, less_all};
ghost use Rattle.lapin_confirm.specs.declared.confirm_mode.ConfirmMode.{ConfirmMode as AConfirmMode};
ghost use Rattle.lapin_confirm.specs.Ties.{AllTied};
ghost use Rattle.lapin_confirm.specs.ReturnedMessages.{HasPlace};

use crate::cell::Cell;
use crate::lists::{Lists, let_go};
use crate::origin::Origin;
use lapin_tables::Packed;
use lapin_types::{BasicReturnMessage, NoMemory};
use std::alloc::{AllocError, Global};
use std::collections::VecDeque;
use std::marker::Model;

/// The returned messages of a channel. Contracts see its lists, and for how many more messages there is room.
#[derive(Drop)]
pub struct Returned {
    alloc: Global,
    lists: Option<Box<Lists>>,
}

impl Model for Returned {
    ghost use Rattle.lapin_confirm.specs.ReturnedMessages.{ReturnedMessages, returned_messages_code, boxed};

    ghost Value = { ReturnedMessages };

    ghost coded = { returned_messages_code };

    ghost view = { λ a. boxed a.lists };
}

impl Returned {
    /// No message. It takes no memory yet.
    pub fn new(alloc: Global) -> Returned
        ensures { result.return_lists ≡ no_return_lists }
    {
        Returned { alloc, lists: None }
    }

    /// No message, with room for the first one where that is promised.
    pub fn with_room(alloc: Global, promised: bool) -> Result<Returned, AllocError>
        ensures made { IfOk result (λ returned_messages. (returned_messages.return_lists ≡ no_return_lists) × (promised ≡ true → HasPlace returned_messages)) }
        ensures succeeds { promised ≡ false → IsOk result }
    {
        let mut returned_messages = Returned::new(alloc);
        if promised {
            returned_messages.reserve()?;
        }
        Ok(returned_messages)
    }

    /// Makes room for the next `arrive`. The messages stay, also where there is no memory.
    pub fn reserve(&mut self) -> Result<(), AllocError>
        ensures room { OnOk result (HasPlace self.new) }
        ensures same { self.new.return_lists ≡ self.old.return_lists }
        ensures place { HasPlace self.old → HasPlace self.new }
        ensures succeeds { HasPlace self.old → IsOk result }
    {
        if let Some(lists) = &mut self.lists {
            return lists.reserve();
        }
        let mut lists = Lists::new(self.alloc);
        lists.reserve()?;
        self.lists = Some(Box::new(self.alloc, lists)?);
        Ok(())
    }

    /// A message arrives, in the room that was made: it waits where the opening is selected.
    pub fn arrive(&mut self, selected: bool, message: BasicReturnMessage)
        requires { HasPlace self.old }
        ensures { self.new.return_lists ≡ arrived_in selected message self.old.return_lists }
    {
        match &mut self.lists {
            Some(lists) => lists.arrive(selected, message),
            None => let_go(message),
        }
    }

    /// A message arrives. Where there is no memory it is gone, and nothing else changes.
    pub fn receive(&mut self, selected: bool, message: BasicReturnMessage) -> Result<(), AllocError>
        ensures ok { OnOk result (self.new.return_lists ≡ arrived_in selected message self.old.return_lists) }
        ensures err { OnErr result (self.new.return_lists ≡ self.old.return_lists) }
        ensures place { OnErr result (HasPlace self.old → HasPlace self.new) }
        ensures succeeds { HasPlace self.old → IsOk result }
    {
        match self.reserve() {
            Ok(()) => {
                self.arrive(selected, message);
                Ok(())
            }
            Err(error) => {
                let_go(message);
                Err(error)
            }
        }
    }

    /// Whether no message waits for a settlement.
    pub fn has_none_waiting(&self) -> bool
        ensures { Decides result (self.now.return_lists.waiting ≡ []) }
    {
        match &self.lists {
            Some(lists) => lists.has_none_waiting(),
            None => true,
        }
    }

    /// The oldest waiting message, if there is one, is attached to a confirm.
    pub fn attach(&mut self, number: u64)
        ensures return_lists { self.new.return_lists ≡ attached_to number self.old.return_lists }
        ensures room { HasPlace self.old → HasPlace self.new }
    {
        if let Some(lists) = &mut self.lists {
            lists.attach(number);
        }
    }

    /// Takes out the message that a confirm took, if it took one.
    pub fn take(&mut self, number: u64) -> Option<BasicReturnMessage>
        ensures message { result ≡ return_of number self.old.return_lists }
        ensures return_lists { self.new.return_lists ≡ taken_out number self.old.return_lists }
        ensures room { HasPlace self.old → HasPlace self.new }
    {
        match &mut self.lists {
            Some(lists) => lists.take(number),
            None => None,
        }
    }

    /// Whether a confirm took a message, and still has it.
    pub fn holds(&self, number: u64) -> bool
        ensures { result ≡ is_some (return_of number self.now.return_lists) }
    {
        match &self.lists {
            Some(lists) => lists.holds(number),
            None => false,
        }
    }

    /// The number of a confirm that was set aside unresolved joins those that stand aside.
    pub fn lay(&mut self, number: u64) -> Result<(), AllocError>
        ensures ok { OnOk result (self.new.return_lists ≡ set_by number false self.old.return_lists) }
        ensures err { OnErr result (self.new.return_lists ≡ self.old.return_lists) }
        ensures place { HasPlace self.old → HasPlace self.new }
    {
        if let Some(lists) = &mut self.lists {
            return lists.lay(number);
        }
        let mut lists = Lists::new(self.alloc);
        lists.lay(number)?;
        self.lists = Some(Box::new(self.alloc, lists)?);
        Ok(())
    }

    /// A confirm is set aside: its message is kept where it is resolved, else its number stands aside.
    pub fn put_by(&mut self, number: u64, resolved: bool) -> Result<(), AllocError>
        ensures ok { OnOk result (self.new.return_lists ≡ set_by number resolved self.old.return_lists) }
        ensures err { OnErr result (self.new.return_lists ≡ self.old.return_lists) }
        ensures place { HasPlace self.old → HasPlace self.new }
    {
        if resolved {
            self.keep(number)
        } else {
            self.lay(number)
        }
    }

    /// Gives the unconfirmed messages, the kept ones, and those of confirms that stand aside and are over; and beside them the
    /// numbers of these confirms.
    pub fn drain(
        &mut self,
        alloc: Global,
        cells: &Packed<Cell>,
    ) -> Result<(Vec<BasicReturnMessage>, VecDeque<u64>), NoMemory>
        ensures given { IfOk result (λ r. r.0.items ≡ drained_messages (is_over cells.now.slots) self.old.return_lists) }
        ensures over { IfOk result (λ r. r.1.items ≡ filter (is_over cells.now.slots) self.old.return_lists.aside) }
        ensures return_lists { OnOk result (self.new.return_lists ≡ drained_return_lists (is_over cells.now.slots) self.old.return_lists) }
        ensures err { OnErr result (self.new.return_lists ≡ self.old.return_lists) }
        ensures place { HasPlace self.old → HasPlace self.new }
    {
        match &mut self.lists {
            Some(lists) => lists.drain(alloc, cells),
            None => Ok((Vec::new(alloc), VecDeque::new(alloc))),
        }
    }

    /// A new opening begins: nothing waits, is kept or stands aside. Messages of confirms that were not asked for yet stay.
    /// Of those that stand aside and are resolved nothing is kept any more.
    pub fn renew(&mut self, cells: &mut Packed<Cell>, origins: &mut Packed<Origin>)
        ensures return_lists { self.new.return_lists ≡ renewed self.old.return_lists }
        ensures place { HasPlace self.old → HasPlace self.new }
        ensures remains { remaining cells.new.slots origins.new.slots ≡ less_all self.old.return_lists.aside (remaining cells.old.slots origins.old.slots) }
        ensures tied { (es : List (ℕ × AConfirmMode)) → AllTied es cells.old.slots → AllTied es cells.new.slots }
        ensures counts { (length cells.new.slots ≡ length cells.old.slots) × (length origins.new.slots ≡ length origins.old.slots) }
        ensures kept { (cells.old.spare ≤ cells.new.spare) × (origins.old.spare ≤ origins.new.spare) }
    {
        if let Some(lists) = &mut self.lists {
            lists.renew(cells, origins);
        }
    }

    /// The message of a confirm that was set aside resolved, if it took one, is kept.
    pub fn keep(&mut self, number: u64) -> Result<(), AllocError>
        ensures ok { OnOk result (self.new.return_lists ≡ set_by number true self.old.return_lists) }
        ensures err { OnErr result (self.new.return_lists ≡ self.old.return_lists) }
        ensures place { HasPlace self.old → HasPlace self.new }
    {
        match &mut self.lists {
            Some(lists) => lists.keep(number),
            None => Ok(()),
        }
    }
}
