//! A list of returned messages, in order. Which messages it holds is said by the call that gives it.

ghost use Rattle.std.specs.Prelude.{◌≡◌, IfOk, length, option_map, slice_get};
ghost use Rattle.std.specs.Bool.{Decides};

use crate::message::BasicReturnMessage;
use lapin_values::NoMemory;
use std::alloc::Global;
use std::marker::Model;

/// Returned messages, in order. A contract sees them as a list.
#[derive(Debug)]
pub struct ReturnedList {
    messages: Vec<BasicReturnMessage>,
}

impl Drop for ReturnedList {
    fn drop(self) {
        let ReturnedList { messages: _ } = self;
    }
}

impl Model for ReturnedList {
    ghost use Rattle.std.specs.Prelude.{List};
    ghost use Rattle.std.specs.Coded.{coded_list};
    ghost use Rattle.lapin_types.specs.declared.message.BasicReturnMessage.{BasicReturnMessage};
    ghost use Rattle.lapin_types.specs.contracts.message.BasicReturnMessage as message;

    ghost Value = { List BasicReturnMessage };

    ghost coded = { coded_list message.the_row.coded };

    ghost view = { λ l. l.messages.items };
}

impl ReturnedList {
    /// The list of these messages, in their order. It takes no memory.
    pub fn new(messages: Vec<BasicReturnMessage>) -> ReturnedList
        ensures { result ≡ messages.items }
    {
        ReturnedList { messages }
    }

    /// How many messages there are.
    pub fn len(&self) -> usize
        ensures { result ≡ length self.now }
    {
        self.messages.len()
    }

    /// The message at a place, counted from 0; None behind the last one.
    pub fn at(&self, place: usize) -> Option<&BasicReturnMessage>
        ensures { option_map (λ message. message.now) result ≡ slice_get self.now place }
    {
        self.messages.get(place)
    }

    /// An equal list, in memory of its own.
    pub fn try_clone(&self, alloc: Global) -> Result<ReturnedList, NoMemory>
        ensures { IfOk result (λ copy. copy ≡ self.now) }
    {
        let mut messages = Vec::new(alloc);
        for message in &self.messages {
            messages.push(message.try_clone(alloc)?)?;
        }
        Ok(ReturnedList { messages })
    }

    /// Whether two lists are equal, number and use of the messages' ackers too.
    pub fn same(&self, other: &ReturnedList) -> bool
        ensures { Decides result (self.now ≡ other.now) }
    {
        same_messages(&self.messages, &other.messages)
    }
}

fn same_messages(left: &[BasicReturnMessage], right: &[BasicReturnMessage]) -> bool
    ensures { Decides result (left.now ≡ right.now) }
{
    if left.len() != right.len() {
        return false;
    }
    for i in 0..left.len() {
        if !left[i].same(&right[i]) {
            return false;
        }
    }
    true
}
