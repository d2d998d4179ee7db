//! An answer that is held until it is given.
//!
//! An answer that is wide stands in a box, so that each slot is narrow, and the box is made before anything changes: a `Place`.
//! Answers that many calls get need none. Nothing here says which call gets which answer.

ghost use Rattle.std.specs.Prelude.{◌≡◌, Some, Ok, Err, IfSome};
ghost use Rattle.lapin_types.specs.declared.answer.Answer.TheVariants as answer;
ghost use Rattle.lapin_ticket.specs.Packed.{read_mark};

use lapin_types::{Answer, Error, NoMemory};
use std::alloc::Global;
use std::marker::Model;

/// Room for one answer, whichever it is.
pub struct Place {
    room: Box<Answer>,
}

impl Drop for Place {
    fn drop(self) {
        let Place { room: _ } = self;
    }
}

impl Place {
    /// Room for an answer.
    ///
    /// # Errors
    /// `NoMemory` alone.
    pub fn new(alloc: Global) -> Result<Place, NoMemory> {
        Ok(Place {
            room: Box::new(alloc, Answer::Done)?,
        })
    }

    // The box, with an answer in it.
    fn filled(self, answer: Answer) -> Box<Answer>
        ensures { result.value ≡ answer }
    {
        let Place { mut room } = self;
        *room = answer;
        room
    }
}

// Where an answer stands: in the slot itself, or in a box of its own.
#[derive(Debug, Drop)]
enum Stored {
    Done,
    Yes,
    Confirm(u64),
    Channel(u16),
    Failed(Error),
    Boxed(Box<Answer>),
}

/// An answer, or the error with which its call failed. A contract sees the result that it is.
#[derive(Debug)]
pub struct Held {
    kept: Stored,
}

impl Drop for Held {
    fn drop(self) {
        let Held { kept: _ } = self;
    }
}

impl Model for Held {
    ghost use Rattle.std.specs.Prelude.{Result};
    ghost use Rattle.std.specs.Coded.{coded_result};
    ghost use Rattle.lapin_types.specs.declared.answer.Answer.{Answer as AnAnswer};
    ghost use Rattle.lapin_types.specs.declared.Error.{Error as AnError};
    ghost use Rattle.lapin_types.specs.contracts.answer.Answer as answer_row;
    ghost use Rattle.lapin_types.specs.contracts.Error as error_row;
    ghost use Rattle.lapin_ticket.specs.Stored.{held_by};

    ghost Value = { Result AnAnswer AnError };

    ghost coded = { coded_result answer_row.the_row.coded error_row.the_row.coded };

    ghost view = { λ h. held_by h.kept };
}

impl Held {
    /// A call that is done and has nothing to tell. It takes no memory.
    pub fn done() -> Held
        ensures { result ≡ Ok answer.Done }
    {
        Held { kept: Stored::Done }
    }

    /// An acknowledgement that has left. It takes no memory.
    pub fn yes() -> Held
        ensures { result ≡ Ok answer.Yes }
    {
        Held { kept: Stored::Yes }
    }

    /// The last frame of the publish with this confirm number has left. It takes no memory.
    pub fn confirm(number: u64) -> Held
        ensures { result ≡ Ok (answer.Confirm number) }
    {
        Held {
            kept: Stored::Confirm(number),
        }
    }

    /// A call that failed. It takes no memory.
    pub fn failed(error: Error) -> Held
        ensures { result ≡ Err error }
    {
        Held {
            kept: Stored::Failed(error),
        }
    }

    /// Any answer, in the room that was made for it. That of an opening needs none, so it takes none while nobody asks for it.
    pub fn in_place(place: Place, answer: Answer) -> Held
        ensures { result ≡ Ok answer }
    {
        if let Answer::Channel(channel) = answer {
            return Held {
                kept: Stored::Channel(channel),
            };
        }
        Held {
            kept: Stored::Boxed(place.filled(answer)),
        }
    }

    /// The mark of the answer, where it takes no memory and is no error: 1 where the call is done, 2 where an acknowledgement has
    /// left, from 3 on the confirm that is so many behind the first one; none where that is too far.
    pub(crate) fn mark(&self, first: u64) -> Option<u8>
        ensures { IfSome result (λ m. read_mark first m ≡ Some self.now) }
    {
        match &self.kept {
            Stored::Done => Some(1),
            Stored::Yes => Some(2),
            Stored::Confirm(number) => confirm_mark(first, *number),
            Stored::Channel(_) | Stored::Failed(_) | Stored::Boxed(_) => None,
        }
    }

    /// The answer of a mark; none for 0.
    pub(crate) fn of_mark(first: u64, mark: u8) -> Option<Held>
        ensures { result ≡ read_mark first mark }
    {
        if mark == 0 {
            return None;
        }
        if mark == 1 {
            return Some(Held::done());
        }
        if mark == 2 {
            return Some(Held::yes());
        }
        Some(Held::confirm(first.wrapping_add(u64::from(mark - 3))))
    }

    /// The number of the confirm, where the answer is one.
    pub(crate) fn confirm_number(&self) -> Option<u64> {
        match &self.kept {
            Stored::Confirm(number) => Some(*number),
            _ => None,
        }
    }

    /// The answer itself.
    pub fn into_answer(self) -> Result<Answer, Error>
        ensures { result ≡ self }
    {
        let Held { kept } = self;
        match kept {
            Stored::Done => Ok(Answer::Done),
            Stored::Yes => Ok(Answer::Yes),
            Stored::Confirm(number) => Ok(Answer::Confirm(number)),
            Stored::Channel(channel) => Ok(Answer::Channel(channel)),
            Stored::Failed(error) => Err(error),
            Stored::Boxed(room) => Ok(Box::into_inner(room)),
        }
    }
}

// The mark of a confirm, where it is not too far behind the first one.
fn confirm_mark(first: u64, number: u64) -> Option<u8>
    ensures { IfSome result (λ m. read_mark first m ≡ Some (Ok (answer.Confirm number))) }
{
    if number < first {
        return None;
    }
    let away = number - first;
    if away > 252 {
        return None;
    }
    Some(away as u8 + 3)
}
