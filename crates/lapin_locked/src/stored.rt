//! An entry as the history and a caller's log hold it together: a step is stored once, and neither its event nor its record is copied.
//!
//! What a step answers stands in `answering`; who puts entries into a history stands in `locked`, who puts them into a log in
//! `lapin_shared`.

ghost use Rattle.std.specs.Prelude.{◌≡◌, ◌<◌, ◌^◌, Some, None, IfOk, OnOk, OnErr};
ghost use Rattle.std.specs.Option.{option_copied};
ghost use Rattle.lapin_types.specs.declared.record.Record.{Record as ARecord};
ghost use Rattle.lapin_types.specs.declared.record.Record.TheVariants as record_;
ghost use Rattle.lapin_machine.specs.World.{told_by, next};
ghost use Rattle.lapin_machine.specs.Numbers.{HasNumbersFor};
ghost use Rattle.lapin_locked.specs.UnderLock.{entry};
ghost use Rattle.lapin_locked.specs.Known.{told};

use crate::answering::answer_event;
use crate::entry::{Entry, Told};
use lapin_session::Session;
use lapin_types::{Event, NoMemory, Record};
use std::alloc::Global;
use std::marker::Model;
use std::sync::{Arc, Wait};

/// An entry of the history. Contracts see the entry.
pub struct Stored {
    entry: Arc<Entry, Global>,
}

impl Drop for Stored {
    fn drop(self) {
        let Stored { entry: _ } = self;
    }
}

impl Model for Stored {
    ghost use Rattle.lapin_locked.specs.declared.entry.Entry.{Entry};
    ghost use Rattle.std.specs.Arc.{arc_value};

    ghost Value = { Entry };

    ghost use Rattle.lapin_locked.specs.contracts.entry.Entry as entry_row;

    ghost coded = { entry_row.the_row.coded };

    ghost view = { λ a. arc_value a.entry };
}

impl Stored {
    /// The entry of a step that is not made yet, with `NoFrame` in place of its record.
    pub(crate) fn unanswered(alloc: Global, caller: u64, event: Event) -> Result<Stored, NoMemory>
        ensures { IfOk result (λ s. s ≡ entry caller event record_.NoFrame) }
    {
        let entry = Entry {
            caller,
            event,
            answer: Record::NoFrame,
        };
        match Arc::new(alloc, entry) {
            Ok(entry) => Ok(Stored { entry }),
            Err(refused) => {
                drop(refused);
                Err(NoMemory)
            }
        }
    }

    /// Makes the step that the entry's event asks for, and puts its record into the entry, which nobody else holds yet.
    ///
    /// # Errors
    /// `NoMemory`. The session is as it was then.
    pub(crate) fn meet(&mut self, alloc: Global, session: &mut Session) -> Result<(), NoMemory>
        requires { HasNumbersFor 1 session.old }
        ensures told { OnOk result (self.new ≡ entry self.old.caller self.old.event (told_by session.old self.old.event)) }
        ensures ok { OnOk result (session.new ≡ next session.old self.old.event) }
        ensures err { OnErr result (session.new ≡ session.old) }
    {
        match Arc::get_mut(&mut self.entry) {
            Some(entry) => answer_event(alloc, session, &entry.event, &mut entry.answer),
            None => Err(NoMemory),
        }
    }

    /// The same entry once more. No run has so many that the first look finds none.
    pub(crate) fn again<R: Wait>(&self, rt: &R) -> Stored
        ensures { result ≡ self.now }
    {
        for _ in rt.forever() {
            if let Ok(entry) = Arc::try_clone(&self.entry) {
                return Stored { entry };
            }
        }
        unreachable!()
    }

    /// The entry.
    pub fn entry(&self) -> &Entry
        ensures { result.now ≡ self.now }
    {
        &self.entry
    }
}

/// An entry of a log, with its place. Contracts see what the caller knows of the step: its record only where it was read.
pub struct Logged {
    // Twice the place, and one more where the record was read: a log is as long as its caller's steps.
    mark: u64,
    stored: Stored,
}

impl Drop for Logged {
    fn drop(self) {
        let Logged { mark: _, stored: _ } = self;
    }
}

impl Model for Logged {
    ghost use Rattle.lapin_locked.specs.declared.entry.Told.{Told};
    ghost use Rattle.std.specs.Prelude.{◌/◌, ◌%◌, ◌==◌};
    ghost use Rattle.lapin_locked.specs.Known.{known};

    ghost Value = { Told };

    ghost use Rattle.lapin_locked.specs.contracts.entry.Told as told_row;

    ghost coded = { told_row.the_row.coded };

    ghost view = { λ a. known (a.mark / 2) (a.mark % 2 == 1) a.stored };
}

impl Logged {
    /// The entry at that place, whose record the caller knows. Each step of a caller puts one into its log.
    pub fn new(place: u64, stored: Stored) -> Logged
        requires { place < 2 ^ 63 }
        ensures { result ≡ told place stored.event (Some stored.answer) }
    {
        Logged {
            mark: 2 * place + 1,
            stored,
        }
    }

    /// Where the step stands in the history, from 1.
    pub fn place(&self) -> u64
        ensures { result ≡ self.now.place }
    {
        self.mark / 2
    }

    /// What it asked of the session.
    pub fn event(&self) -> &Event
        ensures { result.now ≡ self.now.event }
    {
        &self.stored.entry().event
    }

    /// What the session answered. `None` where there was no memory for the copy that was asked for; `Caller::fetch` asks again.
    pub fn answer(&self) -> Option<&Record>
        ensures { option_copied result ≡ self.now.answer }
    {
        if self.mark % 2 == 1 {
            Some(&self.stored.entry().answer)
        } else {
            None
        }
    }

    /// A copy of the entry with its record, which is known from then on. Of an entry of a caller's log, `Caller::fetch` gives it.
    ///
    /// # Errors
    /// `NoMemory`. The entry is as it was then.
    pub fn tell(&mut self, alloc: Global) -> Result<Told, NoMemory>
        ensures told { IfOk result (λ t. (r : ARecord) × (t ≡ told self.old.place self.old.event (Some r)) × (self.new ≡ told self.old.place self.old.event (Some r))) }
        ensures same { (r : ARecord) → self.old.answer ≡ Some r → self.new ≡ self.old }
        ensures err { OnErr result (self.new ≡ self.old) }
    {
        let entry = self.stored.entry();
        let Ok(event) = entry.event.try_clone(alloc) else {
            return Err(NoMemory);
        };
        let Ok(answer) = entry.answer.try_clone(alloc) else {
            drop(event);
            return Err(NoMemory);
        };
        let place = self.mark / 2;
        self.mark = 2 * place + 1;
        Ok(Told {
            place,
            event,
            answer: Some(answer),
        })
    }

    /// The record is not known any more: there was no memory for the copy that a caller's step asked for.
    pub fn forget(&mut self)
        ensures { self.new ≡ told self.old.place self.old.event None }
    {
        let place = self.mark / 2;
        self.mark = 2 * place;
    }
}
