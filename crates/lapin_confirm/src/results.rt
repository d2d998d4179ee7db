//! Results: each is given once, with the returned message that its confirm took; or its confirm is set aside.

ghost use Rattle.std.specs.Prelude.{◌≡◌, ◌⊎◌, not, true, false, Ok, Err, Some, OnOk, OnErr, IfSome, IfNone, is_some, if◌then◌else◌};
ghost use Rattle.lapin_rules.specs.ConfirmMarks as mark;
ghost use Rattle.lapin_confirm.specs.Machine.{after_mark};
ghost use Rattle.lapin_confirm.specs.ConfirmState.{message_of};
ghost use Rattle.lapin_confirm.specs.Aside.{is_waiting, is_giving, taken_answer, set_answer};
ghost use Rattle.lapin_confirm.specs.Answers.{result_with, result_of as result_of_lem};

use crate::cell::Cell;
use crate::confirms::Confirms;
use crate::lists::let_go_any;
use crate::return_lists::{has_message, is_aside, mark_aside, put_by, take_message};
use crate::sweep::is_over;
use lapin_types::{BasicReturnMessage, Confirmation, Error, Outcome};
use std::alloc::Global;

impl Confirms {
    /// Whether `take` has an answer other than none: false exactly while the confirm is unresolved and not set aside.
    pub fn ready(&self, number: u64) -> bool
        ensures { result ≡ not (is_waiting number self.now.what) }
    {
        is_aside(&self.origins, number)
            || !matches!(
                self.cells.get(number),
                Some(Cell::Queued(_) | Cell::Pending(_, _))
            )
    }

    /// Gives the result of a publish, once, with the returned message that it took: none exactly while it is unresolved and not
    /// set aside.
    ///
    /// `UnknownTicket` comes exactly where the number was never given, `AlreadyTaken` exactly where the result was or the confirm
    /// was set aside.
    pub fn take(&mut self, number: u64) -> Result<Option<Result<Confirmation, Error>>, Error>
        ensures answer { result ≡ taken_answer number self.old.what }
        ensures what { self.new.what ≡ (if is_giving number self.old.what then after_mark self.old.what (mark.Taken number) else self.old.what) }
        ensures spare { self.new.spare ≡ self.old.spare }
    {
        if is_aside(&self.origins, number) {
            return Err(Error::AlreadyTaken);
        }
        if number == 0 || number > self.cells.count() {
            return Err(Error::UnknownTicket);
        }
        match self.cells.get(number) {
            None => Err(Error::AlreadyTaken),
            Some(Cell::Resolved(outcome)) => {
                let _ = self.cells.take(number);
                let message = take_message(
                    &mut self.origins,
                    &mut self.returned_by_channel,
                    number,
                );
                Ok(Some(result_of(outcome, message)))
            }
            Some(_) => Ok(None),
        }
    }

    /// Gives the outcome of a publish that has one and took no returned message, as `take` would give it: once, and not where the
    /// confirm was set aside. None else, and nothing changes then. No place for a message is moved.
    pub fn take_bare(&mut self, number: u64) -> Option<Outcome>
        ensures some { IfSome result (λ o. taken_answer number self.old.what ≡ Ok (Some (result_of_lem o))) }
        ensures taken { IfSome result (λ _. self.new.what ≡ after_mark self.old.what (mark.Taken number)) }
        ensures none { IfNone result (self.new.what ≡ self.old.what) }
        ensures only { IfNone result ((is_giving number self.old.what ≡ false) ⊎ (is_some (message_of number self.old.what) ≡ true)) }
        ensures spare { self.new.spare ≡ self.old.spare }
    {
        let Some(Cell::Resolved(outcome)) = self.cells.get(number) else {
            return None;
        };
        if is_aside(&self.origins, number)
            || has_message(&self.origins, &self.returned_by_channel, number)
        {
            return None;
        }
        let _ = self.cells.take(number);
        let _ = self.origins.take(number);
        Some(outcome)
    }

    /// Sets a confirm aside: its result is asked for no more. Where it is resolved its message is kept, else its number stands
    /// aside.
    ///
    /// It is refused as `take` is. Where there is no memory nothing changes.
    pub fn set_aside(&mut self, _alloc: Global, number: u64) -> Result<(), Error>
        ensures answer { (result ≡ Err Error.NoMemory) ⊎ (result ≡ set_answer number self.old.what) }
        ensures ok { OnOk result (self.new.what ≡ after_mark self.old.what (mark.SetAside number)) }
        ensures err { OnErr result (self.new.what ≡ self.old.what) }
        ensures spare { self.new.spare ≡ self.old.spare }
    {
        if is_aside(&self.origins, number) {
            return Err(Error::AlreadyTaken);
        }
        if number == 0 || number > self.cells.count() {
            return Err(Error::UnknownTicket);
        }
        if self.cells.get(number).is_none() {
            return Err(Error::AlreadyTaken);
        }
        let resolved = is_over(&self.cells, number);
        if let Err(_) = put_by(
            &self.origins,
            &mut self.returned_by_channel,
            number,
            resolved,
        ) {
            return Err(Error::NoMemory);
        }
        if resolved {
            let _ = self.cells.take(number);
            let _ = self.origins.take(number);
            return Ok(());
        }
        mark_aside(&mut self.origins, number);
        Ok(())
    }
}

fn result_of(outcome: Outcome, message: Option<BasicReturnMessage>) -> Result<Confirmation, Error>
    ensures { result ≡ result_with message (result_of_lem outcome) }
{
    match outcome {
        Outcome::Ack => Ok(Confirmation::Ack(message)),
        Outcome::Nack => Ok(Confirmation::Nack(message)),
        Outcome::NotRequested => {
            let_go_any(message);
            Ok(Confirmation::NotRequested)
        }
        Outcome::Failed(error) => {
            let_go_any(message);
            Err(error)
        }
    }
}
