//! Polls: the answer of a ticket and the outcome of a confirm, each given once; the wait for all confirms of a channel; and the states.

ghost use Rattle.std.specs.Prelude.{◌≡◌, ◌⊎◌, true, false, OnOk, OnErr, IfOk, IfSome, IfNone, is_some, not};
ghost use Rattle.lapin_types.specs.declared.event.Event.TheVariants as event;
ghost use Rattle.lapin_types.specs.declared.record.Record.TheVariants as record_;
ghost use Rattle.lapin_rules.specs.Polls.{is_waited_on};
ghost use Rattle.lapin_confirm.specs.Answers.{result_of};
ghost use Rattle.lapin_confirm.specs.Aside.{is_giving};
ghost use Rattle.lapin_confirm.specs.ConfirmState.{message_of};
ghost use Rattle.lapin_machine.specs.World.{told_by, next, readings_of, aside_record as aside_record_lem};
ghost use Rattle.lapin_machine.specs.Told.{AsideTold, wait_told, ticket_record as ticket_record_lem, confirm_record as confirm_record_lem, is_pending_record};
ghost use Rattle.lapin_machine.specs.Numbers.{HasCause, HasNumbers, OnlyMemory};

use crate::session::Session;
use lapin_types::{Answer, Confirmation, Error, NoMemory, Outcome, Poll, Record, ReturnedList};
use std::alloc::Global;

impl Session {
    /// The answer of a ticket: pending while it has none, and given once.
    ///
    /// # Errors
    /// `UnknownTicket` exactly where the ticket was never given, `AlreadyTaken` exactly where its answer was given.
    pub fn poll_ticket(&mut self, number: u64) -> Result<Poll<Result<Answer, Error>>, Error>
        ensures told { ticket_record_lem result ≡ told_by self.old (event.PollTicket number) }
        ensures ok { self.new ≡ next self.old (event.PollTicket number) }
    {
        match self.outstanding.tickets.take(number) {
            Ok(Some(answer)) => Ok(Poll::Ready(answer.into_answer())),
            Ok(None) => Ok(Poll::Pending),
            Err(error) => Err(error),
        }
    }

    /// The outcome of a publish (RabbitMQ, publisher confirms): pending while it has none, and given once, with the message where it
    /// came back.
    ///
    /// # Errors
    /// `UnknownTicket` exactly where the confirm was never given, `AlreadyTaken` exactly where its outcome was given or it was set
    /// aside.
    pub fn poll_confirm(&mut self, number: u64) -> Result<Poll<Result<Confirmation, Error>>, Error>
        ensures told { confirm_record_lem result ≡ told_by self.old (event.PollConfirm number) }
        ensures ok { self.new ≡ next self.old (event.PollConfirm number) }
    {
        match self.confirms.take(number) {
            Ok(Some(outcome)) => Ok(Poll::Ready(outcome)),
            Ok(None) => Ok(Poll::Pending),
            Err(error) => Err(error),
        }
    }

    /// The outcome of a publish, where it is there and no message came back with it: what `poll_confirm` would give, without the
    /// place for a message. None else, and nothing changes then.
    pub fn poll_bare_confirm(&mut self, number: u64) -> Option<Outcome>
        ensures told { IfSome result (λ o. told_by self.old (event.PollConfirm number) ≡ record_.Confirmed (result_of o)) }
        ensures ok { IfSome result (λ _. self.new ≡ next self.old (event.PollConfirm number)) }
        ensures none { IfNone result (self.new ≡ self.old) }
        ensures only { IfNone result ((is_giving number self.old.confirm_state ≡ false) ⊎ (is_some (message_of number self.old.confirm_state) ≡ true)) }
    {
        self.confirms.take_bare(number)
    }

    /// Sets a ticket aside: its answer, there or to come, is dropped. It takes no memory.
    ///
    /// # Errors
    /// `UnknownTicket` exactly where the ticket was never given, `AlreadyTaken` exactly where its answer was given or it was set
    /// aside before. Nothing changes then.
    pub fn set_aside_ticket(&mut self, number: u64) -> Result<(), Error>
        ensures told { aside_record_lem result ≡ told_by self.old (event.AsideTicket number) }
        ensures ok { self.new ≡ next self.old (event.AsideTicket number) }
        ensures err { OnErr result (self.new ≡ self.old) }
    {
        self.outstanding.tickets.set_aside(number)
    }

    /// Sets a confirm aside: its outcome, there or to come, is asked for no more. The message that it took, now or later, is given by
    /// `wait_for_confirms`.
    ///
    /// # Errors
    /// `UnknownTicket` exactly where the confirm was never given, `AlreadyTaken` exactly where its outcome was given or it was set
    /// aside before; `NoMemory`. Nothing changes then.
    pub fn set_aside(&mut self, alloc: Global, number: u64) -> Result<(), Error>
        ensures told { AsideTold result (told_by self.old (event.AsideConfirm number)) }
        ensures ok { OnOk result (self.new ≡ next self.old (event.AsideConfirm number)) }
        ensures err { OnErr result (self.new ≡ self.old) }
        ensures numbers { HasNumbers result }
    {
        self.confirms.set_aside(alloc, number)
    }

    /// Waits for all confirms of a channel: pending exactly where its live opening accepted a `confirm.select` call and has a publish
    /// that is queued, has begun and not left whole, or is pending. Else the returned messages of the channel are given, each once:
    /// those that came before a `confirm.select` left, then those of confirms that were set aside.
    ///
    /// # Errors
    /// `NoMemory` alone. Nothing changes then.
    pub fn wait_for_confirms(
        &mut self,
        alloc: Global,
        channel: u16,
    ) -> Result<Poll<ReturnedList>, Error>
        ensures told { IfOk result (λ poll. wait_told poll ≡ told_by self.old (event.PollWait channel)) }
        ensures ok { OnOk result (self.new ≡ next self.old (event.PollWait channel)) }
        ensures err { OnErr result (self.new ≡ self.old) }
        ensures cause { OnlyMemory result }
    {
        if self.is_waited_on(channel) {
            return Ok(Poll::Pending);
        }
        match self.confirms.drain(alloc, channel) {
            Ok(messages) => Ok(Poll::Ready(messages)),
            Err(NoMemory) => Err(Error::NoMemory),
        }
    }

    // Whether there is something to wait for on a channel.
    fn is_waited_on(&self, channel: u16) -> bool
        ensures { result ≡ is_waited_on channel self.now.wire (readings_of self.now.confirm_state self.now.slots) }
    {
        self.outstanding.is_waited_on(&self.confirms, channel)
    }

    /// Whether a poll of the ticket would not be pending.
    pub fn ticket_ready(&self, number: u64) -> bool
        ensures { result ≡ not (is_pending_record (told_by self.now (event.PollTicket number))) }
    {
        self.outstanding.tickets.ready(number)
    }

    /// Whether a poll of the confirm would not be pending.
    pub fn confirm_ready(&self, number: u64) -> bool
        ensures { result ≡ not (is_pending_record (told_by self.now (event.PollConfirm number))) }
    {
        self.confirms.ready(number)
    }

    pub(crate) fn step_state(&self, channel: u16) -> Record
        ensures { result ≡ told_by self.now (event.State channel) }
    {
        Record::State(self.connection_state(), self.channel_state(channel))
    }

    pub(crate) fn step_poll_ticket(&mut self, number: u64) -> Record
        ensures told { result ≡ told_by self.old (event.PollTicket number) }
        ensures ok { self.new ≡ next self.old (event.PollTicket number) }
    {
        ticket_record(self.poll_ticket(number))
    }

    pub(crate) fn step_aside_ticket(&mut self, number: u64) -> Record
        ensures told { result ≡ told_by self.old (event.AsideTicket number) }
        ensures ok { self.new ≡ next self.old (event.AsideTicket number) }
    {
        aside_record(self.set_aside_ticket(number))
    }

    pub(crate) fn step_wait(&mut self, alloc: Global, channel: u16) -> Result<Record, Error>
        ensures told { IfOk result (λ r. r ≡ told_by self.old (event.PollWait channel)) }
        ensures ok { OnOk result (self.new ≡ next self.old (event.PollWait channel)) }
        ensures err { OnErr result (self.new ≡ self.old) }
        ensures cause { HasCause result (event.PollWait channel) self.old.wire }
    {
        match self.wait_for_confirms(alloc, channel) {
            Ok(Poll::Ready(messages)) => Ok(Record::Returned(messages)),
            Ok(Poll::Pending) => Ok(Record::Pending),
            Err(_) => Err(Error::NoMemory),
        }
    }

    pub(crate) fn step_aside_confirm(&mut self, alloc: Global, number: u64) -> Result<Record, Error>
        ensures told { IfOk result (λ r. r ≡ told_by self.old (event.AsideConfirm number)) }
        ensures ok { OnOk result (self.new ≡ next self.old (event.AsideConfirm number)) }
        ensures err { OnErr result (self.new ≡ self.old) }
        ensures cause { HasCause result (event.AsideConfirm number) self.old.wire }
    {
        match self.set_aside(alloc, number) {
            Ok(()) => Ok(Record::Aside),
            Err(Error::NoMemory) => Err(Error::NoMemory),
            Err(Error::NumbersUsedUp) => unreachable!(),
            Err(error) => Ok(Record::Refused(error)),
        }
    }

    pub(crate) fn step_poll_confirm(&mut self, number: u64) -> Record
        ensures told { result ≡ told_by self.old (event.PollConfirm number) }
        ensures ok { self.new ≡ next self.old (event.PollConfirm number) }
    {
        confirm_record(self.poll_confirm(number))
    }
}

fn ticket_record(poll: Result<Poll<Result<Answer, Error>>, Error>) -> Record
    ensures { result ≡ ticket_record_lem poll }
{
    match poll {
        Ok(Poll::Ready(answer)) => Record::Answer(answer),
        Ok(Poll::Pending) => Record::Pending,
        Err(error) => Record::Refused(error),
    }
}

fn aside_record(aside: Result<(), Error>) -> Record
    ensures { result ≡ aside_record_lem aside }
{
    match aside {
        Ok(()) => Record::Aside,
        Err(error) => Record::Refused(error),
    }
}

fn confirm_record(poll: Result<Poll<Result<Confirmation, Error>>, Error>) -> Record
    ensures { result ≡ confirm_record_lem poll }
{
    match poll {
        Ok(Poll::Ready(outcome)) => Record::Confirmed(outcome),
        Ok(Poll::Pending) => Record::Pending,
        Err(error) => Record::Refused(error),
    }
}
