//! Consumers: what the application asks of them, and what the broker says of them.
//!
//! What a consumer was handed and what waits for it stands in `lapin_consumer`; how deliveries come stands in
//! `receiving_contents` and `whole`, ends in `closing` and `receiving_closes`.

ghost use Rattle.std.specs.Prelude.{◌≡◌, true, Some, Ok, IfOk, OnOk, OnErr, not};
ghost use Rattle.lapin_types.specs.declared.event.Event.TheVariants as event;
ghost use Rattle.lapin_rules.specs.declared.calls.Asked.TheVariants as ask;
ghost use Rattle.lapin_rules.specs.Asking.{call_record};
ghost use Rattle.lapin_consumer.specs.Subscriptions.{consumer_at, let_go_answer};
ghost use Rattle.lapin_rules.specs.Consumers.{job_record as job_record_lem};
ghost use Rattle.lapin_machine.specs.Consumers.{let_go_on, let_go_tag};
ghost use Rattle.lapin_machine.specs.World.{told_by, next, asking};
ghost use Rattle.lapin_machine.specs.Told.{TicketTold, DelegateTold, DropTold, next_record as next_record_lem, is_pending_record};
ghost use Rattle.lapin_machine.specs.Numbers.{HasCause, HasNumbers, AskCause};

use crate::channel::Ticket;
use crate::session::Session;
use lapin_outstanding::is_open;
use lapin_types::{
    Answer, BasicConsumeOptions, BasicMethod, DeliveryResult, Error, Job, Method, NoMemory, Poll,
    Record, Reply, ShortString,
};
use std::alloc::Global;

impl Session {
    // A consume without wait: the consumer is registered, and the ticket answered, in the call.
    pub(crate) fn consume_at_once(
        &mut self,
        alloc: Global,
        channel: u16,
        method: Method,
        consumer_tag: ShortString,
        queue: ShortString,
        options: BasicConsumeOptions,
    ) -> Result<Ticket, Error>
        ensures told { TicketTold result (call_record channel (ask.Consume method consumer_tag queue options) self.old.wire) }
        ensures ok { OnOk result (self.new ≡ asking channel (ask.Consume method consumer_tag queue options) self.old) }
        ensures err { OnErr result (self.new ≡ self.old) }
        ensures cause { AskCause result channel (ask.Consume method consumer_tag queue options) self.old.wire }
    {
        let state = self.channel_state(channel);
        if !is_open(state) {
            drop(method);
            return Err(Error::InvalidChannelState(state));
        }
        if self.outstanding.tickets.next_number().is_none() {
            drop(method);
            return Err(Error::NumbersUsedUp);
        }
        let Ok(place) = self.outstanding.reserve_answered(alloc, channel) else {
            drop(method);
            return Err(Error::NoMemory);
        };
        match self
            .deliveries
            .consume(alloc, channel, consumer_tag, queue, options)
        {
            Ok(consumer) => {
                let answer = Answer::Consumer(consumer);
                let number = self
                    .outstanding
                    .queue_answered(alloc, channel, method, answer, place);
                Ok(Ticket { number })
            }
            Err(error) => {
                drop(method);
                Err(error)
            }
        }
    }

    /// What a consumer was handed and nobody was given yet, the first item first: a delivery, the error that ended its channel, or
    /// its end. Pending while there is nothing, and the end again and again once the consumer is canceled.
    ///
    /// # Errors
    /// `UnknownTicket` exactly where the number was never given.
    pub fn poll_next(&mut self, consumer: u64) -> Result<Poll<DeliveryResult>, Error>
        ensures told { next_record_lem result ≡ told_by self.old (event.PollConsumer consumer) }
        ensures ok { self.new ≡ next self.old (event.PollConsumer consumer) }
    {
        match self.deliveries.poll(consumer) {
            Ok(Some(item)) => Ok(Poll::Ready(item)),
            Ok(None) => Ok(Poll::Pending),
            Err(error) => Err(error),
        }
    }

    /// Whether a poll of the consumer would not be pending.
    pub fn consumer_ready(&self, consumer: u64) -> bool
        ensures { result ≡ not (is_pending_record (told_by self.now (event.PollConsumer consumer))) }
    {
        self.deliveries.consumers.ready(consumer)
    }

    /// Gives a consumer a delegate: all that waits for it becomes jobs, in order, and so does what comes, where it is active.
    ///
    /// # Errors
    /// `UnknownTicket` exactly where the number was never given; `NoMemory`. Nothing changes then.
    pub fn set_delegate(&mut self, alloc: Global, consumer: u64) -> Result<(), Error>
        ensures told { DelegateTold result (told_by self.old (event.Delegate consumer)) }
        ensures ok { OnOk result (self.new ≡ next self.old (event.Delegate consumer)) }
        ensures err { OnErr result (self.new ≡ self.old) }
        ensures numbers { HasNumbers result }
    {
        self.deliveries.delegate(alloc, consumer)
    }

    /// Takes out the oldest job; `None` exactly where there is none.
    pub fn next_job(&mut self) -> Option<Job>
        ensures told { job_record_lem result ≡ told_by self.old event.NextJob }
        ensures ok { self.new ≡ next self.old event.NextJob }
    {
        self.deliveries.next_job()
    }

    /// Lets go of a consumer. Where it is active and registered and its channel open, its `basic.cancel` is queued, with a request
    /// for which nobody holds a ticket, and the answer is true: it is canceling from now on. Else nothing changes, and the answer is
    /// false.
    ///
    /// # Errors
    /// `UnknownTicket` exactly where the number was never given; `NoMemory`. Nothing changes then.
    pub fn close_consumer(&mut self, alloc: Global, consumer: u64) -> Result<bool, Error>
        ensures told { DropTold result (told_by self.old (event.DropConsumer consumer)) }
        ensures ok { OnOk result (self.new ≡ next self.old (event.DropConsumer consumer)) }
        ensures err { OnErr result (self.new ≡ self.old) }
        ensures numbers { HasNumbers result }
    {
        if !self.deliveries.would_let_go(consumer)? {
            return Ok(false);
        }
        match self.let_go_channel(consumer) {
            Some(channel) => self.cancel_let_go(alloc, consumer, channel),
            None => Ok(false),
        }
    }

    // The channel of a consumer, where it is open.
    fn let_go_channel(&self, consumer: u64) -> Option<u16>
        ensures { result ≡ let_go_on (consumer_at consumer self.now.wire.deliveries.subscriptions) self.now.wire }
    {
        let channel = self.deliveries.channel(consumer)?;
        if is_open(self.channel_state(channel)) {
            Some(channel)
        } else {
            None
        }
    }

    // The cancel of a consumer that is let go is queued.
    fn cancel_let_go(&mut self, alloc: Global, consumer: u64, channel: u16) -> Result<bool, Error>
        requires idle { let_go_answer (consumer_at consumer self.old.wire.deliveries.subscriptions) ≡ Ok true }
        requires open { let_go_on (consumer_at consumer self.old.wire.deliveries.subscriptions) self.old.wire ≡ Some channel }
        ensures told { DropTold result (told_by self.old (event.DropConsumer consumer)) }
        ensures ok { OnOk result (self.new ≡ next self.old (event.DropConsumer consumer)) }
        ensures err { OnErr result (self.new ≡ self.old) }
        ensures numbers { HasNumbers result }
    {
        let consumer_tag = self.tag_of(alloc, consumer)?;
        self.outstanding.reserve(alloc, channel)?;
        self.deliveries.let_go(consumer);
        let method = Method::Basic(BasicMethod::Cancel {
            consumer_tag,
            nowait: false,
        });
        self.outstanding
            .queue_unheld(alloc, channel, method, Reply::BasicCancelOk);
        Ok(true)
    }

    // A copy of the tag of a consumer; none was given for a number that was never given.
    fn tag_of(&self, alloc: Global, consumer: u64) -> Result<ShortString, NoMemory>
        ensures { IfOk result (λ tag. tag ≡ let_go_tag (consumer_at consumer self.now.wire.deliveries.subscriptions)) }
    {
        match self.deliveries.tag(consumer) {
            Some(tag) => tag.try_clone(alloc),
            None => ShortString::empty(alloc),
        }
    }

    pub(crate) fn step_poll_consumer(&mut self, consumer: u64) -> Record
        ensures told { result ≡ told_by self.old (event.PollConsumer consumer) }
        ensures ok { self.new ≡ next self.old (event.PollConsumer consumer) }
    {
        next_record(self.poll_next(consumer))
    }

    pub(crate) fn step_delegate(&mut self, alloc: Global, consumer: u64) -> Result<Record, Error>
        ensures told { IfOk result (λ r. r ≡ told_by self.old (event.Delegate consumer)) }
        ensures ok { OnOk result (self.new ≡ next self.old (event.Delegate consumer)) }
        ensures err { OnErr result (self.new ≡ self.old) }
        ensures cause { HasCause result (event.Delegate consumer) self.old.wire }
    {
        match self.set_delegate(alloc, consumer) {
            Ok(()) => Ok(Record::Delegated),
            Err(Error::NoMemory) => Err(Error::NoMemory),
            Err(Error::NumbersUsedUp) => unreachable!(),
            Err(error) => Ok(Record::Refused(error)),
        }
    }

    pub(crate) fn step_drop(&mut self, alloc: Global, consumer: u64) -> Result<Record, Error>
        ensures told { IfOk result (λ r. r ≡ told_by self.old (event.DropConsumer consumer)) }
        ensures ok { OnOk result (self.new ≡ next self.old (event.DropConsumer consumer)) }
        ensures err { OnErr result (self.new ≡ self.old) }
        ensures cause { HasCause result (event.DropConsumer consumer) self.old.wire }
    {
        match self.close_consumer(alloc, consumer) {
            Ok(queued) => Ok(Record::Dropped(queued)),
            Err(Error::NoMemory) => Err(Error::NoMemory),
            Err(Error::NumbersUsedUp) => unreachable!(),
            Err(error) => Ok(Record::Refused(error)),
        }
    }

    pub(crate) fn step_next_job(&mut self) -> Record
        ensures told { result ≡ told_by self.old event.NextJob }
        ensures ok { self.new ≡ next self.old event.NextJob }
    {
        match self.next_job() {
            Some(job) => Record::Job(job),
            None => Record::NoJob,
        }
    }
}

fn next_record(poll: Result<Poll<DeliveryResult>, Error>) -> Record
    ensures { result ≡ next_record_lem poll }
{
    match poll {
        Ok(Poll::Ready(item)) => Record::Item(item),
        Ok(Poll::Pending) => Record::Pending,
        Err(error) => Record::Refused(error),
    }
}
