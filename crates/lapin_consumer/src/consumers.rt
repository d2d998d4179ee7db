//! The consumers of a session: the public calls.
//!
//! Beside the seats stands an index of the registered consumers, so that a delivery or a cancel looks at its channel alone, and
//! finds a tag at once.

ghost use Rattle.std.specs.Prelude.{◌≡◌, ℕ, ◌+◌, ◌<◌, ◌^◌, ◌↔◌, ◌⊎◌, ◌≤◌, Some, None, Ok, Err, OnOk, OnErr, IsOk, IsTrue, IfOk, IfErr, IfSome, length, slice_get};
ghost use Rattle.lapin_consumer.specs.Subscriptions.{empty_subscriptions, after_mark, is_registered, found, place_under, consumer_at, answered, let_go_answer, is_ready};
ghost use Rattle.lapin_consumer.specs.Marks as mark;
ghost use Rattle.lapin_acker.specs.Switches.{after_mark as after_acker_mark};
ghost use Rattle.lapin_acker.specs.Marks as acker_mark;
ghost use Rattle.lapin_consumer.specs.Ackers.{ackers_on};
ghost use Rattle.lapin_consumer.specs.WithRoom.{HasRoom, HasEnds, KeepsRoom, KeepsOthers};
ghost use Rattle.std.specs.Option.{option_copied, option_map};

use crate::hall::Hall;
use crate::line::{Line, clear, join, leave, make_line_room, thin};
use crate::serving::let_go;
use lapin_acker::Switches;
use lapin_tables::ByChannel;
use lapin_types::{
    BasicConsumeOptions, Delivery, DeliveryResult, Error, Job, NoMemory, ShortString,
};
use std::alloc::Global;
use std::marker::Model;

/// All consumers of a session, and the jobs of their delegates. Contracts see a `Subscriptions`, and the room beside it.
pub struct Consumers {
    hall: Hall,
    // By channel: the places of its registered consumers, rising, and by tag.
    lines: ByChannel<Line>,
}

impl Drop for Consumers {
    fn drop(self) {
        let Consumers { hall: _, lines: _ } = self;
    }
}

impl Model for Consumers {
    ghost use Rattle.lapin_consumer.specs.WithRoom.{WithRoom};
    ghost use Rattle.lapin_consumer.specs.Codes.{kept_code};

    ghost Value = { WithRoom };

    ghost coded = { kept_code };

    ghost use Rattle.lapin_consumer.specs.Indexed.{Indexed};

    ghost view = { λ a. a.hall };

    ghost invariant = { λ a. Indexed a.lines.entries a.hall.subscriptions.consumers };
}

impl Consumers {
    /// No consumer. It takes no memory yet, so it does not fail.
    pub fn new(alloc: Global) -> Result<Consumers, NoMemory>
        ensures made { IfOk result (λ made. made.subscriptions ≡ empty_subscriptions) }
        ensures succeeds { IsOk result }
    {
        Ok(Consumers {
            hall: Hall::new(alloc),
            lines: ByChannel::new(alloc),
        })
    }

    /// Registers the next consumer under a tag of a channel, and answers its number. One that was registered under the same tag
    /// no longer is, and receives nothing more.
    ///
    /// # Errors
    /// `NumbersUsedUp` exactly where the number would pass the greatest `u64`; `NoMemory`.
    pub fn register(
        &mut self,
        alloc: Global,
        channel: u16,
        tag: ShortString,
        queue: ShortString,
        _options: BasicConsumeOptions,
    ) -> Result<u64, Error>
        ensures number { IfOk result (λ n. n ≡ length self.old.subscriptions.consumers + 1) }
        ensures ok { OnOk result (self.new.subscriptions ≡ after_mark self.old.subscriptions (mark.Registered channel tag queue)) }
        ensures err { OnErr result (self.new.subscriptions ≡ self.old.subscriptions) }
        ensures cause { IfErr result (λ e. (e ≡ Error.NumbersUsedUp) ⊎ (e ≡ Error.NoMemory)) }
        ensures used_up { (result ≡ Err Error.NumbersUsedUp) ↔ (length self.old.subscriptions.consumers + 1 ≡ 2 ^ 64) }
        ensures kept { (n : ℕ) → n ≤ length self.old.subscriptions.consumers → HasRoom n self.old → HasRoom n self.new }
    {
        let place = self.hall.count();
        if place as u64 == u64::MAX {
            return Err(Error::NumbersUsedUp);
        }
        let gone = self.find_place(channel, tag.as_str());
        if make_line_room(&mut self.lines, alloc, channel).is_err() {
            return Err(Error::NoMemory);
        }
        let Ok(key) = String::from_str(alloc, tag.as_str()) else {
            return Err(Error::NoMemory);
        };
        if self.hall.add(alloc, channel, tag, queue).is_err() {
            return Err(Error::NoMemory);
        }
        self.hall.unregister(gone);
        join(&mut self.lines, channel, place, key);
        thin(&mut self.lines, channel, &self.hall);
        Ok(place as u64 + 1)
    }

    /// The number of the consumer that is registered on a channel under a tag; `None` exactly where there is none.
    pub fn find(&self, channel: u16, tag: &str) -> Option<u64>
        ensures { result ≡ found channel tag.now self.now.subscriptions }
    {
        match self.find_place(channel, tag) {
            Some(place) => Some(self.hall.number(place)),
            None => None,
        }
    }

    // The place of the consumer that is registered on a channel under a tag.
    fn find_place(&self, channel: u16, tag: &str) -> Option<usize>
        ensures place { result ≡ place_under channel tag.now self.now.subscriptions.consumers }
        ensures within { IfSome result (λ p. p < length self.now.subscriptions.consumers) }
    {
        self.lines.get(channel)?.find(tag)
    }

    /// Whether a consumer is registered: false also for a number that was never given.
    pub fn registered(&self, consumer: u64) -> bool
        ensures { result ≡ is_registered consumer self.now.subscriptions }
    {
        self.hall.registered(consumer)
    }

    /// Makes room for the next `complete` of a consumer, or, while it is registered, for the next `deregister` of its channel and
    /// tag. Each consumer has room of its own, which lasts until it is used, whatever else is called before.
    ///
    /// # Errors
    /// `NoMemory`; nothing but the room changes.
    pub fn reserve_item(&mut self, _alloc: Global, consumer: u64) -> Result<(), NoMemory>
        ensures room { OnOk result (HasRoom consumer self.new) }
        ensures same { self.new.subscriptions ≡ self.old.subscriptions }
        ensures succeeds { HasRoom consumer self.old → IsOk result }
        ensures kept { KeepsRoom self.old self.new }
    {
        self.hall.reserve(consumer)
    }

    /// Makes room for an error and an end of every registered consumer, so that the ends of their channels are served without
    /// more memory. The room lasts until a call is made that is neither `error` nor `cancel` nor a reader. It looks at every
    /// consumer that was ever registered: it is meant for the end of a connection.
    ///
    /// # Errors
    /// `NoMemory`; nothing but the room changes.
    pub fn reserve_ends(&mut self, _alloc: Global) -> Result<(), NoMemory>
        ensures room { OnOk result (HasEnds self.new) }
        ensures same { self.new.subscriptions ≡ self.old.subscriptions }
        ensures kept { KeepsRoom self.old self.new }
    {
        self.hall.reserve_ends()
    }

    /// A delivery is whole. It goes to its consumer: as a job where that has a delegate, else into its queue. The answer is false
    /// exactly where the consumer isn't registered, and the delivery is then dropped.
    ///
    /// # Errors
    /// `NoMemory`, but not in the room that `reserve_item` made; the delivery is dropped, and nothing but the room changes.
    pub fn complete(
        &mut self,
        _alloc: Global,
        consumer: u64,
        delivery: Delivery,
    ) -> Result<bool, NoMemory>
        ensures answer { IfOk result (λ taken. taken ≡ is_registered consumer self.old.subscriptions) }
        ensures ok { OnOk result (self.new.subscriptions ≡ after_mark self.old.subscriptions (mark.Completed consumer delivery)) }
        ensures err { OnErr result (self.new.subscriptions ≡ self.old.subscriptions) }
        ensures succeeds { HasRoom consumer self.old → IsOk result }

        // It uses up the room of its own consumer alone, and that only where the delivery is taken.
        ensures others { KeepsOthers (Some consumer) self.old self.new }
        ensures unused { OnErr result (KeepsRoom self.old self.new) }
    {
        if !self.hall.registered(consumer) {
            let_go(delivery);
            return Ok(false);
        }
        if self.hall.reserve(consumer).is_err() {
            let_go(delivery);
            return Err(NoMemory);
        }
        self.hall.deliver(consumer, delivery);
        Ok(true)
    }

    /// Deregisters the consumer of a tag and gives it its end: as a job where it has a delegate. It is canceled from now on.
    /// Nothing changes where there is none.
    ///
    /// # Errors
    /// `NoMemory`, but not in the room that `reserve_item` made; nothing but the room changes.
    pub fn deregister(&mut self, _alloc: Global, channel: u16, tag: &str) -> Result<(), NoMemory>
        ensures ok { OnOk result (self.new.subscriptions ≡ after_mark self.old.subscriptions (mark.Canceled channel tag.now)) }
        ensures err { OnErr result (self.new.subscriptions ≡ self.old.subscriptions) }
        ensures succeeds { IfSome (found channel tag.now self.old.subscriptions) (λ n. HasRoom n self.old) → IsOk result }

        // It uses up the room of the consumer of that tag alone.
        ensures others { KeepsOthers (found channel tag.now self.old.subscriptions) self.old self.new }
        ensures unused { OnErr result (KeepsRoom self.old self.new) }
    {
        let Some(place) = self.find_place(channel, tag) else {
            return Ok(());
        };
        let number = self.hall.number(place);
        self.hall.reserve(number)?;
        self.hall.finish(place);
        leave(&mut self.lines, channel, tag);
        thin(&mut self.lines, channel, &self.hall);
        Ok(())
    }

    /// What the registered consumers of a channel were handed before is void: their queues are emptied, the ackers of what was queued
    /// are unusable, and each consumer that has a delegate gets a job to discard, in rising number.
    ///
    /// # Errors
    /// `NoMemory`; nothing but the room changes, and every acker stays as it was.
    pub fn drop_prefetched(
        &mut self,
        _alloc: Global,
        channel: u16,
        switches: &mut Switches,
    ) -> Result<(), NoMemory>
        ensures ok { OnOk result (self.new.subscriptions ≡ after_mark self.old.subscriptions (mark.Discarded channel)) }
        ensures err { OnErr result (self.new.subscriptions ≡ self.old.subscriptions) }
        ensures void { OnOk result (switches.new.switches ≡ after_acker_mark switches.old.switches (acker_mark.Voided (ackers_on channel self.old.subscriptions.consumers))) }
        ensures same { OnErr result (switches.new.switches ≡ switches.old.switches) }
        ensures kept { KeepsRoom self.old self.new }
    {
        let Some(line) = self.lines.get_mut(channel) else {
            return Ok(());
        };
        line.sweep(channel, &self.hall);
        self.hall.void(channel, line.as_slice(), switches)
    }

    /// The registered consumers of a channel start to be cancelled: they have no delegate from now on.
    pub fn start_cancel(&mut self, channel: u16)
        ensures change { self.new.subscriptions ≡ after_mark self.old.subscriptions (mark.CloseAsked channel) }
        ensures kept { KeepsRoom self.old self.new }
    {
        if let Some(line) = self.lines.get_mut(channel) {
            line.sweep(channel, &self.hall);
            self.hall.start_cancels(channel, line.as_slice());
        }
    }

    /// Starts to cancel the consumer that is registered under a tag: it has no delegate from now on. Nothing changes where there is
    /// none.
    pub fn start_cancel_one(&mut self, channel: u16, tag: &str)
        ensures change { self.new.subscriptions ≡ after_mark self.old.subscriptions (mark.CancelAsked channel tag.now) }
        ensures kept { KeepsRoom self.old self.new }
    {
        let found = self.find_place(channel, tag);
        self.hall.start_cancel(found);
    }

    /// The opening of a channel ended by close-ok for a close of this side: each registered consumer gets its end, in rising number.
    /// None is registered there any more, and each is canceled.
    ///
    /// # Errors
    /// `NoMemory`, but not in the room that `reserve_ends` made; nothing but the room changes.
    pub fn cancel(&mut self, _alloc: Global, channel: u16) -> Result<(), NoMemory>
        ensures ok { OnOk result (self.new.subscriptions ≡ after_mark self.old.subscriptions (mark.Ended channel None)) }
        ensures err { OnErr result (self.new.subscriptions ≡ self.old.subscriptions) }

        // In the room that `reserve_ends` made it does not fail, and leaves the room of the other channels.
        ensures room { HasEnds self.old → IsOk result × HasEnds self.new }
        ensures kept { KeepsRoom self.old self.new }
    {
        self.end(channel, None)
    }

    /// The opening of a channel ended in another way: each registered consumer gets the error and then its end, in rising number.
    /// None is registered there any more, and each is canceled.
    ///
    /// # Errors
    /// `NoMemory`, but not in the room that `reserve_ends` made; nothing but the room changes.
    pub fn error(&mut self, _alloc: Global, channel: u16, error: Error) -> Result<(), NoMemory>
        ensures ok { OnOk result (self.new.subscriptions ≡ after_mark self.old.subscriptions (mark.Ended channel (Some error))) }
        ensures err { OnErr result (self.new.subscriptions ≡ self.old.subscriptions) }

        // In the room that `reserve_ends` made it does not fail, and leaves the room of the other channels.
        ensures room { HasEnds self.old → IsOk result × HasEnds self.new }
        ensures kept { KeepsRoom self.old self.new }
    {
        self.end(channel, Some(error))
    }

    fn end(&mut self, channel: u16, error: Option<Error>) -> Result<(), NoMemory>
        ensures ok { OnOk result (self.new.subscriptions ≡ after_mark self.old.subscriptions (mark.Ended channel error)) }
        ensures err { OnErr result (self.new.subscriptions ≡ self.old.subscriptions) }
        ensures room { HasEnds self.old → IsOk result × HasEnds self.new }
        ensures kept { KeepsRoom self.old self.new }
    {
        let Some(line) = self.lines.get_mut(channel) else {
            return Ok(());
        };
        line.sweep(channel, &self.hall);
        self.hall.end(channel, line.as_slice(), error)?;
        clear(&mut self.lines, channel);
        Ok(())
    }

    /// Gives what a consumer was handed, the first item first; with an empty queue the end where it is canceled. `None` while
    /// there is nothing yet.
    ///
    /// # Errors
    /// `UnknownTicket` exactly where the number was never given.
    pub fn poll_next(&mut self, consumer: u64) -> Result<Option<DeliveryResult>, Error>
        ensures answer { result ≡ answered (consumer_at consumer self.old.subscriptions) }
        ensures polled { self.new.subscriptions ≡ after_mark self.old.subscriptions (mark.Polled consumer) }
        ensures kept { KeepsRoom self.old self.new }
    {
        self.hall.poll(consumer)
    }

    /// Whether `poll_next` would answer something but `None`: an item, the end, or the refusal of a number that was never given.
    pub fn ready(&self, consumer: u64) -> bool
        ensures { result ≡ is_ready (consumer_at consumer self.now.subscriptions) }
    {
        self.hall.is_ready(consumer)
    }

    /// Gives a consumer a delegate: all that is queued becomes jobs, in order, and so does what comes, where it is active.
    ///
    /// # Errors
    /// `UnknownTicket` exactly where the number was never given; `NoMemory`.
    pub fn set_delegate(&mut self, _alloc: Global, consumer: u64) -> Result<(), Error>
        ensures unknown { (result ≡ Err Error.UnknownTicket) ↔ (consumer_at consumer self.old.subscriptions ≡ None) }
        ensures ok { OnOk result (self.new.subscriptions ≡ after_mark self.old.subscriptions (mark.Delegated consumer)) }
        ensures err { OnErr result (self.new.subscriptions ≡ self.old.subscriptions) }
        ensures cause { IfErr result (λ e. (e ≡ Error.UnknownTicket) ⊎ (e ≡ Error.NoMemory)) }
        ensures kept { KeepsRoom self.old self.new }
    {
        self.hall.delegate(consumer)
    }

    /// Lets go of a consumer. The answer is false exactly where it isn't active or isn't registered; else it is cancelling from
    /// now on.
    ///
    /// # Errors
    /// `UnknownTicket` exactly where the number was never given.
    pub fn close(&mut self, consumer: u64) -> Result<bool, Error>
        ensures answer { result ≡ let_go_answer (consumer_at consumer self.old.subscriptions) }
        ensures change { self.new.subscriptions ≡ after_mark self.old.subscriptions (mark.LetGo consumer) }
        ensures kept { KeepsRoom self.old self.new }
    {
        self.hall.let_go(consumer)
    }

    /// What `close` would answer: whether a consumer is active and registered. It changes nothing.
    ///
    /// # Errors
    /// `UnknownTicket` exactly where the number was never given.
    pub fn would_close(&self, consumer: u64) -> Result<bool, Error>
        ensures { result ≡ let_go_answer (consumer_at consumer self.now.subscriptions) }
    {
        self.hall.would_let_go(consumer)
    }

    /// The tag under which a consumer was registered; `None` exactly where the number was never given.
    pub fn tag(&self, consumer: u64) -> Option<&ShortString>
        ensures { option_copied result ≡ option_map (λ x. x.tag) (consumer_at consumer self.now.subscriptions) }
    {
        self.hall.tag(consumer)
    }

    /// The queue that a consumer was registered for; `None` exactly where the number was never given.
    pub fn queue(&self, consumer: u64) -> Option<&ShortString>
        ensures { option_copied result ≡ option_map (λ x. x.queue) (consumer_at consumer self.now.subscriptions) }
    {
        self.hall.queue(consumer)
    }

    /// The channel on which a consumer was registered; `None` exactly where the number was never given.
    pub fn channel(&self, consumer: u64) -> Option<u16>
        ensures { result ≡ option_map (λ x. x.channel) (consumer_at consumer self.now.subscriptions) }
    {
        self.hall.channel(consumer)
    }

    /// Takes out the oldest job; `None` exactly where there is none.
    pub fn next_job(&mut self) -> Option<Job>
        ensures job { result ≡ slice_get self.old.subscriptions.jobs 0 }
        ensures rest { self.new.subscriptions ≡ after_mark self.old.subscriptions mark.JobAsked }
        ensures kept { KeepsRoom self.old self.new }
    {
        self.hall.next_job()
    }
}
