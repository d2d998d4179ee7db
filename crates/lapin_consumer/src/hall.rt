//! The seats of all consumers and the jobs of their delegates. Who is registered under which tag is looked up elsewhere:
//! `consumers` alone calls this file, and `line` asks it who left.

ghost use Rattle.std.specs.Prelude.{◌≡◌, ℕ, ◌+◌, ◌-◌, ◌<◌, ◌↔◌, ◌⊎◌, ◌≤◌, suc, ◌++◌, ◌∷◌, [], true, IsTrue, Some, None, Ok, Err, OnOk, OnErr, IsOk, IfErr, IfSome, IfNone, length, slice_get};
ghost use Rattle.lapin_consumer.specs.Subscriptions.{empty_subscriptions, after_mark, is_registered, consumer_at, answered, let_go_answer, newcomer, unregistered, canceling, finished, offered, last_words, is_on, is_ready};
ghost use Rattle.lapin_consumer.specs.Words.{on_place, on_place_if, from_place, places_at};
ghost use Rattle.std.specs.Option.{option_copied, option_map};
ghost use Rattle.lapin_consumer.specs.Marks as mark;
ghost use Rattle.lapin_acker.specs.Switches.{voided};
ghost use Rattle.lapin_consumer.specs.Ackers.{ackers_on};
ghost use Rattle.lapin_consumer.specs.Indexed.{stays_on};
ghost use Rattle.lapin_consumer.specs.WithRoom.{HasRoom, HasEnds, KeepsRoom, KeepsOthers};

use crate::seat::Seat;
use crate::serving::{
    cancel_if_idle, end_all, finish, give_delegate, hand_next, make_all_end_rooms, make_end_rooms,
    make_room, poll, start_cancels, void_all,
};
use lapin_acker::Switches;
use lapin_types::{Delivery, DeliveryResult, Error, Job, NoMemory, ShortString};
use std::alloc::Global;
use std::collections::VecDeque;
use std::marker::Model;

/// The seats of all consumers, and the jobs. Contracts see a `Subscriptions`, and the room beside it. There is room for a job for each
/// seat that room was promised to.
#[derive(Drop)]
pub(crate) struct Hall {
    seats: Vec<Seat>,
    jobs: VecDeque<Job>,
}

impl Model for Hall {
    ghost use Rattle.std.specs.Prelude.{◌-◌, ◌≤◌, map};
    ghost use Rattle.lapin_consumer.specs.Indexed.{reserved_of, promised_of, count_promised};
    ghost use Rattle.std.specs.VecDeque.{deque_len, deque_capacity};
    ghost use Rattle.lapin_consumer.specs.WithRoom.{WithRoom};
    ghost use Rattle.lapin_consumer.specs.Codes.{kept_code};

    ghost Value = { WithRoom };

    ghost coded = { kept_code };

    ghost view = { λ a. record {
      subscriptions = record { consumers = map (λ s. s.consumer) a.seats.items; jobs = a.jobs.items };
      rooms = map reserved_of a.seats.items;
      spare = deque_capacity a.jobs - deque_len a.jobs;
    } };

    ghost invariant = { λ a. count_promised (promised_of a.seats.items) ≤ deque_capacity a.jobs - deque_len a.jobs };
}

impl Hall {
    /// No consumer. It takes no memory yet.
    pub(crate) fn new(alloc: Global) -> Hall
        ensures { result.subscriptions ≡ empty_subscriptions }
    {
        Hall {
            seats: Vec::new(alloc),
            jobs: VecDeque::new(alloc),
        }
    }

    /// The place of a consumer, if the number was given.
    pub(crate) fn place(&self, consumer: u64) -> Option<usize>
        ensures none { IfNone result (consumer_at consumer self.now.subscriptions ≡ None) }
        ensures some { IfSome result (λ p. (consumer ≡ suc p) × (p < length self.now.subscriptions.consumers)) }
    {
        let place = consumer.checked_sub(1)?;
        if place >= self.seats.len() as u64 {
            return None;
        }
        Some(place as usize)
    }

    /// How many consumers there are.
    pub(crate) fn count(&self) -> usize
        ensures { result ≡ length self.now.subscriptions.consumers }
    {
        self.seats.len()
    }

    /// The number of the consumer at a place.
    pub(crate) fn number(&self, place: usize) -> u64
        requires { place < length self.now.subscriptions.consumers }
        ensures { result ≡ suc place }
    {
        let _ = self.seats.len();
        place as u64 + 1
    }

    /// Whether the consumer at a place is registered on a channel.
    pub(crate) fn is_on(&self, channel: u16, place: usize) -> bool
        ensures { result ≡ stays_on channel (slice_get self.now.subscriptions.consumers place) }
    {
        match self.seats.get(place) {
            Some(seat) => seat.is_registered() && seat.channel() == channel,
            None => false,
        }
    }

    /// Adds a consumer that was just registered.
    pub(crate) fn add(
        &mut self,
        alloc: Global,
        channel: u16,
        tag: ShortString,
        queue: ShortString,
    ) -> Result<(), NoMemory>
        ensures ok { OnOk result (self.new.subscriptions ≡ record self.old.subscriptions { consumers = self.old.subscriptions.consumers ++ newcomer channel tag queue ∷ [] }) }
        ensures err { OnErr result (self.new.subscriptions ≡ self.old.subscriptions) }
        ensures kept { (n : ℕ) → n ≤ length self.old.subscriptions.consumers → HasRoom n self.old → HasRoom n self.new }
    {
        self.seats.push(Seat::new(alloc, channel, tag, queue))?;
        Ok(())
    }

    /// The consumer at a place is no longer registered, if a place is named.
    pub(crate) fn unregister(&mut self, gone: Option<usize>)
        requires { IfSome gone (λ p. p < length self.old.subscriptions.consumers) }
        ensures change { self.new.subscriptions ≡ record self.old.subscriptions { consumers = on_place_if unregistered gone self.old.subscriptions.consumers } }
        ensures kept { KeepsRoom self.old self.new }
    {
        if let Some(place) = gone {
            self.seats[place].unregister();
        }
    }

    /// The consumer at a place starts to be cancelled, if a place is named.
    pub(crate) fn start_cancel(&mut self, found: Option<usize>)
        requires { IfSome found (λ p. p < length self.old.subscriptions.consumers) }
        ensures change { self.new.subscriptions ≡ record self.old.subscriptions { consumers = on_place_if canceling found self.old.subscriptions.consumers } }
        ensures kept { KeepsRoom self.old self.new }
    {
        if let Some(place) = found {
            self.seats[place].start_cancel();
        }
    }

    /// The consumer at a place gets its end, in the room that was made.
    pub(crate) fn finish(&mut self, place: usize)
        requires within { place < length self.old.subscriptions.consumers }
        requires room { HasRoom (suc place) self.old }
        ensures consumers { self.new.subscriptions.consumers ≡ on_place finished place self.old.subscriptions.consumers }
        ensures jobs { self.new.subscriptions.jobs ≡ self.old.subscriptions.jobs ++ from_place (offered (suc place) (last_words None)) place self.old.subscriptions.consumers }
        ensures others { KeepsOthers (Some (suc place)) self.old self.new }
    {
        let number = self.number(place);
        finish(number, &mut self.seats[place], &mut self.jobs);
    }

    /// The registered consumers of a channel get what is due to them as its opening ends. The places are theirs.
    pub(crate) fn end(
        &mut self,
        channel: u16,
        places: &[usize],
        error: Option<Error>,
    ) -> Result<(), NoMemory>
        requires { places_at (λ _ x. is_on channel x) self.old.subscriptions.consumers ≡ places.now }
        ensures ok { OnOk result (self.new.subscriptions ≡ after_mark self.old.subscriptions (mark.Ended channel error)) }
        ensures none { OnOk result (places_at (λ _ x. is_on channel x) self.new.subscriptions.consumers ≡ []) }
        ensures err { OnErr result (self.new.subscriptions ≡ self.old.subscriptions) }
        ensures room { HasEnds self.old → IsOk result × HasEnds self.new }
        ensures kept { KeepsRoom self.old self.new }
    {
        make_end_rooms(channel, places, &mut self.seats, &mut self.jobs)?;
        end_all(channel, places, &mut self.seats, &mut self.jobs, error);
        Ok(())
    }

    /// Makes room for an error and an end of every registered consumer. The subscriptions stays, also where there is no memory.
    pub(crate) fn reserve_ends(&mut self) -> Result<(), NoMemory>
        ensures room { OnOk result (HasEnds self.new) }
        ensures same { self.new.subscriptions ≡ self.old.subscriptions }
        ensures kept { KeepsRoom self.old self.new }
    {
        make_all_end_rooms(&mut self.seats, &mut self.jobs)?;
        Ok(())
    }

    /// The registered consumers of a channel start to be cancelled. The places are theirs.
    pub(crate) fn start_cancels(&mut self, channel: u16, places: &[usize])
        requires { places_at (λ _ x. is_on channel x) self.old.subscriptions.consumers ≡ places.now }
        ensures change { self.new.subscriptions ≡ after_mark self.old.subscriptions (mark.CloseAsked channel) }
        ensures kept { KeepsRoom self.old self.new }
    {
        start_cancels(channel, places, &mut self.seats);
    }

    /// What the registered consumers of a channel were handed before is void. The places are theirs.
    pub(crate) fn void(
        &mut self,
        channel: u16,
        places: &[usize],
        switches: &mut Switches,
    ) -> Result<(), NoMemory>
        requires { places_at (λ _ x. is_on channel x) self.old.subscriptions.consumers ≡ places.now }
        ensures ok { OnOk result (self.new.subscriptions ≡ after_mark self.old.subscriptions (mark.Discarded channel)) }
        ensures err { OnErr result (self.new.subscriptions ≡ self.old.subscriptions) }
        ensures void { OnOk result (switches.new.switches ≡ voided (ackers_on channel self.old.subscriptions.consumers) switches.old.switches) }
        ensures same { OnErr result (switches.new.switches ≡ switches.old.switches) }
        ensures kept { KeepsRoom self.old self.new }
    {
        self.jobs.reserve(self.seats.len() + places.len())?;
        void_all(channel, places, &mut self.seats, &mut self.jobs, switches);
        Ok(())
    }

    pub(crate) fn registered(&self, consumer: u64) -> bool
        ensures { result ≡ is_registered consumer self.now.subscriptions }
    {
        match self.place(consumer) {
            Some(place) => self.seats[place].is_registered(),
            None => false,
        }
    }

    pub(crate) fn poll(&mut self, consumer: u64) -> Result<Option<DeliveryResult>, Error>
        ensures answer { result ≡ answered (consumer_at consumer self.old.subscriptions) }
        ensures polled { self.new.subscriptions ≡ after_mark self.old.subscriptions (mark.Polled consumer) }
        ensures kept { KeepsRoom self.old self.new }
    {
        let Some(place) = self.place(consumer) else {
            return Err(Error::UnknownTicket);
        };
        Ok(poll(&mut self.seats[place]))
    }

    /// Whether a poll of the consumer would give something, or a refusal.
    pub(crate) fn is_ready(&self, consumer: u64) -> bool
        ensures { result ≡ is_ready (consumer_at consumer self.now.subscriptions) }
    {
        match self.place(consumer) {
            Some(place) => self.seats[place].is_ready(),
            None => true,
        }
    }

    pub(crate) fn next_job(&mut self) -> Option<Job>
        ensures job { result ≡ slice_get self.old.subscriptions.jobs 0 }
        ensures rest { self.new.subscriptions ≡ after_mark self.old.subscriptions mark.JobAsked }
        ensures kept { KeepsRoom self.old self.new }
    {
        self.jobs.pop_front()
    }

    /// Promises room to the next thing that a consumer is handed. The subscriptions stays, also where there is no memory.
    pub(crate) fn reserve(&mut self, consumer: u64) -> Result<(), NoMemory>
        ensures room { OnOk result (HasRoom consumer self.new) }
        ensures same { self.new.subscriptions ≡ self.old.subscriptions }
        ensures succeeds { HasRoom consumer self.old → IsOk result }
        ensures kept { KeepsRoom self.old self.new }
    {
        let Some(place) = self.place(consumer) else {
            return Ok(());
        };
        if self.seats[place].is_promised() {
            return Ok(());
        }
        let consumers = self.seats.len();
        make_room(&mut self.seats[place], &mut self.jobs, consumers)?;
        Ok(())
    }

    /// A delivery is whole: it goes to its consumer, in the room that was made.
    pub(crate) fn deliver(&mut self, consumer: u64, delivery: Delivery)
        requires registered { is_registered consumer self.old.subscriptions ≡ true }
        requires room { HasRoom consumer self.old }
        ensures change { self.new.subscriptions ≡ after_mark self.old.subscriptions (mark.Completed consumer delivery) }
        ensures others { KeepsOthers (Some consumer) self.old self.new }
    {
        let Some(place) = self.place(consumer) else {
            unreachable!()
        };
        hand_next(
            consumer,
            &mut self.seats[place],
            &mut self.jobs,
            Ok(Some(delivery)),
        );
    }

    /// A consumer is given a delegate: what is queued becomes jobs, in order.
    pub(crate) fn delegate(&mut self, consumer: u64) -> Result<(), Error>
        ensures unknown { (result ≡ Err Error.UnknownTicket) ↔ (consumer_at consumer self.old.subscriptions ≡ None) }
        ensures ok { OnOk result (self.new.subscriptions ≡ after_mark self.old.subscriptions (mark.Delegated consumer)) }
        ensures err { OnErr result (self.new.subscriptions ≡ self.old.subscriptions) }
        ensures cause { IfErr result (λ e. (e ≡ Error.UnknownTicket) ⊎ (e ≡ Error.NoMemory)) }
        ensures kept { KeepsRoom self.old self.new }
    {
        let Some(place) = self.place(consumer) else {
            return Err(Error::UnknownTicket);
        };
        let count = self.seats[place].count();
        let Some(wanted) = self.seats.len().checked_add(count) else {
            return Err(Error::NoMemory);
        };
        if self.jobs.reserve(wanted).is_err() {
            return Err(Error::NoMemory);
        }
        give_delegate(consumer, &mut self.seats[place], &mut self.jobs);
        Ok(())
    }

    /// A consumer is let go of. Answers whether it has to be cancelled: it is then so.
    pub(crate) fn let_go(&mut self, consumer: u64) -> Result<bool, Error>
        ensures answer { result ≡ let_go_answer (consumer_at consumer self.old.subscriptions) }
        ensures change { self.new.subscriptions ≡ after_mark self.old.subscriptions (mark.LetGo consumer) }
        ensures kept { KeepsRoom self.old self.new }
    {
        let Some(place) = self.place(consumer) else {
            return Err(Error::UnknownTicket);
        };
        Ok(cancel_if_idle(&mut self.seats[place]))
    }

    /// What `let_go` would answer.
    pub(crate) fn would_let_go(&self, consumer: u64) -> Result<bool, Error>
        ensures { result ≡ let_go_answer (consumer_at consumer self.now.subscriptions) }
    {
        match self.place(consumer) {
            Some(place) => Ok(self.seats[place].is_idle()),
            None => Err(Error::UnknownTicket),
        }
    }

    pub(crate) fn channel(&self, consumer: u64) -> Option<u16>
        ensures { result ≡ option_map (λ x. x.channel) (consumer_at consumer self.now.subscriptions) }
    {
        match self.place(consumer) {
            Some(place) => Some(self.seats[place].channel()),
            None => None,
        }
    }

    pub(crate) fn tag(&self, consumer: u64) -> Option<&ShortString>
        ensures { option_copied result ≡ option_map (λ x. x.tag) (consumer_at consumer self.now.subscriptions) }
    {
        match self.place(consumer) {
            Some(place) => Some(self.seats[place].tag()),
            None => None,
        }
    }

    pub(crate) fn queue(&self, consumer: u64) -> Option<&ShortString>
        ensures { option_copied result ≡ option_map (λ x. x.queue) (consumer_at consumer self.now.subscriptions) }
    {
        match self.place(consumer) {
            Some(place) => Some(self.seats[place].queue()),
            None => None,
        }
    }
}
