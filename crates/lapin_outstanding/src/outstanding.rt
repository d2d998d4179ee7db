//! The parts that a call of a method touches: frames that wait, open requests, tickets.
//!
//! First all room is made, which may fail and changes nothing that a contract of the session sees; then the call is queued,
//! which cannot fail.

ghost use Rattle.std.specs.Prelude.{◌≡◌, ◌&&◌, ◌||◌, ◌+◌, ◌^◌, ◌<◌, Some, None, Ok, OnOk, length};
ghost use Rattle.std.specs.List.{fold};
ghost use Rattle.lapin_types.specs.declared.answer.Answer.TheVariants as answer;
ghost use Rattle.lapin_outbox.specs.Outgoing.{with_method, with_lists};
ghost use Rattle.lapin_outbox.specs.Poison.{poison_on};
ghost use Rattle.lapin_outbox.specs.Open.{spare_on};
ghost use Rattle.lapin_confirm.specs.PublishStates.{asked_on};
ghost use Rattle.lapin_confirm.specs.ConfirmState.{waits_on};
ghost use Rattle.lapin_rules.specs.Drops.{is_rest_of};
ghost use Rattle.lapin_rules.specs.Wire.{requests_with};
ghost use Rattle.lapin_rules.specs.TicketReadings as mark;
ghost use Rattle.lapin_rules.specs.Asking.{made_marks};
ghost use Rattle.lapin_rules.specs.declared.marks.AtLeaving.TheVariants as leaving;
ghost use Rattle.lapin_rules.specs.Requests.{with_request, resolved_with};
ghost use Rattle.lapin_rules.specs.Handing.{left_tickets, begun_ticket, last_ticket};
ghost use Rattle.lapin_ticket.specs.Slots.{after_mark};
ghost use Rattle.lapin_outstanding.specs.Rooms.{HasRoom, SameOutstanding};

use lapin_confirm::Confirms;
use lapin_outbox::{Outbox, Replies};
use lapin_rules::AtLeaving;
use lapin_ticket::{Held, Place, Tickets};
use lapin_types::{Answer, Left, Method, NoMemory, Reply, Request};
use std::alloc::Global;

/// Frames that wait, open requests and tickets. Nobody poisons the outbox here: what is queued is queued.
pub struct Outstanding {
    pub outbox: Outbox,
    pub replies: Replies,
    pub tickets: Tickets,
}

impl Drop for Outstanding {
    fn drop(self) {
        let Outstanding {
            outbox: _,
            replies: _,
            tickets: _,
        } = self;
    }
}

impl Outstanding {
    /// Makes room for one call on a channel.
    pub fn reserve(&mut self, alloc: Global, channel: u16) -> Result<(), NoMemory>
        ensures room { OnOk result (HasRoom channel self.new) }
        ensures same { SameOutstanding self.old self.new }
    {
        self.outbox.reserve(alloc)?;
        self.replies.reserve(alloc, channel)?;
        self.tickets.reserve(alloc, channel)?;
        Ok(())
    }

    /// Makes room for one call on a channel, and for the answer that the call makes itself.
    pub fn reserve_answered(&mut self, alloc: Global, channel: u16) -> Result<Place, NoMemory>
        ensures room { OnOk result (HasRoom channel self.new) }
        ensures same { SameOutstanding self.old self.new }
    {
        self.reserve(alloc, channel)?;
        Place::new(alloc)
    }

    /// Queues the method of a call under the next ticket, and opens the request of the reply that it awaits.
    pub fn queue_awaiting(
        &mut self,
        alloc: Global,
        channel: u16,
        method: Method,
        reply: Reply,
    ) -> u64
        requires room { HasRoom channel self.old }
        requires numbers { length self.old.tickets.slots + 1 < 2 ^ 64 }
        requires unpoisoned { poison_on channel self.old.outbox.what ≡ None }
        ensures ticket { result ≡ length self.old.tickets.slots + 1 }
        ensures outbox { self.new.outbox.what ≡ with_lists (with_method (record { channel = channel; method = method; ticket = Some (length self.old.tickets.slots + 1) }) self.old.outbox.what.lists) self.old.outbox.what }
        ensures requests { self.new.replies.what ≡ requests_with channel (length self.old.tickets.slots + 1) (Some reply) self.old.replies.what }
        ensures slots { self.new.tickets.slots ≡ after_mark self.old.tickets.slots (mark.Given channel leaving.Nothing) }
    {
        let ticket = self.queue(alloc, channel, method, AtLeaving::Nothing);
        self.open_request(alloc, channel, Some(ticket), reply);
        ticket
    }

    /// Queues the method of a call that has its answer already, under the next ticket, and answers the ticket, in the room
    /// that was made for the answer.
    pub fn queue_answered(
        &mut self,
        alloc: Global,
        channel: u16,
        method: Method,
        answer: Answer,
        place: Place,
    ) -> u64
        requires room { HasRoom channel self.old }
        requires numbers { length self.old.tickets.slots + 1 < 2 ^ 64 }
        requires unpoisoned { poison_on channel self.old.outbox.what ≡ None }
        ensures ticket { result ≡ length self.old.tickets.slots + 1 }
        ensures outbox { self.new.outbox.what ≡ with_lists (with_method (record { channel = channel; method = method; ticket = Some (length self.old.tickets.slots + 1) }) self.old.outbox.what.lists) self.old.outbox.what }
        ensures requests { self.new.replies.what ≡ self.old.replies.what }
        ensures slots { self.new.tickets.slots ≡ fold after_mark (after_mark self.old.tickets.slots (mark.Given channel leaving.Nothing)) (made_marks (length self.old.tickets.slots + 1) (Some answer)) }
    {
        let ticket = self.queue(alloc, channel, method, AtLeaving::Nothing);
        self.tickets.answer(ticket, Held::in_place(place, answer));
        ticket
    }

    /// Queues the method of a call under the next ticket, with the answer that the leaving of its frame gives, if it gives one.
    pub fn queue(
        &mut self,
        alloc: Global,
        channel: u16,
        method: Method,
        at_leaving: AtLeaving,
    ) -> u64
        requires room { HasRoom channel self.old }
        requires numbers { length self.old.tickets.slots + 1 < 2 ^ 64 }
        requires unpoisoned { poison_on channel self.old.outbox.what ≡ None }
        ensures ticket { result ≡ length self.old.tickets.slots + 1 }
        ensures outbox { self.new.outbox.what ≡ with_lists (with_method (record { channel = channel; method = method; ticket = Some (length self.old.tickets.slots + 1) }) self.old.outbox.what.lists) self.old.outbox.what }
        ensures replies { self.new.replies ≡ self.old.replies }
        ensures slots { self.new.tickets.slots ≡ after_mark self.old.tickets.slots (mark.Given channel at_leaving) }
    {
        let ticket = self.tickets.give(channel, at_leaving);
        let _queued = self
            .outbox
            .push_method_reserved(channel, method, Some(ticket));
        ticket
    }

    // Opens a request on a channel, in the room that was made.
    fn open_request(&mut self, alloc: Global, channel: u16, ticket: Option<u64>, reply: Reply)
        requires room { 0 < spare_on channel self.old.replies }
        ensures requests { self.new.replies.what ≡ with_request channel (record { ticket = ticket; reply = reply }) self.old.replies.what }
        ensures outbox { self.new.outbox ≡ self.old.outbox }
        ensures tickets { self.new.tickets ≡ self.old.tickets }
    {
        let request = Request { ticket, reply };
        self.replies.expect(alloc, channel, request).unwrap();
    }

    /// Queues a method that no call asked for, in the room that was made.
    pub fn queue_own(&mut self, alloc: Global, channel: u16, method: Method)
        requires room { 0 < self.old.outbox.spare }
        requires unpoisoned { poison_on channel self.old.outbox.what ≡ None }
        ensures outbox { self.new.outbox.what ≡ with_lists (with_method (record { channel = channel; method = method; ticket = None }) self.old.outbox.what.lists) self.old.outbox.what }
        ensures replies { self.new.replies ≡ self.old.replies }
        ensures tickets { self.new.tickets ≡ self.old.tickets }
    {
        let _queued = self.outbox.push_method_reserved(channel, method, None);
    }

    /// Queues a method and opens the request of the reply that it awaits, for which nobody holds a ticket, in the room that was
    /// made: a consumer is let go.
    pub fn queue_unheld(&mut self, alloc: Global, channel: u16, method: Method, reply: Reply)
        requires room { HasRoom channel self.old }
        requires unpoisoned { poison_on channel self.old.outbox.what ≡ None }
        ensures outbox { self.new.outbox.what ≡ with_lists (with_method (record { channel = channel; method = method; ticket = None }) self.old.outbox.what.lists) self.old.outbox.what }
        ensures requests { self.new.replies.what ≡ with_request channel (record { ticket = None; reply = reply }) self.old.replies.what }
        ensures tickets { self.new.tickets ≡ self.old.tickets }
    {
        self.queue_own(alloc, channel, method);
        self.open_request(alloc, channel, None, reply);
    }

    /// Resolves a ticket with an answer, in the room that was made for it, if somebody holds the ticket.
    pub fn resolve(&mut self, ticket: Option<u64>, answer: Answer, place: Place)
        ensures slots { self.new.tickets.slots ≡ fold after_mark self.old.tickets.slots (resolved_with (Ok answer) ticket) }
        ensures outbox { self.new.outbox ≡ self.old.outbox }
        ensures replies { self.new.replies ≡ self.old.replies }
        ensures room { self.new.tickets.ready ≡ self.old.tickets.ready }
    {
        self.answer(ticket, Held::in_place(place, answer));
    }

    /// The call of a ticket is done and has nothing to tell, if somebody holds the ticket. It takes no room.
    pub fn done(&mut self, ticket: Option<u64>)
        ensures slots { self.new.tickets.slots ≡ fold after_mark self.old.tickets.slots (resolved_with (Ok answer.Done) ticket) }
        ensures outbox { self.new.outbox ≡ self.old.outbox }
        ensures replies { self.new.replies ≡ self.old.replies }
        ensures room { self.new.tickets.ready ≡ self.old.tickets.ready }
    {
        self.answer(ticket, Held::done());
    }

    // Answers a ticket, if somebody holds it.
    fn answer(&mut self, ticket: Option<u64>, answer: Held)
        ensures slots { self.new.tickets.slots ≡ fold after_mark self.old.tickets.slots (resolved_with answer ticket) }
        ensures outbox { self.new.outbox ≡ self.old.outbox }
        ensures replies { self.new.replies ≡ self.old.replies }
        ensures room { self.new.tickets.ready ≡ self.old.tickets.ready }
    {
        match ticket {
            Some(ticket) => self.tickets.answer(ticket, answer),
            None => drop(answer),
        }
    }

    /// Whether there is something to wait for on a channel whose confirms are waited for: it asked for confirms, and one of its publishes
    /// is queued, has begun and not left whole, or is pending.
    pub fn is_waited_on(&self, confirms: &Confirms, channel: u16) -> bool
        ensures { result ≡ (waits_on channel confirms.now.what.publish_states || (asked_on channel confirms.now.what.publish_states && is_rest_of channel self.now.outbox.what.lists.rest)) }
    {
        confirms.asked(channel)
            && (confirms.queued(channel) > 0
                || confirms.pending(channel) > 0
                || self.outbox.is_amid(channel))
    }

    /// A frame leaves: a publish begins with its first, and with the last frame of a call its ticket gets the answer that the
    /// leaving gives, if it gives one.
    pub fn leave(&mut self, left: &Left)
        ensures slots { self.new.tickets.slots ≡ fold after_mark self.old.tickets.slots (left_tickets (Some left.now)) }
        ensures outbox { self.new.outbox ≡ self.old.outbox }
        ensures replies { self.new.replies ≡ self.old.replies }
    {
        first_left(&mut self.tickets, left);
        last_left(&mut self.tickets, left);
    }
}

// The first frame of a publish leaves.
fn first_left(tickets: &mut Tickets, left: &Left)
    ensures { tickets.new.slots ≡ fold after_mark tickets.old.slots (begun_ticket left.now.first left.now.ticket left.now.publish) }
{
    if let (true, Some(ticket), Some(_)) = (left.first, left.ticket, left.publish) {
        tickets.begin(ticket);
    }
}

// The last frame of a call leaves.
fn last_left(tickets: &mut Tickets, left: &Left)
    ensures { tickets.new.slots ≡ fold after_mark tickets.old.slots (last_ticket left.now.last left.now.ticket) }
{
    if let (true, Some(ticket)) = (left.last, left.ticket) {
        tickets.leave(ticket);
    }
}
