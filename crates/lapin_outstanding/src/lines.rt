//! A line of the table of calls is queued: with the request that it opens, with its answer, or with what its leaving answers.

ghost use Rattle.std.specs.Prelude.{◌≡◌, ◌+◌, ◌^◌, ◌<◌, Some, None, IfOk, length};
ghost use Rattle.std.specs.List.{fold};
ghost use Rattle.lapin_rules.specs.Calls.{awaited_by, made_by, leaving_by};
ghost use Rattle.lapin_rules.specs.Asking.{made_marks};
ghost use Rattle.lapin_rules.specs.Wire.{requests_with};
ghost use Rattle.lapin_rules.specs.TicketReadings as mark;
ghost use Rattle.lapin_outbox.specs.Outgoing.{with_method, with_lists};
ghost use Rattle.lapin_outbox.specs.Poison.{poison_on};
ghost use Rattle.lapin_ticket.specs.Slots as answers;
ghost use Rattle.lapin_outstanding.specs.Rooms.{HasRoom, HasPlace};

use crate::outstanding::Outstanding;
use lapin_rules::{Answered, Row};
use lapin_ticket::Place;
use lapin_types::NoMemory;
use std::alloc::Global;

impl Outstanding {
    /// Queues a call's line under the next ticket, in the room that was made: it opens the request of the reply that it awaits, or answers
    /// the ticket, or the leaving of its frame does.
    pub fn queue_line(&mut self, alloc: Global, channel: u16, row: Row, place: Option<Place>) -> u64
        requires room { HasRoom channel self.old }
        requires numbers { length self.old.tickets.slots + 1 < 2 ^ 64 }
        requires unpoisoned { poison_on channel self.old.outbox.what ≡ None }
        requires place { HasPlace row.answered place }
        ensures ticket { result ≡ length self.old.tickets.slots + 1 }
        ensures outbox { self.new.outbox.what ≡ with_lists (with_method (record { channel = channel; method = row.method; ticket = Some (length self.old.tickets.slots + 1) }) self.old.outbox.what.lists) self.old.outbox.what }
        ensures requests { self.new.replies.what ≡ requests_with channel (length self.old.tickets.slots + 1) (awaited_by row.answered) self.old.replies.what }
        ensures slots { self.new.tickets.slots ≡ fold answers.after_mark (answers.after_mark self.old.tickets.slots (mark.Given channel (leaving_by row.answered))) (made_marks (length self.old.tickets.slots + 1) (made_by row.answered)) }
    {
        let Row { method, answered } = row;
        match answered {
            Answered::ByReply(reply) => self.queue_awaiting(alloc, channel, method, reply),
            Answered::AtOnce(reply, answer) => {
                drop(reply);
                self.queue_answered(alloc, channel, method, answer, place.unwrap())
            }
            Answered::AsItLeaves(at_leaving) => self.queue(alloc, channel, method, at_leaving),
        }
    }
}

/// The room for the answer of a line that is answered at once; another needs none.
pub fn place_at_once(alloc: Global, answered: &Answered) -> Result<Option<Place>, NoMemory>
    ensures { IfOk result (λ place. HasPlace answered.now place) }
{
    match answered {
        Answered::AtOnce(_, _) => Ok(Some(Place::new(alloc)?)),
        _ => Ok(None),
    }
}
