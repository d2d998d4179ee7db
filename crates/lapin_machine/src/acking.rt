//! Calls of ackers.
//!
//! An acker is used up by its first call. The call is then made on the acker's channel, as the application's own would be; which
//! ackers may be used stands in `lapin_acker`.

ghost use Rattle.std.specs.Prelude.{◌≡◌, IfOk, OnOk, OnErr};
ghost use Rattle.lapin_types.specs.declared.event.Event.TheVariants as event;
ghost use Rattle.lapin_rules.specs.declared.calls.Asked.TheVariants as ask;
ghost use Rattle.lapin_rules.specs.Asking.{call_record};
ghost use Rattle.lapin_rules.specs.Ackers.{usable_at};
ghost use Rattle.lapin_machine.specs.World.{told_by, next, asking, spending};
ghost use Rattle.lapin_machine.specs.Told.{TicketTold, AckTold, WasMade, ack_told};
ghost use Rattle.lapin_machine.specs.Numbers.{HasCause, AskCause, AckCause};

use crate::channel::Ticket;
use crate::session::Session;
use lapin_rules::{Row, acker_row};
use lapin_types::{AckerCall, Error, Record};
use std::alloc::Global;

impl Session {
    /// Calls an acker (AMQP 0-9-1, `basic.ack` and `basic.reject`; RabbitMQ, `basic.nack`): the call is made on its channel, with the
    /// delivery tag of its message, and the ticket answers yes as the frame leaves. `None` exactly where the acker isn't usable: it
    /// was used, what it acknowledges is void, its opening ended, or the number was never given.
    ///
    /// # Errors
    /// `InvalidChannelState` where the channel is closing: the acker is then used up. `NumbersUsedUp` where the next ticket would
    /// pass the greatest `u64`, and `NoMemory`: nothing changes then.
    pub fn acker_call(
        &mut self,
        alloc: Global,
        acker: u64,
        call: AckerCall,
    ) -> Result<Option<Ticket>, Error>
        ensures told { AckTold result (told_by self.old (event.Acker acker call)) }
        ensures ok { WasMade result (self.new ≡ next self.old (event.Acker acker call)) (self.new ≡ self.old) }
        ensures cause { AckCause result (usable_at acker self.old.wire) call self.old.wire }
    {
        let Some((channel, delivery_tag)) = self.deliveries.peek(acker) else {
            return Ok(None);
        };
        let row = acker_row(call, delivery_tag);
        match self.use_up(alloc, acker, channel, row) {
            Ok(ticket) => Ok(Some(ticket)),
            Err(error) => Err(error),
        }
    }

    // A call is made, and the acker is used up by it, also where the channel's state refuses it.
    fn use_up(&mut self, alloc: Global, acker: u64, channel: u16, row: Row) -> Result<Ticket, Error>
        ensures told { TicketTold result (call_record channel (ask.Method row) self.old.wire) }
        ensures ok { WasMade result (self.new ≡ spending acker (asking channel (ask.Method row) self.old)) (self.new ≡ self.old) }
        ensures cause { AskCause result channel (ask.Method row) self.old.wire }
    {
        match self.queue_row(alloc, channel, row) {
            Ok(ticket) => {
                let _used = self.deliveries.spend(acker);
                Ok(ticket)
            }
            Err(Error::NoMemory) => Err(Error::NoMemory),
            Err(Error::NumbersUsedUp) => Err(Error::NumbersUsedUp),
            Err(error) => {
                let _used = self.deliveries.spend(acker);
                Err(error)
            }
        }
    }

    pub(crate) fn step_acker(
        &mut self,
        alloc: Global,
        acker: u64,
        call: AckerCall,
    ) -> Result<Record, Error>
        ensures told { IfOk result (λ r. r ≡ told_by self.old (event.Acker acker call)) }
        ensures ok { OnOk result (self.new ≡ next self.old (event.Acker acker call)) }
        ensures err { OnErr result (self.new ≡ self.old) }
        ensures cause { HasCause result (event.Acker acker call) self.old.wire }
    {
        ack_record(self.acker_call(alloc, acker, call))
    }
}

// The record of an acker's call; want of memory and of numbers have none.
fn ack_record(told: Result<Option<Ticket>, Error>) -> Result<Record, Error>
    ensures { result ≡ ack_told told }
{
    match told {
        Ok(Some(ticket)) => Ok(Record::Ticket(ticket.number)),
        Ok(None) => Ok(Record::No),
        Err(Error::NoMemory) => Err(Error::NoMemory),
        Err(Error::NumbersUsedUp) => Err(Error::NumbersUsedUp),
        Err(error) => Ok(Record::Refused(error)),
    }
}
