//! A channel's calls on publisher confirms: that of the class confirm (class 85, RabbitMQ), and the limit of outstanding ones.
//!
//! A line each over the session's calls. Nothing is kept here, and nothing is decided: which method a call queues and what its ticket
//! is answered with stands in the table of calls.

ghost use Rattle.std.specs.Prelude.{◌≡◌, OnOk, OnErr};
ghost use Rattle.lapin_types.specs.declared.event.Event.TheVariants.{Call as CallEvent};
ghost use Rattle.lapin_types.specs.declared.call.Call.TheVariants as call;
ghost use Rattle.lapin_machine.specs.World.{told_by, next};
ghost use Rattle.lapin_machine.specs.Told.{TicketTold};
ghost use Rattle.lapin_machine.specs.Numbers.{CallCause};

use crate::channel::Channel;
use lapin_machine::{Session, Ticket};
use lapin_types::{Call, ConfirmSelectOptions, Error};
use std::alloc::Global;

impl Channel {
    /// Asks the broker to confirm the publishes of this channel (RabbitMQ, `confirm.select`). Publishes whose method
    /// frame leaves after this one's frame are numbered from 1. The ticket is `Done` at the broker's
    /// `confirm.select-ok`, with `nowait` at once.
    ///
    /// # Errors
    /// `InvalidChannelState` where the channel is not open, `NumbersUsedUp` where the next ticket would pass the greatest
    /// `u64`, `NoMemory`. Nothing changes then.
    pub fn confirm_select(
        &self,
        alloc: Global,
        session: &mut Session,
        options: ConfirmSelectOptions,
    ) -> Result<Ticket, Error>
        ensures told { TicketTold result (told_by session.old (CallEvent self.now.id (call.ConfirmSelect options))) }
        ensures ok { OnOk result (session.new ≡ next session.old (CallEvent self.now.id (call.ConfirmSelect options))) }
        ensures err { OnErr result (session.new ≡ session.old) }
        ensures cause { CallCause result self.now.id (call.ConfirmSelect options) session.old.wire }
    {
        let call = Call::ConfirmSelect { options };
        session.call(alloc, self.id, call)
    }

    /// Limits how many confirms of this opening of the channel may be outstanding: publishes that have a number, since their method
    /// frame left after that of `confirm.select`, and that the broker has neither acked nor nacked. 0 stands for no limit, as at the
    /// beginning of an opening. While as many are outstanding, the next publish of the channel waits and does not begin to leave;
    /// publishes of other channels leave meanwhile. `try_basic_publish` is refused at the limit. Nothing is sent, and the ticket is
    /// `Done` at once.
    ///
    /// # Errors
    /// `InvalidChannelState` where the channel is not open, `NumbersUsedUp` where the next ticket would pass the greatest
    /// `u64`, `NoMemory`. Nothing changes then.
    pub fn confirm_limit(
        &self,
        alloc: Global,
        session: &mut Session,
        limit: u64,
    ) -> Result<Ticket, Error>
        ensures told { TicketTold result (told_by session.old (CallEvent self.now.id (call.ConfirmLimit limit))) }
        ensures ok { OnOk result (session.new ≡ next session.old (CallEvent self.now.id (call.ConfirmLimit limit))) }
        ensures err { OnErr result (session.new ≡ session.old) }
        ensures cause { CallCause result self.now.id (call.ConfirmLimit limit) session.old.wire }
    {
        session.call(alloc, self.id, Call::ConfirmLimit { limit })
    }
}
