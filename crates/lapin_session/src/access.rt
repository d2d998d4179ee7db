//! A channel's call of the class access (class 30, which brokers keep from AMQP 0-8).
//!
//! A line each over the session's calls. Nothing is kept here, and nothing is decided: which method a call queues and what its ticket
//! is answered with stands in the table of calls.

ghost use Rattle.std.specs.Prelude.{◌≡◌, OnOk, OnErr};
ghost use Rattle.lapin_types.specs.declared.event.Event.TheVariants.{Call as CallEvent};
ghost use Rattle.lapin_types.specs.declared.call.Call.TheVariants as call;
ghost use Rattle.lapin_machine.specs.World.{told_by, next};
ghost use Rattle.lapin_machine.specs.Told.{TicketTold};
ghost use Rattle.lapin_machine.specs.Numbers.{CallCause};

use crate::channel::Channel;
use lapin_machine::{Session, Ticket};
use lapin_types::{AccessRequestOptions, Call, Error, ShortString};
use std::alloc::Global;

impl Channel {
    /// Asks for access to a realm (`access.request`, which brokers keep from AMQP 0-8). The ticket is `Done` at the
    /// broker's `access.request-ok`.
    ///
    /// # Errors
    /// `InvalidChannelState` where the channel is not open, `NumbersUsedUp` where the next ticket would pass the greatest
    /// `u64`, `NoMemory`. Nothing changes then.
    pub fn access_request(
        &self,
        alloc: Global,
        session: &mut Session,
        realm: ShortString,
        options: AccessRequestOptions,
    ) -> Result<Ticket, Error>
        ensures told { TicketTold result (told_by session.old (CallEvent self.now.id (call.AccessRequest realm options))) }
        ensures ok { OnOk result (session.new ≡ next session.old (CallEvent self.now.id (call.AccessRequest realm options))) }
        ensures err { OnErr result (session.new ≡ session.old) }
        ensures cause { CallCause result self.now.id (call.AccessRequest realm options) session.old.wire }
    {
        let call = Call::AccessRequest { realm, options };
        session.call(alloc, self.id, call)
    }
}
