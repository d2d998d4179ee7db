//! A channel's calls of the class tx (AMQP 0-9-1, class 90).
//!
//! A line each over the session's calls. Nothing is kept here, and nothing is decided: which method a call queues and what its ticket
//! is answered with stands in the table of calls.

ghost use Rattle.std.specs.Prelude.{◌≡◌, OnOk, OnErr};
ghost use Rattle.lapin_types.specs.declared.event.Event.TheVariants.{Call as CallEvent};
ghost use Rattle.lapin_types.specs.declared.call.Call.TheVariants as call;
ghost use Rattle.lapin_machine.specs.World.{told_by, next};
ghost use Rattle.lapin_machine.specs.Told.{TicketTold};
ghost use Rattle.lapin_machine.specs.Numbers.{CallCause};

use crate::channel::Channel;
use lapin_machine::{Session, Ticket};
use lapin_types::{Call, Error};
use std::alloc::Global;

impl Channel {
    /// Begins transactions on this channel (AMQP 0-9-1, `tx.select`). The ticket is `Done` at the broker's
    /// `tx.select-ok`.
    ///
    /// # Errors
    /// `InvalidChannelState` where the channel is not open, `NumbersUsedUp` where the next ticket would pass the greatest
    /// `u64`, `NoMemory`. Nothing changes then.
    pub fn tx_select(&self, alloc: Global, session: &mut Session) -> Result<Ticket, Error>
        ensures told { TicketTold result (told_by session.old (CallEvent self.now.id call.TxSelect)) }
        ensures ok { OnOk result (session.new ≡ next session.old (CallEvent self.now.id call.TxSelect)) }
        ensures err { OnErr result (session.new ≡ session.old) }
        ensures cause { CallCause result self.now.id call.TxSelect session.old.wire }
    {
        let call = Call::TxSelect;
        session.call(alloc, self.id, call)
    }

    /// Commits the transaction (AMQP 0-9-1, `tx.commit`). The ticket is `Done` at the broker's `tx.commit-ok`.
    ///
    /// # Errors
    /// `InvalidChannelState` where the channel is not open, `NumbersUsedUp` where the next ticket would pass the greatest
    /// `u64`, `NoMemory`. Nothing changes then.
    pub fn tx_commit(&self, alloc: Global, session: &mut Session) -> Result<Ticket, Error>
        ensures told { TicketTold result (told_by session.old (CallEvent self.now.id call.TxCommit)) }
        ensures ok { OnOk result (session.new ≡ next session.old (CallEvent self.now.id call.TxCommit)) }
        ensures err { OnErr result (session.new ≡ session.old) }
        ensures cause { CallCause result self.now.id call.TxCommit session.old.wire }
    {
        let call = Call::TxCommit;
        session.call(alloc, self.id, call)
    }

    /// Rolls the transaction back (AMQP 0-9-1, `tx.rollback`). The ticket is `Done` at the broker's `tx.rollback-ok`.
    ///
    /// # Errors
    /// `InvalidChannelState` where the channel is not open, `NumbersUsedUp` where the next ticket would pass the greatest
    /// `u64`, `NoMemory`. Nothing changes then.
    pub fn tx_rollback(&self, alloc: Global, session: &mut Session) -> Result<Ticket, Error>
        ensures told { TicketTold result (told_by session.old (CallEvent self.now.id call.TxRollback)) }
        ensures ok { OnOk result (session.new ≡ next session.old (CallEvent self.now.id call.TxRollback)) }
        ensures err { OnErr result (session.new ≡ session.old) }
        ensures cause { CallCause result self.now.id call.TxRollback session.old.wire }
    {
        let call = Call::TxRollback;
        session.call(alloc, self.id, call)
    }
}
