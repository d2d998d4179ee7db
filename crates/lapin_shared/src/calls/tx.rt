//! A caller's calls of the class tx (AMQP 0-9-1, class 90), each as one step.
//!
//! A line each over `step`. Nothing is kept here, and nothing is decided: what a call does stands in the table of calls.

ghost use Rattle.lapin_types.specs.declared.call.Call.TheVariants as call;
ghost use Rattle.lapin_types.specs.declared.event.Event.TheVariants as event;
ghost use Rattle.lapin_shared.specs.Failed.{IsStep};

use crate::caller::{Caller, StepError};
use lapin_locked::{Crew, Told};
use lapin_types::{Call, Event};
use std::alloc::Global;
use std::sync::Wait;

impl<L: Crew> Caller<L> {
    ghost use Rattle.std.specs.Prelude.{⊤};
    ghost use Rattle.std.specs.Borrow.{sem, follows_so};
    ghost use mathlib.Core.Option.{none};
    ghost use Rattle.lapin_shared.specs.contracts.caller.Caller.{the_row};

    /// Begins transactions on a channel (AMQP 0-9-1, `tx.select`).
    pub fn tx_select<R: Wait>(
        &mut self,
        rt: &R,
        alloc: Global,
        channel: u16,
    ) -> Result<&Told, StepError>
        ensures* after { sem 𝓛 (follows_so (the_row L.row L.Ledger) (the_row L.row L.Ledger) self.entry.ghost_name none (λ _ _. ⊤) (λ new. IsStep result (λ t. t.now) self.old (event.Call channel call.TxSelect) new)) }
    {
        self.step(rt, alloc, Event::Call(channel, Call::TxSelect))
    }

    /// Commits a channel's transaction (AMQP 0-9-1, `tx.commit`).
    pub fn tx_commit<R: Wait>(
        &mut self,
        rt: &R,
        alloc: Global,
        channel: u16,
    ) -> Result<&Told, StepError>
        ensures* after { sem 𝓛 (follows_so (the_row L.row L.Ledger) (the_row L.row L.Ledger) self.entry.ghost_name none (λ _ _. ⊤) (λ new. IsStep result (λ t. t.now) self.old (event.Call channel call.TxCommit) new)) }
    {
        self.step(rt, alloc, Event::Call(channel, Call::TxCommit))
    }

    /// Rolls a channel's transaction back (AMQP 0-9-1, `tx.rollback`).
    pub fn tx_rollback<R: Wait>(
        &mut self,
        rt: &R,
        alloc: Global,
        channel: u16,
    ) -> Result<&Told, StepError>
        ensures* after { sem 𝓛 (follows_so (the_row L.row L.Ledger) (the_row L.row L.Ledger) self.entry.ghost_name none (λ _ _. ⊤) (λ new. IsStep result (λ t. t.now) self.old (event.Call channel call.TxRollback) new)) }
    {
        self.step(rt, alloc, Event::Call(channel, Call::TxRollback))
    }
}
