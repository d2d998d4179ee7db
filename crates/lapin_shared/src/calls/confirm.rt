//! A caller's calls on publisher confirms, each as one step: that of the class confirm (class 85, RabbitMQ), and the limit of
//! outstanding ones.
//!
//! A line each over `step`. Nothing is kept here, and nothing is decided: what a call does stands in the table of calls.

ghost use Rattle.lapin_types.specs.declared.call.Call.TheVariants as call;
ghost use Rattle.lapin_types.specs.declared.event.Event.TheVariants as event;
ghost use Rattle.lapin_shared.specs.Failed.{IsStep};

use crate::caller::{Caller, StepError};
use lapin_locked::{Crew, Told};
use lapin_types::{Call, ConfirmSelectOptions, Event};
use std::alloc::Global;
use std::sync::Wait;

impl<L: Crew> Caller<L> {
    ghost use Rattle.std.specs.Prelude.{⊤};
    ghost use Rattle.std.specs.Borrow.{sem, follows_so};
    ghost use mathlib.Core.Option.{none};
    ghost use Rattle.lapin_shared.specs.contracts.caller.Caller.{the_row};

    /// Asks the broker to confirm the publishes of a channel (RabbitMQ, `confirm.select`).
    pub fn confirm_select<R: Wait>(
        &mut self,
        rt: &R,
        alloc: Global,
        channel: u16,
        options: ConfirmSelectOptions,
    ) -> Result<&Told, StepError>
        ensures* after { sem 𝓛 (follows_so (the_row L.row L.Ledger) (the_row L.row L.Ledger) self.entry.ghost_name none (λ _ _. ⊤) (λ new. IsStep result (λ t. t.now) self.old (event.Call channel (call.ConfirmSelect options)) new)) }
    {
        let call = Call::ConfirmSelect { options };
        self.step(rt, alloc, Event::Call(channel, call))
    }

    /// Limits how many confirms of a channel's opening may be outstanding; 0 stands for no limit. Nothing is sent.
    pub fn confirm_limit<R: Wait>(
        &mut self,
        rt: &R,
        alloc: Global,
        channel: u16,
        limit: u64,
    ) -> Result<&Told, StepError>
        ensures* after { sem 𝓛 (follows_so (the_row L.row L.Ledger) (the_row L.row L.Ledger) self.entry.ghost_name none (λ _ _. ⊤) (λ new. IsStep result (λ t. t.now) self.old (event.Call channel (call.ConfirmLimit limit)) new)) }
    {
        let call = Call::ConfirmLimit { limit };
        self.step(rt, alloc, Event::Call(channel, call))
    }
}
