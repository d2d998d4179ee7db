//! A caller's call of the class access (class 30, which brokers keep from AMQP 0-8), as one step.
//!
//! A line each over `step`. Nothing is kept here, and nothing is decided: what a call does stands in the table of calls.

ghost use Rattle.lapin_types.specs.declared.call.Call.TheVariants as call;
ghost use Rattle.lapin_types.specs.declared.event.Event.TheVariants as event;
ghost use Rattle.lapin_shared.specs.Failed.{IsStep};

use crate::caller::{Caller, StepError};
use lapin_locked::{Crew, Told};
use lapin_types::{AccessRequestOptions, Call, Event, ShortString};
use std::alloc::Global;
use std::sync::Wait;

impl<L: Crew> Caller<L> {
    ghost use Rattle.std.specs.Prelude.{⊤};
    ghost use Rattle.std.specs.Borrow.{sem, follows_so};
    ghost use mathlib.Core.Option.{none};
    ghost use Rattle.lapin_shared.specs.contracts.caller.Caller.{the_row};

    /// Asks for access to a realm (`access.request`).
    pub fn access_request<R: Wait>(
        &mut self,
        rt: &R,
        alloc: Global,
        channel: u16,
        realm: ShortString,
        options: AccessRequestOptions,
    ) -> Result<&Told, StepError>
        ensures* after { sem 𝓛 (follows_so (the_row L.row L.Ledger) (the_row L.row L.Ledger) self.entry.ghost_name none (λ _ _. ⊤) (λ new. IsStep result (λ t. t.now) self.old (event.Call channel (call.AccessRequest realm options)) new)) }
    {
        let call = Call::AccessRequest { realm, options };
        self.step(rt, alloc, Event::Call(channel, call))
    }
}
