//! A caller's calls of the class channel (AMQP 0-9-1, class 20), each as one step.
//!
//! A line each over `step`. Nothing is kept here, and nothing is decided: what a call does stands in the table of calls.

ghost use Rattle.lapin_types.specs.declared.call.Call.TheVariants as call;
ghost use Rattle.lapin_types.specs.declared.event.Event.TheVariants as event;
ghost use Rattle.lapin_shared.specs.Failed.{IsStep};

use crate::caller::{Caller, StepError};
use lapin_locked::{Crew, Told};
use lapin_types::{Call, ChannelFlowOptions, Event, ShortString};
use std::alloc::Global;
use std::sync::Wait;

impl<L: Crew> Caller<L> {
    ghost use Rattle.std.specs.Prelude.{⊤};
    ghost use Rattle.std.specs.Borrow.{sem, follows_so};
    ghost use mathlib.Core.Option.{none};
    ghost use Rattle.lapin_shared.specs.contracts.caller.Caller.{the_row};

    /// Closes a channel (AMQP 0-9-1, `channel.close`).
    pub fn channel_close<R: Wait>(
        &mut self,
        rt: &R,
        alloc: Global,
        channel: u16,
        reply_code: u16,
        reply_text: ShortString,
    ) -> Result<&Told, StepError>
        ensures* after { sem 𝓛 (follows_so (the_row L.row L.Ledger) (the_row L.row L.Ledger) self.entry.ghost_name none (λ _ _. ⊤) (λ new. IsStep result (λ t. t.now) self.old (event.Call channel (call.ChannelClose reply_code reply_text)) new)) }
    {
        let call = Call::ChannelClose {
            reply_code,
            reply_text,
        };
        self.step(rt, alloc, Event::Call(channel, call))
    }

    /// Asks the broker to send contents on a channel, or to pause (AMQP 0-9-1, `channel.flow`).
    pub fn channel_flow<R: Wait>(
        &mut self,
        rt: &R,
        alloc: Global,
        channel: u16,
        options: ChannelFlowOptions,
    ) -> Result<&Told, StepError>
        ensures* after { sem 𝓛 (follows_so (the_row L.row L.Ledger) (the_row L.row L.Ledger) self.entry.ghost_name none (λ _ _. ⊤) (λ new. IsStep result (λ t. t.now) self.old (event.Call channel (call.ChannelFlow options)) new)) }
    {
        let call = Call::ChannelFlow { options };
        self.step(rt, alloc, Event::Call(channel, call))
    }
}
