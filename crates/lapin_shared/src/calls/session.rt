//! The calls of a session that belong to no open channel, each as one step of a caller.
//!
//! A line each over `step`. Nothing is kept here, and nothing is decided: what a call does stands in the table of calls.

ghost use Rattle.lapin_types.specs.declared.call.Call.TheVariants as call;
ghost use Rattle.lapin_types.specs.declared.event.Event.TheVariants as event;
ghost use Rattle.lapin_shared.specs.Failed.{IsStep};

use crate::caller::{Caller, StepError};
use lapin_locked::{Crew, Told};
use lapin_types::{Call, Event, Frame};
use std::alloc::Global;
use std::sync::Wait;

impl<L: Crew> Caller<L> {
    ghost use Rattle.std.specs.Prelude.{⊤};
    ghost use Rattle.std.specs.Borrow.{sem, follows_so};
    ghost use mathlib.Core.Option.{none};
    ghost use Rattle.lapin_shared.specs.contracts.caller.Caller.{the_row};

    /// Opens a channel (AMQP 0-9-1, `channel.open`). The ticket is answered with the `Channel`'s number at the broker's
    /// `channel.open-ok`.
    pub fn open_channel<R: Wait>(
        &mut self,
        rt: &R,
        alloc: Global,
        channel: u16,
    ) -> Result<&Told, StepError>
        ensures* after { sem 𝓛 (follows_so (the_row L.row L.Ledger) (the_row L.row L.Ledger) self.entry.ghost_name none (λ _ _. ⊤) (λ new. IsStep result (λ t. t.now) self.old (event.Call channel call.OpenChannel) new)) }
    {
        self.step(rt, alloc, Event::Call(channel, Call::OpenChannel))
    }

    /// Asks for the next frame that leaves. `flow` is whether contents may begin.
    pub fn next_frame<R: Wait>(
        &mut self,
        rt: &R,
        alloc: Global,
        flow: bool,
    ) -> Result<&Told, StepError>
        ensures* after { sem 𝓛 (follows_so (the_row L.row L.Ledger) (the_row L.row L.Ledger) self.entry.ghost_name none (λ _ _. ⊤) (λ new. IsStep result (λ t. t.now) self.old (event.Next flow) new)) }
    {
        self.step(rt, alloc, Event::Next(flow))
    }

    /// Takes a frame of the broker.
    pub fn receive<R: Wait>(
        &mut self,
        rt: &R,
        alloc: Global,
        frame: Frame,
    ) -> Result<&Told, StepError>
        ensures* after { sem 𝓛 (follows_so (the_row L.row L.Ledger) (the_row L.row L.Ledger) self.entry.ghost_name none (λ _ _. ⊤) (λ new. IsStep result (λ t. t.now) self.old (event.Receive frame) new)) }
    {
        self.step(rt, alloc, Event::Receive(frame))
    }

    /// Asks for the answer of a ticket, which is given once. It may be pending.
    pub fn poll_ticket<R: Wait>(
        &mut self,
        rt: &R,
        alloc: Global,
        number: u64,
    ) -> Result<&Told, StepError>
        ensures* after { sem 𝓛 (follows_so (the_row L.row L.Ledger) (the_row L.row L.Ledger) self.entry.ghost_name none (λ _ _. ⊤) (λ new. IsStep result (λ t. t.now) self.old (event.PollTicket number) new)) }
    {
        self.step(rt, alloc, Event::PollTicket(number))
    }

    /// Asks for the outcome of a publish (RabbitMQ, publisher confirms), which is given once. It may be pending.
    pub fn poll_confirm<R: Wait>(
        &mut self,
        rt: &R,
        alloc: Global,
        number: u64,
    ) -> Result<&Told, StepError>
        ensures* after { sem 𝓛 (follows_so (the_row L.row L.Ledger) (the_row L.row L.Ledger) self.entry.ghost_name none (λ _ _. ⊤) (λ new. IsStep result (λ t. t.now) self.old (event.PollConfirm number) new)) }
    {
        self.step(rt, alloc, Event::PollConfirm(number))
    }

    /// Asks for the next item of a consumer: a delivery, the error that ended its channel, or its end. It may be pending.
    pub fn poll_next<R: Wait>(
        &mut self,
        rt: &R,
        alloc: Global,
        consumer: u64,
    ) -> Result<&Told, StepError>
        ensures* after { sem 𝓛 (follows_so (the_row L.row L.Ledger) (the_row L.row L.Ledger) self.entry.ghost_name none (λ _ _. ⊤) (λ new. IsStep result (λ t. t.now) self.old (event.PollConsumer consumer) new)) }
    {
        self.step(rt, alloc, Event::PollConsumer(consumer))
    }

    /// Waits for all confirms of a channel, and asks for the messages that came back. It may be pending.
    pub fn wait_for_confirms<R: Wait>(
        &mut self,
        rt: &R,
        alloc: Global,
        channel: u16,
    ) -> Result<&Told, StepError>
        ensures* after { sem 𝓛 (follows_so (the_row L.row L.Ledger) (the_row L.row L.Ledger) self.entry.ghost_name none (λ _ _. ⊤) (λ new. IsStep result (λ t. t.now) self.old (event.PollWait channel) new)) }
    {
        self.step(rt, alloc, Event::PollWait(channel))
    }

    /// Sets a confirm aside: its outcome is asked for no more.
    pub fn set_aside<R: Wait>(
        &mut self,
        rt: &R,
        alloc: Global,
        number: u64,
    ) -> Result<&Told, StepError>
        ensures* after { sem 𝓛 (follows_so (the_row L.row L.Ledger) (the_row L.row L.Ledger) self.entry.ghost_name none (λ _ _. ⊤) (λ new. IsStep result (λ t. t.now) self.old (event.AsideConfirm number) new)) }
    {
        self.step(rt, alloc, Event::AsideConfirm(number))
    }
}
