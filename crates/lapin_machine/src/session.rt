//! The session: its parts, its value, and the step over all events.
//!
//! What an event does stands in the files beside this one: calls, closes and the loss, frames that leave, frames of the broker,
//! polls.

ghost use Rattle.std.specs.Prelude.{◌≡◌, ◌≤◌, ◌++◌, ◌∷◌, [], ℕ, false, None, Some, IfOk, OnOk, OnErr};
ghost use Rattle.std.specs.Option.{option_copied};
ghost use Rattle.lapin_tables.specs.ByChannel.{at_channel};
ghost use Rattle.lapin_types.specs.declared.event.Event.TheVariants as event;
ghost use Rattle.lapin_types.specs.declared.leaving.Left.{Left as ALeft};
ghost use Rattle.lapin_types.specs.declared.record.Record.TheVariants as record_;
ghost use Rattle.lapin_rules.specs.Wire.{lists_of, state_of, phase_of};
ghost use Rattle.lapin_rules.specs.Phases.{connection_state as connection_state_lem};
ghost use Rattle.lapin_rules.specs.History.{History, rec};
ghost use Rattle.lapin_machine.specs.World.{told_by, next, new_world};
ghost use Rattle.lapin_machine.specs.Numbers.{HasCause};
ghost use Rattle.lapin_confirm.specs.ConfirmState.{empty_confirm_state};
ghost use Rattle.lapin_delivery.specs.WithRoom.{what};
ghost use Rattle.lapin_delivery.specs.Deliveries.{empty_deliveries};
ghost use Rattle.lapin_outbox.specs.Outgoing.{empty};
ghost use Rattle.lapin_outbox.specs.Returned.{is_retried};
ghost use Rattle.lapin_machine.specs.Returned.{given_back};
ghost use Rattle.lapin_machine.specs.Stands.{Stands};

use lapin_acker::Switches;
use lapin_confirm::Confirms;
use lapin_consumer::Consumers;
use lapin_content::Contents;
use lapin_delivery::Deliveries;
use lapin_outbox::{Outbox, Replies};
use lapin_outstanding::Outstanding;
use lapin_phases::Phases;
use lapin_registry::ChannelDefinition;
use lapin_rules::{ChannelPhase, ConnectionPhase};
use lapin_ticket::Tickets;
use lapin_types::{Call, ChannelState, ConnectionState, Error, Event, NoMemory, Record};
use std::alloc::Global;
use std::marker::Model;

/// One connection's channels, calls and confirms, without a socket. Contracts see it as a `World`: where the connection and
/// its channels stand, lists, requests and counters, the confirms and the tickets.
pub struct Session {
    pub(crate) link: ConnectionPhase,
    pub(crate) phases: Phases,
    pub(crate) outstanding: Outstanding,
    pub(crate) confirms: Confirms,
    pub(crate) contents: Contents,
    pub(crate) deliveries: Deliveries,
}

impl Drop for Session {
    fn drop(self) {
        let Session {
            link: _,
            phases: _,
            outstanding: _,
            confirms: _,
            contents: _,
            deliveries: _,
        } = self;
    }
}

impl Model for Session {
    ghost use Rattle.std.specs.Prelude.{length};
    ghost use Rattle.lapin_machine.specs.World.{World};
    ghost use Rattle.lapin_machine.specs.Codes.{world_code};

    ghost Value = { World };

    ghost coded = { world_code };

    ghost use Rattle.lapin_machine.specs.Tied.{IsKept};
    ghost use Rattle.lapin_delivery.specs.WithRoom.{what};

    ghost view = { λ a. record {
      wire = record {
        frame_max = a.outstanding.outbox.what.frame_max;
        link = a.link;
        phases = a.phases.entries;
        rest = a.outstanding.outbox.what.lists.rest;
        methods = a.outstanding.outbox.what.lists.methods;
        publishes = a.outstanding.outbox.what.lists.publishes;
        requests = a.outstanding.replies.what;
        contents = a.contents;
        tickets = length a.outstanding.tickets.slots;
        published = length a.confirms.what.publish_states.cells;
        deliveries = what a.deliveries;
      };
      confirm_state = a.confirms.what;
      slots = a.outstanding.tickets.slots;
      returned = a.outstanding.outbox.what.returned;
    } };

    ghost invariant = { λ a. IsKept a.link a.phases.entries a.outstanding.outbox.what a.confirms.what.publish_states };
}

impl Session {
    /// A new session: the connection is open and every channel closed. `frame_max` is the greatest size of a frame in bytes
    /// (AMQP 0-9-1, section 4.2.3).
    ///
    /// # Errors
    /// `NoMemory` alone.
    pub fn new(alloc: Global, frame_max: u32) -> Result<Session, NoMemory>
        requires { 4096 ≤ frame_max }
        ensures value { IfOk result (λ session. session ≡ new_world frame_max) }

        // It stands for the history in which nothing happened.
        ensures stands { IfOk result (λ session. Stands frame_max [] session) }
    {
        let phases = Phases::new(alloc);
        let outstanding = new_outstanding(alloc, frame_max);
        let confirms = no_confirms(alloc);
        let contents = no_contents(alloc);
        let deliveries = no_deliveries(alloc);
        Ok(Session {
            link: ConnectionPhase::Open,
            phases,
            outstanding,
            confirms,
            contents,
            deliveries,
        })
    }

    /// The state of a channel. Channel 0 is the connection's own; every channel is down while the connection is not open.
    pub fn channel_state(&self, channel: u16) -> ChannelState
        ensures { result ≡ state_of channel self.now.wire }
    {
        if !self.link.is_up() {
            return ChannelState::Down;
        }
        if channel == 0 {
            return ChannelState::Base;
        }
        self.phase(channel).state()
    }

    /// The state of the connection.
    pub fn connection_state(&self) -> ConnectionState
        ensures { result ≡ connection_state_lem self.now.wire.link }
    {
        self.link.state()
    }

    /// The frames that wait to leave, and beside them the frame that was given back. Nobody poisons it.
    pub fn outbox(&self) -> &Outbox
        ensures lists { result.now.what.lists ≡ lists_of self.now.wire }
        ensures frame_max { result.now.what.frame_max ≡ self.now.wire.frame_max }
        ensures returned { result.now.what.returned ≡ self.now.returned }
        ensures poison { (result.now.what.poison ≡ None) × (result.now.what.errors ≡ []) }
    {
        &self.outstanding.outbox
    }

    /// The open requests of each channel.
    pub fn replies(&self) -> &Replies
        ensures { result.now.what ≡ self.now.wire.requests }
    {
        &self.outstanding.replies
    }

    /// The publishes that were accepted, each until its outcome was given, and the messages that came back.
    pub fn confirms(&self) -> &Confirms
        ensures { result.now.what ≡ self.now.confirm_state }
    {
        &self.confirms
    }

    /// The contents that each channel expects.
    pub fn contents(&self) -> &Contents
        ensures { result.now ≡ self.now.wire.contents }
    {
        &self.contents
    }

    /// The consumers with what waits for them, and the jobs.
    pub fn consumers(&self) -> &Consumers
        ensures { result.now.subscriptions ≡ self.now.wire.deliveries.subscriptions }
    {
        &self.deliveries.consumers
    }

    /// The ackers of the messages that consumers and gets were given.
    pub fn switches(&self) -> &Switches
        ensures { result.now.switches ≡ self.now.wire.deliveries.switches }
    {
        &self.deliveries.switches
    }

    /// What a channel declared and bound in its present or last opening, as far as the broker answered or was asked not to; None
    /// exactly where the channel never had an opening.
    pub fn topology(&self, channel: u16) -> Option<&ChannelDefinition>
        ensures { option_copied result ≡ at_channel channel self.now.wire.deliveries.topologies }
    {
        self.deliveries.topology(channel)
    }

    // Where a channel stands while the connection is open.
    pub(crate) fn phase(&self, channel: u16) -> ChannelPhase
        ensures { result ≡ phase_of channel self.now.wire }
    {
        self.phases.get(channel)
    }

    /// The one door over all events: its record, which the history determines.
    ///
    /// # Errors
    /// `NoMemory`, and `NumbersUsedUp` where a number that the event needs would pass the greatest `u64`. Nothing changes
    /// then. Every other refusal is a record.
    pub fn step(&mut self, alloc: Global, event: Event) -> Result<Record, Error>
        ensures told { IfOk result (λ r. r ≡ told_by self.old event) }
        ensures ok { OnOk result (self.new ≡ next self.old event) }
        ensures err { OnErr result (self.new ≡ self.old) }
        ensures cause { HasCause result event self.old.wire }

        // In the words of a history: its record, and the session then stands for the longer one; but a frame request that gives
        // the frame that was given back is no step of the history.
        ensures stands { IfOk result (λ r. (frame_max : ℕ) (h : History) → given_back self.old.returned event ≡ None → Stands frame_max h self.old →
            (r ≡ rec frame_max h event) × Stands frame_max (h ++ (event, r) ∷ []) self.new) }
        ensures again { IfOk result (λ r. (left : ALeft) (frame_max : ℕ) (h : History) → given_back self.old.returned event ≡ Some left → Stands frame_max h self.old →
            (r ≡ record_.Frame left.frame) × Stands frame_max h self.new) }

        // No step gives a frame back.
        ensures retrying { is_retried self.old.returned ≡ false → is_retried self.new.returned ≡ false }
    {
        self.step_machine(alloc, event)
    }

    fn step_machine(&mut self, alloc: Global, event: Event) -> Result<Record, Error>
        ensures told { IfOk result (λ r. r ≡ told_by self.old event) }
        ensures ok { OnOk result (self.new ≡ next self.old event) }
        ensures err { OnErr result (self.new ≡ self.old) }
        ensures cause { HasCause result event self.old.wire }
    {
        match event {
            Event::Call(channel, call) => self.step_call(alloc, channel, call),
            Event::Next(flow) => self.step_next(alloc, flow),
            Event::Receive(frame) => self.step_receive(alloc, frame),
            Event::PollTicket(number) => Ok(self.step_poll_ticket(number)),
            Event::PollConfirm(number) => Ok(self.step_poll_confirm(number)),
            Event::PollWait(channel) => self.step_wait(alloc, channel),
            Event::AsideTicket(number) => Ok(self.step_aside_ticket(number)),
            Event::AsideConfirm(number) => self.step_aside_confirm(alloc, number),
            Event::State(channel) => Ok(self.step_state(channel)),
            Event::Lost => self.step_lost(alloc),
            Event::PollConsumer(number) => Ok(self.step_poll_consumer(number)),
            Event::Acker(number, call) => self.step_acker(alloc, number, call),
            Event::Delegate(number) => self.step_delegate(alloc, number),
            Event::DropConsumer(number) => self.step_drop(alloc, number),
            Event::NextJob => Ok(self.step_next_job()),
        }
    }
}

// A outstanding on which nothing waits. The parts of a new session take no memory yet, so that none of them fails.
fn new_outstanding(alloc: Global, frame_max: u32) -> Outstanding
    requires { 4096 ≤ frame_max }
    ensures outbox { result.outbox.what ≡ empty frame_max }
    ensures replies { result.replies.what ≡ [] }
    ensures tickets { result.tickets.slots ≡ [] }
{
    Outstanding {
        outbox: Outbox::new(alloc, frame_max).unwrap(),
        replies: no_replies(alloc),
        tickets: Tickets::new(alloc),
    }
}

/// No open request, on any channel.
pub(crate) fn no_replies(alloc: Global) -> Replies
    ensures { result.what ≡ [] }
{
    Replies::new(alloc).unwrap()
}

fn no_confirms(alloc: Global) -> Confirms
    ensures { result.what ≡ empty_confirm_state }
{
    Confirms::new(alloc).unwrap()
}

fn no_contents(alloc: Global) -> Contents
    ensures { result ≡ [] }
{
    Contents::new(alloc).unwrap()
}

fn no_deliveries(alloc: Global) -> Deliveries
    ensures { what result ≡ empty_deliveries }
{
    Deliveries::new(alloc).unwrap()
}
