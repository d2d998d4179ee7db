//! Where each channel stands, and how many open channels the broker paused.
//!
//! The number stands beside the table, so that a frame request costs the same with one channel and with sixty thousand.
#![tactic(auto)]

ghost use Rattle.std.specs.Prelude.{◌≡◌, ◌+◌, ◌<◌, ◌≤◌, true, [], Some, None, OnOk, if◌then◌else◌};
ghost use Rattle.std.specs.List.{list_any};
ghost use Rattle.lapin_tables.specs.ByChannel.{at_channel, HasRoom};
ghost use Rattle.lapin_rules.specs.Words.{with_channel};
ghost use Rattle.lapin_rules.specs.Phases.{phase_in, is_live};
ghost use Rattle.lapin_rules.specs.Moves.{after};
ghost use Rattle.lapin_rules.specs.Ends.{live_below, live_channels};
ghost use Rattle.lapin_rules.specs.Flow.{is_paused_on};

use lapin_rules::{ChannelMove, ChannelPhase};
use lapin_tables::ByChannel;
use std::alloc::{AllocError, Global};
use std::marker::Model;

/// Where each channel stands that was ever opened. Contracts see the table alone.
pub struct Phases {
    table: ByChannel<ChannelPhase>,
    paused: usize,
}

impl Drop for Phases {
    fn drop(self) {
        let Phases {
            table: _,
            paused: _,
        } = self;
    }
}

impl Model for Phases {
    ghost use Rattle.std.specs.Prelude.{◌≡◌};
    ghost use Rattle.lapin_tables.specs.ByChannel.{Table, table_code};
    ghost use Rattle.lapin_rules.specs.declared.phases.ChannelPhase.{ChannelPhase};
    ghost use Rattle.lapin_rules.specs.contracts.phases.ChannelPhase as phase_row;
    ghost use Rattle.lapin_phases.specs.Paused.{paused_among};

    ghost Value = { Table ChannelPhase };

    ghost coded = { table_code phase_row.the_row.coded };

    ghost view = { λ a. a.table };

    ghost invariant = { λ a. a.paused ≡ paused_among a.table.entries };
}

impl Phases {
    /// No channel was opened. It takes no memory.
    pub fn new(alloc: Global) -> Phases
        ensures { result.entries ≡ [] }
    {
        Phases {
            table: ByChannel::new(alloc),
            paused: 0,
        }
    }

    /// Where a channel stands.
    pub fn get(&self, channel: u16) -> ChannelPhase
        ensures { result ≡ phase_in (at_channel channel self.now.entries) }
    {
        match self.table.get(channel) {
            Some(phase) => *phase,
            None => ChannelPhase::Closed,
        }
    }

    /// Above every channel that was opened. With `live_at` it leads through the live openings in rising number of their channel.
    pub fn reach(&self) -> usize
        ensures { live_below result self.now.entries ≡ live_channels self.now.entries }
    {
        self.table.reach()
    }

    /// The channel of this number, if its opening is live.
    pub fn live_at(&self, number: usize) -> Option<u16>
        ensures { result ≡ (if is_live (phase_in (at_channel number self.now.entries)) then Some number else None) }
    {
        match self.table.entry_at(number) {
            Some((channel, phase)) if phase.is_live() => Some(*channel),
            _ => None,
        }
    }

    /// Whether an open channel is paused.
    pub fn is_any_paused(&self) -> bool
        ensures { result ≡ list_any is_paused_on self.now.entries }
    {
        self.paused > 0
    }

    /// No channel is open any more, or opening or closing.
    pub fn clear(&mut self)
        ensures { self.new.entries ≡ [] }
    {
        self.table.clear();
        self.paused = 0;
    }

    /// Makes room for `go` on a channel.
    pub fn reserve(&mut self, channel: u16) -> Result<(), AllocError>
        ensures room { OnOk result (HasRoom channel self.new) }
        ensures same { self.new.entries ≡ self.old.entries }
    {
        self.table.reserve(channel)
    }

    /// Moves a channel. Nothing else does, but for the end of all of them by `clear`.
    pub fn go(&mut self, channel: u16, happening: ChannelMove)
        requires { at_channel channel self.old.entries ≡ None → HasRoom channel self.old }
        ensures { self.new.entries ≡ with_channel channel (after (phase_in (at_channel channel self.old.entries)) happening) self.old.entries }
    {
        let phase = self.get(channel);
        self.set(channel, phase.after(happening));
    }

    fn set(&mut self, channel: u16, phase: ChannelPhase)
        requires { at_channel channel self.old.entries ≡ None → HasRoom channel self.old }
        ensures { self.new.entries ≡ with_channel channel phase self.old.entries }
    {
        let was = self.get(channel).is_paused();
        put(&mut self.table, channel, phase);
        let held = self.table.entries().len();
        self.paused = recounted(self.paused, was, phase.is_paused(), held);
    }
}

// One channel fewer, one more, or neither or both, of at most `held`.
fn recounted(count: usize, was: bool, is: bool, held: usize) -> usize
    requires some { was ≡ true → 0 < count }
    requires bound { count + (if is then 1 else 0) ≤ held + (if was then 1 else 0) }
    ensures { result + (if was then 1 else 0) ≡ count + (if is then 1 else 0) }
{
    let _ = held;
    match (was, is) {
        (true, false) => count - 1,
        (false, true) => count + 1,
        _ => count,
    }
}

fn put(phases: &mut ByChannel<ChannelPhase>, channel: u16, phase: ChannelPhase)
    requires { at_channel channel phases.old.entries ≡ None → HasRoom channel phases.old }
    ensures { phases.new.entries ≡ with_channel channel phase phases.old.entries }
{
    if let Some(held) = phases.get_mut(channel) {
        *held = phase;
        return;
    }
    phases.insert_reserved(channel, phase);
}
