//! The registries of all channels, each emptied as an opening of its channel begins. When an opening begins and when a request is
//! completed stands in the crates above.

ghost use Rattle.std.specs.Prelude.{◌≡◌, [], None, OnOk, OnErr};
ghost use Rattle.std.specs.Option.{option_copied};
ghost use Rattle.lapin_tables.specs.ByChannel.{at_channel, HasRoom};
ghost use Rattle.lapin_registry.specs.Topology.{empty_definition};
ghost use Rattle.lapin_registry.specs.Topologies.{begun_on, completed_on};

use crate::registry::{ChannelDefinition, Registry};
use lapin_tables::ByChannel;
use lapin_types::{Answer, NoMemory, Reply};
use std::alloc::Global;
use std::marker::Model;

/// The registry of each channel that ever had an opening. A contract sees the table of what they recorded.
pub struct Topologies {
    by_channel: ByChannel<Registry>,
}

impl Drop for Topologies {
    fn drop(self) {
        let Topologies { by_channel: _ } = self;
    }
}

impl Model for Topologies {
    ghost use Rattle.lapin_tables.specs.ByChannel.{Table, table_code};
    ghost use Rattle.lapin_registry.specs.declared.registry.ChannelDefinition.{ChannelDefinition};
    ghost use Rattle.lapin_registry.specs.contracts.registry.ChannelDefinition as channel;

    ghost Value = { Table ChannelDefinition };

    ghost coded = { table_code channel.the_row.coded };

    ghost view = { λ a. a.by_channel };
}

impl Topologies {
    /// No channel had an opening. It takes no memory yet.
    pub fn new(alloc: Global) -> Topologies
        ensures { result.entries ≡ [] }
    {
        Topologies {
            by_channel: ByChannel::new(alloc),
        }
    }

    /// What the present or last opening of a channel declared and bound; None exactly where the channel never had an opening.
    pub fn topology(&self, channel: u16) -> Option<&ChannelDefinition>
        ensures { option_copied result ≡ at_channel channel self.now.entries }
    {
        match self.by_channel.get(channel) {
            Some(registry) => Some(registry.definition()),
            None => None,
        }
    }

    /// Makes room for the `begin` of a channel.
    ///
    /// # Errors
    ///
    /// `NoMemory`; nothing but the room changes.
    pub fn reserve(&mut self, channel: u16) -> Result<(), NoMemory>
        ensures room { OnOk result (HasRoom channel self.new) }
        ensures same { self.new.entries ≡ self.old.entries }
    {
        self.by_channel.reserve(channel)?;
        Ok(())
    }

    /// An opening of a channel begins, in the room that was made: its registry is empty, and every other channel keeps its own.
    pub fn begin(&mut self, alloc: Global, channel: u16)
        requires { at_channel channel self.old.entries ≡ None → HasRoom channel self.old }
        ensures { self.new.entries ≡ begun_on channel self.old.entries }
    {
        if let Some(registry) = self.by_channel.get_mut(channel) {
            registry.clear();
            return;
        }
        self.by_channel
            .insert_reserved(channel, empty_registry(alloc));
    }

    /// A request was completed on a channel, by its reply or in the call without wait: what it declared, bound, unbound or deleted
    /// is recorded. Nothing changes where the channel never had an opening.
    ///
    /// # Errors
    ///
    /// `NoMemory`; nothing changes then.
    pub fn complete(
        &mut self,
        alloc: Global,
        channel: u16,
        reply: &Reply,
        answer: &Answer,
    ) -> Result<(), NoMemory>
        ensures ok { OnOk result (self.new.entries ≡ completed_on channel reply.now answer.now self.old.entries) }
        ensures err { OnErr result (self.new.entries ≡ self.old.entries) }
    {
        if let Some(registry) = self.by_channel.get_mut(channel) {
            return registry.complete(alloc, reply, answer);
        }
        Ok(())
    }
}

// Nothing is recorded yet.
fn empty_registry(alloc: Global) -> Registry
    ensures { result ≡ empty_definition }
{
    Registry::new(alloc).unwrap()
}
