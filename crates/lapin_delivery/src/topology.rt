//! What the channels of a connection declared and bound: an opening begins, a request is completed, and what that comes to.

ghost use Rattle.std.specs.Prelude.{◌≡◌, OnOk, OnErr};
ghost use Rattle.std.specs.Option.{option_copied};
ghost use Rattle.lapin_tables.specs.ByChannel.{at_channel, HasRoom};
ghost use Rattle.lapin_delivery.specs.Deliveries.{after_mark};
ghost use Rattle.lapin_delivery.specs.Marks as mark;
ghost use Rattle.lapin_delivery.specs.WithRoom.{what};

use crate::deliveries::Deliveries;
use lapin_registry::ChannelDefinition;
use lapin_types::{Answer, NoMemory, Reply};
use std::alloc::Global;

impl Deliveries {
    /// What the present or last opening of a channel declared and bound; `None` exactly where the channel never had an opening.
    pub fn topology(&self, channel: u16) -> Option<&ChannelDefinition>
        ensures { option_copied result ≡ at_channel channel (what self.now).topologies }
    {
        self.topologies.topology(channel)
    }

    /// Makes room for the `begin` of a channel.
    ///
    /// # Errors
    /// `NoMemory`; nothing but the room changes.
    pub fn reserve_opening(&mut self, channel: u16) -> Result<(), NoMemory>
        ensures room { OnOk result (HasRoom channel self.new.topologies) }
        ensures same { what self.new ≡ what self.old }
    {
        self.topologies.reserve(channel)
    }

    /// An opening of a channel begins, in the room that was made: it declared nothing yet.
    pub fn begin(&mut self, alloc: Global, channel: u16)
        requires { HasRoom channel self.old.topologies }
        ensures { what self.new ≡ after_mark (what self.old) (mark.Opened channel) }
    {
        self.topologies.begin(alloc, channel);
    }

    /// A request of a channel got its answer: what it declared, bound, unbound or deleted is recorded (AMQP 0-9-1, classes exchange and
    /// queue).
    ///
    /// # Errors
    /// `NoMemory`; nothing changes then.
    pub fn complete(
        &mut self,
        alloc: Global,
        channel: u16,
        reply: &Reply,
        answer: &Answer,
    ) -> Result<(), NoMemory>
        ensures ok { OnOk result (what self.new ≡ after_mark (what self.old) (mark.Completed channel reply.now answer.now)) }
        ensures err { OnErr result (what self.new ≡ what self.old) }
    {
        self.topologies.complete(alloc, channel, reply, answer)
    }
}
