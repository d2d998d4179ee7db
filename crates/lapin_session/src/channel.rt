//! A channel by its number, with the calls of the class channel (AMQP 0-9-1, class 20).
//!
//! A line each over the session's calls. Nothing is kept here, and nothing is decided: which method a call queues and what its ticket
//! is answered with stands in the table of calls.

ghost use Rattle.std.specs.Prelude.{◌≡◌, OnOk, OnErr};
ghost use Rattle.lapin_types.specs.declared.event.Event.TheVariants.{Call as CallEvent};
ghost use Rattle.lapin_types.specs.declared.call.Call.TheVariants as call;
ghost use Rattle.lapin_machine.specs.World.{told_by, next};
ghost use Rattle.lapin_machine.specs.Told.{TicketTold};
ghost use Rattle.lapin_machine.specs.Numbers.{CallCause};

use lapin_machine::{Session, Ticket};
use lapin_types::{Call, ChannelFlowOptions, Error, ShortString};
use std::alloc::Global;

/// A channel of a session, by its number (AMQP 0-9-1, section 2.2.5). Its calls stand in a file a class.
#[derive(Clone, Copy, Debug)]
pub struct Channel {
    /// The channel's number.
    pub id: u16,
}

impl Channel {
    /// Closes this channel (AMQP 0-9-1, `channel.close`), with a reply code and a reply text. Publishes that have not
    /// begun are rejected at once; a begun one and methods that were called before leave first. The ticket is `Done` at
    /// the broker's `channel.close-ok`, and everything else of the opening that is unresolved then fails.
    ///
    /// # Errors
    /// `InvalidChannelState` where the channel is not open, `NumbersUsedUp` where the next ticket would pass the greatest
    /// `u64`, `NoMemory`. Nothing changes then.
    pub fn channel_close(
        &self,
        alloc: Global,
        session: &mut Session,
        reply_code: u16,
        reply_text: ShortString,
    ) -> Result<Ticket, Error>
        ensures told { TicketTold result (told_by session.old (CallEvent self.now.id (call.ChannelClose reply_code reply_text))) }
        ensures ok { OnOk result (session.new ≡ next session.old (CallEvent self.now.id (call.ChannelClose reply_code reply_text))) }
        ensures err { OnErr result (session.new ≡ session.old) }
        ensures cause { CallCause result self.now.id (call.ChannelClose reply_code reply_text) session.old.wire }
    {
        let call = Call::ChannelClose {
            reply_code,
            reply_text,
        };
        session.call(alloc, self.id, call)
    }

    /// Asks the broker to send contents on this channel, or to pause (AMQP 0-9-1, `channel.flow`). The ticket is
    /// answered with `Flow` and the value of the broker's `channel.flow-ok`.
    ///
    /// # Errors
    /// `InvalidChannelState` where the channel is not open, `NumbersUsedUp` where the next ticket would pass the greatest
    /// `u64`, `NoMemory`. Nothing changes then.
    pub fn channel_flow(
        &self,
        alloc: Global,
        session: &mut Session,
        options: ChannelFlowOptions,
    ) -> Result<Ticket, Error>
        ensures told { TicketTold result (told_by session.old (CallEvent self.now.id (call.ChannelFlow options))) }
        ensures ok { OnOk result (session.new ≡ next session.old (CallEvent self.now.id (call.ChannelFlow options))) }
        ensures err { OnErr result (session.new ≡ session.old) }
        ensures cause { CallCause result self.now.id (call.ChannelFlow options) session.old.wire }
    {
        let call = Call::ChannelFlow { options };
        session.call(alloc, self.id, call)
    }
}
