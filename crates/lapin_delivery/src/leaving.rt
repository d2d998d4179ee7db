//! How consumers leave: by a cancel, or as the opening of their channel ends, which ends its ackers too; and how what they were
//! handed becomes void.

ghost use Rattle.std.specs.Prelude.{◌≡◌, OnOk, OnErr, IsOk, IfSome};
ghost use Rattle.lapin_consumer.specs.WithRoom.{HasRoom, HasEnds};
ghost use Rattle.lapin_consumer.specs.Subscriptions.{found, after_mark as after_consumer_mark};
ghost use Rattle.lapin_consumer.specs.Marks as consumer_mark;
ghost use Rattle.lapin_delivery.specs.Deliveries.{after_mark};
ghost use Rattle.lapin_delivery.specs.Marks as mark;
ghost use Rattle.lapin_delivery.specs.WithRoom.{what};

use crate::deliveries::Deliveries;
use lapin_consumer::Consumers;
use lapin_types::{Error, NoMemory};
use std::alloc::Global;

impl Deliveries {
    /// This side asked to close a channel: its registered consumers start to be cancelled, and have no delegate from now on.
    pub fn ask_close(&mut self, channel: u16)
        ensures { what self.new ≡ after_mark (what self.old) (mark.CloseAsked channel) }
    {
        self.consumers.start_cancel(channel);
    }

    /// This side asked to cancel the consumer of a tag (AMQP 0-9-1, `basic.cancel`): it has no delegate from now on. Nothing changes
    /// where none is registered under the tag.
    pub fn ask_cancel(&mut self, channel: u16, tag: &str)
        ensures { what self.new ≡ after_mark (what self.old) (mark.CancelAsked channel tag.now) }
    {
        self.consumers.start_cancel_one(channel, tag);
    }

    /// The consumer of a tag is cancelled (AMQP 0-9-1, `basic.cancel-ok`, or the broker's `basic.cancel`): it gets its end, as a job
    /// where it has a delegate, and is registered no more. Its ackers may still be used. Nothing changes where none is registered
    /// under the tag.
    ///
    /// # Errors
    /// `NoMemory`; nothing but the room changes.
    pub fn cancel(&mut self, alloc: Global, channel: u16, tag: &str) -> Result<(), NoMemory>
        ensures ok { OnOk result (what self.new ≡ after_mark (what self.old) (mark.Canceled channel tag.now)) }
        ensures err { OnErr result (what self.new ≡ what self.old) }
    {
        self.consumers.deregister(alloc, channel, tag)
    }

    /// This side cancels the consumer of a tag without wait (AMQP 0-9-1, `basic.cancel` with `no-wait`): it is asked and done at once.
    ///
    /// # Errors
    /// `NoMemory`; nothing but the room changes.
    pub fn cancel_at_once(&mut self, alloc: Global, channel: u16, tag: &str) -> Result<(), NoMemory>
        ensures ok { OnOk result (what self.new ≡ after_mark (after_mark (what self.old) (mark.CancelAsked channel tag.now)) (mark.Canceled channel tag.now)) }
        ensures err { OnErr result (what self.new ≡ what self.old) }
    {
        self.reserve_cancel(alloc, channel, tag)?;
        self.ask_and_cancel(alloc, channel, tag);
        Ok(())
    }

    // Makes room for the end of the consumer of a tag, if one is registered.
    fn reserve_cancel(&mut self, alloc: Global, channel: u16, tag: &str) -> Result<(), NoMemory>
        ensures room { OnOk result (IfSome (found channel tag.now self.new.consumers.subscriptions) (λ n. HasRoom n self.new.consumers)) }
        ensures same { what self.new ≡ what self.old }
    {
        match self.consumers.find(channel, tag) {
            Some(consumer) => self.consumers.reserve_item(alloc, consumer),
            None => Ok(()),
        }
    }

    // The consumer of a tag starts to be cancelled and gets its end, in the room that was made.
    fn ask_and_cancel(&mut self, alloc: Global, channel: u16, tag: &str)
        requires { IfSome (found channel tag.now self.old.consumers.subscriptions) (λ n. HasRoom n self.old.consumers) }
        ensures { what self.new ≡ after_mark (after_mark (what self.old) (mark.CancelAsked channel tag.now)) (mark.Canceled channel tag.now) }
    {
        self.consumers.start_cancel_one(channel, tag);
        self.consumers.deregister(alloc, channel, tag).unwrap();
    }

    /// Makes room for the ends of all channels, so that `end` needs no more memory. It looks at every consumer that was ever
    /// registered: it is meant for the end of a connection.
    ///
    /// # Errors
    /// `NoMemory`; nothing but the room changes.
    pub fn reserve_ends(&mut self, alloc: Global) -> Result<(), NoMemory>
        ensures room { OnOk result (HasEnds self.new.consumers) }
        ensures same { what self.new ≡ what self.old }
    {
        self.consumers.reserve_ends(alloc)
    }

    /// The opening of a channel ended, in the room that `reserve_ends` made: as `end_channel`, without a failure. The room of the
    /// other channels is left.
    pub fn end(&mut self, alloc: Global, channel: u16, error: Option<Error>)
        requires { HasEnds self.old.consumers }
        ensures ended { what self.new ≡ after_mark (what self.old) (mark.Ended channel error) }
        ensures room { HasEnds self.new.consumers }
    {
        self.end_channel(alloc, channel, error).unwrap();
    }

    /// The opening of a channel ended, by close-ok for a close of this side or with an error: each registered consumer gets the error,
    /// if there is one, and its end, in rising number, and is registered no more. The ackers of the channel are over (AMQP 0-9-1,
    /// `channel.close`).
    ///
    /// # Errors
    /// `NoMemory`, but not in the room that `reserve_ends` made; nothing but the room changes.
    pub fn end_channel(
        &mut self,
        alloc: Global,
        channel: u16,
        error: Option<Error>,
    ) -> Result<(), NoMemory>
        ensures ok { OnOk result (what self.new ≡ after_mark (what self.old) (mark.Ended channel error)) }
        ensures err { OnErr result (what self.new ≡ what self.old) }
        ensures room { HasEnds self.old.consumers → IsOk result × HasEnds self.new.consumers }
    {
        end_consumers(&mut self.consumers, alloc, channel, error)?;
        self.switches.end(channel);
        Ok(())
    }

    /// What the registered consumers of a channel were handed before is void, since the broker delivers it again (AMQP 0-9-1,
    /// `basic.recover`): their queues are emptied, the ackers of what was queued are unusable, and each consumer that has a delegate
    /// gets a job to discard, in rising number.
    ///
    /// # Errors
    /// `NoMemory`; nothing but the room changes.
    pub fn discard(&mut self, alloc: Global, channel: u16) -> Result<(), NoMemory>
        ensures ok { OnOk result (what self.new ≡ after_mark (what self.old) (mark.Discarded channel)) }
        ensures err { OnErr result (what self.new ≡ what self.old) }
    {
        self.consumers
            .drop_prefetched(alloc, channel, &mut self.switches)
    }
}

// The consumers of a channel get what is due to them as its opening ends.
fn end_consumers(
    consumers: &mut Consumers,
    alloc: Global,
    channel: u16,
    error: Option<Error>,
) -> Result<(), NoMemory>
    ensures ok { OnOk result (consumers.new.subscriptions ≡ after_consumer_mark consumers.old.subscriptions (consumer_mark.Ended channel error)) }
    ensures err { OnErr result (consumers.new.subscriptions ≡ consumers.old.subscriptions) }
    ensures room { HasEnds consumers.old → IsOk result × HasEnds consumers.new }
{
    match error {
        Some(error) => consumers.error(alloc, channel, error),
        None => consumers.cancel(alloc, channel),
    }
}
