//! What arrives from the broker: deliveries of consumers and messages of gets, each with its acker. First all room is made, which
//! may fail and changes nothing that a caller sees; then it arrives, which cannot fail.

ghost use Rattle.std.specs.Prelude.{◌≡◌, ◌+◌, ◌^◌, ◌↔◌, ◌⊎◌, Err, OnOk, IfErr, length};
ghost use Rattle.lapin_delivery.specs.Deliveries.{after_mark};
ghost use Rattle.lapin_delivery.specs.Marks as mark;
ghost use Rattle.lapin_delivery.specs.WithRoom.{what, HasAckerRoom, HasDeliveryRoom};

use crate::deliveries::Deliveries;
use lapin_types::{Delivery, Error};
use std::alloc::Global;

impl Deliveries {
    /// Makes room for the next acker, for the message of a get.
    ///
    /// # Errors
    /// `NumbersUsedUp` exactly where its number would pass the greatest `u64`; `NoMemory`. Nothing but the room changes.
    pub fn reserve_acker(&mut self, alloc: Global) -> Result<(), Error>
        ensures room { OnOk result (HasAckerRoom self.new) }
        ensures same { what self.new ≡ what self.old }
        ensures consumers { self.new.consumers ≡ self.old.consumers }
        ensures cause { IfErr result (λ e. (e ≡ Error.NumbersUsedUp) ⊎ (e ≡ Error.NoMemory)) }
        ensures used_up { (result ≡ Err Error.NumbersUsedUp) ↔ (length (what self.old).switches + 1 ≡ 2 ^ 64) }
    {
        if self.switches.count() == u64::MAX {
            return Err(Error::NumbersUsedUp);
        }
        if self.switches.reserve(alloc).is_err() {
            return Err(Error::NoMemory);
        }
        Ok(())
    }

    /// Makes room for the next delivery of a consumer, and for its acker.
    ///
    /// # Errors
    /// `NumbersUsedUp` exactly where the number of its acker would pass the greatest `u64`; `NoMemory`. Nothing but the room changes.
    pub fn reserve_delivery(&mut self, alloc: Global, consumer: u64) -> Result<(), Error>
        ensures room { OnOk result (HasDeliveryRoom consumer self.new) }
        ensures same { what self.new ≡ what self.old }
        ensures cause { IfErr result (λ e. (e ≡ Error.NumbersUsedUp) ⊎ (e ≡ Error.NoMemory)) }
        ensures used_up { (result ≡ Err Error.NumbersUsedUp) ↔ (length (what self.old).switches + 1 ≡ 2 ^ 64) }
    {
        self.reserve_acker(alloc)?;
        if self.consumers.reserve_item(alloc, consumer).is_err() {
            return Err(Error::NoMemory);
        }
        Ok(())
    }

    /// The message of a get is whole, in the room that was made: it is given the next acker, whose number is the answer (AMQP 0-9-1,
    /// `basic.get-ok`).
    pub fn got(&mut self, alloc: Global, channel: u16, delivery_tag: u64) -> u64
        requires { HasAckerRoom self.old }
        ensures number { result ≡ length (what self.old).switches + 1 }
        ensures got { what self.new ≡ after_mark (what self.old) (mark.Got channel delivery_tag) }
        ensures consumers { self.new.consumers ≡ self.old.consumers }
    {
        self.switches.add(alloc, channel, 0, delivery_tag).unwrap()
    }

    /// A delivery for a consumer is whole, in the room that was made: it goes into the consumer's queue, or becomes a job where that
    /// has a delegate, and gets the next acker on the channel and for the delivery tag that its acker names (AMQP 0-9-1,
    /// `basic.deliver`). `next_acker` tells the number that its acker is to have. It is dropped where the consumer isn't registered.
    pub fn deliver(&mut self, alloc: Global, consumer: u64, delivery: Delivery)
        requires { HasDeliveryRoom consumer self.old }
        ensures { what self.new ≡ after_mark (what self.old) (mark.Delivered consumer delivery) }
    {
        let acker = &delivery.acker;
        let _number = self.got(alloc, acker.channel_id, acker.delivery_tag);
        let _taken = self.consumers.complete(alloc, consumer, delivery).unwrap();
    }
}
