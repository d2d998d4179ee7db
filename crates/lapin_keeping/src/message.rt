//! What is handed over. Each publish of a message is the same call, so a second copy has the same `message_id`.

ghost use Rattle.std.specs.Prelude.{◌≡◌, IfOk};
ghost use Rattle.std.specs.Bool.{Decides};
ghost use Rattle.lapin_keeping.specs.Returns.{IsLike};

use lapin_types::{BasicProperties, BasicPublishOptions, Delivery, NoMemory, Payload, ShortString};
use std::alloc::Global;
use std::marker::Model;

/// A message to be stored by a broker.
#[derive(Debug, Drop)]
pub struct Message {
    /// The exchange to publish to, empty for the default one.
    pub exchange: ShortString,
    /// The routing key.
    pub routing_key: ShortString,
    /// Whether it comes back where no queue wants it.
    pub options: BasicPublishOptions,
    /// The bytes of the message.
    pub payload: Payload,
    /// Its properties.
    pub properties: BasicProperties,
}

impl Message {
    /// An equal message, in memory of its own.
    ///
    /// # Errors
    /// `NoMemory` alone.
    pub fn try_clone(&self, alloc: Global) -> Result<Message, NoMemory>
        ensures { IfOk result (λ copy. copy ≡ self.now) }
    {
        Ok(Message {
            exchange: self.exchange.try_clone(alloc)?,
            routing_key: self.routing_key.try_clone(alloc)?,
            options: self.options,
            payload: self.payload.try_clone(alloc)?,
            properties: self.properties.try_clone(alloc)?,
        })
    }

    /// Whether a message that came back has this one's exchange, routing key and bytes, and its properties too where they have to be its own.
    pub fn is_like(&self, delivery: &Delivery, exact: bool) -> bool
        ensures { Decides result (IsLike exact delivery.now self.now) }
    {
        self.exchange == delivery.exchange
            && self.routing_key == delivery.routing_key
            && self.payload == delivery.payload
            && (!exact || self.properties.same(&delivery.properties))
    }
}

/// A message in memory of its own, so that a list of messages moves no more than a pointer of each. A contract sees the message.
pub struct Placed {
    message: Box<Message>,
}

impl Drop for Placed {
    fn drop(self) {
        let Placed { message: _ } = self;
    }
}

impl Model for Placed {
    ghost use Rattle.std.specs.Prelude.{box_value};
    ghost use Rattle.lapin_keeping.specs.declared.message.Message.{Message as AMessage};
    ghost use Rattle.lapin_keeping.specs.contracts.message.Message as message_row;

    ghost Value = { AMessage };

    ghost coded = { message_row.the_row.coded };

    ghost view = { λ p. box_value p.message };
}

impl Placed {
    /// The message, in memory of its own.
    ///
    /// # Errors
    /// `NoMemory` alone.
    pub fn new(alloc: Global, message: Message) -> Result<Placed, NoMemory>
        ensures { IfOk result (λ placed. placed ≡ message) }
    {
        Ok(Placed {
            message: Box::new(alloc, message)?,
        })
    }

    /// Whether a message that came back is like this one, as `Message::is_like`.
    pub fn is_like(&self, delivery: &Delivery, exact: bool) -> bool
        ensures { Decides result (IsLike exact delivery.now self.now) }
    {
        self.message.is_like(delivery, exact)
    }

    /// An equal message.
    ///
    /// # Errors
    /// `NoMemory` alone.
    pub fn copied(&self, alloc: Global) -> Result<Message, NoMemory>
        ensures { IfOk result (λ copy. copy ≡ self.now) }
    {
        self.message.try_clone(alloc)
    }
}
