//! Messages: a delivery, what a get gave, and what the broker returned. How they come from frames stands in
//! the crates above.

ghost use Rattle.std.specs.Prelude.{◌≡◌, IfOk, option_map, false};
ghost use Rattle.std.specs.Bool.{Decides};
ghost use Rattle.lapin_types.specs.Messages.{mocked, error_of};

use crate::acker::Acker;
use crate::reply_code::{AMQPError, AMQPErrorKind};
use lapin_methods::Error;
use lapin_values::{BasicProperties, NoMemory, Payload, ShortString};
use std::alloc::Global;

/// What a consumer is handed: a delivery, its end (None), or the error that ended its channel.
pub type DeliveryResult = Result<Option<Delivery>, Error>;

/// A whole message that came from a queue (AMQP 0-9-1, `basic.deliver` and `basic.get-ok`).
#[derive(Debug, PartialEq, Drop)]
pub struct Delivery {
    /// The tag that the broker gave, 0 of a returned message.
    pub delivery_tag: u64,
    /// The exchange that it was published to.
    pub exchange: ShortString,
    /// The routing key that it was published with.
    pub routing_key: ShortString,
    /// Whether it may have been delivered before.
    pub redelivered: bool,
    /// Its properties.
    pub properties: BasicProperties,
    /// Its bytes.
    pub payload: Payload,
    /// What acknowledges it.
    pub acker: Acker,
}

impl Delivery {
    /// A delivery for tests, without properties. Its acker has channel 0, that tag, number 0 and is unused.
    pub fn mock(
        delivery_tag: u64,
        exchange: ShortString,
        routing_key: ShortString,
        redelivered: bool,
        payload: Payload,
    ) -> Delivery
        ensures { result ≡ mocked delivery_tag exchange routing_key redelivered payload }
    {
        Delivery {
            delivery_tag,
            exchange,
            routing_key,
            redelivered,
            properties: BasicProperties::default(),
            payload,
            acker: Acker {
                channel_id: 0,
                delivery_tag,
                number: 0,
                used: false,
            },
        }
    }

    /// An equal delivery, in memory of its own.
    pub fn try_clone(&self, alloc: Global) -> Result<Delivery, NoMemory>
        ensures { IfOk result (λ copy. copy ≡ self.now) }
    {
        Ok(Delivery {
            delivery_tag: self.delivery_tag,
            exchange: self.exchange.try_clone(alloc)?,
            routing_key: self.routing_key.try_clone(alloc)?,
            redelivered: self.redelivered,
            properties: self.properties.try_clone(alloc)?,
            payload: self.payload.try_clone(alloc)?,
            acker: Acker { ..self.acker },
        })
    }

    /// Whether two deliveries are equal in every field, number and use of their ackers too.
    pub fn same(&self, other: &Delivery) -> bool
        ensures { Decides result (self.now ≡ other.now) }
    {
        self.delivery_tag == other.delivery_tag
            && self.exchange == other.exchange
            && self.routing_key == other.routing_key
            && self.redelivered == other.redelivered
            && self.properties.same(&other.properties)
            && self.payload == other.payload
            && self.acker.same(&other.acker)
    }
}

/// The message that a get gave (AMQP 0-9-1, `basic.get-ok`).
#[derive(Debug, PartialEq, Drop)]
pub struct BasicGetMessage {
    /// The message.
    pub delivery: Delivery,
    /// How many messages the queue still had.
    pub message_count: u32,
}

impl BasicGetMessage {
    /// An equal message, in memory of its own.
    pub fn try_clone(&self, alloc: Global) -> Result<BasicGetMessage, NoMemory>
        ensures { IfOk result (λ copy. copy ≡ self.now) }
    {
        Ok(BasicGetMessage {
            delivery: self.delivery.try_clone(alloc)?,
            message_count: self.message_count,
        })
    }

    /// Whether two messages are equal in every field, number and use of their ackers too.
    pub fn same(&self, other: &BasicGetMessage) -> bool
        ensures { Decides result (self.now ≡ other.now) }
    {
        self.delivery.same(&other.delivery) && self.message_count == other.message_count
    }
}

/// A message that the broker gave back (AMQP 0-9-1, `basic.return`). Its delivery has tag 0 and isn't
/// redelivered; its acker has channel, tag and number 0 and is used.
#[derive(Debug, PartialEq, Drop)]
pub struct BasicReturnMessage {
    /// The message.
    pub delivery: Delivery,
    /// Why it was returned.
    pub reply_code: u16,
    /// The broker's text on why it was returned.
    pub reply_text: ShortString,
}

impl BasicReturnMessage {
    /// Why the message was returned, with the broker's text; None where no error has its reply code.
    pub fn error(&self, alloc: Global) -> Result<Option<AMQPError>, NoMemory>
        ensures { IfOk result (λ error. error ≡ error_of self.now) }
    {
        match AMQPErrorKind::from_id(self.reply_code) {
            Some(kind) => Ok(Some(AMQPError {
                kind,
                message: self.reply_text.try_clone(alloc)?,
            })),
            None => Ok(None),
        }
    }

    /// An equal message, in memory of its own.
    pub fn try_clone(&self, alloc: Global) -> Result<BasicReturnMessage, NoMemory>
        ensures { IfOk result (λ copy. copy ≡ self.now) }
    {
        Ok(BasicReturnMessage {
            delivery: self.delivery.try_clone(alloc)?,
            reply_code: self.reply_code,
            reply_text: self.reply_text.try_clone(alloc)?,
        })
    }

    /// Whether two messages are equal in every field, number and use of their ackers too.
    pub fn same(&self, other: &BasicReturnMessage) -> bool
        ensures { Decides result (self.now ≡ other.now) }
    {
        self.delivery.same(&other.delivery)
            && self.reply_code == other.reply_code
            && self.reply_text == other.reply_text
    }
}

/// An equal result, in memory of its own.
pub fn copied_result(given: &DeliveryResult, alloc: Global) -> Result<DeliveryResult, NoMemory>
    ensures { IfOk result (λ copy. copy ≡ given.now) }
{
    match given {
        Ok(Some(delivery)) => Ok(Ok(Some(delivery.try_clone(alloc)?))),
        Ok(None) => Ok(Ok(None)),
        Err(error) => Ok(Err(*error)),
    }
}

/// Whether two results are equal in every field, number and use of their ackers too.
pub fn same_result(left: &DeliveryResult, right: &DeliveryResult) -> bool
    ensures { Decides result (left.now ≡ right.now) }
{
    match (left, right) {
        (Ok(Some(left)), Ok(Some(right))) => left.same(right),
        (Ok(None), Ok(None)) => true,
        (Err(left), Err(right)) => left == right,
        _ => false,
    }
}
