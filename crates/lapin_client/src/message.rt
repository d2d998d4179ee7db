//! The numbers of a message.
ghost use Rattle.std.specs.Prelude.{◌≡◌, length};
ghost use Rattle.lapin_client.specs.Parcels.{message_of};
ghost use Rattle.lapin_frames.specs.Headers.{properties_bytes};

use lapin_types::Delivery;

/// A message: its numbers, and how many bytes of the answer are its exchange, its routing key, its list of properties and, behind them, its
/// body.
#[derive(Clone, Copy, Debug, PartialEq, Eq)]
#[repr(C)]
pub struct Message {
    /// The tag that the broker gave.
    pub delivery_tag: u64,
    /// The number of its acker.
    pub acker: u64,
    /// The bytes of the exchange.
    pub exchange: usize,
    /// The bytes of the routing key.
    pub routing_key: usize,
    /// The bytes of the list of properties.
    pub properties: usize,
    /// The bytes of the body.
    pub body: usize,
    /// Whether it may have been delivered before.
    pub redelivered: bool,
}

/// The numbers of a message, of whose list of properties there are so many octets.
pub(crate) fn numbers_of(delivery: &Delivery, properties: usize) -> Message
    requires { properties ≡ length (properties_bytes delivery.now.properties) }
    ensures { result ≡ message_of delivery.now }
{
    Message {
        delivery_tag: delivery.delivery_tag,
        acker: delivery.acker.number,
        exchange: delivery.exchange.as_str().len(),
        routing_key: delivery.routing_key.as_str().len(),
        properties,
        body: delivery.payload.as_bytes().len(),
        redelivered: delivery.redelivered,
    }
}
