//! What begins a content, and a whole one. How a content is put together stands in the files beside.

ghost use Rattle.std.specs.Prelude.{◌≡◌};
ghost use Rattle.lapin_content.specs.Contents.{for_ticket, for_consumer};

use lapin_types::{BasicProperties, Payload, ShortString};

/// The method that begins a content, with what is needed of it once the content is whole.
#[derive(Debug, Drop)]
pub enum Start {
    /// `basic.deliver`.
    Deliver {
        /// The consumer that was registered under the tag when the method came, if there was one.
        consumer: Option<u64>,
        /// The tag that the broker gave.
        delivery_tag: u64,
        /// The exchange that the message was published to.
        exchange: ShortString,
        /// The routing key that it was published with.
        routing_key: ShortString,
        /// Whether it may have been delivered before.
        redelivered: bool,
    },
    /// `basic.get-ok`.
    Get {
        /// The ticket of the get, if somebody holds it.
        ticket: Option<u64>,
        /// The tag that the broker gave.
        delivery_tag: u64,
        /// The exchange that the message was published to.
        exchange: ShortString,
        /// The routing key that it was published with.
        routing_key: ShortString,
        /// Whether it may have been delivered before.
        redelivered: bool,
        /// How many messages the queue still has.
        message_count: u32,
    },
    /// `basic.return`.
    Return {
        /// Why the message comes back.
        reply_code: u16,
        /// The broker's text on why it comes back.
        reply_text: ShortString,
        /// The exchange that it was published to.
        exchange: ShortString,
        /// The routing key that it was published with.
        routing_key: ShortString,
    },
}

impl Start {
    /// What began a get's content, for the get of this ticket; any other start as it is.
    pub fn for_ticket(self, ticket: Option<u64>) -> Start
        ensures { result ≡ for_ticket ticket self }
    {
        match self {
            Start::Get {
                ticket: _ticket,
                delivery_tag,
                exchange,
                routing_key,
                redelivered,
                message_count,
            } => Start::Get {
                ticket,
                delivery_tag,
                exchange,
                routing_key,
                redelivered,
                message_count,
            },
            start => start,
        }
    }

    /// What began a delivery's content, for this consumer; any other start as it is.
    pub fn for_consumer(self, consumer: Option<u64>) -> Start
        ensures { result ≡ for_consumer consumer self }
    {
        match self {
            Start::Deliver {
                consumer: _consumer,
                delivery_tag,
                exchange,
                routing_key,
                redelivered,
            } => Start::Deliver {
                consumer,
                delivery_tag,
                exchange,
                routing_key,
                redelivered,
            },
            start => start,
        }
    }
}

/// A whole content.
#[derive(Debug, Drop)]
pub struct Whole {
    /// What began it.
    pub start: Start,
    /// The properties that its header brought.
    pub properties: BasicProperties,
    /// Its bodies, joined.
    pub payload: Payload,
}
