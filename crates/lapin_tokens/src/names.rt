//! The names of the properties of a message, in the order in which a text gives them
//! (AMQP 0-9-1, class basic, "properties"). The standard's `type` is named `kind`.

ghost use Rattle.std.specs.Prelude.{◌≡◌};
ghost use Rattle.lapin_tokens.specs.Properties.{name};

/// The properties of a message.
#[derive(Clone, Copy, Debug, PartialEq, Eq)]
pub enum Property {
    ContentType,
    ContentEncoding,
    Headers,
    DeliveryMode,
    Priority,
    CorrelationId,
    ReplyTo,
    Expiration,
    MessageId,
    Timestamp,
    Kind,
    UserId,
    AppId,
    ClusterId,
}

/// Every property once, in the order of a text.
pub const PROPERTIES: [Property; 14] = [
    Property::ContentType,
    Property::ContentEncoding,
    Property::Headers,
    Property::DeliveryMode,
    Property::Priority,
    Property::CorrelationId,
    Property::ReplyTo,
    Property::Expiration,
    Property::MessageId,
    Property::Timestamp,
    Property::Kind,
    Property::UserId,
    Property::AppId,
    Property::ClusterId,
];

/// The name of a property.
pub fn name_of(property: Property) -> &'static [u8]
    ensures { result.now ≡ name property }
{
    match property {
        Property::ContentType => b"content_type",
        Property::ContentEncoding => b"content_encoding",
        Property::Headers => b"headers",
        Property::DeliveryMode => b"delivery_mode",
        Property::Priority => b"priority",
        Property::CorrelationId => b"correlation_id",
        Property::ReplyTo => b"reply_to",
        Property::Expiration => b"expiration",
        Property::MessageId => b"message_id",
        Property::Timestamp => b"timestamp",
        Property::Kind => b"kind",
        Property::UserId => b"user_id",
        Property::AppId => b"app_id",
        Property::ClusterId => b"cluster_id",
    }
}
