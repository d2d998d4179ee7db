//! The fourteen properties one by one: for each a reader, and a setter that changes nothing else.

ghost use Rattle.std.specs.Prelude.{◌≡◌, Some, option_map};

use crate::properties::BasicProperties;
use crate::properties::texts::{self, put_text};
use crate::text::ShortString;
use crate::value::FieldTable;

impl BasicProperties {
    /// The MIME type of the body; `None` where it is not set.
    pub fn content_type(&self) -> Option<&ShortString>
        ensures { option_map (λ value. value.now) result ≡ self.now.content_type }
    {
        self.texts.get(texts::CONTENT_TYPE)
    }

    /// These properties with `content_type` set to the value.
    pub fn with_content_type(mut self, value: ShortString) -> BasicProperties
        ensures { result ≡ record self { content_type = Some value } }
    {
        put_text(&mut self.texts, texts::CONTENT_TYPE, value);
        self
    }

    /// The MIME encoding of the body; `None` where it is not set.
    pub fn content_encoding(&self) -> Option<&ShortString>
        ensures { option_map (λ value. value.now) result ≡ self.now.content_encoding }
    {
        self.texts.get(texts::CONTENT_ENCODING)
    }

    /// These properties with `content_encoding` set to the value.
    pub fn with_content_encoding(mut self, value: ShortString) -> BasicProperties
        ensures { result ≡ record self { content_encoding = Some value } }
    {
        put_text(&mut self.texts, texts::CONTENT_ENCODING, value);
        self
    }

    /// The table of message headers; `None` where it is not set.
    pub fn headers(&self) -> Option<&FieldTable>
        ensures { option_map (λ value. value.now) result ≡ self.now.headers }
    {
        if self.texts.marks().has_headers {
            Some(&self.headers)
        } else {
            None
        }
    }

    /// These properties with `headers` set to the value.
    pub fn with_headers(mut self, value: FieldTable) -> BasicProperties
        ensures { result ≡ record self { headers = Some value } }
    {
        let mut marks = self.texts.marks();
        marks.has_headers = true;
        self.texts.put_marks(marks);
        self.headers = value;
        self
    }

    /// How the message is kept: 1 is transient, 2 is persistent; `None` where it is not set.
    pub fn delivery_mode(&self) -> Option<u8>
        ensures { result ≡ self.now.delivery_mode }
    {
        self.texts.marks().delivery_mode
    }

    /// These properties with `delivery_mode` set to the value.
    pub fn with_delivery_mode(mut self, value: u8) -> BasicProperties
        ensures { result ≡ record self { delivery_mode = Some value } }
    {
        let mut marks = self.texts.marks();
        marks.delivery_mode = Some(value);
        self.texts.put_marks(marks);
        self
    }

    /// The priority, from 0 to 9; `None` where it is not set.
    pub fn priority(&self) -> Option<u8>
        ensures { result ≡ self.now.priority }
    {
        self.texts.marks().priority
    }

    /// These properties with `priority` set to the value.
    pub fn with_priority(mut self, value: u8) -> BasicProperties
        ensures { result ≡ record self { priority = Some value } }
    {
        let mut marks = self.texts.marks();
        marks.priority = Some(value);
        self.texts.put_marks(marks);
        self
    }

    /// The identifier by which the application ties a reply to its request; `None` where it is not set.
    pub fn correlation_id(&self) -> Option<&ShortString>
        ensures { option_map (λ value. value.now) result ≡ self.now.correlation_id }
    {
        self.texts.get(texts::CORRELATION_ID)
    }

    /// These properties with `correlation_id` set to the value.
    pub fn with_correlation_id(mut self, value: ShortString) -> BasicProperties
        ensures { result ≡ record self { correlation_id = Some value } }
    {
        put_text(&mut self.texts, texts::CORRELATION_ID, value);
        self
    }

    /// The queue to which replies go; `None` where it is not set.
    pub fn reply_to(&self) -> Option<&ShortString>
        ensures { option_map (λ value. value.now) result ≡ self.now.reply_to }
    {
        self.texts.get(texts::REPLY_TO)
    }

    /// These properties with `reply_to` set to the value.
    pub fn with_reply_to(mut self, value: ShortString) -> BasicProperties
        ensures { result ≡ record self { reply_to = Some value } }
    {
        put_text(&mut self.texts, texts::REPLY_TO, value);
        self
    }

    /// When the message expires: in RabbitMQ a number of milliseconds, as text; `None` where it is not set.
    pub fn expiration(&self) -> Option<&ShortString>
        ensures { option_map (λ value. value.now) result ≡ self.now.expiration }
    {
        self.texts.get(texts::EXPIRATION)
    }

    /// These properties with `expiration` set to the value.
    pub fn with_expiration(mut self, value: ShortString) -> BasicProperties
        ensures { result ≡ record self { expiration = Some value } }
    {
        put_text(&mut self.texts, texts::EXPIRATION, value);
        self
    }

    /// The application's identifier of the message; `None` where it is not set.
    pub fn message_id(&self) -> Option<&ShortString>
        ensures { option_map (λ value. value.now) result ≡ self.now.message_id }
    {
        self.texts.get(texts::MESSAGE_ID)
    }

    /// These properties with `message_id` set to the value.
    pub fn with_message_id(mut self, value: ShortString) -> BasicProperties
        ensures { result ≡ record self { message_id = Some value } }
    {
        put_text(&mut self.texts, texts::MESSAGE_ID, value);
        self
    }

    /// The time of the message in seconds since 1970-01-01 00:00:00 UTC; `None` where it is not set.
    pub fn timestamp(&self) -> Option<u64>
        ensures { result ≡ self.now.timestamp }
    {
        if self.texts.marks().has_timestamp {
            Some(self.texts.timestamp())
        } else {
            None
        }
    }

    /// These properties with `timestamp` set to the value.
    pub fn with_timestamp(mut self, value: u64) -> BasicProperties
        ensures { result ≡ record self { timestamp = Some value } }
    {
        let mut marks = self.texts.marks();
        marks.has_timestamp = true;
        self.texts.put_marks(marks);
        self.texts.put_timestamp(value);
        self
    }

    /// The message's type in the application's words: the standard's property `type`; `None` where it is not set.
    pub fn kind(&self) -> Option<&ShortString>
        ensures { option_map (λ value. value.now) result ≡ self.now.kind }
    {
        self.texts.get(texts::KIND)
    }

    /// These properties with `kind` set to the value.
    pub fn with_kind(mut self, value: ShortString) -> BasicProperties
        ensures { result ≡ record self { kind = Some value } }
    {
        put_text(&mut self.texts, texts::KIND, value);
        self
    }

    /// The name of the user who publishes; `None` where it is not set.
    pub fn user_id(&self) -> Option<&ShortString>
        ensures { option_map (λ value. value.now) result ≡ self.now.user_id }
    {
        self.texts.get(texts::USER_ID)
    }

    /// These properties with `user_id` set to the value.
    pub fn with_user_id(mut self, value: ShortString) -> BasicProperties
        ensures { result ≡ record self { user_id = Some value } }
    {
        put_text(&mut self.texts, texts::USER_ID, value);
        self
    }

    /// The identifier of the application that publishes; `None` where it is not set.
    pub fn app_id(&self) -> Option<&ShortString>
        ensures { option_map (λ value. value.now) result ≡ self.now.app_id }
    {
        self.texts.get(texts::APP_ID)
    }

    /// These properties with `app_id` set to the value.
    pub fn with_app_id(mut self, value: ShortString) -> BasicProperties
        ensures { result ≡ record self { app_id = Some value } }
    {
        put_text(&mut self.texts, texts::APP_ID, value);
        self
    }

    /// The identifier of a cluster, which the standard has reserved; `None` where it is not set.
    pub fn cluster_id(&self) -> Option<&ShortString>
        ensures { option_map (λ value. value.now) result ≡ self.now.cluster_id }
    {
        self.texts.get(texts::CLUSTER_ID)
    }

    /// These properties with `cluster_id` set to the value.
    pub fn with_cluster_id(mut self, value: ShortString) -> BasicProperties
        ensures { result ≡ record self { cluster_id = Some value } }
    {
        put_text(&mut self.texts, texts::CLUSTER_ID, value);
        self
    }
}
