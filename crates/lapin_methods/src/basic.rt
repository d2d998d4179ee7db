//! The methods of the class basic (AMQP 0-9-1, class 60, with RabbitMQ's nack).
//!
//! Here stand the methods as data, with their numbers, equality and copies. What they do stands in the
//! crates above.

ghost use Rattle.std.specs.Prelude.{◌≡◌, IfOk};
ghost use Rattle.std.specs.Bool.{Decides};
ghost use Rattle.lapin_methods.specs.Numbers.{basic_number};

use lapin_values::{FieldTable, NoMemory, ShortString};
use std::alloc::Global;

/// A method of the class basic.
#[derive(Clone, PartialEq, Drop)]
pub enum BasicMethod {
    /// Sets how many deliveries may be unacknowledged. The prefetch size is always 0, no limit.
    Qos {
        prefetch_count: u16,
        global: bool,
    },
    /// The limit is set.
    QosOk,
    /// Starts a consumer on a queue. The broker names it where the tag is empty.
    Consume {
        queue: ShortString,
        consumer_tag: ShortString,
        no_local: bool,
        no_ack: bool,
        exclusive: bool,
        nowait: bool,
        arguments: FieldTable,
    },
    /// The consumer is started under that tag.
    ConsumeOk {
        consumer_tag: ShortString,
    },
    /// Ends a consumer. Either side sends it.
    Cancel {
        consumer_tag: ShortString,
        nowait: bool,
    },
    /// Confirms the end of a consumer.
    CancelOk {
        consumer_tag: ShortString,
    },
    /// Publishes a message. Its header and bodies follow.
    Publish {
        exchange: ShortString,
        routing_key: ShortString,
        mandatory: bool,
        immediate: bool,
    },
    /// Gives a message back that could not be routed. Its header and bodies follow.
    Return {
        reply_code: u16,
        reply_text: ShortString,
        exchange: ShortString,
        routing_key: ShortString,
    },
    /// Delivers a message to a consumer. Its header and bodies follow.
    Deliver {
        consumer_tag: ShortString,
        delivery_tag: u64,
        redelivered: bool,
        exchange: ShortString,
        routing_key: ShortString,
    },
    /// Asks for one message of a queue.
    Get {
        queue: ShortString,
        no_ack: bool,
    },
    /// Gives the message that was asked for. Its header and bodies follow.
    GetOk {
        delivery_tag: u64,
        redelivered: bool,
        exchange: ShortString,
        routing_key: ShortString,
        message_count: u32,
    },
    /// The queue had no message to give.
    GetEmpty,
    /// Acknowledges a delivery, or confirms a publish.
    Ack {
        delivery_tag: u64,
        multiple: bool,
    },
    /// Rejects a delivery.
    Reject {
        delivery_tag: u64,
        requeue: bool,
    },
    /// Asks for unacknowledged deliveries again, without an answer.
    RecoverAsync {
        requeue: bool,
    },
    /// Asks for unacknowledged deliveries again.
    Recover {
        requeue: bool,
    },
    /// The deliveries come again.
    RecoverOk,
    /// Rejects deliveries, or says that publishes failed.
    Nack {
        delivery_tag: u64,
        multiple: bool,
        requeue: bool,
    },
}

impl BasicMethod {
    /// The number of the method in its class.
    pub fn method_id(&self) -> u16
        ensures { result ≡ basic_number self.now }
    {
        match self {
            BasicMethod::Qos { .. } => 10,
            BasicMethod::QosOk => 11,
            BasicMethod::Consume { .. } => 20,
            BasicMethod::ConsumeOk { .. } => 21,
            BasicMethod::Cancel { .. } => 30,
            BasicMethod::CancelOk { .. } => 31,
            BasicMethod::Publish { .. } => 40,
            BasicMethod::Return { .. } => 50,
            BasicMethod::Deliver { .. } => 60,
            BasicMethod::Get { .. } => 70,
            BasicMethod::GetOk { .. } => 71,
            BasicMethod::GetEmpty => 72,
            BasicMethod::Ack { .. } => 80,
            BasicMethod::Reject { .. } => 90,
            BasicMethod::RecoverAsync { .. } => 100,
            BasicMethod::Recover { .. } => 110,
            BasicMethod::RecoverOk => 111,
            BasicMethod::Nack { .. } => 120,
        }
    }

    /// An equal method, in memory of its own.
    pub fn try_clone(&self, _alloc: Global) -> Result<BasicMethod, NoMemory>
        ensures { IfOk result (λ copy. copy ≡ self.now) }
    {
        Ok(self.clone()?)
    }

    /// Whether two methods are equal in every field.
    #[tactic(auto, using(crate::proofs::BasicAlike::basic_alike))]
    pub fn same(&self, other: &BasicMethod) -> bool
        ensures { Decides result (self.now ≡ other.now) }
    {
        self == other
    }
}
