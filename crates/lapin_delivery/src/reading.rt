//! What may be asked of deliveries without a change: who is registered, and which ackers may be used.

ghost use Rattle.std.specs.Prelude.{◌≡◌, ◌+◌, length};
ghost use Rattle.std.specs.Option.{option_copied, option_map};
ghost use Rattle.lapin_acker.specs.Switches.{switch_at, usable_as, is_usable, is_over};
ghost use Rattle.lapin_consumer.specs.Subscriptions.{is_registered as is_registered_in, found, consumer_at, let_go_answer};
ghost use Rattle.lapin_delivery.specs.WithRoom.{what, HasAckerRoom};

use crate::deliveries::Deliveries;
use lapin_types::{Error, ShortString};

impl Deliveries {
    /// The number of the consumer that is registered on a channel under a tag; `None` exactly where there is none.
    pub fn find(&self, channel: u16, tag: &str) -> Option<u64>
        ensures { result ≡ found channel tag.now (what self.now).subscriptions }
    {
        self.consumers.find(channel, tag)
    }

    /// Whether a consumer is registered: false also for a number that was never given.
    pub fn is_registered(&self, consumer: u64) -> bool
        ensures { result ≡ is_registered_in consumer (what self.now).subscriptions }
    {
        self.consumers.registered(consumer)
    }

    /// The tag under which a consumer was registered; `None` exactly where the number was never given.
    pub fn tag(&self, consumer: u64) -> Option<&ShortString>
        ensures { option_copied result ≡ option_map (λ x. x.tag) (consumer_at consumer (what self.now).subscriptions) }
    {
        self.consumers.tag(consumer)
    }

    /// The queue that a consumer was registered for; `None` exactly where the number was never given.
    pub fn queue(&self, consumer: u64) -> Option<&ShortString>
        ensures { option_copied result ≡ option_map (λ x. x.queue) (consumer_at consumer (what self.now).subscriptions) }
    {
        self.consumers.queue(consumer)
    }

    /// The channel on which a consumer was registered; `None` exactly where the number was never given.
    pub fn channel(&self, consumer: u64) -> Option<u16>
        ensures { result ≡ option_map (λ x. x.channel) (consumer_at consumer (what self.now).subscriptions) }
    {
        self.consumers.channel(consumer)
    }

    /// Whether `let_go` of a consumer makes it cancelling: whether it is active and registered. It changes nothing.
    ///
    /// # Errors
    /// `UnknownTicket` exactly where the number was never given.
    pub fn would_let_go(&self, consumer: u64) -> Result<bool, Error>
        ensures { result ≡ let_go_answer (consumer_at consumer (what self.now).subscriptions) }
    {
        self.consumers.would_close(consumer)
    }

    /// What `spend` would give: the channel and delivery tag of an acker that may be used. It changes nothing.
    pub fn peek(&self, acker: u64) -> Option<(u16, u64)>
        ensures { result ≡ usable_as (switch_at acker (what self.now).switches) }
    {
        self.switches.peek(acker)
    }

    /// Whether an acker may be used.
    pub fn usable(&self, acker: u64) -> bool
        ensures { result ≡ is_usable (switch_at acker (what self.now).switches) }
    {
        self.switches.usable(acker)
    }

    /// Whether the number was given to an acker and the opening of its channel ended.
    pub fn ended(&self, acker: u64) -> bool
        ensures { result ≡ is_over (switch_at acker (what self.now).switches) }
    {
        self.switches.ended(acker)
    }

    /// The number that the next acker gets, in the room that was made.
    pub fn next_acker(&self) -> u64
        requires { HasAckerRoom self.now }
        ensures { result ≡ length (what self.now).switches + 1 }
    {
        self.switches.count() + 1
    }
}
