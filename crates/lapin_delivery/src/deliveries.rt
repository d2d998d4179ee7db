//! The consumers and the ackers of a connection with the registries of its channels, and what callers ask of consumers and ackers: to
//! consume, to poll, to let go, to take a job and to use an acker.

ghost use Rattle.std.specs.Prelude.{◌≡◌, ◌+◌, ◌^◌, ◌↔◌, ◌⊎◌, None, Err, OnOk, OnErr, IsOk, IfOk, IfErr, IfNone, length, slice_get};
ghost use Rattle.lapin_acker.specs.Switches.{switch_at, usable_as};
ghost use Rattle.lapin_consumer.specs.Subscriptions.{consumer_at, answered};
ghost use Rattle.lapin_delivery.specs.Deliveries.{empty_deliveries, after_mark};
ghost use Rattle.lapin_delivery.specs.Marks as mark;
ghost use Rattle.lapin_delivery.specs.WithRoom.{what};

use lapin_acker::Switches;
use lapin_consumer::Consumers;
use lapin_registry::Topologies;
use lapin_types::{BasicConsumeOptions, DeliveryResult, Error, Job, NoMemory, ShortString};
use std::alloc::Global;

/// The consumers of a connection, the ackers of what it delivered and what its channels declared. Contracts see an `Deliveries` by `what`, and the room beside it.
pub struct Deliveries {
    /// The consumers, and the jobs of their delegates.
    pub consumers: Consumers,
    /// The ackers.
    pub switches: Switches,
    /// What each channel declared and bound.
    pub topologies: Topologies,
}

impl Drop for Deliveries {
    fn drop(self) {
        let Deliveries {
            consumers: _,
            switches: _,
            topologies: _,
        } = self;
    }
}

impl Deliveries {
    /// No consumer, no acker and no opening. It takes no memory yet, so it does not fail.
    pub fn new(alloc: Global) -> Result<Deliveries, NoMemory>
        ensures made { IfOk result (λ made. what made ≡ empty_deliveries) }
        ensures succeeds { IsOk result }
    {
        Ok(Deliveries {
            consumers: Consumers::new(alloc)?,
            switches: Switches::new(alloc)?,
            topologies: Topologies::new(alloc),
        })
    }

    /// Registers the next consumer under a tag of a channel, and answers its number (AMQP 0-9-1, `basic.consume` and
    /// `basic.consume-ok`). One that was registered under the same tag no longer is, and receives nothing more.
    ///
    /// # Errors
    /// `NumbersUsedUp` exactly where the number would pass the greatest `u64`; `NoMemory`. Nothing changes then.
    pub fn consume(
        &mut self,
        alloc: Global,
        channel: u16,
        tag: ShortString,
        queue: ShortString,
        options: BasicConsumeOptions,
    ) -> Result<u64, Error>
        ensures number { IfOk result (λ n. n ≡ length (what self.old).subscriptions.consumers + 1) }
        ensures ok { OnOk result (what self.new ≡ after_mark (what self.old) (mark.Consumed channel tag queue)) }
        ensures err { OnErr result (what self.new ≡ what self.old) }
        ensures cause { IfErr result (λ e. (e ≡ Error.NumbersUsedUp) ⊎ (e ≡ Error.NoMemory)) }
        ensures used_up { (result ≡ Err Error.NumbersUsedUp) ↔ (length (what self.old).subscriptions.consumers + 1 ≡ 2 ^ 64) }
    {
        self.consumers.register(alloc, channel, tag, queue, options)
    }

    /// Gives a consumer a delegate: all that is queued becomes jobs, in order, and so does what comes, where it is active.
    ///
    /// # Errors
    /// `UnknownTicket` exactly where the number was never given; `NoMemory`. Nothing changes then.
    pub fn delegate(&mut self, alloc: Global, consumer: u64) -> Result<(), Error>
        ensures unknown { (result ≡ Err Error.UnknownTicket) ↔ (consumer_at consumer (what self.old).subscriptions ≡ None) }
        ensures ok { OnOk result (what self.new ≡ after_mark (what self.old) (mark.Delegated consumer)) }
        ensures err { OnErr result (what self.new ≡ what self.old) }
        ensures cause { IfErr result (λ e. (e ≡ Error.UnknownTicket) ⊎ (e ≡ Error.NoMemory)) }
    {
        self.consumers.set_delegate(alloc, consumer)
    }

    /// Gives what a consumer was handed, the first item first; with an empty queue the end where it is canceled. `None` while
    /// there is nothing yet.
    ///
    /// # Errors
    /// `UnknownTicket` exactly where the number was never given.
    pub fn poll(&mut self, consumer: u64) -> Result<Option<DeliveryResult>, Error>
        ensures answer { result ≡ answered (consumer_at consumer (what self.old).subscriptions) }
        ensures polled { what self.new ≡ after_mark (what self.old) (mark.Polled consumer) }
    {
        self.consumers.poll_next(consumer)
    }

    /// The caller lets go of a consumer: where it is active and registered, it is cancelling from now on. `would_let_go` tells before
    /// whether it is so.
    pub fn let_go(&mut self, consumer: u64)
        ensures { what self.new ≡ after_mark (what self.old) (mark.LetGo consumer) }
    {
        let _answer = self.consumers.close(consumer);
    }

    /// Takes out the oldest job; `None` exactly where there is none, and nothing changes then.
    pub fn next_job(&mut self) -> Option<Job>
        ensures job { result ≡ slice_get (what self.old).subscriptions.jobs 0 }
        ensures rest { what self.new ≡ after_mark (what self.old) mark.JobAsked }
        ensures none { IfNone result (what self.new ≡ what self.old) }
    {
        self.consumers.next_job()
    }

    /// Uses an acker up, and gives its channel and delivery tag; `None` exactly where it isn't usable (AMQP 0-9-1, Acknowledgements).
    pub fn spend(&mut self, acker: u64) -> Option<(u16, u64)>
        ensures given { result ≡ usable_as (switch_at acker (what self.old).switches) }
        ensures spent { what self.new ≡ after_mark (what self.old) (mark.Spent acker) }
    {
        self.switches.spend(acker)
    }
}
