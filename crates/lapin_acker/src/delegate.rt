//! The delegates of consumers. They are made by the caller; when one is called stands in the crates above.

ghost use Rattle.std.specs.Prelude.{◌≡◌, None, Some, OnOk, OnErr, MatchOption};
ghost use Rattle.std.specs.BTreeMap as tree;
ghost use Rattle.std.specs.Ordering.{nat_cmp};

use crate::verdict::Verdict;
use lapin_types::{DeliveryResult, NoMemory};
use std::alloc::Global;
use std::collections::BTreeMap;

/// Whoever takes what a consumer is handed, in place of its queue.
pub trait ConsumerDelegate: Send + Sync + Drop {
    ghost use Rattle.std.specs.Prelude.{Option, Result};
    ghost use Rattle.lapin_types.specs.Types.{Error};
    ghost use Rattle.lapin_types.specs.declared.message.Delivery.{Delivery};
    ghost use Rattle.lapin_acker.specs.declared.verdict.Verdict.{Verdict};

    /// Which verdicts it may answer to which delivery, end or error.
    ghost may: { Self → Result (Option Delivery) Error → Verdict → Type 0 };

    /// Takes a delivery, the consumer's end or the error that ended its channel, and says what becomes of a delivery.
    fn on_new_delivery(&self, delivery: &DeliveryResult) -> Verdict
        ensures { may self.now delivery.now result };

    /// What it was handed before is void: the broker will deliver it again.
    fn drop_prefetched_messages(&self) {}
}

/// A function that answers for a delegate.
pub type Handler = Box<dyn Fn(&DeliveryResult) -> Verdict + Send + Sync + Drop>;

/// A delegate that answers by a function. It keeps the box, since what may be said of a function in a field is said of a box alone.
#[derive(Drop)]
pub struct FnDelegate {
    /// It may be called on every delivery, end and error.
    handler: Handler,
    ghost callable: { Handler.IsAlwaysCallable handler },
}

impl FnDelegate {
    /// The delegate that hands each delivery, end or error to the handler, and answers what it answers.
    pub fn new(handler: Handler) -> FnDelegate
        requires { Handler.IsAlwaysCallable handler }
        ensures { result.handler ≡ handler }
    {
        FnDelegate { handler }
    }
}

impl ConsumerDelegate for FnDelegate {
    ghost use Rattle.std.specs.Fn.{FnReturnsAt};

    ghost may = { λ d given verdict. FnReturnsAt Handler.Fn d.handler given verdict };

    fn on_new_delivery(&self, delivery: &DeliveryResult) -> Verdict {
        (self.handler)(delivery)
    }
}

/// A delegate that is kept for its consumer.
pub type BoxedDelegate = Box<dyn ConsumerDelegate + Send + Sync>;

/// The delegates of a session, each under the number of its consumer.
pub struct Delegates {
    /// By number of the consumer.
    pub by_consumer: BTreeMap<u64, BoxedDelegate>,
}

impl Drop for Delegates {
    fn drop(self) {
        let Delegates { by_consumer: _ } = self;
    }
}

impl Delegates {
    /// No consumer has a delegate. It takes no memory yet.
    pub fn new(alloc: Global) -> Delegates
        ensures { tree.IsEmpty result.by_consumer }
    {
        Delegates {
            by_consumer: BTreeMap::new(alloc),
        }
    }

    /// Gives a consumer its delegate, in place of an earlier one.
    ///
    /// # Errors
    ///
    /// `NoMemory`; each consumer keeps the delegate that it had, and this one is dropped.
    pub fn add(
        &mut self,
        _alloc: Global,
        consumer: u64,
        delegate: BoxedDelegate,
    ) -> Result<(), NoMemory>
        ensures ok { OnOk result (tree.Updates nat_cmp self.old.by_consumer self.new.by_consumer consumer (Some delegate)) }
        ensures err { OnErr result (tree.IsUnchanged self.old.by_consumer self.new.by_consumer) }
    {
        self.by_consumer.insert(consumer, delegate)?;
        Ok(())
    }

    /// The delegate of a consumer; None exactly where it was given none.
    pub fn get(&self, consumer: u64) -> Option<&BoxedDelegate>
        ensures { MatchOption result (tree.get nat_cmp self.now.by_consumer consumer ≡ None) (λ b. tree.get nat_cmp self.now.by_consumer consumer ≡ Some b.now) }
    {
        self.by_consumer.get(&consumer)
    }
}
