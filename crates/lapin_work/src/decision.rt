//! What a delegate says to a job. No step is made here.

ghost use Rattle.std.specs.Prelude.{◌≡◌, None, IfSome};
ghost use Rattle.std.specs.BTreeMap as tree;
ghost use Rattle.std.specs.Ordering.{nat_cmp};
ghost use Rattle.std.specs.Option.{option_copied};
ghost use Rattle.lapin_work.specs.Decided.{IsDecided, IsHandled, IsJudged};
ghost use Rattle.lapin_work.specs.Jobs.{delivery_in};

use lapin_acker::{BoxedDelegate, ConsumerDelegate, Delegates, Verdict};
use lapin_types::{Delivery, DeliveryResult, Job, JobKind};

/// What is to be done about a job.
#[derive(Clone, Copy, Debug, PartialEq, Eq)]
pub enum Decision {
    /// No delegate is kept for its consumer.
    NoDelegate,
    /// Its delegate was called, on an end or an error, or told to discard.
    Handled,
    /// Its delegate answered a verdict on the delivery of this acker.
    Judged {
        /// The acker's number.
        acker: u64,
        /// What the delegate answered.
        verdict: Verdict,
    },
}

/// Calls the delegate of the job's consumer.
pub fn decide(delegates: &Delegates, job: &Job) -> Decision
    ensures { IsDecided (λ n. tree.get nat_cmp delegates.now.by_consumer n ≡ None) (λ n y v. IfSome (tree.get nat_cmp delegates.now.by_consumer n) (λ b. may (b.vtable, b.value) y v)) job.now result }
{
    match delegates.get(job.consumer) {
        Some(delegate) => hand_job(delegate, &job.kind),
        None => Decision::NoDelegate,
    }
}

/// Hands a job to a delegate.
fn hand_job(delegate: &BoxedDelegate, kind: &JobKind) -> Decision
    ensures { IsHandled (λ y v. may delegate.now y v) kind.now result }
{
    match kind {
        JobKind::Deliver(given) => judge(delegate, given),
        JobKind::Discard => {
            delegate.drop_prefetched_messages();
            Decision::Handled
        }
    }
}

/// Hands a delivery, an end or an error to a delegate.
#[tactic(auto, using(crate::proofs::Stages::judged_some, crate::proofs::Stages::judged_none))]
fn judge(delegate: &BoxedDelegate, given: &DeliveryResult) -> Decision
    ensures { IsJudged (λ y v. may delegate.now y v) given.now result }
{
    let verdict = delegate.on_new_delivery(given);
    match delivery_of(given) {
        Some(delivery) => Decision::Judged {
            acker: delivery.acker.number,
            verdict,
        },
        None => Decision::Handled,
    }
}

/// The delivery among what a delegate is handed.
pub fn delivery_of(given: &DeliveryResult) -> Option<&Delivery>
    ensures { option_copied result ≡ delivery_in given.now }
{
    match given {
        Ok(Some(delivery)) => Some(delivery),
        _ => None,
    }
}
