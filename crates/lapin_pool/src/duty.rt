//! Who judges deliveries, and what becomes of a verdict on one that came before.

ghost use Rattle.std.specs.Prelude.{◌≡◌};
ghost use Rattle.lapin_pool.specs.Verdicts.{last_verdict as last_verdict_lem};

use lapin_acker::Verdict;
use lapin_types::Delivery;

/// Whoever judges deliveries. It is asked by several threads at once.
pub trait Duty: Sync {
    ghost use Rattle.lapin_types.specs.declared.message.Delivery.{Delivery};
    ghost use Rattle.lapin_acker.specs.declared.verdict.Verdict.{Verdict};

    /// Which verdicts it may answer to a delivery.
    ghost may: { Self → Delivery → Verdict → Type 0 };

    /// Its verdict on a delivery.
    fn judge(&self, delivery: &Delivery) -> Verdict
        ensures { may self.now delivery.now result };
}

/// The verdict that is sent: a delivery that came before isn't queued a second time, so a wish to do so becomes a reject for good (AMQP
/// 0-9-1, `basic.deliver`, "redelivered").
pub fn last_verdict(verdict: Verdict, redelivered: bool) -> Verdict
    ensures { result ≡ last_verdict_lem verdict redelivered }
{
    match verdict {
        Verdict::Nack { requeue: true } if redelivered => Verdict::Reject { requeue: false },
        Verdict::Reject { requeue: true } if redelivered => Verdict::Reject { requeue: false },
        verdict => verdict,
    }
}
