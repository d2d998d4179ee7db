//! A turn of work as a call of a caller, and how it ends.

ghost use Rattle.std.specs.Prelude.{◌≡◌, None, IfSome};
ghost use Rattle.std.specs.BTreeMap as tree;
ghost use Rattle.std.specs.Ordering.{nat_cmp};
ghost use Rattle.lapin_work.specs.Worked.{Worked};

use crate::turn::work_between;
use lapin_acker::{ConsumerDelegate, Delegates};
use lapin_shared::{Caller, Crew, OpenGate, StepError};
use std::alloc::Global;
use std::sync::Wait;

/// How a turn of work ended.
#[derive(Clone, Copy, Debug, PartialEq, Eq)]
pub enum Work {
    /// There was no job.
    NoJob,
    /// A job was taken and its delegate called. Of a delivery, the verdict's step was made, unless the verdict is `Nothing`.
    Done {
        /// The consumer whose job it was.
        consumer: u64,
    },
    /// A job was taken, and no delegate is kept for its consumer.
    NoDelegate {
        /// The consumer whose job it was.
        consumer: u64,
    },
}

/// Whoever makes turns of work. It is a caller of the running client.
pub trait Works {
    ghost use Rattle.lapin_shared.specs.Grown.{Seen};

    /// The caller's number and log.
    ghost seen: { Self → Seen };

    /// Takes one job in one step and calls the delegate of its consumer, outside the lock. The verdict on a delivery is made one step of
    /// the delivery's acker; the verdict `Nothing`, and a job that is no delivery, ask for none. It is `NoJob` exactly where the record
    /// of the job step is, and `NoDelegate` exactly where the list has none for the job's consumer.
    ///
    /// # Errors
    /// `NoMemory`: no step was made. `Unread`: a step was made, of which the log has no record: the job step, and then the job is in
    /// the history alone, or the acker's step, and then nothing is missing. `Unsent`: the delegate answered, and there was no memory
    /// for the step of this acker.
    fn work_one<R: Wait>(
        &mut self,
        rt: &R,
        alloc: Global,
        delegates: &Delegates,
    ) -> Result<Work, StepError>
        ensures { Worked (λ n. tree.get nat_cmp delegates.now.by_consumer n ≡ None) (λ n y v. IfSome (tree.get nat_cmp delegates.now.by_consumer n) (λ b. may (b.vtable, b.value) y v)) (seen self.old) result (seen self.new) };
}

impl<L: Crew> Works for Caller<L> {
    ghost seen = { λ c. c };

    fn work_one<R: Wait>(
        &mut self,
        rt: &R,
        alloc: Global,
        delegates: &Delegates,
    ) -> Result<Work, StepError> {
        work_between(rt, alloc, &OpenGate, delegates, self)
    }
}
