//! What a delegate is to be called with. Which consumer has one, and when a job is made, stands in the crates above.

ghost use Rattle.std.specs.Prelude.{◌≡◌, IfOk};
ghost use Rattle.std.specs.Bool.{Decides};

use crate::message::{DeliveryResult, copied_result, same_result};
use lapin_values::NoMemory;
use std::alloc::Global;

/// What a delegate is called with.
#[derive(Debug, PartialEq, Drop)]
pub enum JobKind {
    /// A delivery, the consumer's end or the error that ended its channel.
    Deliver(DeliveryResult),
    /// Messages that were handed on before are to be forgotten.
    Discard,
}

/// One call of the delegate of a consumer.
#[derive(Debug, PartialEq, Drop)]
pub struct Job {
    /// The consumer's number.
    pub consumer: u64,
    /// What its delegate is called with.
    pub kind: JobKind,
}

impl Job {
    /// An equal job, in memory of its own.
    pub fn try_clone(&self, alloc: Global) -> Result<Job, NoMemory>
        ensures { IfOk result (λ copy. copy ≡ self.now) }
    {
        Ok(Job {
            consumer: self.consumer,
            kind: self.kind.try_clone(alloc)?,
        })
    }

    /// Whether two jobs are equal in every field, number and use of their ackers too.
    pub fn same(&self, other: &Job) -> bool
        ensures { Decides result (self.now ≡ other.now) }
    {
        self.consumer == other.consumer && self.kind.same(&other.kind)
    }
}

impl JobKind {
    /// An equal kind, in memory of its own.
    pub fn try_clone(&self, alloc: Global) -> Result<JobKind, NoMemory>
        ensures { IfOk result (λ copy. copy ≡ self.now) }
    {
        match self {
            JobKind::Deliver(given) => Ok(JobKind::Deliver(copied_result(given, alloc)?)),
            JobKind::Discard => Ok(JobKind::Discard),
        }
    }

    /// Whether two kinds are equal in every field, number and use of their ackers too.
    pub fn same(&self, other: &JobKind) -> bool
        ensures { Decides result (self.now ≡ other.now) }
    {
        match (self, other) {
            (JobKind::Deliver(left), JobKind::Deliver(right)) => same_result(left, right),
            (JobKind::Discard, JobKind::Discard) => true,
            _ => false,
        }
    }
}
