//! One turn of work: a job is taken, its delegate asked, and the verdict made a step. A gate is told of the job between the two steps.

ghost use Rattle.std.specs.Prelude.{◌≡◌, ◌≢◌, ℕ, ◌-◌, ◌<◌, length, slice_get, IfOk, IfErr, IfSome, MatchOption, None, Some, true, false};
ghost use Rattle.std.specs.Option.{option_copied};
ghost use Rattle.std.specs.BTreeMap as tree;
ghost use Rattle.std.specs.Ordering.{nat_cmp};
ghost use Rattle.lapin_types.specs.declared.event.Event.TheVariants as event;
ghost use Rattle.lapin_shared.specs.Grown.{Grew};
ghost use Rattle.lapin_shared.specs.Failed.{IfFailed};
ghost use Rattle.lapin_work.specs.Jobs.{job, no_job, job_in};
ghost use Rattle.lapin_work.specs.Decided.{IsDecided};
ghost use Rattle.lapin_work.specs.Worked.{Worked, IsCarriedOut, IsSettled};

use crate::decision::{Decision, decide};
use crate::work::Work;
use lapin_acker::{ConsumerDelegate, Delegates, Verdict};
use lapin_shared::{Caller, Crew, Gate, Logged, StepError};
use lapin_types::{Event, Job, Record};
use std::alloc::Global;
use std::sync::Wait;

/// Takes one job, tells the gate before its delegate is called, makes the verdict one step, and tells the gate once it was made or
/// none was asked for.
pub fn work_between<L: Crew, G: Gate, R: Wait>(
    rt: &R,
    alloc: Global,
    gate: &G,
    delegates: &Delegates,
    caller: &mut Caller<L>,
) -> Result<Work, StepError>
    ensures { Worked (λ n. tree.get nat_cmp delegates.now.by_consumer n ≡ None) (λ n y v. IfSome (tree.get nat_cmp delegates.now.by_consumer n) (λ b. may (b.vtable, b.value) y v)) caller.old result caller.new }
{
    let place = match take_job(rt, alloc, caller) {
        Ok(Some(place)) => place,
        Ok(None) => return Ok(Work::NoJob),
        Err(error) => return Err(error),
    };
    let number = caller.number();
    gate.before(number, place);
    let (consumer, decision) = ask(delegates, caller.newest());
    let done = carry_out(rt, alloc, consumer, decision, caller);
    tell_end(gate, number, place, &done);
    done
}

/// Takes a job in one step, and answers the step's place; none where there is no job.
#[tactic(auto, using(crate::proofs::Stages::no_job_told, crate::proofs::Stages::job_told))]
pub fn take_job<L: Crew, R: Wait>(
    rt: &R,
    alloc: Global,
    caller: &mut Caller<L>,
) -> Result<Option<u64>, StepError>
    ensures ok { IfOk result (λ o. MatchOption o ((p : ℕ) × Grew caller.old caller.new (no_job p)) (λ p. (j : Job) × Grew caller.old caller.new (job p j))) }
    ensures failed { IfErr result (λ e. IfFailed caller.old event.NextJob e caller.new) }
{
    match caller.make(rt, alloc, Event::NextJob) {
        Ok(place) => Ok(if job_of(caller.newest()).is_some() {
            Some(place)
        } else {
            None
        }),
        Err(error) => Err(error),
    }
}

/// The job that an entry's record tells.
pub fn job_of(step: &Logged) -> Option<&Job>
    ensures { option_copied result ≡ job_in step.now.answer }
{
    match step.answer() {
        Some(Record::Job(job)) => Some(job),
        _ => None,
    }
}

/// Asks the delegate of the job's consumer.
fn ask(delegates: &Delegates, step: &Logged) -> (u64, Decision)
    requires { job_in step.now.answer ≢ None }
    ensures { IfSome (job_in step.now.answer) (λ j. (result.0 ≡ j.consumer) × IsDecided (λ n. tree.get nat_cmp delegates.now.by_consumer n ≡ None) (λ n y v. IfSome (tree.get nat_cmp delegates.now.by_consumer n) (λ b. may (b.vtable, b.value) y v)) j result.1) }
{
    let Some(job) = job_of(step) else {
        unreachable!()
    };
    (job.consumer, decide(delegates, job))
}

/// Does what was decided about a job.
fn carry_out<L: Crew, R: Wait>(
    rt: &R,
    alloc: Global,
    consumer: u64,
    decision: Decision,
    caller: &mut Caller<L>,
) -> Result<Work, StepError>
    ensures { IsCarriedOut caller.old consumer decision result caller.new }
{
    match decision {
        Decision::NoDelegate => Ok(Work::NoDelegate { consumer }),
        Decision::Handled => Ok(Work::Done { consumer }),
        Decision::Judged { acker, verdict } => send(rt, alloc, consumer, acker, verdict, caller),
    }
}

/// Makes the verdict one step of the acker, where it asks for one.
fn send<L: Crew, R: Wait>(
    rt: &R,
    alloc: Global,
    consumer: u64,
    acker: u64,
    verdict: Verdict,
    caller: &mut Caller<L>,
) -> Result<Work, StepError>
    ensures { IsSettled caller.old consumer acker verdict result caller.new }
{
    let Some(call) = verdict.call() else {
        return Ok(Work::Done { consumer });
    };
    match caller.make(rt, alloc, Event::Acker(acker, call)) {
        Ok(_) => Ok(Work::Done { consumer }),
        Err(StepError::NoMemory) => Err(StepError::Unsent { acker, verdict }),
        Err(error) => Err(error),
    }
}

/// Tells the gate of a job's end, unless there was no memory for the step that its verdict asks for.
fn tell_end<G: Gate>(gate: &G, number: u64, place: u64, done: &Result<Work, StepError>) {
    if !matches!(done, Err(StepError::Unsent { .. })) {
        gate.after(number, place);
    }
}
