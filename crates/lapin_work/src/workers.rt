//! All workers at once, each on a thread of its own.

ghost use Rattle.std.specs.Prelude.{◌≡◌, ◌^◌, ◌-◌, ◌≤◌, ◌⊎◌, ℕ, Bool, None, IfOk, IfSome, OnErr, length, true, false};
ghost use Rattle.std.specs.BTreeMap as tree;
ghost use Rattle.std.specs.Ordering.{nat_cmp};
ghost use Rattle.lapin_threads.specs.Tallied.{Tallied, TalliedAll};
ghost use Rattle.lapin_work.specs.Ran.{EndedSo};

use crate::turns::work_through;
use lapin_acker::{ConsumerDelegate, Delegates};
use lapin_shared::{Caller, Crew, Gate};
use lapin_threads::{Tally, tally_mut};
use lapin_types::NoMemory;
use std::alloc::Global;
use std::sync::Wait;
use std::thread::Threads;

/// Each caller works on a thread of its own, where one can be made, until there is no job or it took `turns` of them. The answer is
/// how many jobs were taken; one without a delegate counts. For each job its caller calls `gate.before`, after the job step and before
/// the delegate, and `gate.after` once the acker's step was made or none was needed, both outside the lock, with its number and the
/// place of the job step.
///
/// # Errors
/// `NoMemory`: a caller met want of memory and stopped there; the others worked on, and all have stopped. The logs say what was done.
/// It comes too where the number of jobs reached the greatest `u64`.
pub fn run_workers<L: Crew + Send + Sync, G: Gate, R: Threads + Wait + Sync>(
    rt: &R,
    alloc: Global,
    gate: &G,
    delegates: &Delegates,
    callers: &mut Vec<Caller<L>>,
    turns: u64,
) -> Result<u64, NoMemory>
    ensures ok { IfOk result (λ n. TalliedAll (EndedSo (λ n. tree.get nat_cmp delegates.now.by_consumer n ≡ None) (λ n y v. IfSome (tree.get nat_cmp delegates.now.by_consumer n) (λ b. may (b.vtable, b.value) y v)) turns) callers.old.items n false callers.new.items) }
    ensures count { length callers.new.items ≡ length callers.old.items }
    ensures err { OnErr result ((n : ℕ) × (s : Bool) × TalliedAll (EndedSo (λ n. tree.get nat_cmp delegates.now.by_consumer n ≡ None) (λ n y v. IfSome (tree.get nat_cmp delegates.now.by_consumer n) (λ b. may (b.vtable, b.value) y v)) turns) callers.old.items n s callers.new.items × ((s ≡ true) ⊎ (2 ^ 64 - 1 ≤ n))) }
{
    let all = work_all(rt, alloc, gate, delegates, turns, callers.as_mut_slice());
    if all.short || all.count == u64::MAX {
        Err(NoMemory)
    } else {
        Ok(all.count)
    }
}

/// Every caller has its turns.
fn work_all<L: Crew + Send + Sync, G: Gate, R: Threads + Wait + Sync>(
    rt: &R,
    alloc: Global,
    gate: &G,
    delegates: &Delegates,
    turns: u64,
    callers: &mut [Caller<L>],
) -> Tally
    ensures each { Tallied (EndedSo (λ n. tree.get nat_cmp delegates.now.by_consumer n ≡ None) (λ n y v. IfSome (tree.get nat_cmp delegates.now.by_consumer n) (λ b. may (b.vtable, b.value) y v)) turns) callers.old result callers.new }
    ensures count { length callers.new ≡ length callers.old }
{
    let job = |caller: &mut Caller<L>| -> Tally
        ensures { EndedSo (λ n. tree.get nat_cmp delegates.entry.now.by_consumer n ≡ None) (λ n y v. IfSome (tree.get nat_cmp delegates.entry.now.by_consumer n) (λ b. may (b.vtable, b.value) y v)) turns caller.old result caller.new }
    { work_through(rt, alloc, gate, delegates, turns, caller) };
    tally_mut(rt, &job, callers)
}
