//! The turns of one worker.

ghost use Rattle.std.specs.Prelude.{◌≡◌, None, IfSome};
ghost use Rattle.std.specs.BTreeMap as tree;
ghost use Rattle.std.specs.Ordering.{nat_cmp};
ghost use Rattle.lapin_work.specs.Ran.{EndedSo};

use crate::turn::work_between;
use crate::work::Work;
use lapin_acker::{ConsumerDelegate, Delegates};
use lapin_shared::{Caller, Crew, Gate};
use lapin_threads::Tally;
use std::alloc::Global;
use std::sync::Wait;

/// Takes jobs until there is none, or `turns` of them were taken, or memory runs out. The answer is how many were taken, and whether
/// memory ran out; the job of the turn in which it did is not counted.
#[tactic(auto, using(crate::proofs::Chains::ran_more))]
pub fn work_through<L: Crew, G: Gate, R: Wait>(
    rt: &R,
    alloc: Global,
    gate: &G,
    delegates: &Delegates,
    turns: u64,
    caller: &mut Caller<L>,
) -> Tally
    ensures { EndedSo (λ n. tree.get nat_cmp delegates.now.by_consumer n ≡ None) (λ n y v. IfSome (tree.get nat_cmp delegates.now.by_consumer n) (λ b. may (b.vtable, b.value) y v)) turns caller.old result caller.new }
{
    for jobs in 0..turns {
        match work_between(rt, alloc, gate, delegates, caller) {
            Ok(Work::NoJob) => return Tally {
                count: jobs,
                short: false,
            },
            Ok(_) => {}
            Err(_) => return Tally {
                count: jobs,
                short: true,
            },
        }
    }
    Tally {
        count: turns,
        short: false,
    }
}
