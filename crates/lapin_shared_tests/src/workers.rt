//! Workers: two meet in their jobs, each on a thread of its own; how many turns they have; jobs that nobody handles.

ghost use Rattle.std.specs.Prelude.{◌≡◌};

use crate::gates::{Meeting, TURNS};
use crate::stepping::{are_steps, finished, make_lines};
use lapin_acker::{BoxedDelegate, ConsumerDelegate, Delegates, Verdict};
use lapin_shared::{Client, Crew, Gate, OpenGate};
use lapin_types::DeliveryResult;
use lapin_work::run_workers;
use std::alloc::Global;
use std::marker::Brand;
use std::process::Abort;
use std::sync::atomic::{AtomicU64, Ordering};
use std::sync::ledger::Blank;
use std::sync::{Arc, Wait};
use std::test::Fail;
use std::thread::Threads;

/// A delivery to each consumer.
const DELIVERED: &str = "recv method 1 basic.deliver x74 8 0 x x71\nrecv header 1 60 0 []\n\
recv method 1 basic.deliver x75 9 0 x x71\nrecv header 1 60 0 []\n";

/// How often delegates were called, and how many of the calls saw the other one while they waited. Where one call comes after the
/// other, only the second can have seen it.
#[derive(Drop)]
struct Counts {
    calls: AtomicU64,
    met: AtomicU64,
}

/// Acknowledges each delivery. A call waits, for at most so many looks, until there was a second one.
#[derive(Drop)]
struct Waiting {
    counts: Arc<Counts, Global>,
    most: u64,
}

impl ConsumerDelegate for Waiting {
    ghost use Rattle.std.specs.Prelude.{◌≡◌};
    ghost use Rattle.lapin_acker.specs.declared.verdict.Verdict.TheVariants as verdict;

    ghost may = { λ d given v. v ≡ verdict.Ack };

    fn on_new_delivery(&self, given: &DeliveryResult) -> Verdict {
        let _ = given;
        self.counts.calls.fetch_add(1, Ordering::SeqCst);
        for _ in 0..self.most {
            if self.counts.calls.load(Ordering::SeqCst) > 1 {
                self.counts.met.fetch_add(1, Ordering::SeqCst);
                break;
            }
        }
        Verdict::Ack
    }
}

fn no_counts(alloc: Global) -> Result<Arc<Counts, Global>, Fail> {
    let counts = Counts {
        calls: AtomicU64::new(0),
        met: AtomicU64::new(0),
    };
    Ok(Arc::new(alloc, counts)?)
}

fn waiting_delegates(
    alloc: Global,
    consumers: &[u64],
    counts: &Arc<Counts, Global>,
    most: u64,
) -> Result<Delegates, Fail> {
    let mut all = Delegates::new(alloc);
    for consumer in consumers {
        let waiting = Waiting {
            counts: Arc::try_clone(counts)?,
            most,
        };
        let boxed: BoxedDelegate = Box::new(alloc, waiting)?;
        all.add(alloc, *consumer, boxed)?;
    }
    Ok(all)
}

fn meet<G: Gate, L: Crew + Send + Sync, R: Threads + Wait + Abort + Sync>(
    rt: &R,
    alloc: Global,
    gate: &G,
    most: u64,
    met: u64,
    blank: Blank,
) -> Result<(), Fail>
    requires name { blank.name ≡ L.name }
    requires parts { (blank.parts ≡ 2) × (blank.parts ≡ L.parts) }
{
    let counts = no_counts(alloc)?;
    let delegates = waiting_delegates(alloc, &[1, 2], &counts, most)?;
    let (client, mut callers) = Client::<L>::new(alloc, 4096, 2, blank)?;
    make_lines(rt, alloc, &mut callers[0], DELIVERED)?;
    let made = callers[0].log().len();
    let jobs = run_workers(rt, alloc, gate, &delegates, &mut callers, 1)?;
    assert_eq!(rt; jobs, 2);
    assert_eq!(rt; counts.calls.load(Ordering::SeqCst), 2);
    assert_eq!(rt; counts.met.load(Ordering::SeqCst), met);
    assert_eq!(rt; callers[0].log().len(), made.saturating_add(2));
    assert_eq!(rt; callers[1].log().len(), 2);
    let history = finished(client.finish(rt, alloc, &mut callers))?;
    assert_eq!(rt; history.len(), made.saturating_add(4));
    Ok(())
}

#[test]
fn two_workers_meet_at_the_gate(rt: HostRuntime) -> Result<(), Fail> {
    let gate = Meeting::new();
    meet::<Meeting, Brand, _>(&rt, rt.alloc(), &gate, 0, 0, Blank::new(2))?;
    assert_eq!(&rt; gate.met.load(Ordering::SeqCst), 1);
    Ok(())
}

#[test]
fn two_workers_meet_in_their_delegates(rt: HostRuntime) -> Result<(), Fail> {
    meet::<OpenGate, Brand, _>(&rt, rt.alloc(), &OpenGate, TURNS, 2, Blank::new(2))
}

/// Adds up what the gate is told: a thousand times the caller's number, and the place.
#[derive(Drop)]
struct Sums {
    before: AtomicU64,
    after: AtomicU64,
}

fn told_as(caller: u64, place: u64) -> u64 {
    caller.saturating_mul(1_000).saturating_add(place)
}

impl Gate for Sums {
    fn before(&self, caller: u64, place: u64) {
        self.before
            .fetch_add(told_as(caller, place), Ordering::SeqCst);
    }

    fn after(&self, caller: u64, place: u64) {
        self.after
            .fetch_add(told_as(caller, place), Ordering::SeqCst);
    }
}

/// The turns of one worker behind the deliveries, which are 13 steps.
#[derive(Drop)]
struct Row<'a> {
    /// The consumers that have a delegate.
    consumers: &'a [u64],
    turns: u64,
    /// How many jobs were taken.
    jobs: u64,
    /// The steps of the turns.
    steps: &'a str,
    /// The sum of what the gate was told, before and after alike.
    told: u64,
}

fn works_alone<L: Crew + Send + Sync, R: Threads + Wait + Abort + Sync>(
    rt: &R,
    alloc: Global,
    row: &Row,
    blank: Blank,
) -> Result<(), Fail>
    requires name { blank.name ≡ L.name }
    requires parts { (blank.parts ≡ 1) × (blank.parts ≡ L.parts) }
{
    let counts = no_counts(alloc)?;
    let delegates = waiting_delegates(alloc, row.consumers, &counts, 0)?;
    let gate = Sums {
        before: AtomicU64::new(0),
        after: AtomicU64::new(0),
    };
    let (client, mut callers) = Client::<L>::new(alloc, 4096, 1, blank)?;
    make_lines(rt, alloc, &mut callers[0], DELIVERED)?;
    let jobs = run_workers(rt, alloc, &gate, &delegates, &mut callers, row.turns);
    assert_eq!(rt; jobs, Ok(row.jobs));
    are_steps(rt, alloc, callers[0].log(), 13, row.steps)?;
    assert_eq!(rt; gate.before.load(Ordering::SeqCst), row.told);
    assert_eq!(rt; gate.after.load(Ordering::SeqCst), row.told);
    drop(client);
    Ok(())
}

#[test]
fn a_worker_takes_its_turns_or_all_jobs(rt: HostRuntime) -> Result<(), Fail> {
    let rows = [
        Row {
            consumers: &[1, 2],
            turns: 0,
            jobs: 0,
            steps: "",
            told: 0,
        },
        Row {
            consumers: &[1, 2],
            turns: 1,
            jobs: 1,
            steps: "job -> job 1 item 8 x x71 0 [] x 1\nacker 1 ack 0 -> ticket 4",
            told: 1_014,
        },
        // A job without a delegate counts, and the gate is told of it.
        Row {
            consumers: &[2],
            turns: 2,
            jobs: 2,
            steps: "job -> job 1 item 8 x x71 0 [] x 1\njob -> job 2 item 9 x x71 0 [] x 2\n\
acker 2 ack 0 -> ticket 4",
            told: 2_029,
        },
        Row {
            consumers: &[1],
            turns: 5,
            jobs: 2,
            steps: "job -> job 1 item 8 x x71 0 [] x 1\nacker 1 ack 0 -> ticket 4\n\
job -> job 2 item 9 x x71 0 [] x 2\njob -> nojob",
            told: 2_030,
        },
    ];
    for row in rows {
        works_alone::<Brand, _>(&rt, rt.alloc(), &row, Blank::new(1))?;
    }
    Ok(())
}
