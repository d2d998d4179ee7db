//! Turns of work: how each ends, which steps it makes, and what the delegates are handed.

ghost use Rattle.std.specs.Prelude.{◌≡◌};

use crate::stepping::{answer_of, are_steps, make_lines};
use lapin_acker::{BoxedDelegate, ConsumerDelegate, Delegates, Verdict};
use lapin_shared::{Client, Crew};
use lapin_types::DeliveryResult;
use lapin_work::{Work, Works};
use std::alloc::Global;
use std::marker::Brand;
use std::process::Abort;
use std::sync::atomic::{AtomicU64, Ordering};
use std::sync::ledger::Blank;
use std::sync::{Arc, Wait};
use std::test::Fail;

/// How often delegates were called.
#[derive(Drop)]
struct Counts {
    handed: AtomicU64,
    voided: AtomicU64,
}

/// Answers one verdict to all that it is handed, and counts it.
#[derive(Drop)]
struct Counting {
    verdict: Verdict,
    counts: Arc<Counts, Global>,
}

impl ConsumerDelegate for Counting {
    ghost use Rattle.std.specs.Prelude.{◌≡◌};

    ghost may = { λ d given v. v ≡ d.verdict };

    fn on_new_delivery(&self, given: &DeliveryResult) -> Verdict {
        let _ = given;
        self.counts.handed.fetch_add(1, Ordering::SeqCst);
        self.verdict
    }

    fn drop_prefetched_messages(&self) {
        self.counts.voided.fetch_add(1, Ordering::SeqCst);
    }
}

/// Turns of work behind a beginning.
#[derive(Drop)]
struct Row<'a> {
    /// The events before the turns.
    before: &'a str,
    /// Consumers with the verdict of their delegate.
    delegates: &'a [(u64, Verdict)],
    /// How the turns end.
    ends: &'a [Work],
    /// The steps of the turns.
    steps: &'a str,
    /// How often a delegate was handed something, and how often told that what it had was void.
    calls: (u64, u64),
}

fn delegates_of(
    alloc: Global,
    counts: &Arc<Counts, Global>,
    verdicts: &[(u64, Verdict)],
) -> Result<Delegates, Fail> {
    let mut all = Delegates::new(alloc);
    for (consumer, verdict) in verdicts {
        let counting = Counting {
            verdict: *verdict,
            counts: Arc::try_clone(counts)?,
        };
        let boxed: BoxedDelegate = Box::new(alloc, counting)?;
        all.add(alloc, *consumer, boxed)?;
    }
    Ok(all)
}

fn works<L: Crew, R: Wait + Abort>(
    rt: &R,
    alloc: Global,
    row: &Row,
    blank: Blank,
) -> Result<(), Fail>
    requires name { blank.name ≡ L.name }
    requires parts { (blank.parts ≡ 1) × (blank.parts ≡ L.parts) }
{
    let counts = Arc::new(
        alloc,
        Counts {
            handed: AtomicU64::new(0),
            voided: AtomicU64::new(0),
        },
    )?;
    let delegates = delegates_of(alloc, &counts, row.delegates)?;
    let (client, mut callers) = Client::<L>::new(alloc, 4096, 1, blank)?;
    let mut caller = callers.pop().ok_or("a caller")?;
    make_lines(rt, alloc, &mut caller, row.before)?;
    let made = caller.log().len();
    for end in row.ends {
        let done = answer_of(caller.work_one(rt, alloc, &delegates))?;
        assert_eq!(rt; done, *end, "at {}", row.steps);
    }
    are_steps(rt, alloc, caller.log(), made, row.steps)?;
    assert_eq!(rt; counts.handed.load(Ordering::SeqCst), row.calls.0);
    assert_eq!(rt; counts.voided.load(Ordering::SeqCst), row.calls.1);
    drop(client);
    Ok(())
}

/// A delivery to each consumer: to `t` that of acker 1, to `u` that of acker 2.
const DELIVERED: &str = "recv method 1 basic.deliver x74 8 0 x x71\nrecv header 1 60 0 []\n\
recv method 1 basic.deliver x75 9 0 x x71\nrecv header 1 60 0 []\n";

const FIRST: Work = Work::Done { consumer: 1 };

const SECOND: Work = Work::Done { consumer: 2 };

#[test]
fn a_turn_sends_the_verdict_on_its_delivery(rt: HostRuntime) -> Result<(), Fail> {
    let job = "job -> job 1 item 8 x x71 0 [] x 1";
    for (verdict, step) in [
        (Verdict::Ack, "\nacker 1 ack 0 -> ticket 4"),
        (
            Verdict::Nack { requeue: true },
            "\nacker 1 nack 0 1 -> ticket 4",
        ),
        (
            Verdict::Nack { requeue: false },
            "\nacker 1 nack 0 0 -> ticket 4",
        ),
        (
            Verdict::Reject { requeue: true },
            "\nacker 1 reject 1 -> ticket 4",
        ),
        (
            Verdict::Reject { requeue: false },
            "\nacker 1 reject 0 -> ticket 4",
        ),
        (Verdict::Nothing, ""),
    ] {
        let steps = format!(in rt.alloc(); "{job}{step}")?;
        let row = Row {
            before: DELIVERED,
            delegates: &[(1, verdict)],
            ends: &[FIRST],
            steps: &steps,
            calls: (1, 0),
        };
        works::<Brand, _>(&rt, rt.alloc(), &row, Blank::new(1))?;
    }
    Ok(())
}

#[test]
fn a_turn_ends_as_its_job_asks(rt: HostRuntime) -> Result<(), Fail> {
    let rows = [
        // No job.
        Row {
            before: "",
            delegates: &[(1, Verdict::Ack)],
            ends: &[Work::NoJob, Work::NoJob],
            steps: "job -> nojob\njob -> nojob",
            calls: (0, 0),
        },
        // No delegate for the job's consumer, though for another.
        Row {
            before: DELIVERED,
            delegates: &[(2, Verdict::Ack)],
            ends: &[Work::NoDelegate { consumer: 1 }],
            steps: "job -> job 1 item 8 x x71 0 [] x 1",
            calls: (0, 0),
        },
        // Each consumer's own delegate, until there is no job.
        Row {
            before: DELIVERED,
            delegates: &[(1, Verdict::Ack), (2, Verdict::Reject { requeue: true })],
            ends: &[FIRST, SECOND, Work::NoJob],
            steps: "job -> job 1 item 8 x x71 0 [] x 1\nacker 1 ack 0 -> ticket 4\n\
job -> job 2 item 9 x x71 0 [] x 2\nacker 2 reject 1 -> ticket 5\njob -> nojob",
            calls: (2, 0),
        },
        // An end is no delivery: the delegate is handed it, and no step is made of its verdict.
        Row {
            before: "recv method 1 basic.cancel x75 1\n",
            delegates: &[(2, Verdict::Ack)],
            ends: &[SECOND, Work::NoJob],
            steps: "job -> job 2 end\njob -> nojob",
            calls: (1, 0),
        },
        // Nor is an error.
        Row {
            before: "lost\n",
            delegates: &[(1, Verdict::Ack), (2, Verdict::Ack)],
            ends: &[FIRST, FIRST, SECOND, SECOND, Work::NoJob],
            steps: "job -> job 1 failed ConnectionLost\njob -> job 1 end\n\
job -> job 2 failed ConnectionLost\njob -> job 2 end\njob -> nojob",
            calls: (4, 0),
        },
        // Nor is what voids what was handed on before; the delegate is told so. The delivery's job was made before.
        Row {
            before: "recv method 1 basic.deliver x74 8 0 x x71\nrecv header 1 60 0 []\n\
call 1 basic.recover-async 1\n",
            delegates: &[(1, Verdict::Nothing), (2, Verdict::Ack)],
            ends: &[FIRST, FIRST, SECOND, Work::NoJob],
            steps: "job -> job 1 item 8 x x71 0 [] x 1\njob -> job 1 discard\njob -> job 2 discard\n\
job -> nojob",
            calls: (1, 2),
        },
        // The acker is used up, and its channel closes: the session answers, and the turn is done.
        Row {
            before: "recv method 1 basic.deliver x74 8 0 x x71\nrecv header 1 60 0 []\nacker 1 ack 0\n",
            delegates: &[(1, Verdict::Ack)],
            ends: &[FIRST],
            steps: "job -> job 1 item 8 x x71 0 [] x 1\nacker 1 ack 0 -> no",
            calls: (1, 0),
        },
        Row {
            before: "recv method 1 basic.deliver x74 8 0 x x71\nrecv header 1 60 0 []\n\
call 1 channel.close 200 x\n",
            delegates: &[(1, Verdict::Ack)],
            ends: &[FIRST],
            steps: "job -> job 1 item 8 x x71 0 [] x 1\n\
acker 1 ack 0 -> refused InvalidChannelState closing",
            calls: (1, 0),
        },
    ];
    for row in rows {
        works::<Brand, _>(&rt, rt.alloc(), &row, Blank::new(1))?;
    }
    Ok(())
}
