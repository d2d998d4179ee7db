//! Two working callers meet at a gate: each has a thread of its own.

ghost use Rattle.std.specs.Prelude.{◌≡◌};

use crate::gates::Meeting;
use crate::pool::stepping::{Acks, make_first, pool, with_deliveries};
use lapin_pool::{Sent, run_pool};
use lapin_shared::{Client, Crew};
use std::alloc::Global;
use std::marker::Brand;
use std::process::Abort;
use std::sync::Wait;
use std::sync::atomic::Ordering;
use std::sync::ledger::Blank;
use std::test::Fail;
use std::thread::Threads;

fn meet<L: Crew + Send + Sync, R: Threads + Wait + Abort + Sync>(
    rt: &R,
    alloc: Global,
    gate: &Meeting,
    blank: Blank,
) -> Result<(), Fail>
    requires name { blank.name ≡ L.name }
    requires parts { (blank.parts ≡ 2) × (blank.parts ≡ L.parts) }
{
    let (client, mut callers) = Client::<L>::new(alloc, 4096, 2, blank)?;
    let input = with_deliveries(alloc, 2)?;
    make_first(rt, alloc, &mut callers, &input)?;
    let end = run_pool(rt, alloc, &client, gate, &Acks, &mut callers, 2, 1)?;
    assert_eq!(rt; end.cards.len(), 2);
    assert_eq!(rt; end.cards[0].acker, 1);
    assert_eq!(rt; end.cards[1].acker, 2);
    assert!(rt; end.cards[0].caller != end.cards[1].caller);
    assert!(rt; matches!(end.cards[0].sent, Sent::Placed(_)));
    assert!(rt; matches!(end.cards[1].sent, Sent::Placed(_)));
    assert_eq!(rt; end.history.len(), 15);
    Ok(())
}

#[test]
fn pool_meet(rt: HostRuntime) -> Result<(), Fail> {
    let gate = Meeting::new();
    meet::<Brand, _>(&rt, rt.alloc(), &gate, Blank::new(2))?;
    assert_eq!(&rt; gate.met.load(Ordering::SeqCst), 1);
    Ok(())
}

#[test]
fn pool_meet_in_the_command(rt: HostRuntime) -> Result<(), Fail> {
    let gate = Meeting::new();
    let input = with_deliveries(rt.alloc(), 2)?;
    let (_text, end) = pool(&rt, rt.alloc(), &gate, "pool 2", &input)?;
    assert_eq!(&rt; end.cards.len(), 2);
    assert_eq!(&rt; gate.met.load(Ordering::SeqCst), 1);
    Ok(())
}
