//! Four working callers and a hundred deliveries: each gets one card, and more than one caller takes some.

ghost use Rattle.std.specs.Prelude.{◌≡◌};

use crate::gates::Meeting;
use crate::pool::stepping::{Acks, make_first, with_deliveries};
use lapin_pool::{Card, run_pool};
use lapin_shared::{Client, Crew};
use std::alloc::Global;
use std::marker::Brand;
use std::process::Abort;
use std::sync::Wait;
use std::sync::ledger::Blank;
use std::test::Fail;
use std::thread::Threads;

// Whether places rise and no acker comes twice.
fn are_apart(cards: &[Card]) -> bool {
    for k in 1..cards.len() {
        if cards[k].place <= cards[k - 1].place {
            return false;
        }
        for i in 0..k {
            if cards[i].acker == cards[k].acker {
                return false;
            }
        }
    }
    true
}

// Whether the cards are those of more than one caller.
fn of_several(cards: &[Card]) -> bool {
    for k in 1..cards.len() {
        if cards[k].caller != cards[0].caller {
            return true;
        }
    }
    false
}

// The first job waits until another one was treated: so a second caller takes some.
fn hundred<L: Crew + Send + Sync, R: Threads + Wait + Abort + Sync>(
    rt: &R,
    alloc: Global,
    blank: Blank,
) -> Result<(), Fail>
    requires name { blank.name ≡ L.name }
    requires parts { (blank.parts ≡ 5) × (blank.parts ≡ L.parts) }
{
    let (client, mut callers) = Client::<L>::new(alloc, 4096, 5, blank)?;
    let input = with_deliveries(alloc, 100)?;
    make_first(rt, alloc, &mut callers, &input)?;
    let gate = Meeting::new();
    let end = run_pool(rt, alloc, &client, &gate, &Acks, &mut callers, 4, u64::MAX)?;
    assert_eq!(rt; end.cards.len(), 100);
    assert!(rt; are_apart(end.cards.as_slice()));
    assert!(rt; of_several(end.cards.as_slice()));
    // Five steps and three of each delivery; two of each turn, and a last job step of each worker.
    assert_eq!(rt; end.history.len(), 5 + 300 + 200 + 4);
    Ok(())
}

#[test]
fn four_workers_treat_a_hundred_deliveries(rt: HostRuntime) -> Result<(), Fail> {
    hundred::<Brand, _>(&rt, rt.alloc(), Blank::new(5))
}
