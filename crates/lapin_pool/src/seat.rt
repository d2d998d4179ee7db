//! A working caller with its cards, and all its turns.

ghost use Rattle.lapin_pool.specs.Turns.{standing};
ghost use Rattle.lapin_pool.specs.Ran.{EndedSo};

use crate::card::Card;
use crate::duty::Duty;
use crate::turn::{Turn, take_turn};
use lapin_shared::{Caller, Crew, Gate};
use lapin_threads::Tally;
use std::alloc::Global;
use std::sync::Wait;

/// A working caller, with a card of each delivery that it took.
#[derive(Drop)]
pub struct Seat<L: Crew> {
    pub caller: Caller<L>,
    pub cards: Vec<Card>,
    /// The place of its last job step, where there was no memory to read the record.
    pub unread: Option<u64>,
}

/// Takes jobs until there is none, or `turns` of them were taken, or memory runs out. How many were taken, and whether memory ran out.
#[tactic(auto, using(crate::proofs::Turning::ran_more))]
pub fn work_through<L: Crew, G: Gate, D: Duty, R: Wait>(
    rt: &R,
    alloc: Global,
    gate: &G,
    duty: &D,
    turns: u64,
    seat: &mut Seat<L>,
) -> Tally
    ensures { EndedSo (D.may duty.now) turns (standing seat.old.caller seat.old.cards.items seat.old.unread) result (standing seat.new.caller seat.new.cards.items seat.new.unread) }
{
    for jobs in 0..turns {
        match take_turn(rt, alloc, gate, duty, seat) {
            Turn::Took => {}
            Turn::Over => return Tally {
                count: jobs,
                short: false,
            },
            Turn::Short => return Tally {
                count: jobs,
                short: true,
            },
        }
    }
    Tally {
        count: turns,
        short: false,
    }
}
