//! All working callers at once, each on a thread of its own, and what they leave.

ghost use Rattle.std.specs.Prelude.{◌≡◌, ◌≤◌, ◌+◌, [], IfOk, OnOk, OnErr, length, false};
ghost use Rattle.std.specs.Vec.{vec_capacity};
ghost use Rattle.lapin_shared.specs.Ackers.{UsesOnce};
ghost use Rattle.lapin_shared.specs.Grown.{AreApart};
ghost use Rattle.lapin_threads.specs.Tallied.{Tallied};
ghost use Rattle.lapin_pool.specs.Ran.{EndedSo};
ghost use Rattle.lapin_pool.specs.Seats.{of_seat};
ghost use Rattle.lapin_pool.specs.Pooled.{HaveWorked};
ghost use Rattle.lapin_pool.specs.Pool.{AreGrown, IsPool};

use crate::card::PoolEnd;
use crate::duty::Duty;
use crate::ending::ended;
use crate::seat::{Seat, work_through};
use crate::seating::{Dealt, nothing_dealt, seat_last, unseat};
use lapin_shared::{Caller, Client, Crew, FinishError, Gate};
use lapin_threads::{Tally, tally_mut};
use lapin_types::NoMemory;
use std::alloc::Global;
use std::sync::Wait;
use std::thread::Threads;

/// The last `workers` of the callers work, each on a thread of its own where one can be made, until there is no job or it took `turns`
/// of them. A job is taken in one step; on a delivery the caller calls `gate.before`, asks the duty once, outside the lock, makes the
/// verdict one step of the acker, where it asks for one, and calls `gate.after`. An error, an end or a discard is taken, and that is
/// all. Then all callers are taken back, and the history is given with a card of each delivery that was taken.
///
/// The callers are those of this client, all of them, in any order: so no two have one number.
///
/// # Errors
/// `NoMemory`: a job step found no memory, or there was none to hold the cards, or to take the callers back. The list still holds the
/// callers, in their order, once all have stopped; their logs say what was done, and the cards are dropped.
pub fn run_pool<L: Crew + Send + Sync, G: Gate, D: Duty, R: Threads + Wait + Sync>(
    rt: &R,
    alloc: Global,
    client: &Client<L>,
    gate: &G,
    duty: &D,
    callers: &mut Vec<Caller<L>>,
    workers: usize,
    turns: u64,
) -> Result<PoolEnd, NoMemory>
    requires all { length callers.old.items ≡ client.now.made }
    requires own { AreApart callers.old.items }
    requires some { workers ≤ length callers.old.items }
    ensures pool { IfOk result (λ e. IsPool (D.may duty.now) client.now.frame_max turns workers callers.old.items e.history e.cards.items) }

    // Of the calls of each acker, by whichever callers, at most one is answered otherwise than no.
    ensures used_once { IfOk result (λ e. UsesOnce e.history) }

    ensures emptied { OnOk result (callers.new.items ≡ []) }
    ensures back { OnErr result (AreGrown callers.old.items callers.new.items) }
{
    let dealt = deal_work(rt, alloc, gate, duty, callers, workers, turns)?;
    match client.finish(rt, alloc, callers) {
        Ok(history) => Ok(ended(history, dealt)),
        Err(FinishError::NoMemory) => Err(NoMemory),
        Err(FinishError::StillOut { .. }) => unreachable!(),
    }
}

// The last callers take seats, have their turns and leave. The cards, with room for those of the unread steps.
#[tactic(auto, using(crate::proofs::Pooling::grown_if_same))]
fn deal_work<L: Crew + Send + Sync, G: Gate, D: Duty, R: Threads + Wait + Sync>(
    rt: &R,
    alloc: Global,
    gate: &G,
    duty: &D,
    callers: &mut Vec<Caller<L>>,
    workers: usize,
    turns: u64,
) -> Result<Dealt, NoMemory>
    requires { workers ≤ length callers.old.items }
    ensures worked { IfOk result (λ d. HaveWorked (D.may duty.now) turns workers callers.old.items d.cards.items d.unread.items callers.new.items) }
    ensures room { IfOk result (λ d. length d.cards.items + length d.unread.items ≤ vec_capacity d.cards) }
    ensures grown { AreGrown callers.old.items callers.new.items }
    ensures count { length callers.new.items ≡ length callers.old.items }
{
    let mut dealt = nothing_dealt(alloc, workers)?;
    let mut seats = seat_last(alloc, callers, workers)?;
    let tally = work_all(rt, alloc, gate, duty, turns, seats.as_mut_slice());
    unseat(callers, seats, &mut dealt);
    all_dealt(tally, dealt)
}

// The cards, with room for those of the unread steps, where no caller met want of memory and all cards are there.
fn all_dealt(tally: Tally, dealt: Dealt) -> Result<Dealt, NoMemory>
    ensures fine { OnOk result ((tally.short ≡ false) × (dealt.short ≡ false)) }
    ensures same { IfOk result (λ d. (d.cards.items ≡ dealt.cards.items) × (d.unread.items ≡ dealt.unread.items)) }
    ensures room { IfOk result (λ d. length d.cards.items + length d.unread.items ≤ vec_capacity d.cards) }
{
    let mut dealt = dealt;
    if tally.short || dealt.short || dealt.cards.reserve(dealt.unread.len()).is_err() {
        return Err(NoMemory);
    }
    Ok(dealt)
}

// Every working caller has its turns.
fn work_all<L: Crew + Send + Sync, G: Gate, D: Duty, R: Threads + Wait + Sync>(
    rt: &R,
    alloc: Global,
    gate: &G,
    duty: &D,
    turns: u64,
    seats: &mut [Seat<L>],
) -> Tally
    ensures each { Tallied (λ a r b. EndedSo (D.may duty.now) turns (of_seat a) r (of_seat b)) seats.old result seats.new }
    ensures count { length seats.new ≡ length seats.old }
{
    let job = |seat: &mut Seat<L>| -> Tally
        ensures { EndedSo (D.may duty.entry.now) turns (of_seat seat.old) result (of_seat seat.new) }
    { work_through(rt, alloc, gate, duty, turns, seat) };
    tally_mut(rt, &job, seats)
}
