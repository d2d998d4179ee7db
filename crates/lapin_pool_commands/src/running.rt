//! The run: one caller makes the events, and then the others work.
ghost use Rattle.std.specs.Prelude.{◌≡◌, ◌+◌, ◌-◌, ◌^◌, ◌<◌, ◌≤◌, ◌++◌, IfOk, OnOk, length, map};
ghost use Rattle.lapin_shared.specs.Own.{event_of};
ghost use Rattle.lapin_pool_commands.specs.First.{IsFirst};
ghost use Rattle.lapin_pool_commands.specs.Left.{IsLeft};

use crate::first_byte::FirstByte;
use lapin_pool::{PoolEnd, run_pool};
use lapin_shared::{Caller, Client, Crew, Gate};
use lapin_shared_commands::is_made;
use lapin_types::{Event, NoMemory};
use std::alloc::Global;
use std::sync::Wait;
use std::sync::ledger::Blank;
use std::thread::Threads;

/// What so many working callers of a new session leave, once the first caller made these events.
pub fn pool_end<L: Crew + Send + Sync, G: Gate, R: Threads + Wait + Sync>(
    rt: &R,
    alloc: Global,
    gate: &G,
    frame_max: u32,
    workers: usize,
    events: Vec<Event>,
    blank: Blank,
) -> Result<PoolEnd, NoMemory>
    requires large { 4096 ≤ frame_max }
    requires few { workers ≤ 64 }
    requires name { blank.name ≡ L.name }
    requires parts { (blank.parts ≡ workers + 1) × (blank.parts ≡ L.parts) }
    ensures { IfOk result (λ end. IsLeft frame_max workers events.items end.history end.cards.items) }
{
    let Ok((client, all)) = Client::<L>::new(alloc, frame_max, workers + 1, blank) else {
        drop(events);
        return Err(NoMemory);
    };
    let mut callers = all;
    make_first(rt, alloc, events, &mut callers)?;
    let end = run_pool(
        rt,
        alloc,
        &client,
        gate,
        &FirstByte,
        &mut callers,
        workers,
        u64::MAX,
    )?;
    within(end)
}

// What is left, where its history is shorter than the greatest number: so no caller stopped for the number of its jobs.
fn within(end: PoolEnd) -> Result<PoolEnd, NoMemory>
    ensures { IfOk result (λ e. (e ≡ end) × (length end.history < 2 ^ 64 - 1)) }
{
    if end.history.at(u64::MAX).is_some() {
        return Err(NoMemory);
    }
    Ok(end)
}

// The first caller makes all events, in order. The others stay as they are.
fn make_first<L: Crew, R: Wait>(
    rt: &R,
    alloc: Global,
    events: Vec<Event>,
    callers: &mut Vec<Caller<L>>,
) -> Result<(), NoMemory>
    requires { 0 < length callers.old.items }
    ensures { OnOk result (IsFirst events.items callers.old.items callers.new.items) }
{
    make_events(rt, alloc, events, &mut callers[0])
}

// The caller makes all events, in order. A record that there is no memory to copy stands in the history.
fn make_events<L: Crew, R: Wait>(
    rt: &R,
    alloc: Global,
    events: Vec<Event>,
    caller: &mut Caller<L>,
) -> Result<(), NoMemory>
    ensures number { caller.new.number ≡ caller.old.number }
    ensures made { OnOk result (map event_of caller.new.log ≡ map event_of caller.old.log ++ events.items) }
{
    for event in events {
        if !is_made(rt, alloc, event, caller) {
            return Err(NoMemory);
        }
    }
    Ok(())
}
