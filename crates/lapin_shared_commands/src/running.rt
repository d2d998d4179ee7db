//! All callers at once, each on a thread of its own, and the history that they leave.
ghost use Rattle.std.specs.Prelude.{◌≡◌, ◌<◌, ◌≤◌, IfOk, length, true};
ghost use Rattle.lapin_shared.specs.Grown.{AreFresh};
ghost use Rattle.lapin_shared_commands.specs.Dealt.{AreDone, IsDealt, MadeOwn};
ghost use Rattle.lapin_threads.specs.Each.{EachLeft};

use crate::shifts::{Shift, callers_back, deal};
use crate::turns::work;
use lapin_shared::{Caller, Client, Crew, FinishError, Gate, History};
use lapin_threads::each_mut;
use lapin_types::{Event, NoMemory};
use std::alloc::Global;
use std::sync::Wait;
use std::sync::ledger::Blank;
use std::thread::Threads;

/// The history of a new session whose callers made these events.
pub fn shared_history<L: Crew + Send + Sync, G: Gate, R: Threads + Wait + Sync>(
    rt: &R,
    alloc: Global,
    gate: &G,
    frame_max: u32,
    callers: usize,
    events: Vec<Event>,
    blank: Blank,
) -> Result<History, NoMemory>
    requires large { 4096 ≤ frame_max }
    requires some { 1 ≤ callers }
    requires name { blank.name ≡ L.name }
    requires parts { (blank.parts ≡ callers) × (blank.parts ≡ L.parts) }
    ensures { IfOk result (λ history. IsDealt frame_max callers events.items history) }
{
    let Ok((client, all)) = Client::<L>::new(alloc, frame_max, callers, blank) else {
        drop(events);
        return Err(NoMemory);
    };
    if client.reserve(rt, events.len()).is_err() {
        drop(events);
        return Err(NoMemory);
    }
    let mut back = make_all(rt, alloc, gate, events, all)?;
    match client.finish(rt, alloc, &mut back) {
        Ok(history) => Ok(history),
        Err(FinishError::NoMemory) => Err(NoMemory),
        Err(FinishError::StillOut { .. }) => unreachable!(),
    }
}

/// Every caller makes the events that fall to it, and comes back.
fn make_all<L: Crew + Send + Sync, G: Gate, R: Threads + Wait + Sync>(
    rt: &R,
    alloc: Global,
    gate: &G,
    events: Vec<Event>,
    all: Vec<Caller<L>>,
) -> Result<Vec<Caller<L>>, NoMemory>
    requires some { 0 < length all.items }
    requires fresh { AreFresh 1 all.items }
    ensures done { IfOk result (λ back. AreDone (length all.items) events.items 1 back.items) }
    ensures count { IfOk result (λ back. length back.items ≡ length all.items) }
{
    let mut shifts = deal(alloc, all, events)?;
    if !work_all(rt, alloc, gate, shifts.as_mut_slice()) {
        return Err(NoMemory);
    }
    let back = callers_back(alloc, shifts)?;
    Ok(back)
}

/// All shifts, each on a thread of its own where one can be made. The answer is whether all events were made.
fn work_all<L: Crew + Send + Sync, G: Gate, R: Threads + Wait + Sync>(
    rt: &R,
    alloc: Global,
    gate: &G,
    shifts: &mut [Shift<L>],
) -> bool
    ensures { result ≡ true → EachLeft (λ x y. MadeOwn x true y) shifts.old shifts.new }
{
    let callers = shifts.len() as u64;
    let job = |shift: &mut Shift<L>| -> bool
        ensures { MadeOwn shift.old result shift.new }
    { work(rt, alloc, gate, callers, shift) };
    each_mut(rt, &job, shifts)
}
