//! One caller's turns: it makes the events that fell to it, in their order.
ghost use Rattle.std.specs.Prelude.{◌≡◌, ◌++◌, ◌∷◌, [], map, reverse, true, vec_len};
ghost use Rattle.lapin_shared.specs.Own.{event_of};
ghost use Rattle.lapin_shared_commands.specs.Dealt.{MadeOwn};

use crate::shifts::Shift;
use lapin_shared::{Caller, Crew, Gate, StepError};
use lapin_types::Event;
use std::alloc::Global;
use std::sync::Wait;

/// Makes the events of a shift, of so many. The answer is whether all were made; memory ran out where they were not.
pub fn work<L: Crew, G: Gate, R: Wait>(
    rt: &R,
    alloc: Global,
    gate: &G,
    callers: u64,
    shift: &mut Shift<L>,
) -> bool
    ensures { MadeOwn shift.old result shift.new }
{
    make_own(
        rt,
        alloc,
        gate,
        callers,
        &mut shift.events,
        &mut shift.caller,
    )
}

/// Makes these events, from the last one on. The first has the caller's number among all, each other is so many behind the one before.
fn make_own<L: Crew, G: Gate, R: Wait>(
    rt: &R,
    alloc: Global,
    gate: &G,
    callers: u64,
    events: &mut Vec<Event>,
    caller: &mut Caller<L>,
) -> bool
    ensures number { caller.new.number ≡ caller.old.number }
    ensures done { result ≡ true → map event_of caller.new.log ≡ map event_of caller.old.log ++ reverse events.old.items }
{
    let mut place = caller.number();
    while let Some(event) = events.pop() {
        if !make_one(rt, alloc, gate, place, event, caller) {
            return false;
        }
        place = place.saturating_add(callers);
        give_back(events);
    }
    true
}

/// Gives back the room of events that were made, once less than half of it holds events.
fn give_back(events: &mut Vec<Event>)
    ensures items { events.new.items ≡ events.old.items }
    ensures len { vec_len events.new ≡ vec_len events.old }
{
    if events.len() < events.capacity() / 2 {
        events.shrink_to_fit();
    }
}

/// Makes one event, whose number among all is `place`, between the calls of the gate.
fn make_one<L: Crew, G: Gate, R: Wait>(
    rt: &R,
    alloc: Global,
    gate: &G,
    place: u64,
    event: Event,
    caller: &mut Caller<L>,
) -> bool
    ensures number { caller.new.number ≡ caller.old.number }
    ensures done { result ≡ true → map event_of caller.new.log ≡ map event_of caller.old.log ++ event ∷ [] }
{
    let number = caller.number();
    gate.before(number, place);
    if !is_made(rt, alloc, event, caller) {
        return false;
    }
    gate.after(number, place);
    true
}

/// Makes the step, and says whether it was made. Where only its record could not be copied it was.
#[tactic(auto, using(crate::proofs::Dealing::grew_events))]
pub fn is_made<L: Crew, R: Wait>(
    rt: &R,
    alloc: Global,
    event: Event,
    caller: &mut Caller<L>,
) -> bool
    ensures number { caller.new.number ≡ caller.old.number }
    ensures done { result ≡ true → map event_of caller.new.log ≡ map event_of caller.old.log ++ event ∷ [] }
{
    match caller.make(rt, alloc, event) {
        Ok(_) => true,
        Err(StepError::Unread { .. }) => true,
        Err(StepError::NoMemory) => false,
        Err(StepError::Unsent { .. }) => unreachable!(),
    }
}
