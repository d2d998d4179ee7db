//! Which events each caller makes: the input's events are moved to the callers in turn.
ghost use Rattle.std.specs.Prelude.{◌≡◌, ◌++◌, ◌∷◌, ◌<◌, [], IfOk, OnOk, length, map};
ghost use Rattle.lapin_shared.specs.Grown.{AreFresh};
ghost use Rattle.lapin_shared_commands.specs.Dealt.{AreDealt, AreIdle, caller_of};

use lapin_shared::{Caller, Crew};
use lapin_types::{Event, NoMemory};
use std::alloc::Global;

/// A caller with the events that are left to it, the next one at the end.
#[derive(Drop)]
pub struct Shift<L: Crew> {
    pub caller: Caller<L>,
    pub events: Vec<Event>,
}

/// A shift for each caller, with the events that fall to it.
pub fn deal<L: Crew>(
    alloc: Global,
    callers: Vec<Caller<L>>,
    events: Vec<Event>,
) -> Result<Vec<Shift<L>>, NoMemory>
    requires some { 0 < length callers.items }
    requires fresh { AreFresh 1 callers.items }
    ensures dealt { IfOk result (λ shifts. AreDealt (length callers.items) 0 events.items 1 shifts.items) }
    ensures count { IfOk result (λ shifts. length shifts.items ≡ length callers.items) }
{
    let room = events.len() / callers.len() + 1;
    let mut shifts = idle(alloc, callers, room)?;
    deal_out(shifts.as_mut_slice(), events)?;
    Ok(shifts)
}

/// A shift for each caller, with room for so many events and with none of them.
fn idle<L: Crew>(
    alloc: Global,
    callers: Vec<Caller<L>>,
    room: usize,
) -> Result<Vec<Shift<L>>, NoMemory>
    ensures callers { IfOk result (λ shifts. map caller_of shifts.items ≡ callers.items) }
    ensures none { IfOk result (λ shifts. AreIdle shifts.items) }
{
    let mut shifts = Vec::new(alloc);
    shifts.reserve(callers.len())?;
    for caller in callers {
        shifts.push_reserved(shift_of(alloc, caller, room)?);
    }
    Ok(shifts)
}

/// A shift with room for so many events, with none of them.
fn shift_of<L: Crew>(alloc: Global, caller: Caller<L>, room: usize) -> Result<Shift<L>, NoMemory>
    ensures { IfOk result (λ shift. (shift.caller ≡ caller) × (shift.events.items ≡ [])) }
{
    let mut caller = caller;
    caller.reserve(room)?;
    let mut events = Vec::new(alloc);
    events.reserve(room)?;
    Ok(Shift { caller, events })
}

/// Moves the events to the shifts, from the last one on.
fn deal_out<L: Crew>(shifts: &mut [Shift<L>], events: Vec<Event>) -> Result<(), NoMemory>
    requires some { 0 < length shifts.old }
    requires idle { AreDealt (length shifts.old) (length events.items) [] 1 shifts.old }
    ensures dealt { OnOk result (AreDealt (length shifts.old) 0 events.items 1 shifts.new) }
    ensures count { length shifts.new ≡ length shifts.old }
{
    let callers = shifts.len();
    let mut events = events;
    while let Some(event) = events.pop() {
        let turn = events.len() % callers;
        put_on(&mut shifts[turn], event)?;
    }
    Ok(())
}

/// Puts an event before those of a shift.
fn put_on<L: Crew>(shift: &mut Shift<L>, event: Event) -> Result<(), NoMemory>
    ensures caller { shift.new.caller ≡ shift.old.caller }
    ensures events { OnOk result (shift.new.events.items ≡ shift.old.events.items ++ event ∷ []) }
{
    shift.events.push(event)?;
    Ok(())
}

/// The callers of the shifts, in order.
pub fn callers_back<L: Crew>(
    alloc: Global,
    shifts: Vec<Shift<L>>,
) -> Result<Vec<Caller<L>>, NoMemory>
    ensures { IfOk result (λ callers. callers.items ≡ map caller_of shifts.items) }
{
    let mut callers = Vec::new(alloc);
    callers.reserve(shifts.len())?;
    for shift in shifts {
        let Shift { caller, .. } = shift;
        callers.push_reserved(caller);
    }
    Ok(callers)
}
