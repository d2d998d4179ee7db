//! The ackers of a session: each is used at most once, and not once its opening ended or what it acknowledges became void.
//!
//! What an end says of all ackers of its channel stands once, beside the ackers: each is seen with the last end of its channel. So an
//! end costs the same whatever was given. Used ackers at the front, and those whose openings ended, give up their cells, two as each
//! further one is added, so that memory is held by what may still be used.

ghost use Rattle.std.specs.Prelude.{◌≡◌, ℕ, ◌+◌, ◌-◌, ◌<◌, ◌≤◌, ◌^◌, ◌↔◌, ◌⊎◌, ◌∷◌, ◌++◌, [], List, Err, Some, None, IsTrue, IsSome, IfSome, if◌then◌else◌, slice_get, MatchOption, OnOk, OnErr, IsOk, IfOk, IfErr, length, map, vec_len};
ghost use Rattle.lapin_acker.specs.Switches.{switch_at, usable_as, is_usable, is_over as is_over_of, after_mark, used as used_of, over_on as over_of};
ghost use Rattle.lapin_acker.specs.Marks as mark;
ghost use Rattle.lapin_acker.specs.Store.{end_of as end_of_lem, seen as seen_lem, shown, room_of};
ghost use Rattle.lapin_acker.specs.declared.switch.Switch.{Switch as ASwitch};
ghost use Rattle.lapin_acker.specs.declared.switch.Switch.TheVariants as switch;

use crate::cells::Cells;
use crate::passed::Passed;
use crate::switch::Switch;
use lapin_types::{Error, NoMemory};
use std::alloc::{AllocError, Global};
use std::marker::Model;

/// How many channel numbers there are.
const CHANNELS: usize = 65536;

/// The ackers of a session, numbered from 1. Contracts see one switch a number, and the room beside them.
pub struct Switches {
    // Those at the front that have no cell.
    passed: Passed,
    cells: Cells,
    // By channel: an acker of the channel with a number up to this one is over. It is made with the first acker, or room for one.
    ends: Vec<u64>,
}

impl Drop for Switches {
    fn drop(self) {
        let Switches {
            passed: _,
            cells: _,
            ends: _,
        } = self;
    }
}

impl Model for Switches {
    ghost use Rattle.std.specs.Prelude.{◌≡◌, ℕ, ◌+◌, ◌-◌, ◌<◌, ◌≤◌, ◌^◌, ◌++◌, length, vec_len};
    ghost use Rattle.lapin_acker.specs.Switches.{Board};
    ghost use Rattle.lapin_acker.specs.Store.{end_of, shown, room_of};

    ghost Value = { Board };

    ghost view = { λ a. record {
      switches = shown a.passed.gone a.ends.items (a.passed.used ++ a.cells.items);
      spare = room_of (vec_len a.ends) a.cells.spare;
    } };

    ghost invariant = { λ a. (a.passed.gone + length (a.passed.used ++ a.cells.items) < 2 ^ 64) × (0 < length (a.passed.used ++ a.cells.items) → vec_len a.ends ≡ 65536) × ((c : ℕ) → end_of c a.ends.items ≤ a.passed.gone + length (a.passed.used ++ a.cells.items)) };
}

impl Switches {
    /// No acker. It takes no memory yet, so it doesn't fail.
    pub fn new(alloc: Global) -> Result<Switches, NoMemory>
        ensures made { IfOk result (λ made. made.switches ≡ []) }
        ensures succeeds { IsOk result }
    {
        Ok(Switches {
            passed: Passed::new(alloc),
            cells: Cells::new(alloc),
            ends: Vec::new(alloc),
        })
    }

    /// Makes room for the next `add`. The ackers stay, also where there is no memory, and so does all room that was made.
    pub fn reserve(&mut self, _alloc: Global) -> Result<(), NoMemory>
        ensures room { OnOk result (0 < self.new.spare) }
        ensures kept { self.old.spare ≤ self.new.spare }
        ensures same { self.new.switches ≡ self.old.switches }
    {
        make_room(&mut self.passed, &mut self.cells, &mut self.ends)?;
        Ok(())
    }

    /// Adds the acker of a delivery that came in an opening of a channel, and answers its number.
    ///
    /// # Errors
    ///
    /// `NumbersUsedUp` exactly where the number would pass the greatest `u64`; `NoMemory`. Nothing changes then.
    pub fn add(
        &mut self,
        _alloc: Global,
        channel: u16,
        opening: u64,
        delivery_tag: u64,
    ) -> Result<u64, Error>
        ensures number { IfOk result (λ n. n ≡ length self.old.switches + 1) }
        ensures ok { OnOk result (self.new.switches ≡ after_mark self.old.switches (mark.Added channel opening delivery_tag)) }
        ensures err { OnErr result (self.new.switches ≡ self.old.switches) }
        ensures cause { IfErr result (λ e. (e ≡ Error.NumbersUsedUp) ⊎ (e ≡ Error.NoMemory)) }
        ensures used_up { (result ≡ Err Error.NumbersUsedUp) ↔ (length self.old.switches + 1 ≡ 2 ^ 64) }

        // In the room that `reserve` made it doesn't answer want of memory.
        ensures succeeds { 0 < self.old.spare → length self.old.switches + 1 < 2 ^ 64 → IsOk result }

        // It takes up one place at most, and none where it fails.
        ensures kept { self.old.spare ≤ self.new.spare + 1 }
        ensures unused { OnErr result (self.old.spare ≤ self.new.spare) }
    {
        let _ = opening;
        let count = self.count();
        if count == u64::MAX {
            return Err(Error::NumbersUsedUp);
        }
        if make_room(&mut self.passed, &mut self.cells, &mut self.ends).is_err() {
            return Err(Error::NoMemory);
        }
        self.push(channel, delivery_tag);
        Ok(count + 1)
    }

    /// What `spend` would give. It changes nothing.
    pub fn peek(&self, number: u64) -> Option<(u16, u64)>
        ensures { result ≡ usable_as (switch_at number self.now.switches) }
    {
        match self.get(number) {
            Some(Switch::Usable(channel, delivery_tag)) => Some((channel, delivery_tag)),
            _ => None,
        }
    }

    /// Whether an acker may be used.
    pub fn usable(&self, number: u64) -> bool
        ensures { result ≡ is_usable (switch_at number self.now.switches) }
    {
        matches!(self.get(number), Some(Switch::Usable(_, _)))
    }

    /// Whether the number was given and its opening ended.
    pub fn ended(&self, number: u64) -> bool
        ensures { result ≡ is_over_of (switch_at number self.now.switches) }
    {
        matches!(self.get(number), Some(Switch::Over))
    }

    /// Uses an acker up, and gives its channel and delivery tag; None exactly where it isn't usable.
    pub fn spend(&mut self, number: u64) -> Option<(u16, u64)>
        ensures given { result ≡ usable_as (switch_at number self.old.switches) }
        ensures spent { self.new.switches ≡ after_mark self.old.switches (mark.Spent number) }
        ensures kept { self.new.spare ≡ self.old.spare }
    {
        let given = self.peek(number);
        self.void(number);
        given
    }

    /// Makes an acker unusable: what it acknowledges is void.
    pub fn void(&mut self, number: u64)
        ensures spent { self.new.switches ≡ after_mark self.old.switches (mark.Spent number) }
        ensures kept { self.new.spare ≡ self.old.spare }
    {
        let Some(place) = place_of(self.passed.up_to(), number) else {
            return;
        };
        self.cells.void(place);
    }

    /// The opening of a channel ended: its ackers are over.
    pub fn end(&mut self, channel: u16)
        ensures ended { self.new.switches ≡ after_mark self.old.switches (mark.Ended channel) }
        ensures kept { self.new.spare ≡ self.old.spare }
    {
        self.turn_over(channel);
    }

    fn turn_over(&mut self, channel: u16)
        ensures over { self.new.switches ≡ map (over_of channel) self.old.switches }
        ensures kept { self.new.spare ≡ self.old.spare }
    {
        let count = self.count();
        if usize::from(channel) < self.ends.len() {
            self.ends[usize::from(channel)] = count;
        }
    }

    /// How many ackers were given.
    pub fn count(&self) -> u64
        ensures { result ≡ length self.now.switches }
    {
        self.passed.up_to() + self.cells.len()
    }

    // Adds an acker, in the room that was made.
    fn push(&mut self, channel: u16, delivery_tag: u64)
        requires room { 0 < self.old.spare }
        requires fits { length self.old.switches + 1 < 2 ^ 64 }
        ensures added { self.new.switches ≡ self.old.switches ++ switch.Usable channel delivery_tag ∷ [] }
        ensures kept { self.old.spare ≤ self.new.spare + 1 }
    {
        self.cells.push_reserved(channel, delivery_tag);
    }

    fn get(&self, number: u64) -> Option<Switch>
        ensures { result ≡ switch_at number self.now.switches }
    {
        let up_to = self.passed.up_to();
        if number <= up_to {
            return seen_passed(&self.passed, &self.ends, number);
        }
        let place = (number - up_to - 1) as usize;
        match self.cells.at(place) {
            Some(cell) => Some(seen(&self.ends, number, cell)),
            None => None,
        }
    }
}

// The acker of a number that was let go; none has the number 0.
fn over_if(given: bool) -> Option<Switch>
    ensures { result ≡ (if given then Some Switch.Over else None) }
{
    if given { Some(Switch::Over) } else { None }
}

// The place of a number behind those that were let go.
fn place_of(let_go: u64, number: u64) -> Option<usize>
    ensures { MatchOption result (number ≤ let_go) (λ place. number ≡ let_go + place + 1) }
{
    let place = number.checked_sub(let_go)?.checked_sub(1)?;
    Some(place as usize)
}

// The last number that is over on a channel.
pub(crate) fn end_of(ends: &[u64], channel: u16) -> u64
    ensures { result ≡ end_of_lem channel ends.now }
{
    match ends.get(usize::from(channel)) {
        Some(end) => *end,
        None => 0,
    }
}

// The acker of a number as its cell and the ends tell it.
fn seen(ends: &[u64], number: u64, cell: Switch) -> Switch
    ensures { result ≡ seen_lem ends.now number cell }
{
    match cell {
        Switch::Usable(channel, _) | Switch::Used(channel) if number <= end_of(ends, channel) => {
            Switch::Over
        }
        other => other,
    }
}

// The acker of a number that has no cell any more; none has the number 0.
fn seen_passed(passed: &Passed, ends: &[u64], number: u64) -> Option<Switch>
    requires { number ≤ passed.now.gone + length passed.now.used }
    ensures { (cells : List ASwitch) → result ≡ switch_at number (shown passed.now.gone ends.now (passed.now.used ++ cells)) }
{
    let gone = passed.gone();
    if number <= gone {
        return over_if(number > 0);
    }
    match passed.channel_at(number - gone - 1) {
        Some(channel) => Some(seen(ends, number, Switch::Used(channel))),
        None => None,
    }
}

// Makes the table of ends, where it is not there.
fn make_table(ends: &mut Vec<u64>) -> Result<(), AllocError>
    ensures made { OnOk result (vec_len ends.new ≡ 65536) }
    ensures kept { vec_len ends.old ≡ 65536 → IsOk result × (ends.new.items ≡ ends.old.items) }
    ensures bound { (m : ℕ) → ((c : ℕ) → end_of_lem c ends.old.items ≤ m) → (c : ℕ) → end_of_lem c ends.new.items ≤ m }
{
    if ends.len() == CHANNELS {
        return Ok(());
    }
    ends.clear();
    ends.resize(CHANNELS, 0)
}

// Makes room for one more, and takes two cells away that are not needed.
fn make_room(passed: &mut Passed, cells: &mut Cells, ends: &mut Vec<u64>) -> Result<(), AllocError>
    requires fits { passed.old.gone + length (passed.old.used ++ cells.old.items) < 2 ^ 64 }
    requires table { 0 < length (passed.old.used ++ cells.old.items) → vec_len ends.old ≡ 65536 }
    ensures shown { shown passed.new.gone ends.new.items (passed.new.used ++ cells.new.items) ≡ shown passed.old.gone ends.old.items (passed.old.used ++ cells.old.items) }
    ensures count { passed.new.gone + length (passed.new.used ++ cells.new.items) ≡ passed.old.gone + length (passed.old.used ++ cells.old.items) }
    ensures table { 0 < length (passed.new.used ++ cells.new.items) → vec_len ends.new ≡ 65536 }
    ensures bound { (m : ℕ) → ((c : ℕ) → end_of_lem c ends.old.items ≤ m) → (c : ℕ) → end_of_lem c ends.new.items ≤ m }
    ensures room { OnOk result (0 < room_of (vec_len ends.new) cells.new.spare) }
    ensures succeeds { 0 < room_of (vec_len ends.old) cells.old.spare → IsOk result }
    ensures kept { room_of (vec_len ends.old) cells.old.spare
        ≤ room_of (vec_len ends.new) cells.new.spare }
{
    make_table(ends)?;
    cells.pass(passed, ends);
    cells.pass(passed, ends);
    passed.let_go(ends);
    passed.let_go(ends);
    cells.pack();
    cells.reserve()
}
