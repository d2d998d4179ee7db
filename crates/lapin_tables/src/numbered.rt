//! Values that are numbered from 1 in order of adding, each until it is taken.
//!
//! What was taken at the front is let go. A value at the front that many later ones were taken past is passed over: it
//! stands beside its number in a list of its own. So memory is held by what is outstanding, whichever values stay. No other
//! file knows what was let go or passed over: contracts see every number that was given.

ghost use Rattle.std.specs.Prelude.{◌≡◌, ◌≢◌, ℕ, ◌+◌, ◌^◌, ◌≤◌, ◌<◌, ◌∷◌, ◌++◌, [], length, OnOk, IsOk, IsSome, MatchOption, None, Some, replicate, true, false, ◌-◌};
ghost use Rattle.std.specs.VecDeque.{deque_len, deque_capacity};
ghost use Rattle.std.specs.Option.{option_copied, option_copied_mut};
ghost use Rattle.std.specs.Borrow.{sem};
ghost use Rattle.lapin_tables.specs.Numbered.{Slots, under, with_under, first_kept, starts_taken};
ghost use Rattle.lapin_tables.specs.ByChannel.{at_channel, on_channel};
ghost use Rattle.lapin_tables.specs.Index.{place_of as place_of_lem};
ghost use Rattle.lapin_tables.specs.Behind.{spread, Rises, EndsBy};
ghost use Rattle.lapin_tables.specs.Lends.{LendsUnder};

use std::alloc::{AllocError, Global};
use std::collections::VecDeque;
use std::marker::Model;

/// How far behind the first slot a value is taken before the first is passed over.
const FAR: usize = 128;

/// Values that are numbered from 1. Contracts see one slot per number that was given, `None` where its value was taken.
#[derive(Drop)]
pub struct Numbered<T> {
    // The values that were passed over, each beside its number, the numbers rising.
    behind: VecDeque<(u64, T)>,
    // How many numbers at the front have no slot any more: the value of each was taken or passed over.
    let_go: u64,
    slots: VecDeque<Option<T>>,
}

impl<T> Model for Numbered<T> {
    ghost use Rattle.std.specs.Prelude.{◌≡◌, ◌-◌, ◌+◌, ◌<◌, ◌^◌, ◌++◌, false};
    ghost use Rattle.std.specs.VecDeque.{deque_len, deque_capacity};
    ghost use Rattle.lapin_tables.specs.Numbered.{Slots, slots_code};
    ghost use Rattle.lapin_tables.specs.Behind.{spread};

    ghost Value = { Slots T };

    ghost coded = { slots_code T.code };

    ghost view = { λ a. record {
      slots = spread 0 a.let_go a.behind.items ++ a.slots.items;
      spare = deque_capacity a.slots - deque_len a.slots;
    } };

    ghost use Rattle.lapin_tables.specs.Numbered.{starts_taken};
    ghost use Rattle.lapin_tables.specs.Behind.{Rises, EndsBy};

    ghost invariant = { λ a. (a.let_go + deque_len a.slots < 2 ^ 64) × (starts_taken a.slots.items ≡ false) × Rises 0 a.behind.items × EndsBy a.let_go a.behind.items };
}

impl<T> Numbered<T> {
    /// No number is given yet. It takes no memory.
    pub fn new(alloc: Global) -> Self
        ensures { result.slots ≡ [] }
    {
        Numbered {
            behind: VecDeque::new(alloc),
            let_go: 0,
            slots: VecDeque::new(alloc),
        }
    }

    /// How many numbers were given, which is also the last one.
    pub fn count(&self) -> u64
        ensures { result ≡ length self.now.slots }
    {
        self.let_go + self.slots.len() as u64
    }

    /// The number that the next value gets, or `None` where it would pass the greatest `u64`.
    pub fn next_number(&self) -> Option<u64>
        ensures { MatchOption result (length self.now.slots + 1 ≡ 2 ^ 64) (λ n. n ≡ length self.now.slots + 1) }
    {
        self.count().checked_add(1)
    }

    /// The value under a number: `None` where the number was never given or its value was taken.
    #[tactic(auto, using(crate::proofs::Slots::length_shown))]
    pub fn get(&self, number: u64) -> Option<&T>
        ensures value { option_copied result ≡ under number self.now.slots }
        ensures fits { length self.now.slots < 2 ^ 64 }
    {
        let Some(place) = place_of(self.let_go, number) else {
            if is_above(&self.behind, number) {
                return None;
            }
            return value_behind(&self.behind, number);
        };
        let slot = self.slots.get(place)?;
        slot.as_ref()
    }

    /// The value under a number, to be changed in place: `None` where the number was never given or its value was taken.
    /// Every other number keeps its value.
    pub fn get_mut(&mut self, number: u64) -> Option<&mut T>
        ensures* writes_back { sem 𝓛 (LendsUnder T.row self.entry number result) }
        ensures value { option_copied_mut result ≡ under number self.old.slots }
    {
        match place_of(self.let_go, number) {
            Some(place) if place < self.slots.len() => self.slots[place].as_mut(),
            Some(_) => None,
            None => match find(&self.behind, number) {
                Some(place) => {
                    let entry = &mut self.behind[place];
                    Some(&mut entry.1)
                }
                None => None,
            },
        }
    }

    /// The least number whose value is there.
    pub fn first_number(&self) -> Option<u64>
        ensures { result ≡ first_kept self.now.slots }
    {
        if let Some(entry) = self.behind.front() {
            return Some(entry.0);
        }
        if self.slots.is_empty() {
            None
        } else {
            Some(self.let_go + 1)
        }
    }

    /// Makes room for so many further `push_reserved`. The values stay, also where there is no memory.
    #[inline(always)]
    pub fn reserve(&mut self, additional: usize) -> Result<(), AllocError>
        ensures room { OnOk result (additional ≤ self.new.spare) }
        ensures same { self.new.slots ≡ self.old.slots }
        ensures kept { self.old.spare ≤ self.new.spare }
        ensures succeeds { additional ≤ self.old.spare → IsOk result }
    {
        if additional <= self.slots.capacity() - self.slots.len() {
            return Ok(());
        }
        self.make_room(additional)
    }

    // Makes the room that is not there yet, which is seldom.
    #[inline(never)]
    fn make_room(&mut self, additional: usize) -> Result<(), AllocError>
        ensures room { OnOk result (additional ≤ self.new.spare) }
        ensures same { self.new.slots ≡ self.old.slots }
        ensures kept { self.old.spare ≤ self.new.spare }
        ensures succeeds { additional ≤ self.old.spare → IsOk result }
    {
        self.slots.reserve(additional)
    }

    /// Makes room for one more value beside so many that are promised theirs. The values stay, also where there is no memory.
    pub fn reserve_beside(&mut self, promised: usize) -> Result<(), AllocError>
        requires { promised ≤ self.old.spare }
        ensures room { OnOk result (promised < self.new.spare) }
        ensures same { self.new.slots ≡ self.old.slots }
        ensures kept { self.old.spare ≤ self.new.spare }
        ensures succeeds { promised < self.old.spare → IsOk result }
    {
        self.slots.reserve(promised + 1)
    }

    /// Gives a value the next number, in the room that `reserve` made.
    pub fn push_reserved(&mut self, value: T) -> u64
        requires room { 0 < self.old.spare }
        requires numbers { length self.old.slots + 1 < 2 ^ 64 }
        ensures number { result ≡ length self.old.slots + 1 }
        ensures slots { self.new.slots ≡ self.old.slots ++ Some value ∷ [] }
        ensures spare { self.old.spare ≡ self.new.spare + 1 }
    {
        self.slots.push_back_reserved(Some(value));
        self.count()
    }
}

impl<T: Drop> Numbered<T> {
    /// Puts another value in the place of the one under a number.
    pub fn set(&mut self, number: u64, value: T)
        requires { IsSome (under number self.old.slots) }
        ensures slots { self.new.slots ≡ with_under number (Some value) self.old.slots }
        ensures spare { self.new.spare ≡ self.old.spare }
    {
        let Some(place) = place_of(self.let_go, number) else {
            set_behind(&mut self.behind, number, value);
            return;
        };
        self.slots[place] = Some(value);
    }

    /// Takes the value under a number out: `None` where the number was never given or its value was taken.
    #[inline(always)]
    pub fn take(&mut self, number: u64) -> Option<T>
        ensures value { result ≡ under number self.old.slots }
        ensures slots { self.new.slots ≡ with_under number None self.old.slots }
        ensures kept { self.old.spare ≤ self.new.spare }
    {
        let Some(place) = place_of(self.let_go, number) else {
            return take_behind(&mut self.behind, number);
        };
        let value = self.slots.get_mut(place)?.take();
        let_go(&mut self.let_go, &mut self.slots);
        if place >= FAR {
            pass_over(&mut self.behind, &mut self.let_go, &mut self.slots);
        }
        value
    }
}

// Puts another value beside a number that was passed over.
#[cold]
fn set_behind<T: Drop>(behind: &mut VecDeque<(u64, T)>, number: u64, value: T)
    requires { Rises 0 behind.old.items }
    ensures { behind.new.items ≡ on_channel number (λ _. value) behind.old.items }
{
    let Some(place) = find(behind, number) else {
        return;
    };
    behind[place] = (number, value);
}

// Takes out the value that was passed over with this number.
#[cold]
fn take_behind<T>(behind: &mut VecDeque<(u64, T)>, number: u64) -> Option<T>
    requires { Rises 0 behind.old.items }
    ensures value { result ≡ at_channel number behind.old.items }
    ensures gone { at_channel number behind.new.items ≡ None }
    ensures others { (n : ℕ) → n ≢ number → at_channel n behind.new.items ≡ at_channel n behind.old.items }
    ensures rises { Rises 0 behind.new.items }
{
    let place = find(behind, number)?;
    let (_, value) = behind.remove(place)?;
    Some(value)
}

// Passes the first value over and lets go what was taken behind it. Where there is no memory, nothing changes.
#[cold]
fn pass_over<T: Drop>(
    behind: &mut VecDeque<(u64, T)>,
    gone: &mut u64,
    slots: &mut VecDeque<Option<T>>,
)
    requires fits { gone.old + deque_len slots.old < 2 ^ 64 }
    requires rises { Rises 0 behind.old.items }
    requires ends { EndsBy gone.old behind.old.items }
    requires start { starts_taken slots.old.items ≡ false }
    ensures slots { spread 0 gone.new behind.new.items ++ slots.new.items ≡ spread 0 gone.old behind.old.items ++ slots.old.items }
    ensures count { gone.new + deque_len slots.new ≡ gone.old + deque_len slots.old }
    ensures start { starts_taken slots.new.items ≡ false }
    ensures room { deque_capacity slots.old - deque_len slots.old ≤ deque_capacity slots.new - deque_len slots.new }
    ensures rises { Rises 0 behind.new.items }
    ensures ends { EndsBy gone.new behind.new.items }
{
    if behind.reserve(1).is_err() {
        return;
    }
    let Some(first) = slots.pop_front() else {
        return;
    };
    *gone += 1;
    stand(behind, *gone, first);
    let_go(gone, slots);
}

// Puts the value of a slot, if it has one, beside its number, which is above the others, in the room that was made.
fn stand<T: Drop>(behind: &mut VecDeque<(u64, T)>, number: u64, slot: Option<T>)
    requires room { deque_len behind.old < deque_capacity behind.old }
    requires rises { Rises 0 behind.old.items }
    requires first { 0 < number }
    requires above { (n : ℕ) → number ≤ n → at_channel n behind.old.items ≡ None }
    ensures value { at_channel number behind.new.items ≡ slot }
    ensures others { (n : ℕ) → n ≢ number → at_channel n behind.new.items ≡ at_channel n behind.old.items }
    ensures rises { Rises 0 behind.new.items }
{
    if let Some(value) = slot {
        behind.push_back_reserved((number, value));
    }
}

// Whether a number is above all that were passed over, as most are.
fn is_above<T>(behind: &VecDeque<(u64, T)>, number: u64) -> bool
    requires { Rises 0 behind.now.items }
    ensures { result ≡ true → at_channel number behind.now.items ≡ None }
{
    let count = behind.len();
    if count == 0 {
        return true;
    }
    behind[count - 1].0 < number
}

// The value that was passed over with this number.
#[cold]
fn value_behind<T>(behind: &VecDeque<(u64, T)>, number: u64) -> Option<&T>
    requires { Rises 0 behind.now.items }
    ensures { option_copied result ≡ at_channel number behind.now.items }
{
    match find(behind, number) {
        Some(place) => Some(&behind[place].1),
        None => None,
    }
}

// The place of a number among those that were passed over.
#[cold]
fn find<T>(behind: &VecDeque<(u64, T)>, number: u64) -> Option<usize>
    requires { Rises 0 behind.now.items }
    ensures { result ≡ place_of_lem number behind.now.items }
{
    let mut low = 0;
    let mut high = behind.len();
    while low < high {
        let middle = low + (high - low) / 2;
        let at = behind[middle].0;
        if at == number {
            return Some(middle);
        }
        if at < number {
            low = middle + 1;
        } else {
            high = middle;
        }
    }
    None
}

// Lets go what was taken at the front.
fn let_go<T: Drop>(gone: &mut u64, slots: &mut VecDeque<Option<T>>)
    requires { gone.old + deque_len slots.old < 2 ^ 64 }
    ensures slots { replicate gone.new None ++ slots.new.items ≡ replicate gone.old None ++ slots.old.items }
    ensures count { gone.new + deque_len slots.new ≡ gone.old + deque_len slots.old }
    ensures grows { gone.old ≤ gone.new }
    ensures start { starts_taken slots.new.items ≡ false }
    ensures room { deque_capacity slots.old - deque_len slots.old ≤ deque_capacity slots.new - deque_len slots.new }
{
    while is_first_taken(slots) {
        let _ = slots.pop_front();
        *gone += 1;
    }
}

fn is_first_taken<T>(slots: &VecDeque<Option<T>>) -> bool
    ensures { result ≡ starts_taken slots.now.items }
{
    match slots.front() {
        Some(slot) => slot.is_none(),
        None => false,
    }
}

// The place of a number behind those that were let go.
fn place_of(let_go: u64, number: u64) -> Option<usize>
    ensures { MatchOption result (number ≤ let_go) (λ place. number ≡ let_go + place + 1) }
{
    if number <= let_go {
        return None;
    }
    Some((number - let_go - 1) as usize)
}
