//! All messages that are kept, and what became of the others.

ghost use Rattle.std.specs.Prelude.{◌≡◌, ◌+◌, ◌<◌, ◌≤◌, ◌++◌, ◌∷◌, [], map, length, count_by, ◌&&◌, vec_len, vec_capacity, slice_index_or, take, IfOk, OnOk, OnErr, IfNone, MatchOption, MatchBool, All, IfSome};
ghost use Rattle.std.specs.List.{filter};
ghost use Rattle.std.specs.Option.{is_some};
ghost use Rattle.std.specs.VecDeque.{deque_len, deque_capacity};
ghost use Rattle.lapin_keeping.specs.declared.kept.Kept.{Kept as AKept};
ghost use Rattle.lapin_keeping.specs.Keepings.{new_kept, is_unsettled as is_unsettled_lem, fates};
ghost use Rattle.lapin_keeping.specs.Fates.{begun_anew, waits};
ghost use Rattle.lapin_keeping.specs.Returns.{AreNoted, IsNoted, FirstCameBack, IsOf, IsNotOf};
ghost use Rattle.lapin_keeping.specs.Runs.{told};

use crate::kept::Kept;
use crate::message::{Message, Placed};
use crate::run::{Run, add};
use lapin_types::{BasicReturnMessage, Delivery, NoMemory};
use std::alloc::Global;
use std::collections::VecDeque;

/// How many messages were handed over, how many of them wait or are outstanding, how many are outstanding, and how many wait until
/// they may be tried again.
#[derive(Clone, Copy, Debug, PartialEq, Eq)]
#[repr(C)]
pub struct Stand {
    pub handed: u64,
    pub kept: u64,
    pub outstanding: u64,
    pub failed: u64,
}

/// The messages of a publisher.
pub struct Keeping {
    /// The messages that aren't settled, in rising number.
    pub kept: Vec<Kept>,
    /// What became of the others and was not told yet, in the order in which it became known.
    pub settled: VecDeque<Run>,
    /// Messages that came back, until it is noted whose they are.
    pub back: Vec<BasicReturnMessage>,
    /// How many messages were handed over.
    pub handed: u64,
}

impl Drop for Keeping {
    fn drop(self) {
        let Keeping {
            kept: _,
            settled: _,
            back: _,
            handed: _,
        } = self;
    }
}

impl Keeping {
    /// No message.
    pub fn new(alloc: Global) -> Keeping
        ensures lists { (result.kept.items ≡ []) × ((result.settled.items ≡ []) × (result.back.items ≡ [])) }
        ensures handed { result.handed ≡ 0 }
    {
        Keeping {
            kept: Vec::new(alloc),
            settled: VecDeque::new(alloc),
            back: Vec::new(alloc),
            handed: 0,
        }
    }

    /// Takes a message, which the broker may fail so often; 0 for ever. Its number, from 1.
    ///
    /// # Errors
    /// `NoMemory` alone, also where no number is left. Nothing changes then.
    pub fn hand(&mut self, alloc: Global, message: Message, most: u32) -> Result<u64, NoMemory>
        ensures number { IfOk result (λ n. (n ≡ self.old.handed + 1) × (self.new.handed ≡ n)) }
        ensures kept { OnOk result (self.new.kept.items ≡ self.old.kept.items ++ new_kept (self.old.handed + 1) message most ∷ []) }
        ensures err { OnErr result ((self.new.kept.items ≡ self.old.kept.items) × (self.new.handed ≡ self.old.handed)) }
        ensures others { (self.new.settled.items ≡ self.old.settled.items) × (self.new.back.items ≡ self.old.back.items) }
    {
        let message = Placed::new(alloc, message)?;
        self.kept.reserve(1)?;
        let Some(number) = self.handed.checked_add(1) else {
            return Err(NoMemory);
        };
        self.handed = number;
        self.kept.push_reserved(Kept {
            number,
            message,
            fate: None,
            outstanding: None,
            left: most,
            failed: false,
            suspect: false,
            came_back: false,
        });
        Ok(number)
    }

    /// What is settled is kept no more, and is to be told.
    ///
    /// # Errors
    /// `NoMemory` alone. Nothing changes then.
    pub fn settle(&mut self) -> Result<(), NoMemory>
        ensures kept { OnOk result (self.new.kept.items ≡ filter is_unsettled_lem self.old.kept.items) }
        ensures told { OnOk result (told self.new.settled.items ≡ told self.old.settled.items ++ fates self.old.kept.items) }
        ensures err { OnErr result ((self.new.kept.items ≡ self.old.kept.items) × (self.new.settled.items ≡ self.old.settled.items)) }
        ensures others { (self.new.handed ≡ self.old.handed) × (self.new.back.items ≡ self.old.back.items) }
    {
        self.settled.reserve(self.kept.len())?;
        tell_all(&mut self.settled, &self.kept);
        self.kept.retain(|kept| kept.fate.is_none());
        Ok(())
    }

    /// It is noted which messages came back, each of them once. Which confirm told of one says nothing, since a broker may tell acks in another
    /// order.
    pub fn note_returns(&mut self)
        ensures kept { AreNoted self.old.back.items self.old.kept.items self.new.kept.items }
        ensures back { self.new.back.items ≡ [] }
        ensures others { (self.new.settled.items ≡ self.old.settled.items) × (self.new.handed ≡ self.old.handed) }
    {
        note_all(&mut self.kept, &self.back);
        self.back.clear();
    }

    /// A session has ended: what isn't settled waits.
    pub fn begin_anew(&mut self)
        ensures kept { self.new.kept.items ≡ map begun_anew self.old.kept.items }
        ensures others { (self.new.settled.items ≡ self.old.settled.items) × ((self.new.back.items ≡ self.old.back.items) × (self.new.handed ≡ self.old.handed)) }
    {
        for kept in self.kept.iter_mut() {
            kept.begin_anew();
        }
    }

    /// What became of messages and was not told yet: told once.
    pub fn take_settled(&mut self) -> Option<Run>
        ensures settled { MatchOption result ((self.old.settled.items ≡ []) × (self.new.settled.items ≡ [])) (λ run. self.old.settled.items ≡ run ∷ self.new.settled.items) }
        ensures others { (self.new.kept.items ≡ self.old.kept.items) × ((self.new.back.items ≡ self.old.back.items) × (self.new.handed ≡ self.old.handed)) }
    {
        self.settled.pop_front()
    }

    /// How the messages stand.
    pub fn stand(&self) -> Stand
        ensures all { (result.handed ≡ self.now.handed) × (result.kept ≡ length self.now.kept.items) }
        ensures outstanding { result.outstanding ≡ count_by (λ k. is_some k.outstanding) self.now.kept.items }
        ensures failed { result.failed ≡ count_by (λ k. waits k && k.failed) self.now.kept.items }
    {
        let outstanding = self.kept.iter().filter(|kept| kept.outstanding.is_some());
        let failed = self.kept.iter().filter(|kept| kept.waits() && kept.failed);
        Stand {
            handed: self.handed,
            kept: self.kept.len() as u64,
            outstanding: outstanding.count() as u64,
            failed: failed.count() as u64,
        }
    }
}

// The fate of each message that has one is to be told.
#[tactic(auto, using(crate::proofs::Fating::fates_step))]
fn tell_all(runs: &mut VecDeque<Run>, messages: &[Kept])
    requires { deque_len runs.old + length messages.now ≤ deque_capacity runs.old }
    ensures { told runs.new.items ≡ told runs.old.items ++ fates messages.now }
{
    for kept in messages {
        tell(runs, kept);
    }
}

// The fate of a message, if it has one.
fn tell(runs: &mut VecDeque<Run>, kept: &Kept)
    requires { deque_len runs.old < deque_capacity runs.old }
    ensures told { told runs.new.items ≡ told runs.old.items ++ fates (kept.now ∷ []) }
    ensures len { deque_len runs.new ≤ deque_len runs.old + 1 }
    ensures capacity { deque_capacity runs.new ≡ deque_capacity runs.old }
{
    if let Some(fate) = kept.fate {
        add(runs, kept.number, fate);
    }
}

// It is noted of each message that came back whose it is, in order.
fn note_all(messages: &mut Vec<Kept>, back: &[BasicReturnMessage])
    ensures { AreNoted back.now messages.old.items messages.new.items }
{
    for message in back {
        note_back(messages, &message.delivery);
    }
}

// The first message that it is like in all came back, or where there is none the first that it is like but for properties: a broker may change these.
fn note_back(messages: &mut Vec<Kept>, delivery: &Delivery)
    ensures { IsNoted delivery.now messages.old.items messages.new.items }
{
    if !note_first(messages, delivery, true) {
        note_first(messages, delivery, false);
    }
}

// The first message that may have come back and is like this one did, if there is one.
#[tactic(auto, using(crate::proofs::Returning::found_back))]
fn note_first(messages: &mut Vec<Kept>, delivery: &Delivery, exact: bool) -> bool
    ensures { MatchBool result (FirstCameBack exact delivery.now messages.old.items messages.new.items) (All (IsNotOf exact delivery.now) messages.old.items × (messages.new.items ≡ messages.old.items)) }
{
    match first_of(messages, delivery, exact) {
        Some(place) => {
            messages[place].returned();
            true
        }
        None => false,
    }
}

// The place of the first message that may have come back and is like this one.
fn first_of(messages: &[Kept], delivery: &Delivery, exact: bool) -> Option<usize>
    ensures none { IfNone result (All (IsNotOf exact delivery.now) messages.now) }
    ensures before { IfSome result (λ i. All (IsNotOf exact delivery.now) (take i messages.now)) }
    ensures found { IfSome result (λ i. (i < length messages.now) × ((d : AKept) → IsOf exact delivery.now (slice_index_or messages.now i d))) }
{
    for (place, kept) in messages.iter().enumerate() {
        if kept.is_of(delivery, exact) {
            return Some(place);
        }
    }
    None
}
