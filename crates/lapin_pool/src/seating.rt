//! How callers take their seats and leave them.

ghost use Rattle.std.specs.Prelude.{◌≡◌, ◌≤◌, ◌+◌, ◌++◌, [], IfOk, OnErr, ◌<◌, option_to_list, length, map, reverse, false};
ghost use Rattle.std.specs.Vec.{vec_capacity};
ghost use Rattle.lapin_pool.specs.Seats.{AreNew, caller_of, cards_of, unread_of};

use crate::card::Card;
use crate::seat::Seat;
use lapin_shared::{Caller, Crew};
use lapin_types::NoMemory;
use std::alloc::Global;

/// The cards of all seats, and the job steps whose record there was no memory to read.
#[derive(Drop)]
pub struct Dealt {
    pub cards: Vec<Card>,
    pub unread: Vec<u64>,
    /// Whether there was no memory to hold them all.
    pub short: bool,
}

/// Nothing, with room for so many unread steps.
pub fn nothing_dealt(alloc: Global, workers: usize) -> Result<Dealt, NoMemory>
    ensures cards { IfOk result (λ d. (d.cards.items ≡ []) × (d.unread.items ≡ [])) }
    ensures short { IfOk result (λ d. d.short ≡ false) }
    ensures room { IfOk result (λ d. length d.unread.items + workers ≤ vec_capacity d.unread) }
{
    let mut unread = Vec::new(alloc);
    unread.reserve(workers)?;
    Ok(Dealt {
        cards: Vec::new(alloc),
        unread,
        short: false,
    })
}

/// The last callers of the list take seats, the last one first. The list keeps its room for them.
///
/// # Errors
/// `NoMemory`. The list is as it was.
#[tactic(auto, using(crate::proofs::Seated::callers_snoc))]
pub fn seat_last<L: Crew>(
    alloc: Global,
    callers: &mut Vec<Caller<L>>,
    workers: usize,
) -> Result<Vec<Seat<L>>, NoMemory>
    requires { workers ≤ length callers.old.items }
    ensures count { IfOk result (λ seats. length seats.items ≡ workers) }
    ensures callers { IfOk result (λ seats. callers.new.items ++ reverse (map caller_of seats.items) ≡ callers.old.items) }
    ensures new { IfOk result (λ seats. AreNew seats.items) }
    ensures room { IfOk result (λ seats. length callers.new.items + length seats.items ≤ vec_capacity callers.new) }
    ensures err { OnErr result (callers.new.items ≡ callers.old.items) }
{
    let mut seats = Vec::new(alloc);
    seats.reserve(workers)?;
    while seats.len() < workers {
        let caller = callers.take_last();
        seats.push_reserved(Seat {
            caller,
            cards: Vec::new(alloc),
            unread: None,
        });
    }
    Ok(seats)
}

/// The callers leave their seats for the list, in their order, and their cards are dealt.
pub fn unseat<L: Crew>(callers: &mut Vec<Caller<L>>, seats: Vec<Seat<L>>, dealt: &mut Dealt)
    requires room { length callers.old.items + length seats.items ≤ vec_capacity callers.old }
    requires unread { length dealt.old.unread.items + length seats.items ≤ vec_capacity dealt.old.unread }
    ensures callers { callers.new.items ≡ callers.old.items ++ reverse (map caller_of seats.items) }
    ensures cards { dealt.new.short ≡ false → dealt.new.cards.items ≡ dealt.old.cards.items ++ cards_of seats.items }
    ensures left { dealt.new.unread.items ≡ dealt.old.unread.items ++ unread_of seats.items }
{
    let mut seats = seats;
    while let Some(seat) = seats.pop() {
        callers.push_reserved(leave(seat, dealt));
    }
}

// A caller leaves its seat, and its cards are dealt. Where there is no memory for them they are dropped, and that is noted.
fn leave<L: Crew>(seat: Seat<L>, dealt: &mut Dealt) -> Caller<L>
    requires { length dealt.old.unread.items < vec_capacity dealt.old.unread }
    ensures caller { result ≡ caller_of seat }
    ensures short { dealt.new.short ≡ false → dealt.old.short ≡ false }
    ensures cards { dealt.new.short ≡ false → dealt.new.cards.items ≡ dealt.old.cards.items ++ seat.cards.items }
    ensures left { dealt.new.unread.items ≡ dealt.old.unread.items ++ option_to_list seat.unread }
    ensures count { length dealt.new.unread.items ≤ length dealt.old.unread.items + 1 }
    ensures room { vec_capacity dealt.new.unread ≡ vec_capacity dealt.old.unread }
{
    let Seat {
        caller,
        cards,
        unread,
    } = seat;
    let mut cards = cards;
    if dealt.cards.append(&mut cards).is_err() {
        dealt.short = true;
    }
    if let Some(place) = unread {
        dealt.unread.push_reserved(place);
    }
    caller
}
