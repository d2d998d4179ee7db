//! What the working callers leave: the cards of all, those of unread steps too, in the order of their places.

ghost use Rattle.std.specs.Prelude.{◌≡◌, ◌≤◌, ◌+◌, ◌++◌, Some, length, map, reverse};
ghost use Rattle.std.specs.List.Sorted.{IsNonDecreasing, IsPermutation};
ghost use Rattle.std.specs.Vec.{vec_capacity};
ghost use Rattle.lapin_pool.specs.Pool.{place_of};
ghost use Rattle.lapin_pool.specs.Unread.{at_place, card_in, unread_cards};

use crate::card::{Card, PoolEnd, Sent};
use crate::seating::Dealt;
use crate::turn::delivery_told;
use lapin_shared::{Entry, History};

/// The history with the cards, also those of unread steps, rising by place.
pub fn ended(history: History, dealt: Dealt) -> PoolEnd
    requires { length dealt.cards.items + length dealt.unread.items ≤ vec_capacity dealt.cards }
    ensures history { result.history ≡ history }
    ensures cards { IsPermutation (dealt.cards.items ++ unread_cards history (reverse dealt.unread.items)) result.cards.items }
    ensures rising { IsNonDecreasing (map place_of result.cards.items) }
{
    let Dealt { cards, unread, .. } = dealt;
    let cards = in_order(with_unread(&history, cards, unread));
    PoolEnd { history, cards }
}

// The cards, sorted by place.
fn in_order(cards: Vec<Card>) -> Vec<Card>
    ensures cards { IsPermutation cards.items result.items }
    ensures rising { IsNonDecreasing (map place_of result.items) }
{
    let mut cards = cards;
    cards.sort_unstable_by_key(|card| card.place);
    cards
}

// The cards, and those of unread steps that took a delivery: the history says which, and there is no verdict.
fn with_unread(history: &History, cards: Vec<Card>, unread: Vec<u64>) -> Vec<Card>
    requires { length cards.items + length unread.items ≤ vec_capacity cards }
    ensures { result.items ≡ cards.items ++ unread_cards history.now (reverse unread.items) }
{
    let mut cards = cards;
    let mut unread = unread;
    while let Some(place) = unread.pop() {
        if let Some(card) = card_at(history, place) {
            cards.push_reserved(card);
        }
    }
    cards
}

// The card of an unread step, where it took a delivery.
fn card_at(history: &History, place: u64) -> Option<Card>
    ensures { result ≡ card_in place (at_place history.now place) }
{
    match history.at(place) {
        Some(entry) => blank_card(entry, place),
        None => None,
    }
}

// A card without a verdict, where the entry took a delivery.
fn blank_card(entry: &Entry, place: u64) -> Option<Card>
    ensures { result ≡ card_in place (Some entry.now) }
{
    match delivery_told(&entry.answer) {
        Some(delivery) => Some(Card {
            caller: entry.caller,
            place,
            acker: delivery.acker.number,
            verdict: None,
            sent: Sent::Unsent,
        }),
        None => None,
    }
}
