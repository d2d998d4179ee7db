//! Where the publishes of each channel's present opening stand in the account, until they are settled. What an entry tells stands with
//! the account.

ghost use Rattle.std.specs.Prelude.{◌≡◌, ◌≢◌, ◌+◌, ◌^◌, ◌<◌, ◌++◌, ◌∷◌, [], ℕ, length, map, OnOk, true};
ghost use Rattle.std.specs.Option.{IsSome};
ghost use Rattle.lapin_tables.specs.Numbered.{with_under};
ghost use Rattle.lapin_check.specs.Settlements.{reaches as reaches_lem};
ghost use Rattle.lapin_check.specs.Marks.{mark as mark_lem};
ghost use Rattle.lapin_check.specs.Pointing.{Points, AreSettled, places_of};

use crate::account::{Counted, reaches};
use crate::seen::Settlement;
use lapin_tables::{ByChannel, Numbered};
use lapin_types::NoMemory;
use std::alloc::Global;

/// Of each channel a window of the places of its publishes in the account, by their numbers.
pub(crate) type Unsettled = ByChannel<Numbered<usize>>;

/// An opening of a channel begins: nothing is kept of the one before.
pub(crate) fn begin(alloc: Global, unsettled: &mut Unsettled, channel: u16)
    ensures here { places_of channel unsettled.new.entries ≡ [] }
    ensures others { (d : ℕ) → d ≢ channel → places_of d unsettled.new.entries ≡ places_of d unsettled.old.entries }
{
    if let Some(places) = unsettled.get_mut(channel) {
        *places = Numbered::new(alloc);
    }
}

/// A publish takes the next number of its channel; this is its place. For want of memory nothing is said of it.
pub(crate) fn add(
    alloc: Global,
    unsettled: &mut Unsettled,
    channel: u16,
    place: usize,
) -> Result<(), NoMemory>
    requires { length (places_of channel unsettled.old.entries) + 1 < 2 ^ 64 }
    ensures here { OnOk result (places_of channel unsettled.new.entries ≡ places_of channel unsettled.old.entries ++ Some place ∷ []) }
    ensures others { OnOk result ((d : ℕ) → d ≢ channel → places_of d unsettled.new.entries ≡ places_of d unsettled.old.entries) }
{
    if let Some(places) = unsettled.get_mut(channel) {
        return push(places, place);
    }
    let mut places = Numbered::new(alloc);
    push(&mut places, place)?;
    unsettled.insert(channel, places)?;
    Ok(())
}

fn push(places: &mut Numbered<usize>, place: usize) -> Result<(), NoMemory>
    requires { length places.old.slots + 1 < 2 ^ 64 }
    ensures { OnOk result (places.new.slots ≡ places.old.slots ++ Some place ∷ []) }
{
    places.reserve(1)?;
    let _ = places.push_reserved(place);
    Ok(())
}

/// Settles what a settlement covers, which was sent in this opening and at this place. It goes to what it settles alone.
pub(crate) fn settle(
    unsettled: &mut Unsettled,
    settlement: Settlement,
    opening: u64,
    place: u64,
    account: &mut Vec<Counted>,
)
    requires { Points settlement.channel opening (places_of settlement.channel unsettled.old.entries) account.old.items }
    ensures { AreSettled settlement opening place unsettled.old.entries unsettled.new.entries account.old.items account.new.items }
{
    if let Some(places) = unsettled.get_mut(settlement.channel) {
        settle_in(places, settlement, opening, place, account);
    }
}

// The same in the window of its channel.
fn settle_in(
    places: &mut Numbered<usize>,
    settlement: Settlement,
    opening: u64,
    place: u64,
    account: &mut Vec<Counted>,
)
    requires { Points settlement.channel opening places.old.slots account.old.items }
    ensures marked { account.new.items ≡ map (mark_lem place opening settlement) account.old.items }
    ensures long { length places.new.slots ≡ length places.old.slots }
    ensures points { Points settlement.channel opening places.new.slots account.new.items }
{
    if settlement.multiple {
        settle_first(places, settlement, opening, place, account);
    } else {
        settle_one(
            places,
            settlement.number,
            settlement,
            opening,
            place,
            account,
        );
    }
}

// Settles the lowest number that isn't settled, as long as the settlement reaches it.
fn settle_first(
    places: &mut Numbered<usize>,
    settlement: Settlement,
    opening: u64,
    place: u64,
    account: &mut Vec<Counted>,
)
    requires points { Points settlement.channel opening places.old.slots account.old.items }
    requires multiple { settlement.multiple ≡ true }
    ensures marked { account.new.items ≡ map (mark_lem place opening settlement) account.old.items }
    ensures long { length places.new.slots ≡ length places.old.slots }
    ensures points { Points settlement.channel opening places.new.slots account.new.items }
{
    while let Some(number) = places.first_number() {
        if !reaches(settlement, number) {
            return;
        }
        settle_one(places, number, settlement, opening, place, account);
    }
}

// Settles a number that the settlement reaches, if it isn't settled.
fn settle_one(
    places: &mut Numbered<usize>,
    number: u64,
    settlement: Settlement,
    opening: u64,
    place: u64,
    account: &mut Vec<Counted>,
)
    requires points { Points settlement.channel opening places.old.slots account.old.items }
    requires reached { reaches_lem settlement number ≡ true }
    ensures taken { places.new.slots ≡ with_under number None places.old.slots }
    ensures points { Points settlement.channel opening places.new.slots account.new.items }
    ensures same { map (mark_lem place opening settlement) account.new.items ≡ map (mark_lem place opening settlement) account.old.items }
{
    if let Some(at) = places.take(number) {
        account[at].mark(settlement, opening, place);
    }
}
