//! What a close of a channel, the end of its opening, and the end of the connection make of tickets.
//!
//! A close and an end of a channel look at the tickets that were given there since its oldest open one, and at no other
//! channel's. When a close or an end comes is the session's.

ghost use Rattle.std.specs.Prelude.{◌≡◌, ◌≢◌, ℕ, true, false, map, slice_get, Some};
ghost use Rattle.lapin_tables.specs.Numbered.{under};
ghost use Rattle.lapin_rules.specs.TicketReadings.{is_publish as is_publish_lem, is_spared as is_spared_lem};
ghost use Rattle.lapin_rules.specs.TicketReadings as mark;
ghost use Rattle.lapin_ticket.specs.Slots.{after_mark, rejects, is_open_on as is_open_on_lem, closed_slot, failed};
ghost use Rattle.lapin_ticket.specs.Given.{AreListed, numbers_on, starts_closed as starts_closed_lem};

use crate::given::Given;
use crate::{Slot, Tickets, slots};
use lapin_rules::AtLeaving;
use lapin_tables::Numbered;
use lapin_types::Error;

impl Tickets {
    /// This side closes a channel: the open ticket of each of its publishes that has not begun fails with the error.
    pub fn close(&mut self, channel: u16, error: Error)
        ensures slots { self.new.slots ≡ after_mark self.old.slots (mark.ClosedHere channel error) }
        ensures room { self.new.ready ≡ self.old.ready }
    {
        close(&mut self.slots, &self.given, channel, error);
    }

    /// The opening of a channel ends: each open ticket that was given there fails with the error, but for the one that is kept.
    pub fn end(&mut self, channel: u16, spared: Option<u64>, error: Error)
        ensures slots { self.new.slots ≡ after_mark self.old.slots (mark.OpeningFailed channel spared error) }
        ensures room { self.new.ready ≡ self.old.ready }
    {
        end(&mut self.slots, &self.given, channel, spared, error);
        let_go(&self.slots, &mut self.given, channel);
    }

    /// Resolves every open ticket with the error. One that has an answer keeps it. It walks from the last number to the
    /// first one that is kept.
    pub fn fail_all(&mut self, error: Error)
        ensures slots { self.new.slots ≡ after_mark self.old.slots (mark.AllFailed error) }
        ensures room { self.new.ready ≡ self.old.ready }
    {
        fail_all(&mut self.slots, error);
    }
}

fn fail_all(slots: &mut Numbered<Slot>, error: Error)
    ensures slots { slots.new.slots ≡ after_mark slots.old.slots (mark.AllFailed error) }
    ensures room { slots.new.spare ≡ slots.old.spare }
{
    let Some(first) = slots.first_number() else {
        return;
    };
    let mut number = slots.count();
    while number >= first {
        slots::fail(slots, number, error);
        number -= 1;
    }
}

fn close(slots: &mut Numbered<Slot>, given: &Given, channel: u16, error: Error)
    requires { AreListed slots.old.slots given.now.channels }
    ensures slots { slots.new.slots ≡ after_mark slots.old.slots (mark.ClosedHere channel error) }
    ensures room { slots.new.spare ≡ slots.old.spare }
{
    let count = given.count(channel);
    let mut place = 0;
    while place < count {
        reject_at(slots, given, place, channel, error);
        place += 1;
    }
}

fn end(slots: &mut Numbered<Slot>, given: &Given, channel: u16, spared: Option<u64>, error: Error)
    requires { AreListed slots.old.slots given.now.channels }
    ensures slots { slots.new.slots ≡ after_mark slots.old.slots (mark.OpeningFailed channel spared error) }
    ensures room { slots.new.spare ≡ slots.old.spare }
{
    let count = given.count(channel);
    let mut place = 0;
    while place < count {
        fail_at(slots, given, place, channel, spared, error);
        place += 1;
    }
}

// Lets go the first numbers of a channel whose tickets are no longer open.
pub(crate) fn let_go(slots: &Numbered<Slot>, given: &mut Given, channel: u16)
    requires { AreListed slots.now.slots given.old.channels }
    ensures listed { AreListed slots.now.slots given.new.channels }
    ensures ready { given.new.ready ≡ given.old.ready }
{
    while starts_closed(slots, given, channel) {
        given.drop_first(channel);
    }
}

// Whether the ticket of the channel's first number is no longer open.
fn starts_closed(slots: &Numbered<Slot>, given: &Given, channel: u16) -> bool
    ensures { result ≡ starts_closed_lem channel slots.now.slots (numbers_on channel given.now.channels) }
{
    match given.at(channel, 0) {
        Some(number) => !is_open_on(slots, number, channel),
        None => false,
    }
}

// The ticket at a place fails, where it is open and of a publish of the channel that has not begun.
fn reject_at(slots: &mut Numbered<Slot>, given: &Given, place: usize, channel: u16, error: Error)
    ensures same { map (closed_slot channel error) slots.new.slots ≡ map (closed_slot channel error) slots.old.slots }
    ensures left { (n : ℕ) → rejects channel (under n slots.new.slots) ≡ true → (slice_get (numbers_on channel given.now.channels) place ≢ Some n) × (rejects channel (under n slots.old.slots) ≡ true) }
    ensures room { slots.new.spare ≡ slots.old.spare }
{
    if let Some(number) = given.at(channel, place) {
        reject(slots, number, channel, error);
    }
}

// The ticket at a place fails, where it is open, of the channel and not the one that is kept.
fn fail_at(
    slots: &mut Numbered<Slot>,
    given: &Given,
    place: usize,
    channel: u16,
    spared: Option<u64>,
    error: Error,
)
    ensures same { failed channel spared error slots.new.slots ≡ failed channel spared error slots.old.slots }
    ensures left { (n : ℕ) → is_open_on_lem channel (under n slots.new.slots) ≡ true → is_spared_lem n spared ≡ false → (slice_get (numbers_on channel given.now.channels) place ≢ Some n) × (is_open_on_lem channel (under n slots.old.slots) ≡ true) }
    ensures room { slots.new.spare ≡ slots.old.spare }
{
    if let Some(number) = given.at(channel, place) {
        fail(slots, number, channel, spared, error);
    }
}

// A ticket fails, where it is open and of a publish of the channel that has not begun.
fn reject(slots: &mut Numbered<Slot>, number: u64, channel: u16, error: Error)
    ensures same { map (closed_slot channel error) slots.new.slots ≡ map (closed_slot channel error) slots.old.slots }
    ensures left { (n : ℕ) → rejects channel (under n slots.new.slots) ≡ true → (n ≢ number) × (rejects channel (under n slots.old.slots) ≡ true) }
    ensures room { slots.new.spare ≡ slots.old.spare }
{
    if is_unbegun(slots, number, channel) {
        slots::fail(slots, number, error);
    }
}

// A ticket fails, where it is open, of the channel and not the one that is kept.
fn fail(slots: &mut Numbered<Slot>, number: u64, channel: u16, spared: Option<u64>, error: Error)
    ensures same { failed channel spared error slots.new.slots ≡ failed channel spared error slots.old.slots }
    ensures left { (n : ℕ) → is_open_on_lem channel (under n slots.new.slots) ≡ true → is_spared_lem n spared ≡ false → (n ≢ number) × (is_open_on_lem channel (under n slots.old.slots) ≡ true) }
    ensures room { slots.new.spare ≡ slots.old.spare }
{
    if is_open_on(slots, number, channel) && !is_spared(number, spared) {
        slots::fail(slots, number, error);
    }
}

// Whether a ticket is open, and of a publish of the channel that has not begun.
fn is_unbegun(slots: &Numbered<Slot>, number: u64, channel: u16) -> bool
    ensures { result ≡ rejects channel (under number slots.now.slots) }
{
    match slots.get(number) {
        Some(Slot::Open(on, at_leaving, begun)) => {
            channel == *on && is_publish(*at_leaving) && !*begun
        }
        _ => false,
    }
}

// Whether a ticket is open and was given on the channel.
fn is_open_on(slots: &Numbered<Slot>, number: u64, channel: u16) -> bool
    ensures { result ≡ is_open_on_lem channel (under number slots.now.slots) }
{
    match slots.get(number) {
        Some(Slot::Open(on, _, _)) => channel == *on,
        _ => false,
    }
}

// Whether the leaving of the last frame gives the number of a confirm.
fn is_publish(at_leaving: AtLeaving) -> bool
    ensures { result ≡ is_publish_lem at_leaving }
{
    matches!(at_leaving, AtLeaving::Confirm(_))
}

fn is_spared(number: u64, spared: Option<u64>) -> bool
    ensures { result ≡ is_spared_lem number spared }
{
    match spared {
        Some(spared) => spared == number,
        None => false,
    }
}
