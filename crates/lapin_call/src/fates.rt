//! What became of each call, and what deliveries, errors and takings do to it. No session lives here.

ghost use Rattle.std.specs.Prelude.{◌≡◌, ◌+◌, ◌<◌, ◌^◌, true, Some, length, slice_get, IfOk};
ghost use Rattle.std.specs.Option.{option_copied};
ghost use Rattle.lapin_scalars.specs.Reading.{scalar_of};
ghost use Rattle.lapin_scalars.specs.Scalars.Scalar.{number as a_number};
ghost use Rattle.lapin_call.specs.Fates.{no_tally, named_by, fate_at as fate_at_lem, is_call, fate_named, with_fate, match_of as match_of_lem, after_match, match_in as match_in_lem, counted as counted_lem, after_delivery as after_delivery_lem, after_error as after_error_lem, ended_by as ended_by_lem, take_report, after_take, taken as taken_lem};
ghost use Rattle.lapin_call.specs.declared.fates.Match.TheVariants as matched;

use crate::step::CallReport;
use lapin_scalars::read_num;
use lapin_types::{Delivery, Error, NoMemory, Payload};
use std::mem::replace;

/// What became of a call.
#[derive(Debug, Drop)]
pub enum Fate {
    /// Its reply may still come.
    Waiting,
    /// Its reply, which nobody was given yet.
    Answered(Payload),
    /// The error that ended it, which nobody was given yet.
    Ended(Error),
    /// Its result was given: a reply, or an error.
    Given { answered: bool },
}

/// What a delivery is to the call that it names.
#[derive(Clone, Copy, Debug, PartialEq, Eq)]
pub enum Match {
    /// Its answer: the call waited.
    Answer,
    /// One more reply to a call that is answered already.
    Repeat,
    /// Neither.
    Stranger,
}

/// How many deliveries answered a call that waited, were one more reply to a call that is answered, or neither.
#[derive(Clone, Copy, Debug, PartialEq, Eq)]
pub struct Tally {
    pub answers: u64,
    pub repeats: u64,
    pub strangers: u64,
}

impl Tally {
    /// No delivery was counted yet.
    pub fn new() -> Tally
        ensures { result ≡ no_tally }
    {
        Tally {
            answers: 0,
            repeats: 0,
            strangers: 0,
        }
    }

    /// One delivery more of its kind.
    ///
    /// # Errors
    /// `NoMemory` where there would be more than any memory holds.
    pub fn counted(self, matched: Match) -> Result<Tally, NoMemory>
        ensures { IfOk result (λ tally. tally ≡ counted_lem matched self) }
    {
        let Tally {
            answers,
            repeats,
            strangers,
        } = self;
        match matched {
            Match::Answer => Ok(Tally {
                answers: one_more(answers)?,
                repeats,
                strangers,
            }),
            Match::Repeat => Ok(Tally {
                answers,
                repeats: one_more(repeats)?,
                strangers,
            }),
            Match::Stranger => Ok(Tally {
                answers,
                repeats,
                strangers: one_more(strangers)?,
            }),
        }
    }
}

// One more; no memory holds as many deliveries as a `u64` counts.
fn one_more(count: u64) -> Result<u64, NoMemory>
    ensures { IfOk result (λ more. more ≡ count + 1) }
{
    match count.checked_add(1) {
        Some(more) => Ok(more),
        None => Err(NoMemory),
    }
}

// The number whose decimal the bytes are, if they are one's.
fn number_of(id: &[u8]) -> Option<u64>
    ensures { result ≡ scalar_of (a_number (2 ^ 64)) id.now }
{
    match read_num(id) {
        Some(number) => Some(number),
        None => None,
    }
}

// The number of the call that a delivery names, by its correlation id (AMQP 0-9-1, class basic, "properties").
fn named(delivery: &Delivery) -> Option<u64>
    ensures { result ≡ named_by delivery.now }
{
    number_of(delivery.properties.correlation_id()?.as_str().as_bytes())
}

// The call of a number, if there is one.
fn fate_at(fates: &[Fate], number: u64) -> Option<&Fate>
    ensures { option_copied result ≡ fate_at_lem number fates.now }
{
    if number == 0 {
        return None;
    }
    fates.get((number - 1) as usize)
}

// What a delivery is to the call of this number.
fn match_at(fates: &[Fate], number: u64) -> Match
    ensures { result ≡ match_of_lem (fate_at_lem number fates.now) }
{
    match fate_at(fates, number) {
        Some(Fate::Waiting) => Match::Answer,
        Some(Fate::Answered(_)) => Match::Repeat,
        Some(Fate::Given { answered: true }) => Match::Repeat,
        _ => Match::Stranger,
    }
}

// What a delivery is to the call of this number, where it names one.
fn match_in(fates: &[Fate], number: Option<u64>) -> Match
    ensures { result ≡ match_of_lem (fate_named number fates.now) }
{
    match number {
        Some(number) => match_at(fates, number),
        None => Match::Stranger,
    }
}

// The call of a number has this fate from now on.
fn put(fates: &mut Vec<Fate>, number: u64, fate: Fate)
    requires { is_call (fate_at_lem number fates.old.items) ≡ true }
    ensures { fates.new.items ≡ with_fate number fate fates.old.items }
{
    fates[(number - 1) as usize] = fate;
}

/// A delivery comes: it may answer the call that it names. What it is to that call.
pub fn deliver(fates: &mut Vec<Fate>, delivery: Delivery) -> Match
    ensures told { result ≡ match_in_lem delivery fates.old.items }
    ensures fates { fates.new.items ≡ after_delivery_lem delivery fates.old.items }
{
    let number = named(&delivery);
    let matched = match_in(fates, number);
    answer(fates, matched, number, delivery.payload);
    matched
}

// A payload comes that is this to the call of this number.
fn answer(fates: &mut Vec<Fate>, matched: Match, number: Option<u64>, payload: Payload)
    requires { matched ≡ match_of_lem (fate_named number fates.old.items) }
    ensures { fates.new.items ≡ after_match matched number payload fates.old.items }
{
    match (matched, number) {
        (Match::Answer, Some(number)) => put(fates, number, Fate::Answered(payload)),
        _ => drop(payload),
    }
}

/// An error comes: it ends each call that waits.
pub fn end_waiting(fates: &mut Vec<Fate>, error: Error)
    ensures { fates.new.items ≡ after_error_lem error fates.old.items }
{
    for fate in fates.iter_mut() {
        end(fate, error);
    }
}

// A call is ended by an error, if it waits.
fn end(fate: &mut Fate, error: Error)
    ensures { fate.new ≡ ended_by_lem error fate.old }
{
    if matches!(fate, Fate::Waiting) {
        *fate = Fate::Ended(error);
    }
}

/// The result of the call of a number is asked for, and is given once.
pub fn take(fates: &mut Vec<Fate>, number: u64) -> CallReport
    ensures told { result ≡ take_report (fate_at_lem number fates.old.items) }
    ensures fates { fates.new.items ≡ after_take (fate_at_lem number fates.old.items) number fates.old.items }
{
    if number == 0 || number > fates.len() as u64 {
        return CallReport::Unknown;
    }
    take_at(fates, (number - 1) as usize)
}

// The same of the call at a place.
fn take_at(fates: &mut Vec<Fate>, place: usize) -> CallReport
    requires { place < length fates.old.items }
    ensures told { result ≡ take_report (slice_get fates.old.items place) }
    ensures fates { fates.new.items ≡ after_take (slice_get fates.old.items place) (place + 1) fates.old.items }
{
    give(&mut fates[place])
}

// What is told of a call whose result is asked for.
fn give(fate: &mut Fate) -> CallReport
    ensures told { result ≡ take_report (Some fate.old) }
    ensures left { fate.new ≡ taken_lem fate.old }
{
    match replace(fate, Fate::Waiting) {
        Fate::Waiting => CallReport::Waiting,
        Fate::Answered(payload) => {
            *fate = Fate::Given { answered: true };
            CallReport::Reply(payload)
        }
        Fate::Ended(error) => {
            *fate = Fate::Given { answered: false };
            CallReport::Ended(error)
        }
        Fate::Given { answered } => {
            *fate = Fate::Given { answered };
            CallReport::Taken
        }
    }
}
