//! One turn of a working caller: a job is taken, a delivery is judged outside the lock, and the verdict made a step.

ghost use Rattle.std.specs.Prelude.{◌≡◌, ℕ, ◌-◌, ◌<◌, length, slice_get, Some, None, true, false};
ghost use Rattle.std.specs.Option.{option_copied};
ghost use Rattle.lapin_acker.specs.declared.verdict.Verdict.{Verdict};
ghost use Rattle.lapin_acker.specs.Verdicts.{call_of};
ghost use Rattle.lapin_shared.specs.Grown.{Seen, Grew};
ghost use Rattle.lapin_shared.specs.Read.{HasPlace, IsReadAt};
ghost use Rattle.lapin_locked.specs.declared.entry.Told.{Told};
ghost use Rattle.lapin_pool.specs.Turns.{IsTaken, IsTreated, IsTurn, job_step, standing, step_in};
ghost use Rattle.lapin_pool.specs.Verdicts.{last_verdict as last_verdict_lem};
ghost use Rattle.lapin_pool.specs.Cards.{IsSent, delivery_in as delivery_in_lem, delivery_told as delivery_told_lem, delivery_handed as delivery_handed_lem};

use crate::card::{Card, Sent};
use crate::duty::{Duty, last_verdict};
use crate::seat::Seat;
use lapin_acker::Verdict;
use lapin_shared::{Caller, Crew, Gate, Logged, StepError};
use lapin_types::{Delivery, Event, JobKind, Record};
use lapin_work::{delivery_of, take_job};
use std::alloc::Global;
use std::sync::Wait;

/// How a turn ended.
#[derive(Clone, Copy, Debug, PartialEq, Eq)]
pub enum Turn {
    /// A job was taken and treated.
    Took,
    /// There was no job, or no memory to read the one that was taken: the caller's work is over.
    Over,
    /// There was no memory for a step: nothing was done.
    Short,
}

/// A job step.
#[derive(Clone, Copy, Debug, PartialEq, Eq)]
enum Step {
    /// It took a job, and stands at this place. Its record is in the log.
    Taken(u64),
    /// It found none.
    NoJob,
    /// It stands at this place, and there was no memory to read its record.
    Unread(u64),
    /// It was not made.
    Short,
}

/// Takes a job and treats it. Room for its card is made first.
pub fn take_turn<L: Crew, G: Gate, D: Duty, R: Wait>(
    rt: &R,
    alloc: Global,
    gate: &G,
    duty: &D,
    seat: &mut Seat<L>,
) -> Turn
    ensures { IsTurn (D.may duty.now) (standing seat.old.caller seat.old.cards.items seat.old.unread) result (standing seat.new.caller seat.new.cards.items seat.new.unread) }
{
    if seat.cards.reserve(1).is_err() {
        return Turn::Short;
    }
    match take(rt, alloc, &mut seat.caller) {
        Step::Taken(place) => {
            if let Some(card) = treat(rt, alloc, gate, duty, place, &mut seat.caller) {
                seat.cards.push_reserved(card);
            }
            Turn::Took
        }
        Step::NoJob => Turn::Over,
        Step::Unread(place) => {
            seat.unread = Some(place);
            Turn::Over
        }
        Step::Short => Turn::Short,
    }
}

// Makes a job step, and reads its record where there was no memory for it at first.
#[tactic(auto, using(crate::proofs::Reading::taken_at_once, crate::proofs::Reading::none_at_once))]
fn take<L: Crew, R: Wait>(rt: &R, alloc: Global, caller: &mut Caller<L>) -> Step
    ensures { IsTaken caller.old result caller.new }
{
    match take_job(rt, alloc, caller) {
        Ok(Some(place)) => Step::Taken(place),
        Ok(None) => Step::NoJob,
        Err(StepError::Unread { place }) => read_again(rt, alloc, place, caller),
        Err(_) => Step::Short,
    }
}

// Reads the record of the caller's last step, of which the log has none.
fn read_again<L: Crew, R: Wait>(rt: &R, alloc: Global, place: u64, caller: &mut Caller<L>) -> Step
    requires { HasPlace place caller.old.log }
    ensures { (a : Seen) → Grew a caller.old (job_step place None) → IsTaken a result caller.new }
{
    // The log's places rise: no other entry has this one.
    let _ = caller.log();
    if fetched(rt, alloc, place, caller) {
        step_of(caller.newest(), place)
    } else {
        Step::Unread(place)
    }
}

// Reads the record of a step, and says whether there was memory for it.
fn fetched<L: Crew, R: Wait>(rt: &R, alloc: Global, place: u64, caller: &mut Caller<L>) -> bool
    requires { HasPlace place caller.old.log }
    ensures read { result ≡ true → (k : ℕ) × IsReadAt caller.old k place caller.new }
    ensures unread { result ≡ false → caller.new ≡ caller.old }
{
    caller.fetch(rt, alloc, place).is_ok()
}

// What a job step that was read came to.
fn step_of(step: &Logged, place: u64) -> Step
    ensures { result ≡ step_in step.now.answer place }
{
    if matches!(step.answer(), Some(Record::Job(_))) {
        Step::Taken(place)
    } else {
        Step::NoJob
    }
}

// Treats the job of the caller's last step: a delivery is judged and gets a card, and of another job nothing is done.
fn treat<L: Crew, G: Gate, D: Duty, R: Wait>(
    rt: &R,
    alloc: Global,
    gate: &G,
    duty: &D,
    place: u64,
    caller: &mut Caller<L>,
) -> Option<Card>
    requires { 0 < length caller.old.log }
    ensures { (t : Told) → slice_get caller.old.log (length caller.old.log - 1) ≡ Some t → IsTreated (D.may duty.now) caller.old place (delivery_in_lem t.answer) result caller.new }
{
    let number = caller.number();
    let delivery = delivery_in(caller.newest())?;
    gate.before(number, place);
    let verdict = judged(duty, delivery);
    let acker = delivery.acker.number;
    let sent = send(rt, alloc, acker, verdict, caller);
    gate.after(number, place);
    Some(Card {
        caller: number,
        place,
        acker,
        verdict: Some(verdict),
        sent,
    })
}

// The last verdict on a delivery, by what the duty answers.
fn judged<D: Duty>(duty: &D, delivery: &Delivery) -> Verdict
    ensures { (v : Verdict) × D.may duty.now delivery.now v × (result ≡ last_verdict_lem v delivery.now.redelivered) }
{
    last_verdict(duty.judge(delivery), delivery.redelivered)
}

// The delivery of an entry whose record is a job, if that is one.
fn delivery_in(step: &Logged) -> Option<&Delivery>
    ensures { option_copied result ≡ delivery_in_lem step.now.answer }
{
    match step.answer() {
        Some(answer) => delivery_told(answer),
        None => None,
    }
}

/// The delivery that a record tells, if it tells one.
pub fn delivery_told(answer: &Record) -> Option<&Delivery>
    ensures { option_copied result ≡ delivery_told_lem answer.now }
{
    match answer {
        Record::Job(job) => delivery_handed(&job.kind),
        _ => None,
    }
}

// The delivery that a kind of job hands over.
fn delivery_handed(kind: &JobKind) -> Option<&Delivery>
    ensures { option_copied result ≡ delivery_handed_lem kind.now }
{
    match kind {
        JobKind::Deliver(given) => delivery_of(given),
        JobKind::Discard => None,
    }
}

// Makes a verdict one step of the acker, where it asks for one.
fn send<L: Crew, R: Wait>(
    rt: &R,
    alloc: Global,
    acker: u64,
    verdict: Verdict,
    caller: &mut Caller<L>,
) -> Sent
    ensures { IsSent caller.old acker (call_of verdict) result caller.new }
{
    let Some(call) = verdict.call() else {
        return Sent::Silent;
    };
    match caller.make(rt, alloc, Event::Acker(acker, call)) {
        Ok(place) => Sent::Placed(place),
        Err(StepError::Unread { place }) => Sent::Placed(place),
        Err(_) => Sent::Unsent,
    }
}
