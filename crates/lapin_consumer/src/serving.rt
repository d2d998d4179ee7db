//! What is done to one consumer's seat and the jobs.

ghost use Rattle.std.specs.Prelude.{◌≡◌, suc, ◌<◌, ◌≤◌, ◌-◌, ◌+◌, ◌*◌, ◌∷◌, ◌++◌, [], Some, None, IfOk, OnOk, OnErr, IsOk, map, length, true, false, if◌then◌else◌};
ghost use Rattle.std.specs.VecDeque.{deque_len, deque_capacity};
ghost use Rattle.lapin_consumer.specs.Subscriptions.{handed, is_marked, discard as discarded, canceled, finished, last_words, offered, is_on, moved, owed, deliver as delivered, delegated, emptied, canceling, is_idle, polled, poll_of};
ghost use Rattle.lapin_consumer.specs.Words.{places_at, map_at, gather_at};
ghost use Rattle.lapin_consumer.specs.Marks as mark;
ghost use Rattle.lapin_acker.specs.Switches.{voided};
ghost use Rattle.lapin_consumer.specs.Ackers.{ackers_of, ackers_on};
ghost use Rattle.lapin_consumer.specs.Indexed.{EndsFit, FitWhere, promised_of};
ghost use Rattle.lapin_consumer.specs.WithRoom.{is_registered_one};
ghost use Rattle.std.specs.List.{count_by};

use crate::seat::Seat;
use lapin_acker::Switches;
use lapin_types::{Delivery, DeliveryResult, Error, Job, JobKind};
use std::alloc::AllocError;
use std::collections::VecDeque;

/// Promises room to what a consumer is handed next, as an item and as a job. There is then room for a job of each consumer, so
/// that to promise it to one takes it from no other.
pub(crate) fn make_room(
    seat: &mut Seat,
    jobs: &mut VecDeque<Job>,
    consumers: usize,
) -> Result<(), AllocError>
    ensures same { seat.new.consumer ≡ seat.old.consumer }
    ensures jobs { jobs.new.items ≡ jobs.old.items }
    ensures room { OnOk result (seat.new.promised ≡ true) }
    ensures job_room { OnOk result (consumers ≤ deque_capacity jobs.new - deque_len jobs.new) }
    ensures unpromised { OnErr result (seat.new.promised ≡ seat.old.promised) }
    ensures jobs_kept { deque_capacity jobs.old - deque_len jobs.old ≤ deque_capacity jobs.new - deque_len jobs.new }
{
    seat.reserve(1)?;
    jobs.reserve(consumers)?;
    seat.promise();
    Ok(())
}

/// Hands a consumer the next thing, in the room that was promised: as a job where it has a delegate.
pub(crate) fn hand_next(
    number: u64,
    seat: &mut Seat,
    jobs: &mut VecDeque<Job>,
    item: DeliveryResult,
)
    requires promised { seat.old.promised ≡ true }
    requires job_room { 0 < deque_capacity jobs.old - deque_len jobs.old }
    ensures seat { seat.new.consumer ≡ handed (item ∷ []) seat.old.consumer }
    ensures jobs { jobs.new.items ≡ jobs.old.items ++ offered number (item ∷ []) seat.old.consumer }
    ensures used { seat.new.promised ≡ false }
    ensures jobs_left { deque_capacity jobs.old - deque_len jobs.old ≤ deque_capacity jobs.new - deque_len jobs.new + 1 }
{
    if seat.is_marked() {
        jobs.push_back_reserved(Job {
            consumer: number,
            kind: JobKind::Deliver(item),
        });
        seat.give_up();
    } else {
        seat.push_promised(item);
    }
}

/// Hands something to a consumer, in the room that was made beside what may be promised: as a job where it has a delegate.
pub(crate) fn hand(number: u64, seat: &mut Seat, jobs: &mut VecDeque<Job>, item: DeliveryResult)
    requires room { 1 < seat.old.spare }
    requires job_room { 0 < deque_capacity jobs.old - deque_len jobs.old }
    ensures seat { seat.new.consumer ≡ handed (item ∷ []) seat.old.consumer }
    ensures jobs { jobs.new.items ≡ jobs.old.items ++ offered number (item ∷ []) seat.old.consumer }
    ensures left { seat.old.spare ≤ seat.new.spare + 1 }
    ensures promised { seat.new.promised ≡ seat.old.promised }
    ensures jobs_left { deque_capacity jobs.old - deque_len jobs.old ≤ deque_capacity jobs.new - deque_len jobs.new + 1 }
{
    if seat.is_marked() {
        jobs.push_back_reserved(Job {
            consumer: number,
            kind: JobKind::Deliver(item),
        });
    } else {
        seat.push_reserved(item);
    }
}

/// A consumer gets its end, in the room that was promised.
pub(crate) fn finish(number: u64, seat: &mut Seat, jobs: &mut VecDeque<Job>)
    requires promised { seat.old.promised ≡ true }
    requires job_room { 0 < deque_capacity jobs.old - deque_len jobs.old }
    ensures seat { seat.new.consumer ≡ finished seat.old.consumer }
    ensures jobs { jobs.new.items ≡ jobs.old.items ++ offered number (last_words None) seat.old.consumer }
    ensures used { seat.new.promised ≡ false }
    ensures jobs_left { deque_capacity jobs.old - deque_len jobs.old ≤ deque_capacity jobs.new - deque_len jobs.new + 1 }
{
    hand_next(number, seat, jobs, Ok(None));
    seat.cancel();
}

// A consumer gets what is due to it as its channel's opening ends, in the room that was made.
fn end_one(number: u64, seat: &mut Seat, jobs: &mut VecDeque<Job>, error: Option<Error>)
    requires room { 3 ≤ seat.old.spare }
    requires job_room { 2 ≤ deque_capacity jobs.old - deque_len jobs.old }
    ensures seat { seat.new.consumer ≡ canceled (handed (last_words error) seat.old.consumer) }
    ensures jobs { jobs.new.items ≡ jobs.old.items ++ offered number (last_words error) seat.old.consumer }
    ensures promised { seat.new.promised ≡ seat.old.promised }
    ensures jobs_left { deque_capacity jobs.old - deque_len jobs.old ≤ deque_capacity jobs.new - deque_len jobs.new + 2 }
{
    match error {
        Some(error) => {
            hand(number, seat, jobs, Err(error));
            hand(number, seat, jobs, Ok(None));
            seat.cancel();
        }
        None => {
            hand(number, seat, jobs, Ok(None));
            seat.cancel();
        }
    }
}

// The number of the consumer at a place.
fn number_at(seats: &Vec<Seat>, place: usize) -> u64
    requires { place < length seats.now.items }
    ensures { result ≡ suc place }
{
    let _ = seats.len();
    place as u64 + 1
}

/// Makes room for an error and an end of every registered consumer of a channel, beside what is promised.
pub(crate) fn make_end_rooms(
    channel: u16,
    places: &[usize],
    seats: &mut Vec<Seat>,
    jobs: &mut VecDeque<Job>,
) -> Result<(), AllocError>
    requires { places_at (λ _ x. is_on channel x) (map (λ s. s.consumer) seats.old.items) ≡ places.now }
    ensures same { map (λ s. s.consumer) seats.new.items ≡ map (λ s. s.consumer) seats.old.items }
    ensures jobs { jobs.new.items ≡ jobs.old.items }
    ensures room { OnOk result (EndsFit channel seats.new.items) }
    ensures job_room { OnOk result (length seats.old.items + 2 * length places.now ≤ deque_capacity jobs.new - deque_len jobs.new) }
    ensures kept { FitWhere is_registered_one seats.old.items → FitWhere is_registered_one seats.new.items }
    ensures promised { promised_of seats.new.items ≡ promised_of seats.old.items }
    ensures jobs_kept { deque_capacity jobs.old - deque_len jobs.old ≤ deque_capacity jobs.new - deque_len jobs.new }
    ensures succeeds { length seats.old.items + 2 * length places.now ≤ deque_capacity jobs.old - deque_len jobs.old → EndsFit channel seats.old.items → IsOk result }
{
    jobs.reserve(seats.len() + 2 * places.len())?;
    for place in places {
        let place = *place;
        seats[place].reserve(3)?;
    }
    Ok(())
}

// How many consumers are registered.
fn count_registered(seats: &Vec<Seat>) -> usize
    ensures count { result ≡ count_by is_registered_one (map (λ s. s.consumer) seats.now.items) }
    ensures within { result ≤ length seats.now.items }
{
    let mut count = 0;
    for seat in seats {
        count += one_if(seat.is_registered());
    }
    count
}

fn one_if(passes: bool) -> usize
    ensures { result ≡ (if passes then 1 else 0) }
{
    if passes { 1 } else { 0 }
}

// A job for each of so many consumers, and two for each of those that end.
fn jobs_wanted(consumers: usize, ending: usize) -> Result<usize, AllocError>
    ensures { IfOk result (λ n. n ≡ consumers + 2 * ending) }
{
    let Some(last) = ending.checked_mul(2) else {
        return Err(AllocError);
    };
    match consumers.checked_add(last) {
        Some(wanted) => Ok(wanted),
        None => Err(AllocError),
    }
}

// Makes room for an error and an end of a consumer, where it is registered.
fn make_room_if_registered(seat: &mut Seat) -> Result<(), AllocError>
    ensures same { seat.new.consumer ≡ seat.old.consumer }
    ensures promised { seat.new.promised ≡ seat.old.promised }
    ensures room { OnOk result (seat.old.consumer.registered ≡ true → 3 ≤ seat.new.spare) }
{
    if seat.is_registered() {
        seat.reserve(3)?;
    }
    Ok(())
}

/// Makes room for an error and an end of every registered consumer, beside what is promised.
pub(crate) fn make_all_end_rooms(
    seats: &mut Vec<Seat>,
    jobs: &mut VecDeque<Job>,
) -> Result<(), AllocError>
    ensures same { map (λ s. s.consumer) seats.new.items ≡ map (λ s. s.consumer) seats.old.items }
    ensures jobs { jobs.new.items ≡ jobs.old.items }
    ensures room { OnOk result (FitWhere is_registered_one seats.new.items) }
    ensures job_room { OnOk result (length seats.old.items + 2 * count_by is_registered_one (map (λ s. s.consumer) seats.old.items) ≤ deque_capacity jobs.new - deque_len jobs.new) }
    ensures promised { promised_of seats.new.items ≡ promised_of seats.old.items }
    ensures jobs_kept { deque_capacity jobs.old - deque_len jobs.old ≤ deque_capacity jobs.new - deque_len jobs.new }
{
    jobs.reserve(jobs_wanted(seats.len(), count_registered(seats))?)?;
    for place in 0..seats.len() {
        make_room_if_registered(&mut seats[place])?;
    }
    Ok(())
}

/// The consumers of a channel get what is due to them as its opening ends, in rising number, in the room that was made.
pub(crate) fn end_all(
    channel: u16,
    places: &[usize],
    seats: &mut Vec<Seat>,
    jobs: &mut VecDeque<Job>,
    error: Option<Error>,
)
    requires places { places_at (λ _ x. is_on channel x) (map (λ s. s.consumer) seats.old.items) ≡ places.now }
    requires room { EndsFit channel seats.old.items }
    requires job_room { 2 * length places.now ≤ deque_capacity jobs.old - deque_len jobs.old }
    ensures consumers { map (λ s. s.consumer) seats.new.items ≡ map_at (moved (mark.Ended channel error)) (map (λ s. s.consumer) seats.old.items) }
    ensures jobs { jobs.new.items ≡ jobs.old.items ++ gather_at (owed (mark.Ended channel error)) (map (λ s. s.consumer) seats.old.items) }
    ensures none { places_at (λ _ x. is_on channel x) (map (λ s. s.consumer) seats.new.items) ≡ [] }
    ensures kept { FitWhere is_registered_one seats.old.items → FitWhere is_registered_one seats.new.items }
    ensures promised { promised_of seats.new.items ≡ promised_of seats.old.items }
    ensures jobs_left { deque_capacity jobs.old - deque_len jobs.old ≤ deque_capacity jobs.new - deque_len jobs.new + 2 * length places.now }
{
    for place in places {
        let place = *place;
        let number = number_at(seats, place);
        end_one(number, &mut seats[place], jobs, error);
    }
}

/// The registered consumers of a channel start to be cancelled.
pub(crate) fn start_cancels(channel: u16, places: &[usize], seats: &mut Vec<Seat>)
    requires { places_at (λ _ x. is_on channel x) (map (λ s. s.consumer) seats.old.items) ≡ places.now }
    ensures consumers { map (λ s. s.consumer) seats.new.items ≡ map_at (moved (mark.CloseAsked channel)) (map (λ s. s.consumer) seats.old.items) }
    ensures promised { promised_of seats.new.items ≡ promised_of seats.old.items }
{
    for place in places {
        let place = *place;
        seats[place].start_cancel();
    }
}

// What something that was handed acknowledges is void.
fn void_item(item: DeliveryResult, switches: &mut Switches)
    ensures { switches.new.switches ≡ voided (ackers_of (item ∷ [])) switches.old.switches }
{
    match item {
        Ok(Some(delivery)) => {
            switches.void(delivery.acker.number);
            let_go(delivery);
        }
        Ok(None) => {}
        Err(_) => {}
    }
}

// What is queued for a consumer is dropped, and its ackers are void.
fn void_items(seat: &mut Seat, switches: &mut Switches)
    ensures seat { seat.new.consumer ≡ emptied seat.old.consumer }
    ensures promised { seat.new.promised ≡ seat.old.promised }
    ensures switches { switches.new.switches ≡ voided (ackers_of seat.old.consumer.items) switches.old.switches }
{
    while let Some(item) = seat.pop() {
        void_item(item, switches);
    }
}

// What a consumer was handed before is void: its queue is emptied, and its delegate is to forget, in the room that was made.
fn void_one(number: u64, seat: &mut Seat, jobs: &mut VecDeque<Job>, switches: &mut Switches)
    requires { 0 < deque_capacity jobs.old - deque_len jobs.old }
    ensures seat { seat.new.consumer ≡ emptied seat.old.consumer }
    ensures promised { seat.new.promised ≡ seat.old.promised }
    ensures jobs { jobs.new.items ≡ jobs.old.items ++ (if is_marked seat.old.consumer.state then discarded number ∷ [] else []) }
    ensures jobs_left { deque_capacity jobs.old - deque_len jobs.old ≤ deque_capacity jobs.new - deque_len jobs.new + 1 }
    ensures switches { switches.new.switches ≡ voided (ackers_of seat.old.consumer.items) switches.old.switches }
{
    if seat.is_marked() {
        jobs.push_back_reserved(Job {
            consumer: number,
            kind: JobKind::Discard,
        });
    }
    void_items(seat, switches);
}

/// What the registered consumers of a channel were handed before is void, in the room that was made.
pub(crate) fn void_all(
    channel: u16,
    places: &[usize],
    seats: &mut Vec<Seat>,
    jobs: &mut VecDeque<Job>,
    switches: &mut Switches,
)
    requires places { places_at (λ _ x. is_on channel x) (map (λ s. s.consumer) seats.old.items) ≡ places.now }
    requires job_room { length places.now ≤ deque_capacity jobs.old - deque_len jobs.old }
    ensures promised { promised_of seats.new.items ≡ promised_of seats.old.items }
    ensures jobs_left { deque_capacity jobs.old - deque_len jobs.old ≤ deque_capacity jobs.new - deque_len jobs.new + length places.now }
    ensures consumers { map (λ s. s.consumer) seats.new.items ≡ map_at (moved (mark.Discarded channel)) (map (λ s. s.consumer) seats.old.items) }
    ensures jobs { jobs.new.items ≡ jobs.old.items ++ gather_at (owed (mark.Discarded channel)) (map (λ s. s.consumer) seats.old.items) }
    ensures switches { switches.new.switches ≡ voided (ackers_on channel (map (λ s. s.consumer) seats.old.items)) switches.old.switches }
{
    for place in places {
        let place = *place;
        let number = number_at(seats, place);
        void_one(number, &mut seats[place], jobs, switches);
    }
}

/// Gives the first item; with an empty queue the end where the consumer is canceled, else nothing yet.
pub(crate) fn poll(seat: &mut Seat) -> Option<DeliveryResult>
    ensures answer { result ≡ poll_of seat.old.consumer }
    ensures rest { seat.new.consumer ≡ polled seat.old.consumer }
    ensures kept { seat.old.spare ≤ seat.new.spare }
    ensures promised { seat.new.promised ≡ seat.old.promised }
{
    match seat.pop() {
        Some(item) => Some(item),
        None => {
            if seat.is_canceled() {
                Some(Ok(None))
            } else {
                None
            }
        }
    }
}

/// What is queued becomes jobs, in order, in the room that was made.
fn pour(number: u64, seat: &mut Seat, jobs: &mut VecDeque<Job>)
    requires { length seat.old.consumer.items ≤ deque_capacity jobs.old - deque_len jobs.old }
    ensures promised { seat.new.promised ≡ seat.old.promised }
    ensures jobs_left { deque_capacity jobs.old - deque_len jobs.old ≤ deque_capacity jobs.new - deque_len jobs.new + length seat.old.consumer.items }
    ensures seat { seat.new.consumer ≡ emptied seat.old.consumer }
    ensures jobs { jobs.new.items ≡ jobs.old.items ++ map (delivered number) seat.old.consumer.items }
{
    while let Some(item) = seat.pop() {
        jobs.push_back_reserved(Job {
            consumer: number,
            kind: JobKind::Deliver(item),
        });
    }
}

/// A consumer is given a delegate: what is queued becomes jobs, in the room that was made.
pub(crate) fn give_delegate(number: u64, seat: &mut Seat, jobs: &mut VecDeque<Job>)
    requires { length seat.old.consumer.items ≤ deque_capacity jobs.old - deque_len jobs.old }
    ensures promised { seat.new.promised ≡ seat.old.promised }
    ensures jobs_left { deque_capacity jobs.old - deque_len jobs.old ≤ deque_capacity jobs.new - deque_len jobs.new + length seat.old.consumer.items }
    ensures seat { seat.new.consumer ≡ delegated seat.old.consumer }
    ensures jobs { jobs.new.items ≡ jobs.old.items ++ map (delivered number) seat.old.consumer.items }
{
    pour(number, seat, jobs);
    seat.set_mark();
}

/// Starts to cancel a consumer that is active and registered, and says whether it was.
pub(crate) fn cancel_if_idle(seat: &mut Seat) -> bool
    ensures answer { result ≡ is_idle seat.old.consumer }
    ensures change { seat.new.consumer ≡ (if result then canceling seat.old.consumer else seat.old.consumer) }
    ensures promised { seat.new.promised ≡ seat.old.promised }
{
    if !seat.is_registered() || !seat.is_active() {
        return false;
    }
    seat.start_cancel();
    true
}

/// Drops a delivery. What drops one in its own body carries a step for each of its fields in every proof.
pub(crate) fn let_go(_delivery: Delivery) {}
