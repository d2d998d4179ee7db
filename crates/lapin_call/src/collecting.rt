//! Collecting the replies: the consumer of the replies is polled until it has nothing more.

ghost use Rattle.std.specs.Prelude.{◌≡◌, suc, IfOk};
ghost use Rattle.lapin_types.specs.declared.event.Event.TheVariants as event;
ghost use Rattle.lapin_machine.specs.World.{told_by, next};
ghost use Rattle.lapin_machine.specs.Way.{by_machine};
ghost use Rattle.lapin_call.specs.Calls.{item_of, gather_from, polls, waiting_for};
ghost use Rattle.lapin_call.specs.Fates.{no_tally};

use crate::fates::{Fate, Tally, deliver, end_waiting};
use lapin_machine::Session;
use lapin_types::{Delivery, Error, NoMemory, Poll};

/// Polls the consumer of the replies, if there is one, until it gives nothing. Each delivery may answer a call, and an error ends
/// those that wait. How many deliveries of each kind came.
///
/// # Errors
/// `NoMemory` alone.
pub(crate) fn collect(
    session: &mut Session,
    consumer: Option<u64>,
    fates: &mut Vec<Fate>,
) -> Result<Tally, NoMemory>
    ensures { IfOk result (λ tally. gather_from by_machine consumer (record { session = session.old; fates = fates.old.items; tally = no_tally })
        ≡ record { session = session.new; fates = fates.new.items; tally = tally }) }
{
    match consumer {
        Some(consumer) => collect_from(session, consumer, fates),
        None => Ok(Tally::new()),
    }
}

// Polls a consumer until it gives nothing.
fn collect_from(
    session: &mut Session,
    consumer: u64,
    fates: &mut Vec<Fate>,
) -> Result<Tally, NoMemory>
    ensures { IfOk result (λ tally. polls by_machine consumer (suc (waiting_for consumer session.old.wire)) (record { session = session.old; fates = fates.old.items; tally = no_tally })
        ≡ record { session = session.new; fates = fates.new.items; tally = tally }) }
{
    let mut tally = Tally::new();
    while let Some(item) = next_item(session, consumer) {
        match item {
            Ok(delivery) => tally = tally.counted(deliver(fates, delivery))?,
            Err(error) => end_waiting(fates, error),
        }
    }
    Ok(tally)
}

// What a poll of the consumer gives, where it is a delivery or an error.
fn next_item(session: &mut Session, consumer: u64) -> Option<Result<Delivery, Error>>
    ensures told { result ≡ item_of (told_by session.old (event.PollConsumer consumer)) }
    ensures ok { session.new ≡ next session.old (event.PollConsumer consumer) }
{
    match session.poll_next(consumer) {
        Ok(Poll::Ready(Ok(Some(delivery)))) => Some(Ok(delivery)),
        Ok(Poll::Ready(Err(error))) => Some(Err(error)),
        _ => None,
    }
}
