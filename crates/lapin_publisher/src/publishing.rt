//! What waits is published.

ghost use Rattle.std.specs.Prelude.{◌≡◌, ◌<◌, true, OnOk, OnErr};
ghost use Rattle.lapin_rules.specs.Wire.{state_of, is_open as is_open_lem};
ghost use Rattle.lapin_types.specs.declared.event.Event.TheVariants as event;
ghost use Rattle.lapin_machine.specs.World.{next};
ghost use Rattle.lapin_publisher.specs.Causes.{TurnCause};
ghost use Rattle.lapin_publisher.specs.Each.{each, IsUntil};
ghost use Rattle.lapin_publisher.specs.Publishes.{published_one, placed, waiting_placed, all_placed, Stopped};

use crate::turn::{Room, Turn};
use lapin_keeping::Kept;
use lapin_machine::{Session, Ticket};
use lapin_types::{Error, NoMemory};
use std::alloc::Global;

/// Publishes what waits, in rising number, until as many are outstanding as may be. One that may be why the broker closed is published
/// alone; one that the broker failed where it may be tried again.
///
/// # Errors
/// Those of a publish. What was published before is.
pub(crate) fn publish_all(
    alloc: Global,
    session: &mut Session,
    messages: &mut Vec<Kept>,
    turn: Turn,
) -> Result<(), Error>
    ensures ok { OnOk result ((messages.new.items ≡ (all_placed turn session.old messages.old.items).0) × (session.new ≡ (all_placed turn session.old messages.old.items).1.0)) }
    ensures err { OnErr result (Stopped turn session.old session.new messages.old.items messages.new.items) }
    ensures cause { is_open_lem (state_of turn.channel session.old.wire) ≡ true → TurnCause result session.new.wire }
{
    let mut room = Room::of(turn);
    place_each(alloc, session, messages, turn, &mut room)?;
    Ok(())
}

// Each message, in order.
fn place_each(
    alloc: Global,
    session: &mut Session,
    messages: &mut Vec<Kept>,
    turn: Turn,
    room: &mut Room,
) -> Result<(), Error>
    ensures ok { OnOk result ((messages.new.items, (session.new, room.new)) ≡ each (placed turn) (session.old, room.old) messages.old.items) }
    ensures err { OnErr result (IsUntil (placed turn) (session.old, room.old) (session.new, room.new) messages.old.items messages.new.items) }
    ensures cause { is_open_lem (state_of turn.channel session.old.wire) ≡ true → TurnCause result session.new.wire }
{
    for kept in messages.iter_mut() {
        place(alloc, session, kept, turn, room)?;
    }
    Ok(())
}

// A message is published, where it waits and may be; one that is outstanding takes of the room.
fn place(
    alloc: Global,
    session: &mut Session,
    kept: &mut Kept,
    turn: Turn,
    room: &mut Room,
) -> Result<(), Error>
    ensures ok { OnOk result ((kept.new, (session.new, room.new)) ≡ placed turn (session.old, room.old) kept.old) }
    ensures err { OnErr result ((kept.new ≡ kept.old) × ((session.new ≡ session.old) × (room.new ≡ room.old))) }
    ensures cause { is_open_lem (state_of turn.channel session.old.wire) ≡ true → TurnCause result session.old.wire }
{
    if room.left == 0 {
        return Ok(());
    }
    if kept.waits() {
        return place_waiting(alloc, session, kept, turn, room);
    }
    room.take(kept);
    Ok(())
}

// A message that waits, where there is room.
fn place_waiting(
    alloc: Global,
    session: &mut Session,
    kept: &mut Kept,
    turn: Turn,
    room: &mut Room,
) -> Result<(), Error>
    requires { 0 < room.old.left }
    ensures ok { OnOk result ((kept.new, (session.new, room.new)) ≡ waiting_placed turn (session.old, room.old) kept.old) }
    ensures err { OnErr result ((kept.new ≡ kept.old) × ((session.new ≡ session.old) × (room.new ≡ room.old))) }
    ensures cause { is_open_lem (state_of turn.channel session.old.wire) ≡ true → TurnCause result session.old.wire }
{
    if kept.failed && !turn.retry {
        return Ok(());
    }
    if kept.suspect && room.taken {
        room.left = 0;
        return Ok(());
    }
    publish_one(alloc, session, kept, turn.channel)?;
    room.take(kept);
    Ok(())
}

// Publishes a message. Its publish is outstanding from then on.
#[tactic(auto, using(crate::proofs::Causing::publish_cause))]
fn publish_one(
    alloc: Global,
    session: &mut Session,
    kept: &mut Kept,
    channel: u16,
) -> Result<(), Error>
    ensures ok { OnOk result ((kept.new, session.new) ≡ published_one channel session.old kept.old) }
    ensures err { OnErr result ((kept.new ≡ kept.old) × (session.new ≡ session.old)) }
    ensures cause { is_open_lem (state_of channel session.old.wire) ≡ true → TurnCause result session.old.wire }
{
    let message = match kept.message.copied(alloc) {
        Ok(message) => message,
        Err(NoMemory) => return Err(Error::NoMemory),
    };
    let published = session.basic_publish(
        alloc,
        channel,
        message.exchange,
        message.routing_key,
        message.options,
        message.payload,
        message.properties,
    )?;
    kept.published(published.confirm.number);
    aside(session, published.ticket);
    Ok(())
}

/// A ticket will not be asked for.
pub(crate) fn aside(session: &mut Session, ticket: Ticket)
    ensures { session.new ≡ next session.old (event.AsideTicket ticket.number) }
{
    let _ = session.set_aside_ticket(ticket.number);
}
