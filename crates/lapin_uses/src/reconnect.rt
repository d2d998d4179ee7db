//! How a publisher goes on after a loss: what waited is taken back, a new session is begun, and what nothing is known of is
//! published again there.
ghost use Rattle.std.specs.Prelude.{◌≡◌, ◌++◌, [], ◌≤◌, ◌-◌, length, IfOk, OnOk, OnErr};
ghost use Rattle.lapin_types.specs.declared.event.Event.TheVariants.{Call as CallEvent, PollConfirm, Lost};
ghost use Rattle.lapin_types.specs.declared.call.Call.TheVariants.{OpenChannel};
ghost use Rattle.lapin_types.specs.declared.record.Record.TheVariants.{Ticket as TicketRecord};
ghost use Rattle.std.specs.VecDeque.{deque_len, deque_capacity};
ghost use Rattle.lapin_machine.specs.World.{told_by, next, new_world};
ghost use Rattle.lapin_uses.specs.Reconnecting.{kept_of, advised_by, is_done as is_done_lem, OpenCause};

use crate::outcomes::{Advice, advice_on};
use crate::publisher::{Message, Publisher, Waiting};
use lapin_session::{PublisherConfirm, Session, Ticket};
use lapin_types::{Error, NoMemory, Poll};
use std::alloc::Global;
use std::collections::VecDeque;

/// Reports the loss to the session, and takes back what waited: each message whose outcome isn't that the broker took it over
/// goes to the back of `unsent`, oldest first. Nothing waits then.
///
/// # Errors
/// `NoMemory`. Then nothing was taken back.
pub fn after_loss(
    alloc: Global,
    session: &mut Session,
    publisher: &mut Publisher,
    unsent: &mut VecDeque<Message>,
) -> Result<(), NoMemory>
    ensures unsent { OnOk result (unsent.new.items ≡ unsent.old.items ++ kept_of (next session.old Lost) publisher.old.waiting.items) }
    ensures empty { OnOk result (publisher.new.waiting.items ≡ []) }
    ensures err { OnErr result (publisher.new.waiting.items ≡ publisher.old.waiting.items) }
    ensures session { OnErr result (session.new ≡ session.old) }
    ensures stays { publisher.new ≡ record publisher.old { waiting = publisher.new.waiting } }
{
    unsent.reserve(publisher.waiting.len())?;
    session.lost(alloc)?;
    take_back(session, &mut publisher.waiting, unsent);
    Ok(())
}

/// A new session in the place of a lost one, with a channel being opened. Once the broker's `channel.open-ok` came, the channel
/// asks for confirms, and what is unsent is published again.
///
/// # Errors
/// `InvalidChannelState` for channel 0, which is the connection's, and `NoMemory`.
pub fn open_again(alloc: Global, frame_max: u32, channel: u16) -> Result<(Session, Ticket), Error>
    requires { 4096 ≤ frame_max }
    ensures told { IfOk result (λ r. told_by (new_world frame_max) (CallEvent channel OpenChannel) ≡ TicketRecord r.1.number) }
    ensures ok { IfOk result (λ r. r.0 ≡ next (new_world frame_max) (CallEvent channel OpenChannel)) }
    ensures cause { OpenCause result channel }
{
    let mut session = Session::new(alloc, frame_max)?;
    match session.open_channel(alloc, channel) {
        Ok(ticket) => Ok((session, ticket)),
        Err(error) => {
            drop(session);
            Err(error)
        }
    }
}

// Takes back all that waits, in the room that was made.
fn take_back(session: &mut Session, waiting: &mut VecDeque<Waiting>, unsent: &mut VecDeque<Message>)
    requires { length waiting.old.items ≤ deque_capacity unsent.old - deque_len unsent.old }
    ensures unsent { unsent.new.items ≡ unsent.old.items ++ kept_of session.old waiting.old.items }
    ensures empty { waiting.new.items ≡ [] }
{
    while let Some(Waiting { confirm, message }) = waiting.pop_front() {
        if is_done(polled(session, confirm)) {
            drop(message);
        } else {
            unsent.push_back_reserved(message);
        }
    }
}

// Whether a message may be forgotten.
fn is_done(advice: Advice) -> bool
    ensures { result ≡ is_done_lem advice }
{
    matches!(advice, Advice::Done)
}

// What the poll of a confirm says to do.
fn polled(session: &mut Session, confirm: PublisherConfirm) -> Advice
    ensures told { result ≡ advised_by (told_by session.old (PollConfirm confirm.number)) }
    ensures ok { session.new ≡ next session.old (PollConfirm confirm.number) }
{
    match confirm.poll(session) {
        Ok(Poll::Ready(outcome)) => {
            let advice = advice_on(&outcome);
            drop(outcome);
            advice
        }
        Ok(Poll::Pending) => Advice::AgainWithId,
        Err(error) => advice_on(&Err(error)),
    }
}
