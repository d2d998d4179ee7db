//! What became of the publishes that are outstanding.

ghost use Rattle.std.specs.Prelude.{◌≡◌, ◌++◌, ◌<◌, Some, OnOk, OnErr, vec_len, vec_capacity};
ghost use Rattle.lapin_publisher.specs.Each.{each, IsUntil};
ghost use Rattle.lapin_publisher.specs.Polls.{poll_one as poll_one_lem, poll_at, option_list, IsPolled, IsPolledInPart};

use lapin_keeping::{Keeping, Kept};
use lapin_machine::Session;
use lapin_types::{BasicReturnMessage, Confirmation, NoMemory, Outcome, Poll};

/// Asks for what became of the publishes, in rising number. What is settled is kept no more.
///
/// A message that came back is told with the confirm of another one where the broker told acks in another order; that confirm is resolved
/// no later than its own, so all are asked for before any is settled.
///
/// # Errors
/// `NoMemory`: nothing was settled, and the others are asked for at the next turn.
pub(crate) fn poll_all(session: &mut Session, keeping: &mut Keeping) -> Result<(), NoMemory>
    ensures ok { OnOk result (IsPolled session.old session.new keeping.old keeping.new) }
    ensures err { OnErr result (IsPolledInPart session.old session.new keeping.old keeping.new) }
{
    poll_each(session, &mut keeping.kept, &mut keeping.back)?;
    keeping.note_returns();
    keeping.settle()?;
    Ok(())
}

// Asks for what became of each publish, in order.
fn poll_each(
    session: &mut Session,
    messages: &mut Vec<Kept>,
    back: &mut Vec<BasicReturnMessage>,
) -> Result<(), NoMemory>
    ensures ok { OnOk result ((messages.new.items, (session.new, back.new.items)) ≡ each poll_one_lem (session.old, back.old.items) messages.old.items) }
    ensures err { OnErr result (IsUntil poll_one_lem (session.old, back.old.items) (session.new, back.new.items) messages.old.items messages.new.items) }
{
    for kept in messages.iter_mut() {
        poll_one(session, kept, back)?;
    }
    Ok(())
}

// Asks for what became of a publish, if there is one.
#[tactic(auto, using(crate::proofs::Bare::bare_result, crate::proofs::Bare::bare_back))]
fn poll_one(
    session: &mut Session,
    kept: &mut Kept,
    back: &mut Vec<BasicReturnMessage>,
) -> Result<(), NoMemory>
    ensures ok { OnOk result ((kept.new, (session.new, back.new.items)) ≡ poll_one_lem (session.old, back.old.items) kept.old) }
    ensures err { OnErr result ((kept.new ≡ kept.old) × ((session.new ≡ session.old) × (back.new.items ≡ back.old.items))) }
{
    let Some(confirm) = kept.outstanding else {
        return Ok(());
    };
    match session.poll_bare_confirm(confirm) {
        Some(outcome) => {
            kept.met(outcome);
            Ok(())
        }
        None => poll_whole(session, kept, confirm, back),
    }
}

// The same where there is no outcome yet, or a message came back with it.
fn poll_whole(
    session: &mut Session,
    kept: &mut Kept,
    confirm: u64,
    back: &mut Vec<BasicReturnMessage>,
) -> Result<(), NoMemory>
    ensures ok { OnOk result ((kept.new, (session.new, back.new.items)) ≡ poll_at (session.old, back.old.items) kept.old (Some confirm)) }
    ensures err { OnErr result ((kept.new ≡ kept.old) × ((session.new ≡ session.old) × (back.new.items ≡ back.old.items))) }
{
    back.reserve(1)?;
    match session.poll_confirm(confirm) {
        Ok(Poll::Pending) => {}
        Ok(Poll::Ready(Ok(Confirmation::Ack(message)))) => {
            kept.met(Outcome::Ack);
            add(back, message);
        }
        Ok(Poll::Ready(Ok(Confirmation::Nack(message)))) => {
            kept.met(Outcome::Nack);
            add(back, message);
        }
        Ok(Poll::Ready(Ok(Confirmation::NotRequested))) => kept.forget(),
        Ok(Poll::Ready(Err(error))) => kept.broken(&error),
        // Another one took its outcome: nothing is known of it.
        Err(_) => kept.forget(),
    }
    Ok(())
}

fn add(back: &mut Vec<BasicReturnMessage>, message: Option<BasicReturnMessage>)
    requires { vec_len back.old < vec_capacity back.old }
    ensures { back.new.items ≡ back.old.items ++ option_list message }
{
    if let Some(message) = message {
        back.push_reserved(message);
    }
}
