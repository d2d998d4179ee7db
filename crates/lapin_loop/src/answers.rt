//! A ticket tells the answer that its call has: of a declare a queue, of a purge a count, and so on.
//!
//! Which call has which answer stands in the table of calls. A ticket of another call tells its answer all the same, as `Other`, so that
//! none is lost.
ghost use Rattle.std.specs.Prelude.{◌≡◌};
ghost use Rattle.lapin_types.specs.declared.answer.Answer.TheVariants as answer;
ghost use Rattle.lapin_types.specs.declared.event.Event.TheVariants.{PollTicket};
ghost use Rattle.lapin_machine.specs.World.{told_by, next};
ghost use Rattle.lapin_loop.specs.Answers.{IsAnswer, IsTyped, IsOther, done_of, consumer_of};

use lapin_session::{Consumer, Session, Ticket};
use lapin_types::{Answer, BasicGetMessage, Error, Poll, Queue};

/// What a ticket tells whose call's answer is a `T`.
#[derive(Drop)]
pub enum Typed<T> {
    /// Nothing is there yet.
    Pending,
    /// The answer.
    Ready(T),
    /// An answer of another kind: the ticket is of another call.
    Other(Answer),
}

/// What a ticket tells, with one level of errors: None while it is pending.
///
/// # Errors
/// The error that the call ended with; `UnknownTicket` and `AlreadyTaken`, which no call ends with, as of the poll.
pub fn answer_of(ticket: &Ticket, session: &mut Session) -> Result<Option<Answer>, Error>
    ensures told { IsAnswer result (told_by session.old (PollTicket ticket.now.number)) }
    ensures ok { session.new ≡ next session.old (PollTicket ticket.now.number) }
{
    match ticket.poll(session) {
        Ok(Poll::Ready(Ok(answer))) => Ok(Some(answer)),
        Ok(Poll::Ready(Err(error))) => Err(error),
        Ok(Poll::Pending) => Ok(None),
        Err(error) => Err(error),
    }
}

/// The answer of a call that has nothing to tell, as `confirm_select` or `queue_bind`.
///
/// # Errors
/// Those of `answer_of`.
pub fn poll_done(ticket: &Ticket, session: &mut Session) -> Result<Typed<()>, Error>
    ensures told { IsTyped done_of result (told_by session.old (PollTicket ticket.now.number)) }
    ensures other { IsOther done_of result }
    ensures ok { session.new ≡ next session.old (PollTicket ticket.now.number) }
{
    match answer_of(ticket, session) {
        Ok(Some(Answer::Done)) => Ok(Typed::Ready(())),
        Ok(Some(other)) => Ok(Typed::Other(other)),
        Ok(None) => Ok(Typed::Pending),
        Err(error) => Err(error),
    }
}

/// The answer of `open_channel`: the number of the channel that is open.
///
/// # Errors
/// Those of `answer_of`.
pub fn poll_channel(ticket: &Ticket, session: &mut Session) -> Result<Typed<u16>, Error>
    ensures told { IsTyped answer.Channel result (told_by session.old (PollTicket ticket.now.number)) }
    ensures other { IsOther answer.Channel result }
    ensures ok { session.new ≡ next session.old (PollTicket ticket.now.number) }
{
    match answer_of(ticket, session) {
        Ok(Some(Answer::Channel(it))) => Ok(Typed::Ready(it)),
        Ok(Some(other)) => Ok(Typed::Other(other)),
        Ok(None) => Ok(Typed::Pending),
        Err(error) => Err(error),
    }
}

/// The answer of `basic_consume`: the consumer.
///
/// # Errors
/// Those of `answer_of`.
pub fn poll_consumer(ticket: &Ticket, session: &mut Session) -> Result<Typed<Consumer>, Error>
    ensures told { IsTyped consumer_of result (told_by session.old (PollTicket ticket.now.number)) }
    ensures other { IsOther consumer_of result }
    ensures ok { session.new ≡ next session.old (PollTicket ticket.now.number) }
{
    match answer_of(ticket, session) {
        Ok(Some(Answer::Consumer(number))) => Ok(Typed::Ready(Consumer { number })),
        Ok(Some(other)) => Ok(Typed::Other(other)),
        Ok(None) => Ok(Typed::Pending),
        Err(error) => Err(error),
    }
}

/// The answer of `basic_get`: the message, or None where the queue was empty.
///
/// # Errors
/// Those of `answer_of`.
pub fn poll_got(
    ticket: &Ticket,
    session: &mut Session,
) -> Result<Typed<Option<BasicGetMessage>>, Error>
    ensures told { IsTyped answer.Got result (told_by session.old (PollTicket ticket.now.number)) }
    ensures other { IsOther answer.Got result }
    ensures ok { session.new ≡ next session.old (PollTicket ticket.now.number) }
{
    match answer_of(ticket, session) {
        Ok(Some(Answer::Got(it))) => Ok(Typed::Ready(it)),
        Ok(Some(other)) => Ok(Typed::Other(other)),
        Ok(None) => Ok(Typed::Pending),
        Err(error) => Err(error),
    }
}

/// The answer of `queue_declare`: the queue, with what it holds.
///
/// # Errors
/// Those of `answer_of`.
pub fn poll_queue(ticket: &Ticket, session: &mut Session) -> Result<Typed<Queue>, Error>
    ensures told { IsTyped answer.Queue result (told_by session.old (PollTicket ticket.now.number)) }
    ensures other { IsOther answer.Queue result }
    ensures ok { session.new ≡ next session.old (PollTicket ticket.now.number) }
{
    match answer_of(ticket, session) {
        Ok(Some(Answer::Queue(it))) => Ok(Typed::Ready(it)),
        Ok(Some(other)) => Ok(Typed::Other(other)),
        Ok(None) => Ok(Typed::Pending),
        Err(error) => Err(error),
    }
}

/// The answer of `queue_purge` and `queue_delete`: how many messages were dropped.
///
/// # Errors
/// Those of `answer_of`.
pub fn poll_count(ticket: &Ticket, session: &mut Session) -> Result<Typed<u32>, Error>
    ensures told { IsTyped answer.Count result (told_by session.old (PollTicket ticket.now.number)) }
    ensures other { IsOther answer.Count result }
    ensures ok { session.new ≡ next session.old (PollTicket ticket.now.number) }
{
    match answer_of(ticket, session) {
        Ok(Some(Answer::Count(it))) => Ok(Typed::Ready(it)),
        Ok(Some(other)) => Ok(Typed::Other(other)),
        Ok(None) => Ok(Typed::Pending),
        Err(error) => Err(error),
    }
}

/// The answer of `channel_flow`: whether the broker goes on.
///
/// # Errors
/// Those of `answer_of`.
pub fn poll_flow(ticket: &Ticket, session: &mut Session) -> Result<Typed<bool>, Error>
    ensures told { IsTyped answer.Flow result (told_by session.old (PollTicket ticket.now.number)) }
    ensures other { IsOther answer.Flow result }
    ensures ok { session.new ≡ next session.old (PollTicket ticket.now.number) }
{
    match answer_of(ticket, session) {
        Ok(Some(Answer::Flow(it))) => Ok(Typed::Ready(it)),
        Ok(Some(other)) => Ok(Typed::Other(other)),
        Ok(None) => Ok(Typed::Pending),
        Err(error) => Err(error),
    }
}
