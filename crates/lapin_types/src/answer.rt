//! What a ticket is resolved with. Which call has which answer stands in the crates above.

ghost use Rattle.std.specs.Prelude.{◌≡◌, IfOk};
ghost use Rattle.std.specs.Bool.{Decides};
ghost use Rattle.lapin_types.specs.declared.answer.Answer.TheVariants as answer;

use crate::message::BasicGetMessage;
use crate::queue::Queue;
use lapin_values::NoMemory;
use std::alloc::Global;

/// The answer of a call, as its ticket gives it.
#[derive(Debug, Drop)]
pub enum Answer {
    /// The call is done and has nothing to tell.
    Done,
    /// The channel of this number is open.
    Channel(u16),
    /// The last frame of the publish with this confirm number has left.
    Confirm(u64),
    /// The consumer of this number is registered.
    Consumer(u64),
    /// The message that a get gave; None where the queue was empty.
    Got(Option<BasicGetMessage>),
    /// The queue is declared.
    Queue(Queue),
    /// So many messages were dropped.
    Count(u32),
    /// Whether the broker goes on.
    Flow(bool),
    /// The acknowledgement has left.
    Yes,
}

impl Answer {
    /// An equal answer, in memory of its own.
    pub fn try_clone(&self, alloc: Global) -> Result<Answer, NoMemory>
        ensures { IfOk result (λ copy. copy ≡ self.now) }
    {
        match self {
            Answer::Done => Ok(Answer::Done),
            Answer::Channel(channel) => Ok(Answer::Channel(*channel)),
            Answer::Confirm(number) => Ok(Answer::Confirm(*number)),
            Answer::Consumer(number) => Ok(Answer::Consumer(*number)),
            Answer::Got(message) => copied_got(message, alloc),
            Answer::Queue(queue) => copied_queue(queue, alloc),
            Answer::Count(count) => Ok(Answer::Count(*count)),
            Answer::Flow(active) => Ok(Answer::Flow(*active)),
            Answer::Yes => Ok(Answer::Yes),
        }
    }

    /// Whether two answers are equal in every field, number and use of a message's acker too.
    pub fn same(&self, other: &Answer) -> bool
        ensures { Decides result (self.now ≡ other.now) }
    {
        match (self, other) {
            (Answer::Done, Answer::Done) => true,
            (Answer::Channel(left), Answer::Channel(right)) => left == right,
            (Answer::Confirm(left), Answer::Confirm(right)) => left == right,
            (Answer::Consumer(left), Answer::Consumer(right)) => left == right,
            (Answer::Got(left), Answer::Got(right)) => same_got(left, right),
            (Answer::Queue(left), Answer::Queue(right)) => left.same(right),
            (Answer::Count(left), Answer::Count(right)) => left == right,
            (Answer::Flow(left), Answer::Flow(right)) => left == right,
            (Answer::Yes, Answer::Yes) => true,
            _ => false,
        }
    }
}

fn copied_queue(queue: &Queue, alloc: Global) -> Result<Answer, NoMemory>
    ensures { IfOk result (λ copy. copy ≡ answer.Queue queue.now) }
{
    Ok(Answer::Queue(queue.try_clone(alloc)?))
}

fn copied_got(message: &Option<BasicGetMessage>, alloc: Global) -> Result<Answer, NoMemory>
    ensures { IfOk result (λ copy. copy ≡ answer.Got message.now) }
{
    match message {
        Some(message) => Ok(Answer::Got(Some(message.try_clone(alloc)?))),
        None => Ok(Answer::Got(None)),
    }
}

fn same_got(left: &Option<BasicGetMessage>, right: &Option<BasicGetMessage>) -> bool
    ensures { Decides result (left.now ≡ right.now) }
{
    match (left, right) {
        (Some(left), Some(right)) => left.same(right),
        (None, None) => true,
        _ => false,
    }
}
