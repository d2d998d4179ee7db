//! The outcome of a publish (RabbitMQ publisher confirms). When it is known stands in the crates above.

ghost use Rattle.std.specs.Prelude.{◌≡◌, IfOk};
ghost use Rattle.std.specs.Bool.{Decides};
ghost use Rattle.lapin_types.specs.Confirmations.{message_of, says_ack, says_nack};

use crate::message::BasicReturnMessage;
use lapin_values::NoMemory;
use std::alloc::Global;

/// What became of a publish.
#[derive(Debug, PartialEq, Drop)]
pub enum Confirmation {
    /// The broker took it, with the message where it was returned.
    Ack(Option<BasicReturnMessage>),
    /// The broker couldn't take it, with the message where it was returned.
    Nack(Option<BasicReturnMessage>),
    /// The channel wasn't confirming as it left.
    NotRequested,
}

impl Confirmation {
    /// The message that was returned, if any.
    pub fn take_message(self) -> Option<BasicReturnMessage>
        ensures { result ≡ message_of self }
    {
        match self {
            Confirmation::Ack(message) => message,
            Confirmation::Nack(message) => message,
            Confirmation::NotRequested => None,
        }
    }

    /// Whether the broker took the publish.
    pub fn is_ack(&self) -> bool
        ensures { result ≡ says_ack self.now }
    {
        matches!(self, Confirmation::Ack(_))
    }

    /// Whether the broker couldn't take the publish.
    pub fn is_nack(&self) -> bool
        ensures { result ≡ says_nack self.now }
    {
        matches!(self, Confirmation::Nack(_))
    }

    /// An equal confirmation, in memory of its own.
    pub fn try_clone(&self, alloc: Global) -> Result<Confirmation, NoMemory>
        ensures { IfOk result (λ copy. copy ≡ self.now) }
    {
        match self {
            Confirmation::Ack(message) => Ok(Confirmation::Ack(copied(message, alloc)?)),
            Confirmation::Nack(message) => Ok(Confirmation::Nack(copied(message, alloc)?)),
            Confirmation::NotRequested => Ok(Confirmation::NotRequested),
        }
    }

    /// Whether two confirmations are equal in every field, number and use of their ackers too.
    pub fn same(&self, other: &Confirmation) -> bool
        ensures { Decides result (self.now ≡ other.now) }
    {
        match (self, other) {
            (Confirmation::Ack(left), Confirmation::Ack(right)) => same_message(left, right),
            (Confirmation::Nack(left), Confirmation::Nack(right)) => same_message(left, right),
            (Confirmation::NotRequested, Confirmation::NotRequested) => true,
            _ => false,
        }
    }
}

fn copied(
    message: &Option<BasicReturnMessage>,
    alloc: Global,
) -> Result<Option<BasicReturnMessage>, NoMemory>
    ensures { IfOk result (λ copy. copy ≡ message.now) }
{
    match message {
        Some(message) => Ok(Some(message.try_clone(alloc)?)),
        None => Ok(None),
    }
}

fn same_message(left: &Option<BasicReturnMessage>, right: &Option<BasicReturnMessage>) -> bool
    ensures { Decides result (left.now ≡ right.now) }
{
    match (left, right) {
        (Some(left), Some(right)) => left.same(right),
        (None, None) => true,
        _ => false,
    }
}
