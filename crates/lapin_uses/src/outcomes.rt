//! What a publisher does with the outcome of a publish.
ghost use Rattle.std.specs.Prelude.{◌≡◌};
ghost use Rattle.lapin_uses.specs.Outcomes.{advised};

use lapin_types::{ChannelState, Confirmation, Error};

/// What to do about a publish, by its outcome.
#[derive(Clone, Copy, Debug, PartialEq, Eq)]
pub enum Advice {
    /// The broker has taken it over: it may be forgotten.
    Done,
    /// The broker took it over and no queue wanted it: it was returned. To publish it again helps only where a queue was bound
    /// meanwhile.
    Unrouted,
    /// It is in no queue: the broker refused it, or it never left, since its channel was being closed. Publish it again.
    Again,
    /// Nobody can say whether the broker has it. Publish it again under the same message id, by which a consumer knows a second
    /// copy.
    AgainWithId,
    /// It left before the channel asked for confirms, so nothing will be said of it.
    Unasked,
}

/// What to do about a publish that has this outcome.
pub fn advice_on(outcome: &Result<Confirmation, Error>) -> Advice
    ensures { result ≡ advised outcome.now }
{
    match outcome {
        Ok(Confirmation::Ack(None)) => Advice::Done,
        Ok(Confirmation::Ack(Some(_))) => Advice::Unrouted,
        Ok(Confirmation::Nack(_)) => Advice::Again,
        Ok(Confirmation::NotRequested) => Advice::Unasked,
        Err(Error::InvalidChannelState(ChannelState::Closing)) => Advice::Again,
        Err(_) => Advice::AgainWithId,
    }
}
