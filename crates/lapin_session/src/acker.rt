//! The calls of a message's acker.
//!
//! Nothing is kept here but the `used` of an acker without a number; which ackers of a session are usable stands in the machine below.

ghost use Rattle.lapin_types.specs.declared.acker_call.AckerCall.TheVariants as acker_call;
ghost use Rattle.std.specs.Prelude.{◌≡◌};
ghost use Rattle.lapin_session.specs.Acking.{IsAcked, is_poisoned, is_usable, mock_answer, used_up};

use lapin_machine::{Session, Ticket};
use lapin_types::{Acker, AckerCall, BasicAckOptions, BasicNackOptions, BasicRejectOptions, Error};
use std::alloc::Global;

/// What a call of an acker answers.
#[derive(Debug, Drop)]
pub enum Acked {
    /// The call was made; its ticket answers yes as the frame leaves.
    Ticket(Ticket),
    /// The acker has no number and was not used before.
    Yes,
    /// The acker is not usable.
    No,
}

/// The calls of a message's acker on the session that gave the message. An acker is used up by its first call (AMQP 0-9-1,
/// `basic.ack` and `basic.reject`; RabbitMQ, `basic.nack`). One with the number 0, of a mock or of a returned message, asks nothing of
/// the session: its first call answers yes and sets `used`, and where `used` is set the answer is no. Another one is the session's
/// `acker_call` on its number, and its `used` stays as it is.
pub trait AckerCalls {
    ghost use Rattle.lapin_types.specs.declared.acker.Acker.{Acker};

    /// The acker.
    ghost acker: { Self → Acker };

    /// Acknowledges the message, with `multiple` all up to it.
    ///
    /// # Errors
    /// Of an acker with a number: `InvalidChannelState` where its channel is closing, and the acker is then used up; `NumbersUsedUp`
    /// where the next ticket would pass the greatest `u64`, and `NoMemory`: nothing changes then.
    fn ack(
        &mut self,
        alloc: Global,
        session: &mut Session,
        options: BasicAckOptions,
    ) -> Result<Acked, Error>
        ensures { IsAcked (acker self.old).number (acker_call.Ack options) (acker self.old) (acker self.new) result session.old session.new };

    /// Gives the message back, with `multiple` all up to it.
    ///
    /// # Errors
    /// As `ack`.
    fn nack(
        &mut self,
        alloc: Global,
        session: &mut Session,
        options: BasicNackOptions,
    ) -> Result<Acked, Error>
        ensures { IsAcked (acker self.old).number (acker_call.Nack options) (acker self.old) (acker self.new) result session.old session.new };

    /// Gives the message back.
    ///
    /// # Errors
    /// As `ack`.
    fn reject(
        &mut self,
        alloc: Global,
        session: &mut Session,
        options: BasicRejectOptions,
    ) -> Result<Acked, Error>
        ensures { IsAcked (acker self.old).number (acker_call.Reject options) (acker self.old) (acker self.new) result session.old session.new };

    /// Whether the opening of the acker's channel ended. It is false of an acker without a number, and of a number that the session
    /// never gave.
    fn poisoned(&self, session: &Session) -> bool
        ensures { result ≡ is_poisoned (acker self.now) session.now.wire.deliveries.switches };

    /// Whether a call would be made: the opening of the acker's channel is live, and the acker is neither used nor void. Of an acker
    /// without a number it is whether `used` is not set; of a number that the session never gave it is false.
    fn usable(&self, session: &Session) -> bool
        ensures { result ≡ is_usable (acker self.now) session.now.wire.deliveries.switches };
}

impl AckerCalls for Acker {
    ghost acker = { λ a. a };

    fn ack(
        &mut self,
        alloc: Global,
        session: &mut Session,
        options: BasicAckOptions,
    ) -> Result<Acked, Error> {
        call_acker(self, alloc, session, AckerCall::Ack(options))
    }

    fn nack(
        &mut self,
        alloc: Global,
        session: &mut Session,
        options: BasicNackOptions,
    ) -> Result<Acked, Error> {
        call_acker(self, alloc, session, AckerCall::Nack(options))
    }

    fn reject(
        &mut self,
        alloc: Global,
        session: &mut Session,
        options: BasicRejectOptions,
    ) -> Result<Acked, Error> {
        call_acker(self, alloc, session, AckerCall::Reject(options))
    }

    fn poisoned(&self, session: &Session) -> bool {
        session.switches().ended(self.number)
    }

    fn usable(&self, session: &Session) -> bool {
        if self.number == 0 {
            !self.used
        } else {
            session.switches().usable(self.number)
        }
    }
}

// A call of an acker: without a number by its own `used`, else the session's.
fn call_acker(
    acker: &mut Acker,
    alloc: Global,
    session: &mut Session,
    call: AckerCall,
) -> Result<Acked, Error>
    ensures { IsAcked acker.old.number call acker.old acker.new result session.old session.new }
{
    if acker.number == 0 {
        return Ok(use_mock(acker));
    }
    match session.acker_call(alloc, acker.number, call) {
        Ok(Some(ticket)) => Ok(Acked::Ticket(ticket)),
        Ok(None) => Ok(Acked::No),
        Err(error) => Err(error),
    }
}

// The call of an acker without a number.
fn use_mock(acker: &mut Acker) -> Acked
    ensures answer { result ≡ mock_answer acker.old.used }
    ensures used { acker.new ≡ used_up acker.old }
{
    if acker.used {
        return Acked::No;
    }
    acker.used = true;
    Acked::Yes
}
