//! A publisher that never has more than a hundred publishes unconfirmed at the broker: a proof of one's own over a session, to be read and
//! copied.
//!
//! It stands on the laws of `lapin_reached` alone. docs/PROVE_YOUR_OWN.md says how it was made, step by step.
#![tactic(auto)]

ghost use Rattle.std.specs.Prelude.{◌≡◌, ◌≤◌, ◌⊎◌, true, IfOk, OnOk, OnErr};
ghost use Rattle.lapin_types.specs.declared.call.Call.TheVariants as call;
ghost use Rattle.lapin_types.specs.declared.event.Event.TheVariants as event;
ghost use Rattle.lapin_machine.specs.World.{new_world, next};
ghost use Rattle.lapin_reached.specs.Limited.{IsCareful, IsGuarded, MaySelect};
ghost use Rattle.lapin_reached.specs.Reached.{pending_on};
ghost use Rattle.lapin_bounded.specs.Made.{IsMade, limiting, publishing, selecting};

use lapin_machine::{Session, Ticket};
use lapin_reached::a_careful_caller_is_guarded;
use lapin_types::{
    BasicProperties, BasicPublishOptions, Call, ConfirmSelectOptions, Error, Event, Frame,
    NoMemory, Payload, Record, ShortString,
};
use std::alloc::Global;

/// A publisher on channel 1 of a session of its own, which never has more than a hundred tags pending there.
pub struct Publisher {
    session: Session,
    ghost guarded: { IsGuarded 100 1 session },
}

impl Drop for Publisher {
    fn drop(self) {
        let Publisher { session: _ } = self;
    }
}

impl Publisher {
    /// A publisher over a new session.
    pub fn new(alloc: Global) -> Result<Publisher, NoMemory>
        ensures fresh { IfOk result (λ made. made.session ≡ new_world 131072) }
        ensures bound { IfOk result (λ made. pending_on 1 made.session ≤ 100) }
    {
        a_careful_caller_is_guarded();
        let session = Session::new(alloc, 131072)?;
        Ok(Publisher { session })
    }

    /// Opens the channel. Once the broker's `channel.open-ok` came, `select` may be called.
    ///
    /// # Errors
    /// Those of `Session::step`. Nothing changes then.
    pub fn open(&mut self, alloc: Global) -> Result<Record, Error>
        ensures made { IsMade result self.old.session (event.Call 1 call.OpenChannel) self.new.session }
        ensures bound { pending_on 1 self.new.session ≤ 100 }
    {
        self.make(alloc, Event::Call(1, Call::OpenChannel))
    }

    /// Sets the limit of a hundred, and then asks for confirms.
    ///
    /// # Errors
    /// Those of `Session::call` and of `Session::step`. Nothing changes then, or the limit is set alone.
    pub fn select(&mut self, alloc: Global) -> Result<Record, Error>
        ensures ok { OnOk result (self.new.session ≡ next (next self.old.session limiting) selecting) }
        ensures err { OnErr result ((self.new.session ≡ self.old.session) ⊎ (self.new.session ≡ next self.old.session limiting)) }
        ensures bound { pending_on 1 self.new.session ≤ 100 }
    {
        let limited = self.limit(alloc)?;
        drop(limited);
        let options = ConfirmSelectOptions { nowait: false };
        self.make(alloc, Event::Call(1, Call::ConfirmSelect { options }))
    }

    /// Publishes a message. It leaves once fewer than a hundred are unconfirmed.
    ///
    /// # Errors
    /// Those of `Session::step`. Nothing changes then.
    pub fn publish(
        &mut self,
        alloc: Global,
        exchange: ShortString,
        routing_key: ShortString,
        payload: Payload,
        properties: BasicProperties,
    ) -> Result<Record, Error>
        ensures made { IsMade result self.old.session (publishing exchange routing_key payload properties) self.new.session }
        ensures bound { pending_on 1 self.new.session ≤ 100 }
    {
        let options = BasicPublishOptions {
            mandatory: false,
            immediate: false,
        };
        let call = Call::BasicPublish {
            exchange,
            routing_key,
            options,
            payload,
            properties,
        };
        self.make(alloc, Event::Call(1, call))
    }

    /// The next frame to be sent.
    ///
    /// # Errors
    /// Those of `Session::step`. Nothing changes then.
    pub fn next_frame(&mut self, alloc: Global) -> Result<Record, Error>
        ensures made { IsMade result self.old.session (event.Next true) self.new.session }
        ensures bound { pending_on 1 self.new.session ≤ 100 }
    {
        self.make(alloc, Event::Next(true))
    }

    /// A frame of the broker came.
    ///
    /// # Errors
    /// Those of `Session::step`. Nothing changes then.
    pub fn receive(&mut self, alloc: Global, frame: Frame) -> Result<Record, Error>
        ensures made { IsMade result self.old.session (event.Receive frame) self.new.session }
        ensures bound { pending_on 1 self.new.session ≤ 100 }
    {
        self.make(alloc, Event::Receive(frame))
    }

    /// The outcome of a publish, by the number of its confirm.
    ///
    /// # Errors
    /// Those of `Session::step`. Nothing changes then.
    pub fn outcome(&mut self, alloc: Global, confirm: u64) -> Result<Record, Error>
        ensures made { IsMade result self.old.session (event.PollConfirm confirm) self.new.session }
        ensures bound { pending_on 1 self.new.session ≤ 100 }
    {
        self.make(alloc, Event::PollConfirm(confirm))
    }

    // Sets the limit: wherever the channel is open behind it, one is set.
    fn limit(&mut self, alloc: Global) -> Result<Ticket, Error>
        ensures ok { OnOk result (self.new.session ≡ next self.old.session limiting) }
        ensures err { OnErr result (self.new.session ≡ self.old.session) }
        ensures may { OnOk result (MaySelect 100 1 self.new.session) }
        ensures bound { pending_on 1 self.new.session ≤ 100 }
    {
        a_careful_caller_is_guarded();
        self.session
            .call(alloc, 1, Call::ConfirmLimit { limit: 100 })
    }

    // A step that is careful of the channel's limit.
    fn make(&mut self, alloc: Global, event: Event) -> Result<Record, Error>
        requires careful { IsCareful 100 1 self.old.session event }
        ensures made { IsMade result self.old.session event self.new.session }
        ensures bound { pending_on 1 self.new.session ≤ 100 }
    {
        a_careful_caller_is_guarded();
        self.session.step(alloc, event)
    }
}
