//! A publisher, its turns with a session, and how it goes from one session to the next.

ghost use Rattle.std.specs.Prelude.{◌≡◌, ◌+◌, ◌++◌, ◌∷◌, [], true, false, map, length, count_by, ◌&&◌, ◌==◌, IfOk, OnOk, OnErr, MatchOption};
ghost use Rattle.std.specs.Option.{is_some};
ghost use Rattle.lapin_types.specs.declared.call.Call.TheVariants as call;
ghost use Rattle.lapin_rules.specs.Wire.{state_of, is_closed as is_closed_lem, is_open as is_open_lem};
ghost use Rattle.lapin_machine.specs.Numbers.{CallCause};
ghost use Rattle.lapin_keeping.specs.Fates.{begun_anew, waits};
ghost use Rattle.lapin_keeping.specs.Keepings.{new_kept};
ghost use Rattle.lapin_publisher.specs.Causes.{TurnCause};
ghost use Rattle.lapin_publisher.specs.Opening.{opened, selected};
ghost use Rattle.lapin_publisher.specs.Publishes.{Stopped};
ghost use Rattle.lapin_publisher.specs.Turns.{IsTurn, IsTurnInPart, IsLeft, OnlyMessages, published_all};

use crate::polling::poll_all;
use crate::publishing::{aside, publish_all};
use crate::turn::Turn;
use lapin_keeping::{Keeping, Message, Run, Stand};
use lapin_machine::Session;
use lapin_types::{Call, ChannelState, ConfirmSelectOptions, Error, NoMemory};
use std::alloc::Global;
use std::mem::replace;

/// A publisher. It belongs to one session at a time.
#[derive(Drop)]
pub struct Publisher {
    /// The messages.
    pub keeping: Keeping,
    /// Whether the present opening of its channel had a call of `confirm.select`.
    pub selects: bool,
}

impl Publisher {
    /// A publisher without a message.
    pub fn new(alloc: Global) -> Publisher
        ensures lists { (result.keeping.kept.items ≡ []) × ((result.keeping.settled.items ≡ []) × (result.keeping.back.items ≡ [])) }
        ensures handed { (result.keeping.handed ≡ 0) × (result.selects ≡ false) }
    {
        Publisher {
            keeping: Keeping::new(alloc),
            selects: false,
        }
    }

    /// Takes a message, which the broker may fail so often; 0 for ever. Its number, from 1.
    ///
    /// # Errors
    /// `NoMemory` alone. Nothing changes then.
    pub fn hand(&mut self, alloc: Global, message: Message, most: u32) -> Result<u64, NoMemory>
        ensures number { IfOk result (λ n. (n ≡ self.old.keeping.handed + 1) × (self.new.keeping.handed ≡ n)) }
        ensures kept { OnOk result (self.new.keeping.kept.items ≡ self.old.keeping.kept.items ++ new_kept (self.old.keeping.handed + 1) message most ∷ []) }
        ensures err { OnErr result ((self.new.keeping.kept.items ≡ self.old.keeping.kept.items) × (self.new.keeping.handed ≡ self.old.keeping.handed)) }
        ensures others { (self.new.keeping.settled.items ≡ self.old.keeping.settled.items) × ((self.new.keeping.back.items ≡ self.old.keeping.back.items) × (self.new.selects ≡ self.old.selects)) }
    {
        self.keeping.hand(alloc, message, most)
    }

    /// What became of messages and was not told yet: told once.
    pub fn take_settled(&mut self) -> Option<Run>
        ensures settled { MatchOption result ((self.old.keeping.settled.items ≡ []) × (self.new.keeping.settled.items ≡ [])) (λ run. self.old.keeping.settled.items ≡ run ∷ self.new.keeping.settled.items) }
        ensures others { (self.new.keeping.kept.items ≡ self.old.keeping.kept.items) × ((self.new.keeping.back.items ≡ self.old.keeping.back.items) × ((self.new.keeping.handed ≡ self.old.keeping.handed) × (self.new.selects ≡ self.old.selects))) }
    {
        self.keeping.take_settled()
    }

    /// How the messages stand.
    pub fn stand(&self) -> Stand
        ensures all { (result.handed ≡ self.now.keeping.handed) × (result.kept ≡ length self.now.keeping.kept.items) }
        ensures outstanding { result.outstanding ≡ count_by (λ k. is_some k.outstanding) self.now.keeping.kept.items }
        ensures failed { result.failed ≡ count_by (λ k. waits k && k.failed) self.now.keeping.kept.items }
    {
        self.keeping.stand()
    }

    /// Whether no message was handed over yet.
    pub fn is_new(&self) -> bool
        ensures { result ≡ (self.now.keeping.handed == 0) }
    {
        self.keeping.handed == 0
    }

    /// Makes a turn with its session, at most `window` + 2 calls, and sets the ticket of each aside.
    ///
    /// # Errors
    /// `NoMemory`, and `NumbersUsedUp` where the session has no number left. What was done is done.
    pub fn tend(&mut self, alloc: Global, session: &mut Session, turn: Turn) -> Result<(), Error>
        ensures ok { OnOk result (IsTurn turn session.old session.new self.old.keeping self.new.keeping self.old.selects self.new.selects) }
        ensures err { OnErr result (IsTurnInPart turn session.old session.new self.old.keeping self.new.keeping self.old.selects self.new.selects) }
        ensures cause { TurnCause result session.new.wire }
    {
        poll_all(session, &mut self.keeping)?;
        self.open(alloc, session, turn.channel)?;
        self.select(alloc, session, turn.channel)?;
        self.publish(alloc, session, turn)?;
        Ok(())
    }

    // Publishes what waits, where the channel is open and was asked for confirms.
    fn publish(&mut self, alloc: Global, session: &mut Session, turn: Turn) -> Result<(), Error>
        ensures ok { OnOk result ((self.new.keeping.kept.items, session.new) ≡ published_all turn (self.old.selects, session.old) self.old.keeping.kept.items) }
        ensures err { OnErr result (Stopped turn session.old session.new self.old.keeping.kept.items self.new.keeping.kept.items) }
        ensures cause { TurnCause result session.new.wire }
        ensures others { OnlyMessages self.old.keeping self.new.keeping }
        ensures selects { self.new.selects ≡ self.old.selects }
    {
        if self.selects && is_open(session, turn.channel) {
            publish_all(alloc, session, &mut self.keeping.kept, turn)?;
            return Ok(());
        }
        Ok(())
    }

    // Opens the channel where it is closed.
    #[tactic(auto, using(crate::proofs::Causing::open_cause))]
    fn open(&mut self, alloc: Global, session: &mut Session, channel: u16) -> Result<(), Error>
        ensures ok { OnOk result ((self.new.selects, session.new) ≡ opened channel (self.old.selects, session.old)) }
        ensures err { OnErr result ((session.new ≡ session.old) × (self.new.selects ≡ self.old.selects)) }
        ensures only { TurnCause result session.new.wire }
        ensures cause { CallCause result channel call.OpenChannel session.old.wire }
        ensures keeping { self.new.keeping ≡ self.old.keeping }
    {
        if is_closed(session, channel) {
            let ticket = session.open_channel(alloc, channel)?;
            self.selects = false;
            aside(session, ticket);
        }
        Ok(())
    }

    // Selects confirms, without wait, where the channel is open and its opening had no such call.
    #[tactic(auto, using(crate::proofs::Causing::select_cause))]
    fn select(&mut self, alloc: Global, session: &mut Session, channel: u16) -> Result<(), Error>
        ensures ok { OnOk result ((self.new.selects, session.new) ≡ selected channel (self.old.selects, session.old)) }
        ensures err { OnErr result ((session.new ≡ session.old) × (self.new.selects ≡ self.old.selects)) }
        ensures only { TurnCause result session.new.wire }
        ensures cause { CallCause result channel (call.ConfirmSelect (record { nowait = true })) session.old.wire }
        ensures keeping { self.new.keeping ≡ self.old.keeping }
    {
        if !self.selects && is_open(session, channel) {
            let options = ConfirmSelectOptions { nowait: true };
            let ticket = session.call(alloc, channel, Call::ConfirmSelect { options })?;
            aside(session, ticket);
            self.selects = true;
        }
        Ok(())
    }

    /// What this publisher keeps goes to the next session, and a new one is left here. What became of its publishes is asked for once more;
    /// those whose outcome isn't known by then wait again.
    pub fn leave(&mut self, alloc: Global, session: &mut Session) -> Publisher
        ensures left { IsLeft session.old session.new self.old.keeping result.keeping }
        ensures selects { (result.selects ≡ false) × (self.new.selects ≡ false) }
        ensures anew { (self.new.keeping.kept.items ≡ []) × ((self.new.keeping.settled.items ≡ []) × ((self.new.keeping.back.items ≡ []) × (self.new.keeping.handed ≡ 0))) }
    {
        match poll_all(session, &mut self.keeping) {
            Ok(()) => self.begin_anew(alloc),
            // What there was no memory to ask for waits again.
            Err(NoMemory) => self.begin_anew(alloc),
        }
    }

    // What isn't settled waits, and is handed on; a new publisher is left here.
    fn begin_anew(&mut self, alloc: Global) -> Publisher
        ensures kept { result.keeping.kept.items ≡ map begun_anew self.old.keeping.kept.items }
        ensures others { OnlyMessages self.old.keeping result.keeping }
        ensures selects { (result.selects ≡ false) × (self.new.selects ≡ false) }
        ensures anew { (self.new.keeping.kept.items ≡ []) × ((self.new.keeping.settled.items ≡ []) × ((self.new.keeping.back.items ≡ []) × (self.new.keeping.handed ≡ 0))) }
    {
        self.keeping.begin_anew();
        self.selects = false;
        replace(self, Publisher::new(alloc))
    }
}

fn is_closed(session: &Session, channel: u16) -> bool
    ensures { result ≡ is_closed_lem (state_of channel session.now.wire) }
{
    matches!(session.channel_state(channel), ChannelState::Closed)
}

// While the connection isn't open each channel is down.
fn is_open(session: &Session, channel: u16) -> bool
    ensures { result ≡ is_open_lem (state_of channel session.now.wire) }
{
    matches!(session.channel_state(channel), ChannelState::Open)
}
