//! What a step does with the publisher, and what it reports: the step by itself, and then the publisher tends its channel.

ghost use Rattle.std.specs.Prelude.{◌≡◌, ◌+◌, ◌<◌, ◌≤◌, ◌^◌, false, ℕ, Bool, List, map, length, IfOk, OnOk};
ghost use Rattle.lapin_joint.specs.declared.step.Step.TheVariants as joined_step;
ghost use Rattle.lapin_resend.specs.declared.step.ResendStep.TheVariants as step_;
ghost use Rattle.lapin_resend.specs.Publisher.{Publisher as APublisher};
ghost use Rattle.lapin_resend.specs.Resend.{begun, with_step, after_loss, after_step, report_of, joined_report, whether_stored};
ghost use Rattle.lapin_resend.specs.Messages.{forgotten};
ghost use Rattle.lapin_resend.specs.Follows.{standing, place as place_lem};
ghost use Rattle.lapin_resend.specs.Keeping.{FollowsBut, Knows, known_report};

use crate::message::{Message, Submitted};
use crate::publisher::Publisher;
use crate::step::{ResendReport, ResendStep};
use lapin_joint::{Joined, Step};
use lapin_types::{Event, NoMemory};
use std::alloc::Global;

impl Publisher {
    /// Makes a step, and then tends the channel. It is known of each message whether it was stored before the step.
    pub(crate) fn make(
        &mut self,
        alloc: Global,
        frame_max: u32,
        step: ResendStep,
        known: &[bool],
    ) -> Result<ResendReport, NoMemory>
        requires max { 4096 ≤ frame_max }
        requires steps { self.old.joined.steps + (length self.old.messages.items + length self.old.messages.items + 5) < 2 ^ 64 }
        requires count { length known.now + 1 < 2 ^ 64 }
        ensures told { IfOk result (λ r. (p : APublisher) → Knows frame_max known.now p self.old → r ≡ report_of frame_max step p) }
        ensures goes { OnOk result ((p : APublisher) → Knows frame_max known.now p self.old → FollowsBut frame_max known.now (after_step frame_max step p) self.new) }
        ensures steps { OnOk result (self.new.joined.steps ≤ self.old.joined.steps + (length self.old.messages.items + length self.old.messages.items + 5)) }
        ensures len { OnOk result (length self.new.messages.items ≤ length self.old.messages.items + 1) }
    {
        let report = self.begin(alloc, frame_max, step, known)?;
        match self.tend(alloc) {
            Ok(()) => Ok(report),
            Err(error) => {
                drop(report);
                Err(error)
            }
        }
    }

    // What a step does by itself.
    fn begin(
        &mut self,
        alloc: Global,
        frame_max: u32,
        step: ResendStep,
        known: &[bool],
    ) -> Result<ResendReport, NoMemory>
        requires max { 4096 ≤ frame_max }
        requires steps { self.old.joined.steps + 1 < 2 ^ 64 }
        requires count { length known.now + 1 < 2 ^ 64 }
        ensures told { IfOk result (λ r. (p : APublisher) → Knows frame_max known.now p self.old → r ≡ report_of frame_max step p) }
        ensures goes { OnOk result ((p : APublisher) → Knows frame_max known.now p self.old → FollowsBut frame_max known.now (begun step p) self.new) }
        ensures steps { OnOk result (self.new.joined.steps ≤ self.old.joined.steps + 1) }
        ensures len { OnOk result (length self.new.messages.items ≤ length self.old.messages.items + 1) }
    {
        match step {
            ResendStep::Submit(message) => self.submit(message, known),
            ResendStep::Next => self.joined_step(alloc, Step::Client(Event::Next(true))),
            ResendStep::Read => self.joined_step(alloc, Step::Read),
            ResendStep::Send(frame) => self.joined_step(alloc, Step::Send(frame)),
            ResendStep::Deliver => self.joined_step(alloc, Step::Deliver),
            ResendStep::Lose => self.lose(alloc, frame_max),
            ResendStep::Status(message) => Ok(status(message, known)),
        }
    }

    // A message takes the next number.
    fn submit(&mut self, message: Message, known: &[bool]) -> Result<ResendReport, NoMemory>
        requires { length known.now + 1 < 2 ^ 64 }
        ensures told { IfOk result (λ r. (n : ℕ) (p : APublisher) → Knows n known.now p self.old → r ≡ report_of n (step_.Submit message) p) }
        ensures goes { OnOk result ((n : ℕ) (p : APublisher) → Knows n known.now p self.old → FollowsBut n known.now (begun (step_.Submit message) p) self.new) }
        ensures same { OnOk result (self.new.joined ≡ self.old.joined) }
        ensures len { OnOk result (length self.new.messages.items ≡ length self.old.messages.items + 1) }
    {
        let place = known.len();
        self.messages.push(Submitted {
            place,
            message,
            stored: false,
            outstanding: None,
        })?;
        Ok(ResendReport::Message(place as u64 + 1))
    }

    // A step of the joined run.
    fn joined_step(&mut self, alloc: Global, step: Step) -> Result<ResendReport, NoMemory>
        requires { self.old.joined.steps + 1 < 2 ^ 64 }
        ensures told { IfOk result (λ r. (n : ℕ) (known : List Bool) (p : APublisher) → Knows n known p self.old → r ≡ joined_report n step p) }
        ensures goes { OnOk result ((n : ℕ) (known : List Bool) (p : APublisher) → FollowsBut n known p self.old → FollowsBut n known (with_step step p) self.new) }
        ensures steps { OnOk result (self.new.joined.steps ≡ self.old.joined.steps + 1) }
        ensures same { OnOk result (self.new.messages ≡ self.old.messages) }
    {
        match self.joined.step(alloc, step) {
            Ok(report) => Ok(ResendReport::Joined(report)),
            Err(_) => Err(NoMemory),
        }
    }

    // The joined run is lost, and a new one begins.
    fn lose(&mut self, alloc: Global, frame_max: u32) -> Result<ResendReport, NoMemory>
        requires max { 4096 ≤ frame_max }
        requires steps { self.old.joined.steps + 1 < 2 ^ 64 }
        ensures told { IfOk result (λ r. (known : List Bool) (p : APublisher) → Knows frame_max known p self.old → r ≡ joined_report frame_max joined_step.Lose p) }
        ensures goes { OnOk result ((known : List Bool) (p : APublisher) → FollowsBut frame_max known p self.old → FollowsBut frame_max known (after_loss p) self.new) }
        ensures steps { OnOk result (self.new.joined.steps ≤ self.old.joined.steps + 1) }
        ensures len { OnOk result (length self.new.messages.items ≡ length self.old.messages.items) }
    {
        let report = self.joined_step(alloc, Step::Lose)?;
        match Joined::new(alloc, frame_max) {
            Ok(joined) => {
                self.begin_anew(joined);
                Ok(report)
            }
            Err(error) => {
                drop(report);
                Err(error)
            }
        }
    }

    // Another joined run is the present one, and every outstanding publish is forgotten.
    fn begin_anew(&mut self, joined: Joined)
        ensures joined { self.new.joined ≡ joined }
        ensures selects { self.new.selects ≡ false }
        ensures messages { map standing self.new.messages.items ≡ map forgotten (map standing self.old.messages.items) }
        ensures places { map place_lem self.new.messages.items ≡ map place_lem self.old.messages.items }
        ensures len { length self.new.messages.items ≡ length self.old.messages.items }
    {
        self.joined = joined;
        self.selects = false;
        forget_all(&mut self.messages);
    }
}

// The state of a message, where this is known of each.
fn status(number: u64, known: &[bool]) -> ResendReport
    ensures { result ≡ known_report (whether_stored number known.now) }
{
    if number == 0 {
        return ResendReport::Unknown;
    }
    match known.get((number - 1) as usize) {
        Some(true) => ResendReport::Stored,
        Some(false) => ResendReport::Waiting,
        None => ResendReport::Unknown,
    }
}

// Every outstanding publish is forgotten.
fn forget_all(messages: &mut Vec<Submitted>)
    ensures messages { map standing messages.new.items ≡ map forgotten (map standing messages.old.items) }
    ensures places { map place_lem messages.new.items ≡ map place_lem messages.old.items }
    ensures len { length messages.new.items ≡ length messages.old.items }
{
    for submitted in messages.iter_mut() {
        submitted.forget();
    }
}
