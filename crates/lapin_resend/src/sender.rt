//! A publisher that sends again, step by step: what a step does and reports, and which messages are stored.

ghost use Rattle.std.specs.Prelude.{◌≡◌, ◌↔◌, ◌≤◌, ◌<◌, ◌+◌, ◌++◌, ◌∷◌, [], ℕ, List, map, slice_set, vec_len, vec_capacity, Err, true, IfOk, OnOk, OnErr};
ghost use Rattle.std.specs.List.{filter};
ghost use Rattle.lapin_resend.specs.declared.step.ResendStep.{ResendStep as AStep};
ghost use Rattle.lapin_resend.specs.Resend.{resend, publisher_after, stored_in, whether_stored};
ghost use Rattle.lapin_resend.specs.Follows.{entry_of, is_kept};
ghost use Rattle.lapin_resend.specs.Keeping.{noted, with_new, is_submit as is_submit_lem};
ghost use Rattle.lapin_resend.specs.Sending.{StandsForSteps, most_steps};

use crate::message::Submitted;
use crate::publisher::Publisher;
use crate::step::{ResendReport, ResendStep};
use lapin_joint::Joined;
use lapin_types::{NoMemory, RunError};
use std::alloc::Global;
use std::marker::Model;

/// A publisher over a run of joined runs. It stands for the list of its steps.
pub struct Resend {
    frame_max: u32,
    publisher: Publisher,
    // Whether each message is stored, after the last step that was made.
    known: Vec<bool>,
    steps: u64,
    stopped: bool,
}

impl Drop for Resend {
    fn drop(self) {
        let Resend {
            frame_max: _,
            publisher: _,
            known: _,
            steps: _,
            stopped: _,
        } = self;
    }
}

impl Model for Resend {
    ghost use Rattle.lapin_resend.specs.Sending.{Sending, IsKept};
    ghost use Rattle.lapin_resend.specs.Codes.{sending_code};

    ghost Value = { Sending };

    ghost coded = { sending_code };

    ghost view = { λ a. record { frame_max = a.frame_max; publisher = a.publisher; known = a.known.items; steps = a.steps; stopped = a.stopped } };

    ghost invariant = { λ a. IsKept (record { frame_max = a.frame_max; publisher = a.publisher; known = a.known.items; steps = a.steps; stopped = a.stopped }) };
}

impl Resend {
    /// A publisher without a message; it opens its channel at once. `frame_max` is the greatest size of a frame in bytes.
    ///
    /// # Errors
    /// `NoMemory` alone.
    pub fn new(alloc: Global, frame_max: u32) -> Result<Resend, NoMemory>
        requires { 4096 ≤ frame_max }
        ensures { IfOk result (λ made. StandsForSteps frame_max [] made) }
    {
        let mut publisher = Publisher {
            joined: Joined::new(alloc, frame_max)?,
            messages: Vec::new(alloc),
            selects: false,
        };
        publisher.tend(alloc)?;
        Ok(Resend {
            frame_max,
            publisher,
            known: Vec::new(alloc),
            steps: 0,
            stopped: false,
        })
    }

    /// Makes a step, and tells its report.
    ///
    /// # Errors
    /// `NoMemory` where there is none; the publisher is then stopped, and stands for the steps before. `Stopped` exactly where an
    /// earlier step found no memory.
    pub fn step(&mut self, alloc: Global, step: ResendStep) -> Result<ResendReport, RunError>
        requires { self.old.steps < most_steps }
        ensures stopped { (result ≡ Err RunError.Stopped) ↔ (self.old.stopped ≡ true) }
        ensures counted { OnOk result (self.new.steps ≡ self.old.steps + 1) }
        ensures err { OnErr result ((self.new.stopped ≡ true) × (self.new.steps ≡ self.old.steps)) }

        // In the words of a list of steps: the last report of the longer list, for which it then stands.
        ensures told { IfOk result (λ r. (n : ℕ) (steps : List AStep) → StandsForSteps n steps self.old →
            (resend n (steps ++ step ∷ []) ≡ resend n steps ++ r ∷ []) × StandsForSteps n (steps ++ step ∷ []) self.new) }
    {
        if self.stopped {
            drop(step);
            return Err(RunError::Stopped);
        }
        if self.known.reserve(1).is_err() {
            drop(step);
            self.stopped = true;
            return Err(RunError::NoMemory);
        }
        let submits = is_submit(&step);
        match self
            .publisher
            .make(alloc, self.frame_max, step, &self.known)
        {
            Ok(report) => {
                note(&mut self.known, &mut self.publisher.messages, submits);
                self.steps += 1;
                Ok(report)
            }
            Err(_) => {
                self.stopped = true;
                Err(RunError::NoMemory)
            }
        }
    }

    /// Whether a message is stored; `None` where its number was never given. After a want of memory it speaks of the steps before.
    pub fn stored(&self, message: u64) -> Option<bool>
        ensures known { result ≡ whether_stored message self.now.known }

        // In the words of the list of its steps.
        ensures stored { (n : ℕ) (steps : List AStep) → StandsForSteps n steps self.now → result ≡ stored_in message (publisher_after n steps).messages }
    {
        if message == 0 {
            return None;
        }
        self.known.get((message - 1) as usize).copied()
    }

    /// Whether a step found no memory.
    pub fn stopped(&self) -> bool
        ensures { result ≡ self.now.stopped }
    {
        self.stopped
    }

    /// How many steps were made.
    pub fn steps(&self) -> u64
        ensures { result ≡ self.now.steps }
    {
        self.steps
    }
}

// Whether a step submits a message.
fn is_submit(step: &ResendStep) -> bool
    ensures { result ≡ is_submit_lem step.now }
{
    matches!(step, ResendStep::Submit(_))
}

// What was stored by the step is known from now on, and is kept no more. A message that was submitted is new.
fn note(known: &mut Vec<bool>, messages: &mut Vec<Submitted>, submits: bool)
    requires { vec_len known.old < vec_capacity known.old }
    ensures known { known.new.items ≡ noted (map entry_of messages.old.items) (with_new submits known.old.items) }
    ensures messages { messages.new.items ≡ filter is_kept messages.old.items }
{
    if submits {
        known.push_reserved(false);
    }
    note_all(known, messages);
    messages.retain(|submitted| !submitted.stored);
}

// Of each of these messages it is noted whether it is stored.
fn note_all(known: &mut Vec<bool>, messages: &[Submitted])
    ensures { known.new.items ≡ noted (map entry_of messages.now) known.old.items }
{
    for submitted in messages {
        note_one(known, submitted.place, submitted.stored);
    }
}

// The same of the message at a place, if it has one.
fn note_one(known: &mut Vec<bool>, place: usize, stored: bool)
    ensures { known.new.items ≡ slice_set known.old.items place stored }
{
    if place < known.len() {
        known[place] = stored;
    }
}
