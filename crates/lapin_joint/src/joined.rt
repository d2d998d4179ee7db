//! A joined run, step by step: what one answers, what it stands for, and when it stops.

ghost use Rattle.std.specs.Prelude.{◌≡◌, ◌↔◌, ◌≤◌, ◌<◌, ◌+◌, ◌^◌, ◌++◌, ◌∷◌, [], ℕ, List, None, Err, true, false, IfOk, OnOk, OnErr};
ghost use Rattle.lapin_machine.specs.World.{new_world};
ghost use Rattle.lapin_joint.specs.declared.step.Step.{Step as AStep};
ghost use Rattle.std.specs.Option.{option_copied};
ghost use Rattle.lapin_joint.specs.Joint.{new_joint, report, after, joined, front_frame};
ghost use Rattle.lapin_machine.specs.Way.{by_machine};
ghost use Rattle.lapin_joint.specs.JoinedRun.{StandsFor};

use crate::links::Links;
use crate::step::{Reported, Step};
use lapin_broker::Broker;
use lapin_machine::Session;
use lapin_types::{Frame, NoMemory, RunError};
use std::alloc::Global;
use std::marker::Model;

/// A new session and a new free broker, joined by two links that keep order and lose nothing but at `Lose`. It stands for the list of
/// its steps.
pub struct Joined {
    links: Links,
    steps: u64,
    stopped: bool,
}

impl Drop for Joined {
    fn drop(self) {
        let Joined {
            links: _,
            steps: _,
            stopped: _,
        } = self;
    }
}

impl Model for Joined {
    ghost use Rattle.lapin_joint.specs.JoinedRun.{JoinedRun, IsKept};
    ghost use Rattle.lapin_joint.specs.Codes.{kept_code};

    ghost Value = { JoinedRun };

    ghost coded = { kept_code };

    ghost view = { λ a. record { joint = a.links; steps = a.steps; stopped = a.stopped } };

    ghost invariant = { λ a. IsKept a.stopped a.steps a.links.session };
}

impl Joined {
    /// A new session, a new broker and two empty links. `frame_max` is the greatest size of a frame in bytes (AMQP 0-9-1, section
    /// 4.2.3).
    ///
    /// # Errors
    /// `NoMemory` alone.
    pub fn new(alloc: Global, frame_max: u32) -> Result<Joined, NoMemory>
        requires { 4096 ≤ frame_max }
        ensures made { IfOk result (λ made. made ≡ record { joint = new_joint (new_world frame_max) frame_max; steps = 0; stopped = false }) }

        // It stands for no steps.
        ensures stands { IfOk result (λ made. StandsFor frame_max [] made) }
    {
        Ok(Joined {
            links: Links::new(alloc, frame_max)?,
            steps: 0,
            stopped: false,
        })
    }

    /// Makes a step, and tells its report.
    ///
    /// # Errors
    /// `NoMemory` where there is none; the run is then stopped, it stands for the steps before this one, and nothing more is said of
    /// its session and broker. `Stopped` exactly where an earlier step found no memory. No step runs out of numbers, since none uses
    /// more than one of a counter.
    pub fn step(&mut self, alloc: Global, step: Step) -> Result<Reported, RunError>
        requires { self.old.steps + 1 < 2 ^ 64 }
        ensures told { IfOk result (λ r. r ≡ report by_machine step self.old.joint) }
        ensures ok { OnOk result (self.new ≡ record { joint = after by_machine step self.old.joint; steps = self.old.steps + 1; stopped = false }) }
        ensures stopped { (result ≡ Err RunError.Stopped) ↔ (self.old.stopped ≡ true) }
        ensures err { OnErr result ((self.new.stopped ≡ true) × (self.new.steps ≡ self.old.steps)) }

        // In the words of a list of steps: the last report of the longer list, for which it then stands.
        ensures stands { IfOk result (λ r. (frame_max : ℕ) (steps : List AStep) → StandsFor frame_max steps self.old →
            (joined frame_max (steps ++ step ∷ []) ≡ joined frame_max steps ++ r ∷ []) × StandsFor frame_max (steps ++ step ∷ []) self.new) }

        // A step that fails changes nothing of what it stands for.
        ensures stays { OnErr result ((frame_max : ℕ) (steps : List AStep) → StandsFor frame_max steps self.old → StandsFor frame_max steps self.new) }
    {
        self.step_machine(alloc, step)
    }

    fn step_machine(&mut self, alloc: Global, step: Step) -> Result<Reported, RunError>
        requires { self.old.steps + 1 < 2 ^ 64 }
        ensures told { IfOk result (λ r. r ≡ report by_machine step self.old.joint) }
        ensures ok { OnOk result (self.new ≡ record { joint = after by_machine step self.old.joint; steps = self.old.steps + 1; stopped = false }) }
        ensures running { OnOk result (self.old.stopped ≡ false) }
        ensures unreturned { OnOk result (self.old.joint.session.returned ≡ None) }
        ensures stopped { (result ≡ Err RunError.Stopped) ↔ (self.old.stopped ≡ true) }
        ensures err { OnErr result ((self.new.stopped ≡ true) × (self.new.steps ≡ self.old.steps)) }
    {
        if self.stopped {
            drop(step);
            return Err(RunError::Stopped);
        }
        match self.links.make(alloc, step) {
            Ok(reported) => {
                self.steps += 1;
                Ok(reported)
            }
            Err(_) => {
                self.stopped = true;
                Err(RunError::NoMemory)
            }
        }
    }

    /// Whether a step found no memory.
    pub fn stopped(&self) -> bool
        ensures { result ≡ self.now.stopped }
    {
        self.stopped
    }

    /// The session.
    pub fn session(&self) -> &Session
        ensures { result.now ≡ self.now.joint.session }
    {
        &self.links.session
    }

    /// The broker.
    pub fn broker(&self) -> &Broker
        ensures { result.now ≡ self.now.joint.broker }
    {
        &self.links.broker
    }

    /// The frame that the broker reads next: the front of the link up, if there is one.
    pub fn next_up(&self) -> Option<&Frame>
        ensures { option_copied result ≡ front_frame self.now.joint.up }
    {
        self.links.next_up()
    }

    /// How many steps were made, without one that found no memory and those after it.
    pub fn steps(&self) -> u64
        ensures { result ≡ self.now.steps }
    {
        self.steps
    }
}
