//! Calls over queues, step by step: what one answers, what they stand for, and when they stop.

ghost use Rattle.std.specs.Prelude.{◌≡◌, ◌↔◌, ◌≤◌, ◌+◌, ◌++◌, ◌∷◌, [], ℕ, List, None, Err, true, false, IfOk, OnOk, OnErr};
ghost use Rattle.lapin_machine.specs.Numbers.{HasNumbersFor};
ghost use Rattle.lapin_machine.specs.World.{new_world};
ghost use Rattle.lapin_call.specs.declared.step.CallStep.{CallStep as AStep};
ghost use Rattle.lapin_machine.specs.Way.{by_machine};
ghost use Rattle.lapin_call.specs.Calls.{new_requester, report, after, calls};
ghost use Rattle.lapin_call.specs.CallRun.{StandsFor};

use crate::requester::Requester;
use crate::step::{CallReport, CallStep};
use lapin_types::{Event, NoMemory, RunError, ShortString};
use std::alloc::Global;
use std::marker::Model;

// So many steps can't be made in anybody's time: two numbers of each counter are left for each of them.
const MOST_STEPS: u64 = 1 << 62;

/// A new session whose channel 1 publishes requests and consumes their replies from a queue. It stands for the list of its steps.
pub struct Calls {
    requester: Requester,
    steps: u64,
    stopped: bool,
}

impl Drop for Calls {
    fn drop(self) {
        let Calls {
            requester: _,
            steps: _,
            stopped: _,
        } = self;
    }
}

impl Model for Calls {
    ghost use Rattle.lapin_call.specs.CallRun.{CallRun, IsKept};
    ghost use Rattle.lapin_call.specs.Codes.{kept_code};

    ghost Value = { CallRun };

    ghost coded = { kept_code };

    ghost view = { λ a. record { requester = a.requester; steps = a.steps; stopped = a.stopped } };

    ghost invariant = { λ a. IsKept a.stopped a.steps a.requester.session };
}

impl Calls {
    /// A new session that was asked for its channel 1. `frame_max` is the greatest size of a frame in bytes (AMQP 0-9-1, section
    /// 4.2.3), `queue` the queue of the replies.
    ///
    /// # Errors
    /// `NoMemory` alone.
    pub fn new(alloc: Global, frame_max: u32, queue: ShortString) -> Result<Calls, NoMemory>
        requires { 4096 ≤ frame_max }
        ensures made { IfOk result (λ made. made ≡ record { requester = new_requester by_machine (new_world frame_max) queue; steps = 0; stopped = false }) }

        // They stand for no steps.
        ensures stands { IfOk result (λ made. StandsFor frame_max queue [] made) }
    {
        Ok(Calls {
            requester: Requester::new(alloc, frame_max, queue)?,
            steps: 0,
            stopped: false,
        })
    }

    /// Makes a step, and tells its report.
    ///
    /// # Errors
    /// `NoMemory` where there is none, and where 2^62 steps were made; the calls are then stopped, and stand for the steps before this
    /// one. `Stopped` exactly where an earlier step found no memory. No step runs out of numbers, since none uses more than two of a
    /// counter.
    pub fn step(&mut self, alloc: Global, step: CallStep) -> Result<CallReport, RunError>
        ensures told { IfOk result (λ r. r ≡ report by_machine step self.old.requester) }
        ensures ok { OnOk result (self.new ≡ record { requester = after by_machine step self.old.requester; steps = self.old.steps + 1; stopped = false }) }
        ensures stopped { (result ≡ Err RunError.Stopped) ↔ (self.old.stopped ≡ true) }
        ensures err { OnErr result ((self.new.stopped ≡ true) × (self.new.steps ≡ self.old.steps)) }

        // In the words of a list of steps: the last report of the longer list, for which they then stand.
        ensures stands { IfOk result (λ r. (frame_max : ℕ) (queue : List ℕ) (steps : List AStep) → StandsFor frame_max queue steps self.old →
            (calls frame_max queue (steps ++ step ∷ []) ≡ calls frame_max queue steps ++ r ∷ []) × StandsFor frame_max queue (steps ++ step ∷ []) self.new) }

        // A step that fails changes nothing of what they stand for.
        ensures stays { OnErr result ((frame_max : ℕ) (queue : List ℕ) (steps : List AStep) → StandsFor frame_max queue steps self.old → StandsFor frame_max queue steps self.new) }
    {
        self.step_machine(alloc, step)
    }

    fn step_machine(&mut self, alloc: Global, step: CallStep) -> Result<CallReport, RunError>
        ensures told { IfOk result (λ r. r ≡ report by_machine step self.old.requester) }
        ensures ok { OnOk result (self.new ≡ record { requester = after by_machine step self.old.requester; steps = self.old.steps + 1; stopped = false }) }
        ensures running { OnOk result (self.old.stopped ≡ false) }
        ensures unreturned { OnOk result (self.old.requester.session.returned ≡ None) }
        ensures stopped { (result ≡ Err RunError.Stopped) ↔ (self.old.stopped ≡ true) }
        ensures err { OnErr result ((self.new.stopped ≡ true) × (self.new.steps ≡ self.old.steps)) }
    {
        if self.stopped {
            drop(step);
            return Err(RunError::Stopped);
        }
        if self.steps >= MOST_STEPS {
            self.stopped = true;
            drop(step);
            return Err(RunError::NoMemory);
        }
        match make(alloc, &mut self.requester, step) {
            Ok(reported) => {
                self.steps += 1;
                Ok(reported)
            }
            Err(_) => {
                self.stopped = true;
                Err(RunError::NoMemory)
            }
        }
    }

    /// Whether a step found no memory.
    pub fn stopped(&self) -> bool
        ensures { result ≡ self.now.stopped }
    {
        self.stopped
    }

    /// How many steps were made, without one that found no memory and those after it.
    pub fn steps(&self) -> u64
        ensures { result ≡ self.now.steps }
    {
        self.steps
    }
}

// Each kind of step has a method of the requester.
fn make(alloc: Global, requester: &mut Requester, step: CallStep) -> Result<CallReport, NoMemory>
    requires numbers { HasNumbersFor 2 requester.old.session }
    ensures told { IfOk result (λ r. r ≡ report by_machine step requester.old) }
    ensures ok { OnOk result (requester.new ≡ after by_machine step requester.old) }
{
    match step {
        CallStep::Next(flow) => requester.meet(alloc, Event::Next(flow)),
        CallStep::Receive(frame) => requester.meet(alloc, Event::Receive(frame)),
        CallStep::Lost => requester.meet(alloc, Event::Lost),
        CallStep::Ask {
            exchange,
            routing_key,
            payload,
        } => requester.ask(alloc, exchange, routing_key, payload),
        CallStep::Collect => requester.collect(),
        CallStep::Take(number) => Ok(requester.take(number)),
    }
}
