//! What became of messages and was not told yet, as runs of numbers.

ghost use Rattle.std.specs.Prelude.{◌≡◌, ◌++◌, ◌∷◌, [], ◌<◌, ◌≤◌, ◌+◌, IfSome};
ghost use Rattle.std.specs.VecDeque.{deque_len, deque_capacity};
ghost use Rattle.lapin_keeping.specs.Runs.{told, of_run};

use crate::fate::Fate;
use std::collections::VecDeque;

/// The fate of so many messages, from this number on.
#[derive(Clone, Copy, Debug, PartialEq, Eq)]
pub struct Run {
    pub first: u64,
    pub count: u64,
    pub fate: Fate,
}

impl Run {
    // One message.
    #[tactic(auto, using(crate::proofs::Told::one_told))]
    fn one(number: u64, fate: Fate) -> Run
        ensures { of_run result ≡ (number, fate) ∷ [] }
    {
        Run {
            first: number,
            count: 1,
            fate,
        }
    }

    // The run with one message more, where it goes on by it.
    fn with(self, number: u64, fate: Fate) -> Option<Run>
        ensures { IfSome result (λ longer. of_run longer ≡ of_run self ++ (number, fate) ∷ []) }
    {
        if self.fate == fate {
            self.longer(number)
        } else {
            None
        }
    }

    // The run with one message more, where its number is the next.
    fn longer(self, number: u64) -> Option<Run>
        ensures { IfSome result (λ longer. of_run longer ≡ of_run self ++ (number, self.fate) ∷ []) }
    {
        if self.first <= number && number - self.first == self.count && self.count < u64::MAX {
            Some(Run {
                first: self.first,
                count: self.count + 1,
                fate: self.fate,
            })
        } else {
            None
        }
    }
}

/// Adds the fate of a message, to the last run where it goes on by it.
#[tactic(auto, using(crate::proofs::Told::pushed_told))]
pub(crate) fn add(runs: &mut VecDeque<Run>, number: u64, fate: Fate)
    requires { deque_len runs.old < deque_capacity runs.old }
    ensures told { told runs.new.items ≡ told runs.old.items ++ (number, fate) ∷ [] }
    ensures len { deque_len runs.new ≤ deque_len runs.old + 1 }
    ensures capacity { deque_capacity runs.new ≡ deque_capacity runs.old }
{
    match runs.pop_back() {
        Some(run) => add_behind(runs, run, number, fate),
        None => runs.push_back_reserved(Run::one(number, fate)),
    }
}

// Puts a run back, with the fate of a message more.
#[tactic(auto, using(crate::proofs::Told::replaced_told, crate::proofs::Told::twice_told))]
fn add_behind(runs: &mut VecDeque<Run>, run: Run, number: u64, fate: Fate)
    requires { deque_len runs.old + 1 < deque_capacity runs.old }
    ensures told { told runs.new.items ≡ told (runs.old.items ++ run ∷ []) ++ (number, fate) ∷ [] }
    ensures len { deque_len runs.new ≤ deque_len runs.old + 2 }
    ensures capacity { deque_capacity runs.new ≡ deque_capacity runs.old }
{
    match run.with(number, fate) {
        Some(longer) => runs.push_back_reserved(longer),
        None => {
            runs.push_back_reserved(run);
            runs.push_back_reserved(Run::one(number, fate));
        }
    }
}
