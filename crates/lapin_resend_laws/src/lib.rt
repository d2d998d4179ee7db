//! What the confirms of a publisher that sends again mean, over every list of its steps. Laws alone stand here.
#![tactic(auto)]

ghost use Rattle.std.specs.Prelude.{◌≤◌, ℕ, List};
ghost use Rattle.std.specs.List.{AllByRecursion};
ghost use Rattle.lapin_resend.specs.declared.step.ResendStep.{ResendStep as AStep};
ghost use Rattle.lapin_resend.specs.Resend.{publisher_after, runs_of};
ghost use Rattle.lapin_resend_laws.specs.Confirms.{NoneIsNotRequested};
ghost use Rattle.lapin_resend_laws.specs.Stored.{IsTruly};

use lapin_verdicts::a_confirm_is_a_verdict;

/// In none of the joined runs of a publisher that sends again, whatever its steps, is a confirm resolved as not requested: each publish
/// leaves after its opening's `confirm.select`.
pub fn no_confirm_is_not_requested()
    ensures { (frame_max : ℕ) (steps : List AStep) → AllByRecursion (NoneIsNotRequested frame_max) (runs_of (publisher_after frame_max steps)) }
{}

/// A message that is stored was read whole, as number t of an opening, by the broker of one of the joined runs, with its exchange, key and
/// payload, and that broker's first settlement covering t was an ack sent after that.
pub fn a_stored_message_was_acked()
    ensures { (frame_max : ℕ) → 4096 ≤ frame_max → (steps : List AStep) → AllByRecursion (IsTruly frame_max (runs_of (publisher_after frame_max steps))) (publisher_after frame_max steps).messages }
{
    a_confirm_is_a_verdict();
}
