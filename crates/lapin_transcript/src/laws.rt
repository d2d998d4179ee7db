//! What is found in the transcripts of joined runs, the contract of a function that does nothing.

ghost use Rattle.std.specs.Prelude.{◌≡◌, ◌≤◌, ℕ, List};
ghost use Rattle.lapin_joint.specs.declared.step.Step.{Step as AStep};
ghost use Rattle.lapin_check.specs.Finding.{finding};
ghost use Rattle.lapin_check.specs.declared.finding.Finding.TheVariants as found;
ghost use Rattle.lapin_transcript.specs.Transcript.{transcript};

use lapin_concord::broker_is_never_broken;
use lapin_laws::down_for_good;

/// What the broker of a joined run read and sent is fine, over every list of steps: a session and a free broker keep to the protocol,
/// whatever is called, sent and lost.
pub fn a_joined_run_is_fine()
    ensures { (frame_max : ℕ) (steps : List AStep) → 4096 ≤ frame_max → finding frame_max (transcript frame_max steps) ≡ found.Fine }
{
    down_for_good();
    broker_is_never_broken();
}
