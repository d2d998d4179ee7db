//! Two peers of one connection, as pure machines over kinds of frames: the session's side and a free broker's, with a link each
//! way.
//!
//! Here stand what each side does with a kind of frame, and that over every interleaving neither side meets a kind that it
//! doesn't await. Names, payloads and all code stand in the crates above. `lapin_concord` ties them to these: it reads the states of a
//! joined run as states of this pair, and shows each step of it to be a run of the pair (`proofs/Running` there), so that what is
//! proved here holds of every session and every free broker.
#![tactic(auto)]

ghost use Rattle.std.specs.Prelude.{◌≡◌, ℕ, List, false};
ghost use Rattle.lapin_pairs.specs.Machine.{Opened, Open, is_refused, is_broken};
ghost use Rattle.lapin_pairs.specs.Channel.{is_none};
ghost use Rattle.lapin_pairs.specs.Every.{StepA, run_a, start_a};
ghost use Rattle.lapin_pairs.specs.Tagging.{tagging};

/// Over every list of calls, frame requests, reads, sends, deliveries and losses, on all channels: the connection refuses
/// nothing and the broker is never broken.
pub fn connection_stays_whole()
    ensures connection { (steps : List (StepA tagging)) → is_refused (run_a tagging steps (start_a tagging)).conn ≡ false }
    ensures broker { (steps : List (StepA tagging)) → is_broken (run_a tagging steps (start_a tagging)).broker ≡ false }
{}

/// While the connection is open, no channel refuses a frame by its state, nor for want of a request or of a content that it
/// awaits, nor a settlement; while the broker is up, none of its channels is broken.
pub fn channels_stay_whole()
    ensures states { (steps : List (StepA tagging)) (c : ℕ) → (run_a tagging steps (start_a tagging)).conn ≡ Opened → is_refused ((run_a tagging steps (start_a tagging)).chans c).base.sess ≡ false }
    ensures expected { (steps : List (StepA tagging)) (c : ℕ) → (run_a tagging steps (start_a tagging)).conn ≡ Opened → is_none ((run_a tagging steps (start_a tagging)).chans c).base.open_data ≡ false }
    ensures settlements { (steps : List (StepA tagging)) (c : ℕ) → (run_a tagging steps (start_a tagging)).conn ≡ Opened → ((run_a tagging steps (start_a tagging)).chans c).refusals ≡ false }
    ensures peers { (steps : List (StepA tagging)) (c : ℕ) → (run_a tagging steps (start_a tagging)).broker ≡ Open → is_broken ((run_a tagging steps (start_a tagging)).sides c).base.peer ≡ false }
{}
