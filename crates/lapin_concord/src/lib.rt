//! A session and an honest broker are in concord: what holds of the pair of machines over kinds of frames holds of every joined run.
//!
//! Here the states of a session and of a free broker are read as states of that pair, each step of a joined run is shown to be a run
//! of the pair, and laws of joined runs are stated in their own words. No code lives here. What the pair keeps stands in
//! `lapin_pairs`, what the two sides do in `lapin_machine` and `lapin_broker`.
#![tactic(auto)]

ghost use Rattle.std.specs.Prelude.{◌≡◌, ◌≤◌, ℕ, List, Some, true, false};
ghost use Rattle.std.specs.List.{list_any};
ghost use Rattle.lapin_broker.specs.States.{is_broken};
ghost use Rattle.lapin_joint.specs.declared.step.Step.{Step as AStep};
ghost use Rattle.lapin_joint.specs.Joint.{joined, joined_to};
ghost use Rattle.lapin_rules.specs.ConfirmReadings.{has_left, channel_of, tag_of};
ghost use Rattle.lapin_concord.specs.Openings.{opening_of, confirms_in};
ghost use Rattle.lapin_concord.specs.Refusals.{reports_refusal};
ghost use Rattle.lapin_concord.specs.Concord.{NoneIsRefused, IsUnbroken, DifferByTags};

/// The broker is never broken: over every list of steps it reads no frame that its rules don't allow.
pub fn broker_is_never_broken()
    ensures { (frame_max : ℕ) (steps : List AStep) → 4096 ≤ frame_max → is_broken (joined_to frame_max steps).broker.connection ≡ false }
{}

/// No delivered frame is refused: no report is a delivery whose record is a refusal.
pub fn no_delivered_frame_is_refused()
    ensures { (frame_max : ℕ) (steps : List AStep) → 4096 ≤ frame_max → list_any reports_refusal (joined frame_max steps) ≡ false }
{}

/// Two publishes of one opening that have tags have different tags: where both left on one channel, in the same opening of it, and
/// took the same tag, they are one publish.
pub fn tags_of_an_opening_differ()
    ensures { (frame_max : ℕ) (steps : List AStep) (one other tag : ℕ) →
        has_left one (confirms_in frame_max steps) ≡ true → has_left other (confirms_in frame_max steps) ≡ true →
        channel_of one (confirms_in frame_max steps) ≡ channel_of other (confirms_in frame_max steps) →
        opening_of one (confirms_in frame_max steps) ≡ opening_of other (confirms_in frame_max steps) →
        tag_of one (confirms_in frame_max steps) ≡ Some tag → tag_of other (confirms_in frame_max steps) ≡ Some tag → one ≡ other }
{}

/// A session and an honest broker are in concord over every interleaving: for every frame size of at least 4096 and every list of
/// steps no delivered frame is refused (`unrefused`), the broker is never broken (`unbroken`), and two publishes of one opening that
/// have tags have different tags (`apart`).
pub fn session_and_broker_are_in_concord()
    ensures unrefused { (frame_max : ℕ) (steps : List AStep) → 4096 ≤ frame_max → NoneIsRefused frame_max steps }
    ensures unbroken { (frame_max : ℕ) (steps : List AStep) → 4096 ≤ frame_max → IsUnbroken frame_max steps }
    ensures apart { (frame_max : ℕ) (steps : List AStep) → 4096 ≤ frame_max → DifferByTags (confirms_in frame_max steps) }
{}
