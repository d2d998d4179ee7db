//! What a reply means, over every joined run.

ghost use Rattle.std.specs.Prelude.{◌≡◌, ◌≤◌, ◌==◌, ℕ, List, [], ◌∷◌, ◌++◌, true, false};
ghost use Rattle.lapin_types.specs.Types.{Frame as AFrame};
ghost use Rattle.lapin_rules.specs.Phases.{is_up};
ghost use Rattle.lapin_rules.specs.Wire.{state_of, receives_on};
ghost use Rattle.lapin_broker.specs.Frames.{channel_of};
ghost use Rattle.lapin_joint.specs.declared.step.Step.{Step as AStep};
ghost use Rattle.lapin_joint.specs.Joint.{joined_to};
ghost use Rattle.lapin_verdicts.specs.Deeds.{Deed, Sent, deeds, last_opening, sents};
ghost use Rattle.lapin_verdicts.specs.Answers.{replies, is_open_ok, IsAnswer};
ghost use Rattle.lapin_verdicts.specs.Session.{past_of};

/// In every joined run: before each reply that the broker sends in an opening it read a request of the reply's kind in it, after as many
/// requests as replies were sent before (`sent`). So the reply that the session receives next, on a channel that it hears, stands in the
/// channel's last opening, and is to the request at its place (`received`).
pub fn a_reply_answers_the_request_at_its_place()
    ensures sent { (frame_max : ℕ) (steps : List AStep) (c : ℕ) (before behind : List Deed) (reply : AFrame) → last_opening c (deeds frame_max steps) ≡ before ++ Sent reply ∷ behind → replies reply ≡ true → IsAnswer before reply }
    ensures received { (frame_max : ℕ) → 4096 ≤ frame_max → (steps : List AStep) (reply : AFrame) (way : List AFrame) → (joined_to frame_max steps).down ≡ reply ∷ way → receives_on (state_of (channel_of reply) (past_of frame_max steps).wire) ≡ true → replies reply ≡ true → (before : List Deed) × (behind : List Deed) × (last_opening (channel_of reply) (deeds frame_max steps) ≡ before ++ Sent reply ∷ behind) × IsAnswer before reply }
{}

/// In every joined run: open-ok is the first that the broker sends in an opening (`sent`). So the one that the session receives next, while
/// its connection is open, stands in the channel's last opening, which the broker answers with it (`received`).
pub fn open_ok_is_the_first_of_its_opening()
    ensures sent { (frame_max : ℕ) (steps : List AStep) (c : ℕ) (before behind : List Deed) (reply : AFrame) → last_opening c (deeds frame_max steps) ≡ before ++ Sent reply ∷ behind → is_open_ok reply ≡ true → sents before ≡ [] }
    ensures received { (frame_max : ℕ) → 4096 ≤ frame_max → (steps : List AStep) (reply : AFrame) (way : List AFrame) → (joined_to frame_max steps).down ≡ reply ∷ way → is_up (past_of frame_max steps).wire.link ≡ true → (channel_of reply == 0) ≡ false → is_open_ok reply ≡ true → (before : List Deed) × (behind : List Deed) × (last_opening (channel_of reply) (deeds frame_max steps) ≡ before ++ Sent reply ∷ behind) × (sents before ≡ []) }
{}
