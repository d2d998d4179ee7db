//! What a confirm means, over every joined run.

ghost use Rattle.std.specs.Prelude.{◌≡◌, ◌<◌, ◌≤◌, ℕ, List, Some, true};
ghost use Rattle.lapin_rules.specs.declared.marks.SettleKind.{SettleKind as AKind};
ghost use Rattle.lapin_rules.specs.ConfirmReadings.{has_left, channel_of, tag_of, outcome_at, kind_outcome};
ghost use Rattle.lapin_joint.specs.declared.step.Step.{Step as AStep};
ghost use Rattle.lapin_joint.specs.Joint.{joined_to};
ghost use Rattle.lapin_verdicts.specs.Deeds.{deeds, opening};
ghost use Rattle.lapin_verdicts.specs.Publishes.{Message};
ghost use Rattle.lapin_concord.specs.Openings.{opening_of};
ghost use Rattle.lapin_verdicts.specs.Verdicts.{at_place, messages_in, called_in, IsVerdict};
ghost use Rattle.lapin_verdicts.specs.InStep.{InStep};
ghost use Rattle.lapin_verdicts.specs.Resolved.{VerdictsAreDelivered};
ghost use Rattle.lapin_verdicts.specs.Session.{Numbers, past_of};

/// In every joined run, on every channel that the session hears: no `channel.open` of it waits or is on the way up, the broker read as
/// many as the session began openings, and what is on the way down is the end of what the broker sent since the last that it read.
pub fn both_sides_are_in_one_opening()
    ensures { (frame_max : ℕ) → 4096 ≤ frame_max → InStep frame_max }
{}

/// In every joined run: where the confirm of publish k is resolved as Ack or Nack, with tag t, the broker had read whole, as number t of
/// that opening, the message of that very call, and after that it sent the settlement that resolved the confirm, which is the first of
/// the opening that covers t, and has that kind (`run`). The step that resolves it is a delivery: that opening is the last of its
/// channel then, and that settlement is the frame at the front of the link, which the session receives (`step`).
pub fn a_confirm_is_a_verdict()
    ensures run { (frame_max : ℕ) → 4096 ≤ frame_max → (c k t : ℕ) (kind : AKind) (steps : List AStep) → channel_of k (past_of frame_max steps).confirms ≡ c → tag_of k (past_of frame_max steps).confirms ≡ Some t → outcome_at k (past_of frame_max steps).confirms ≡ Some (kind_outcome kind) → (m : Message) × (at_place k (messages_in (joined_to frame_max steps).session) ≡ Some m) × IsVerdict t kind m (opening c (opening_of k (past_of frame_max steps).confirms) (deeds frame_max steps)) }
    ensures step { (frame_max : ℕ) → 4096 ≤ frame_max → (steps : List AStep) → VerdictsAreDelivered frame_max steps }
{}

/// In every joined run, whatever the broker does: the publishes that leave a channel's opening are numbered in what is handed out as
/// their tags are, and the publish of that number is the message of the call that has the tag. A frame is longer than its own 8 bytes.
pub fn publishes_are_numbered_as_their_tags()
    ensures { (frame_max : ℕ) → 8 < frame_max → Numbers frame_max }
{}

/// In every joined run, whatever the broker does: a publish whose method frame left has left in the opening of its channel in which its
/// call was accepted. So the opening that a verdict speaks of is that of the call.
pub fn a_publish_leaves_in_the_opening_of_its_call()
    ensures { (frame_max : ℕ) → 8 < frame_max → (k : ℕ) (steps : List AStep) → has_left k (past_of frame_max steps).confirms ≡ true → opening_of k (past_of frame_max steps).confirms ≡ called_in k (past_of frame_max steps).confirms }
{}
