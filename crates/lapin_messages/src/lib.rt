//! What a consumer's log says of the broker, over every joined run: its messages are those that the broker sent to its tag.
//!
//! Laws alone stand here, and the words that they are said in: in which opening of its channel a consumer was registered, what else
//! happened to consumers in that opening, and what of a log its items and jobs carry. What the broker sent, opening by opening, is said in
//! `lapin_verdicts`.
#![tactic(auto)]

ghost use Rattle.std.specs.Prelude.{◌≤◌, ℕ, List};
ghost use Rattle.lapin_joint.specs.declared.step.Step.{Step as AStep};
ghost use Rattle.lapin_messages.specs.Deliveries.{LogsAreSent, LogsAreCarried};

/// In every joined run, for each consumer: where its tag was registered once in its opening, the messages of its log, the discarded ones
/// among them, are a prefix of the whole messages that the broker sent to that tag in that opening, in order and one for one (`prefix`).
/// Where nothing was discarded on its channel in that opening, nothing in its log is marked as discarded, so its items and jobs carry all
/// of it (`kept`).
pub fn a_consumer_has_what_was_sent_to_its_tag()
    ensures prefix { (frame_max : ℕ) → 4096 ≤ frame_max → (steps : List AStep) → LogsAreSent frame_max steps }
    ensures kept { (frame_max : ℕ) → 4096 ≤ frame_max → (steps : List AStep) → LogsAreCarried frame_max steps }
{}
