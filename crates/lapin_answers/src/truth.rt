//! What holds of a session and an honest broker, all of it.

ghost use Rattle.std.specs.Prelude.{◌≤◌, ℕ, List};
ghost use Rattle.lapin_joint.specs.declared.step.Step.{Step as AStep};
ghost use Rattle.lapin_answers.specs.Truth.{IsTrue};

/// A session and an honest broker, over every interleaving: for every frame size of at least 4096 and every list of steps no delivered
/// frame is refused, the broker is never broken, a confirm is the broker's verdict on that very publish, resolved by the delivery of the
/// settlement that says so, and publishes of one opening have different tags. A reply is the answer to that very call, a get carries the
/// content that was sent after its answer, an open-ok is for that very open, and a close-ok for that very close, of a channel or of the
/// connection; no frame but that answers the close, and none at all a call without wait; a `basic.cancel` that an end resolves isn't
/// resolved by a reply. So each answer that a ticket has was given by one step, and says what that very reply says. A consumer whose tag was registered once in its opening has a prefix of the messages that were sent to it, of which
/// its items and jobs carry all where none was discarded. What `run_joined` appends are the reports of such steps.
pub fn a_session_and_an_honest_broker()
    ensures { (frame_max : ℕ) → 4096 ≤ frame_max → (steps : List AStep) → IsTrue frame_max steps }
{}
