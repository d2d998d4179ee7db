//! What holds of a publisher after every list of steps, each law the contract of a function that does nothing.

ghost use Rattle.std.specs.Prelude.{◌≡◌, ℕ, List, ◌++◌, true};
ghost use Rattle.lapin_rules.specs.Wire.{is_open};
ghost use Rattle.lapin_resend.specs.declared.step.ResendStep.{ResendStep as AStep};
ghost use Rattle.lapin_resend.specs.Publisher.{state_in};
ghost use Rattle.lapin_resend.specs.Resend.{publisher_after};
ghost use Rattle.lapin_resend.specs.ResendRun.{StayStored, AreOut, NoneShare};

/// A message that is stored is stored at every later step.
pub fn stored_stays()
    ensures { (frame_max : ℕ) (steps more : List AStep) → StayStored (publisher_after frame_max steps).messages (publisher_after frame_max (steps ++ more)).messages }
{}

/// After each step, while channel 1 is open, each message that isn't stored has an outstanding publish.
pub fn waiting_is_outstanding()
    ensures { (frame_max : ℕ) (steps : List AStep) → is_open (state_in frame_max (publisher_after frame_max steps).present) ≡ true → AreOut (publisher_after frame_max steps).messages }
{}

/// No two messages share one outstanding publish.
pub fn none_share()
    ensures { (frame_max : ℕ) (steps : List AStep) → NoneShare (publisher_after frame_max steps).messages }
{}
