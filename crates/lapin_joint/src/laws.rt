//! Laws of joined runs, on functions that do nothing: what they say holds of every list of steps.

ghost use Rattle.std.specs.Prelude.{◌≡◌, ℕ, true, List, ◌++◌};
ghost use Rattle.lapin_joint.specs.declared.step.Step.{Step as AStep};
ghost use Rattle.lapin_joint.specs.Joint.{joined_to};
ghost use Rattle.lapin_machine.specs.Way.{by_history};
ghost use Rattle.lapin_joint.specs.Order.{nothing_lost, along_joined, handed_in, read_in, sent_in, delivered_in};

/// The links keep order and lose nothing: while nothing was lost, the frames that the session handed out are those that the broker
/// read, followed by the link up (`up`); and the frames that the broker sent are those that were delivered, followed by the link down
/// (`down`).
pub fn links_keep_order()
    ensures up { (frame_max : ℕ) (steps : List AStep) → nothing_lost steps ≡ true →
        along_joined frame_max (handed_in (by_history frame_max)) steps ≡ along_joined frame_max read_in steps ++ (joined_to frame_max steps).up }
    ensures down { (frame_max : ℕ) (steps : List AStep) → nothing_lost steps ≡ true →
        along_joined frame_max sent_in steps ≡ along_joined frame_max delivered_in steps ++ (joined_to frame_max steps).down }
{}
