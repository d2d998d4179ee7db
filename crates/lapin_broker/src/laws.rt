//! Laws of the broker over all its reads and sends, each the contract of a function that does nothing.

ghost use Rattle.std.specs.Prelude.{◌≡◌, ℕ, true};
ghost use Rattle.lapin_types.specs.Types.{Frame as AFrame};
ghost use Rattle.lapin_broker.specs.States.{Broker as State, new_broker, after_loss};
ghost use Rattle.lapin_broker.specs.Reads.{read};
ghost use Rattle.lapin_broker.specs.Sends.{may, send};
ghost use Rattle.lapin_broker.specs.Sound.{IsSound};

/// The channel whose content is being read is open, in every state that a new broker comes to.
pub fn reading_is_open()
    ensures begins { (most : ℕ) → IsSound (new_broker most) }
    ensures reads { (b : State) (f : AFrame) → IsSound b → IsSound (read b f) }
    ensures sends { (b : State) (f : AFrame) → may b f ≡ true → IsSound b → IsSound (send b f) }
    ensures loses { (b : State) → IsSound b → IsSound (after_loss b) }
{}
