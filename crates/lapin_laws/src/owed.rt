//! Whom an open ticket waits for.

ghost use Rattle.std.specs.Prelude.{◌≡◌, ℕ, Bool, List, Some};
ghost use Rattle.lapin_types.specs.declared.event.Event.{Event as AnEvent};
ghost use Rattle.lapin_rules.specs.declared.marks.AtLeaving.TheVariants as leaving;
ghost use Rattle.lapin_tables.specs.Numbered.{under};
ghost use Rattle.lapin_ticket.specs.declared.Slot.TheVariants as slot;
ghost use Rattle.lapin_laws.specs.Owed.{IsOwed};
ghost use Rattle.lapin_laws.specs.Runs.{world_after};

/// An open ticket that no leaving frame answers stands with an open request of its channel, or with a content that is expected there
/// and that the answer to its get began: who waits for it waits for a reply that the broker owes, for the rest of a message, or for
/// the end of the opening.
pub fn awaited_replies_are_requested()
    ensures { (frame_max : ℕ) (events : List AnEvent) (n c : ℕ) (begun : Bool) → under n (world_after frame_max events).slots ≡ Some (slot.Open c leaving.Nothing begun) → IsOwed n c (world_after frame_max events).wire }
{}
