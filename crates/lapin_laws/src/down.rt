//! The connection once it is not open any more.

ghost use Rattle.std.specs.Prelude.{◌≡◌, ℕ, true, false, List, [], drop, Bool};
ghost use Rattle.std.specs.List.{fold};
ghost use Rattle.lapin_types.specs.declared.event.Event.{Event as AnEvent};
ghost use Rattle.lapin_types.specs.declared.event.Event.TheVariants as event;
ghost use Rattle.lapin_types.specs.declared.record.Record.TheVariants as record_;
ghost use Rattle.lapin_types.specs.Types.{Frame as AFrame};
ghost use Rattle.lapin_rules.specs.Wire.{lists_of};
ghost use Rattle.lapin_rules.specs.Drops.{no_lists};
ghost use Rattle.lapin_rules.specs.Phases.{is_up, is_lost};
ghost use Rattle.lapin_machine.specs.World.{next, told_by};
ghost use Rattle.lapin_tables.specs.Numbered.{under};
ghost use Rattle.lapin_ticket.specs.Slots.{is_awaited};
ghost use Rattle.lapin_laws.specs.Down.{is_still_incoming, first_method};
ghost use Rattle.lapin_laws.specs.Runs.{world_after};

/// Once the connection is not open it never is again (`stays`), and a loss is for good (`stays_lost`).
///
/// Then no channel stands open (`phases`), nothing waits but methods (`rest`, `publishes`), and no content is expected (`contents`). After a loss nothing waits at all
/// (`lost`), and no ticket is open (`answered`).
///
/// Every broker frame but the two that a closing connection still receives is passed over (`passed`) and changes nothing (`unmoved`).
/// A frame request gives the first of the methods that wait (`given`), which is gone then (`left`); after a loss it gives none
/// (`none`).
pub fn down_for_good()
    ensures stays { (frame_max : ℕ) (events more : List AnEvent) → is_up (world_after frame_max events).wire.link ≡ false → is_up (fold next (world_after frame_max events) more).wire.link ≡ false }
    ensures stays_lost { (frame_max : ℕ) (events more : List AnEvent) → is_lost (world_after frame_max events).wire.link ≡ true → is_lost (fold next (world_after frame_max events) more).wire.link ≡ true }
    ensures phases { (frame_max : ℕ) (events : List AnEvent) → is_up (world_after frame_max events).wire.link ≡ false → (world_after frame_max events).wire.phases ≡ [] }
    ensures rest { (frame_max : ℕ) (events : List AnEvent) → is_up (world_after frame_max events).wire.link ≡ false → (world_after frame_max events).wire.rest ≡ [] }
    ensures contents { (frame_max : ℕ) (events : List AnEvent) → is_up (world_after frame_max events).wire.link ≡ false → (world_after frame_max events).wire.contents ≡ [] }
    ensures publishes { (frame_max : ℕ) (events : List AnEvent) → is_up (world_after frame_max events).wire.link ≡ false → (world_after frame_max events).wire.publishes ≡ [] }
    ensures lost { (frame_max : ℕ) (events : List AnEvent) → is_lost (world_after frame_max events).wire.link ≡ true → lists_of (world_after frame_max events).wire ≡ no_lists }
    ensures answered { (frame_max : ℕ) (events : List AnEvent) → is_lost (world_after frame_max events).wire.link ≡ true → (t : ℕ) → is_awaited (under t (world_after frame_max events).slots) ≡ false }
    ensures passed { (frame_max : ℕ) (events : List AnEvent) (f : AFrame) → is_up (world_after frame_max events).wire.link ≡ false → is_still_incoming (world_after frame_max events).wire.link f ≡ false → told_by (world_after frame_max events) (event.Receive f) ≡ record_.Passed }
    ensures unmoved { (frame_max : ℕ) (events : List AnEvent) (f : AFrame) → is_up (world_after frame_max events).wire.link ≡ false → is_still_incoming (world_after frame_max events).wire.link f ≡ false → next (world_after frame_max events) (event.Receive f) ≡ world_after frame_max events }
    ensures given { (frame_max : ℕ) (events : List AnEvent) (flow : Bool) → is_up (world_after frame_max events).wire.link ≡ false → told_by (world_after frame_max events) (event.Next flow) ≡ first_method (world_after frame_max events).wire.methods }
    ensures left { (frame_max : ℕ) (events : List AnEvent) (flow : Bool) → is_up (world_after frame_max events).wire.link ≡ false → (next (world_after frame_max events) (event.Next flow)).wire.methods ≡ drop 1 (world_after frame_max events).wire.methods }
    ensures none { (frame_max : ℕ) (events : List AnEvent) (flow : Bool) → is_lost (world_after frame_max events).wire.link ≡ true → told_by (world_after frame_max events) (event.Next flow) ≡ record_.NoFrame }
{}
