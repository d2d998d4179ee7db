//! What channels declared and bound in a run.

ghost use Rattle.std.specs.Prelude.{◌≡◌, ℕ, List, zip};
ghost use Rattle.lapin_types.specs.declared.event.Event.{Event as AnEvent};
ghost use Rattle.lapin_tables.specs.ByChannel.{at_channel};
ghost use Rattle.lapin_rules.specs.History.{run};
ghost use Rattle.lapin_laws.specs.Consumers.{deliveries_history};
ghost use Rattle.lapin_laws.specs.Registry.{topology_of};
ghost use Rattle.lapin_laws.specs.Runs.{world_after};

/// What a channel declared and bound after a list of events is what the history of the run says: none where it never had an opening, else
/// what its declares, binds, unbinds and deletes add up to that were completed since its last opening began.
pub fn topologies_are_of_the_history()
    ensures { (frame_max : ℕ) (events : List AnEvent) (channel : ℕ) → at_channel channel (world_after frame_max events).wire.deliveries.topologies ≡ topology_of channel (deliveries_history frame_max (zip events (run frame_max events))) }
{}
