//! Laws of the definitions, each on a function with an empty body: what they say holds of every history.

ghost use Rattle.std.specs.Prelude.{◌≡◌, ℕ, List, length};
ghost use Rattle.lapin_types.specs.declared.event.Event.{Event as AnEvent};
ghost use Rattle.lapin_rules.specs.History.{run};
ghost use Rattle.lapin_rules.specs.Machine.{IsTheMachines};

/// A run has one record an event.
pub fn one_record_an_event()
    ensures { (frame_max : ℕ) (events : List AnEvent) → length (run frame_max events) ≡ length events }
{}

/// The trace of a run is the wire machine's.
pub fn run_is_the_machines()
    ensures { (frame_max : ℕ) (events : List AnEvent) → IsTheMachines frame_max events (run frame_max events) }
{}
