//! What a session's values are to the history of a run.

ghost use Rattle.std.specs.Prelude.{◌≡◌, ℕ, None, List, [], ◌∷◌, ◌++◌, zip};
ghost use Rattle.lapin_types.specs.declared.event.Event.{Event as AnEvent};
ghost use Rattle.lapin_rules.specs.History.{History, rec, run};
ghost use Rattle.lapin_rules.specs.Machine.{IsTheMachines};
ghost use Rattle.lapin_machine.specs.Returned.{given_back};
ghost use Rattle.lapin_machine.specs.Stands.{Stands};
ghost use Rattle.lapin_machine.specs.World.{World, new_world, next, told_by, outputs};
ghost use Rattle.lapin_laws.specs.Runs.{world_after};

/// A new session stands for the empty history (`new`). One that stands for a history tells that history's record of an event
/// (`told`), and then stands for the longer one (`next`); but where a frame was given back, the frame request that hands it out
/// once more is no step of the history. So after a list of events it stands for the history of their run
/// (`run`), and what it told on the way is a trace of the wire machine (`trace`).
pub fn a_session_stands()
    ensures new { (frame_max : ℕ) → Stands frame_max [] (new_world frame_max) }
    ensures told { (frame_max : ℕ) (h : History) (w : World) (e : AnEvent) → given_back w.returned e ≡ None → Stands frame_max h w → told_by w e ≡ rec frame_max h e }
    ensures next { (frame_max : ℕ) (h : History) (w : World) (e : AnEvent) → given_back w.returned e ≡ None → Stands frame_max h w → Stands frame_max (h ++ (e, told_by w e) ∷ []) (next w e) }
    ensures run { (frame_max : ℕ) (events : List AnEvent) → Stands frame_max (zip events (run frame_max events)) (world_after frame_max events) }
    ensures trace { (frame_max : ℕ) (events : List AnEvent) → IsTheMachines frame_max events (outputs (new_world frame_max) events) }
{}
