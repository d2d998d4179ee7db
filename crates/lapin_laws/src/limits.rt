//! The limit of a channel's outstanding confirms.

ghost use Rattle.std.specs.Prelude.{◌≡◌, ℕ, true, false, List, [], Some, Bool};
ghost use Rattle.std.specs.List.{find, list_any};
ghost use Rattle.lapin_types.specs.declared.event.Event.{Event as AnEvent};
ghost use Rattle.lapin_types.specs.declared.event.Event.TheVariants as event;
ghost use Rattle.lapin_types.specs.declared.leaving.Publish.{Publish as APublish};
ghost use Rattle.lapin_types.specs.declared.record.Record.TheVariants as record_;
ghost use Rattle.lapin_types.specs.Types.frame;
ghost use Rattle.lapin_rules.specs.ConfirmReadings.{is_full};
ghost use Rattle.lapin_rules.specs.Flow.{is_paused_on};
ghost use Rattle.lapin_rules.specs.Frames.{publish_method};
ghost use Rattle.lapin_rules.specs.Words.{without_first};
ghost use Rattle.lapin_machine.specs.World.{next, told_by, full_in};
ghost use Rattle.lapin_laws.specs.Limits.{is_publish_on, IsWithinLimit, AreWithinLimit, is_free_in, told_behind, confirms_of, confirms_behind};
ghost use Rattle.lapin_laws.specs.Runs.{world_after};

/// As the method frame of a publish leaves whose opening is selected and has a limit above 0, at most that many tags of the opening
/// are pending, the new one included: by what the session keeps (`kept`), and by what the history shows (`shown`).
pub fn at_most_the_limit_is_pending()
    ensures kept { (frame_max : ℕ) (events : List AnEvent) (flow : Bool) (c : ℕ) → is_publish_on c (told_by (world_after frame_max events) (event.Next flow)) ≡ true → IsWithinLimit c (next (world_after frame_max events) (event.Next flow)).confirm_state.publish_states }
    ensures shown { (frame_max : ℕ) (events : List AnEvent) (flow : Bool) (c : ℕ) → is_publish_on c (told_behind frame_max events (event.Next flow)) ≡ true → AreWithinLimit c (confirms_behind frame_max events (event.Next flow)) }
{}

/// Where a channel is full, no frame request begins a publish of it, by what the session keeps (`held`) and by what the history shows
/// (`shown`).
///
/// A channel that is not full is not held back by one that is: where the request's flow is true, no frame of a begun publish and no
/// method waits, and no open channel is paused, the first publish whose channel is not full begins (`begins`), and all others wait on
/// in their order (`stay`).
pub fn a_full_channel_holds_back()
    ensures held { (frame_max : ℕ) (events : List AnEvent) (flow : Bool) (c : ℕ) → full_in (world_after frame_max events).confirm_state c ≡ true → is_publish_on c (told_by (world_after frame_max events) (event.Next flow)) ≡ false }
    ensures shown { (frame_max : ℕ) (events : List AnEvent) (flow : Bool) (c : ℕ) → is_full c (confirms_of frame_max events) ≡ true → is_publish_on c (told_behind frame_max events (event.Next flow)) ≡ false }
    ensures begins { (frame_max : ℕ) (events : List AnEvent) (p : APublish) → (world_after frame_max events).wire.rest ≡ [] → (world_after frame_max events).wire.methods ≡ [] → list_any is_paused_on (world_after frame_max events).wire.phases ≡ false → find (is_free_in (world_after frame_max events).confirm_state) (world_after frame_max events).wire.publishes ≡ Some p → told_by (world_after frame_max events) (event.Next true) ≡ record_.Frame (frame.Method p.channel (publish_method p)) }
    ensures stay { (frame_max : ℕ) (events : List AnEvent) (p : APublish) → (world_after frame_max events).wire.rest ≡ [] → (world_after frame_max events).wire.methods ≡ [] → list_any is_paused_on (world_after frame_max events).wire.phases ≡ false → find (is_free_in (world_after frame_max events).confirm_state) (world_after frame_max events).wire.publishes ≡ Some p → (next (world_after frame_max events) (event.Next true)).wire.publishes ≡ without_first (is_free_in (world_after frame_max events).confirm_state) (world_after frame_max events).wire.publishes }
{}
