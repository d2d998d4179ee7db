//! The frames that a run hands out.

ghost use Rattle.std.specs.Prelude.{◌≡◌, ◌<◌, ℕ, true, false, List, zip};
ghost use Rattle.std.specs.List.{list_any};
ghost use Rattle.lapin_types.specs.declared.event.Event.{Event as AnEvent};
ghost use Rattle.lapin_rules.specs.Events.{confirm_marks};
ghost use Rattle.lapin_rules.specs.History.{run};
ghost use Rattle.lapin_tables.specs.ByChannel.{at_channel};
ghost use Rattle.lapin_machine.specs.Tied.{is_live_on};
ghost use Rattle.lapin_machine.specs.World.{next, told_by};
ghost use Rattle.lapin_laws.specs.Outgoing.{ended_in, is_channel, points, given_in, frames_in};
ghost use Rattle.lapin_laws.specs.Runs.{world_after};
ghost use Rattle.lapin_laws.specs.Unbroken.{Unbroken};

/// The frames handed out in a run are unbroken (`unbroken`): methods, and publishes with nothing between their frames, cut short
/// only by the end of their opening or of the run. The bodies of one that isn't cut join to the payload of its call, and those of
/// one channel begin in order of call. A frame is longer than its own 8 bytes.
///
/// The frames that are judged are those of the run's records, all of them and in order (`frames`). Where an event ends a
/// channel's opening, the channel has no live one behind it (`ended`), so none of its publishes goes on.
pub fn frames_are_unbroken()
    ensures frames { (frame_max : ℕ) (events : List AnEvent) → given_in (points frame_max (zip events (run frame_max events))) ≡ frames_in (run frame_max events) }
    ensures ended { (frame_max : ℕ) (events : List AnEvent) (e : AnEvent) (c : ℕ) → list_any (is_channel c) (ended_in (confirm_marks (world_after frame_max events).wire e (told_by (world_after frame_max events) e))) ≡ true → is_live_on (next (world_after frame_max events) e).wire.link (at_channel c (next (world_after frame_max events) e).wire.phases) ≡ false }
    ensures unbroken { (frame_max : ℕ) (events : List AnEvent) → 8 < frame_max → Unbroken frame_max (points frame_max (zip events (run frame_max events))) }
{}
