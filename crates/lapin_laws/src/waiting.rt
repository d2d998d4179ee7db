//! What waits to leave, and for which openings.

ghost use Rattle.std.specs.Prelude.{◌≡◌, ◌==◌, ℕ, true, false, List, [], if◌then◌else◌};
ghost use Rattle.lapin_types.specs.declared.event.Event.{Event as AnEvent};
ghost use Rattle.lapin_types.specs.declared.request.ReplyKind.TheVariants as reply_kind;
ghost use Rattle.lapin_rules.specs.Wire.{phase_of, requests_of};
ghost use Rattle.lapin_rules.specs.Drops.{unbegun, is_rest_of};
ghost use Rattle.lapin_rules.specs.Phases.{is_up};
ghost use Rattle.lapin_rules.specs.Requests.{without_kind};
ghost use Rattle.lapin_tables.specs.ByChannel.{at_channel};
ghost use Rattle.lapin_machine.specs.Tied.{is_live_on};
ghost use Rattle.lapin_laws.specs.Closes.{closes_of, is_unsent};
ghost use Rattle.lapin_laws.specs.Queue.{queued_in, waiting};
ghost use Rattle.lapin_laws.specs.Runs.{world_after};

/// While the connection is open, a channel that this side closes has one `channel.close` among the methods that wait, until it
/// has left; no other channel has one.
pub fn closes_wait_until_they_leave()
    ensures { (frame_max : ℕ) (events : List AnEvent) (c : ℕ) → is_up (world_after frame_max events).wire.link ≡ true → closes_of c (world_after frame_max events).wire.methods ≡ (if is_unsent (phase_of c (world_after frame_max events).wire) then 1 else 0) }
{}

/// On a channel without a live opening no publish waits (`publishes`), the begun one is none of its own (`rest`), and no request
/// is open but that of this side's close, where closes crossed (`requests`; channel 0 has the request of a close of the
/// connection). So what waits or is awaited is of a live opening, or is such a close, or stands on channel 0.
pub fn only_live_openings_wait()
    ensures publishes { (frame_max : ℕ) (events : List AnEvent) (c : ℕ) → is_live_on (world_after frame_max events).wire.link (at_channel c (world_after frame_max events).wire.phases) ≡ false → unbegun c (world_after frame_max events).wire.publishes ≡ [] }
    ensures rest { (frame_max : ℕ) (events : List AnEvent) (c : ℕ) → is_live_on (world_after frame_max events).wire.link (at_channel c (world_after frame_max events).wire.phases) ≡ false → is_rest_of c (world_after frame_max events).wire.rest ≡ false }
    ensures requests { (frame_max : ℕ) (events : List AnEvent) (c : ℕ) → (c == 0) ≡ false → is_live_on (world_after frame_max events).wire.link (at_channel c (world_after frame_max events).wire.phases) ≡ false → without_kind reply_kind.ChannelCloseOk (requests_of c (world_after frame_max events).wire) ≡ [] }
{}

/// The publishes that have not begun are those whose confirms are queued: the same numbers with the same channels, in order of
/// call, and no others.
pub fn waiting_publishes_are_queued()
    ensures { (frame_max : ℕ) (events : List AnEvent) → queued_in (world_after frame_max events).confirm_state.publish_states.cells ≡ waiting (world_after frame_max events).wire.publishes }
{}
