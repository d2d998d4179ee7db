//! What a user needs to prove something of a caller: states that events lead to, and what holds of each of them.
//!
//! No code lives here, and nothing of a socket.
#![tactic(auto)]

ghost use Rattle.std.specs.Prelude.{◌≡◌, ◌≤◌, ◌<◌, ℕ, List};
ghost use Rattle.lapin_types.specs.declared.call.Call.TheVariants as call;
ghost use Rattle.lapin_types.specs.declared.event.Event.{Event as AnEvent};
ghost use Rattle.lapin_types.specs.declared.event.Event.TheVariants as event;
ghost use Rattle.lapin_machine.specs.World.{World, new_world, next};
ghost use Rattle.lapin_laws.specs.Runs.{world_after};
ghost use Rattle.lapin_reached.specs.Limited.{IsCareful, IsGuarded, MaySelect};
ghost use Rattle.lapin_reached.specs.Reached.{IsReached, IsLimited, AreLimited, IsBounded, pending_on};

/// A new session is reached, and so is what an event leaves of one that is.
pub fn a_session_is_reached()
    ensures new { (frame_max : ℕ) → IsReached frame_max (new_world frame_max) }
    ensures next { (frame_max : ℕ) (w : World) (e : AnEvent) → IsReached frame_max w → IsReached frame_max (next w e) }
{}

/// In every state at most so many tags of a channel are pending, where in each state before it, in which the channel had a live opening
/// whose `confirm.select` had left, its limit was at least 1 and at most that.
pub fn at_most_the_limit_is_always_pending()
    ensures { (frame_max : ℕ) (events : List AnEvent) (most c : ℕ) → AreLimited most c (new_world frame_max) events → pending_on c (world_after frame_max events) ≤ most }
{}

/// The same step by step, for a caller: a new session is bounded; an event keeps it so, if it leaves the channel limited; and where it is
/// bounded at most so many tags are pending.
pub fn a_limited_channel_is_bounded()
    ensures new { (frame_max most c : ℕ) → IsBounded most c (new_world frame_max) }
    ensures next { (most c : ℕ) (w : World) (e : AnEvent) → IsBounded most c w → IsLimited most c (next w e) → IsBounded most c (next w e) }
    ensures bound { (most c : ℕ) (w : World) → IsBounded most c w → pending_on c w ≤ most }
{}

/// A caller that sets a channel's limit before it selects, and then no other, never has more pending: a new session is guarded; an event
/// that is careful of the channel keeps it so; behind a call of `confirm.limit`, whatever came of it, `confirm.select` may be called; and
/// where a channel is guarded at most so many tags are pending.
pub fn a_careful_caller_is_guarded()
    ensures new { (frame_max most c : ℕ) → IsGuarded most c (new_world frame_max) }
    ensures next { (most c : ℕ) (w : World) (e : AnEvent) → IsGuarded most c w → IsCareful most c w e → IsGuarded most c (next w e) }
    ensures set { (most c limit : ℕ) (w : World) → 0 < limit → limit ≤ most → IsGuarded most c w → MaySelect most c (next w (event.Call c (call.ConfirmLimit limit))) }
    ensures bound { (most c : ℕ) (w : World) → IsGuarded most c w → pending_on c w ≤ most }
{}
