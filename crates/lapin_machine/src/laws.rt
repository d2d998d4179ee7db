//! Laws of a session's values, on functions that do nothing: what they say holds of every session, whatever events it met.

ghost use Rattle.std.specs.Prelude.{◌≡◌, ℕ, ◌+◌, ◌<◌, ◌^◌, true, false, List, [], ◌∷◌, ◌++◌, Option, None, length};
ghost use Rattle.std.specs.List.{list_any, fold};
ghost use Rattle.lapin_tables.specs.ByChannel.{at_channel};
ghost use Rattle.lapin_types.specs.declared.event.Event.{Event as AnEvent};
ghost use Rattle.lapin_rules.specs.Wire.{lists_of};
ghost use Rattle.lapin_rules.specs.ConnectionClose.{has_sent};
ghost use Rattle.lapin_rules.specs.Drops.{no_lists};
ghost use Rattle.lapin_confirm.specs.PublishStates.{is_open_on};
ghost use Rattle.lapin_machine.specs.Alone.{WaitsAlone, without_own_close};
ghost use Rattle.lapin_machine.specs.Tied.{is_live_on};
ghost use Rattle.lapin_rules.specs.History.{History, rec};
ghost use Rattle.lapin_machine.specs.Numbers.{HasNumbersFor};
ghost use Rattle.lapin_machine.specs.Stands.{IsShut, Stands};
ghost use Rattle.lapin_types.specs.declared.leaving.Left.{Left as ALeft};
ghost use Rattle.lapin_rules.specs.Events.{confirm_marks};
ghost use Rattle.lapin_rules.specs.Phases.{is_lost};
ghost use Rattle.lapin_machine.specs.Returned.{given_back, after_ends};
ghost use Rattle.lapin_machine.specs.World.{World, told_by, next, new_world, with_returned};

use crate::session::Session;

/// While this side closes the connection and its `connection.close` has not left, that close is all that waits (`alone`). So
/// where the broker's close or close-ok comes first, to drop the own close is to drop all that waits (`dropped`), which is how
/// the definitions say it.
pub fn own_close_waits_alone()
    ensures alone { (frame_max : ℕ) (events : List AnEvent) → WaitsAlone (fold next (new_world frame_max) events).wire.link (lists_of (fold next (new_world frame_max) events).wire) }
    ensures dropped { (frame_max : ℕ) (events : List AnEvent) → has_sent (fold next (new_world frame_max) events).wire.link ≡ false → without_own_close (lists_of (fold next (new_world frame_max) events).wire) ≡ no_lists }
{}

/// What a session tells of an event, and what the event leaves, are what the history says, one event after another: so a call
/// whose answer is `told_by` and that leaves `next` answers by the history, and then stands for the longer one. A frame request
/// that gives the frame that was given back is no step of the history.
pub fn a_step_goes_on()
    ensures { (frame_max : ℕ) (h : History) (w : World) (e : AnEvent) → given_back w.returned e ≡ None → Stands frame_max h w →
        (told_by w e ≡ rec frame_max h e) × Stands frame_max (h ++ (e, told_by w e) ∷ []) (next w e) }
{}

/// A frame that was given back waits, and nothing else goes by it: every event but a frame request is answered as without it
/// (`told`) and leaves what it leaves without it (`leaves`). No event gives a frame back (`none`).
pub fn a_frame_given_back_waits()
    ensures told { (w : World) (r : Option ALeft) (e : AnEvent) → given_back r e ≡ None → given_back w.returned e ≡ None → told_by (with_returned r w) e ≡ told_by w e }
    ensures leaves { (w : World) (r : Option ALeft) (e : AnEvent) → given_back r e ≡ None → given_back w.returned e ≡ None → with_returned None (next (with_returned r w) e) ≡ with_returned None (next w e) }
    ensures none { (w : World) (e : AnEvent) → w.returned ≡ None → (next w e).returned ≡ None }
{}

/// A frame that was given back is gone exactly where an event takes every entry of its channel out: where the opening of its
/// channel ends, or where the connection moves on and all that waits is dropped. A session that stands for a history has no
/// phase of a channel once its connection is not open (the premise `IsShut`). So after a loss no frame is given back (`lost`).
pub fn a_frame_given_back_goes_with_its_channel()
    ensures lost { (w : World) (e : AnEvent) → IsShut w.wire → (is_lost w.wire.link ≡ true → w.returned ≡ None) → is_lost (next w e).wire.link ≡ true → (next w e).returned ≡ None }
    ensures gone { (w : World) (e : AnEvent) → given_back w.returned e ≡ None → IsShut w.wire →
        (next w e).returned ≡ after_ends w.wire.link (next w e).wire.link (confirm_marks w.wire e (told_by w e)) w.returned }
{}

/// No counter is above the number of events: a session that stands for a history has numbers for as many further events as are
/// missing to the greatest `u64`.
pub fn an_event_uses_one_number()
    ensures { (frame_max more : ℕ) (h : History) (w : World) → Stands frame_max h w → length h + more < 2 ^ 64 → HasNumbersFor more w }
{}

impl Session {
    /// No confirm is lost: on a channel without a live opening, and on every channel once the connection is not open, each
    /// publish that was accepted has its outcome.
    pub fn no_confirm_is_lost(&self)
        ensures { (c : ℕ) → is_live_on self.now.wire.link (at_channel c self.now.wire.phases) ≡ false → list_any (is_open_on c) self.now.confirm_state.publish_states.cells ≡ false }
    {
        let _link = self.link;
    }
}
