//! Whether a frame waits to leave.
ghost use Rattle.std.specs.Prelude.{◌≡◌, ◌||◌, Bool, false};
ghost use Rattle.lapin_types.specs.declared.event.Event.TheVariants as event;
ghost use Rattle.lapin_types.specs.declared.record.Record.TheVariants as record_;
ghost use Rattle.lapin_rules.specs.Wire.{lists_of};
ghost use Rattle.lapin_outbox.specs.Outgoing.{has_entries};
ghost use Rattle.lapin_outbox.specs.Returned.{is_retried};
ghost use Rattle.lapin_machine.specs.World.{told_by};

use lapin_session::Session;

/// Whether a frame waits to leave: one that was given back, or an entry of the three lists. One that waits may be held back, by a
/// request without flow, a pause or a limit; where none waits, no request gives one.
#[tactic(auto, using(crate::proofs::Requests::nothing_told))]
pub fn has_frames(session: &Session) -> bool
    ensures waits { result ≡ (is_retried session.now.returned || has_entries (lists_of session.now.wire)) }
    ensures none { result ≡ false → (flow : Bool) → told_by session.now (event.Next flow) ≡ record_.NoFrame }
{
    session.outbox().has_pending()
}
