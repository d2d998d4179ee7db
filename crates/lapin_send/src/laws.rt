//! Which types are `Send` and `Sync`.

ghost use Rattle.std.specs.Thread.{IsSend, IsSync};
ghost use Rattle.lapin_types.specs.contracts.event.Event as event;
ghost use Rattle.lapin_shared.specs.contracts.caller.Caller as caller;

use lapin_shared::Crew;

/// A caller may move to another thread, and with it its end of the session that all callers share.
pub fn callers_may_move<L: Crew>()
    ensures { IsSend (caller.the_row L.row L.Ledger) }
{}

/// Several threads may read an event at once.
pub fn events_may_be_shared()
    ensures { IsSync event.the_row }
{}
