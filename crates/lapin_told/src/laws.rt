//! Laws of what a session tells, each on a function that does nothing.

ghost use Rattle.std.specs.Prelude.{◌≡◌, ℕ, List, Some};
ghost use Rattle.lapin_types.specs.declared.event.Event.{Event as AnEvent};
ghost use Rattle.lapin_types.specs.declared.record.Record.{Record as ARecord};
ghost use Rattle.lapin_text.specs.Records.{record_line};
ghost use Rattle.lapin_rules.specs.Machine.{kept};
ghost use Rattle.lapin_laws.specs.Limits.{history_of, told_behind};
ghost use Rattle.lapin_lines.specs.KeptLines.{MayTell};
ghost use Rattle.lapin_told.specs.Told.{MayComeThen};

use lapin_lines::a_line_fixes_what_is_kept;

/// After every list of events that may come, the record of one more is one that its event may have, and has a text, where the wire machine
/// keeps something of it: a known ticket is answered by no data of the broker, each number is in range, and each text, property and message
/// fits. Of records of which it keeps nothing it says nothing: polls of consumers, calls of ackers, delegates, drops, jobs, other tickets.
pub fn a_session_tells_what_it_may()
    ensures { (frame_max : ℕ) (events : List AnEvent) (e : AnEvent) → MayComeThen events e → MayTell (history_of frame_max events) e (told_behind frame_max events e) }
{}

/// Where two sessions, each after events of its own, tell of one event with one line, and the wire machine keeps something of both
/// records, it keeps the same. Nothing is assumed of the records.
pub fn a_line_fixes_what_sessions_keep()
    ensures { (m n : ℕ) (es fs : List AnEvent) (e : AnEvent) (a b : ARecord) → MayComeThen es e → MayComeThen fs e → record_line (told_behind m es e) ≡ record_line (told_behind n fs e) → kept (history_of m es) e (told_behind m es e) ≡ Some a → kept (history_of n fs) e (told_behind n fs e) ≡ Some b → a ≡ b }
{
    a_line_fixes_what_is_kept();
}
