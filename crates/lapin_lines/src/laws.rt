//! A law of lines, on a function with an empty body.

ghost use Rattle.std.specs.Prelude.{◌≡◌};
ghost use Rattle.lapin_types.specs.declared.event.Event.{Event as AnEvent};
ghost use Rattle.lapin_types.specs.declared.record.Record.{Record as ARecord};
ghost use Rattle.lapin_text.specs.Records.{record_line};
ghost use Rattle.lapin_rules.specs.History.{History as AHistory};
ghost use Rattle.lapin_rules.specs.Machine.{kept};
ghost use Rattle.lapin_lines.specs.KeptLines.{MayTell};

/// The line of a record, together with its event, fixes what the wire machine keeps of the record: where two records may both be that of
/// one event and have one line, what is kept of them is the same. A frame has a text, which one with a custom kind of exchange that is
/// named like a known one has not.
pub fn a_line_fixes_what_is_kept()
    ensures { (h : AHistory) (e : AnEvent) (r s : ARecord) → MayTell h e r → MayTell h e s → record_line r ≡ record_line s → kept h e r ≡ kept h e s }
{}
