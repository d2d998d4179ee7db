//! The lines of reports: the record's line of an event, or a word with what it tells.

ghost use Rattle.std.specs.Prelude.{◌≡◌, OnOk};
ghost use Rattle.lapin_text.specs.Records.{line_onto};
ghost use Rattle.lapin_call_text.specs.Reports.{report_tokens};

use lapin_call::CallReport;
use lapin_text::{name_of_state, put_error_line, put_record};
use lapin_tokens::{put_bytes, put_count, put_word};
use std::alloc::{AllocError, Global};

/// Adds the report's line, without a line end. Where memory runs out, the text may end within it.
pub fn put_report(alloc: Global, out: &mut Vec<u8>, report: &CallReport) -> Result<(), AllocError>
    ensures { OnOk result (out.new.items ≡ line_onto out.old.items (report_tokens report.now)) }
{
    match report {
        CallReport::Session(record) => put_record(alloc, out, record),
        CallReport::Asked(number) => {
            out.extend_from_slice(b"call")?;
            put_count(out, *number)
        }
        CallReport::NotOpen(state) => {
            out.extend_from_slice(b"notopen")?;
            put_word(out, name_of_state(*state))
        }
        CallReport::Collected {
            answers,
            repeats,
            strangers,
        } => {
            out.extend_from_slice(b"collected")?;
            put_count(out, *answers)?;
            put_count(out, *repeats)?;
            put_count(out, *strangers)
        }
        CallReport::Waiting => out.extend_from_slice(b"waiting"),
        CallReport::Reply(payload) => {
            out.extend_from_slice(b"reply")?;
            put_bytes(alloc, out, payload.as_bytes())
        }
        CallReport::Ended(error) => put_error_line(alloc, out, b"ended", *error),
        CallReport::Taken => out.extend_from_slice(b"taken"),
        CallReport::Unknown => out.extend_from_slice(b"unknown"),
    }
}
