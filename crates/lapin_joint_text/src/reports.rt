//! The lines of reports: the record's line of an event and of a frame that was received, else a word.

ghost use Rattle.std.specs.Prelude.{◌≡◌, IfOk, OnOk};
ghost use Rattle.lapin_text.specs.Records.{line_onto};
ghost use Rattle.lapin_joint_text.specs.Reports.{report_tokens, reports_text, reports_onto};

use lapin_joint::Reported;
use lapin_text::put_record;
use lapin_types::NoMemory;
use std::alloc::{AllocError, Global};

/// Adds the report's line, without a line end. Where memory runs out, the text may end within it.
pub fn put_report(alloc: Global, out: &mut Vec<u8>, report: &Reported) -> Result<(), AllocError>
    ensures { OnOk result (out.new.items ≡ line_onto out.old.items (report_tokens report.now)) }
{
    match report {
        Reported::Client(record) => put_record(alloc, out, record),
        Reported::Read => out.extend_from_slice(b"read"),
        Reported::Sent => out.extend_from_slice(b"sent"),
        Reported::Delivered(record) => put_record(alloc, out, record),
        Reported::Nothing => out.extend_from_slice(b"nothing"),
        Reported::NotLawful => out.extend_from_slice(b"notlawful"),
        Reported::Lost => out.extend_from_slice(b"lost"),
    }
}

fn put_reports(alloc: Global, out: &mut Vec<u8>, reports: &[Reported]) -> Result<(), AllocError>
    ensures { OnOk result (out.new.items ≡ reports_onto out.old.items reports.now) }
{
    for report in reports {
        put_report(alloc, out, report)?;
        out.push(b'\n')?;
    }
    Ok(())
}

/// The text of reports: the line of each in their order, ended by one line feed.
///
/// # Errors
/// `NoMemory`.
#[tactic(auto, using(crate::proofs::ReportLaws::text_from_onto))]
pub fn print_reports(alloc: Global, reports: &[Reported]) -> Result<Vec<u8>, NoMemory>
    ensures { IfOk result (λ text. text.items ≡ reports_text reports.now) }
{
    let mut text = Vec::new(alloc);
    put_reports(alloc, &mut text, reports)?;
    Ok(text)
}
