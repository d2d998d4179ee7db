//! The lines of reports: `message N`, the line of a joined run's report, `waiting`, `stored` and `unknown`.

ghost use Rattle.std.specs.Prelude.{OnOk, ◌≡◌};
ghost use Rattle.lapin_text.specs.Records.{line_onto};
ghost use Rattle.lapin_resend.specs.declared.step.ResendReport.TheVariants as told;
ghost use Rattle.lapin_resend_text.specs.Reports.{resend_tokens};

use lapin_joint_text::put_report;
use lapin_resend::ResendReport;
use lapin_tokens::put_count;
use std::alloc::{AllocError, Global};

/// Adds the report's line, without a line end. Where memory runs out, the text may end within it.
pub fn put_resend_report(
    alloc: Global,
    out: &mut Vec<u8>,
    report: &ResendReport,
) -> Result<(), AllocError>
    ensures { OnOk result (out.new.items ≡ line_onto out.old.items (resend_tokens report.now)) }
{
    match report {
        ResendReport::Message(number) => put_message(out, *number),
        ResendReport::Joined(report) => put_report(alloc, out, report),
        ResendReport::Waiting => out.extend_from_slice(b"waiting"),
        ResendReport::Stored => out.extend_from_slice(b"stored"),
        ResendReport::Unknown => out.extend_from_slice(b"unknown"),
    }
}

// The number that a message took.
fn put_message(out: &mut Vec<u8>, number: u64) -> Result<(), AllocError>
    ensures { OnOk result (out.new.items ≡ line_onto out.old.items (resend_tokens (told.Message number))) }
{
    out.extend_from_slice(b"message")?;
    put_count(out, number)
}
