//! The command `resend`: each line of its input is a step of a publisher that sends again after a loss, and its report is printed.
//!
//! What a line says and how a report is written stands in `lapin_resend_text`, what a step reports in `lapin_resend`.
ghost use Rattle.std.specs.Prelude.{◌≡◌, ◌+◌, ◌≤◌, ◌<◌, ◌++◌, ◌∷◌, [], ℕ, List, OnOk};
ghost use Rattle.lapin_text.specs.Records.{line_onto};
ghost use Rattle.lapin_resend.specs.declared.step.ResendStep.{ResendStep as AStep};
ghost use Rattle.lapin_resend.specs.declared.step.ResendReport.{ResendReport as AReport};
ghost use Rattle.lapin_resend.specs.Resend.{resend};
ghost use Rattle.lapin_resend.specs.Sending.{StandsForSteps, most_steps};
ghost use Rattle.lapin_resend_text.specs.Reports.{resend_tokens};
ghost use Rattle.lapin_commands.specs.Resend.{PrintsResend, ResendGoesOn};
ghost use Rattle.lapin_commands.specs.Laws.{resend_ends, resend_first};
ghost use Rattle.lapin_commands.specs.EveryResendLine.{resend_goes};
ghost use Rattle.lapin_commands.specs.OneReading.{resend_one};

use lapin_inputs::Run;
use lapin_resend::{Resend, ResendReport, ResendStep};
use lapin_resend_text::{put_resend_report, read_resend_step};
use lapin_types::NoMemory;
use std::alloc::Global;

/// The command `resend`, as a run that the lines of an input drive: a publisher that sends again after a loss, with a step a line. No word
/// stands behind its own.
pub enum OfResend {}

impl Run for OfResend {
    type State = Resend;

    ghost admits = { λ none. Unit {0} };

    ghost prints = { λ none input bad text. PrintsResend input bad text };

    ghost Past = { ℕ × List AStep };

    ghost stands = { λ past run. StandsForSteps past.0 past.1 run };

    ghost goes_on = { λ past n lines bad text. ResendGoesOn past.0 past.1 n lines bad text };

    ghost takes = { λ n k. k.steps + n ≤ most_steps };

    fn begin(alloc: Global, _argument: &str, frame_max: u32) -> Result<Resend, NoMemory> {
        Resend::new(alloc, frame_max)
    }

    fn take_line(
        alloc: Global,
        run: &mut Resend,
        line: &[u8],
        text: &mut Vec<u8>,
    ) -> Result<bool, NoMemory> {
        match read_resend_step(alloc, line)? {
            Some(step) => {
                print_step(alloc, run, step, text)?;
                Ok(true)
            }
            None => Ok(false),
        }
    }

    ghost ends = { λ past n. resend_ends past.0 past.1 n };

    ghost goes = { λ past n lines. resend_goes past.0 past.1 n lines };

    ghost one = { λ none input text other line all bad. resend_one input text other line all bad };

    ghost first = { λ none input missing. resend_first input missing };
}

// Makes a step, and appends the line of its report.
fn print_step(
    alloc: Global,
    run: &mut Resend,
    step: ResendStep,
    text: &mut Vec<u8>,
) -> Result<(), NoMemory>
    requires { run.old.steps < most_steps }
    ensures told { OnOk result ((m : ℕ) (steps : List AStep) → StandsForSteps m steps run.old →
        (report : AReport) × (resend m (steps ++ step ∷ []) ≡ resend m steps ++ report ∷ []) × StandsForSteps m (steps ++ step ∷ []) run.new × (text.new.items ≡ line_onto text.old.items (resend_tokens report) ++ 10 ∷ [])) }
    ensures counted { OnOk result (run.new.steps ≡ run.old.steps + 1) }
{
    match run.step(alloc, step) {
        Ok(report) => {
            let put = put_line(alloc, text, &report);
            drop(report);
            put
        }
        Err(_) => Err(NoMemory),
    }
}

// Appends the line of a report.
fn put_line(alloc: Global, text: &mut Vec<u8>, report: &ResendReport) -> Result<(), NoMemory>
    ensures { OnOk result (text.new.items ≡ line_onto text.old.items (resend_tokens report.now) ++ 10 ∷ []) }
{
    put_resend_report(alloc, text, report)?;
    text.push(b'\n')?;
    Ok(())
}
