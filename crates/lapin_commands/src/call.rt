//! The command `call QUEUE`: each line of its input is a step of calls over queues, whose replies come to the queue, and its report
//! is printed.
//!
//! What a line says and how a report is written stands in `lapin_call_text`, what a step reports in `lapin_call`.
ghost use Rattle.std.specs.Prelude.{◌≡◌, ◌++◌, ◌∷◌, [], ◌+◌, ◌≤◌, ◌<◌, ◌^◌, length, false, OnOk};
ghost use Rattle.lapin_text.specs.Records.{line_onto};
ghost use Rattle.lapin_machine.specs.Way.{by_machine};
ghost use Rattle.lapin_call.specs.CallRun.{CallRun};
ghost use Rattle.lapin_call.specs.Calls.{after, report};
ghost use Rattle.lapin_call_text.specs.Reports.{report_tokens};
ghost use Rattle.lapin_commands.specs.Call.{PrintsCalls, CallsGoOn};
ghost use Rattle.lapin_commands.specs.Laws.{calls_end, calls_first};
ghost use Rattle.lapin_commands.specs.EveryCallLine.{calls_go};
ghost use Rattle.lapin_commands.specs.OneReading.{calls_one};

use lapin_call::{CallReport, CallStep, Calls};
use lapin_call_text::{put_report, read_step};
use lapin_inputs::Run;
use lapin_types::{NoMemory, ShortString};
use std::alloc::Global;

/// The command `call QUEUE`, as a run that the lines of an input drive: calls over queues, with a step a line. The word behind its own is
/// the queue that the replies come to, of at most 255 bytes.
pub enum OfCalls {}

impl Run for OfCalls {
    type State = Calls;

    ghost admits = { λ queue. length queue ≤ 255 };

    ghost prints = { λ queue input bad text. PrintsCalls queue input bad text };

    ghost Past = { CallRun };

    ghost stands = { λ past run. past ≡ run };

    ghost goes_on = { λ k n lines bad text. CallsGoOn k n lines bad text };

    ghost takes = { λ n k. k.steps + n ≤ 2 ^ 31 };

    fn begin(alloc: Global, argument: &str, frame_max: u32) -> Result<Calls, NoMemory> {
        let Ok(queue) = ShortString::new(alloc, argument) else {
            return Err(NoMemory);
        };
        Calls::new(alloc, frame_max, queue)
    }

    fn take_line(
        alloc: Global,
        run: &mut Calls,
        line: &[u8],
        text: &mut Vec<u8>,
    ) -> Result<bool, NoMemory> {
        match read_step(alloc, line)? {
            Some(step) => {
                print_step(alloc, run, step, text)?;
                Ok(true)
            }
            None => Ok(false),
        }
    }

    ghost ends = { λ k n. calls_end k n };

    ghost goes = { λ k n lines. calls_go k n lines };

    ghost one = { λ queue input text other line all bad. calls_one queue input text other line all bad };

    ghost first = { λ queue input none. calls_first queue input none };
}

// Makes a step, and appends the line of its report.
fn print_step(
    alloc: Global,
    run: &mut Calls,
    step: CallStep,
    text: &mut Vec<u8>,
) -> Result<(), NoMemory>
    ensures run { OnOk result (run.new ≡ record { requester = after by_machine step run.old.requester; steps = run.old.steps + 1; stopped = false }) }
    ensures text { OnOk result (text.new.items ≡ line_onto text.old.items (report_tokens (report by_machine step run.old.requester)) ++ 10 ∷ []) }
{
    match run.step(alloc, step) {
        Ok(reported) => {
            let put = put_line(alloc, text, &reported);
            drop(reported);
            put
        }
        Err(_) => Err(NoMemory),
    }
}

// Appends the line of a report.
fn put_line(alloc: Global, text: &mut Vec<u8>, reported: &CallReport) -> Result<(), NoMemory>
    ensures { OnOk result (text.new.items ≡ line_onto text.old.items (report_tokens reported.now) ++ 10 ∷ []) }
{
    put_report(alloc, text, reported)?;
    text.push(b'\n')?;
    Ok(())
}
