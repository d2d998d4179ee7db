//! Whole inputs of joined runs: the greatest frame size of the first line, and the steps of the other lines up to the first bad line.

ghost use Rattle.std.specs.Prelude.{IfOk};
ghost use Rattle.lapin_text.specs.Input.{lines_of, LinesSay};
ghost use Rattle.lapin_joint_text.specs.Steps.{step_line, HasLine};

use crate::steps::read_step;
use lapin_joint::Step;
use lapin_text::{ReadLine, parse_lines};
use lapin_types::NoMemory;
use std::alloc::Global;

/// What an input of a joined run says.
#[derive(Debug, Drop)]
pub struct ParsedSteps {
    /// The number of the first line `frame_max NUM`, at least 4096, or `None` where line 1 is the bad line.
    pub frame_max: Option<u32>,
    /// The steps of the lines from the second on, before the bad line if there is one.
    pub steps: Vec<Step>,
    /// The number of the first bad line, where lines count from 1.
    pub bad: Option<u64>,
}

/// Lines of steps.
enum StepLines {}

impl ReadLine for StepLines {
    type Step = Step;

    const SHORTEST: usize = 4;

    ghost line_of = { step_line };

    ghost has_line = { HasLine };

    fn read(alloc: Global, line: &[u8]) -> Result<Option<Step>, NoMemory> {
        read_step(alloc, line)
    }
}

/// Reads an input: the first line, and the steps up to the first line that isn't in the grammar.
///
/// # Errors
/// `NoMemory`.
pub fn parse_steps(alloc: Global, bytes: &[u8]) -> Result<ParsedSteps, NoMemory>
    ensures { IfOk result (λ p. LinesSay step_line HasLine (lines_of bytes.now) p.frame_max p.steps.items p.bad) }
{
    let (frame_max, steps, bad) = parse_lines::<StepLines>(alloc, bytes)?;
    Ok(ParsedSteps {
        frame_max,
        steps,
        bad,
    })
}
