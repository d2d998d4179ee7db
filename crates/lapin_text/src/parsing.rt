//! Whole inputs: the greatest frame size of the first line, and the steps of the other lines up to the first bad line. Which kind of step
//! is meant, and how its line is read, an `impl` of `ReadLine` says: that of events stands here, others stand beside the lines of their
//! steps.

ghost use Rattle.std.specs.Prelude.{◌≡◌, IfOk, MatchOption};
ghost use Rattle.lapin_text.specs.Events as events;
ghost use Rattle.lapin_text.specs.Input.{lines_of, max_line, IsMax, NoMax, AreSteps, LinesSay, AreParsed};

use crate::lines::Lines;
use crate::reading::read_event;
use lapin_tokens::read_num;
use lapin_types::{Event, NoMemory};
use std::alloc::Global;

/// What the lines of an input are behind the first one: steps of one kind. Nobody makes a value of such a type: it says which kind is
/// meant.
pub trait ReadLine {
    ghost use Rattle.std.specs.Prelude.{ℕ, List, IfOk, IfSome, IfNone};
    ghost use Rattle.lapin_text.specs.Input.{IsStep, NoStep};

    /// A step.
    type Step: Drop;

    /// No step's line is shorter.
    const SHORTEST: usize;

    /// The line of a step.
    ghost line_of: { Self.Step → List ℕ };

    /// The steps that have a line.
    ghost has_line: { Self.Step → Type 0 };

    /// The step whose line the bytes are, without a line end, or `None` where no step that has a line has this one.
    ///
    /// # Errors
    /// `NoMemory`.
    fn read(alloc: Global, line: &[u8]) -> Result<Option<Self::Step>, NoMemory>
        ensures found { IfOk result (λ o. IfSome o (λ s. IsStep line_of has_line line.now s)) }
        ensures none { IfOk result (λ o. IfNone o (NoStep line_of has_line line.now)) };
}

/// The greatest frame size that a first line gives, or `None` where it is no such line.
pub fn read_max(line: &[u8]) -> Option<u32>
    ensures { MatchOption result (NoMax line.now) (λ m. IsMax m × (line.now ≡ max_line m)) }
{
    match line.strip_prefix(b"frame_max ") {
        Some(piece) => match read_num(piece) {
            Some(number) if 4096 <= number && number <= 0xffff_ffff => Some(number as u32),
            _ => None,
        },
        None => None,
    }
}

/// How many lines come before the first that is shorter than any step's: so many steps there may be. Room is made for them at once,
/// since a step is large and a list that grows by doubling would hold up to twice as much.
fn steps_at_most(lines: &Lines, shortest: usize) -> usize {
    let mut ahead = lines.again();
    let mut count: usize = 0;
    while let Some(line) = ahead.next() {
        if line.len() < shortest {
            break;
        }
        count = count.saturating_add(1);
    }
    count
}

fn read_steps<R: ReadLine>(
    alloc: Global,
    lines: &mut Lines,
) -> Result<(Vec<R::Step>, Option<u64>), NoMemory>
    ensures { IfOk result (λ p. AreSteps R.line_of R.has_line 2 lines.old p.0.items p.1) }
{
    let mut steps = Vec::with_capacity(alloc, steps_at_most(lines, R::SHORTEST))?;
    while let Some(line) = lines.next() {
        match R::read(alloc, line)? {
            Some(step) => steps.push(step)?,
            None => {
                let bad = steps.len() as u64 + 2;
                return Ok((steps, Some(bad)));
            }
        }
    }
    Ok((steps, None))
}

/// Reads an input: the greatest frame size of the first line, the steps up to the first line that isn't in the grammar, and the number
/// of that line. Where line 1 is the bad one there is no frame size.
///
/// # Errors
/// `NoMemory`.
pub fn parse_lines<R: ReadLine>(
    alloc: Global,
    bytes: &[u8],
) -> Result<(Option<u32>, Vec<R::Step>, Option<u64>), NoMemory>
    ensures { IfOk result (λ p. LinesSay R.line_of R.has_line (lines_of bytes.now) p.0 p.1.items p.2) }
{
    let mut lines = Lines::new(bytes);
    let max = match lines.next() {
        Some(line) => read_max(line),
        None => None,
    };
    match max {
        Some(max) => {
            let (steps, bad) = read_steps::<R>(alloc, &mut lines)?;
            Ok((Some(max), steps, bad))
        }
        None => Ok((None, Vec::new(alloc), Some(1))),
    }
}

/// Lines of events.
enum EventLines {}

impl ReadLine for EventLines {
    type Step = Event;

    const SHORTEST: usize = 3;

    ghost line_of = { events.line_of };

    ghost has_line = { events.HasLine };

    fn read(alloc: Global, line: &[u8]) -> Result<Option<Event>, NoMemory> {
        read_event(alloc, line)
    }
}

/// What an input says.
#[derive(Debug, Drop)]
pub struct Parsed {
    /// The number of the first line `frame_max NUM`, at least 4096, or `None` where line 1 is the bad line.
    pub frame_max: Option<u32>,
    /// The events of the lines from the second on, before the bad line if there is one.
    pub events: Vec<Event>,
    /// The number of the first bad line, where lines count from 1.
    pub bad: Option<u64>,
}

/// Reads an input: the first line, and the events up to the first line that isn't in the grammar.
///
/// # Errors
/// `NoMemory`.
pub fn parse_events(alloc: Global, bytes: &[u8]) -> Result<Parsed, NoMemory>
    ensures { IfOk result (λ p. AreParsed (lines_of bytes.now) p.frame_max p.events.items p.bad) }
{
    let (frame_max, events, bad) = parse_lines::<EventLines>(alloc, bytes)?;
    Ok(Parsed {
        frame_max,
        events,
        bad,
    })
}
