//! Whole inputs of a check: the greatest frame size of the first line, and what is seen by the other lines up to the first bad one.

ghost use Rattle.std.specs.Prelude.{IfOk};
ghost use Rattle.lapin_text.specs.Input.{lines_of, LinesSay};
ghost use Rattle.lapin_check_text.specs.Seen.{seen_line, HasLine};

use crate::seen::read_seen;
use lapin_check::Seen;
use lapin_text::{ReadLine, parse_lines};
use lapin_types::NoMemory;
use std::alloc::Global;

/// What an input of a check says.
#[derive(Debug, Drop)]
pub struct ParsedSeen {
    /// The number of the first line `frame_max NUM`, at least 4096, or `None` where line 1 is the bad line.
    pub frame_max: Option<u32>,
    /// What is seen by the lines from the second on, before the bad line if there is one.
    pub transcript: Vec<Seen>,
    /// The number of the first bad line, where lines count from 1.
    pub bad: Option<u64>,
}

/// Lines by which something is seen.
enum SeenLines {}

impl ReadLine for SeenLines {
    type Step = Seen;

    const SHORTEST: usize = 3;

    ghost line_of = { seen_line };

    ghost has_line = { HasLine };

    fn read(alloc: Global, line: &[u8]) -> Result<Option<Seen>, NoMemory> {
        read_seen(alloc, line)
    }
}

/// Reads an input: the first line, and what is seen up to the first line that isn't in the grammar.
///
/// # Errors
/// `NoMemory`.
pub fn parse_seen(alloc: Global, bytes: &[u8]) -> Result<ParsedSeen, NoMemory>
    ensures { IfOk result (λ p. LinesSay seen_line HasLine (lines_of bytes.now) p.frame_max p.transcript.items p.bad) }
{
    let (frame_max, transcript, bad) = parse_lines::<SeenLines>(alloc, bytes)?;
    Ok(ParsedSeen {
        frame_max,
        transcript,
        bad,
    })
}
