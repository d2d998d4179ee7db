//! The command `session`: each line of its input is an event, which a new session meets, and its record is printed.
//!
//! What becomes of a line stands in `lapin_lines`.
ghost use Rattle.std.specs.Prelude.{◌≡◌};
ghost use Rattle.lapin_machine.specs.World.{World};
ghost use Rattle.lapin_machine.specs.Numbers.{HasNumbersFor};
ghost use Rattle.lapin_commands.specs.Session.{PrintsSession, SessionGoesOn};
ghost use Rattle.lapin_commands.specs.Laws.{session_ends, session_first};
ghost use Rattle.lapin_commands.specs.EveryLine.{session_goes};
ghost use Rattle.lapin_commands.specs.OneReading.{session_one};

use lapin_inputs::Run;
use lapin_lines::take_line;
use lapin_machine::Session;
use lapin_types::NoMemory;
use std::alloc::Global;

/// The command `session`, as a run that the lines of an input drive: a new session, which meets an event a line. No word stands behind
/// its own.
pub enum OfSession {}

impl Run for OfSession {
    type State = Session;

    ghost admits = { λ none. Unit {0} };

    ghost prints = { λ none input bad text. PrintsSession input bad text };

    ghost Past = { World };

    ghost stands = { λ past run. past ≡ run };

    ghost goes_on = { λ w n lines bad text. SessionGoesOn w n lines bad text };

    ghost takes = { λ n w. HasNumbersFor n w };

    fn begin(alloc: Global, _argument: &str, frame_max: u32) -> Result<Session, NoMemory> {
        Session::new(alloc, frame_max)
    }

    fn take_line(
        alloc: Global,
        run: &mut Session,
        line: &[u8],
        text: &mut Vec<u8>,
    ) -> Result<bool, NoMemory> {
        take_line(alloc, run, line, text)
    }

    ghost ends = { λ w n. session_ends w n };

    ghost goes = { λ w n lines. session_goes w n lines };

    ghost one = { λ none input text other line all bad. session_one input text other line all bad };

    ghost first = { λ none input missing. session_first input missing };
}
