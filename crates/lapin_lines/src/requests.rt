//! A frame request: `next BOOL`.
ghost use Rattle.std.specs.Prelude.{◌≡◌, ◌++◌, ◌∷◌, [], IfOk, IsOk, OnOk};
ghost use Rattle.lapin_types.specs.declared.event.Event.TheVariants as event;
ghost use Rattle.lapin_rules.specs.Handing.{frame_record};
ghost use Rattle.lapin_machine.specs.Numbers.{HasNumbersFor};
ghost use Rattle.lapin_text.specs.LineReading.{whole, event_of_word};
ghost use Rattle.lapin_text.specs.Records.{record_tokens, line_onto};
ghost use Rattle.lapin_text.specs.declared.words.Word.TheVariants as word;
ghost use Rattle.lapin_lines.specs.Lines.{IsMet, IsTaken};

use crate::steps::last;
use lapin_machine::Session;
use lapin_text::put_handed;
use lapin_tokens::{Tokens, flag};
use lapin_types::{Left, NoMemory};
use std::alloc::Global;

// Takes a line that began with `next`.
#[inline(never)]
pub(crate) fn take_next(
    alloc: Global,
    session: &mut Session,
    tokens: &mut Tokens,
    text: &mut Vec<u8>,
) -> Result<bool, NoMemory>
    requires { HasNumbersFor 1 session.old }
    ensures { IfOk result (IsTaken (whole (event_of_word word.Next tokens.old)) session.old session.new text.old.items text.new.items) }
{
    let flow = flag(tokens);
    match last(tokens, flow)? {
        Some(flow) => {
            print_next(alloc, session, flow, text)?;
            Ok(true)
        }
        None => Ok(false),
    }
}

// Asks for a frame, and appends the line of what is handed out.
fn print_next(
    alloc: Global,
    session: &mut Session,
    flow: bool,
    text: &mut Vec<u8>,
) -> Result<(), NoMemory>
    requires { HasNumbersFor 1 session.old }
    ensures { OnOk result (IsMet (event.Next flow) session.old session.new text.old.items text.new.items) }
{
    let handed = session.hand_frame(alloc, flow);
    let put = put_next(alloc, text, &handed);
    drop(handed);
    put
}

// Appends the line of what a frame request hands out. Nothing is written where it failed for want of memory.
fn put_next(
    alloc: Global,
    text: &mut Vec<u8>,
    handed: &Result<Option<Left>, NoMemory>,
) -> Result<(), NoMemory>
    ensures ok { OnOk result (IsOk handed.now) }
    ensures text { OnOk result (IfOk handed.now (λ left. text.new.items ≡ line_onto text.old.items (record_tokens (frame_record left)) ++ 10 ∷ [])) }
{
    match handed {
        Ok(Some(left)) => {
            put_handed(alloc, text, &left.frame)?;
            text.push(b'\n')?;
            Ok(())
        }
        Ok(None) => {
            text.extend_from_slice(b"noframe\n")?;
            Ok(())
        }
        Err(NoMemory) => Err(NoMemory),
    }
}
