//! The command `joined`: each line of its input is a step of a session that is joined to a free broker, and its report is
//! printed.
//!
//! What a line says and how a report is written stands in `lapin_joint_text`, what a step reports in `lapin_joint`. An event of the
//! client is met by the session as its line is read, in `lapin_lines`, and a frame that is handed out is written from the link that it
//! goes to: neither an event nor a record is made for these.
ghost use Rattle.std.specs.Prelude.{◌≡◌, ◌++◌, ◌∷◌, [], ◌≢◌, None, codes, IfOk, IfSome, OnOk, slice_index, if◌then◌else◌};
ghost use Rattle.std.specs.Option.{option_copied};
ghost use Rattle.lapin_types.specs.declared.event.Event.TheVariants as event;
ghost use Rattle.lapin_types.specs.declared.record.Record.TheVariants as told;
ghost use Rattle.lapin_text.specs.Events.{line_of};
ghost use Rattle.lapin_text.specs.Records.{line_onto, record_tokens};
ghost use Rattle.lapin_machine.specs.World.{World};
ghost use Rattle.lapin_joint.specs.Joint.{Joint, handed_record, IsDelivered};
ghost use Rattle.lapin_joint.specs.JoinedRun.{CanTake};
ghost use Rattle.lapin_joint.specs.declared.step.Reported.{Reported as AReport};
ghost use Rattle.lapin_joint.specs.declared.step.Step.TheVariants as step_;
ghost use Rattle.lapin_joint_text.specs.Reports.{report_tokens};
ghost use Rattle.lapin_commands.specs.Joined.{PrintsJoined, JoinedGoesOn, IsMade, IsStepMade};
ghost use Rattle.lapin_commands.specs.Laws.{joined_ends, joined_first};
ghost use Rattle.lapin_commands.specs.EveryLine.{joined_goes};
ghost use Rattle.lapin_commands.specs.OneReading.{joined_one};

use lapin_inputs::Run;
use lapin_joint::{Links, Reported, Step};
use lapin_joint_text::{client_event, put_report, read_sent, read_step, sent_frame};
use lapin_lines::take_line;
use lapin_machine::Heard;
use lapin_text::{put_handed, put_refused};
use lapin_types::{Error, Frame, NoMemory};
use std::alloc::Global;

/// The command `joined`, as a run that the lines of an input drive: a new session that is joined to a free broker, with a step a line. No
/// word stands behind its own.
pub enum OfJoined {}

impl Run for OfJoined {
    type State = Links;

    ghost admits = { λ none. Unit {0} };

    ghost prints = { λ none input bad text. PrintsJoined input bad text };

    ghost Past = { Joint World };

    ghost stands = { λ past run. past ≡ run };

    ghost goes_on = { λ j n lines bad text. JoinedGoesOn j n lines bad text };

    ghost takes = { λ n j. CanTake n j };

    fn begin(alloc: Global, _argument: &str, frame_max: u32) -> Result<Links, NoMemory> {
        Links::new(alloc, frame_max)
    }

    fn take_line(
        alloc: Global,
        run: &mut Links,
        line: &[u8],
        text: &mut Vec<u8>,
    ) -> Result<bool, NoMemory> {
        take_step(alloc, run, line, text)
    }

    ghost ends = { λ j n. joined_ends j n };

    ghost goes = { λ j n lines. joined_goes j n lines };

    ghost one = { λ none input text other line all bad. joined_one input text other line all bad };

    ghost first = { λ none input missing. joined_first input missing };
}

// Takes a line: where it says a step, that is made and the line of its report appended. Whether it says one.
fn take_step(
    alloc: Global,
    run: &mut Links,
    line: &[u8],
    text: &mut Vec<u8>,
) -> Result<bool, NoMemory>
    requires { CanTake 1 run.old }
    ensures { IfOk result (IsStepMade line.now run.old run.new text.old.items text.new.items) }
{
    match client_event(line) {
        Some(said) => take_client(alloc, run, line, said, text),
        None => take_other(alloc, run, line, text),
    }
}

// Takes a line that begins with `client `. A broker's frame and the loss are no events of the client alone, and few lines say these.
fn take_client(
    alloc: Global,
    run: &mut Links,
    line: &[u8],
    said: &[u8],
    text: &mut Vec<u8>,
) -> Result<bool, NoMemory>
    requires takes { CanTake 1 run.old }
    requires behind { line.now ≡ codes "client " ++ said.now }
    ensures { IfOk result (IsStepMade line.now run.old run.new text.old.items text.new.items) }
{
    match first_byte(said) {
        b'n' => take_request(alloc, run, line, said, text),
        b'r' | b'l' => take_any(alloc, run, line, text),
        _ => take_event(alloc, run, line, said, text),
    }
}

fn first_byte(said: &[u8]) -> u8
    ensures { result ≡ slice_index said.now 0 }
{
    match said {
        [first, ..] => *first,
        [] => 0,
    }
}

// Takes a line of the client that begins with an n, as that of a frame request does.
fn take_request(
    alloc: Global,
    run: &mut Links,
    line: &[u8],
    said: &[u8],
    text: &mut Vec<u8>,
) -> Result<bool, NoMemory>
    requires takes { CanTake 1 run.old }
    requires behind { line.now ≡ codes "client " ++ said.now }
    ensures { IfOk result (IsStepMade line.now run.old run.new text.old.items text.new.items) }
{
    match flow_of(said) {
        Some(flow) => {
            print_request(alloc, run, flow, text)?;
            Ok(true)
        }
        None => take_any(alloc, run, line, text),
    }
}

// What a frame request says of the flow, where the line is one.
fn flow_of(said: &[u8]) -> Option<bool>
    ensures { IfSome result (λ flow. said.now ≡ line_of (event.Next flow)) }
{
    if said == b"next 1".as_slice() {
        Some(true)
    } else if said == b"next 0".as_slice() {
        Some(false)
    } else {
        None
    }
}

// Asks for a frame, and appends the line of what is handed out.
fn print_request(
    alloc: Global,
    run: &mut Links,
    flow: bool,
    text: &mut Vec<u8>,
) -> Result<(), NoMemory>
    requires { run.old.session.returned ≡ None }
    ensures { OnOk result (IsMade (step_.Client (event.Next flow)) run.old run.new text.old.items text.new.items) }
{
    let some = run.hand(alloc, flow)?;
    put_request(alloc, run.newest(some), text)
}

// Appends the line of a frame that was handed out, or of none.
fn put_request(alloc: Global, handed: Option<&Frame>, text: &mut Vec<u8>) -> Result<(), NoMemory>
    ensures { OnOk result (text.new.items ≡ line_onto text.old.items (record_tokens (handed_record (option_copied handed.entry))) ++ 10 ∷ []) }
{
    match handed {
        Some(frame) => {
            put_handed(alloc, text, frame)?;
            text.push(b'\n')?;
            Ok(())
        }
        None => {
            text.extend_from_slice(b"noframe\n")?;
            Ok(())
        }
    }
}

// Takes a line of the client whose event is lawful and hands no frame out.
fn take_event(
    alloc: Global,
    run: &mut Links,
    line: &[u8],
    said: &[u8],
    text: &mut Vec<u8>,
) -> Result<bool, NoMemory>
    requires takes { CanTake 1 run.old }
    requires behind { line.now ≡ codes "client " ++ said.now }
    requires request { slice_index said.now 0 ≢ 110 }
    requires frame { slice_index said.now 0 ≢ 114 }
    requires loss { slice_index said.now 0 ≢ 108 }
    ensures { IfOk result (IsStepMade line.now run.old run.new text.old.items text.new.items) }
{
    take_line(alloc, &mut run.session, said, text)
}

// Takes a line that doesn't begin with `client `.
fn take_other(
    alloc: Global,
    run: &mut Links,
    line: &[u8],
    text: &mut Vec<u8>,
) -> Result<bool, NoMemory>
    requires { CanTake 1 run.old }
    ensures { IfOk result (IsStepMade line.now run.old run.new text.old.items text.new.items) }
{
    if line == b"read".as_slice() {
        print_read(alloc, run, text)?;
        return Ok(true);
    }
    if line == b"deliver".as_slice() {
        print_delivered(alloc, run, text)?;
        return Ok(true);
    }
    match sent_frame(line) {
        Some(said) => take_sent(alloc, run, line, said, text),
        None => take_any(alloc, run, line, text),
    }
}

// Takes a line that begins with `send `.
fn take_sent(
    alloc: Global,
    run: &mut Links,
    line: &[u8],
    said: &[u8],
    text: &mut Vec<u8>,
) -> Result<bool, NoMemory>
    requires { line.now ≡ codes "send " ++ said.now }
    ensures { IfOk result (IsStepMade line.now run.old run.new text.old.items text.new.items) }
{
    match read_sent(alloc, line, said)? {
        Some(frame) => {
            print_sent(alloc, run, frame, text)?;
            Ok(true)
        }
        None => Ok(false),
    }
}

// The broker sends a frame, and the line of that is appended.
fn print_sent(
    alloc: Global,
    run: &mut Links,
    frame: Frame,
    text: &mut Vec<u8>,
) -> Result<(), NoMemory>
    ensures { OnOk result (IsMade (step_.Send frame) run.old run.new text.old.items text.new.items) }
{
    let sent = run.try_send(alloc, frame)?;
    put_either(text, sent, b"sent\n", b"notlawful\n")
}

// The broker reads a frame, and the line of that is appended.
fn print_read(alloc: Global, run: &mut Links, text: &mut Vec<u8>) -> Result<(), NoMemory>
    ensures { OnOk result (IsMade step_.Read run.old run.new text.old.items text.new.items) }
{
    let some = run.read_next(alloc)?;
    put_either(text, some, b"read\n", b"nothing\n")
}

// Appends the first line or the second one. Each caller knows their lengths.
#[inline(always)]
fn put_either(text: &mut Vec<u8>, first: bool, one: &[u8], other: &[u8]) -> Result<(), NoMemory>
    ensures { OnOk result (text.new.items ≡ text.old.items ++ (if first then one.now else other.now)) }
{
    if first {
        text.extend_from_slice(one)?;
        return Ok(());
    }
    text.extend_from_slice(other)?;
    Ok(())
}

// The session receives a frame, and the line of what becomes of it is appended.
fn print_delivered(alloc: Global, run: &mut Links, text: &mut Vec<u8>) -> Result<(), NoMemory>
    requires { CanTake 1 run.old }
    ensures { OnOk result (IsMade step_.Deliver run.old run.new text.old.items text.new.items) }
{
    let heard = run.deliver_next(alloc)?;
    put_heard(alloc, text, heard)
}

// Appends the line of what became of a frame, if one was delivered.
fn put_heard(
    alloc: Global,
    text: &mut Vec<u8>,
    heard: Option<Result<Heard, Error>>,
) -> Result<(), NoMemory>
    ensures { OnOk result ((r : AReport) → IsDelivered heard r → text.new.items ≡ line_onto text.old.items (report_tokens r) ++ 10 ∷ []) }
{
    match heard {
        Some(Ok(Heard::Received)) => {
            text.extend_from_slice(b"received\n")?;
            Ok(())
        }
        Some(Ok(Heard::Passed)) => {
            text.extend_from_slice(b"passed\n")?;
            Ok(())
        }
        Some(Err(error)) => put_refusal(alloc, text, error),
        None => {
            text.extend_from_slice(b"nothing\n")?;
            Ok(())
        }
    }
}

// Appends the line of a frame that the session refused.
#[inline(never)]
fn put_refusal(alloc: Global, text: &mut Vec<u8>, error: Error) -> Result<(), NoMemory>
    ensures { OnOk result (text.new.items ≡ line_onto text.old.items (record_tokens (told.Refused error)) ++ 10 ∷ []) }
{
    put_refused(alloc, text, error)?;
    text.push(b'\n')?;
    Ok(())
}

// Takes a line by its step.
#[inline(never)]
fn take_any(
    alloc: Global,
    run: &mut Links,
    line: &[u8],
    text: &mut Vec<u8>,
) -> Result<bool, NoMemory>
    requires { CanTake 1 run.old }
    ensures { IfOk result (IsStepMade line.now run.old run.new text.old.items text.new.items) }
{
    match read_step(alloc, line)? {
        Some(step) => {
            print_step(alloc, run, step, text)?;
            Ok(true)
        }
        None => Ok(false),
    }
}

// Makes a step, and appends the line of its report.
fn print_step(
    alloc: Global,
    run: &mut Links,
    step: Step,
    text: &mut Vec<u8>,
) -> Result<(), NoMemory>
    requires { CanTake 1 run.old }
    ensures { OnOk result (IsMade step run.old run.new text.old.items text.new.items) }
{
    let reported = run.make(alloc, step)?;
    let put = put_line(alloc, text, &reported);
    drop(reported);
    put
}

// Appends the line of a report.
fn put_line(alloc: Global, text: &mut Vec<u8>, reported: &Reported) -> Result<(), NoMemory>
    ensures { OnOk result (text.new.items ≡ line_onto text.old.items (report_tokens reported.now) ++ 10 ∷ []) }
{
    put_report(alloc, text, reported)?;
    text.push(b'\n')?;
    Ok(())
}
