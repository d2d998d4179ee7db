//! The steps of a generated run: channel 1 is opened and selected, then each publish is made, handed out, read, acked and polled.

ghost use Rattle.std.specs.Prelude.{◌≤◌, ◌++◌, true, replicate, OnOk};
ghost use Rattle.lapin_types.specs.declared.event.Event.TheVariants as event;
ghost use Rattle.lapin_joint.specs.declared.step.Step.TheVariants as step;
ghost use Rattle.lapin_generate.specs.Generated.{most_publishes, opening, selecting, answered, acked, publish_steps};
ghost use Rattle.lapin_generate.specs.Tally.{HasMade, HasPassed, CanGo};

use crate::calls::{call, deliver, poll, publish, read, request, send};
use crate::messages::frame_count;
use crate::summary::Summary;
use lapin_joint::Links;
use lapin_types::{
    BasicMethod, Call, ChannelMethod, ConfirmMethod, ConfirmSelectOptions, Method, NoMemory,
};
use std::alloc::Global;

/// Makes the steps before the first publish: channel 1 is opened, and confirms are asked for.
///
/// # Errors
/// `NoMemory`.
pub(crate) fn make_opening(
    alloc: Global,
    run: &mut Links,
    summary: &mut Summary,
) -> Result<(), NoMemory>
    requires { CanGo 10 run.old summary.old }
    ensures { OnOk result (HasMade (opening ++ selecting) run.old run.new summary.old summary.new) }
{
    call(alloc, run, Call::OpenChannel)?;
    make_answered(alloc, run, summary, Method::Channel(ChannelMethod::OpenOk))?;
    let options = ConfirmSelectOptions { nowait: false };
    call(alloc, run, Call::ConfirmSelect { options })?;
    make_answered(
        alloc,
        run,
        summary,
        Method::Confirm(ConfirmMethod::SelectOk),
    )
}

// A method leaves and is read; the broker's answer to it is sent and delivered.
fn make_answered(
    alloc: Global,
    run: &mut Links,
    summary: &mut Summary,
    answer: Method,
) -> Result<(), NoMemory>
    requires { CanGo 4 run.old summary.old }
    ensures { OnOk result (HasMade (answered answer) run.old run.new summary.old summary.new) }
{
    request(alloc, run, summary)?;
    read(alloc, run)?;
    send(alloc, run, answer)?;
    deliver(alloc, run)
}

/// Makes the steps of a publish on channel 1 with its ack: it is called; its frames leave, and are read; it is acked, and its confirm
/// polled.
///
/// Publish i has (37 i) mod 9000 bytes, each of them i mod 256, and goes to the default exchange under the key `hello`.
///
/// # Errors
/// `NoMemory`.
pub(crate) fn make_publish(
    alloc: Global,
    run: &mut Links,
    summary: &mut Summary,
    number: u64,
) -> Result<(), NoMemory>
    requires few { number ≤ most_publishes }
    requires goes { CanGo 20 run.old summary.old }
    ensures { OnOk result (HasMade (publish_steps number) run.old run.new summary.old summary.new) }
{
    publish(alloc, run, summary, number)?;
    let frames = frame_count(number);
    make_requests(alloc, run, summary, frames)?;
    make_reads(alloc, run, frames)?;
    make_ack(alloc, run, summary, number)
}

// So many frame requests.
fn make_requests(
    alloc: Global,
    run: &mut Links,
    summary: &mut Summary,
    count: u64,
) -> Result<(), NoMemory>
    requires { CanGo count run.old summary.old }
    ensures { OnOk result (HasMade (replicate count (step.Client (event.Next true))) run.old run.new summary.old summary.new) }
{
    for asked in 0..count {
        request(alloc, run, summary)?;
    }
    Ok(())
}

// So many reads.
fn make_reads(alloc: Global, run: &mut Links, count: u64) -> Result<(), NoMemory>
    ensures { OnOk result (HasPassed (replicate count step.Read) run.old run.new) }
{
    for asked in 0..count {
        read(alloc, run)?;
    }
    Ok(())
}

// The broker's ack of a publish, and the poll of its confirm.
fn make_ack(
    alloc: Global,
    run: &mut Links,
    summary: &mut Summary,
    number: u64,
) -> Result<(), NoMemory>
    requires { CanGo 3 run.old summary.old }
    ensures { OnOk result (HasMade (acked number) run.old run.new summary.old summary.new) }
{
    send(
        alloc,
        run,
        Method::Basic(BasicMethod::Ack {
            delivery_tag: number,
            multiple: false,
        }),
    )?;
    deliver(alloc, run)?;
    poll(run, summary, number);
    Ok(())
}
