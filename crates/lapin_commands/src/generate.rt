//! The command `generate`: it makes the steps of so many publishes, each with its ack, and prints what their reports come to. It
//! reads nothing.
//!
//! The steps, the run and the summary of its reports stand in `lapin_generate`.
ghost use Rattle.std.specs.Prelude.{◌≡◌, ◌≤◌, ◌++◌, IfOk, OnOk};
ghost use Rattle.lapin_generate.specs.Generated.{most_publishes};
ghost use Rattle.lapin_commands.specs.Generate.{summary_text, generated_text};

use lapin_generate::{Summary, run_generated};
use lapin_inputs::put_number;
use lapin_types::NoMemory;
use std::alloc::Global;

/// What the command `generate` prints for so many publishes, 10,000 at most: a line each with the accepted publishes, the frames that were
/// handed out, the bytes of the bodies among them, and the acks.
///
/// # Errors
/// `NoMemory` alone.
pub fn print_generated(alloc: Global, publishes: u64) -> Result<Vec<u8>, NoMemory>
    requires { publishes ≤ most_publishes }
    ensures { IfOk result (λ text. text.items ≡ generated_text publishes) }
{
    let summary = run_generated(alloc, publishes)?;
    let mut text = Vec::new(alloc);
    put_summary(alloc, &mut text, &summary)?;
    Ok(text)
}

// Appends the four lines of a summary.
fn put_summary(alloc: Global, text: &mut Vec<u8>, summary: &Summary) -> Result<(), NoMemory>
    ensures { OnOk result (text.new.items ≡ text.old.items ++ summary_text summary.now) }
{
    put_number(alloc, text, "publishes", u128::from(summary.publishes))?;
    put_number(alloc, text, "frames", u128::from(summary.frames))?;
    put_number(alloc, text, "bytes", summary.bytes)?;
    put_number(alloc, text, "acks", u128::from(summary.acks))
}
