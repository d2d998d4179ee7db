//! A generated run, whose reports are summed as they come: neither its steps nor its reports are kept.

ghost use Rattle.std.specs.Prelude.{◌≡◌, ◌≤◌, IfOk};
ghost use Rattle.lapin_joint.specs.Joint.{joined};
ghost use Rattle.lapin_generate.specs.Generated.{most_publishes, generated};
ghost use Rattle.lapin_generate.specs.Summed.{summed};

use crate::steps::{make_opening, make_publish};
use crate::summary::{Summary, none};
use lapin_joint::Links;
use lapin_types::NoMemory;
use std::alloc::Global;

/// The size of a frame in bytes, at most.
const FRAME_MAX: u32 = 4096;

/// The summary of the reports of a new joined run whose frames have at most 4096 bytes, and that publishes this many messages and gets
/// an ack for each.
///
/// # Errors
/// `NoMemory`.
pub fn run_generated(alloc: Global, publishes: u64) -> Result<Summary, NoMemory>
    requires { publishes ≤ most_publishes }
    ensures { IfOk result (λ summary. summary ≡ summed (joined 4096 (generated publishes))) }
{
    let mut run = Links::new(alloc, FRAME_MAX)?;
    let mut summary = none();
    make_opening(alloc, &mut run, &mut summary)?;
    for done in 0..publishes {
        make_publish(alloc, &mut run, &mut summary, done + 1)?;
    }
    Ok(summary)
}
