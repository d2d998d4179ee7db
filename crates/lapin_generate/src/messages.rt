//! What a generated run publishes, and how many frames it has.

ghost use Rattle.std.specs.Prelude.{◌≡◌, ◌≤◌, IfOk};
ghost use Rattle.lapin_generate.specs.Generated.{most_publishes, payload_of, frames_of};

use lapin_types::{NoMemory, Payload};
use std::alloc::Global;

/// The longest body of a frame of 4096 bytes, 8 of which are not the payload's (AMQP 0-9-1, section 4.2.3).
const LONGEST_BODY: u64 = 4088;

/// How many frames a publish has: its method, its header, and its bodies.
pub(crate) fn frame_count(number: u64) -> u64
    requires { number ≤ most_publishes }
    ensures { result ≡ frames_of number }
{
    2 + (number * 37 % 9000 + LONGEST_BODY - 1) / LONGEST_BODY
}

/// The bytes of a publish: publish i has (37 i) mod 9000 bytes, each of them i mod 256.
///
/// # Errors
/// `NoMemory`.
pub(crate) fn payload(alloc: Global, number: u64) -> Result<Payload, NoMemory>
    requires { number ≤ most_publishes }
    ensures { IfOk result (λ payload. payload ≡ payload_of number) }
{
    let byte = (number % 256) as u8;
    let length = (number * 37 % 9000) as usize;
    Ok(Payload::from_bytes(vec![in alloc; byte; length]?))
}
