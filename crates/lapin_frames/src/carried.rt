//! Lists of properties that are carried as the octets that they are: nobody looks into one, and what is written is what came.

ghost use Rattle.std.specs.Prelude.{◌≡◌, ◌∷◌, [], IfOk, Ok};
ghost use Rattle.lapin_values.specs.Properties.{no_properties};
ghost use Rattle.lapin_frames.specs.Carried.{carrying as carrying_of};

use lapin_fields::carrier;
use lapin_values::{BasicProperties, NoMemory};
use std::alloc::Global;

// The list of no property: sixteen flags, of which none is set.
const NO_PROPERTY: [u8; 2] = [0, 0];

/// The properties that carry a list: the octets of a content header behind the size of its content, flags and all. Those of the list of no
/// property take no memory.
///
/// # Errors
/// `NoMemory` alone.
pub fn carrying(alloc: Global, list: &[u8]) -> Result<BasicProperties, NoMemory>
    ensures ok { IfOk result (λ p. p ≡ carrying_of list.now) }
    ensures plain { list.now ≡ 0 ∷ 0 ∷ [] → result ≡ Ok no_properties }
{
    if list == NO_PROPERTY.as_slice() {
        return Ok(BasicProperties::default());
    }
    let table = carrier(alloc, list)?;
    Ok(BasicProperties::default().with_headers(table))
}
