//! Short texts of octets as they stand (AMQP 0-9-1, section 4.2.5.3).

ghost use Rattle.std.specs.Prelude.{◌≡◌, ◌++◌, ◌≤◌, length, OnOk};
ghost use Rattle.lapin_fields.specs.Fields.{text};
ghost use Rattle.lapin_fields.specs.Fits.{Refused};

use lapin_fields::{WriteFault, put_octet};

/// Adds a short text behind its length.
///
/// # Errors
/// `TooLong` only where it has more than 255 bytes; `NoMemory`.
pub(crate) fn put_short_text(out: &mut Vec<u8>, bytes: &[u8]) -> Result<(), WriteFault>
    ensures bytes { OnOk result ((out.new.items ≡ out.old.items ++ text bytes.now) × (length bytes.now ≤ 255)) }
    ensures refused { Refused result (length bytes.now ≤ 255) }
{
    let Ok(count) = u8::try_from(bytes.len()) else {
        return Err(WriteFault::TooLong);
    };
    put_octet(out, count)?;
    out.extend_from_slice(bytes)?;
    Ok(())
}
