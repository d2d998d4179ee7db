//! Flags: the digit 0 or 1.

ghost use Rattle.std.specs.Prelude.{◌≡◌};
ghost use Rattle.lapin_scalars.specs.Scalars.Scalar.{flag as a_flag};
ghost use Rattle.lapin_scalars.specs.Reading.{GivesValue, scalar_of};

use crate::fault::ReadError;

/// The flag that the bytes say.
#[tactic(auto, unfolding(crate::specs::Reading::scalar_of))]
pub fn flag_of(piece: &[u8]) -> Result<bool, ReadError>
    ensures { GivesValue (λ b. b) result (scalar_of a_flag piece.now) }
{
    match piece {
        [b'0'] => Ok(false),
        [b'1'] => Ok(true),
        _ => Err(ReadError::Bad),
    }
}
