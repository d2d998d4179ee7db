//! Why this side doesn't say what an opening asks of it.

use lapin_fields::WriteFault;

/// Why nothing is answered.
#[derive(Clone, Copy, Debug, PartialEq, Eq)]
pub enum Unsaid {
    /// The caller's pairs aren't the content of a table, or one of them is named `capabilities`.
    NotPairs,
    /// What is told of this side has no room.
    TooLong,
    /// The allocator had no memory left.
    NoMemory,
}

impl From<WriteFault> for Unsaid {
    ghost use Rattle.std.specs.Prelude.{◌≡◌};
    ghost use Rattle.lapin_handshake.specs.Faults.{unsaid_of};

    ghost from_gives = { λ fault error. error ≡ unsaid_of fault };

    fn from(fault: WriteFault) -> Unsaid {
        match fault {
            WriteFault::TooLong | WriteFault::TooDeep | WriteFault::AboveLimit => Unsaid::TooLong,
            WriteFault::NoMemory => Unsaid::NoMemory,
        }
    }
}
