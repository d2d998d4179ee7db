//! Why bytes could not be read or written.

use lapin_values::NoMemory;
use std::alloc::{AllocError, AllocFailed};

/// Why bytes are no frame.
#[derive(Clone, Copy, Debug, PartialEq, Eq)]
pub enum ReadFault {
    /// The bytes are not in the layout, or have a value that no field here holds.
    Malformed,
    /// The allocator had no memory left.
    NoMemory,
}

impl From<AllocError> for ReadFault {
    ghost use Rattle.std.specs.Prelude.{◌≡◌};
    ghost use Rattle.lapin_fields.specs.declared.fault.ReadFault.TheVariants.{NoMemory as no_memory};

    ghost from_gives = { λ _ error. error ≡ no_memory };

    fn from(_error: AllocError) -> ReadFault {
        ReadFault::NoMemory
    }
}

impl<T: Drop> From<AllocFailed<T>> for ReadFault {
    ghost use Rattle.std.specs.Prelude.{◌≡◌};
    ghost use Rattle.lapin_fields.specs.declared.fault.ReadFault.TheVariants.{NoMemory as no_memory};

    ghost from_gives = { λ _ error. error ≡ no_memory };

    fn from(_failed: AllocFailed<T>) -> ReadFault {
        ReadFault::NoMemory
    }
}

impl From<NoMemory> for ReadFault {
    ghost use Rattle.std.specs.Prelude.{◌≡◌};
    ghost use Rattle.lapin_fields.specs.declared.fault.ReadFault.TheVariants.{NoMemory as no_memory};

    ghost from_gives = { λ _ error. error ≡ no_memory };

    fn from(_error: NoMemory) -> ReadFault {
        ReadFault::NoMemory
    }
}

/// Why a frame has no bytes.
#[derive(Clone, Copy, Debug, PartialEq, Eq)]
pub enum WriteFault {
    /// A table, an array, a string or the frame has more bytes than its length has room for.
    TooLong,
    /// Arrays and tables nest deeper than eight levels.
    TooDeep,
    /// The frame has more bytes than the peer takes in a frame.
    AboveLimit,
    /// The allocator had no memory left.
    NoMemory,
}

impl From<AllocError> for WriteFault {
    ghost use Rattle.std.specs.Prelude.{◌≡◌};
    ghost use Rattle.lapin_fields.specs.declared.fault.WriteFault.TheVariants.{NoMemory};

    ghost from_gives = { λ _ error. error ≡ NoMemory };

    fn from(_error: AllocError) -> WriteFault {
        WriteFault::NoMemory
    }
}

impl<T: Drop> From<AllocFailed<T>> for WriteFault {
    ghost use Rattle.std.specs.Prelude.{◌≡◌};
    ghost use Rattle.lapin_fields.specs.declared.fault.WriteFault.TheVariants.{NoMemory};

    ghost from_gives = { λ _ error. error ≡ NoMemory };

    fn from(_failed: AllocFailed<T>) -> WriteFault {
        WriteFault::NoMemory
    }
}

impl From<NoMemory> for WriteFault {
    ghost use Rattle.std.specs.Prelude.{◌≡◌};
    ghost use Rattle.lapin_fields.specs.declared.fault.WriteFault.TheVariants.{NoMemory as no_memory};

    ghost from_gives = { λ _ error. error ≡ no_memory };

    fn from(_error: NoMemory) -> WriteFault {
        WriteFault::NoMemory
    }
}
