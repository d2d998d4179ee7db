//! Why a text was not read. Every reader of values and of lines answers this error.

ghost use Rattle.std.specs.Prelude.{◌≡◌};
ghost use Rattle.lapin_scalars.specs.declared.fault.ReadError.TheVariants.{Memory};

use lapin_values::NoMemory;
use std::alloc::{AllocError, AllocFailed};

/// Why a text was not read.
#[derive(Clone, Copy, Debug, PartialEq, Eq)]
pub enum ReadError {
    /// The allocator had no memory.
    Memory,
    /// The text is not in the grammar.
    Bad,
}

impl From<AllocError> for ReadError {
    ghost from_gives = { λ _ e. e ≡ Memory };

    fn from(_error: AllocError) -> ReadError {
        ReadError::Memory
    }
}

impl<T: Drop> From<AllocFailed<T>> for ReadError {
    ghost from_gives = { λ _ e. e ≡ Memory };

    fn from(_failed: AllocFailed<T>) -> ReadError {
        ReadError::Memory
    }
}

impl From<NoMemory> for ReadError {
    ghost from_gives = { λ _ e. e ≡ Memory };

    fn from(_error: NoMemory) -> ReadError {
        ReadError::Memory
    }
}
