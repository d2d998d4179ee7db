//! Why a run of events ended early. Here stand the names alone; the run stands in the crates above.

use lapin_values::NoMemory;
use thiserror::Error;

/// Why a run of events, or a step of a kept history, was refused.
#[derive(Clone, Copy, Debug, PartialEq, Eq, Error)]
pub enum RunError {
    /// The allocator had no memory.
    #[error("the allocator had no memory")]
    NoMemory,
    /// An earlier step of the same value found no memory.
    #[error("stopped, since an earlier step found no memory")]
    Stopped,
}

impl From<NoMemory> for RunError {
    ghost use Rattle.std.specs.Prelude.{◌≡◌};
    ghost use Rattle.lapin_types.specs.declared.run_error.RunError.TheVariants.{NoMemory};

    ghost from_gives = { λ _ error. error ≡ NoMemory };

    fn from(_error: NoMemory) -> RunError {
        RunError::NoMemory
    }
}
