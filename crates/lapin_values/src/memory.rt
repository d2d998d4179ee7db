//! Want of memory: the one error that any call which allocates may answer, and nothing else.
//! The crates above convert it into errors of their own.

use std::alloc::{AllocError, AllocFailed};
use thiserror::Error;

/// The allocator had no memory left.
#[derive(Clone, Copy, Debug, PartialEq, Eq, Error)]
#[error("out of memory")]
pub struct NoMemory;

impl From<AllocError> for NoMemory {
    fn from(_error: AllocError) -> NoMemory {
        NoMemory
    }
}

impl<T: Drop> From<AllocFailed<T>> for NoMemory {
    fn from(_failed: AllocFailed<T>) -> NoMemory {
        NoMemory
    }
}
