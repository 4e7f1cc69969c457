//! Out of memory as an answer.
use std::alloc::{AllocError, AllocFailed};

/// The allocator refused a growth, as Rust's `TryReserveError`.
///
/// Each layer's error has a variant for it, and each program a status of its own.
///
/// See docs/DIFFERENCES.md#gix-out-of-memory.
#[derive(Clone, Copy, Debug, PartialEq, Eq, thiserror::Error)]
#[error("OutOfMemory")]
pub struct OutOfMemory;

impl From<AllocError> for OutOfMemory {
    fn from(_refused: AllocError) -> OutOfMemory {
        OutOfMemory
    }
}

impl<T: Drop> From<AllocFailed<T>> for OutOfMemory {
    fn from(_refused: AllocFailed<T>) -> OutOfMemory {
        OutOfMemory
    }
}
