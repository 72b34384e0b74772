//! Want of memory.
use std::alloc::{AllocError, AllocFailed};

/// Memory was refused, or so much would be needed that none is asked for. Every call that allocates may answer it,
/// and no clause says when.
#[derive(Clone, Copy, Debug, PartialEq, Eq)]
pub struct NoMemory;

impl From<AllocError> for NoMemory {
    fn from(_: AllocError) -> Self {
        NoMemory
    }
}

impl<T: Drop> From<AllocFailed<T>> for NoMemory {
    fn from(_: AllocFailed<T>) -> Self {
        NoMemory
    }
}
