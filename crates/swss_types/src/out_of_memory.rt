// Want of memory, the one answer that no contract ties to a cause.
use std::alloc::{AllocError, AllocFailed};
use thiserror::Error;

/// Memory was refused. Unless a call says otherwise, its values are then as they were before it.
#[derive(Clone, Copy, Debug, PartialEq, Eq, Error)]
#[error("out of memory")]
pub struct OutOfMemory;

impl From<AllocError> for OutOfMemory {
    fn from(_error: AllocError) -> OutOfMemory {
        OutOfMemory
    }
}

impl<T: Drop> From<AllocFailed<T>> for OutOfMemory {
    fn from(_error: AllocFailed<T>) -> OutOfMemory {
        OutOfMemory
    }
}
