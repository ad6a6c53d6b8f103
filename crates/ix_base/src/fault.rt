//! What is wrong with a file, and that memory was refused.

use std::alloc::{AllocError, AllocFailed};

/// The first fault of a file, and its place.
#[derive(Clone, Copy, Debug, PartialEq, Eq)]
pub struct Fault {
    /// One of the codes of `code`.
    pub code: u8,
    /// What the place is goes by the code: a byte of the file, the index of a section, or the joint offset of a unit or
    /// an entry.
    pub at: u64,
}

/// Memory was refused.
#[derive(Clone, Copy, Debug, PartialEq, Eq)]
pub struct NoMemory;

impl From<AllocError> for NoMemory {
    fn from(_error: AllocError) -> NoMemory {
        NoMemory
    }
}

impl<T: Drop> From<AllocFailed<T>> for NoMemory {
    fn from(_error: AllocFailed<T>) -> NoMemory {
        NoMemory
    }
}
