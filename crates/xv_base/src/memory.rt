//! A failed allocation of the library is want of memory, so `?` turns one into the other.
use crate::NoMemory;
use std::alloc::{AllocError, AllocFailed};

impl From<AllocError> for NoMemory {
    fn from(_: AllocError) -> NoMemory {
        NoMemory
    }
}

impl<T: Drop> From<AllocFailed<T>> for NoMemory {
    fn from(_: AllocFailed<T>) -> NoMemory {
        NoMemory
    }
}
