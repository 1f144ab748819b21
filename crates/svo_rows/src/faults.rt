//! Why a row cannot be run.

use std::alloc::{AllocError, AllocFailed, Global};

/// Why a line of the table cannot be taken, or a row of it not be run.
#[derive(Debug, Drop)]
pub enum RowFault {
    /// There was not enough memory.
    Memory,
    /// The line is no entry, or does not fit the ones before.
    Malformed(String),
}

impl From<AllocError> for RowFault {
    fn from(_error: AllocError) -> RowFault {
        RowFault::Memory
    }
}

impl<T: Drop> From<AllocFailed<T>> for RowFault {
    fn from(_error: AllocFailed<T>) -> RowFault {
        RowFault::Memory
    }
}

/// A fault with this cause.
pub fn malformed(alloc: Global, cause: &str) -> RowFault {
    match String::from_str(alloc, cause) {
        Ok(cause) => RowFault::Malformed(cause),
        Err(_) => RowFault::Memory,
    }
}
