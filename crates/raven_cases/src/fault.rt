//! Why a line of a file of cases cannot be read.
use raven_base::NoMemory;
use std::alloc::{AllocError, AllocFailed};

/// Why a line cannot be read.
#[derive(Clone, Copy, Debug, PartialEq, Eq)]
pub enum LineFault {
    /// The line does not follow the format.
    Mistake,

    NoMemory,
}

impl From<NoMemory> for LineFault {
    fn from(_error: NoMemory) -> LineFault {
        LineFault::NoMemory
    }
}

impl From<AllocError> for LineFault {
    fn from(_error: AllocError) -> LineFault {
        LineFault::NoMemory
    }
}

impl<T: Drop> From<AllocFailed<T>> for LineFault {
    fn from(_error: AllocFailed<T>) -> LineFault {
        LineFault::NoMemory
    }
}
