//! Why a part of the program gave up.

use std::alloc::{AllocError, AllocFailed};
use thiserror::Error;

/// Why a part of the program gave up.
#[derive(Clone, Copy, Debug, PartialEq, Eq, Error)]
pub enum PartFault {
    #[error("out of memory")]
    NoMemory,
    /// Standard input could not be read.
    #[error("cannot read standard input")]
    Read,
    /// Standard output could not be written.
    #[error("cannot write")]
    Write,
    /// A message of standard input is longer than messages may be.
    #[error("message too long")]
    TooLong,
    /// The system gave no thread.
    #[error("no thread")]
    NoThread,
}

impl From<AllocError> for PartFault {
    fn from(_error: AllocError) -> PartFault {
        PartFault::NoMemory
    }
}

impl<T: Drop> From<AllocFailed<T>> for PartFault {
    fn from(_error: AllocFailed<T>) -> PartFault {
        PartFault::NoMemory
    }
}
