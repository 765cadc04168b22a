ghost use Rattle.driver_script.specs.Fault.{fault_text};
ghost use Rattle.driver_script.specs.declared.fault.RunFault.TheVariants.{NoMemory};
ghost use Rattle.std.specs.Prelude.{◌≡◌, Some};

use std::alloc::{AllocError, AllocFailed};
use std::error::Error;
use std::fmt;

/// Why the run of a script gave up, other than by a bad line.
#[derive(Clone, Copy, Debug, PartialEq, Eq)]
pub enum RunFault {
    /// The reader failed. Nothing was written.
    Read,
    /// The reader gave more than 16,777,216 bytes. Nothing was written.
    TooLong,
    /// The writer failed. What it took is a front of a text of the script.
    Write,
    /// There was no memory for the script, or for the text of an answer. What was written is a front of a text of the
    /// script; nothing, where the reader has more than 16,777,216 bytes.
    NoMemory,
}

impl From<AllocError> for RunFault {
    ghost from_gives = { λ _ fault. fault ≡ NoMemory };

    fn from(_error: AllocError) -> RunFault {
        RunFault::NoMemory
    }
}

impl<T: Drop> From<AllocFailed<T>> for RunFault {
    ghost from_gives = { λ _ fault. fault ≡ NoMemory };

    fn from(_error: AllocFailed<T>) -> RunFault {
        RunFault::NoMemory
    }
}

impl fmt::Display for RunFault {
    ghost output = { λ fault. Some (fault_text fault) };

    fn fmt<W: fmt::Write>(&self, f: &mut fmt::Formatter<W>) -> fmt::Result {
        match self {
            RunFault::Read => f.write_str("read failed"),
            RunFault::TooLong => f.write_str("too long"),
            RunFault::Write => f.write_str("write failed"),
            RunFault::NoMemory => f.write_str("no memory"),
        }
    }
}

impl Error for RunFault {}
