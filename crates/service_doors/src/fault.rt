//! Why a driver can't serve.

use std::alloc::{AllocError, AllocFailed, Global};
use std::fmt;
use thiserror::Error;

/// Why a driver can't serve.
#[derive(Clone, Copy, Debug, PartialEq, Eq, Error)]
pub enum DoorFault {
    #[error("out of memory")]
    NoMemory,
    #[error("cannot make a socket")]
    Socket,
}

impl From<AllocError> for DoorFault {
    fn from(_error: AllocError) -> DoorFault {
        DoorFault::NoMemory
    }
}

impl<T: Drop> From<AllocFailed<T>> for DoorFault {
    fn from(_error: AllocFailed<T>) -> DoorFault {
        DoorFault::NoMemory
    }
}

/// Why no socket may be at a place.
#[derive(Clone, Copy, Debug, PartialEq, Eq)]
pub enum PlaceFault {
    /// No folder is there, and none can be made.
    NoFolder,
    /// The folder belongs to this user, who may put another socket there.
    Owner(u32),
    /// Others may write in the folder.
    Writers,
    /// Another driver serves there.
    Serves,
    /// Something else is there, which is no socket.
    Taken,
    /// No socket can be made there.
    NoSocket,
    /// The socket can't be given its owner.
    NotGiven,
}

/// Why a door can't be opened.
#[derive(Drop)]
pub enum DoorRefusal {
    NoMemory,
    /// For that, at this path.
    At(PlaceFault, String),
}

/// A fault at a path.
pub(crate) fn at(alloc: Global, fault: PlaceFault, path: &str) -> DoorRefusal {
    match String::from_str(alloc, path) {
        Ok(path) => DoorRefusal::At(fault, path),
        Err(_) => DoorRefusal::NoMemory,
    }
}

impl From<AllocError> for DoorRefusal {
    fn from(_error: AllocError) -> DoorRefusal {
        DoorRefusal::NoMemory
    }
}

impl fmt::Display for DoorRefusal {
    fn fmt<W: fmt::Write>(&self, f: &mut fmt::Formatter<W>) -> fmt::Result {
        let DoorRefusal::At(fault, path) = self else {
            return f.write_str("out of memory");
        };
        match fault {
            PlaceFault::NoFolder => write!(f, "no folder {path}"),
            PlaceFault::Owner(user) => write!(f, "folder {path} belongs to user {user}"),
            PlaceFault::Writers => write!(f, "others may write in {path}"),
            PlaceFault::Serves => f.write_str("another driver serves there"),
            PlaceFault::Taken => write!(f, "{path} is there, and is no socket"),
            PlaceFault::NoSocket => write!(f, "cannot make a socket at {path}"),
            PlaceFault::NotGiven => write!(f, "cannot give {path} to its owner"),
        }
    }
}
