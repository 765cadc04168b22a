//! Why a client of a driver that serves gave up.

use plain_words::plain;
use program_parts::PartFault;
use std::alloc::{AllocError, AllocFailed, Global};
use std::{fmt, str};
use thiserror::Error;

/// Why a client of a driver that serves gave up.
#[derive(Clone, Copy, Debug, Error)]
pub enum RemoteFault {
    #[error("{0}")]
    Part(PartFault),
    #[error("no driver serves there")]
    NoDriver,
    /// The system lets somebody else in at that socket, whose owner is that user.
    #[error("permission denied: socket of user {0}")]
    NotOurs(u32),
    /// The system does not even say whose socket is there, if one is.
    #[error("permission denied")]
    Unseen,
    #[error("the driver speaks another protocol")]
    Protocol,
    /// The driver let the client go, for which nothing was heard of it.
    #[error("client gone")]
    Gone,
    /// The connection ended without a word: the driver was killed, or cut it off.
    #[error("the driver ended")]
    Closed,
    /// The connection stands, and nothing came for as long as an answer may take.
    #[error("the driver does not answer")]
    Late,
    /// The driver said that it stops.
    #[error("the driver stopped")]
    Stopped,
    /// A command was not answered.
    #[error("no client")]
    NoClient,
    #[error("{0}")]
    Told(Told),
    /// Messages were lost, and those after them came.
    #[error("messages were lost")]
    Gap,
}

impl RemoteFault {
    pub const NO_MEMORY: RemoteFault = RemoteFault::Part(PartFault::NoMemory);

    pub const WRITE: RemoteFault = RemoteFault::Part(PartFault::Write);

    /// A refusal that the driver put into words.
    pub(crate) fn told(alloc: Global, text: &[u8]) -> RemoteFault {
        let Ok(text) = str::from_utf8(text) else {
            return RemoteFault::Protocol;
        };
        match plain(alloc, text) {
            Ok(words) => RemoteFault::Told(Told::new(words.as_str())),
            Err(_) => RemoteFault::NO_MEMORY,
        }
    }
}

impl From<PartFault> for RemoteFault {
    fn from(fault: PartFault) -> RemoteFault {
        RemoteFault::Part(fault)
    }
}

impl From<AllocError> for RemoteFault {
    fn from(_error: AllocError) -> RemoteFault {
        RemoteFault::NO_MEMORY
    }
}

impl<T: Drop> From<AllocFailed<T>> for RemoteFault {
    fn from(_error: AllocFailed<T>) -> RemoteFault {
        RemoteFault::NO_MEMORY
    }
}

/// What a driver said, as it is printed and as far as it is kept: its first 512 characters.
#[derive(Clone, Copy, Debug)]
pub struct Told {
    bytes: [u8; 512],
    length: usize,
}

impl Told {
    fn new(text: &str) -> Told {
        let mut bytes = [0; 512];
        let length = text.len().min(512);
        for (place, byte) in text.as_bytes().iter().take(length).enumerate() {
            if let Some(kept) = bytes.get_mut(place) {
                *kept = *byte;
            }
        }
        Told { bytes, length }
    }
}

impl fmt::Display for Told {
    fn fmt<W: fmt::Write>(&self, f: &mut fmt::Formatter<W>) -> fmt::Result {
        let bytes = self.bytes.get(..self.length).unwrap_or(&[]);
        f.write_str(str::from_utf8(bytes).unwrap_or("refused"))
    }
}
