//! What the tests ask of bytes. Where no memory is there, nothing is as a test expects.

use command_codec::{CommandFault, Reply};
use std::alloc::{AllocError, Global};

/// Why the bytes are no reply; none where they are one.
pub(crate) fn reply_fault(alloc: Global, bytes: &[u8]) -> Option<CommandFault> {
    match Reply::read(alloc, bytes) {
        Ok(reply) => {
            drop(reply);
            None
        }
        Err(fault) => Some(fault),
    }
}

/// Whether each front of the bytes, short of the whole, is no reply because of a field.
pub(crate) fn each_front_is_a_malformed_reply(alloc: Global, bytes: &[u8]) -> bool {
    for len in 0..bytes.len() {
        if reply_fault(alloc, &bytes[..len]) != Some(CommandFault::Malformed) {
            return false;
        }
    }
    true
}

/// The bytes and one more, a zero.
pub(crate) fn longer(alloc: Global, bytes: &[u8]) -> Result<Vec<u8>, AllocError> {
    let mut longer = Vec::from_slice(alloc, bytes)?;
    longer.push(0)?;
    Ok(longer)
}

/// The bytes with another one at a place.
pub(crate) fn changed(
    alloc: Global,
    bytes: &[u8],
    place: usize,
    byte: u8,
) -> Result<Vec<u8>, AllocError> {
    let mut changed = Vec::from_slice(alloc, bytes)?;
    if let Some(found) = changed.get_mut(place) {
        *found = byte;
    }
    Ok(changed)
}
