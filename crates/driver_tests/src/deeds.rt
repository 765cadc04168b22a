//! The events of which tests speak. Where no memory is there, nothing is as a test expects.

use driver_core::{Event, Received};
use std::alloc::{AllocError, Global};

/// An event.
#[derive(Clone, Copy)]
pub(crate) enum Deed {
    /// A client of principal 7 comes.
    Attach,
    /// The bytes of a command come from client 1.
    Command(&'static [u8]),
    Tick(u64),
}

pub(crate) fn event(alloc: Global, deed: Deed) -> Result<Event, AllocError> {
    match deed {
        Deed::Attach => Ok(Event::Attach {
            now: 0,
            principal: 7,
        }),
        Deed::Command(bytes) => Ok(Event::Command {
            now: 0,
            client: 1,
            bytes: Received::new(alloc, bytes)?,
        }),
        Deed::Tick(now) => Ok(Event::Tick { now }),
    }
}

/// ADD_SUBSCRIPTION of client 1: `aeron:ipc`, stream 10.
pub(crate) const SUBSCRIBE: Deed = Deed::Command(&[
    0x04, 0, 0, 0, 1, 0, 0, 0, 0, 0, 0, 0, 11, 0, 0, 0, 0, 0, 0, 0, // type, client, correlation
    0, 0, 0, 0, 0, 0, 0, 0, 10, 0, 0, 0, // registration correlation, stream
    9, 0, 0, 0, 0x61, 0x65, 0x72, 0x6f, 0x6e, 0x3a, 0x69, 0x70, 0x63, // channel
]);

/// ADD_PUBLICATION of client 1: `aeron:ipc`, stream 10.
pub(crate) const PUBLISH: Deed = Deed::Command(&[
    0x01, 0, 0, 0, 1, 0, 0, 0, 0, 0, 0, 0, 11, 0, 0, 0, 0, 0, 0, 0, 10, 0, 0, 0, //
    9, 0, 0, 0, 0x61, 0x65, 0x72, 0x6f, 0x6e, 0x3a, 0x69, 0x70, 0x63,
]);

/// ADD_EXCLUSIVE_PUBLICATION of client 1: `aeron:ipc`, stream 10.
pub(crate) const PUBLISH_ALONE: Deed = Deed::Command(&[
    0x03, 0, 0, 0, 1, 0, 0, 0, 0, 0, 0, 0, 11, 0, 0, 0, 0, 0, 0, 0, 10, 0, 0, 0, //
    9, 0, 0, 0, 0x61, 0x65, 0x72, 0x6f, 0x6e, 0x3a, 0x69, 0x70, 0x63,
]);

/// REMOVE_PUBLICATION of client 1, for registration 1.
pub(crate) const UNPUBLISH_1: Deed = Deed::Command(&[
    0x02, 0, 0, 0, 1, 0, 0, 0, 0, 0, 0, 0, 11, 0, 0, 0, 0, 0, 0, 0, 1, 0, 0, 0, 0, 0, 0, 0,
]);

/// REMOVE_PUBLICATION of client 1, for registration 2.
pub(crate) const UNPUBLISH_2: Deed = Deed::Command(&[
    0x02, 0, 0, 0, 1, 0, 0, 0, 0, 0, 0, 0, 11, 0, 0, 0, 0, 0, 0, 0, 2, 0, 0, 0, 0, 0, 0, 0,
]);

/// REMOVE_SUBSCRIPTION of client 1, for registration 1.
pub(crate) const UNSUBSCRIBE_1: Deed = Deed::Command(&[
    0x05, 0, 0, 0, 1, 0, 0, 0, 0, 0, 0, 0, 11, 0, 0, 0, 0, 0, 0, 0, 1, 0, 0, 0, 0, 0, 0, 0,
]);

/// CLIENT_KEEPALIVE of client 1.
pub(crate) const KEEP_ALIVE: Deed = Deed::Command(&[
    0x06, 0, 0, 0, 1, 0, 0, 0, 0, 0, 0, 0, 11, 0, 0, 0, 0, 0, 0, 0,
]);

/// TERMINATE_DRIVER of client 1, without a token.
pub(crate) const TERMINATE: Deed = Deed::Command(&[
    0x0e, 0, 0, 0, 1, 0, 0, 0, 0, 0, 0, 0, 11, 0, 0, 0, 0, 0, 0, 0, 0, 0, 0, 0,
]);
