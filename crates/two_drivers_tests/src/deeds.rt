//! The steps of which the tests speak. Client 1 of each world has its one publication or subscription, under registration 1.

use byte_strings::Bytes;
use driver_core::{Address, Event, Received};
use driver_world::{Reading, Step};
use std::alloc::{AllocError, Global};
use two_drivers::PairStep;

/// A step of one world, at a moment in nanoseconds.
#[derive(Clone, Copy)]
pub(crate) enum Deed {
    /// A client of principal 1 comes.
    Attach,
    /// The bytes of a command come from client 1.
    Command(&'static [u8]),
    /// Client 1 offers this message to its publication.
    Offer(&'static [u8]),
    /// It offers this number, as two bytes, the lowest first.
    Number(u16),
    /// The sender has a turn with the publication, which has number 1.
    Send,
    /// Client 1 polls the image, which has number 2, for at most ten fragments.
    Poll,
    /// These bytes come to port 40000, from port 50001.
    Packet(&'static [u8]),
    /// A receiver at port 40123, the endpoint, lacks the frame of that number, of frames of 64 bytes from offset 0 on.
    Nak(u16),
}

/// A step of both worlds.
#[derive(Clone, Copy)]
pub(crate) enum Doing {
    A(Deed),
    B(Deed),
    /// The datagram of that number comes to the second.
    Deliver(u64),
}

/// ADD_PUBLICATION of client 1: `aeron:udp?endpoint=127.0.0.1:40123|mtu=1408`, stream 10.
pub(crate) const PUBLISH: Deed = Deed::Command(
    b"\x01\0\0\0\x01\0\0\0\0\0\0\0\x0b\0\0\0\0\0\0\0\x0a\0\0\0\x2b\0\0\0aeron:udp?endpoint=127.0.0.1:40123|mtu=1408",
);

/// ADD_SUBSCRIPTION of client 1: `aeron:udp?endpoint=127.0.0.1:40123`, stream 10.
pub(crate) const SUBSCRIBE: Deed = Deed::Command(
    b"\x04\0\0\0\x01\0\0\0\0\0\0\0\x0b\0\0\0\0\0\0\0\0\0\0\0\0\0\0\0\x0a\0\0\0\x22\0\0\0aeron:udp?endpoint=127.0.0.1:40123",
);

/// TERMINATE_DRIVER of client 1, without a token.
pub(crate) const TERMINATE: Deed = Deed::Command(
    b"\x0e\0\0\0\x01\0\0\0\0\0\0\0\x0b\0\0\0\0\0\0\0\0\0\0\0",
);

/// A status message for session 1, stream 10: all before offset 0 of term 0 is consumed, and 32,768 bytes more may come.
pub(crate) const STATUS: Deed = Deed::Packet(
    b"\x24\0\0\0\0\0\x03\0\x01\0\0\0\x0a\0\0\0\0\0\0\0\0\0\0\0\0\x80\0\0\x01\0\0\0\0\0\0\0",
);

fn local(port: u16) -> Address {
    Address {
        octets: [127, 0, 0, 1],
        port,
    }
}

fn event(alloc: Global, now: u64, bytes: &[u8]) -> Result<Step, AllocError> {
    let bytes = Received::new(alloc, bytes)?;
    Ok(Step::Conductor(Event::Command {
        now,
        client: 1,
        bytes,
    }))
}

fn packet(alloc: Global, now: u64, from: u16, bytes: &[u8]) -> Result<Step, AllocError> {
    let bytes = Bytes::new(alloc, bytes)?;
    Ok(Step::Packet {
        now,
        local: local(40_000),
        from: local(from),
        bytes,
    })
}

/// A NAK of session 1, stream 10, term 0.
fn nak(alloc: Global, now: u64, number: u16) -> Result<Step, AllocError> {
    let [a, b, c, d] = u32::from(number).wrapping_mul(64).to_le_bytes();
    let bytes = [
        28, 0, 0, 0, 0, 0, 2, 0, 1, 0, 0, 0, 10, 0, 0, 0, 0, 0, 0, 0, a, b, c, d, 64, 0, 0, 0,
    ];
    packet(alloc, now, 40_123, bytes.as_slice())
}

fn offer(alloc: Global, now: u64, message: &[u8]) -> Result<Step, AllocError> {
    let message = Bytes::new(alloc, message)?;
    Ok(Step::Offer {
        now,
        client: 1,
        registration: 1,
        message,
    })
}

fn step(alloc: Global, now: u64, deed: Deed) -> Result<Step, AllocError> {
    match deed {
        Deed::Attach => Ok(Step::Conductor(Event::Attach { now, principal: 1 })),
        Deed::Command(bytes) => event(alloc, now, bytes),
        Deed::Offer(message) => offer(alloc, now, message),
        Deed::Number(number) => offer(alloc, now, number.to_le_bytes().as_slice()),
        Deed::Send => Ok(Step::Send { now, source: 1 }),
        Deed::Poll => Ok(Step::Poll {
            now,
            client: 1,
            subscription: 1,
            source: 2,
            limit: 10,
        }),
        Deed::Packet(bytes) => packet(alloc, now, 50_001, bytes),
        Deed::Nak(number) => nak(alloc, now, number),
    }
}

/// The step, by the newest registry.
pub(crate) fn step_of(alloc: Global, now: u64, doing: Doing) -> Result<PairStep, AllocError> {
    match doing {
        Doing::A(deed) => Ok(PairStep::A(Reading::newest(step(alloc, now, deed)?))),
        Doing::B(deed) => Ok(PairStep::B(Reading::newest(step(alloc, now, deed)?))),
        Doing::Deliver(sent) => Ok(PairStep::Deliver {
            sent,
            now,
            view: None,
        }),
    }
}
