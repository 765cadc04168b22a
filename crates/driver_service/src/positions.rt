//! How far logs have come, as a connection tells it.

ghost use Rattle.driver_service.specs.Answering.{image_bytes, publication_bytes};
ghost use Rattle.driver_service.specs.Positions.{connected_flag, consumed_field, heard_flag, image_record, publication_flags, publication_record};
ghost use Rattle.std.specs.Prelude.{◌≡◌, ◌≤◌, ◌++◌, OnOk};

use crate::connection::refuse;
use crate::reason::Refusal;
use service_records::Answer;
use std::alloc::AllocError;

/// How far a publication has come. Each position is in bytes of its stream.
#[derive(Clone, Copy, Debug, PartialEq, Eq)]
pub struct PublicationPositions {
    /// The one after the last frame.
    pub position: u64,
    /// The one from which on no offer is taken.
    pub limit: u64,
    /// The one up to which frames were sent in datagrams. A log that nobody is sent to stays where it began.
    pub sent: u64,
    /// The least up to which the receivers have taken the stream that are heard; `None` where none is.
    pub consumed: Option<u64>,
    /// Whether anybody takes what is offered.
    pub connected: bool,
}

/// How far a subscription has come with a stream. Each position is in bytes of the stream.
#[derive(Clone, Copy, Debug, PartialEq, Eq)]
pub struct ImagePositions {
    /// The one at which the stream is joined.
    pub joined: u64,
    /// The one up to which the subscription has read.
    pub position: u64,
    /// The one up to which the stream is there without a gap.
    pub received: u64,
}

/// Whether somebody takes what is offered, as a flag.
fn connected_flag(connected: bool) -> u32
    ensures is { result ≡ connected_flag connected }
    ensures few { result ≤ 1 }
{
    if connected { 1 } else { 0 }
}

/// Whether a receiver is heard, as a flag.
fn heard_flag(consumed: Option<u64>) -> u32
    ensures is { result ≡ heard_flag consumed }
    ensures few { result ≤ 2 }
{
    match consumed {
        Some(_) => 2,
        None => 0,
    }
}

/// What the receivers have taken that are heard, as the record has it: 0 where none is.
fn consumed_field(consumed: Option<u64>) -> u64
    ensures { result ≡ consumed_field consumed }
{
    match consumed {
        Some(position) => position,
        None => 0,
    }
}

/// The flags of the record.
fn publication_flags(positions: PublicationPositions) -> u32
    ensures { result ≡ publication_flags positions }
{
    connected_flag(positions.connected) + heard_flag(positions.consumed)
}

fn put_publication(positions: PublicationPositions, out: &mut Vec<u8>) -> Result<(), AllocError>
    ensures { OnOk result (out.new.items ≡ out.old.items ++ publication_record positions) }
{
    let fields = Answer::PublicationPositions {
        position: positions.position,
        limit: positions.limit,
        sent: positions.sent,
        consumed: consumed_field(positions.consumed),
        flags: publication_flags(positions),
    };
    fields.put(&[], out)
}

fn put_image(positions: ImagePositions, out: &mut Vec<u8>) -> Result<(), AllocError>
    ensures { OnOk result (out.new.items ≡ out.old.items ++ image_record positions) }
{
    let fields = Answer::ImagePositions {
        joined: positions.joined,
        position: positions.position,
        received: positions.received,
    };
    fields.put(&[], out)
}

/// How far a publication has come, or the request is refused.
pub(crate) fn tell_publication(
    given: &Result<PublicationPositions, Refusal>,
    out: &mut Vec<u8>,
) -> Result<(), AllocError>
    ensures { OnOk result (out.new.items ≡ out.old.items ++ publication_bytes given.now) }
{
    match given {
        Ok(positions) => put_publication(*positions, out),
        Err(refusal) => refuse(refusal, out),
    }
}

/// How far a subscription has come with a log, or the request is refused.
pub(crate) fn tell_image(
    given: &Result<ImagePositions, Refusal>,
    out: &mut Vec<u8>,
) -> Result<(), AllocError>
    ensures { OnOk result (out.new.items ≡ out.old.items ++ image_bytes given.now) }
{
    match given {
        Ok(positions) => put_image(*positions, out),
        Err(refusal) => refuse(refusal, out),
    }
}
