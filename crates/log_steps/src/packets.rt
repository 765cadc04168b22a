//! A datagram that comes to an open log: data, a heartbeat, a NAK or a status message.
//!
//! Each call on its way is made in place (`inline`), so that for each kind of datagram only what that kind may be answered is
//! handed on.

ghost use Rattle.frame_codec.specs.Datagram.{content};
ghost use Rattle.log_steps.specs.Decided.{Decides, decision_for};
ghost use Rattle.log_steps.specs.Held.{LiesAsBefore};
ghost use Rattle.log_steps.specs.Memory.{Gives};
ghost use Rattle.log_steps.specs.Moves.{Does};
ghost use Rattle.log_steps.specs.Packets.{IsFor, content_move, of_asked, of_image, of_stream, of_told, packet_move, packet_request};
ghost use Rattle.log_steps.specs.Receiving.{unheard};
ghost use Rattle.log_traffic.specs.Held.{made_held};
ghost use Rattle.std.specs.Prelude.{◌≡◌, IfOk, OnErr};

use crate::answer::Answer;
use crate::answered::Answered;
use crate::cause::Cause;
use crate::hearing::status_step;
use crate::open_log::OpenLog;
use crate::receiving::{beat_step, receive_step};
use crate::resending::nak_step;
use driver_core::{Address, Astray, JoinRequest, LogRequest, Registry, View};
use frame_codec::{Frames, Packet, TermPlace};
use policy_core::Decision;
use std::alloc::{AllocError, Global};

/// Which open log a datagram is for, by a registry, and what its policy decides of it. It is asked of a NAK, and of a status
/// message for a log that learns its destinations.
#[derive(Clone, Copy, Debug, PartialEq, Eq)]
pub struct PacketRequest {
    /// The number of the log's source.
    pub source: u64,
    pub decision: Option<Decision>,
}

/// What comes of an image.
#[inline(always)]
fn of_stream(
    registry: &Registry,
    local: &Address,
    from: &Address,
    place: TermPlace,
) -> Result<PacketRequest, Astray>
    ensures { result ≡ of_stream registry.now local.now from.now place }
{
    let source = registry.image_for(local, from, place.session_id, place.stream_id)?;
    Ok(PacketRequest {
        source,
        decision: None,
    })
}

/// Whose frames a NAK asks for, and whether it may have them.
fn of_asked(request: Option<LogRequest>) -> Result<PacketRequest, Astray>
    ensures { result ≡ of_asked request }
{
    match request {
        Some(request) => Ok(PacketRequest {
            source: request.source,
            decision: Some(request.decision),
        }),
        None => Err(Astray::NoStream),
    }
}

/// Which log a status message is for, and whether the address from which it came may be a destination.
fn of_told(request: Option<JoinRequest>) -> Result<PacketRequest, Astray>
    ensures { result ≡ of_told request }
{
    match request {
        Some(request) => Ok(PacketRequest {
            source: request.source,
            decision: request.decision,
        }),
        None => Err(Astray::NoStream),
    }
}

/// Which open log a datagram is for that came to the address `local`, from the address `from`, as the registry that the view
/// shows says. Data and a heartbeat are for the image of that address, session and stream, where they are from its publisher;
/// a NAK and a status message are for the publication of their session and stream, whatever address they came to. A SETUP is
/// for none.
#[inline(always)]
pub fn packet_request<V: View>(
    view: &V,
    local: &Address,
    from: &Address,
    packet: &Packet<'_>,
) -> Result<PacketRequest, Astray>
    ensures { result ≡ packet_request (V.shows view.now) local.now from.now (content packet.now) }
{
    let registry = view.registry();
    match packet {
        Packet::Data(frames) => {
            let mut left = *frames;
            match left.next() {
                Some(frame) => of_stream(registry, local, from, frame.header.place),
                None => Err(Astray::NoStream),
            }
        }
        Packet::Beat(header) => of_stream(registry, local, from, header.place),
        Packet::Nak(nak) => of_asked(registry.resending(from, nak.session_id, nak.stream_id)),
        Packet::Sm(message) => {
            of_told(registry.joining(from, message.session_id, message.stream_id))
        }
        Packet::Setup(_) => Err(Astray::NoStream),
    }
}

/// No log hears the datagram.
fn unheard() -> Answer
    ensures { result ≡ unheard }
{
    Answer::Dropped(Cause::Astray(Astray::NoStream))
}

/// The datagram comes to the log that it is for.
#[inline(always)]
fn take_packet(
    log: &mut OpenLog,
    alloc: Global,
    now: u64,
    from: &Address,
    packet: Packet<'_>,
    decision: &Option<Decision>,
) -> Result<Answer, AllocError>
    requires { IsFor (made_held log.old.log) (content packet) }
    ensures does { IfOk result (λ answer. Does (content_move now from.now decision.now (content packet.entry)) log.old log.new answer) }
    ensures lies { LiesAsBefore log.old log.new }
    ensures err { OnErr result (log.new ≡ log.old) }
    ensures without_memory { OnErr result (Gives (content_move now from.now decision.now (content packet.entry)) log.old) }
{
    match packet {
        Packet::Data(frames) => receive_step(log, alloc, now, frames),
        Packet::Beat(header) => Ok(beat_step(log, now, &header.place)),
        Packet::Nak(nak) => match decision {
            Some(decision) => nak_step(log, alloc, now, from, &nak, decision),
            None => Ok(unheard()),
        },
        Packet::Sm(message) => Ok(status_step(log, now, from, &message, decision)),
        Packet::Setup(_) => Ok(unheard()),
    }
}

/// A datagram that came from the address `from`, at the moment `now` in nanoseconds, comes to a log; `request` is what
/// [`packet_request`] says of it by the registry that the step goes by.
///
/// The answer is [`Astray::NoStream`] where it is for the log of another source. Else the frames of data are handed to the
/// log and a word is answered for each; a heartbeat says where the publisher is; a status message says how far may be sent, and
/// where there is a decision, whether `from` is a destination of the log; and a NAK is denied by the decision, or answered as
/// the log's gate says, and what it asks for goes to `from` alone. The decision is reported whatever comes of the datagram.
///
/// # Errors
/// Nothing is changed where there is no memory for the words or the datagrams. Any other answer takes none.
#[inline(always)]
pub fn packet_step(
    log: &mut OpenLog,
    alloc: Global,
    now: u64,
    from: &Address,
    packet: Packet<'_>,
    request: &PacketRequest,
) -> Result<Answered, AllocError>
    requires { IsFor (made_held log.old.log) (content packet) }
    ensures does { IfOk result (λ told. Does (packet_move now from.now request.now (content packet.entry)) log.old log.new told.answer) }
    ensures decides { IfOk result (λ told. Decides (decision_for request.now.source (λ log. request.now.decision)) log.old told.decision) }
    ensures lies { LiesAsBefore log.old log.new }
    ensures err { OnErr result (log.new ≡ log.old) }
    ensures without_memory { OnErr result (Gives (packet_move now from.now request.now (content packet.entry)) log.old) }
{
    if log.source() != request.source {
        return Ok(Answered {
            answer: unheard(),
            decision: None,
        });
    }
    let answer = take_packet(log, alloc, now, from, packet, &request.decision)?;
    Ok(Answered {
        answer,
        decision: request.decision,
    })
}
