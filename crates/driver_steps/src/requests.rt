//! Which open log a datagram is for, by the newest registry or by an older one.

ghost use Rattle.driver_core.specs.ImageRequests.{image_named};
ghost use Rattle.driver_steps.specs.Ends.{is_same_image, looks_at};
ghost use Rattle.driver_steps.specs.Requests.{of_stream_by, request_by};
ghost use Rattle.frame_codec.specs.Datagram.{content};
ghost use Rattle.std.specs.Prelude.{◌≡◌, option_copied};

use driver_core::{Address, Astray, Registry};
use frame_codec::{Packet, TermPlace};
use log_steps::{PacketRequest, packet_request};

/// Whether the image of that place that the older registry has is the one that the newest has.
fn is_same_image(older: &Registry, newest: &Registry, local: &Address, place: TermPlace) -> bool
    ensures { result ≡ is_same_image (image_named older.now local.now place.session_id place.stream_id) (image_named newest.now local.now place.session_id place.stream_id) }
{
    match (
        older.image_named(local, place.session_id, place.stream_id),
        newest.image_named(local, place.session_id, place.stream_id),
    ) {
        (Some(image), Some(other)) => image == other,
        _ => false,
    }
}

/// As [`packet_request`] of data, for an image of the older registry that the newest still has: else its log is closed, and
/// the datagram is of no stream, whoever sent it.
fn of_stream_seen(
    older: &Registry,
    newest: &Registry,
    local: &Address,
    from: &Address,
    place: TermPlace,
) -> Result<PacketRequest, Astray>
    ensures { result ≡ of_stream_by older.now newest.now local.now from.now place }
{
    let source = match older.image_for(local, from, place.session_id, place.stream_id) {
        Ok(source) => source,
        Err(Astray::Stranger) if is_same_image(older, newest, local, place) => {
            return Err(Astray::Stranger);
        }
        Err(_) => return Err(Astray::NoStream),
    };
    match newest.image_for(local, from, place.session_id, place.stream_id) {
        Ok(other) if other == source => Ok(PacketRequest {
            source,
            decision: None,
        }),
        _ => Err(Astray::NoStream),
    }
}

/// As [`packet_request`], by an older registry. Data and heartbeats of an image that the newest one does not have any more are
/// of no stream.
fn request_seen(
    older: &Registry,
    newest: &Registry,
    local: &Address,
    from: &Address,
    packet: &Packet<'_>,
) -> Result<PacketRequest, Astray>
    ensures { result ≡ request_by older.now newest.now local.now from.now (content packet.now) }
{
    match packet {
        Packet::Data(frames) => {
            let mut left = *frames;
            match left.next() {
                Some(frame) => of_stream_seen(older, newest, local, from, frame.header.place),
                None => Err(Astray::NoStream),
            }
        }
        Packet::Beat(header) => of_stream_seen(older, newest, local, from, header.place),
        _ => packet_request(older, local, from, packet),
    }
}

/// Which open log a datagram is for, by the newest registry or by the older one that is looked at.
pub(crate) fn request_by(
    newest: &Registry,
    older: Option<&Registry>,
    local: &Address,
    from: &Address,
    packet: &Packet<'_>,
) -> Result<PacketRequest, Astray>
    ensures { result ≡ request_by (looks_at newest.now (option_copied older.entry)) newest.now local.now from.now (content packet.now) }
{
    match older {
        None => packet_request(newest, local, from, packet),
        Some(older) => request_seen(older, newest, local, from, packet),
    }
}
