ghost use Rattle.stream_registry.specs.Places.{is_same_place, is_manual, is_same_media, is_udp, is_ipc};
ghost use Rattle.channel_uri.specs.Channel.{endpoint_shape};
ghost use Rattle.std.specs.Prelude.{◌≡◌};

use channel_uri::{Address, Channel, Media, Place};

/// Whether both channels name the same place.
#[tactic(auto, unfolding(crate::specs::Places::is_same_place))]
pub(crate) fn is_same_place(channel: &Channel, other: &Channel) -> bool
    ensures { result ≡ is_same_place channel.now other.now }
{
    match (channel.place(), other.place()) {
        (Some(Place::Ipc), Some(Place::Ipc)) => true,
        (Some(Place::Manual), Some(Place::Manual)) => true,
        (Some(Place::Control(address)), Some(Place::Control(other))) => address == other,
        (Some(Place::Endpoint(address)), Some(Place::Endpoint(other))) => address == other,
        _ => false,
    }
}

/// Whether the channel names the same place as the channel of that address.
#[tactic(auto, using(crate::proofs::EndpointLemmas::place_same))]
pub(crate) fn is_at(channel: &Channel, address: &Address) -> bool
    ensures { result ≡ is_same_place channel.now (endpoint_shape address.now) }
{
    channel.is_at(address)
}

/// Whether the destinations are named by hand.
#[tactic(auto, unfolding(crate::specs::Places::is_manual))]
pub(crate) fn is_manual(channel: &Channel) -> bool
    ensures { result ≡ is_manual channel.now }
{
    matches!(channel.place(), Some(Place::Manual))
}

pub(crate) fn is_same_media(media: Media, other: Media) -> bool
    ensures { result ≡ is_same_media media other }
{
    media == other
}

pub(crate) fn is_udp(media: Media) -> bool
    ensures { result ≡ is_udp media }
{
    media == Media::Udp
}

pub(crate) fn is_ipc(media: Media) -> bool
    ensures { result ≡ is_ipc media }
{
    media == Media::Ipc
}
