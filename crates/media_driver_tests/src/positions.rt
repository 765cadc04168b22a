// How far publications and subscriptions have come, as their owner is shown it.
use crate::asking::{Outcome, TRIES};
use media_driver::{
    Client, Clock, DriverNaming, ImagePositions, PositionFault, PublicationPositions,
};
use std::sync::Wait;
use std::thread;

/// Half a term, in bytes.
const HALF: u64 = 32_768;

/// A publication over shared memory of 64 bytes, of which its reader has read so many.
pub(crate) fn over_memory<N: DriverNaming, C: Clock, R: Wait>(
    rt: &R,
    client: &mut Client<N, C>,
    registration: u64,
    subscription: u64,
    source: u64,
    read: u64,
) -> Outcome {
    let publication = PublicationPositions {
        position: 64,
        limit: read.saturating_add(HALF),
        sent: 0,
        consumed: None,
        connected: true,
    };
    if client.publication_positions(rt, registration) != Ok(publication) {
        return Err("the publication has come to other positions");
    }
    let image = ImagePositions {
        joined: 0,
        position: read,
        received: 64,
    };
    if client.image_positions(rt, subscription, source) != Ok(image) {
        return Err("the subscription has come to other positions");
    }
    Ok(())
}

/// Nothing is shown of a publication or a subscription that is not the client's, nor of a log that is not there.
pub(crate) fn only_of_its_own<N: DriverNaming, C: Clock, R: Wait>(
    rt: &R,
    client: &mut Client<N, C>,
    registration: u64,
    subscription: u64,
    source: u64,
) -> Outcome {
    if client.publication_positions(rt, subscription) != Err(PositionFault::Closed) {
        return Err("a subscription is shown as a publication");
    }
    if client.image_positions(rt, registration, source) != Err(PositionFault::Closed) {
        return Err("a publication is shown as a subscription");
    }
    if client.image_positions(rt, subscription, subscription) != Err(PositionFault::Closed) {
        return Err("a log is shown that is not there");
    }
    Ok(())
}

/// A publication over datagrams of 128 bytes, all of which its reader has taken.
pub(crate) fn over_a_wire<N: DriverNaming, C: Clock, R: Wait>(
    rt: &R,
    client: &mut Client<N, C>,
    registration: u64,
    subscription: u64,
    source: u64,
) -> Outcome {
    let image = ImagePositions {
        joined: 0,
        position: 128,
        received: 128,
    };
    if client.image_positions(rt, subscription, source) != Ok(image) {
        return Err("the image has come to other positions");
    }
    let publication = PublicationPositions {
        position: 128,
        limit: 128 + HALF,
        sent: 128,
        consumed: Some(128),
        connected: true,
    };
    for _ in 0..TRIES {
        if client.publication_positions(rt, registration) == Ok(publication) {
            return Ok(());
        }
        thread::yield_now();
    }
    Err("the reader has not taken all")
}
