//! The pairs of what is about to come.

use crate::reader_play::{Play, pair, wanted};
use channel_uri::Channel;
use log_readers::pairs_of_subscription;
use std::alloc::Global;
use stream_registry::{Pair, Wanted, Wish};

/// Whether a subscription of this client would have these pairs, where there are no others.
fn would_read(alloc: Global, play: &Play, client: u64, pairs: &[Pair]) -> bool {
    let channel = Channel::ipc();
    let wish = Wish {
        number: 9,
        client,
        channel: &channel,
        stream: 10,
    };
    let count = play
        .readers
        .pair_count_with_subscription(&play.streams, &play.clients, &play.policy.at(0), 1, &wish);
    match pairs_of_subscription(
        alloc,
        &play.streams,
        &play.clients,
        &play.policy.at(0),
        1,
        &wish,
    ) {
        Ok(found) => {
            let same = found.as_slice() == pairs;
            drop(found);
            same & (count == pairs.len())
        }
        Err(_) => false,
    }
}

/// Whether subscriptions of the two clients would have their pairs, where `image` is denied to the second.
pub(crate) fn subscriptions_would_read(alloc: Global, play: &mut Play) -> bool {
    play.publishes(3, 1)
        & play.publishes(4, 2)
        & would_read(alloc, play, 1, &[pair(3, 9), pair(4, 9)])
        & would_read(alloc, play, 2, &[])
}

/// Whether there would be so many pairs with that publication, of number 9.
fn would_be_read(play: &Play, wanted: &Wanted, count: usize) -> bool {
    let Ok(adding) = play.streams.adding(wanted) else {
        return false;
    };
    let counted = play.readers.pair_count_with_publication(
        &play.streams,
        &play.clients,
        &play.policy.at(0),
        1,
        9,
        1,
        wanted,
        0,
        adding,
    );
    counted == count
}

/// Whether a log beside two subscriptions has these pairs, as many as are counted before it comes.
pub(crate) fn is_read_beside_two(alloc: Global, play: &mut Play, pairs: &[Pair]) -> bool {
    play.subscribes(1, 1)
        & play.subscribes(2, 2)
        & would_be_read(play, &wanted(), pairs.len())
        & play.publishes(9, 1)
        & play.has_log(alloc, 9, pairs)
}
