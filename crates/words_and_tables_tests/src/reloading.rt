//! Who reads a log, and what another policy changes of that.

use crate::reader_play::{Play, pair, policy};
use std::alloc::Global;
use stream_registry::Pair;

/// Whether two clients subscribe, and two logs are there.
fn two_logs(play: &mut Play) -> bool {
    play.subscribes(1, 1) & play.subscribes(2, 2) & play.publishes(3, 1) & play.publishes(4, 2)
}

/// Whether only the first client's subscription is found where `image` is denied to the second.
pub(crate) fn first_is_found(alloc: Global, play: &mut Play) -> bool {
    two_logs(play)
        & play.has_pairs(alloc, &[pair(3, 1), pair(4, 1)])
        & play.has(4, 1)
        & !play.has(4, 2)
        & !play.has(5, 1)
        & play.is_read_by(4, &[1])
        & play.is_read_by(5, &[])
}

/// Whether these pairs go and those come where a policy follows that denies `image` to the second client, or one that
/// allows everything.
pub(crate) fn turns_over(
    alloc: Global,
    play: &mut Play,
    is_denied: bool,
    gone: &[Pair],
    come: &[Pair],
) -> bool {
    match policy(alloc, is_denied) {
        Ok(after) => {
            let so = two_logs(play) & play.turns_over(alloc, &after, gone, come);
            drop(after);
            so
        }
        Err(_) => false,
    }
}
