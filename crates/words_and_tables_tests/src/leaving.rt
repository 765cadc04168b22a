//! What goes, and when.

use crate::stream_play::{self, Answer, LINGER, Play, Step};
use stream_registry::StreamFault;

const UNKNOWN: Result<(), StreamFault> = Err(StreamFault::UnknownPublication);

const NO_SUBSCRIPTION: Result<(), StreamFault> = Err(StreamFault::UnknownSubscription);

static STEPS: [(Step, bool); 43] = [
    // A log lingers once its last registration went, and then closes.
    (Step::Begin, true),
    (Step::Publishes(1, 1, "aeron:ipc", Answer::Made(1)), true),
    (
        Step::Publishes(2, 2, "aeron:ipc", Answer::Joined(1, 1)),
        true,
    ),
    (Step::Unpublishes(2, 1, 0, UNKNOWN), true),
    (Step::Unpublishes(1, 1, 3, Ok(())), true),
    (Step::Unpublishes(1, 1, 3, UNKNOWN), true),
    (Step::Lingers(1, None), true),
    (Step::Unpublishes(2, 2, 4, Ok(())), true),
    (Step::Lingers(1, Some(4)), true),
    (Step::Closes(4 + LINGER, None), true),
    (Step::Closes(5 + LINGER, Some((1, 1))), true),
    (Step::Has(0, 0, 0), true),
    // A log that lingers is not joined.
    (Step::Begin, true),
    (Step::Publishes(1, 1, "aeron:ipc", Answer::Made(1)), true),
    (Step::Leaves(1, 7), true),
    (Step::Publishes(2, 1, "aeron:ipc", Answer::Made(2)), true),
    (
        Step::Publishes(3, 1, "aeron:ipc", Answer::Joined(2, 2)),
        true,
    ),
    (Step::Lingers(1, Some(7)), true),
    (Step::Lingers(2, None), true),
    // A client goes with all that it has.
    (Step::Begin, true),
    (Step::Publishes(1, 1, "aeron:ipc", Answer::Made(1)), true),
    (
        Step::Publishes(2, 2, "aeron:ipc", Answer::Joined(1, 1)),
        true,
    ),
    (Step::Subscribes(3, 1, "aeron:ipc"), true),
    (Step::Subscribes(4, 2, "aeron:ipc"), true),
    (Step::Has(1, 2, 2), true),
    (Step::Leaves(1, 0), true),
    (Step::Has(1, 1, 1), true),
    (Step::Unsubscribes(2, 4, Ok(())), true),
    (Step::CloseAll, true),
    (Step::Has(0, 0, 0), true),
    // A copy is on its own.
    (Step::Begin, true),
    (Step::Publishes(1, 1, "aeron:ipc", Answer::Made(1)), true),
    (
        Step::Publishes(2, 2, "aeron:ipc", Answer::Joined(1, 1)),
        true,
    ),
    (Step::Subscribes(3, 1, "aeron:ipc"), true),
    (Step::Subscribes(4, 2, "aeron:ipc"), true),
    (Step::Has(1, 2, 2), true),
    (Step::IsCopied, true),
    // A client takes back its own subscriptions alone.
    (Step::Begin, true),
    (Step::Subscribes(1, 1, "aeron:ipc"), true),
    (Step::Unsubscribes(2, 1, NO_SUBSCRIPTION), true),
    (Step::Unsubscribes(1, 2, NO_SUBSCRIPTION), true),
    (Step::Unsubscribes(1, 1, Ok(())), true),
    (Step::Unsubscribes(1, 1, NO_SUBSCRIPTION), true),
];

pub(crate) fn are_taken(play: &mut Play) -> bool {
    stream_play::are_taken(play, &STEPS)
}
