//! How much there may be.

use crate::stream_play::{self, Answer, Many, Play, Step};
use stream_registry::StreamFault;

const FULL: Answer = Answer::Refused(StreamFault::Full);

const CONFLICT: Answer = Answer::Refused(StreamFault::Conflict);

static STEPS: [(Step, bool); 16] = [
    (Step::Begin, true),
    (Step::Come(Many::Logs, 1, 257), true),
    (Step::PublishesOn(257, "aeron:ipc", 10, true, FULL), true),
    (
        Step::PublishesOn(257, "aeron:ipc?session-id=7", 10, true, CONFLICT),
        true,
    ),
    (Step::Begin, true),
    (Step::Publishes(1, 1, "aeron:ipc", Answer::Made(1)), true),
    (Step::Come(Many::Joined, 2, 1025), true),
    (Step::Publishes(1025, 1, "aeron:ipc", FULL), true),
    (Step::PublishesOn(1025, "aeron:ipc", 11, false, FULL), true),
    // A further subscription waits for another to go.
    (Step::Begin, true),
    (Step::Come(Many::Subscriptions, 1, 513), true),
    (Step::Subscribes(513, 1, "aeron:ipc"), false),
    (Step::Has(0, 0, 512), true),
    (Step::Unsubscribes(1, 7, Ok(())), true),
    (Step::Subscribes(513, 1, "aeron:ipc"), true),
    (Step::Subscribes(514, 1, "aeron:ipc"), false),
];

pub(crate) fn are_taken(play: &mut Play) -> bool {
    stream_play::are_taken(play, &STEPS)
}
