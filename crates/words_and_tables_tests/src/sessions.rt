//! Which session a log has.

use crate::stream_play::{self, Answer, LINGER, Play, Step};
use stream_registry::StreamFault;

const STATED: &str = "aeron:ipc?session-id=-7";

const OTHER_MEDIUM: &str = "aeron:udp?endpoint=127.0.0.1:40123|session-id=-7";

const CONFLICT: Answer = Answer::Refused(StreamFault::Conflict);

static STEPS: [(Step, bool); 21] = [
    // From the greatest session on, they go on with the least.
    (Step::BeginFrom(i32::MAX), true),
    (
        Step::PublishesOn(1, "aeron:ipc", 10, false, Answer::Made(i32::MAX)),
        true,
    ),
    (
        Step::PublishesOn(2, "aeron:ipc", 11, false, Answer::Made(i32::MIN)),
        true,
    ),
    // One that is stated moves nothing.
    (Step::Begin, true),
    (
        Step::PublishesOn(1, "aeron:ipc?session-id=2", 10, true, Answer::Made(2)),
        true,
    ),
    (
        Step::PublishesOn(2, "aeron:ipc", 10, true, Answer::Made(1)),
        true,
    ),
    (
        Step::PublishesOn(3, "aeron:ipc", 10, true, Answer::Made(3)),
        true,
    ),
    (
        Step::PublishesOn(4, "aeron:ipc", 10, true, Answer::Made(4)),
        true,
    ),
    // One that is stated again is refused.
    (Step::Begin, true),
    (
        Step::PublishesOn(1, STATED, 10, true, Answer::Made(-7)),
        true,
    ),
    (Step::PublishesOn(2, STATED, 10, true, CONFLICT), true),
    (Step::PublishesOn(2, STATED, 10, false, CONFLICT), true),
    (
        Step::PublishesOn(2, STATED, 11, false, Answer::Made(-7)),
        true,
    ),
    (
        Step::PublishesOn(3, STATED, 11, false, Answer::Joined(2, -7)),
        true,
    ),
    (
        Step::PublishesOn(4, "aeron:ipc?session-id=8", 11, false, CONFLICT),
        true,
    ),
    (
        Step::PublishesOn(4, OTHER_MEDIUM, 10, false, Answer::Made(-7)),
        true,
    ),
    // One whose log closed is not given again at once.
    (Step::Begin, true),
    (Step::Publishes(1, 1, "aeron:ipc", Answer::Made(1)), true),
    (Step::Leaves(1, 0), true),
    (Step::Closes(1 + LINGER, Some((1, 1))), true),
    (Step::Publishes(2, 1, "aeron:ipc", Answer::Made(2)), true),
];

pub(crate) fn are_taken(play: &mut Play) -> bool {
    stream_play::are_taken(play, &STEPS)
}
