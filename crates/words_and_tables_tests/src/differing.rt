//! Each question to a play is answered with false beside something that differs in one place.

use crate::stream_play::{self, Answer, LINGER, Play, Step};
use stream_registry::StreamFault;

static STEPS: [(Step, bool); 26] = [
    // The log is of session 1 and source 1, and it is joined; no publication is of a text that is no channel.
    (Step::Begin, true),
    (Step::Publishes(1, 1, "aeron:ipc", Answer::Made(2)), false),
    (Step::Publishes(1, 1, "aeron:ipc", Answer::Made(1)), true),
    (
        Step::Publishes(2, 1, "aeron:ipc", Answer::Joined(2, 1)),
        false,
    ),
    (
        Step::Publishes(2, 1, "aeron:ipc", Answer::Joined(1, 1)),
        true,
    ),
    (
        Step::Publishes(3, 1, "aeron:ipc", Answer::Refused(StreamFault::Full)),
        false,
    ),
    (Step::Publishes(4, 1, "ipc", Answer::Made(2)), false),
    (Step::Subscribes(3, 1, "aeron:ipc"), true),
    (Step::Subscribes(4, 1, "ipc"), false),
    // The log is at page 1, and has 48 pages: the next one goes after it.
    (Step::GoesTo(97, "aeron:ipc", Some(49)), true),
    (Step::GoesTo(97, "aeron:ipc", Some(1)), false),
    (Step::GoesTo(97, "aeron:ipc", None), false),
    (Step::Makes(5, 97, "aeron:ipc", 1), false),
    (Step::Has(1, 2, 1), true),
    (Step::Has(2, 2, 1), false),
    (Step::Has(1, 1, 1), false),
    (Step::Has(1, 2, 0), false),
    (Step::Lingers(1, None), true),
    (Step::Lingers(1, Some(0)), false),
    (Step::Lingers(2, None), false),
    // The log closes past its linger, and is at page 1.
    (Step::Begin, true),
    (Step::Publishes(1, 1, "aeron:ipc", Answer::Made(1)), true),
    (Step::Leaves(1, 0), true),
    (Step::Closes(LINGER, Some((1, 1))), false),
    (Step::Closes(LINGER + 1, Some((1, 2))), false),
    (Step::Has(0, 0, 0), true),
];

pub(crate) fn are_taken(play: &mut Play) -> bool {
    stream_play::are_taken(play, &STEPS)
}
