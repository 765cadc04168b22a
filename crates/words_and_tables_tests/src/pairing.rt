//! Which subscription reads which log.

use crate::stream_play::{self, Answer, Play, Step};
use stream_registry::Pair;

const FIRST: Pair = Pair {
    source: 3,
    subscription: 1,
};

const SECOND: Pair = Pair {
    source: 3,
    subscription: 2,
};

const THIRD: Pair = Pair {
    source: 3,
    subscription: 3,
};

const OF_LINGERING: Pair = Pair {
    source: 1,
    subscription: 2,
};

const OF_STATED: Pair = Pair {
    source: 2,
    subscription: 5,
};

static STEPS: [(Step, bool); 36] = [
    // A reload closes one image; other pairs are reported.
    (Step::Begin, true),
    (Step::Subscribes(1, 1, "aeron:ipc"), true),
    (Step::Subscribes(2, 2, "aeron:ipc"), true),
    (Step::Publishes(3, 1, "aeron:ipc", Answer::Made(1)), true),
    (Step::Pairs(2, [FIRST, SECOND, SECOND]), true),
    (Step::PairsDenied(1, [FIRST; 3]), true),
    (Step::Pairs(2, [FIRST, THIRD, THIRD]), false),
    (Step::Pairs(1, [FIRST; 3]), false),
    (Step::Pairs(3, [FIRST, SECOND, SECOND]), false),
    (Step::Pairs(2, [SECOND, FIRST, FIRST]), false),
    (Step::ReadsDenied(3, 1), true),
    (Step::ReadsDenied(3, 2), false),
    (Step::ReadsDenied(4, 1), false),
    // A subscription is only asked about: it isn't there then.
    (Step::Begin, true),
    (Step::Publishes(3, 1, "aeron:ipc", Answer::Made(1)), true),
    (Step::WouldRead(1, 10), true),
    (Step::WouldRead(2, 10), false),
    (Step::WouldRead(3, 10), false),
    (Step::WouldRead(1, 11), false),
    (Step::Has(1, 1, 0), true),
    // Logs that linger are read.
    (Step::Begin, true),
    (Step::Publishes(1, 1, "aeron:ipc", Answer::Made(1)), true),
    (Step::Subscribes(2, 2, "aeron:ipc"), true),
    (Step::Leaves(1, 0), true),
    (Step::Pairs(1, [OF_LINGERING; 3]), true),
    (Step::Leaves(2, 0), true),
    (Step::Pairs(0, [FIRST; 3]), true),
    // The session that is stated is the one that is read. The last subscription is of a client that is not there.
    (Step::Begin, true),
    (
        Step::PublishesOn(1, "aeron:ipc", 10, true, Answer::Made(1)),
        true,
    ),
    (
        Step::PublishesOn(2, "aeron:ipc", 10, true, Answer::Made(2)),
        true,
    ),
    (
        Step::PublishesOn(3, "aeron:ipc", 11, true, Answer::Made(3)),
        true,
    ),
    (
        Step::Publishes(4, 1, "aeron:udp?endpoint=127.0.0.1:40123", Answer::Made(4)),
        true,
    ),
    (Step::Subscribes(5, 1, "aeron:ipc?session-id=2"), true),
    (
        Step::Subscribes(6, 1, "aeron:udp?endpoint=127.0.0.1:40123"),
        true,
    ),
    (Step::Subscribes(7, 3, "aeron:ipc"), true),
    (Step::Pairs(1, [OF_STATED; 3]), true),
];

pub(crate) fn are_taken(play: &mut Play) -> bool {
    stream_play::are_taken(play, &STEPS)
}
