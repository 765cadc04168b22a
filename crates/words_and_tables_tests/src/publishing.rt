//! Who joins whose log.

use crate::stream_play::{self, Answer, Play, Step};
use stream_registry::StreamFault;

const CONFLICT: Answer = Answer::Refused(StreamFault::Conflict);

const MANUAL: &str = "aeron:udp?control-mode=manual";

static STEPS: [(Step, bool); 20] = [
    // Equal channels share a log.
    (Step::Begin, true),
    (
        Step::Publishes(
            1,
            1,
            "aeron:udp?endpoint=127.0.0.1:40123|mtu=1408",
            Answer::Made(1),
        ),
        true,
    ),
    (
        Step::Publishes(
            2,
            2,
            "aeron:udp?mtu=1408|endpoint=localhost:40123",
            Answer::Joined(1, 1),
        ),
        true,
    ),
    (
        Step::Publishes(
            3,
            3,
            "aeron:udp?endpoint=127.0.0.1:40123|term-length=128k",
            CONFLICT,
        ),
        true,
    ),
    (Step::Has(1, 2, 0), true),
    (Step::Registered(1, 2), true),
    (Step::Registered(2, 0), true),
    // A missing key is as the defaults.
    (Step::Begin, true),
    (Step::Publishes(1, 1, "aeron:ipc", Answer::Made(1)), true),
    (
        Step::Publishes(
            2,
            1,
            "aeron:ipc?mtu=1408|term-length=64k|linger=5s",
            Answer::Joined(1, 1),
        ),
        true,
    ),
    (Step::Publishes(3, 1, "aeron:ipc?mtu=1440", CONFLICT), true),
    (Step::Publishes(3, 1, "aeron:ipc?linger=4s", CONFLICT), true),
    // Some logs are never joined.
    (Step::Begin, true),
    (Step::Publishes(1, 1, MANUAL, Answer::Made(1)), true),
    (Step::Publishes(2, 1, MANUAL, Answer::Made(2)), true),
    (
        Step::PublishesOn(3, "aeron:ipc", 10, true, Answer::Made(3)),
        true,
    ),
    (Step::Publishes(4, 1, "aeron:ipc", Answer::Made(4)), true),
    (
        Step::PublishesOn(5, "aeron:ipc", 10, true, Answer::Made(5)),
        true,
    ),
    (
        Step::Publishes(6, 1, "aeron:ipc?control-mode=manual", Answer::Joined(4, 4)),
        true,
    ),
    (
        Step::PublishesOn(7, "aeron:ipc", 11, false, Answer::Made(6)),
        true,
    ),
];

pub(crate) fn are_taken(play: &mut Play) -> bool {
    stream_play::are_taken(play, &STEPS)
}
