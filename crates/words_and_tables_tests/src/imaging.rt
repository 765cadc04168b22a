//! Images: the logs of remote publishers.

use crate::stream_play::{self, Answer, HERE, Play, Step};

static STEPS: [(Step, bool); 67] = [
    // They are read at their endpoint.
    (Step::Begin, true),
    (Step::Images(1, HERE, 10, 7), true),
    (Step::Images(2, HERE, 11, 8), true),
    (
        Step::Subscribes(3, 1, "aeron:udp?endpoint=localhost:40123"),
        true,
    ),
    (
        Step::Subscribes(4, 1, "aeron:udp?endpoint=127.0.0.1:40123|session-id=7"),
        true,
    ),
    (
        Step::Subscribes(5, 1, "aeron:udp?endpoint=127.0.0.1:40123|session-id=8"),
        true,
    ),
    (
        Step::Subscribes(6, 1, "aeron-spy:aeron:udp?endpoint=127.0.0.1:40123"),
        true,
    ),
    (
        Step::Subscribes(7, 1, "aeron:udp?endpoint=127.0.0.1:40124"),
        true,
    ),
    (Step::Subscribes(8, 1, "aeron:ipc"), true),
    (
        Step::Subscribes(9, 1, "aeron:udp?control-mode=manual"),
        true,
    ),
    (Step::Reads(1, 3), true),
    (Step::Reads(1, 4), true),
    (Step::Reads(1, 5), false),
    (Step::Reads(1, 6), false),
    (Step::Reads(1, 7), false),
    (Step::Reads(1, 8), false),
    (Step::Reads(1, 9), false),
    (Step::Reads(2, 3), false),
    // They take no session of ours.
    (Step::Begin, true),
    (Step::Images(1, HERE, 10, 1), true),
    (Step::Publishes(2, 1, "aeron:ipc", Answer::Made(1)), true),
    (Step::Publishes(3, 1, HERE, Answer::Made(2)), true),
    (
        Step::Publishes(
            4,
            1,
            "aeron:udp?endpoint=127.0.0.1:40124|session-id=7",
            Answer::Made(7),
        ),
        true,
    ),
    // Slots are of one kind each.
    (Step::Begin, true),
    (Step::Images(1, HERE, 10, 7), true),
    (Step::Publishes(2, 1, "aeron:ipc", Answer::Made(1)), true),
    (Step::Images(3, HERE, 11, 8), true),
    (Step::Publishes(4, 1, HERE, Answer::Made(2)), true),
    (Step::HasSlot(1, 0), true),
    (Step::HasSlot(2, 0), true),
    (Step::HasSlot(3, 1), true),
    (Step::HasSlot(4, 1), true),
    (Step::ImagesGo(1, 2), true),
    (Step::Has(3, 2, 0), true),
    (Step::Images(5, HERE, 12, 9), true),
    (Step::HasSlot(5, 0), true),
    (Step::HasSlot(3, 1), true),
    // They are found until they go.
    (Step::Begin, true),
    (Step::Images(1, HERE, 10, 7), true),
    (Step::Images(2, HERE, 11, 8), true),
    (Step::IsFound(10, 7), true),
    (Step::IsFound(11, 8), true),
    (Step::IsFound(10, 8), false),
    (Step::IsFound(11, 7), false),
    (Step::ImagesGo(1, 1), true),
    (Step::IsFound(10, 7), false),
    (Step::IsFound(11, 8), true),
    // They have pages of their own.
    (Step::Begin, true),
    (Step::ImageGoesTo(48, Some(0)), true),
    (Step::Makes(1, 96, "aeron:ipc", 0), true),
    (Step::ImageGoesTo(96, Some(48)), true),
    (Step::ImageGoesTo(95, None), true),
    // They do not linger.
    (Step::Begin, true),
    (Step::Images(1, HERE, 10, 7), true),
    (Step::Images(2, HERE, 11, 8), true),
    (Step::Leaves(1, 0), true),
    (Step::Lingers(1, None), true),
    (Step::Closes(u64::MAX, None), true),
    (Step::Has(2, 0, 0), true),
    // They close when they are silent, and no publication does.
    (Step::Begin, true),
    (Step::Images(1, HERE, 10, 7), true),
    (Step::Images(2, HERE, 11, 8), true),
    (Step::Publishes(3, 1, "aeron:ipc", Answer::Made(1)), true),
    (Step::ClosesSilent((1, 3), (1, 1)), true),
    (Step::IsFound(10, 7), false),
    (Step::IsFound(11, 8), true),
    (Step::Lingers(3, None), true),
];

pub(crate) fn are_taken(play: &mut Play) -> bool {
    stream_play::are_taken(play, &STEPS)
}
