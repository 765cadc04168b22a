//! Where logs go. A log with terms of 64 KiB has 48 pages, and one with terms of 128 KiB has 96.

use crate::stream_play::{self, LINGER, Play, Step};

const SHORT: &str = "aeron:ipc?term-length=64k";

const LONG: &str = "aeron:ipc?term-length=128k";

static STEPS: [(Step, bool); 34] = [
    // The first log fills the arena, and its place is free once it closes.
    (Step::Begin, true),
    (Step::Makes(1, 48, "aeron:ipc", 0), true),
    (Step::GoesTo(48, "aeron:ipc", None), true),
    (Step::Leaves(1, 0), true),
    (Step::Closes(LINGER, None), true),
    (Step::GoesTo(48, "aeron:ipc", None), true),
    (Step::Closes(LINGER + 1, Some((1, 0))), true),
    (Step::GoesTo(48, "aeron:ipc", Some(0)), true),
    // A log has three terms.
    (Step::Begin, true),
    (Step::GoesTo(47, SHORT, None), true),
    (Step::GoesTo(95, LONG, None), true),
    (Step::Makes(1, 144, LONG, 0), true),
    (Step::GoesTo(144, LONG, None), true),
    (Step::Makes(2, 144, SHORT, 96), true),
    (Step::GoesTo(144, SHORT, None), true),
    // The first hole that is long enough is filled.
    (Step::Begin, true),
    (Step::Makes(1, 144, SHORT, 0), true),
    (Step::Makes(2, 144, SHORT, 48), true),
    (Step::Makes(3, 144, SHORT, 96), true),
    (Step::Leaves(2, 0), true),
    (Step::Closes(LINGER + 1, Some((2, 48))), true),
    (Step::GoesTo(240, SHORT, Some(48)), true),
    (Step::GoesTo(239, LONG, None), true),
    (Step::GoesTo(240, LONG, Some(144)), true),
    // The order of logs does not matter: the least place stands later in the list.
    (Step::Begin, true),
    (Step::Makes(1, 144, SHORT, 0), true),
    (Step::Makes(2, 144, SHORT, 48), true),
    (Step::Makes(3, 144, SHORT, 96), true),
    (Step::Leaves(1, 0), true),
    (Step::Closes(LINGER + 1, Some((1, 0))), true),
    (Step::Makes(4, 192, SHORT, 0), true),
    (Step::Leaves(2, 0), true),
    (Step::Closes(LINGER + 1, Some((2, 48))), true),
    (Step::GoesTo(192, SHORT, Some(48)), true),
];

pub(crate) fn are_taken(play: &mut Play) -> bool {
    stream_play::are_taken(play, &STEPS)
}
