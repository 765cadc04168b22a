//! The frames of a log that meet a range.

ghost use Rattle.std.specs.Prelude.{◌≡◌, ◌++◌, filter};
ghost use Rattle.std.specs.Iterator.{YieldsFirstBy};
ghost use Rattle.term_log.specs.Ranges.{all_left, meets, over_left};
ghost use Rattle.term_log.specs.Reading.{frames_left, given_of};

use crate::reading::{Frames, LogFrame};

/// The frames of a log whose ranges meet a range of positions, in order. The log lends their bytes.
#[derive(Clone, Copy, Debug)]
pub struct FramesOver<'a> {
    /// The frames of the oldest term that is held, of the one after it, and of the newest.
    first: Frames<'a>,
    second: Frames<'a>,
    third: Frames<'a>,
    /// Where the range begins.
    position: u64,
    /// How many positions it has.
    size: u64,
}

/// Whether a frame's range has a position in common with that of `size` positions from `position` on.
fn meets(position: u64, size: u64, frame: &LogFrame<'_>) -> bool
    ensures { result ≡ meets position size (given_of frame.now) }
{
    position.saturating_sub(frame.position) < frame.span()
        && frame.position.saturating_sub(position) < size
}

/// The frames from the first one on that is a pad or ends after a position: those before it meet no range that begins there,
/// and of each no more is read than how long it is.
fn from_behind<'a>(frames: Frames<'a>, position: u64, _size: u64) -> Frames<'a>
    ensures { filter (meets position _size) (frames_left result) ≡ filter (meets position _size) (frames_left frames.entry) }
{
    let mut left = frames;
    while let Some(size) = left.passed_size(position) {
        left = left.pass(size);
    }
    left
}

/// The frames from the first one on that meets a range, if any does: those before it are passed.
fn from_meeting<'a>(frames: Frames<'a>, position: u64, size: u64) -> Frames<'a>
    ensures { filter (meets position size) (frames_left result) ≡ filter (meets position size) (frames_left frames.entry) }
{
    let mut left = frames;
    let mut later = frames;
    while let Some(frame) = later.next() {
        if meets(position, size, &frame) {
            return left;
        }
        left = later;
    }
    left
}

impl<'a> FramesOver<'a> {
    /// Those frames of three terms that meet a range.
    #[tactic(auto, unfolding(crate::specs::Ranges::over_left))]
    pub(crate) fn new(
        first: Frames<'a>,
        second: Frames<'a>,
        third: Frames<'a>,
        position: u64,
        size: u64,
    ) -> FramesOver<'a>
        ensures { over_left result ≡ filter (meets position size) (frames_left first.entry ++ frames_left second.entry ++ frames_left third.entry) }
    {
        FramesOver {
            first: from_meeting(from_behind(first, position, size), position, size),
            second,
            third,
            position,
            size,
        }
    }

    /// The next frame of the three terms, whether it meets the range or not.
    fn step(&mut self) -> Option<LogFrame<'a>>
        ensures gives { YieldsFirstBy given_of all_left self.old result self.new }
        ensures position { self.new.position ≡ self.old.position }
        ensures size { self.new.size ≡ self.old.size }
    {
        if let Some(frame) = self.first.next() {
            return Some(frame);
        }
        if let Some(frame) = self.second.next() {
            return Some(frame);
        }
        self.third.next()
    }
}

impl<'a> Iterator for FramesOver<'a> {
    ghost use Rattle.term_log.specs.Ranges.{over_left};
    ghost use Rattle.term_log.specs.Reading.{given_of};
    ghost use Rattle.std.specs.Iterator.{YieldsFirstBy, item_count};

    type Item = LogFrame<'a>;

    ghost next_gives = { YieldsFirstBy given_of over_left };

    ghost remaining = { item_count over_left };

    #[tactic(auto, unfolding(crate::specs::Ranges::over_left))]
    #[inline(always)]
    fn next(&mut self) -> Option<LogFrame<'a>> {
        while let Some(frame) = self.step() {
            if meets(self.position, self.size, &frame) {
                return Some(frame);
            }
        }
        None
    }
}
