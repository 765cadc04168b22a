//! What was there to read, and whether it was gone on with since.

ghost use Rattle.reading_progress.specs.Marks.{StandingIsStuck, StuckStoodStill, has_gone_on, is_stuck, next_mark};
ghost use Rattle.std.specs.Prelude.{◌≡◌};

/// What a subscription had to read of a source when that was looked at.
#[derive(Clone, Copy, Debug, PartialEq, Eq)]
pub struct Mark {
    /// The position up to which it had read.
    position: u64,
    /// How many bytes were there behind that.
    unread: u64,
    /// When that was.
    since: u64,
}

/// The part of what there was to read that is enough, as a divisor: so much of a full window is read where a publisher that waits
/// for room is to go on.
const PART: u64 = 4;

impl Mark {
    /// Whether it went on: by that part of what there was.
    fn has_gone_on(&self, position: u64) -> bool
        ensures { result ≡ has_gone_on self.now position }
    {
        let came = position.saturating_sub(self.position);
        came.saturating_mul(PART) >= self.unread
    }
}

/// What is remembered where a subscription is seen at a position, with the stream there up to another one: nothing where it has
/// read all; that of before where it has not gone on since.
pub(crate) fn next_mark(mark: Option<Mark>, now: u64, position: u64, received: u64) -> Option<Mark>
    ensures { result ≡ next_mark mark now position received }
{
    if received <= position {
        return None;
    }
    match mark {
        Some(mark) if !mark.has_gone_on(position) => Some(mark),
        _ => Some(Mark {
            position,
            unread: received - position,
            since: now,
        }),
    }
}

/// Whether it had something to read for longer than so many nanoseconds and did not go on.
pub(crate) fn is_stuck(mark: Option<Mark>, now: u64, longest: u64) -> bool
    ensures { result ≡ is_stuck mark now longest }
{
    match mark {
        Some(mark) => now.saturating_sub(mark.since) > longest,
        None => false,
    }
}

/// Whoever is found stuck, after some looks at how far they had come, stood still for longer than the time: at the first of the
/// last looks, and at each after it, there was something to read, and of what there was at the first no quarter was read.
pub fn who_is_stuck_stood_still()
    ensures { StuckStoodStill }
{}

/// Whoever had something to read at each of the last looks, and came no further in longer than the time, is found stuck, whatever
/// they did before.
pub fn who_stands_still_is_stuck()
    ensures { StandingIsStuck }
{}
