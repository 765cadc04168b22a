//! The frames that a poll passes.

ghost use Rattle.log_pairs.specs.Polling.{fetched_of, polled_by};
ghost use Rattle.std.specs.Prelude.{◌≡◌, ◌≤◌, IfOk, map};
ghost use Rattle.term_log.specs.Log.{low_of};
ghost use Rattle.term_log.specs.Polling.{GivesFragments, PassesTo, polled_given};
ghost use Rattle.term_log.specs.Ranges.{over_left};
ghost use Rattle.term_log.specs.Reading.{given_of};

use crate::appender::Appender;
use crate::ranges::FramesOver;
use crate::reading::{Content, LogFrame};
use log_pairs::{Fragment, FragmentCopies, PolledFrame, PolledFrames, copy_passed};
use std::alloc::{AllocError, Global};

/// A frame as a poll comes to it.
fn polled_frame<'a>(frame: &LogFrame<'a>) -> PolledFrame<Fragment<'a>>
    ensures { polled_by fetched_of result ≡ polled_given (given_of frame.now) }
{
    let end = frame.position.saturating_add(frame.span());
    let fragment = match frame.content {
        Content::Fragment(flags, payload) => Some(Fragment {
            position: end,
            flags,
            payload,
        }),
        Content::Pad(_) => None,
    };
    PolledFrame { end, fragment }
}

impl<'a> PolledFrames for FramesOver<'a> {
    type Fragment = Fragment<'a>;

    ghost fetched = { fetched_of };

    ghost frames = { λ over. map polled_given (over_left over) };

    fn next_frame(&mut self) -> Option<PolledFrame<Fragment<'a>>> {
        match self.next() {
            Some(frame) => Some(polled_frame(&frame)),
            None => None,
        }
    }

    fn copy(fragment: &Fragment<'a>, copies: &mut FragmentCopies) -> Result<(), AllocError> {
        copies.push(fragment)
    }
}

/// How many bytes copies of so many fragments take at most, where so many positions are left: what stands before the bytes of
/// one takes no more than the header of its frame does.
fn room_for(left: u64, limit: usize, mtu: u32) -> usize {
    (limit as u64).saturating_mul(u64::from(mtu)).min(left) as usize
}

/// Copies of the fragments that a poll gives from a position on that is held, a frame's start or the tail, and the position
/// after the frames that it passes.
pub(crate) fn copies_from(
    log: &Appender,
    alloc: Global,
    position: u64,
    limit: usize,
) -> Result<(FragmentCopies, u64), AllocError>
    requires low { low_of log.now ≤ position }
    requires high { position ≤ log.now.tail }
    ensures gives { IfOk result (λ poll. GivesFragments log.now position limit poll.0) }
    ensures exact { IfOk result (λ poll. PassesTo log.now position limit poll.1) }
    ensures ahead { IfOk result (λ poll. position ≤ poll.1) }
    ensures within { IfOk result (λ poll. poll.1 ≤ log.now.tail) }
{
    let tail = log.tail();
    let room = room_for(tail - position, limit, log.ident().mtu);
    let (copies, end) = copy_passed(log.frames_behind(position), alloc, room, position, limit)?;
    // The frames end from the position on up to the tail, so that the bounds change nothing.
    Ok((copies, end.max(position).min(tail)))
}
