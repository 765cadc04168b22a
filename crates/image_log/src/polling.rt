//! The frames that a poll passes.

ghost use Rattle.std.specs.Prelude.{◌≡◌, map};
ghost use Rattle.image_log.specs.Polling.{polled_frame};
ghost use Rattle.log_pairs.specs.Polling.{fetched_of, polled_by};

use crate::reading::{ImageFrame, Run};
use log_pairs::{Fragment, FragmentCopies, PolledFrame, PolledFrames};
use std::alloc::AllocError;

/// A frame as a poll comes to it.
fn polled_frame<'a>(frame: &ImageFrame<'a>) -> PolledFrame<Fragment<'a>>
    ensures { polled_by fetched_of result ≡ polled_frame frame.now }
{
    let end = frame.end();
    if frame.is_pad() {
        return PolledFrame {
            end,
            fragment: None,
        };
    }
    PolledFrame {
        end,
        fragment: Some(Fragment {
            position: end,
            flags: frame.flags(),
            payload: frame.payload(),
        }),
    }
}

impl<'a> PolledFrames for Run<'a> {
    type Fragment = Fragment<'a>;

    ghost fetched = { fetched_of };

    ghost frames = { λ run. map polled_frame run };

    fn next_frame(&mut self) -> Option<PolledFrame<Fragment<'a>>> {
        match self.next() {
            Some(frame) => Some(polled_frame(&frame)),
            None => None,
        }
    }

    fn copy(fragment: &Fragment<'a>, copies: &mut FragmentCopies) -> Result<(), AllocError> {
        copies.push(fragment)
    }
}

/// No datagram that comes over UDP has as many bytes, and so no frame of one but a pad. A frame that a caller hands in may be
/// longer.
const LONGEST: u64 = 65_536;

/// How many bytes are taken at once for copies of so many fragments, where so many positions are left. Where frames are longer
/// than those of a datagram, further copies may take more.
pub(crate) fn room_for(left: u64, limit: usize) -> usize {
    (limit as u64).saturating_mul(LONGEST).min(left) as usize
}
