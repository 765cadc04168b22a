//! The fragments that a poll gives.

ghost use Rattle.std.specs.Prelude.{◌≡◌, ◌++◌, ◌∷◌, [], List, IfOk, OnOk};
ghost use Rattle.std.specs.Iterator.{YieldsFirstBy};
ghost use Rattle.log_pairs.specs.Polling.{Fetched, Polled, behind, fragments_of, passed, polled_by};

use crate::copies::FragmentCopies;
use crate::fragment::PolledFrame;
use std::alloc::{AllocError, Global};

/// Where the frames of a log are read from a position on, one after another.
pub trait PolledFrames: Drop {
    /// A fragment of a message, whose bytes the log lends.
    type Fragment: Drop;

    /// What a fragment is.
    ghost fetched: { Self.Fragment → Fetched };

    /// The frames that are still to come.
    ghost frames: { Self → List Polled };

    fn next_frame(&mut self) -> Option<PolledFrame<Self::Fragment>>
        ensures { YieldsFirstBy (polled_by fetched) frames self.old result self.new };

    /// Puts a copy of a fragment after others.
    fn copy(fragment: &Self::Fragment, copies: &mut FragmentCopies) -> Result<(), AllocError>
        ensures { OnOk result (copies.new ≡ copies.old ++ fetched fragment.now ∷ []) };
}

/// Copies of the fragments that a poll gives, and the position after the frames that it passes, the first of which begins at
/// `position`. `room` is taken for the copies at once, in bytes.
///
/// # Errors
/// Where there is no memory for the copies.
pub fn copy_passed<F: PolledFrames>(
    frames: F,
    alloc: Global,
    room: usize,
    position: u64,
    limit: usize,
) -> Result<(FragmentCopies, u64), AllocError>
    ensures copies { IfOk result (λ poll. poll.0 ≡ fragments_of (passed limit (F.frames frames))) }
    ensures behind { IfOk result (λ poll. poll.1 ≡ behind position (passed limit (F.frames frames))) }
{
    let mut frames = frames;
    let mut copies = FragmentCopies::new(alloc, room)?;
    let mut end = position;
    let mut limit = limit;
    while let Some(frame) = frames.next_frame() {
        if limit == 0 {
            return Ok((copies, end));
        }
        end = frame.end;
        if let Some(fragment) = frame.fragment {
            F::copy(&fragment, &mut copies)?;
            limit -= 1;
        }
    }
    Ok((copies, end))
}
