//! How a message is cut into frames.

ghost use Rattle.frame_codec.specs.Frame.{padded};
ghost use Rattle.std.specs.Prelude.{◌≡◌, ℕ, ◌+◌, ◌-◌, ◌*◌, ◌%◌, ◌^◌, ◌<◌, ◌≤◌, List, length, take, drop};
ghost use Rattle.term_log.specs.Cut.{cut, flags_of, last_part};
ghost use Rattle.term_log.specs.Frames.{total};

use frame_codec::{Flags, padded_length};

/// The number of a message's last frame, counted from 0. `payload` is how many bytes a frame carries.
pub(crate) fn last_part(size: usize, payload: usize) -> usize
    requires { 0 < payload }
    ensures { result ≡ last_part payload size }
{
    // most messages are of one frame, and a division takes long
    if size <= payload {
        return 0;
    }
    (size - 1) / payload
}

/// The flags of one of a message's frames.
pub(crate) fn flags_of(part: usize, last: usize) -> Flags
    ensures { result ≡ flags_of last part }
{
    let begin = if part == 0 { Flags::BEGIN.bits } else { 0 };
    let end = if part == last { Flags::END.bits } else { 0 };
    Flags { bits: begin + end }
}

/// The bytes that one of a message's frames carries.
pub(crate) fn part(message: &[u8], part: usize, payload: usize) -> &[u8]
    requires { part * payload ≤ length message.now }
    ensures { result.now ≡ take payload (drop (part * payload) message.now) }
{
    let (_, rest) = message.split_at(part * payload);
    let (here, _) = rest.split_at(payload.min(rest.len()));
    here
}

/// How many positions the frames of a message take. It is at most twice the message and a frame's header and filling.
#[tactic(auto, using(crate::proofs::Cuts::total_cut, crate::proofs::Cuts::size_fits, crate::proofs::Cuts::size_aligned))]
pub(crate) fn size_of(message: &[u8], payload: usize) -> u64
    requires { (32 ≤ payload) × (payload % 32 ≡ 0) × (payload < 2 ^ 16) × (length message.now < 2 ^ 24) }
    ensures exact { result ≡ total (cut payload message.now) }
    ensures least { 32 ≤ result }
    ensures most { result ≤ 2 * length message.now + 63 }
    ensures aligned { result % 32 ≡ 0 }
{
    let last = last_part(message.len(), payload);
    let rest = message.len() - last * payload;
    (last * (32 + payload)) as u64 + padded_length((32 + rest) as u32)
}
