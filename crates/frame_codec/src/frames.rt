ghost use Rattle.frame_codec.specs.Frame.{IsWithin, padded, sent};
ghost use Rattle.frame_codec.specs.Frames.{all_later, behind, follows, frames_of, next_of};
ghost use Rattle.frame_codec.specs.Steps.{Equals, fault_of};
ghost use Rattle.std.specs.Prelude.{◌≡◌, ◌+◌, ◌^◌, ◌<◌, ◌≤◌, length, IfOk};

use crate::fault::BadPacket;
use crate::frame::Frame;
use crate::header::{Header, Kind};

/// The frames of one term in a datagram, in order. They are lent by the datagram.
#[derive(Clone, Copy, Debug)]
pub struct Frames<'a> {
    /// What is left of the datagram.
    rest: &'a [u8],
}

/// How many bytes of a term a frame of that length takes: the next multiple of 32.
pub fn padded_length(length: u32) -> u64
    ensures { result ≡ padded length }
{
    (u64::from(length) + 31) / 32 * 32
}

/// The second may stand after the first: that is no pad, and the second goes on where it ends.
#[tactic(auto, unfolding(crate::specs::Frames::follows))]
fn follows(before: &Header, next: &Header) -> bool
    ensures { result ≡ follows before.now next.now }
{
    match before.kind {
        Kind::Pad => return false,
        Kind::Data => {}
    }
    if next.place.session_id != before.place.session_id {
        return false;
    }
    if next.place.stream_id != before.place.stream_id {
        return false;
    }
    if next.place.term_id != before.place.term_id {
        return false;
    }
    let end = u64::from(before.place.term_offset) + padded_length(before.length);
    u64::from(next.place.term_offset) == end
}

/// The bytes after a frame and its filling, which may be missing.
fn behind<'a>(frame: &Frame<'a>, bytes: &'a [u8]) -> &'a [u8]
    requires { length frame.now.bytes.now < 2 ^ 31 }
    ensures { result.now ≡ behind (sent frame.now) bytes.now }
{
    let end = padded_length(frame.bytes.len() as u32);
    let (_, rest) = bytes.split_at(end.min(bytes.len() as u64) as usize);
    rest
}

/// The frame at the front, where it stands after another one.
#[tactic(auto, unfolding(crate::specs::Frames::next_of))]
#[inline(always)]
fn read_next<'a>(before: &Header, bytes: &'a [u8]) -> Result<Frame<'a>, BadPacket>
    ensures exact { Equals sent result (next_of before.now bytes.now) }
    ensures within { IfOk result (λ frame. IsWithin frame bytes.now) }
{
    if bytes.len() < Header::SIZE {
        return Err(BadPacket::TooShort);
    }
    let frame = Frame::read(bytes)?;
    if follows(before, &frame.header) {
        Ok(frame)
    } else {
        Err(BadPacket::Mixed)
    }
}

/// Looks at the frames after another one, to the last byte.
#[tactic(auto, using(crate::proofs::FramesLemmas::later_end))]
#[inline(always)]
fn check_later(first: &Header, bytes: &[u8]) -> Result<(), BadPacket>
    ensures { fault_of result ≡ fault_of (all_later first.now bytes.now) }
{
    let mut before = *first;
    let mut rest = bytes;
    while !rest.is_empty() {
        let frame = read_next(&before, rest)?;
        before = frame.header;
        rest = behind(&frame, rest);
    }
    Ok(())
}

impl<'a> Frames<'a> {
    ghost use Rattle.frame_codec.specs.Frames.{frames_left, most_left};

    /// As many frames as there could be in what is left, each of at least 32 bytes. None of them is read.
    #[tactic(auto, using(crate::proofs::FramesLemmas::fewer_left))]
    pub fn most(&self) -> usize
        ensures exact { result ≡ most_left self.now }
        ensures most { length (frames_left self.now) ≤ result }
    {
        self.rest.len() / Header::SIZE
    }

    /// The frames of a datagram, where all of them are sound and each stands after the one before.
    #[inline(always)]
    pub(crate) fn read(bytes: &'a [u8]) -> Result<Frames<'a>, BadPacket>
        ensures { Equals frames_left result (frames_of bytes.now) }
    {
        let first = Frame::read(bytes)?;
        check_later(&first.header, behind(&first, bytes))?;
        Ok(Frames { rest: bytes })
    }
}

impl<'a> Iterator for Frames<'a> {
    ghost use Rattle.frame_codec.specs.Frames.{frames_left};
    ghost use Rattle.std.specs.Iterator.{YieldsFirstBy, item_count};

    type Item = Frame<'a>;

    ghost next_gives = { YieldsFirstBy sent frames_left };

    ghost remaining = { item_count frames_left };

    #[inline(always)]
    fn next(&mut self) -> Option<Frame<'a>> {
        match Frame::read(self.rest) {
            Ok(frame) => {
                self.rest = behind(&frame, self.rest);
                Some(frame)
            }
            Err(_) => None,
        }
    }
}
