//! Frames that are read from the bytes of a term.

ghost use Rattle.byteorder.specs.Endian.{little_number};
ghost use Rattle.frame_codec.specs.Frame.{padded};
ghost use Rattle.std.specs.Prelude.{◌≡◌, ◌+◌, ◌-◌, ◌≤◌, IfSome, drop, length};
ghost use Rattle.std.specs.Option.{option_map};
ghost use Rattle.term_log.specs.Frames.{span};
ghost use Rattle.term_log.specs.Reading.{admitted, behind, first_of, fragment_at, frame_of, frames_left, given_of, pad_of, sent_bytes, spans};

use byteorder::{ByteOrder, LittleEndian};
use frame_codec::{Flags, Header, padded_length};

/// What a frame holds.
#[derive(Clone, Copy, Debug)]
pub enum Content<'a> {
    /// A part of a message, with the flags of its frame.
    Fragment(Flags, &'a [u8]),
    /// Nothing, up to the end of the term: over so many positions.
    Pad(u32),
}

/// A frame of a log, whose bytes the log lends.
#[derive(Clone, Copy, Debug)]
pub struct LogFrame<'a> {
    /// The position at which it begins.
    pub position: u64,
    pub content: Content<'a>,
    /// The bytes of it that are sent: all of its range, filling and all; of a pad the header alone.
    pub bytes: &'a [u8],
}

/// How many positions a frame takes that carries these bytes.
fn span_of(payload: &[u8]) -> u64
    ensures { result ≡ padded (32 + length payload.now) }
{
    (payload.len() as u64 + 63) / 32 * 32
}

impl<'a> LogFrame<'a> {
    /// How many positions the frame takes.
    pub fn span(&self) -> u64
        ensures { result ≡ span (frame_of self.now.content) }
    {
        match self.content {
            Content::Fragment(_, payload) => span_of(payload),
            Content::Pad(size) => u64::from(size),
        }
    }
}

/// The pad at the front, if all of its range is there.
fn pad_at(position: u64, bytes: &[u8]) -> Option<LogFrame<'_>>
    requires { 32 ≤ length bytes.now }
    ensures { option_map given_of result ≡ pad_of position bytes.now }
{
    let size = LittleEndian::read_u32(bytes);
    if (bytes.len() as u64) < u64::from(size) {
        return None;
    }
    Some(LogFrame {
        position,
        content: Content::Pad(size),
        bytes: &bytes[..Header::SIZE],
    })
}

/// The data frame of that length at the front.
fn fragment_at(size: u32, position: u64, bytes: &[u8]) -> LogFrame<'_>
    requires least { 32 ≤ size }
    requires within { padded size ≤ length bytes.now }
    ensures { given_of result ≡ fragment_at size position bytes.now }
{
    let (sent, _) = bytes.split_at(padded_length(size) as usize);
    let (frame, _) = bytes.split_at(size as usize);
    let (_, payload) = frame.split_at(Header::SIZE);
    let flags = Flags { bits: bytes[5] };
    LogFrame {
        position,
        content: Content::Fragment(flags, payload),
        bytes: sent,
    }
}

/// The frame at the front, if all of its range is there.
#[tactic(auto, unfolding(crate::specs::Reading::first_of))]
fn first(position: u64, bytes: &[u8]) -> Option<LogFrame<'_>>
    ensures { option_map given_of result ≡ first_of position bytes.now }
{
    if bytes.len() < Header::SIZE {
        return None;
    }
    if bytes[6] == 0 {
        return pad_at(position, bytes);
    }
    let size = LittleEndian::read_u32(bytes);
    if size < 32 {
        return None;
    }
    if (bytes.len() as u64) < padded_length(size) {
        return None;
    }
    Some(fragment_at(size, position, bytes))
}

/// The bytes after a frame; after a pad there are none.
fn behind<'a>(frame: &LogFrame<'a>, bytes: &'a [u8]) -> &'a [u8]
    ensures { result.now ≡ behind (given_of frame.now) (frame_of frame.now.content) bytes.now }
{
    let end = match frame.content {
        Content::Fragment(_, _) => frame.bytes.len().min(bytes.len()),
        Content::Pad(_) => bytes.len(),
    };
    let (_, rest) = bytes.split_at(end);
    rest
}

/// Frames of one term of a log, in order. The log lends their bytes.
#[derive(Clone, Copy, Debug)]
pub struct Frames<'a> {
    /// The bytes of the term from the next frame on.
    rest: &'a [u8],
    /// The position after those bytes.
    end: u64,
    /// How many bytes of frames are given at most.
    budget: usize,
}

impl<'a> Frames<'a> {
    ghost use Rattle.term_log.specs.Reading.{IsPassed, frames_in};

    /// The frames at the front of bytes of a term that end at a position, as far as the budget goes.
    #[tactic(auto, unfolding(crate::specs::Reading::frames_left))]
    pub(crate) fn new(bytes: &'a [u8], end: u64, budget: usize) -> Frames<'a>
        ensures { frames_left result ≡ frames_in (length bytes.now) end budget bytes.now }
    {
        Frames {
            rest: bytes,
            end,
            budget,
        }
    }

    /// The bytes of all frames that are still to come, one after another, as they are sent in one datagram, and how many
    /// positions those frames take.
    pub fn bytes_and_span(&self) -> (&'a [u8], u64)
        ensures bytes { result.0.now ≡ sent_bytes (frames_left self.now) }
        ensures span { result.1 ≡ spans (frames_left self.now) }
    {
        front_of(self, self.rest)
    }

    /// How many bytes the next frame has, if it is a data frame that the budget admits and that ends at a position or below.
    pub(crate) fn passed_size(&self, position: u64) -> Option<usize>
        ensures { IfSome result (IsPassed self.now position) }
    {
        let bytes = self.rest;
        if bytes.len() < Header::SIZE || bytes[6] == 0 {
            return None;
        }
        let size = LittleEndian::read_u32(bytes);
        if size < 32 {
            return None;
        }
        let span = padded_length(size);
        if (bytes.len() as u64) < span || (self.budget as u64) < span {
            return None;
        }
        let begin = self.end.saturating_sub(bytes.len() as u64);
        if position.saturating_sub(begin) < span {
            return None;
        }
        Some(span as usize)
    }

    /// The frames after one of so many bytes.
    pub(crate) fn pass(self, size: usize) -> Frames<'a>
        requires bytes { size ≤ length self.rest.now }
        requires budget { size ≤ self.budget }
        ensures rest { result.rest.now ≡ drop size self.entry.rest.now }
        ensures end { result.end ≡ self.entry.end }
        ensures budget { result.budget ≡ self.entry.budget - size }
    {
        let (_, rest) = self.rest.split_at(size);
        Frames {
            rest,
            end: self.end,
            budget: self.budget - size,
        }
    }

    /// The next frame, if the budget admits it.
    fn peek(&self) -> Option<LogFrame<'a>>
        ensures { option_map given_of result ≡ admitted self.now.budget (first_of (self.now.end - length self.now.rest.now) self.now.rest.now) }
    {
        let position = self.end.saturating_sub(self.rest.len() as u64);
        let frame = first(position, self.rest)?;
        if self.budget < frame.bytes.len() {
            return None;
        }
        Some(frame)
    }
}

/// Those of the bytes from the next frame on that are sent, and how many positions their frames take.
fn front_of<'a>(frames: &Frames<'a>, bytes: &'a [u8]) -> (&'a [u8], u64)
    requires { bytes.now ≡ frames.now.rest.now }
    ensures bytes { result.0.now ≡ sent_bytes (frames_left frames.now) }
    ensures span { result.1 ≡ spans (frames_left frames.now) }
{
    let mut size = 0;
    let mut span = 0;
    let mut later = *frames;
    while let Some(frame) = later.next() {
        size += frame.bytes.len();
        span += frame.span();
    }
    let (sent, _) = bytes.split_at(size);
    (sent, span)
}

impl<'a> Iterator for Frames<'a> {
    ghost use Rattle.term_log.specs.Reading.{given_of, frames_left};
    ghost use Rattle.std.specs.Iterator.{YieldsFirstBy, item_count};

    type Item = LogFrame<'a>;

    ghost next_gives = { YieldsFirstBy given_of frames_left };

    ghost remaining = { item_count frames_left };

    fn next(&mut self) -> Option<LogFrame<'a>> {
        match self.peek() {
            Some(frame) => {
                self.budget = self.budget.saturating_sub(frame.bytes.len());
                self.rest = behind(&frame, self.rest);
                Some(frame)
            }
            None => None,
        }
    }
}
