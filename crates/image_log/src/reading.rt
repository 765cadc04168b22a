//! The frames of a log, as they are read from it.

ghost use Rattle.std.specs.Prelude.{◌≡◌, ◌+◌, ◌^◌, ◌<◌, ◌≤◌, length, take, drop};
ghost use Rattle.frame_codec.specs.Fields.{byte_at};
ghost use Rattle.image_log.specs.Frame.{end_of, framed};
ghost use Rattle.image_log.specs.Reading.{AreHeaded, flags_of, is_pad, left_of, sent_size};

use crate::handed;
use crate::store::Store;
use frame_codec::Flags;
use std::marker::Model;

/// A frame that a log keeps. Its bytes are lent by the log.
#[derive(Drop)]
pub struct ImageFrame<'a> {
    position: u64,
    span: u32,
    bytes: &'a [u8],
}

impl<'a> Model for ImageFrame<'a> {
    ghost use Rattle.std.specs.Prelude.{◌+◌, ◌^◌, ◌<◌, ◌≤◌, length};
    ghost use Rattle.image_log.specs.Frame.{Frame, framed};

    ghost Value = { Frame };

    ghost view = { λ f. framed f.position f.span f.bytes.now };

    ghost invariant = { λ f. (32 ≤ length f.bytes.now) × (f.position + f.span < 2 ^ 63) };
}

impl<'a> ImageFrame<'a> {
    pub(crate) fn new(position: u64, span: u32, bytes: &'a [u8]) -> ImageFrame<'a>
        requires header { 32 ≤ length bytes.now }
        requires fits { position + span < 2 ^ 63 }
        ensures { result ≡ framed position span bytes.now }
    {
        ImageFrame {
            position,
            span,
            bytes,
        }
    }

    /// The position at which it begins.
    pub fn position(&self) -> u64
        ensures { result ≡ self.now.position }
    {
        self.position
    }

    /// The position after it.
    pub fn end(&self) -> u64
        ensures { result ≡ end_of self.now }
    {
        self.position + u64::from(self.span)
    }

    /// Whether it is a pad, which carries nothing of a message.
    #[tactic(auto, unfolding(crate::specs::Reading::is_pad))]
    pub fn is_pad(&self) -> bool
        ensures { result ≡ is_pad self.now }
    {
        handed::half_at(self.bytes, 6) == 0
    }

    /// Whether it begins a message or ends one, and whether its stream has ended.
    pub fn flags(&self) -> Flags
        ensures { result ≡ flags_of self.now }
    {
        Flags {
            bits: handed::byte_at(self.bytes, 5),
        }
    }

    /// The bytes of a message that it carries; a pad has none.
    pub fn payload(&self) -> &'a [u8]
        ensures { result.now ≡ drop 32 self.now.bytes }
    {
        let (_, payload) = self.bytes.split_at(32);
        payload
    }

    /// How many bytes of a datagram it takes.
    #[tactic(auto, unfolding(crate::specs::Reading::sent_size))]
    fn sent_size(&self) -> usize
        ensures { result ≡ sent_size self.now }
    {
        if self.is_pad() {
            32
        } else {
            self.span as usize
        }
    }
}

/// Frames of one term in the order of their positions. They are lent by the log.
#[derive(Drop)]
pub struct Frames<'a> {
    store: &'a Store,
    /// The index of the next frame.
    index: usize,
    /// The index after the last frame.
    last: usize,
    /// How many bytes of a datagram the frames to come may take.
    bytes: usize,
}

impl<'a> Model for Frames<'a> {
    ghost use Rattle.std.specs.Prelude.{◌≤◌, List, length};
    ghost use Rattle.image_log.specs.Frame.{Frame};
    ghost use Rattle.image_log.specs.Reading.{AreHeaded, left_of};

    ghost Value = { List Frame };

    ghost view = { λ f. left_of f.store.now.frames f.index f.last f.bytes };

    ghost invariant = { λ f. (f.last ≤ length f.store.now.frames) × AreHeaded f.store.now.frames };
}

impl<'a> Frames<'a> {
    pub(crate) fn new(store: &'a Store, index: usize, last: usize, bytes: usize) -> Frames<'a>
        requires last { last ≤ length store.now.frames }
        requires headers { AreHeaded store.now.frames }
        ensures { result ≡ left_of store.now.frames index last bytes }
    {
        Frames {
            store,
            index,
            last,
            bytes,
        }
    }
}

impl<'a> Iterator for Frames<'a> {
    ghost use Rattle.std.specs.Iterator.{YieldsFirst, item_count};

    type Item = ImageFrame<'a>;

    ghost next_gives = { YieldsFirst (λ rest. rest) };

    ghost remaining = { item_count (λ rest. rest) };

    fn next(&mut self) -> Option<ImageFrame<'a>> {
        if self.index >= self.last {
            return None;
        }
        let frame = self.store.frame(self.index);
        let size = frame.sent_size();
        if self.bytes < size {
            return None;
        }
        self.bytes -= size;
        self.index += 1;
        if frame.is_pad() {
            self.last = 0;
        }
        Some(frame)
    }
}

/// Frames in the order of their positions, over the ends of terms. They are lent by the log.
#[derive(Drop)]
pub struct Run<'a> {
    store: &'a Store,
    /// The index of the next frame.
    index: usize,
    /// The index after the last frame.
    last: usize,
}

impl<'a> Model for Run<'a> {
    ghost use Rattle.std.specs.Prelude.{◌≤◌, List, length, take, drop};
    ghost use Rattle.image_log.specs.Frame.{Frame};
    ghost use Rattle.image_log.specs.Reading.{AreHeaded};

    ghost Value = { List Frame };

    ghost view = { λ r. drop r.index (take r.last r.store.now.frames) };

    ghost invariant = { λ r. (r.last ≤ length r.store.now.frames) × AreHeaded r.store.now.frames };
}

impl<'a> Run<'a> {
    pub(crate) fn new(store: &'a Store, index: usize, last: usize) -> Run<'a>
        requires last { last ≤ length store.now.frames }
        requires headers { AreHeaded store.now.frames }
        ensures { result ≡ drop index (take last store.now.frames) }
    {
        Run { store, index, last }
    }
}

impl<'a> Iterator for Run<'a> {
    ghost use Rattle.std.specs.Iterator.{YieldsFirst, item_count};

    type Item = ImageFrame<'a>;

    ghost next_gives = { YieldsFirst (λ rest. rest) };

    ghost remaining = { item_count (λ rest. rest) };

    fn next(&mut self) -> Option<ImageFrame<'a>> {
        if self.index >= self.last {
            return None;
        }
        let frame = self.store.frame(self.index);
        self.index += 1;
        Some(frame)
    }
}
