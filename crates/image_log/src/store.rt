ghost use Rattle.std.specs.Prelude.{◌≡◌, ◌+◌, ◌/◌, ◌%◌, ◌^◌, ◌<◌, ◌≤◌, All, [], length, drop, filter, insert, nat_lt, replicate};
ghost use Rattle.std.specs.List.{list_any};
ghost use Rattle.std.specs.VecDeque.{deque_capacity, deque_len};
ghost use Rattle.log_arena.specs.Lease.{lease_bytes, lease_len};
ghost use Rattle.image_log.specs.Frame.{framed, end_of};
ghost use Rattle.image_log.specs.Answer.{answer_among};
ghost use Rattle.image_log.specs.Order.{Ordered, begins_from, chain, is_same, meets, next_from, rank};
ghost use Rattle.image_log.specs.Stored.{IsBlank, StandIn, frame_at, held_of, stored_in};
ghost use Rattle.image_log.specs.Writing.{written};

use crate::insert::Insert;
use crate::place::Place;
use crate::reading::ImageFrame;
use log_arena::Lease;
use std::collections::VecDeque;
use std::marker::Model;

/// Frames in the room of a lease, in the order of their positions. A frame stands there at its position modulo the
/// lease's length, and no other byte of the lease is other than 0.
#[derive(Drop)]
pub(crate) struct Store {
    lease: Lease,
    /// No frame begins below this position.
    low: u64,
    /// Where that position stands in the lease.
    offset: usize,
    places: VecDeque<Place>,
}

impl Model for Store {
    ghost use Rattle.image_log.specs.Stored.{Stored};

    ghost Value = { Stored };

    ghost use Rattle.std.specs.VecDeque.{deque_capacity};
    ghost use Rattle.image_log.specs.Kept.{stored_of, IsStore};
    ghost use Rattle.log_arena.specs.Lease.{lease_len};
    ghost use Rattle.std.specs.Prelude.{◌≡◌, ◌%◌};

    ghost view = { λ s. stored_of s.lease s.low s.places.items };

    ghost invariant = { λ s. IsStore s.lease s.low s.places.items (deque_capacity s.places) × (s.offset ≡ s.low % lease_len s.lease) };
}

/// Where a position stands in a lease of `len` bytes, in which the position `low` stands at `offset`. Nothing is divided where it
/// is from there on, and less than the lease's length.
fn start_in(len: usize, low: u64, offset: usize, position: u64) -> usize
    requires some { 0 < len }
    requires fits { len < 2 ^ 63 }
    requires offset { offset ≡ low % len }
    ensures { result ≡ position % len }
{
    if position < low || position - low >= len as u64 {
        return (position % len as u64) as usize;
    }
    let at = offset + (position - low) as usize;
    if at < len { at } else { at - len }
}

impl Store {
    /// No frame yet, in a lease whose bytes are all zeros; none will begin below `low`. There is room for the places of all
    /// frames that the lease can hold.
    pub(crate) fn open(places: VecDeque<Place>, lease: Lease, low: u64) -> Store
        requires none { places.items ≡ [] }
        requires roomy { lease_len lease / 32 ≤ deque_capacity places }
        requires high { low + lease_len lease < 2 ^ 63 }
        requires zeros { lease_bytes lease ≡ replicate (lease_len lease) 0 }
        ensures { result ≡ stored_in (held_of lease) low }
    {
        let offset = (low % lease.len() as u64) as usize;
        Store {
            lease,
            low,
            offset,
            places,
        }
    }

    /// That zeros are beside the frames.
    pub(crate) fn is_blank(&self)
        ensures { All (λ byte. byte ≡ 0) self.now.beside }
    {
        let _ = &self.low;
    }

    /// The position below which no frame begins.
    pub(crate) fn low(&self) -> u64
        ensures { result ≡ self.now.low }
    {
        self.low
    }

    /// How many frames there are.
    pub(crate) fn len(&self) -> usize
        ensures { result ≡ length self.now.frames }
    {
        self.places.len()
    }

    /// The position at which the frame at an index begins.
    pub(crate) fn start_of(&self, index: usize) -> u64
        requires { index < length self.now.frames }
        ensures { result ≡ (frame_at self.now.frames index).position }
    {
        self.places[index].position
    }

    /// The position at which the frame at an index ends.
    pub(crate) fn end_of(&self, index: usize) -> u64
        requires { index < length self.now.frames }
        ensures { result ≡ end_of (frame_at self.now.frames index) }
    {
        let place = self.places[index];
        place.position + u64::from(place.span)
    }

    /// The bytes of the frame at an index.
    fn bytes_of(&self, index: usize) -> &[u8]
        requires { index < length self.now.frames }
        ensures { result.now ≡ (frame_at self.now.frames index).bytes }
    {
        let place = self.places[index];
        let start = start_in(self.lease.len(), self.low, self.offset, place.position);
        &self.lease.bytes()[start..start + place.size as usize]
    }

    /// The frame at an index.
    pub(crate) fn frame(&self, index: usize) -> ImageFrame<'_>
        requires index { index < length self.now.frames }
        requires header { 32 ≤ length (frame_at self.now.frames index).bytes }
        ensures { result ≡ frame_at self.now.frames index }
    {
        let place = self.places[index];
        ImageFrame::new(place.position, place.span, self.bytes_of(index))
    }

    /// Whether the frame at an index begins below a position: whether it is one of those that do.
    fn is_below(&self, index: usize, position: u64) -> bool
        requires { index < length self.now.frames }
        ensures { result ≡ nat_lt index (rank position self.now.frames) }
    {
        let _ = &self.places;
        self.start_of(index) < position
    }

    /// How many frames begin below a position. The last one is looked at first, so a frame that comes in order costs no more
    /// however many there are; else each look halves what is left. It is a call of its own, so that its loop has all
    /// registers.
    #[inline(never)]
    pub(crate) fn rank(&self, position: u64) -> usize
        ensures { result ≡ rank position self.now.frames }
    {
        let mut high = self.len();
        if high == 0 || self.is_below(high - 1, position) {
            return high;
        }
        let mut low = 0;
        while low < high {
            let middle = low + (high - low) / 2;
            if self.is_below(middle, position) {
                low = middle + 1;
            } else {
                high = middle;
            }
        }
        low
    }

    /// Whether the frame at an index is the one of these bytes at a position.
    fn is_same(&self, index: usize, position: u64, bytes: &[u8]) -> bool
        requires { index < length self.now.frames }
        ensures { result ≡ is_same position bytes.now (frame_at self.now.frames index) }
    {
        self.start_of(index) == position && self.bytes_of(index) == bytes
    }

    /// Whether one of the frames is that of these bytes at a position. `at` is the position's rank.
    fn has(&self, at: usize, position: u64, bytes: &[u8]) -> bool
        requires { at ≡ rank position self.now.frames }
        ensures { result ≡ list_any (is_same position bytes.now) self.now.frames }
    {
        at < self.places.len() && self.is_same(at, position, bytes)
    }

    /// Whether one of the frames meets the positions from one to another. `at` is the rank of the first.
    fn meets(&self, at: usize, position: u64, end: u64) -> bool
        requires rank { at ≡ rank position self.now.frames }
        requires some { position < end }
        ensures { result ≡ list_any (meets position end) self.now.frames }
    {
        if at > 0 && self.end_of(at - 1) > position {
            return true;
        }
        at < self.places.len() && self.start_of(at) < end
    }

    /// What becomes of a frame that is neither below what is kept nor beyond it. `at` is the position's rank.
    pub(crate) fn answer(&self, at: usize, position: u64, end: u64, bytes: &[u8]) -> Insert
        requires rank { at ≡ rank position self.now.frames }
        requires some { position < end }
        ensures { result ≡ answer_among position end bytes.now self.now.frames }
    {
        if self.has(at, position, bytes) {
            return Insert::Repeat;
        }
        if self.meets(at, position, end) {
            Insert::Overlap
        } else {
            Insert::Taken
        }
    }

    /// Puts a frame in.
    pub(crate) fn put(&mut self, at: usize, position: u64, span: u32, bytes: &[u8])
        requires place { at ≤ length self.old.frames }
        requires size { length bytes.now ≤ span }
        requires whole { position % self.old.held.len + span ≤ self.old.held.len }
        requires order { Ordered self.old.low (self.old.low + self.old.held.len)
            (insert self.old.frames at (framed position span bytes.now)) }
        ensures { self.new ≡ record self.old { frames = insert self.old.frames at (framed position span bytes.now) } }
    {
        let start = start_in(self.lease.len(), self.low, self.offset, position);
        write_at(self.lease.bytes_mut(), start, bytes);
        let place = Place {
            position,
            span,
            size: bytes.len() as u32,
        };
        put_in(&mut self.places, at, place);
    }

    /// Takes the first frame out, and clears its bytes.
    fn drop_first(&mut self)
        requires { 0 < length self.old.frames }
        ensures { self.new ≡ record self.old { frames = drop 1 self.old.frames } }
    {
        match self.places.pop_front() {
            Some(place) => {
                let start = start_in(self.lease.len(), self.low, self.offset, place.position);
                clear_at(self.lease.bytes_mut(), start, place.size as usize);
            }
            None => unreachable!(),
        }
    }

    /// Takes all frames out that begin below a position; none will begin there.
    pub(crate) fn drop_below(&mut self, low: u64)
        requires up { self.old.low ≤ low }
        requires high { low + self.old.held.len < 2 ^ 63 }
        ensures { self.new ≡ record self.old { low = low; frames = filter (begins_from low) self.old.frames } }
    {
        while self.len() > 0 && self.start_of(0) < low {
            self.drop_first();
        }
        self.offset = start_in(self.lease.len(), self.low, self.offset, low);
        self.low = low;
    }

    /// The end of the longest chain of frames from an index on, the first of which begins at `from`.
    pub(crate) fn chain(&self, index: usize, from: u64) -> u64
        requires { index ≤ length self.now.frames }
        ensures { result ≡ chain from (drop index self.now.frames) }
    {
        let mut end = from;
        for i in index..self.places.len() {
            if self.start_of(i) != end {
                return end;
            }
            end = self.end_of(i);
        }
        end
    }

    /// Where the first frame from a position on begins; without one, `none`.
    pub(crate) fn next_from(&self, position: u64, none: u64) -> u64
        ensures { result ≡ next_from none position self.now.frames }
    {
        let at = self.rank(position);
        if at < self.places.len() {
            self.start_of(at)
        } else {
            none
        }
    }

    /// The lease, with its bytes as they are.
    pub(crate) fn into_lease(self) -> Lease
        ensures held { held_of result ≡ self.held }
        ensures stand { StandIn self.held.len self.frames (lease_bytes result) }
        ensures blank { IsBlank self.held.len self.frames (lease_bytes result) }
    {
        let Store {
            lease,
            low: _,
            offset: _,
            places: _,
        } = self;
        lease
    }
}

/// Writes bytes over those from `at` on.
#[tactic(auto, unfolding(crate::specs::Writing::written))]
fn write_at(out: &mut [u8], at: usize, bytes: &[u8])
    requires { at + length bytes.now ≤ length out.old }
    ensures { out.new ≡ written at bytes.now out.old }
{
    out[at..at + bytes.len()].copy_from_slice(bytes);
}

/// Writes zeros over so many bytes from `at` on.
#[tactic(auto, unfolding(crate::specs::Writing::written))]
fn clear_at(out: &mut [u8], at: usize, count: usize)
    requires { at + count ≤ length out.old }
    ensures { out.new ≡ written at (replicate count 0) out.old }
{
    out[at..at + count].fill(0);
}

/// An insert for which there is room. A frame that comes in order goes after all others.
#[tactic(auto, using(std::proofs::lemmas::List::Edits::insert_end))]
fn put_in(places: &mut VecDeque<Place>, at: usize, place: Place)
    requires { (at ≤ deque_len places.old) × (deque_len places.old < deque_capacity places.old) }
    ensures items { places.new.items ≡ insert places.old.items at place }
    ensures capacity { deque_capacity places.old ≤ deque_capacity places.new }
{
    if at == places.len() {
        places.push_back_reserved(place);
        return;
    }
    put_between(places, at, place);
}

/// As [`put_in`], of a frame that comes late. It is a call of its own, whose loops have all registers.
#[inline(never)]
fn put_between(places: &mut VecDeque<Place>, at: usize, place: Place)
    requires { (at ≤ deque_len places.old) × (deque_len places.old < deque_capacity places.old) }
    ensures items { places.new.items ≡ insert places.old.items at place }
    ensures capacity { deque_capacity places.old ≤ deque_capacity places.new }
{
    match places.insert(at, place) {
        Ok(()) => {}
        Err(_) => unreachable!(),
    }
}
