//! The frames of a log, appended one after another.

ghost use Rattle.frame_codec.specs.Frame.{padded};
ghost use Rattle.log_arena.specs.Lease.{lease_bytes, lease_home, lease_len, lease_place};
ghost use Rattle.std.specs.Prelude.{◌≡◌, ℕ, ◌+◌, ◌-◌, ◌*◌, ◌%◌, ◌^◌, ◌<◌, ◌≤◌, ◌==◌, ◌++◌, All, Contains, IfSome, List, length, min, replicate};
ghost use Rattle.term_log.specs.Buffers.{Buffers, settled};
ghost use Rattle.term_log.specs.Cut.{cut};
ghost use Rattle.term_log.specs.Frames.{Frame, fragment, pad, total};
ghost use Rattle.term_log.specs.Ident.{IsIdent, greatest_position, payload_length, place_at};
ghost use Rattle.term_log.specs.Log.{low_of};
ghost use Rattle.term_log.specs.Ranges.{GivesOver, IsSearchStart, Reaches, over_left, over_start};
ghost use Rattle.term_log.specs.Reading.{AreFrom, EndsBy, GivesAll, GivesFrom, frames_left, sent_bytes, spans};
ghost use Rattle.term_log.specs.Kept.{Kept, after_frame, after_frames, marked, offset_of, opened, rest_of, slot_of};

use crate::buffers::TermBuffers;
use crate::cutting::{flags_of, last_part, part};
use crate::ident::Ident;
use crate::ranges::FramesOver;
use crate::reading::Frames;
use frame_codec::{Flags, Header, TermPlace, padded_length, term_of};
use log_arena::Lease;
use std::marker::Model;

/// The frames of a log, of which the last are held.
///
/// Contracts see what is kept of all frames that were ever appended.
#[derive(Drop)]
pub(crate) struct Appender {
    ident: Ident,
    /// The position after the last frame.
    tail: u64,
    /// How many bytes of the newest term are before the tail, and the id of that term: a frame that is appended divides
    /// nothing but where it fills its term.
    offset: u64,
    term_id: i32,
    /// How many messages were appended.
    messages: u64,
    buffers: TermBuffers,
    /// Where frames begin: of each 4,096 positions the first that did, until it is overwritten 64 times as many positions
    /// later. Frames are looked for from there on.
    marks: [u64; 64],
}

impl Model for Appender {
    ghost use Rattle.term_log.specs.Kept.{IsKept, Kept, kept_code};

    ghost Value = { Kept };

    ghost coded = { kept_code };

    ghost view = { λ a. record { ident = a.ident; tail = a.tail; messages = a.messages; buffers = a.buffers.seen; marks = a.marks } };

    ghost invariant = { λ a. IsKept a.ident a.tail a.offset a.term_id a.messages a.buffers.seen a.buffers.filled };
}

/// Where the mark of a position stands.
fn slot_of(position: u64) -> usize
    ensures value { result ≡ slot_of position }
    ensures within { result < 64 }
{
    (position / 4_096 % 64) as usize
}

/// A frame begins at a position: the first of its 4,096 positions is marked.
fn mark(marks: &mut [u64; 64], position: u64)
    ensures { marks.new ≡ marked position marks.old }
{
    let slot = slot_of(position);
    if marks[slot] / 4_096 != position / 4_096 {
        marks[slot] = position;
    }
}

/// A mark at a position or below it: that of its own 4,096 positions, or of those before them.
fn mark_below(marks: &[u64; 64], position: u64) -> Option<u64>
    ensures { IfSome result (λ mark. (mark ≤ position) × Contains marks.now mark) }
{
    let own = marks[slot_of(position)];
    if own <= position && own / 4_096 == position / 4_096 {
        return Some(own);
    }
    let before = marks[slot_of(position.saturating_sub(4_096))];
    if before <= position {
        Some(before)
    } else {
        None
    }
}

impl Appender {
    /// No frame is there yet.
    pub(crate) fn new(lease: Lease, ident: Ident) -> Appender
        requires ident { IsIdent ident }
        requires len { lease_len lease ≡ 3 * ident.term_length }
        requires zeros { lease_bytes lease ≡ replicate (3 * ident.term_length) 0 }
        ensures { result ≡ opened lease ident }
    {
        let (term_id, offset) = term_of(ident.initial_term, ident.start, ident.term_length);
        Appender {
            ident,
            tail: ident.start,
            offset: u64::from(offset),
            term_id,
            messages: 0,
            buffers: TermBuffers::new(lease, ident.term_length),
            marks: [ident.start; 64],
        }
    }

    pub(crate) fn ident(&self) -> Ident
        ensures value { result ≡ self.now.ident }
        ensures sound { IsIdent self.now.ident }
    {
        self.ident
    }

    pub(crate) fn tail(&self) -> u64
        ensures value { result ≡ self.now.tail }
        ensures low { self.now.ident.start ≤ self.now.tail }
        ensures high { self.now.tail ≤ greatest_position self.now.ident }
        ensures aligned { self.now.tail % 32 ≡ 0 }
    {
        self.tail
    }

    pub(crate) fn messages(&self) -> u64
        ensures { result ≡ self.now.messages }
    {
        self.messages
    }

    /// How many bytes of the newest term are left.
    pub(crate) fn rest(&self) -> u64
        ensures value { result ≡ rest_of self.now }
        ensures some { 0 < result }
    {
        u64::from(self.ident.term_length) - self.offset
    }

    /// Where a frame at the tail stands.
    fn place(&self) -> TermPlace
        ensures value { result ≡ place_at self.now.ident self.now.tail }
        ensures offset { result.term_offset < self.now.buffers.term_length }
    {
        TermPlace {
            session_id: self.ident.session,
            stream_id: self.ident.stream,
            term_id: self.term_id,
            term_offset: self.offset as u32,
        }
    }

    /// The tail moves on over the bytes of a frame that were written; a new term begins where the newest is full.
    fn step(&mut self, span: u64, begun: u64)
        requires fits { offset_of self.old + span ≤ self.old.ident.term_length }
        requires ends { self.old.tail + span ≤ greatest_position self.old.ident }
        requires aligned { span % 32 ≡ 0 }
        requires counted { 32 * begun ≤ span }
        ensures { self.new ≡ record self.old {
          tail = self.old.tail + span;
          messages = self.old.messages + begun;
          buffers
              = record self.old.buffers {
                bytes
                    = settled self.old.buffers.term_length (offset_of self.old + span == self.old.ident.term_length) self.old.buffers.bytes;
              };
          marks = marked self.old.tail self.old.marks;
        } }
    {
        let end = self.offset + span;
        let full = end == u64::from(self.ident.term_length);
        mark(&mut self.marks, self.tail);
        self.tail += span;
        self.messages += begun;
        self.buffers.fill(end as usize);
        self.buffers.settle(full);
        if full {
            let (term_id, offset) = term_of(
                self.ident.initial_term,
                self.tail,
                self.ident.term_length,
            );
            self.term_id = term_id;
            self.offset = u64::from(offset);
        } else {
            self.offset = end;
        }
    }

    /// The first position whose frame is held.
    pub(crate) fn low(&self) -> u64
        ensures { result ≡ low_of self.now }
    {
        let newest = self.tail - self.offset;
        let terms = 2 * u64::from(self.ident.term_length);
        self.ident.start.max(newest.saturating_sub(terms))
    }

    /// Where the term begins of a position that is held, or of the tail: it is one of three.
    fn term_start(&self, position: u64) -> u64
        requires low { low_of self.now ≤ position }
        requires high { position ≤ self.now.tail }
        ensures { result ≡ position - position % self.now.ident.term_length }
    {
        let term_length = u64::from(self.ident.term_length);
        let newest = self.tail - self.offset;
        if newest <= position {
            return newest;
        }
        let before = newest.saturating_sub(term_length);
        if before <= position {
            return before;
        }
        before.saturating_sub(term_length)
    }

    /// Appends a part of a message.
    #[tactic(auto, unfolding(crate::specs::Kept::after_frame))]
    pub(crate) fn append(&mut self, flags: Flags, payload: &[u8])
        requires fits { offset_of self.old + padded (32 + length payload.now) ≤ self.old.ident.term_length }
        requires ends { self.old.tail + padded (32 + length payload.now) ≤ greatest_position self.old.ident }
        ensures { self.new ≡ after_frame self.old (fragment flags payload.now) }
    {
        let place = self.place();
        self.buffers
            .put_data(place.term_offset as usize, flags, &place, payload);
        let begun = if flags.contains(Flags::BEGIN) { 1 } else { 0 };
        self.step(padded_length((Header::SIZE + payload.len()) as u32), begun);
    }

    /// Appends a pad over the rest of the newest term; a new one begins.
    #[tactic(auto, unfolding(crate::specs::Kept::after_frame), using(crate::proofs::Places::aligned_rest))]
    pub(crate) fn pad(&mut self)
        requires { self.old.tail + rest_of self.old ≤ greatest_position self.old.ident }
        ensures { self.new ≡ after_frame self.old (pad (rest_of self.old)) }
    {
        let place = self.place();
        let rest = self.rest();
        self.buffers.put_pad(
            place.term_offset as usize,
            Flags::UNFRAGMENTED,
            &place,
            rest as u32,
        );
        self.step(rest, 0);
    }

    /// Appends a message, cut into frames.
    pub(crate) fn append_message(&mut self, message: &[u8])
        requires size { length message.now < 2 ^ 24 }
        requires fits { offset_of self.old + total (cut (payload_length self.old.ident) message.now) ≤ self.old.ident.term_length }
        requires ends { self.old.tail + total (cut (payload_length self.old.ident) message.now) ≤ greatest_position self.old.ident }
        ensures { self.new ≡ after_frames self.old (cut (payload_length self.old.ident) message.now) }
    {
        let payload = self.ident().mtu as usize - Header::SIZE;
        let last = last_part(message.len(), payload);
        for i in 0..last + 1 {
            self.append(flags_of(i, last), part(message, i, payload));
        }
    }

    /// The frames from a position on that is held: a frame's start or the tail. They are those of one term, as far as
    /// the budget goes.
    pub(crate) fn frames_from(&self, position: u64, budget: usize) -> Frames<'_>
        requires low { low_of self.now ≤ position }
        requires high { position ≤ self.now.tail }
        ensures gives { GivesFrom self.now position budget (frames_left result) }
        ensures behind { AreFrom position (frames_left result) }
        ensures within { position + spans (frames_left result) ≤ self.now.tail }
        ensures fits { position + spans (frames_left result) < 2 ^ 64 }
        ensures size { length (sent_bytes (frames_left result)) ≤ budget }
    {
        let term_length = u64::from(self.ident.term_length);
        let begin = self.term_start(position);
        let offset = position - begin;
        let newest = self.tail - self.offset;
        let base = begin + 2 * term_length - newest;
        let end = self.tail.min(begin + term_length);
        let count = end - position;
        let bytes = self
            .buffers
            .part(base as usize, offset as usize, count as usize);
        Frames::new(bytes, end, budget)
    }

    /// Where the term after that of a position begins, or the tail where that is before it.
    fn next_term(&self, position: u64) -> u64
        requires low { low_of self.now ≤ position }
        requires high { position ≤ self.now.tail }
        ensures value { result ≡ min self.now.tail (position - position % self.now.ident.term_length + self.now.ident.term_length) }
        ensures after { position ≤ result }
    {
        let begin = self.term_start(position);
        self.tail.min(begin + u64::from(self.ident.term_length))
    }

    /// The frames from a position on that is held: a frame's start or the tail. They are those of its term, of the next one
    /// and of the one after that: all up to the tail.
    fn terms_from(&self, position: u64) -> (Frames<'_>, Frames<'_>, Frames<'_>)
        requires low { low_of self.now ≤ position }
        requires high { position ≤ self.now.tail }
        ensures all { GivesAll self.now position (frames_left result.0 ++ frames_left result.1 ++ frames_left result.2) }
        ensures within { All (EndsBy self.now.tail) (frames_left result.0 ++ frames_left result.1 ++ frames_left result.2) }
        ensures sound { IsIdent self.now.ident }
    {
        let budget = self.ident.term_length as usize;
        let second = self.next_term(position);
        let third = self.next_term(second);
        (
            self.frames_from(position, budget),
            self.frames_from(second, budget),
            self.frames_from(third, budget),
        )
    }

    /// Where the term begins of any position.
    fn any_start(&self, low: u64, position: u64) -> u64
        requires { low ≡ low_of self.now }
        ensures { result ≡ position - position % self.now.ident.term_length }
    {
        if low <= position && position <= self.tail {
            return self.term_start(position);
        }
        position - position % u64::from(self.ident.term_length)
    }

    /// Where frames that meet a range may begin: at the start of the term in which the range begins, as far as that is held.
    fn over_start(&self, low: u64, position: u64) -> u64
        requires exact { low ≡ low_of self.now }
        requires within { low ≤ self.now.tail }
        ensures value { result ≡ over_start self.now position }
        ensures low { low_of self.now ≤ result }
        ensures high { result ≤ self.now.tail }
        ensures sound { IsIdent self.now.ident }
        ensures start { self.now.ident.start ≤ self.now.tail }
        ensures fits { self.now.tail < 2 ^ 64 }
    {
        low.max(self.any_start(low, position)).min(self.tail)
    }

    /// Where frames are looked for that meet a range: from a mark near its begin on, or else from the start of its term.
    fn search_start(&self, low: u64, position: u64) -> u64
        requires exact { low ≡ low_of self.now }
        requires within { low ≤ self.now.tail }
        ensures starts { IsSearchStart self.now position result }
        ensures sound { IsIdent self.now.ident }
        ensures start { self.now.ident.start ≤ self.now.tail }
        ensures fits { self.now.tail < 2 ^ 64 }
    {
        let start = self.over_start(low, position);
        match mark_below(&self.marks, position.min(self.tail)) {
            Some(mark) => start.max(mark),
            None => start,
        }
    }

    /// How many bytes of frames are looked at from a position on, for a range: up to its end, and those of a frame more.
    fn over_budget(&self, from: u64, position: u64, size: u64) -> usize
        ensures { Reaches self.now.ident position size from result }
    {
        let frame = u64::from(self.ident.mtu) + Header::SIZE as u64;
        let end = position.saturating_add(size).saturating_add(frame);
        end.saturating_sub(from) as usize
    }

    /// The frames that are held and meet a range. They are looked for from shortly before its begin up to its end.
    pub(crate) fn frames_over(&self, low: u64, position: u64, size: u64) -> FramesOver<'_>
        requires exact { low ≡ low_of self.now }
        requires within { low ≤ self.now.tail }
        ensures gives { GivesOver self.now position size (over_left result) }
        ensures within { All (EndsBy self.now.tail) (over_left result) }
    {
        let first = self.search_start(low, position);
        let second = self.next_term(first);
        let third = self.next_term(second);
        FramesOver::new(
            self.frames_from(first, self.over_budget(first, position, size)),
            self.frames_from(second, self.over_budget(second, position, size)),
            self.frames_from(third, self.over_budget(third, position, size)),
            position,
            size,
        )
    }

    /// The frames from a position on that is held: a frame's start or the tail. They are all up to the tail.
    pub(crate) fn frames_behind(&self, position: u64) -> FramesOver<'_>
        requires low { low_of self.now ≤ position }
        requires high { position ≤ self.now.tail }
        ensures all { GivesAll self.now position (over_left result) }
        ensures fits { self.now.tail < 2 ^ 64 }
    {
        let (first, second, third) = self.terms_from(position);
        FramesOver::new(first, second, third, position, self.tail - position)
    }

    /// The lease, whatever its bytes are.
    pub(crate) fn into_lease(self) -> Lease
        ensures { (lease_home result ≡ self.buffers.home) × (lease_place result ≡ self.buffers.place)
            × (lease_len result ≡ 3 * self.buffers.term_length) }
    {
        self.buffers.into_lease()
    }
}
