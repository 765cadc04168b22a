ghost use Rattle.std.specs.Prelude.{◌≡◌, ℕ, ◌+◌, ◌*◌, ◌%◌, ◌^◌, ◌<◌, ◌≤◌, insert, length, map, max, replicate, IfOk, IfSome, OnErr, OnOk, Some};
ghost use Rattle.log_arena.specs.Lease.{lease_bytes, lease_len};
ghost use Rattle.image_log.specs.Frame.{framed};
ghost use Rattle.image_log.specs.Handed.{AreFor, IsFor, offset_of, span_of};
ghost use Rattle.image_log.specs.Layout.{layout_of};
ghost use Rattle.image_log.specs.Log.{log_in};
ghost use Rattle.image_log.specs.Order.{rank};
ghost use Rattle.image_log.specs.Polling.{IsAhead, polled, polled_frame, whole_from};
ghost use Rattle.image_log.specs.Reading.{Adjoin, AreBetween};
ghost use Rattle.image_log.specs.Rebuilt.{IsStart, advanced, after_insert, contiguous_of, frames_of, gap_of, insert_of, is_beyond, is_silent, joined, left, low_of, opened, reach_of, rejoined, settled, term_end, term_start, window_of};
ghost use Rattle.image_log.specs.Status.{is_due, told};
ghost use Rattle.image_log.specs.Stored.{IsBlank, StandIn, held_of};
ghost use Rattle.log_pairs.specs.Layout.{IsWellFormed};
ghost use Rattle.log_pairs.specs.Pairs.{ReadsUpTo, position_of};
ghost use Rattle.log_pairs.specs.Polling.{behind, fragments_of, passed};

use crate::handed;
use crate::ident::Ident;
use crate::insert::Insert;
use crate::polling::room_for;
use crate::reading::{Frames, Run};
use crate::room::ImageRoom;
use crate::status::{self, LastStatus};
use crate::store::Store;
use log_arena::Lease;
use log_pairs::{FragmentCopies, Pair, Pairs, copy_passed};
use std::alloc::{AllocError, Global};
use std::marker::Model;

/// The greatest window, in bytes.
const WINDOW: u64 = 131_072;

/// The log of a remote stream, rebuilt from the frames that come, in any order.
#[derive(Drop)]
pub struct ImageLog {
    ident: Ident,
    /// The position at which the log joined.
    join: u64,
    /// The least position of a pair; without one, where it was last.
    base: u64,
    /// The end of the longest chain of frames.
    contiguous: u64,
    /// The greatest position heard of.
    greatest: u64,
    /// The moment at which the sender was heard last.
    moment: u64,
    /// The status message that was sent last.
    status: Option<LastStatus>,
    pairs: Pairs,
    store: Store,
}

impl Model for ImageLog {
    ghost use Rattle.image_log.specs.Log.{IsLog, Log, log_of};

    ghost Value = { Log };

    ghost view = { λ l. log_of l.ident l.join l.base l.greatest l.moment l.status l.pairs l.store };

    ghost invariant = { λ l. IsLog l.ident l.join l.base l.contiguous l.pairs l.store };
}

/// Where the term of a position begins.
fn term_start(term_length: u32, position: u64) -> u64
    requires { 0 < term_length }
    ensures { result ≡ term_start term_length position }
{
    position - position % u64::from(term_length)
}

/// Where the term of a position ends.
fn term_end(term_length: u32, position: u64) -> u64
    requires some { 0 < term_length }
    requires fits { position < 2 ^ 63 }
    ensures { result ≡ term_end term_length position }
{
    term_start(term_length, position) + u64::from(term_length)
}

/// How far above the base frames may begin.
fn window_of(term_length: u32) -> u64
    ensures { result ≡ window_of term_length }
{
    WINDOW.min(u64::from(term_length) / 2)
}

impl ImageLog {
    /// A log without a frame, in a lease of three terms, all zeros, and in memory that was taken before: no later call takes
    /// any but the copies of a poll. It joins at a position, below which nothing is kept.
    pub fn open(room: ImageRoom, lease: Lease, ident: Ident, join: u64) -> ImageLog
        requires room { room ≡ lease_len lease }
        requires terms { (65536 ≤ ident.term_length) × (ident.term_length ≤ 16777216) }
        requires lease { lease_len lease ≡ 3 * ident.term_length }
        requires zeros { lease_bytes lease ≡ replicate (3 * ident.term_length) 0 }
        requires join { (join % 32 ≡ 0) × (join < ident.term_length * 2 ^ 31) }
        ensures { result ≡ log_in (held_of lease) (opened ident join) }
    {
        let store = Store::open(room.places, lease, join);
        ImageLog {
            ident,
            join,
            base: join,
            contiguous: join,
            greatest: join,
            moment: 0,
            status: None,
            pairs: room.pairs,
            store,
        }
    }

    /// What always holds: no two frames meet, each names the log's session and stream, the lease has zeros beside them, and
    /// each subscription that reads stands where a frame begins, or at the contiguous position, and not below the base.
    pub fn holds(&self)
        ensures { IsWellFormed (layout_of self.now) }
    {
        self.store.is_blank();
    }

    /// Which stream it is of: the one that each frame names which is kept.
    pub fn ident(&self) -> Ident
        ensures value { result ≡ self.now.rebuilt.ident }
        ensures terms { (65536 ≤ result.term_length) × (result.term_length ≤ 16777216) }
        ensures named { AreFor self.now.rebuilt.ident self.now.rebuilt.frames }
    {
        self.ident
    }

    /// Up to which position the stream is whole.
    pub fn contiguous(&self) -> u64
        ensures { result ≡ contiguous_of self.now.rebuilt }
    {
        self.contiguous
    }

    /// The least position of a pair; without one, where it was last, at first the join.
    pub fn base(&self) -> u64
        ensures { result ≡ self.now.rebuilt.base }
    {
        self.base
    }

    /// The position from which on no frame is taken.
    fn reach(&self) -> u64
        ensures value { result ≡ reach_of self.now.rebuilt }
        ensures fits { result < 2 ^ 63 }
    {
        self.base + window_of(self.ident.term_length)
    }

    /// A heartbeat reported the sender's position.
    pub fn beat(&mut self, position: u64)
        ensures { self.new ≡ record self.old {
          rebuilt = record self.old.rebuilt { greatest = max self.old.rebuilt.greatest position };
        } }
    {
        self.greatest = self.greatest.max(position);
    }

    /// The first positions that are missing, and how many, where some below the window's end are: up to the next frame,
    /// or, without one, up to the greatest position heard of.
    pub fn gap(&self) -> Option<(u64, u32)>
        ensures { result ≡ gap_of self.now.rebuilt }
    {
        let next = self.store.next_from(self.contiguous, self.greatest);
        let end = next.min(self.reach());
        if self.contiguous < end {
            Some((self.contiguous, (end - self.contiguous) as u32))
        } else {
            None
        }
    }

    /// The frames from a position on, one after another, up to the contiguous position or the end of the position's term: as
    /// many as take at most so many bytes of a datagram, and none after a pad. A pad takes 32 bytes there, a data frame as many
    /// as it takes positions.
    pub fn frames_from(&self, position: u64, bytes: usize) -> Frames<'_>
        requires { position ≤ contiguous_of self.now.rebuilt }
        ensures frames { result ≡ frames_of self.now.rebuilt position bytes }
        ensures within { AreBetween position (contiguous_of self.now.rebuilt) result }
        ensures run { IsStart self.now.rebuilt position → Adjoin position result }
        ensures named { AreFor self.now.rebuilt.ident result }
    {
        let end = self
            .contiguous
            .min(term_end(self.ident.term_length, position));
        let index = self.store.rank(position);
        Frames::new(&self.store, index, self.store.rank(end), bytes)
    }

    /// How many frames begin below a position.
    fn rank(&self, position: u64) -> usize
        ensures { result ≡ rank position self.now.rebuilt.frames }
    {
        self.store.rank(position)
    }

    /// What becomes of a frame. `at` is the position's rank.
    fn answer(&self, at: usize, position: u64, frame: &[u8]) -> Insert
        requires of { IsFor self.now.rebuilt.ident position frame.now }
        requires rank { at ≡ rank position self.now.rebuilt.frames }
        ensures answer { result ≡ insert_of self.now.rebuilt position frame.now }
        ensures fits { position < 2 ^ 57 }
    {
        if position < self.store.low() {
            return Insert::Below;
        }
        let span = handed::span_of(frame);
        if position >= self.reach() {
            return Insert::Beyond;
        }
        if u64::from(handed::offset_of(frame)) + span > u64::from(self.ident.term_length) {
            return Insert::Beyond;
        }
        self.store.answer(at, position, position + span, frame)
    }

    /// Keeps a frame. `at` is the position's rank.
    fn take(&mut self, at: usize, position: u64, span: u32, frame: &[u8])
        requires of { IsFor self.old.rebuilt.ident position frame.now }
        requires span { span ≡ span_of frame.now }
        requires taken { insert_of self.old.rebuilt position frame.now ≡ Insert.Taken }
        requires rank { at ≡ rank position self.old.rebuilt.frames }
        ensures { self.new ≡ record self.old {
          rebuilt = record self.old.rebuilt {
            frames = insert self.old.rebuilt.frames (rank position self.old.rebuilt.frames) (framed position span frame.now);
          };
        } }
    {
        self.store.put(at, position, span, frame);
        if position == self.contiguous {
            self.contiguous = self.store.chain(at, position);
        }
    }

    /// Hands in one data frame without its filling, or one pad by its header alone, of the log's session and stream, at
    /// its header's position. A frame that is kept already stays as it is.
    pub fn insert(&mut self, position: u64, frame: &[u8]) -> Insert
        requires { IsFor self.old.rebuilt.ident position frame.now }
        ensures answer { result ≡ insert_of self.old.rebuilt position frame.now }
        ensures after { self.new ≡ record self.old { rebuilt = after_insert self.old.rebuilt position frame.now } }
    {
        let at = self.rank(position);
        let answer = self.answer(at, position, frame);
        let span = handed::span_of(frame);
        if let Insert::Taken = answer {
            self.take(at, position, span as u32, frame);
        }
        self.beat(position + span);
        answer
    }

    /// Moves the base to the least position of a pair, and drops the frames below the start of its term.
    #[tactic(auto, unfolding(crate::specs::Rebuilt::settled))]
    fn settle(&mut self)
        ensures { self.new ≡ record self.old { rebuilt = settled self.old.rebuilt } }
    {
        let base = self.pairs.least_or(self.base);
        let low = term_start(self.ident.term_length, base).max(self.join);
        self.base = base;
        self.store.drop_below(low);
    }

    /// A subscription reads the log from now on: its position is the contiguous position, which is given back.
    pub fn join_pair(&mut self, subscription: u64) -> u64
        requires { length self.old.rebuilt.pairs < 512 }
        ensures position { result ≡ contiguous_of self.old.rebuilt }
        ensures joined { self.new ≡ record self.old { rebuilt = settled (joined self.old.rebuilt subscription) } }
    {
        let position = self.contiguous;
        self.pairs.join(Pair {
            subscription,
            position,
        });
        self.settle();
        position
    }

    /// A subscription reads the log no longer.
    pub fn leave_pair(&mut self, subscription: u64)
        ensures { self.new ≡ record self.old { rebuilt = settled (left self.old.rebuilt subscription) } }
    {
        self.pairs.leave(subscription);
        self.settle();
    }

    /// Exactly these subscriptions read the log from now on: one that read it before from where it is, a new one from the
    /// contiguous position. All others read it no longer.
    pub fn rejoin(&mut self, subscriptions: &[u64])
        requires { length subscriptions.now ≤ 512 }
        ensures { self.new ≡ record self.old { rebuilt = settled (rejoined self.old.rebuilt subscriptions.now) } }
    {
        let contiguous = self.contiguous;
        self.pairs.rejoin(subscriptions, contiguous);
        self.settle();
    }

    /// How far a subscription has read, if it reads the log: from the base on, and not past the contiguous position. It is
    /// that position, or the start of a frame.
    pub fn pair_position(&self, subscription: u64) -> Option<u64>
        ensures position { result ≡ position_of self.now.rebuilt.pairs subscription }
        ensures within { IfSome result (λ position. (self.now.rebuilt.base ≤ position) × (position ≤ contiguous_of self.now.rebuilt)) }
        ensures starts { IfSome result (λ position. IsStart self.now.rebuilt position) }
    {
        self.pairs.position(subscription)
    }

    /// A subscription has read up to a position, which is the contiguous position or the start of a frame below it.
    fn advance(&mut self, subscription: u64, position: u64)
        requires from { ReadsUpTo (position_of self.old.rebuilt.pairs subscription) position }
        requires to { position ≤ contiguous_of self.old.rebuilt }
        requires start { IsStart self.old.rebuilt position }
        ensures { self.new ≡ record self.old { rebuilt = settled (advanced self.old.rebuilt subscription position) } }
    {
        self.pairs.advance(subscription, position);
        self.settle();
    }

    /// The frames that are whole from a position on.
    fn run_from(&self, position: u64) -> Run<'_>
        requires { position ≤ contiguous_of self.now.rebuilt }
        ensures frames { result ≡ whole_from self.now.rebuilt position }
        ensures ends { IsStart self.now.rebuilt position → (limit : ℕ)
            → IsAhead self.now.rebuilt position (behind position (passed limit (map polled_frame result))) }
    {
        let index = self.store.rank(position);
        Run::new(&self.store, index, self.store.rank(self.contiguous))
    }

    /// Copies of the fragments that a poll gives from a position on, and the position after the frames that it passes. What
    /// stands before the bytes of a copy takes no more than the header of its frame does.
    fn copies_from(
        &self,
        alloc: Global,
        position: u64,
        limit: usize,
    ) -> Result<(FragmentCopies, u64), AllocError>
        requires to { position ≤ contiguous_of self.now.rebuilt }
        requires start { IsStart self.now.rebuilt position }
        ensures copies { IfOk result (λ poll. poll.0 ≡ fragments_of (passed limit (map polled_frame (whole_from self.now.rebuilt position)))) }
        ensures exact { IfOk result (λ poll. poll.1 ≡ behind position (passed limit (map polled_frame (whole_from self.now.rebuilt position)))) }
        ensures ahead { IfOk result (λ poll. IsAhead self.now.rebuilt position poll.1) }
    {
        let room = room_for(self.contiguous.saturating_sub(position), limit);
        copy_passed(self.run_from(position), alloc, room, position, limit)
    }

    /// A subscription is polled: it has read the frames from its position on, over the ends of terms, until so many fragments
    /// were given or there is no more that is whole. Pads do not count, and one after the last fragment is left. The answer
    /// has copies of the fragments; none where the subscription does not read the log. Each frame is looked at once, and the
    /// memory for all copies is taken at once.
    ///
    /// # Errors
    /// Nothing is changed where there is no memory for the copies.
    pub fn poll_copies(
        &mut self,
        alloc: Global,
        subscription: u64,
        limit: usize,
    ) -> Result<FragmentCopies, AllocError>
        ensures copies { IfOk result (λ copies. copies ≡ (polled self.old.rebuilt subscription limit).fragments) }
        ensures exact { OnOk result (self.new ≡ record self.old { rebuilt = (polled self.old.rebuilt subscription limit).after }) }
        ensures err { OnErr result (self.new ≡ self.old) }
    {
        match self.pair_position(subscription) {
            Some(position) => {
                let (copies, end) = self.copies_from(alloc, position, limit)?;
                self.advance(subscription, end);
                Ok(copies)
            }
            None => FragmentCopies::new(alloc, 0),
        }
    }

    /// The sender was heard at a moment. The greatest one counts.
    pub fn heard(&mut self, now: u64)
        ensures { self.new ≡ record self.old {
          rebuilt = record self.old.rebuilt { moment = max self.old.rebuilt.moment now };
        } }
    {
        self.moment = self.moment.max(now);
    }

    /// Whether the sender was not heard for longer than that.
    pub fn silent(&self, now: u64, limit: u64) -> bool
        ensures { result ≡ is_silent self.now.rebuilt now limit }
    {
        now.saturating_sub(self.moment) > limit
    }

    /// How far above the base frames may begin: what a status message says beside the base.
    pub fn window(&self) -> u32
        ensures { result ≡ window_of self.now.rebuilt.ident.term_length }
    {
        window_of(self.ident.term_length) as u32
    }

    /// Whether a status message is due at a moment: where none was sent yet, where the last one was sent longer ago than
    /// the interval, and where the base has moved by a quarter of the window since.
    pub fn status_due(&self, now: u64, interval: u64) -> bool
        ensures { result ≡ is_due now interval self.now.rebuilt.base (window_of self.now.rebuilt.ident.term_length) self.now.rebuilt.status }
    {
        let window = window_of(self.ident.term_length);
        status::is_due(self.status, now, interval, self.base, window)
    }

    /// A status message was sent at a moment, with the base as it is.
    pub fn status_sent(&mut self, now: u64)
        ensures { self.new ≡ record self.old {
          rebuilt = record self.old.rebuilt { status = Some (told now self.old.rebuilt.base) };
        } }
    {
        self.status = Some(LastStatus {
            moment: now,
            base: self.base,
        });
    }

    /// Gives the lease back. Its bytes are those of the frames, each at its position modulo the lease's length, and
    /// zeros.
    pub fn close(self) -> Lease
        ensures held { held_of result ≡ self.held }
        ensures len { lease_len result ≡ 3 * self.rebuilt.ident.term_length }
        ensures stand { StandIn self.held.len self.rebuilt.frames (lease_bytes result) }
        ensures blank { IsBlank self.held.len self.rebuilt.frames (lease_bytes result) }
    {
        let ImageLog {
            ident: _,
            join: _,
            base: _,
            contiguous: _,
            greatest: _,
            moment: _,
            status: _,
            pairs: _,
            store,
        } = self;
        store.into_lease()
    }
}
