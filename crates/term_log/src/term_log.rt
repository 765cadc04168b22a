//! The log of a publication.

ghost use Rattle.log_arena.specs.Lease.{lease_bytes, lease_home, lease_len, lease_place};
ghost use Rattle.log_pairs.specs.Pairs.{ReadsUpTo, is_other, moved_one, position_of};
ghost use Rattle.std.specs.Prelude.{◌≡◌, ◌+◌, ◌*◌, ◌/◌, ◌%◌, ◌^◌, ◌<◌, ◌≤◌, ◌++◌, ◌∷◌, [], All, IfOk, IfSome, OnErr, OnOk, List, length, map, min, filter, replicate, true};
ghost use Rattle.term_log.specs.Frames.{Frame};
ghost use Rattle.term_log.specs.Ident.{IsIdent};
ghost use Rattle.term_log.specs.Kept.{StandsFor, after_frames, opened};
ghost use Rattle.term_log.specs.Layout.{HasLayout};
ghost use Rattle.term_log.specs.Log.{HasRoom, appended, connected_of, greatest_message, limit_of, low_of, offer_of};
ghost use Rattle.term_log.specs.Ranges.{GivesOver, over_left};
ghost use Rattle.term_log.specs.Reading.{AreFrom, EndsBy, GivesFrom, frames_left, sent_bytes, spans};
ghost use Rattle.term_log.specs.Sender.{after_setup, after_status, budget_of, is_past, is_setup_due, later_of, sending, status_of};
ghost use Rattle.term_log.specs.SenderSteps.{IsStartIn, ReadsFrom, datagram_cut, elicited, heard, sent_to, setup_cut};
ghost use Rattle.term_log.specs.Whole.{Carries, Fetches, Offers, Stands, fresh, polled, rejoined, rejoined_kept};

use crate::appender::Appender;
use crate::cutting::size_of;
use crate::ident::{Ident, LogKind};
use crate::offer::Offer;
use crate::polling::copies_from;
use crate::ranges::FramesOver;
use crate::reading::Frames;
use crate::room::LogRoom;
use crate::sender::Sender;
use crate::status::Status;
use frame_codec::Header;
use log_arena::Lease;
use log_pairs::{FragmentCopies, Pair, Pairs};
use std::alloc::{AllocError, Global};
use std::marker::Model;

/// No message is longer, however long terms are.
const GREATEST_MESSAGE: usize = 16_777_216;

/// The log of a publication: a list of frames, each after the one before, of which the last three terms are held.
///
/// Contracts see what is kept of the frames, the subscriptions that read them with their positions, and what the sender
/// keeps. `StandsFor` says of which lists of frames what is kept is all that has to be kept.
#[derive(Drop)]
pub struct TermLog {
    appender: Appender,
    pairs: Pairs,
    sender: Sender,
}

impl Model for TermLog {
    ghost use Rattle.term_log.specs.Log.{IsLog, Log, log_code};

    ghost Value = { Log };

    ghost coded = { log_code };

    ghost view = { λ log. record { kept = log.appender; pairs = log.pairs; sender = log.sender } };

    ghost invariant = { λ log. IsLog log.appender log.pairs log.sender.position };
}

impl TermLog {
    /// A log without frames, in a lease of three terms, all zeros, and in memory that was taken before, that for 512 pairs: no
    /// later call takes any but the copies of a poll.
    pub fn open(room: LogRoom, lease: Lease, ident: Ident) -> TermLog
        requires ident { IsIdent ident }
        requires len { lease_len lease ≡ 3 * ident.term_length }
        requires zeros { lease_bytes lease ≡ replicate (3 * ident.term_length) 0 }
        ensures opened { result ≡ record { kept = opened lease ident; pairs = []; sender = sending ident.start } }
        ensures stands { StandsFor result.kept [] }
        ensures whole { Stands result (fresh ident) }
    {
        TermLog {
            appender: Appender::new(lease, ident),
            pairs: room.pairs,
            sender: Sender::new(ident.start),
        }
    }

    /// What always holds: no two frames meet, each names the log's session and stream, all after the tail counts as
    /// zeros, and each subscription that reads stands where a frame begins, or at the tail, and not below
    /// [`TermLog::low`].
    pub fn holds(&self)
        ensures { HasLayout self.now }
    {
        self.appender.ident().is_of_32_bits();
    }

    /// What the log was made for.
    pub fn ident(&self) -> Ident
        ensures value { result ≡ self.now.kept.ident }
        ensures sound { IsIdent self.now.kept.ident }
    {
        self.appender.ident()
    }

    /// The greatest length of a message, in bytes: an eighth of a term, and at most 16 MiB.
    pub fn greatest_message(&self) -> usize
        ensures { result ≡ greatest_message self.now.kept.ident }
    {
        (self.appender.ident().term_length as usize / 8).min(GREATEST_MESSAGE)
    }

    /// The position after the last frame.
    pub fn tail(&self) -> u64
        ensures { result ≡ self.now.kept.tail }
    {
        self.appender.tail()
    }

    /// How many messages were appended.
    pub fn messages(&self) -> u64
        ensures { result ≡ self.now.kept.messages }
    {
        self.appender.messages()
    }

    /// The first position whose frame is held: the start of the second term before that of the tail, or the log's start.
    #[tactic(auto, using(crate::proofs::Terms::low_before))]
    pub fn low(&self) -> u64
        ensures value { result ≡ low_of self.now.kept }
        ensures within { result ≤ self.now.kept.tail }
    {
        self.appender.low()
    }

    /// The frames from a position on that is not below [`TermLog::low`], and that is a frame's start or the tail: the
    /// longest run of whole frames, all of one term, of which at most so many bytes are sent. It ends after a pad. Of a
    /// pad its header alone is sent. They end at or below the tail, and a sender that has sent them may say so by
    /// [`TermLog::sent`].
    pub fn frames_from(&self, position: u64, bytes: usize) -> Frames<'_>
        requires low { low_of self.now.kept ≤ position }
        requires high { position ≤ self.now.kept.tail }
        ensures gives { GivesFrom self.now.kept position bytes (frames_left result) }
        ensures behind { AreFrom position (frames_left result) }
        ensures within { position + spans (frames_left result) ≤ self.now.kept.tail }
        ensures fits { position + spans (frames_left result) < 2 ^ 64 }
        ensures size { length (sent_bytes (frames_left result)) ≤ bytes }
        ensures whole { ReadsFrom self.now position bytes (frames_left result) }
        ensures end { IsStartIn self.now position → IsStartIn self.now (position + spans (frames_left result)) }
    {
        self.appender.frames_from(position, bytes)
    }

    /// The frames that are held and have a position in common with a range: so many positions from `position` on.
    pub fn frames_over(&self, position: u64, size: u64) -> FramesOver<'_>
        ensures gives { GivesOver self.now.kept position size (over_left result) }
        ensures within { All (EndsBy self.now.kept.tail) (over_left result) }
    {
        self.appender.frames_over(self.low(), position, size)
    }

    /// The position from which on no offer is taken.
    #[tactic(auto, unfolding(crate::specs::Log::limit_of))]
    pub fn limit(&self) -> u64
        ensures { result ≡ limit_of self.now }
    {
        let ident = self.appender.ident();
        let tail = self.appender.tail();
        let half = u64::from(ident.term_length / 2);
        match ident.kind {
            LogKind::Udp => self.pairs.least(self.sender.position()) + half,
            LogKind::Ipc => match self.pairs.as_slice() {
                [] => tail,
                [first, ..] => self.pairs.least(first.position) + half,
            },
        }
    }

    /// What becomes of a message; nothing is changed yet.
    #[tactic(auto, unfolding(crate::specs::Log::answer_of))]
    fn decide(&self, message: &[u8]) -> Offer
        ensures answer { result ≡ offer_of self.now message.now }
        ensures room { HasRoom result self.now message.now }
        ensures sound { IsIdent self.now.kept.ident }
        ensures aligned { self.now.kept.tail % 32 ≡ 0 }
    {
        let ident = self.appender.ident();
        let tail = self.appender.tail();
        if message.len() > self.greatest_message() {
            return Offer::TooLong;
        }
        let size = size_of(message, ident.mtu as usize - Header::SIZE);
        if tail + size > u64::from(ident.term_length) * (1 << 31) {
            return Offer::MaxPosition;
        }
        if tail >= self.limit() {
            return Offer::BackPressured;
        }
        if size > self.appender.rest() {
            return Offer::AdminAction;
        }
        Offer::At(tail + size)
    }

    /// Offers a message. The answer is the first that applies, in the order [`Offer::TooLong`],
    /// [`Offer::MaxPosition`], [`Offer::BackPressured`], [`Offer::AdminAction`], [`Offer::At`]. Whether anybody is
    /// connected is asked by the caller.
    pub fn offer(&mut self, message: &[u8]) -> Offer
        ensures answer { result ≡ offer_of self.old message.now }
        ensures exact { self.new ≡ record self.old { kept = after_frames self.old.kept (appended result self.old.kept message.now) } }
        ensures stands { (frames : List Frame) → StandsFor self.old.kept frames
            → StandsFor self.new.kept (frames ++ appended result self.old.kept message.now) }
        ensures whole { Offers self.old self.new message.now result }
    {
        let answer = self.decide(message);
        match answer {
            Offer::At(_) => self.appender.append_message(message),
            Offer::AdminAction => self.appender.pad(),
            Offer::TooLong | Offer::MaxPosition | Offer::BackPressured => {}
        }
        answer
    }

    /// A subscription reads the log from now on: its position is the tail, which is given back.
    pub fn join_pair(&mut self, subscription: u64) -> u64
        requires { length self.old.pairs < 512 }
        ensures position { result ≡ self.old.kept.tail }
        ensures joined { self.new ≡ record self.old {
          pairs
              = self.old.pairs ++ record { subscription = subscription; position = self.old.kept.tail } ∷ [];
        } }
    {
        let position = self.appender.tail();
        self.pairs.join(Pair {
            subscription,
            position,
        });
        position
    }

    /// A subscription reads the log no longer.
    pub fn leave_pair(&mut self, subscription: u64)
        ensures { self.new ≡ record self.old { pairs = filter (is_other subscription) self.old.pairs } }
    {
        self.pairs.leave(subscription);
    }

    /// Exactly these subscriptions read the log from now on: one that read it before from where it is, a new one from the
    /// tail. All others read it no longer.
    #[tactic(auto, unfolding(crate::specs::Whole::rejoined_kept))]
    pub fn rejoin(&mut self, subscriptions: &[u64])
        requires { length subscriptions.now ≤ 512 }
        ensures exact { self.new ≡ rejoined_kept subscriptions.now self.old }
        ensures whole { Carries self.old self.new (rejoined subscriptions.now) }
    {
        let tail = self.appender.tail();
        self.pairs.rejoin(subscriptions, tail);
    }

    /// How far a subscription has read, if it reads the log: a position that is held, or the tail.
    pub fn pair_position(&self, subscription: u64) -> Option<u64>
        ensures position { result ≡ position_of self.now.pairs subscription }
        ensures held { IfSome result (λ position. (low_of self.now.kept ≤ position) × (position ≤ self.now.kept.tail)) }
    {
        self.pairs.position(subscription)
    }

    /// A subscription has read up to a position, which is the tail or the start of a frame below it.
    pub fn advance(&mut self, subscription: u64, position: u64)
        requires from { ReadsUpTo (position_of self.old.pairs subscription) position }
        requires to { position ≤ self.old.kept.tail }
        ensures { self.new ≡ record self.old { pairs = map (moved_one subscription position) self.old.pairs } }
    {
        self.pairs.advance(subscription, position);
    }

    /// A subscription is polled: it has read the frames from its position on, over the ends of terms, until so many fragments
    /// were given or there are no more. Pads do not count, and one after the last fragment is left. The answer has copies of
    /// the fragments; none where the subscription does not read the log. Each frame is looked at once, and the memory for all
    /// copies is taken at once.
    ///
    /// # Errors
    /// Nothing is changed where there is no memory for the copies.
    pub fn poll_copies(
        &mut self,
        alloc: Global,
        subscription: u64,
        limit: usize,
    ) -> Result<FragmentCopies, AllocError>
        ensures copies { IfOk result (Fetches self.old subscription limit) }
        ensures kept { self.new.kept ≡ self.old.kept }
        ensures sender { self.new.sender ≡ self.old.sender }
        ensures whole { OnOk result (Carries self.old self.new (λ w. (polled w subscription limit).after)) }
        ensures err { OnErr result (self.new ≡ self.old) }
    {
        match self.pair_position(subscription) {
            Some(position) => {
                let (copies, end) = copies_from(&self.appender, alloc, position, limit)?;
                self.advance(subscription, end);
                Ok(copies)
            }
            None => FragmentCopies::new(alloc, 0),
        }
    }

    /// The position up to which the sender has sent: where a frame begins, or the tail. Over UDP it is held, since no offer
    /// goes on further than it allows. A log over IPC has no sender, and the position falls out of what is held.
    pub fn sender_position(&self) -> u64
        ensures value { result ≡ self.now.sender.position }
        ensures within { result ≤ self.now.kept.tail }
        ensures held { self.now.kept.ident.kind ≡ LogKind.Udp → low_of self.now.kept ≤ result }
        ensures start { IsStartIn self.now result }
    {
        self.sender.position()
    }

    /// The sender has sent up to a position, which is the tail or the start of a frame below it.
    pub fn sent(&mut self, position: u64)
        requires from { self.old.sender.position ≤ position }
        requires to { position ≤ self.old.kept.tail }
        ensures exact { self.new ≡ record self.old { sender = record self.old.sender { position = position } } }
        ensures whole { IsStartIn self.old position → Carries self.old self.new (sent_to position) }
    {
        self.sender.sent(position);
    }

    /// A status message came at the moment `now`, in nanoseconds: a receiver has taken all up to a position, and has
    /// room for a window of bytes after it, of which half a term counts at most.
    ///
    /// Beyond the sender's position it is dropped. Else the log may be sent up to the greatest position that any such
    /// message allowed, and is connected.
    pub fn status(&mut self, now: u64, position: u64, window: u32) -> Status
        ensures answer { result ≡ status_of self.old.sender position (min window (self.old.kept.ident.term_length / 2)) }
        ensures after { self.new ≡ record self.old { sender = after_status result now self.old.sender } }
        ensures whole { Carries self.old self.new (heard now position window) }
    {
        let half = self.appender.ident().term_length / 2;
        self.sender.status(now, position, window.min(half))
    }

    /// A SETUP is asked for, whether the log is connected or not.
    pub fn elicit(&mut self)
        ensures exact { self.new ≡ record self.old { sender = record self.old.sender { elicited = true } } }
        ensures whole { Carries self.old self.new elicited }
    {
        self.sender.elicit();
    }

    /// Whether anybody takes what is sent: over UDP, whether a status message was accepted, and `now` is not past the
    /// timeout since the last one, both in nanoseconds; over IPC, whether there is a pair.
    #[tactic(auto, unfolding(crate::specs::Log::connected_of))]
    pub fn connected(&self, now: u64, timeout: u64) -> bool
        ensures { result ≡ connected_of self.now now timeout }
    {
        match self.appender.ident().kind {
            LogKind::Udp => self.sender.is_heard(now, timeout),
            LogKind::Ipc => !self.pairs.as_slice().is_empty(),
        }
    }

    /// Whether the next datagram is a SETUP: one was asked for, or the log is not connected and `now` is past the
    /// interval since the last SETUP, or there was none. Moments are in nanoseconds.
    pub fn setup_due(&self, now: u64, timeout: u64, interval: u64) -> bool
        ensures { result ≡ is_setup_due self.now.sender (connected_of self.now now timeout) now interval }
    {
        let connected = self.connected(now, timeout);
        self.sender.setup_due(connected, now, interval)
    }

    /// A SETUP was cut at the moment `now`, in nanoseconds, whoever got it. It answers all that asked for one.
    pub fn setup_sent(&mut self, now: u64)
        ensures exact { self.new ≡ record self.old { sender = after_setup now self.old.sender } }
        ensures whole { Carries self.old self.new (setup_cut now) }
    {
        self.sender.setup_sent(now);
    }

    /// Whether a heartbeat is due where there is nothing else to send: `now` is past the interval since the last datagram
    /// of any kind, or there was none. Moments are in nanoseconds.
    pub fn heartbeat_due(&self, now: u64, interval: u64) -> bool
        ensures { result ≡ is_past now self.now.sender.datagram interval }
    {
        self.sender.heartbeat_due(now, interval)
    }

    /// A datagram of frames, or a heartbeat, was cut at the moment `now`, in nanoseconds, whoever got it.
    pub fn datagram_sent(&mut self, now: u64)
        ensures exact { self.new ≡ record self.old {
          sender = record self.old.sender { datagram = later_of self.old.sender.datagram now };
        } }
        ensures whole { Carries self.old self.new (datagram_cut now) }
    {
        self.sender.datagram_sent(now);
    }

    /// How many bytes the next datagram of frames may have, where a pad counts as its header alone: no more than the MTU,
    /// and than the sender may still send.
    pub fn send_budget(&self) -> u32
        ensures { result ≡ budget_of self.now.sender self.now.kept.ident.mtu }
    {
        self.sender.budget(self.appender.ident().mtu)
    }

    /// The lease, whose bytes are what they are: its arena takes it back.
    pub fn close(self) -> Lease
        ensures home { lease_home result ≡ self.kept.buffers.home }
        ensures place { lease_place result ≡ self.kept.buffers.place }
        ensures len { lease_len result ≡ 3 * self.kept.buffers.term_length }
    {
        self.appender.into_lease()
    }
}
