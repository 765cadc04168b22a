ghost use Rattle.frame_codec.specs.Frames.{frames_left};
ghost use Rattle.log_arena.specs.Lease.{lease_home, lease_len, lease_place};
ghost use Rattle.log_traffic.specs.Held.{AreFor, Lies, is_silent_held, joined_held, left_held, made_held, messages_held, pairs_held, place_held, position_held, reach_held, rejoined_held};
ghost use Rattle.log_traffic.specs.Layout.{HasLayout};
ghost use Rattle.log_traffic.specs.Whole.{Carries, Counts, Fetches, Words, beaten, joined, left, polled, received, rejoined};
ghost use Rattle.std.specs.Prelude.{◌≡◌, ◌*◌, ◌<◌, ◌≤◌, IfOk, OnErr, OnOk, length};

use crate::receiving::{receive, receive_beat};
use byte_strings::Items;
use frame_codec::{Frames, TermPlace};
use image_log::{ImageLog, Insert};
use log_arena::Lease;
use log_pairs::FragmentCopies;
use std::alloc::{AllocError, Global};
use term_log::TermLog;

/// A log of either kind.
#[derive(Drop)]
pub enum AnyLog {
    /// That of a publication, which takes messages.
    Term(TermLog),
    /// That of a remote stream, which is rebuilt from the frames that come.
    Image(ImageLog),
}

impl AnyLog {
    /// What always holds: no two frames meet, each names the log's session and stream, beside them are zeros, and each reader
    /// stands where a frame begins, or as far as the log reaches.
    pub fn holds(&self)
        ensures { HasLayout self.now }
    {
        match self {
            AnyLog::Term(log) => log.holds(),
            AnyLog::Image(log) => log.holds(),
        }
    }

    /// How far the log reaches: the position after the last frame of a publication, or up to which a remote stream is
    /// whole.
    pub fn reach(&self) -> u64
        ensures { result ≡ reach_held self.now }
    {
        match self {
            AnyLog::Term(log) => log.tail(),
            AnyLog::Image(log) => log.contiguous(),
        }
    }

    /// How many messages were appended: none to the log of a remote stream.
    pub fn messages(&self) -> u64
        ensures held { result ≡ messages_held self.now }
        ensures whole { Counts self.now result }
    {
        match self {
            AnyLog::Term(log) => log.messages(),
            AnyLog::Image(_) => 0,
        }
    }

    /// Whether it is the log of a remote stream whose sender was not heard for longer than `limit` nanoseconds.
    pub fn is_silent(&self, now: u64, limit: u64) -> bool
        ensures { result ≡ is_silent_held self.now now limit }
    {
        match self {
            AnyLog::Term(_) => false,
            AnyLog::Image(log) => log.silent(now, limit),
        }
    }

    /// How far a subscription has read, if it reads the log.
    pub fn pair_position(&self, subscription: u64) -> Option<u64>
        ensures { result ≡ position_held self.now subscription }
    {
        match self {
            AnyLog::Term(log) => log.pair_position(subscription),
            AnyLog::Image(log) => log.pair_position(subscription),
        }
    }

    /// A subscription reads the log from now on, from as far as the log reaches: that position is given back.
    pub fn join(&mut self, subscription: u64) -> u64
        requires { length (pairs_held self.old) < 512 }
        ensures position { result ≡ reach_held self.old }
        ensures exact { self.new ≡ joined_held subscription self.old }
        ensures whole { Carries self.old self.new (joined subscription) }
    {
        match self {
            AnyLog::Term(log) => log.join_pair(subscription),
            AnyLog::Image(log) => log.join_pair(subscription),
        }
    }

    /// A subscription reads the log no longer.
    pub fn leave(&mut self, subscription: u64)
        ensures exact { self.new ≡ left_held subscription self.old }
        ensures whole { Carries self.old self.new (left subscription) }
    {
        match self {
            AnyLog::Term(log) => log.leave_pair(subscription),
            AnyLog::Image(log) => log.leave_pair(subscription),
        }
    }

    /// Exactly these subscriptions read the log from now on: one that read it before from where it is, a new one from as far
    /// as the log reaches. All others read it no longer.
    pub fn rejoin(&mut self, subscriptions: &[u64])
        requires { length subscriptions.now ≤ 512 }
        ensures { self.new ≡ rejoined_held subscriptions.now self.old }
    {
        match self {
            AnyLog::Term(log) => log.rejoin(subscriptions),
            AnyLog::Image(log) => log.rejoin(subscriptions),
        }
    }

    /// A subscription is polled: it has read the frames from its position on, until so many fragments were given or there
    /// are no more. Pads do not count, and one after the last fragment is left. The answer has copies of the fragments; none
    /// where it does not read the log. Each frame is looked at once, and the memory for all copies is taken at once.
    ///
    /// # Errors
    /// Nothing is changed where there is no memory for the copies.
    pub fn poll(
        &mut self,
        alloc: Global,
        subscription: u64,
        limit: usize,
    ) -> Result<FragmentCopies, AllocError>
        ensures fetches { IfOk result (λ fragments. Fetches self.old subscription limit fragments) }
        ensures whole { OnOk result (Carries self.old self.new (λ w. (polled w subscription limit).after)) }
        ensures lies { Lies self.old self.new }
        ensures err { OnErr result (self.new ≡ self.old) }
    {
        match self {
            AnyLog::Term(log) => Ok(log.poll_copies(alloc, subscription, limit)?),
            AnyLog::Image(log) => Ok(log.poll_copies(alloc, subscription, limit)?),
        }
    }

    /// A datagram of data frames and pads of the stream came at a moment, in nanoseconds: each frame is handed in, and its
    /// sender was heard. The answer is what became of each frame, in order. The log of a publication takes none.
    ///
    /// # Errors
    /// Without memory for the words nothing is changed.
    #[inline(always)]
    pub fn receive(
        &mut self,
        alloc: Global,
        now: u64,
        frames: Frames<'_>,
    ) -> Result<Items<Insert>, AllocError>
        requires { AreFor (made_held self.old) (frames_left frames) }
        ensures words { IfOk result (λ words. Words self.old (frames_left frames.entry) words) }
        ensures whole { OnOk result (Carries self.old self.new (received now (frames_left frames.entry))) }
        ensures lies { Lies self.old self.new }
        ensures err { OnErr result (self.new ≡ self.old) }
    {
        match self {
            AnyLog::Term(_) => Ok(Items::new(alloc)),
            AnyLog::Image(log) => Ok(Items::from(receive(log, alloc, now, frames)?)),
        }
    }

    /// A heartbeat of the stream came at a moment, in nanoseconds, and says where its sender is. The log of a publication
    /// takes none.
    pub fn receive_beat(&mut self, now: u64, place: &TermPlace)
        ensures whole { Carries self.old self.new (beaten now place.now) }
        ensures lies { Lies self.old self.new }
    {
        match self {
            AnyLog::Term(_) => {}
            AnyLog::Image(log) => receive_beat(log, now, place),
        }
    }

    /// The lease, for its arena to take back.
    pub fn close(self) -> Lease
        ensures home { lease_home result ≡ (place_held self).home }
        ensures place { lease_place result ≡ (place_held self).place }
        ensures len { lease_len result ≡ 3 * (place_held self).term_length }
    {
        match self {
            AnyLog::Term(log) => log.close(),
            AnyLog::Image(log) => log.close(),
        }
    }
}
