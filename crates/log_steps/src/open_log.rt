ghost use Rattle.log_steps.specs.Held.{LiesAsBefore};
ghost use Rattle.log_steps.specs.Idents.{heard_at};
ghost use Rattle.log_steps.specs.Recovery.{recovering};
ghost use Rattle.image_log.specs.Log.{log_in};
ghost use Rattle.image_log.specs.Rebuilt.{opened as image_opened};
ghost use Rattle.image_log.specs.Stored.{held_of};
ghost use Rattle.learnt_addresses.specs.Laws.{AreOrderly};
ghost use Rattle.log_arena.specs.Lease.{lease_bytes, lease_home, lease_len, lease_place};
ghost use Rattle.log_traffic.specs.declared.any_log.AnyLog.TheVariants.{Term, Image as ImageOf};
ghost use Rattle.log_traffic.specs.Held.{is_silent_held, joined_held, left_held, messages_held, pairs_held, place_held, reach_held, rejoined_held};
ghost use Rattle.log_traffic.specs.Layout.{HasLayout};
ghost use Rattle.log_traffic.specs.Whole.{Carries, Counts, HasWhole, StandsFor, joined, left, rebuilt, rejoined, whole};
ghost use Rattle.std.specs.Prelude.{◌≡◌, ◌*◌, ◌%◌, ◌^◌, ◌<◌, ◌≤◌, [], length, replicate};
ghost use Rattle.term_log.specs.Ident.{IsIdent};
ghost use Rattle.term_log.specs.Kept.{opened};
ghost use Rattle.term_log.specs.Sender.{sending};
ghost use Rattle.term_log.specs.Whole.{fresh};

use crate::recovery::Recovery;
use driver_core::Settings;
use image_log::{ImageLog, ImageRoom};
use log_arena::Lease;
use log_traffic::AnyLog;
use std::marker::Model;
use term_log::{Ident, LogRoom, TermLog};

/// An open log, with the number by which its source is known and what is kept to repair what was lost: a value of its own, so
/// that whoever has it may take a step on it.
///
/// What is held of it always stands for some whole log. So what the steps say of each such log is said of one at least.
#[derive(Drop)]
pub struct OpenLog {
    pub(crate) source: u64,
    pub(crate) log: AnyLog,
    /// What is kept beside it to repair what was lost.
    pub(crate) recovery: Recovery,
}

impl Model for OpenLog {
    ghost use Rattle.log_steps.specs.Held.{HeldLog};
    ghost use Rattle.log_traffic.specs.Whole.{HasWhole};

    ghost Value = { HeldLog };

    ghost view = { λ held. record { source = held.source; log = held.log; recovery = held.recovery } };

    ghost invariant = { λ held. HasWhole held.log };
}

impl OpenLog {
    /// The log of a publication, without frames, in a fresh lease of three terms and in memory that was taken before.
    pub fn of_publication(
        memory: LogRoom,
        lease: Lease,
        source: u64,
        ident: Ident,
        settings: Settings,
    ) -> OpenLog
        requires ident { IsIdent ident }
        requires len { lease_len lease ≡ 3 * ident.term_length }
        requires zeros { lease_bytes lease ≡ replicate (3 * ident.term_length) 0 }
        ensures exact { result ≡ record {
          source = source;
          log = Term (record { kept = opened lease ident; pairs = []; sender = sending ident.start });
          recovery = recovering settings;
        } }
        ensures stands { StandsFor result.log (whole (fresh ident)) }
    {
        OpenLog {
            source,
            log: AnyLog::Term(TermLog::open(memory, lease, ident)),
            recovery: Recovery::new(settings),
        }
    }

    /// The log of a remote stream, without frames, which joins at that position, and whose sender is heard at the moment `now`
    /// in nanoseconds, in a lease of three terms, all zeros, and in memory that was taken before.
    pub fn of_image(
        memory: ImageRoom,
        lease: Lease,
        source: u64,
        ident: image_log::Ident,
        join: u64,
        now: u64,
        settings: Settings,
    ) -> OpenLog
        requires memory { memory ≡ lease_len lease }
        requires terms { (65536 ≤ ident.term_length) × (ident.term_length ≤ 16777216) }
        requires len { lease_len lease ≡ 3 * ident.term_length }
        requires zeros { lease_bytes lease ≡ replicate (3 * ident.term_length) 0 }
        requires join { (join % 32 ≡ 0) × (join < ident.term_length * 2 ^ 31) }
        ensures exact { result ≡ record {
          source = source;
          log = ImageOf (log_in (held_of lease) (heard_at now (image_opened ident join)));
          recovery = recovering settings;
        } }
        ensures stands { StandsFor result.log (rebuilt (heard_at now (image_opened ident join))) }
    {
        let mut log = ImageLog::open(memory, lease, ident, join);
        log.heard(now);
        OpenLog {
            source,
            log: AnyLog::Image(log),
            recovery: Recovery::new(settings),
        }
    }

    /// That what is held stands for some whole log, and that no two of its frames meet, each names its session and stream, beside
    /// them are zeros, and each reader stands where a frame begins, or as far as the log reaches.
    pub fn has_whole(&self)
        ensures whole { HasWhole self.now.log }
        ensures layout { HasLayout self.now.log }
    {
        self.log.holds();
    }

    /// That the log has learnt no address twice, and 32 at most.
    pub fn learns_orderly(&self)
        ensures { AreOrderly self.now.recovery.learnt }
    {
        let _ = self.recovery.learnt.destinations();
    }

    /// The number by which the log is known: that of its publication or image.
    pub fn source(&self) -> u64
        ensures { result ≡ self.now.source }
    {
        self.source
    }

    /// How far the log reaches: the position after the last frame of a publication, or up to which a remote stream is whole.
    pub fn reach(&self) -> u64
        ensures { result ≡ reach_held self.now.log }
    {
        self.log.reach()
    }

    /// Whether it is the log of a remote stream whose sender was not heard for longer than `limit` nanoseconds.
    pub fn is_silent(&self, now: u64, limit: u64) -> bool
        ensures { result ≡ is_silent_held self.now.log now limit }
    {
        self.log.is_silent(now, limit)
    }

    /// How many messages were appended: none to the log of a remote stream.
    pub fn messages(&self) -> u64
        ensures held { result ≡ messages_held self.now.log }
        ensures whole { Counts self.now.log result }
    {
        self.log.messages()
    }

    /// A subscription reads the log from now on, from as far as the log reaches: that position is given back.
    pub fn join(&mut self, subscription: u64) -> u64
        requires { length (pairs_held self.old.log) < 512 }
        ensures position { result ≡ reach_held self.old.log }
        ensures exact { self.new ≡ record self.old { log = joined_held subscription self.old.log } }
        ensures whole { Carries self.old.log self.new.log (joined subscription) }
        ensures lies { LiesAsBefore self.old self.new }
    {
        self.log.join(subscription)
    }

    /// A subscription reads the log no longer.
    pub fn leave(&mut self, subscription: u64)
        ensures exact { self.new ≡ record self.old { log = left_held subscription self.old.log } }
        ensures whole { Carries self.old.log self.new.log (left subscription) }
        ensures lies { LiesAsBefore self.old self.new }
    {
        self.log.leave(subscription);
    }

    /// Exactly these subscriptions read the log from now on: one that read it before from where it is, a new one from as far
    /// as the log reaches. All others read it no longer.
    pub fn rejoin(&mut self, subscriptions: &[u64])
        requires { length subscriptions.now ≤ 512 }
        ensures exact { self.new ≡ record self.old { log = rejoined_held subscriptions.now self.old.log } }
        ensures whole { Carries self.old.log self.new.log (rejoined subscriptions.now) }
        ensures lies { LiesAsBefore self.old self.new }
    {
        self.log.rejoin(subscriptions);
    }

    /// The lease, for its arena to take back.
    pub fn close(self) -> Lease
        ensures home { lease_home result ≡ (place_held self.log).home }
        ensures place { lease_place result ≡ (place_held self.log).place }
        ensures len { lease_len result ≡ 3 * (place_held self.log).term_length }
    {
        let OpenLog {
            source: _,
            log,
            recovery: _,
        } = self;
        log.close()
    }
}
