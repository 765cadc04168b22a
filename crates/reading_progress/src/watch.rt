//! All that is remembered of how a client goes on.

ghost use Rattle.reading_progress.specs.Pairs.{pair_at};
ghost use Rattle.reading_progress.specs.Watches.{IsTold, after_all, after_reply_to, after_seen, after_subscribing, is_due, is_left_behind, new_watch, without_pair};
ghost use Rattle.std.specs.Prelude.{◌≡◌};

use crate::pairs::{self, Pair};
use crate::posts::Post;
use std::alloc::{AllocError, Global};
use std::marker::Model;

/// How often it is looked how far a client has come, in the time that it has to go on.
const LOOKS: u64 = 4;

/// How a client goes on with what it has to read.
#[derive(Drop)]
pub struct Watch {
    /// How long it may have something to read and not go on, if there is a bound.
    longest: Option<u64>,
    /// Whether it ever asked to subscribe.
    subscribed: bool,
    /// What it reads, as far as its replies say.
    pairs: Vec<Pair>,
    post: Post,
    /// When it is looked how far it has come.
    due: u64,
}

impl Model for Watch {
    ghost use Rattle.reading_progress.specs.Watches.{Watching};

    ghost Value = { Watching };

    ghost view = { λ watch. record { longest = watch.longest; subscribed = watch.subscribed; pairs = watch.pairs.items; post = watch.post; due = watch.due } };
}

impl Watch {
    /// Nothing is known yet.
    pub fn new(alloc: Global, longest: Option<u64>) -> Watch
        ensures { result ≡ new_watch longest }
    {
        Watch {
            longest,
            subscribed: false,
            pairs: Vec::new(alloc),
            post: Post::new(),
            due: 0,
        }
    }

    /// It asked to subscribe.
    pub fn subscribes(&mut self)
        ensures { self.new ≡ after_subscribing self.old }
    {
        self.subscribed = true;
    }

    /// A reply came to it, when so many had been lost.
    pub fn replied(&mut self, lost: u64)
        ensures { self.new ≡ after_reply_to lost self.old }
    {
        self.post = self.post.came(lost);
    }

    /// A subscription reads a source.
    ///
    /// # Errors
    /// No memory. Then it is as before.
    pub fn reads(&mut self, subscription: u64, source: u64) -> Result<(), AllocError>
        ensures { IsTold subscription source self.old self.new result }
    {
        pairs::add(&mut self.pairs, subscription, source)
    }

    /// Whether it is to be looked now how far it has come: some times in the time that it has.
    pub fn is_due(&self, now: u64) -> bool
        ensures { result ≡ is_due now self.now }
    {
        self.subscribed && self.longest.is_some() && now >= self.due
    }

    /// The pair in that place.
    pub fn pair(&self, place: usize) -> Option<Pair>
        ensures { result ≡ pair_at place self.now.pairs }
    {
        pairs::at(self.pairs.as_slice(), place)
    }

    /// That subscription is seen at that position of that source, which is there up to the other one.
    pub fn seen(&mut self, subscription: u64, source: u64, now: u64, position: u64, received: u64)
        ensures { self.new ≡ after_seen subscription source now position received self.old }
    {
        pairs::see(
            self.pairs.as_mut_slice(),
            subscription,
            source,
            now,
            position,
            received,
        );
    }

    /// That subscription reads that source no more.
    pub fn ended(&mut self, subscription: u64, source: u64)
        ensures { self.new ≡ without_pair subscription source self.old }
    {
        pairs::forget(&mut self.pairs, subscription, source);
    }

    /// It was looked at all that it reads; as many of its replies are kept as there is room for, or not. Whether it does not go on
    /// for too long.
    pub fn settle(&mut self, now: u64, is_full: bool) -> bool
        ensures watch { self.new ≡ after_all now is_full self.old }
        ensures left { result ≡ is_left_behind now self.new }
    {
        let Some(longest) = self.longest else {
            return false;
        };
        self.due = now.saturating_add(longest / LOOKS);
        self.post = self.post.seen(now, is_full);
        self.post.is_left(now, longest) || pairs::is_any_stuck(self.pairs.as_slice(), now, longest)
    }
}
