ghost use Rattle.published_registry.specs.Histories.{IsHistory, IsPlannedOn, registry_of};
ghost use Rattle.std.specs.Prelude.{◌≡◌, ◌+◌, ◌<◌, ◌^◌, ◌++◌, ◌∷◌, [], length, IfOk, MatchResult, OnErr};

use crate::begun::Begun;
use crate::copies::Copies;
use crate::receipt::Receipt;
use driver_core::{Entry, Registry};
use std::alloc::AllocError;
use std::marker::Model;
use std::sync::Wait;

/// It alone changes the registry, and shows each change to all who look. It can't be let go: [`Publisher::end`] ends it.
pub struct Publisher {
    /// They are taken out for as long as one entry is committed.
    pub(crate) copies: Option<Copies>,
}

impl Model for Publisher {
    ghost use Rattle.published_registry.specs.Histories.{History, history_in};
    ghost use Rattle.std.specs.Prelude.{IsSome};

    ghost Value = { History };

    ghost view = { λ publisher. history_in publisher.copies };

    ghost invariant = { λ publisher. IsSome publisher.copies };
}

impl Publisher {
    /// The registry after all entries that were committed.
    pub fn newest(&self) -> &Registry
        ensures newest { result.now ≡ registry_of self.now }
        ensures legal { IsHistory self.now }
    {
        match &self.copies {
            Some(copies) => copies.newest(),
            None => unreachable!(),
        }
    }

    /// The number of the newest registry: how many entries were committed.
    pub fn number(&self) -> u64
        ensures { result ≡ length self.now.entries }
    {
        match &self.copies {
            Some(copies) => copies.number(),
            None => unreachable!(),
        }
    }

    /// It names the newest registry: the one that was opened, before the first commit. It takes no memory.
    pub fn receipt(&self) -> Receipt
        ensures { result ≡ record { book = self.now.book; entries = self.now.entries } }
    {
        match &self.copies {
            Some(copies) => copies.receipt(),
            None => unreachable!(),
        }
    }

    /// The first half of a commit: puts an entry that was planned on the newest registry into the history, where it can be
    /// read by [`Begun::newest`]. Readers are not shown it yet.
    ///
    /// # Errors
    /// `AllocError` where there is no memory, with the publisher unchanged. The entry is dropped then.
    pub fn begin(self, entry: Entry) -> Result<Begun, (Publisher, AllocError)>
        requires room { length self.entries + 1 < 2 ^ 64 }
        requires planned { IsPlannedOn (registry_of self) entry }
        ensures { MatchResult result (λ begun. begun ≡ record self { entries = self.entries ++ entry ∷ [] }) (λ back. back.0 ≡ self) }
    {
        let Publisher { copies } = self;
        let Some(copies) = copies else { unreachable!() };
        match copies.begin(entry) {
            Ok(pending) => Ok(Begun { pending }),
            Err(copies) => {
                let publisher = Publisher {
                    copies: Some(copies),
                };
                Err((publisher, AllocError))
            }
        }
    }

    /// Both halves at once: puts an entry that was planned on the newest registry into the history, and shows readers the
    /// registry after it. The receipt names that one. It waits until each look has ended that may still be at the copy that
    /// is changed.
    ///
    /// # Errors
    /// `AllocError` where there is no memory. Nothing is changed then, and the entry is dropped.
    pub fn commit<R: Wait>(&mut self, rt: &R, entry: Entry) -> Result<Receipt, AllocError>
        requires room { length self.old.entries + 1 < 2 ^ 64 }
        requires planned { IsPlannedOn (registry_of self.old) entry }
        ensures published { IfOk result (λ receipt. self.new ≡ record self.old { entries = self.old.entries ++ entry ∷ [] }) }
        ensures receipt { IfOk result (λ receipt. receipt ≡ record { book = self.new.book; entries = self.new.entries }) }
        ensures err { OnErr result (self.new ≡ self.old) }
    {
        let Some(copies) = self.copies.take() else {
            unreachable!()
        };
        let (copies, answer) = copies.commit(rt, entry);
        if let Some(older) = self.copies.replace(copies) {
            drop(older.end(rt));
        }
        answer
    }

    /// Waits until each look has ended that may still be at the older copy. No pass gets a look any more.
    pub fn end<R: Wait>(self, rt: &R) -> Registry
        ensures { result ≡ registry_of self }
    {
        let Publisher { copies } = self;
        match copies {
            Some(copies) => copies.end(rt),
            None => unreachable!(),
        }
    }
}
