ghost use Rattle.left_right.specs.Sides.{view};
ghost use Rattle.published_registry.specs.Histories.{IsHistory, IsPlannedOn, Known, registry_of};
ghost use Rattle.published_registry.specs.Rules.{Fits, Sees, after_step};
ghost use Rattle.driver_core.specs.State.{State};
ghost use Rattle.std.specs.Prelude.{◌≡◌, ◌+◌, ◌<◌, ◌^◌, ◌++◌, ◌∷◌, [], drop, length, IfOk, MatchResult, OnErr};

use crate::front::{Front, Head};
use crate::receipt::Receipt;
use crate::rule::{Board, Looks};
use crate::shown::Step;
use driver_core::{Entry, Registry};
use std::alloc::AllocError;
use std::marker::Model;
use std::sync::atomic::{AtomicU64, Ordering};
use std::sync::{Arc, Wait};

// A registry that is shown: the two copies for the readers, one of the publisher's own, and the history that led to them.
pub(crate) struct Copies {
    pub(crate) board: Board,
    pub(crate) newest: Registry,
    pub(crate) front: Front,
    pub(crate) head: Head,
    // The number of the registry that readers are shown.
    pub(crate) shown: Arc<AtomicU64>,
}

impl Model for Copies {
    ghost use Rattle.published_registry.specs.Histories.{History};
    ghost use Rattle.published_registry.specs.Publishers.{Stands};
    ghost use Rattle.std.specs.Prelude.{◌≡◌, [], drop};

    ghost Value = { History };

    ghost view = { λ copies. record { book = copies.front.book; opening = copies.board.desk.place.me.0.client.opening; entries = copies.front.entries } };

    ghost invariant = { λ copies. Stands copies.board.desk.place.me.0.client copies.board.desk.shown.value copies.newest copies.front copies.head
        × (drop copies.board.behind copies.board.log.items ≡ []) };
}

// The same, with an entry that stands in the history and that readers are not shown yet.
pub(crate) struct Pending {
    board: Board,
    newest: Registry,
    front: Front,
    head: Head,
    shown: Arc<AtomicU64>,
    entry: Entry,
}

impl Model for Pending {
    ghost use Rattle.published_registry.specs.Histories.{History};
    ghost use Rattle.published_registry.specs.Publishers.{Waits};
    ghost use Rattle.std.specs.Prelude.{◌≡◌, [], drop};

    ghost Value = { History };

    ghost view = { λ pending. record { book = pending.front.book; opening = pending.board.desk.place.me.0.client.opening; entries = pending.front.entries } };

    ghost invariant = { λ pending. Waits pending.board.desk.place.me.0.client pending.board.desk.shown.value pending.newest pending.front pending.head pending.entry
        × (drop pending.board.behind pending.board.log.items ≡ []) };
}

// Puts a step after those that readers were shown. The list of steps has its room from the beginning, so this does not wait;
// if there were none, it would try again.
fn put<R: Wait>(rt: &R, board: &mut Board, step: Step)
    requires { drop board.old.behind board.old.log.items ≡ [] }
    ensures desk { board.new.desk ≡ board.old.desk }
    ensures pending { drop board.new.behind board.new.log.items ≡ step ∷ [] }
{
    let mut step = step;
    for _ in rt.forever() {
        match board.append(step) {
            Ok(()) => return,
            Err(back) => step = back,
        }
    }
    unreachable!()
}

// Shows readers what the step makes of what they are shown.
fn show<R: Wait>(rt: &R, board: Board, step: Step) -> Board
    requires shown { drop board.behind board.log.items ≡ [] }
    requires keeps { (opening : State) (front : Known) → Fits opening front board.desk.shown.value → Fits opening front (after_step board.desk.shown.value step) }
    ensures value { result.desk.shown.value ≡ after_step board.desk.shown.value step }
    ensures shown { drop result.behind result.log.items ≡ [] }
    ensures sees { Sees (view board.desk.place) board.desk.shown.value result.desk.shown.value (view result.desk.place) }
{
    let mut board = board;
    put(rt, &mut board, step);
    let (board, published) = board.publish_as::<Looks, R>(rt);
    match published {
        Ok(()) => board,
        Err(_) => unreachable!(),
    }
}

impl Pending {
    // The registry after all entries, the one that readers are not shown yet among them.
    pub(crate) fn newest(&self) -> &Registry
        ensures newest { result.now ≡ registry_of self.now }
        ensures legal { IsHistory self.now }
    {
        &self.newest
    }

    // How many entries there are.
    pub(crate) fn number(&self) -> u64
        ensures { result ≡ length self.now.entries }
    {
        self.front.count()
    }

    // Shows readers the registry. The receipt names it.
    pub(crate) fn show<R: Wait>(self, rt: &R) -> (Copies, Receipt)
        ensures copies { result.0 ≡ self }
        ensures receipt { result.1 ≡ record { book = self.book; entries = self.entries } }
    {
        let Pending {
            board,
            newest,
            front,
            head,
            shown,
            entry,
        } = self;
        // Before any reader can see it: so whoever has seen it finds no pass at an earlier one to be at the newest.
        shown.store(front.count(), Ordering::SeqCst);
        let board = show(rt, board, Step::Takes(entry, front.again()));
        let receipt = Receipt {
            front: front.again(),
        };
        let copies = Copies {
            board,
            newest,
            front,
            head,
            shown,
        };
        (copies, receipt)
    }
}

impl Copies {
    // The registry after all entries.
    pub(crate) fn newest(&self) -> &Registry
        ensures newest { result.now ≡ registry_of self.now }
        ensures legal { IsHistory self.now }
    {
        &self.newest
    }

    // How many entries there are.
    pub(crate) fn number(&self) -> u64
        ensures { result ≡ length self.now.entries }
    {
        self.front.count()
    }

    // It names the newest registry.
    pub(crate) fn receipt(&self) -> Receipt
        ensures { result ≡ record { book = self.now.book; entries = self.now.entries } }
    {
        Receipt {
            front: self.front.again(),
        }
    }

    // Puts an entry into the history, and does it to the publisher's own registry. Readers are not shown it yet. The copies
    // come back unchanged where the entry can't be put there.
    pub(crate) fn begin(self, entry: Entry) -> Result<Pending, Copies>
        requires room { length self.entries + 1 < 2 ^ 64 }
        requires planned { IsPlannedOn (registry_of self) entry }
        ensures { MatchResult result (λ pending. pending ≡ record self { entries = self.entries ++ entry ∷ [] }) (λ copies. copies ≡ self) }
    {
        let mut front = self.front.again();
        if !front.add(&self.head, &entry) {
            return Err(self);
        }
        let Copies {
            board,
            mut newest,
            front: _,
            head,
            shown,
        } = self;
        newest.apply(&entry);
        Ok(Pending {
            board,
            newest,
            front,
            head,
            shown,
            entry,
        })
    }

    // Puts an entry into the history, and shows readers the registry after it.
    pub(crate) fn commit<R: Wait>(
        self,
        rt: &R,
        entry: Entry,
    ) -> (Copies, Result<Receipt, AllocError>)
        requires room { length self.entries + 1 < 2 ^ 64 }
        requires planned { IsPlannedOn (registry_of self) entry }
        ensures published { IfOk result.1 (λ receipt. result.0 ≡ record self { entries = self.entries ++ entry ∷ [] }) }
        ensures receipt { IfOk result.1 (λ receipt. receipt ≡ record { book = result.0.book; entries = result.0.entries }) }
        ensures err { OnErr result.1 (result.0 ≡ self) }
    {
        match self.begin(entry) {
            Ok(pending) => {
                let (copies, receipt) = pending.show(rt);
                (copies, Ok(receipt))
            }
            Err(copies) => (copies, Err(AllocError)),
        }
    }

    // Waits until each look at the older copy has ended, and shows no registry any more.
    pub(crate) fn end<R: Wait>(self, rt: &R) -> Registry
        ensures { result ≡ registry_of self }
    {
        let Copies {
            board,
            newest,
            front: _,
            head: _,
            shown: _,
        } = self;
        drop(board.take(rt));
        newest
    }
}
