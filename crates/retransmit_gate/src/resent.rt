ghost use Rattle.std.specs.Prelude.{◌≡◌, ◌<◌, ◌≤◌, [], ◌∷◌, ◌++◌, length, nat_le};
ghost use Rattle.retransmit_gate.specs.Gate.{lingering};

use crate::moment::is_past;
use std::marker::Model;

/// How many ranges may linger at once.
pub(crate) const ROOM: usize = 16;

/// A range of positions that was sent again.
#[derive(Clone, Copy, Debug, PartialEq, Eq)]
pub struct Resent {
    /// The first position.
    pub start: u64,
    /// The position after the last one.
    pub end: u64,
    /// When it was sent again, in nanoseconds.
    pub moment: u64,
}

/// A list of at most 16 ranges, in place.
#[derive(Debug, Drop)]
pub(crate) struct ResentList {
    /// The ranges, and after them places without meaning.
    places: [Resent; 16],
    /// How many ranges there are.
    len: usize,
}

impl Model for ResentList {
    ghost use Rattle.std.specs.Prelude.{◌≤◌, List, take};
    ghost use Rattle.retransmit_gate.specs.declared.resent.Resent.{Resent};

    ghost Value = { List Resent };

    ghost view = { λ list. take list.len list.places };

    ghost invariant = { λ list. list.len ≤ 16 };
}

impl ResentList {
    /// A list without a range.
    pub(crate) fn new() -> ResentList
        ensures { result ≡ [] }
    {
        let nothing = Resent {
            start: 0,
            end: 0,
            moment: 0,
        };
        ResentList {
            places: [nothing; 16],
            len: 0,
        }
    }

    /// Another list, equal to this one.
    pub(crate) fn copy(&self) -> ResentList
        ensures { result ≡ self.now }
    {
        ResentList {
            places: self.places,
            len: self.len,
        }
    }

    /// The ranges, in order.
    pub(crate) fn as_slice(&self) -> &[Resent]
        ensures ranges { result.now ≡ self.now }
        ensures room { length self.now ≤ 16 }
    {
        &self.places[..self.len]
    }

    /// Whether there is no room for another range.
    pub(crate) fn is_full(&self) -> bool
        ensures { result ≡ nat_le 16 (length self.now) }
    {
        self.as_slice().len() >= ROOM
    }

    /// Forgets those that were sent again longer ago than the linger. Where that is each of them or none, no place changes.
    pub(crate) fn forget(&mut self, linger: u64, moment: u64)
        ensures { self.new ≡ lingering linger moment self.old }
    {
        let count = self.as_slice().len();
        let left = count_lingering(linger, moment, self.as_slice());
        if left == 0 {
            self.len = 0;
            return;
        }
        if left < count {
            *self = lingering(linger, moment, self.as_slice());
        }
    }

    /// Adds a range at the end.
    pub(crate) fn push(&mut self, resent: Resent)
        requires { length self.old < 16 }
        ensures { self.new ≡ self.old ++ resent ∷ [] }
    {
        self.places[self.len] = resent;
        self.len += 1;
    }
}

/// How many were sent again not longer ago than the linger.
#[tactic(auto, using(crate::proofs::GateLemmas::room_left))]
pub(crate) fn count_lingering(linger: u64, moment: u64, list: &[Resent]) -> usize
    requires { length list.now ≤ 16 }
    ensures { result ≡ length (lingering linger moment list.now) }
{
    let mut count = 0;
    for resent in list {
        if !is_past(moment, resent.moment, linger) {
            count += 1;
        }
    }
    count
}

/// Those that were sent again not longer ago than the linger.
#[tactic(auto, using(crate::proofs::GateLemmas::room_left))]
pub(crate) fn lingering(linger: u64, moment: u64, list: &[Resent]) -> ResentList
    requires { length list.now ≤ 16 }
    ensures { result ≡ lingering linger moment list.now }
{
    let mut kept = ResentList::new();
    for resent in list {
        if !is_past(moment, resent.moment, linger) {
            kept.push(*resent);
        }
    }
    kept
}
