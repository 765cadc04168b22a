ghost use Rattle.compiled_policy.specs.RuleSet.{Adds, AddsWhere, AreEmpty, has};
ghost use Rattle.std.specs.Prelude.{◌≡◌, ◌<◌, ◌≤◌, ◌&&◌, ℕ, length, nat_le, nat_lt, vec_capacity};

use crate::room::refill;

/// Rules of a policy, by their places.
#[derive(Clone, Copy, Debug)]
pub(crate) struct RuleSet {
    /// A bit for each place.
    pub(crate) words: [u64; 16],
}

impl RuleSet {
    pub(crate) fn empty() -> RuleSet
        ensures { (place : ℕ) → has result place ≡ 0 }
    {
        RuleSet { words: [0; 16] }
    }

    /// Puts in the rule at this place.
    pub(crate) fn insert(&mut self, place: usize)
        requires { place < 1024 }
        ensures { Adds self.old self.new place }
    {
        self.words[place / 64] |= 1u64 << (place % 64);
    }
}

/// Becomes so many empty sets, in the room that there is.
pub(crate) fn clear(sets: &mut Vec<RuleSet>, count: usize)
    requires { count ≤ vec_capacity sets.old }
    ensures count { length sets.new.items ≡ count }
    ensures empty { AreEmpty sets.new.items }
    ensures room { vec_capacity sets.old ≤ vec_capacity sets.new }
{
    refill(sets, count, RuleSet::empty());
}

/// Puts the rule at this place into the sets of the rows from `from` to before `to`.
pub(crate) fn insert_into(sets: &mut [RuleSet], from: usize, to: usize, place: usize)
    requires place { place < 1024 }
    requires rows { to ≤ length sets.old }
    ensures { AddsWhere sets.old sets.new (λ row. nat_le from row && nat_lt row to) place }
{
    for row in from..to {
        sets[row].insert(place);
    }
}
