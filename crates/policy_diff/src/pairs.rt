ghost use Rattle.policy_diff.specs.Diff.{IsDecider, all_pairs, is_pair, is_within, meet, reach_from, pairs_from, rule_of, word_of};
ghost use Rattle.std.specs.Prelude.{◌≡◌, ◌++◌, ◌∷◌, [], IfOk, OnOk, filter, length, map};
ghost use Rattle.policy_diff.specs.Reach.{reach_of};

use crate::reach::{Reach, is_upto, reaches_of};
use policy_core::Policy;
use policy_tools::{WrittenPolicy, may_meet};
use std::alloc::{AllocError, Global};

/// What decides in an old policy and what in a new one: the place of a rule, counted from 0, or `None` for the default.
#[derive(Clone, Copy, Debug, PartialEq, Eq)]
pub struct Deciders {
    pub old: Option<usize>,
    pub new: Option<usize>,
}

/// The word of what decides.
pub(crate) fn word_of(policy: &Policy, decider: Option<usize>) -> bool
    ensures { result ≡ word_of policy.now decider }
{
    let rules = policy.rules();
    match decider {
        Some(at) => at < rules.len() && rules[at].allow,
        None => policy.default_allows(),
    }
}

/// Whether the two of a row stand where the requests of a rule may be decided.
fn is_within(row: Deciders, reach: Reach) -> bool
    ensures { result ≡ is_within row reach }
{
    is_upto(row.old, reach.old) && is_upto(row.new, reach.new)
}

/// Whether some request may match the two rules of a row; the default may meet each.
fn meet(old: &WrittenPolicy, new: &WrittenPolicy, row: Deciders) -> bool
    requires old_decider { IsDecider old.now.policy row.old }
    requires new_decider { IsDecider new.now.policy row.new }
    ensures { result ≡ meet old.now.policy new.now.policy row }
{
    let Some(at) = row.old else {
        return true;
    };
    match row.new {
        Some(other) => may_meet(old.text(at), &old.rules()[at], &new.rules()[other]),
        None => true,
    }
}

/// Whether it is a row, where the reaches of its two are known.
fn is_pair(
    old: &WrittenPolicy,
    new: &WrittenPolicy,
    row: Deciders,
    one: Reach,
    other: Reach,
) -> bool
    requires old_decider { IsDecider old.now.policy row.old }
    requires new_decider { IsDecider new.now.policy row.new }
    requires old_reach { one ≡ reach_from old.now.policy new.now.policy (rule_of old.now.policy row.old) }
    requires new_reach { other ≡ reach_from old.now.policy new.now.policy (rule_of new.now.policy row.new) }
    ensures { result ≡ is_pair old.now.policy new.now.policy row }
{
    if word_of(old.policy(), row.old) == word_of(new.policy(), row.new) {
        return false;
    }
    is_within(row, one) && is_within(row, other) && meet(old, new, row)
}

/// Adds a row, if it is one.
fn push_row(
    old: &WrittenPolicy,
    new: &WrittenPolicy,
    row: Deciders,
    reaches: (Reach, Reach),
    rows: &mut Vec<Deciders>,
) -> Result<(), AllocError>
    requires old_decider { IsDecider old.now.policy row.old }
    requires new_decider { IsDecider new.now.policy row.new }
    requires old_reach { reaches.0 ≡ reach_from old.now.policy new.now.policy (rule_of old.now.policy row.old) }
    requires new_reach { reaches.1 ≡ reach_from old.now.policy new.now.policy (rule_of new.now.policy row.new) }
    ensures { OnOk result (rows.new.items ≡ rows.old.items ++ filter (is_pair old.now.policy new.now.policy) (row ∷ [])) }
{
    if is_pair(old, new, row, reaches.0, reaches.1) {
        rows.push(row)?;
    }
    Ok(())
}

/// Adds the rows of what decides in the old policy.
fn push_rows(
    old: &WrittenPolicy,
    new: &WrittenPolicy,
    decider: Option<usize>,
    reach: Reach,
    reaches: &[Reach],
    rows: &mut Vec<Deciders>,
) -> Result<(), AllocError>
    requires old_decider { IsDecider old.now.policy decider }
    requires old_reach { reach ≡ reach_from old.now.policy new.now.policy (rule_of old.now.policy decider) }
    requires new_reaches { reaches.now ≡ map (reach_of old.now.policy new.now.policy) new.now.policy.rules }
    ensures { OnOk result (rows.new.items ≡ rows.old.items ++ pairs_from old.now.policy new.now.policy decider) }
{
    for at in 0..reaches.len() {
        let row = Deciders {
            old: decider,
            new: Some(at),
        };
        push_row(old, new, row, (reach, reaches[at]), rows)?;
    }
    let last = Deciders {
        old: decider,
        new: None,
    };
    push_row(old, new, last, (reach, Reach::ALL), rows)
}

/// Adds the rows of each rule of the old policy, and of its default.
fn push_all(
    old: &WrittenPolicy,
    new: &WrittenPolicy,
    old_reaches: &[Reach],
    new_reaches: &[Reach],
    rows: &mut Vec<Deciders>,
) -> Result<(), AllocError>
    requires of_old { old_reaches.now ≡ map (reach_of old.now.policy new.now.policy) old.now.policy.rules }
    requires of_new { new_reaches.now ≡ map (reach_of old.now.policy new.now.policy) new.now.policy.rules }
    ensures { OnOk result (rows.new.items ≡ rows.old.items ++ all_pairs old.now.policy new.now.policy) }
{
    for at in 0..old_reaches.len() {
        push_rows(old, new, Some(at), old_reaches[at], new_reaches, rows)?;
    }
    push_rows(old, new, None, Reach::ALL, new_reaches, rows)
}

/// All pairs of what decides in the old policy and in the new one, with different words, of which some request may be decided by
/// the one and by the other. They stand in the order of the old policy's rules, and under each in that of the new one's; the
/// default is the last one.
pub(crate) fn pairs_of(
    alloc: Global,
    old: &WrittenPolicy,
    new: &WrittenPolicy,
) -> Result<Vec<Deciders>, AllocError>
    ensures { IfOk result (λ pairs. pairs.items ≡ all_pairs old.now.policy new.now.policy) }
{
    let old_reaches = reaches_of(alloc, old, new, old.rules())?;
    let new_reaches = reaches_of(alloc, old, new, new.rules())?;
    let mut rows = Vec::new(alloc);
    push_all(
        old,
        new,
        old_reaches.as_slice(),
        new_reaches.as_slice(),
        &mut rows,
    )?;
    Ok(rows)
}
