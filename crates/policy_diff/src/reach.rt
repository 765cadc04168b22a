//! Where in each policy the requests of a rule are all decided.

ghost use Rattle.policy_diff.specs.Reach.{first_over, is_upto, reach_of};
ghost use Rattle.policy_tools.specs.Sharing.{is_over};
ghost use Rattle.std.specs.Prelude.{◌≡◌, ◌<◌, IfOk, length, map, slice_index_or};

use policy_core::Rule;
use policy_tools::{WrittenPolicy, is_over};
use std::alloc::{AllocError, Global};

/// The first rule of each policy that is over a rule: it, or one before it, decides each request of that rule. The places
/// count from 0; `None` where no rule is over it.
#[derive(Clone, Copy, Debug)]
pub(crate) struct Reach {
    pub(crate) old: Option<usize>,
    pub(crate) new: Option<usize>,
}

impl Reach {
    /// What is known of the default: its requests may be decided anywhere.
    pub(crate) const ALL: Reach = Reach {
        old: None,
        new: None,
    };
}

/// Whether the rule at a place is over that one.
fn is_over_at(source: &WrittenPolicy, at: usize, rule: &Rule) -> bool
    requires { at < length source.now.policy.rules }
    ensures { result ≡ is_over (slice_index_or source.now.policy.rules at rule.now) rule.now }
{
    let wide = &source.rules()[at];
    is_over(source.text(at), wide, rule)
}

/// The place of the first rule that is over that one.
fn first_over(source: &WrittenPolicy, rule: &Rule) -> Option<usize>
    ensures { result ≡ first_over source.now.policy.rules rule.now }
{
    for at in 0..source.rules().len() {
        if is_over_at(source, at, rule) {
            return Some(at);
        }
    }
    None
}

/// The first rule of each policy that is over that one.
fn reach_of(old: &WrittenPolicy, new: &WrittenPolicy, rule: &Rule) -> Reach
    ensures { result ≡ reach_of old.now.policy new.now.policy rule.now }
{
    Reach {
        old: first_over(old, rule),
        new: first_over(new, rule),
    }
}

/// The same of each of these rules.
pub(crate) fn reaches_of(
    alloc: Global,
    old: &WrittenPolicy,
    new: &WrittenPolicy,
    rules: &[Rule],
) -> Result<Vec<Reach>, AllocError>
    ensures { IfOk result (λ reaches. reaches.items ≡ map (reach_of old.now.policy new.now.policy) rules.now) }
{
    let mut reaches = Vec::new(alloc);
    for at in 0..rules.len() {
        reaches.push(reach_of(old, new, &rules[at]))?;
    }
    Ok(reaches)
}

/// Whether what decides stands at that place or before it, where there is one; the default stands after all rules.
pub(crate) fn is_upto(decider: Option<usize>, last: Option<usize>) -> bool
    ensures { result ≡ is_upto decider last }
{
    let Some(last) = last else {
        return true;
    };
    match decider {
        Some(at) => at <= last,
        None => false,
    }
}
