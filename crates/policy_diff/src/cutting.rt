//! Where the requests of a pair may be decided by others, and where they are cut.

ghost use Rattle.std.specs.Prelude.{◌≤ℤ◌};

use crate::acts::act_at;
use crate::pairs::Deciders;
use crate::scope::{Scope, may_reach};
use channel_uri::Pattern;
use policy_core::{Act, Acts, Principals, Rule};
use policy_tools::{Relation, WrittenPolicy, patterns_pass};
use std::alloc::{AllocError, Global};

/// Whether the pattern of the rule at a place may cover a channel that the pattern of what decides covers.
fn may_cover(
    source: &WrittenPolicy,
    at: usize,
    of: &WrittenPolicy,
    decider: Option<usize>,
) -> bool {
    if at >= source.rules().len() {
        return false;
    }
    let Some(place) = decider else {
        return true;
    };
    let pattern: &Pattern = &source.rules()[at].channel;
    match of.rules().get(place) {
        Some(rule) => patterns_pass(Relation::Meets, source.text(at), pattern, &rule.channel),
        None => true,
    }
}

/// The places of the rules of a policy before what decides in it that may take requests of the scope from the two.
pub(crate) fn rivals_of(
    alloc: Global,
    source: &WrittenPolicy,
    decider: Option<usize>,
    old: &WrittenPolicy,
    new: &WrittenPolicy,
    deciders: Deciders,
    scope: &Scope,
) -> Result<Vec<usize>, AllocError> {
    let last = decider.unwrap_or(source.rules().len());
    let mut places = Vec::new(alloc);
    for (at, rule) in source.rules().iter().enumerate() {
        if at < last
            && may_reach(rule, scope)
            && may_cover(source, at, old, deciders.old)
            && may_cover(source, at, new, deciders.new)
        {
            places.push(at)?;
        }
    }
    Ok(places)
}

/// The stream up to which, from `low` on and not beyond `high`, the rule's range holds every stream or none.
fn end_of(rule: &Rule, low: i32, high: i32) -> i32
    requires { low ≤ℤ high }
    ensures from { low ≤ℤ result }
    ensures upto { result ≤ℤ high }
{
    if low < rule.low {
        let last = rule.low - 1;
        return if last < high { last } else { high };
    }
    if low <= rule.high && rule.high < high {
        return rule.high;
    }
    high
}

/// The same of the rule at a place, if it may match requests of the scope.
fn end_at(rules: &[Rule], at: usize, scope: &Scope, high: i32) -> i32
    requires { scope.now.low ≤ℤ high }
    ensures from { scope.now.low ≤ℤ result }
    ensures upto { result ≤ℤ high }
{
    match rules.get(at) {
        Some(rule) => {
            let rest = Scope { high, ..*scope };
            if may_reach(rule, &rest) {
                end_of(rule, scope.low, high)
            } else {
                high
            }
        }
        None => high,
    }
}

/// The stream up to which, from the lowest one of the scope on and not beyond `high`, the range of each of the rules at these
/// places holds every stream or none.
pub(crate) fn end_among(rules: &[Rule], places: &[usize], scope: &Scope, high: i32) -> i32
    requires { scope.now.low ≤ℤ high }
    ensures from { scope.now.low ≤ℤ result }
    ensures upto { result ≤ℤ high }
{
    let mut end = high;
    for at in places {
        end = end_at(rules, *at, scope, end);
    }
    end
}

/// Whether each of the rules at these places holds both acts or neither.
pub(crate) fn are_alike(rules: &[Rule], places: &[usize], one: Act, other: Act) -> bool {
    for at in places {
        if let Some(rule) = rules.get(*at)
            && rule.acts.hold(one) != rule.acts.hold(other)
        {
            return false;
        }
    }
    true
}

/// Whom the rules at some places name.
#[derive(Clone, Copy, Debug, PartialEq, Eq)]
pub(crate) enum Naming {
    /// Nobody.
    Nobody,
    /// The principal of this number alone.
    Only(u32),
    /// Several principals.
    Several,
}

impl Naming {
    /// Whom these and one more rule name.
    fn and(self, principals: Principals) -> Naming {
        let Principals::One(number) = principals else {
            return self;
        };
        match self {
            Naming::Nobody => Naming::Only(number),
            Naming::Only(other) if other == number => self,
            _ => Naming::Several,
        }
    }
}

/// Whom those of the rules at these places name that may match requests of the scope, and whom others do.
pub(crate) fn named_with(
    rules: &[Rule],
    places: &[usize],
    scope: &Scope,
    others: Naming,
) -> Naming {
    let mut named = others;
    for at in places {
        if let Some(rule) = rules.get(*at)
            && may_reach(rule, scope)
        {
            named = named.and(rule.principals);
        }
    }
    named
}

/// The acts of these that are like one of them, wherever a rule at these places may take requests.
pub(crate) fn acts_like(
    old: &[Rule],
    old_places: &[usize],
    new: &[Rule],
    new_places: &[usize],
    act: Act,
    left: Acts,
) -> Acts {
    let mut acts = Acts::none();
    for number in 0..14 {
        let other = act_at(number);
        if left.hold(other)
            && are_alike(old, old_places, act, other)
            && are_alike(new, new_places, act, other)
        {
            acts = acts.with(other);
        }
    }
    acts
}
