//! Streams that the rules of a policy hold alike.

ghost use Rattle.policy_tools.specs.Alike.{AllEndAt, EndsAt, IsLeast};
ghost use Rattle.std.specs.Prelude.{◌≤ℤ◌};

use policy_core::Rule;

/// The lesser of two streams.
fn least(one: i32, other: i32) -> i32
    ensures { IsLeast one other result }
{
    if one < other { one } else { other }
}

/// The stream up to which, from `low` on and not beyond `high`, the rule's range holds every stream or none.
fn end_of(rule: &Rule, low: i32, high: i32) -> i32
    requires { low ≤ℤ high }
    ensures { EndsAt rule.now low high result }
{
    if low < rule.low {
        return least(rule.low - 1, high);
    }
    if low <= rule.high {
        return least(rule.high, high);
    }
    high
}

/// The stream up to which the ranges of all rules do.
pub(crate) fn end_of_all(rules: &[Rule], low: i32, high: i32) -> i32
    requires { low ≤ℤ high }
    ensures { AllEndAt rules.now low high result }
{
    let mut end = high;
    for rule in rules {
        end = end_of(rule, low, end);
    }
    end
}
