//! Which requests two may decide.

ghost use Rattle.policy_core.specs.Question.{Question};
ghost use Rattle.policy_core.specs.Rule.{matches, speaks_of};
ghost use Rattle.policy_core.specs.RuleList.{Rules};
ghost use Rattle.policy_diff.specs.Deciding.{IsDecidedBy};
ghost use Rattle.policy_diff.specs.Scope.{IsAsker, IsIn, IsStream};
ghost use Rattle.std.specs.Prelude.{◌≡◌, ◌≤ℤ◌, ℕ, ℤ, position, true};

use crate::acts::acts_of_both;
use crate::pairs::Deciders;
use crate::scope::{Asker, Scope};
use policy_core::{Acts, Principals, Rule};
use policy_tools::WrittenPolicy;

/// The greater one of two streams.
fn greater(one: i32, other: i32) -> i32
    ensures { (stream : ℤ) → one ≤ℤ stream → other ≤ℤ stream → result ≤ℤ stream }
{
    if one < other { other } else { one }
}

/// The lesser one.
fn lesser(one: i32, other: i32) -> i32
    ensures { (stream : ℤ) → stream ≤ℤ one → stream ≤ℤ other → stream ≤ℤ result }
{
    if one < other { one } else { other }
}

/// Whom of the asker's principals the rule may speak of.
fn asker_of(principals: Principals, asker: Asker) -> Asker
    ensures { (old : Rules) (new : Rules) (principal : ℕ) → IsAsker old new asker principal → speaks_of principals principal ≡ true → IsAsker old new result principal }
{
    match principals {
        Principals::Any => asker,
        Principals::One(number) => Asker::One(number),
    }
}

/// What is left of a scope where the rule has to match it too.
fn narrowed_by(rule: &Rule, scope: Scope) -> Scope
    ensures { (old : Rules) (new : Rules) (question : Question) → IsIn old new scope question → matches rule.now question ≡ true → IsIn old new result question }
{
    Scope {
        asker: asker_of(rule.principals, scope.asker),
        acts: acts_of_both(scope.acts, rule.acts, true),
        low: greater(scope.low, rule.low),
        high: lesser(scope.high, rule.high),
    }
}

/// What is left of it where what decides has to match it too.
fn narrowed(source: &WrittenPolicy, decider: Option<usize>, scope: Scope) -> Scope
    ensures { (old : Rules) (new : Rules) (question : Question) → IsIn old new scope question → position (λ rule. matches rule question) source.now.policy.rules ≡ decider → IsIn old new result question }
{
    let rules = source.rules();
    let Some(at) = decider else {
        return scope;
    };
    if at >= rules.len() {
        return scope;
    }
    narrowed_by(&rules[at], scope)
}

/// Which requests the two may decide.
pub(crate) fn scope_of(old: &WrittenPolicy, new: &WrittenPolicy, deciders: Deciders) -> Scope
    ensures { (question : Question) → IsStream question.stream → IsDecidedBy old.now.policy new.now.policy question deciders → IsIn old.now.policy new.now.policy result question }
{
    let scope = Scope {
        asker: Asker::Every,
        acts: Acts::every(),
        low: i32::MIN,
        high: i32::MAX,
    };
    narrowed(new, deciders.new, narrowed(old, deciders.old, scope))
}
