//! Rules that take each request of a scope from those that come after them.

ghost use Rattle.channel_uri.specs.Channel.{Shape};
ghost use Rattle.channel_uri.specs.Pattern.{covers, pattern_of};
ghost use Rattle.policy_diff.specs.Deciding.{IsBefore, IsCovered, IsTaken, Takes};
ghost use Rattle.std.specs.Prelude.{◌≡◌, Ok, true};

use crate::pairs::Deciders;
use crate::scope::{Scope, reaches_each};
use channel_uri::Pattern;
use policy_core::Rule;
use policy_tools::{WrittenPolicy, is_wider};

/// Whether the pattern is `*`.
fn is_any(pattern: &Pattern) -> bool
    ensures { result ≡ true → (channel : Shape) → covers pattern.now channel ≡ true }
{
    match pattern {
        Pattern::Any => true,
        Pattern::Of(_media, _keys) => false,
    }
}

/// Whether the pattern, which has that text, is found to cover each channel that the pattern of what decides covers.
fn covers_all_of(text: &str, wide: &Pattern, source: &WrittenPolicy, decider: Option<usize>) -> bool
    requires { pattern_of text.now ≡ Ok wide.now }
    ensures { result ≡ true → (channel : Shape) → IsCovered source.now.policy decider channel → covers wide.now channel ≡ true }
{
    let rules = source.rules();
    match decider {
        Some(at) => at < rules.len() && is_wider(text, wide, &rules[at].channel),
        None => is_any(wide),
    }
}

/// Whether the rule, whose pattern has that text, is found to match each request of the scope that the two may decide.
fn takes(
    text: &str,
    rule: &Rule,
    old: &WrittenPolicy,
    new: &WrittenPolicy,
    deciders: Deciders,
    scope: &Scope,
) -> bool
    requires { pattern_of text.now ≡ Ok rule.now.channel }
    ensures { result ≡ true → Takes old.now.policy new.now.policy deciders scope.now rule.now }
{
    reaches_each(rule, scope)
        && (covers_all_of(text, &rule.channel, old, deciders.old)
            || covers_all_of(text, &rule.channel, new, deciders.new))
}

/// Whether the place is before what decides.
fn is_before(at: usize, decider: Option<usize>) -> bool
    ensures { result ≡ true → IsBefore at decider }
{
    match decider {
        Some(decider) => at < decider,
        None => true,
    }
}

/// Whether the rule at that place of a policy is before what decides in it, and takes each request of the scope.
fn takes_at(
    source: &WrittenPolicy,
    at: usize,
    decider: Option<usize>,
    old: &WrittenPolicy,
    new: &WrittenPolicy,
    deciders: Deciders,
    scope: &Scope,
) -> bool
    ensures { result ≡ true → IsTaken old.now.policy new.now.policy deciders scope.now source.now.policy.rules decider }
{
    let rules = source.rules();
    if at >= rules.len() || !is_before(at, decider) {
        return false;
    }
    takes(source.text(at), &rules[at], old, new, deciders, scope)
}

/// Whether so it is at one of these places.
pub(crate) fn is_taken(
    source: &WrittenPolicy,
    places: &[usize],
    decider: Option<usize>,
    old: &WrittenPolicy,
    new: &WrittenPolicy,
    deciders: Deciders,
    scope: &Scope,
) -> bool
    ensures { result ≡ true → IsTaken old.now.policy new.now.policy deciders scope.now source.now.policy.rules decider }
{
    for at in places {
        if takes_at(source, *at, decider, old, new, deciders, scope) {
            return true;
        }
    }
    false
}
