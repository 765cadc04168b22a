//! Whether two rules decide each request of a scope on a channel.

ghost use Rattle.policy_diff.specs.Deciding.{DecidesEach, IsExample, may_match};
ghost use Rattle.policy_diff.specs.Diff.{rule_of};
ghost use Rattle.policy_diff.specs.Scope.{IsAsker, IsIn, reaches_each};
ghost use Rattle.channel_uri.specs.Channel.{Shape};
ghost use Rattle.policy_core.specs.declared.rule.Rule.{Rule};
ghost use Rattle.std.specs.Prelude.{◌≡◌, IfSome, Some, position, true};

use crate::askers::is_named;
use crate::examples::Example;
use crate::pairs::Deciders;
use crate::scope::{Asker, Scope, may_reach, reaches_each};
use channel_uri::Channel;
use policy_core::{Act, Policy, Rule};
use policy_tools::WrittenPolicy;

/// Whether some request of the scope on that channel may match the rule.
fn may_match(rule: &Rule, scope: &Scope, channel: &Channel) -> bool
    ensures { result ≡ may_match rule.now scope.now channel.now }
{
    may_reach(rule, scope) && rule.channel.covers(channel)
}

/// The first rule that one may match.
fn first_reached(rules: &[Rule], scope: &Scope, channel: &Channel) -> Option<usize>
    ensures { result ≡ position (λ rule. may_match rule scope.now channel.now) rules.now }
{
    rules
        .iter()
        .position(|rule| may_match(rule, scope, channel))
}

/// Whether each request of the scope matches the rule that decides, channels apart; where none does there is nothing to match.
fn is_reached(policy: &Policy, decider: Option<usize>, scope: &Scope) -> bool
    ensures { result ≡ true → (rule : Rule) → rule_of policy.now decider ≡ Some rule → reaches_each rule scope.now ≡ true }
{
    let rules = policy.rules();
    match decider {
        Some(at) => at < rules.len() && reaches_each(&rules[at], scope),
        None => true,
    }
}

/// Whether the rule is found to decide each request of the scope on the channel; `None` is the default.
fn decides_each(policy: &Policy, decider: Option<usize>, scope: &Scope, channel: &Channel) -> bool
    ensures { result ≡ true → DecidesEach policy.now decider scope.now channel.now }
{
    first_reached(policy.rules(), scope, channel) == decider && is_reached(policy, decider, scope)
}

/// Whether the principal is one of the scope's.
fn is_asker(old: &Policy, new: &Policy, asker: Asker, principal: u32) -> bool
    ensures { result ≡ true → IsAsker old.now new.now asker principal }
{
    match asker {
        Asker::Every => true,
        Asker::One(one) => one == principal,
        Asker::But(one) => one != principal,
        Asker::Others => !is_named(old.rules(), principal) && !is_named(new.rules(), principal),
    }
}

/// Whether a request of that principal, act and stream is of the scope.
fn is_in(old: &Policy, new: &Policy, scope: &Scope, principal: u32, act: Act, stream: i32) -> bool
    ensures { result ≡ true → (channel : Shape) → IsIn old.now new.now scope.now (record { principal = principal; act = act; channel = channel; stream = stream }) }
{
    is_asker(old, new, scope.asker, principal)
        && scope.acts.hold(act)
        && scope.low <= stream
        && stream <= scope.high
}

/// Who asks in an example: `stranger` where that may be anybody, or anybody whom no rule names.
fn asker_of(scope: &Scope, stranger: u32) -> u32 {
    match scope.asker {
        Asker::One(number) => number,
        Asker::Every | Asker::But(_) | Asker::Others => stranger,
    }
}

/// The first act of a scope.
fn act_of(scope: &Scope) -> Act {
    for act in Act::EVERY {
        if scope.acts.hold(act) {
            return act;
        }
    }
    Act::Publish
}

/// The stream of an example: 0 or the lowest one after it, since questions have no stream below 0; the lowest one where all are
/// below 0.
fn stream_of(scope: &Scope) -> i32 {
    if scope.high < 0 {
        scope.low
    } else {
        scope.low.max(0)
    }
}

/// The first of the channels on which each request of the scope is found to be decided by the two.
fn channel_among(
    old: &Policy,
    new: &Policy,
    deciders: Deciders,
    scope: &Scope,
    channels: &[Channel],
) -> Option<Channel>
    ensures old { IfSome result (λ channel. DecidesEach old.now deciders.old scope.now channel) }
    ensures new { IfSome result (λ channel. DecidesEach new.now deciders.new scope.now channel) }
{
    for channel in channels {
        if decides_each(old, deciders.old, scope, channel)
            && decides_each(new, deciders.new, scope, channel)
        {
            return Some(channel.copy());
        }
    }
    None
}

/// An example of the scope: a request on one of the channels, on which each request of the scope is found to be decided by the
/// two. There may be one where none is found.
pub(crate) fn example_among(
    old: &Policy,
    new: &Policy,
    deciders: Deciders,
    scope: &Scope,
    channels: &[Channel],
    stranger: u32,
) -> Option<Example>
    ensures { IfSome result (λ example. IsExample old.now new.now deciders scope.now example) }
{
    let principal = asker_of(scope, stranger);
    let (act, stream) = (act_of(scope), stream_of(scope));
    if !is_in(old, new, scope, principal, act, stream) {
        return None;
    }
    match channel_among(old, new, deciders, scope, channels) {
        Some(channel) => Some(Example {
            principal,
            act,
            channel,
            stream,
        }),
        None => None,
    }
}
