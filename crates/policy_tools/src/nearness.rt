//! The rules that come nearest to a match.

ghost use Rattle.policy_core.specs.Question.{question_of};
ghost use Rattle.policy_tools.specs.Nearness.{distance, nearest, one_unless, places_at};
ghost use Rattle.std.specs.Prelude.{◌≡◌, ◌++◌, IfOk, OnOk};

use crate::explaining::speaks_of;
use policy_core::{Request, Rule};
use std::alloc::{AllocError, Global};

/// 1, unless it holds.
fn one_unless(holds: bool) -> usize
    ensures { result ≡ one_unless holds }
{
    if holds { 0 } else { 1 }
}

/// By how many of its fields the rule does not match: by principal, act, channel and stream.
fn distance(rule: &Rule, request: &Request<'_>) -> usize
    ensures { result ≡ distance rule.now (question_of request.now) }
{
    one_unless(speaks_of(rule.principals, request.principal))
        + one_unless(rule.acts.hold(request.act))
        + one_unless(rule.channel.covers(request.channel))
        + one_unless(rule.low <= request.stream && request.stream <= rule.high)
}

/// Adds the places of the rules that do not match by so many fields.
fn push_at(
    rules: &[Rule],
    request: &Request<'_>,
    count: usize,
    places: &mut Vec<usize>,
) -> Result<(), AllocError>
    ensures { OnOk result (places.new.items ≡ places.old.items ++ places_at 0 rules.now (question_of request.now) count) }
{
    let mut at = 0;
    for rule in rules {
        if distance(rule, request) == count {
            places.push(at)?;
        }
        at += 1;
    }
    Ok(())
}

/// The places, counted from 0, of so many of these rules at most: those first that match but for one field, then those that match
/// but for two, and so on; among equals in their order.
pub fn nearest(
    alloc: Global,
    rules: &[Rule],
    request: &Request<'_>,
    most: usize,
) -> Result<Vec<usize>, AllocError>
    ensures { IfOk result (λ places. places.items ≡ nearest rules.now (question_of request.now) most) }
{
    let mut places = Vec::new(alloc);
    push_at(rules, request, 1, &mut places)?;
    push_at(rules, request, 2, &mut places)?;
    push_at(rules, request, 3, &mut places)?;
    push_at(rules, request, 4, &mut places)?;
    places.truncate(most);
    Ok(places)
}
