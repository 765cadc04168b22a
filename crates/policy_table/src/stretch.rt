ghost use Rattle.policy_table.specs.Stretch.{closes, end_at, in_range, is_any, least, look, looked, span_at, span_of};
ghost use Rattle.std.specs.Prelude.{◌≡◌, IfOk};

use crate::scope::{Scope, speaks_to};
use channel_uri::Pattern;
use policy_core::Rule;
use std::alloc::{AllocError, Global};

/// What decides the requests of an asker and an act, from one stream to another.
#[derive(Debug, Drop)]
pub(crate) struct Stretch {
    /// The last stream.
    pub(crate) high: i32,
    /// The places of the rules that decide, from 0 and in their order.
    pub(crate) rules: Vec<usize>,
}

/// The lesser of two streams.
fn least(one: i32, other: i32) -> i32
    ensures { result ≡ least one other }
{
    if one <= other { one } else { other }
}

/// The stream up to which, from `low` on and not beyond `high`, the rule's range holds every stream or none.
fn end_of(rule: &Rule, low: i32, high: i32) -> i32
    ensures { result ≡ end_at rule.now low high }
{
    if rule.low > low {
        return least(rule.low - 1, high);
    }
    if low <= rule.high {
        return least(rule.high, high);
    }
    high
}

/// Whether the rule's range holds the stream.
fn holds(rule: &Rule, stream: i32) -> bool
    ensures { result ≡ in_range rule.now stream }
{
    rule.low <= stream && stream <= rule.high
}

/// Whether the pattern is `*`.
fn is_any(pattern: &Pattern) -> bool
    ensures { result ≡ is_any pattern.now }
{
    match pattern {
        Pattern::Any => true,
        Pattern::Of(_media, _keys) => false,
    }
}

impl Stretch {
    /// Looks at one more rule, the one at this place. Whether it covers every channel, so that those after it decide nothing.
    fn look_at(&mut self, rule: &Rule, place: usize, scope: &Scope) -> Result<bool, AllocError>
        ensures looks { IfOk result (λ last. span_of self.new ≡ look rule.now place scope.now (span_of self.old)) }
        ensures closes { IfOk result (λ last. last ≡ closes rule.now scope.now) }
    {
        if !speaks_to(rule, scope.asker, scope.act) {
            return Ok(false);
        }
        self.high = end_of(rule, scope.low, self.high);
        if !holds(rule, scope.low) {
            return Ok(false);
        }
        self.rules.push(place)?;
        Ok(is_any(&rule.channel))
    }
}

/// What decides from the low stream of the scope on, for as many streams as it is the same, but not beyond the high one. Rules
/// after one whose pattern is `*` decide nothing, and are left out.
pub(crate) fn stretch_of(
    alloc: Global,
    rules: &[Rule],
    scope: &Scope,
) -> Result<Stretch, AllocError>
    ensures { IfOk result (λ stretch. span_of stretch ≡ span_at rules.now scope.now) }
{
    let mut stretch = Stretch {
        high: scope.high,
        rules: Vec::new(alloc),
    };
    for place in 0..rules.len() {
        if stretch.look_at(&rules[place], place, scope)? {
            return Ok(stretch);
        }
    }
    Ok(stretch)
}
