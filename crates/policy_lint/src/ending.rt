ghost use Rattle.policy_lint.specs.Ending.{IsEnd, ended_by, ended_from, is_among};
ghost use Rattle.policy_core.specs.declared.rule.Rule.{Rule};
ghost use Rattle.std.specs.List.{All};
ghost use Rattle.std.specs.Prelude.{◌≡◌, ◌++◌, IfOk, List, OnOk, Some, slice_get};

use policy_core::Rule;
use std::alloc::{AllocError, Global};

/// A rule that has an end.
#[derive(Clone, Copy, Debug)]
pub struct Ended {
    /// The place of the rule in its policy, counted from 0.
    pub at: usize,
    /// The moment from which on it stands no more, in nanoseconds since 1970.
    pub until: u64,
}

/// Which ends are looked for. Moments and periods are in nanoseconds.
#[derive(Clone, Copy, Debug)]
pub enum Ends {
    /// Those that have come at a moment.
    Past(u64),
    /// Those that come after a moment, and within a period from it.
    Soon(u64, u64),
}

impl Ends {
    /// Whether this end is looked for.
    fn hold(self, until: u64) -> bool
        ensures { result ≡ is_among self until }
    {
        match self {
            Ends::Past(moment) => until <= moment,
            Ends::Soon(moment, period) => moment < until && until - moment <= period,
        }
    }
}

/// Takes the rule, whose place is `at`, where its end is looked for.
fn put_ended(rule: &Rule, at: usize, ends: Ends, found: &mut Vec<Ended>) -> Result<(), AllocError>
    ensures exact { OnOk result (found.new.items ≡ found.old.items ++ ended_by at (is_among ends) rule.now.until) }
    ensures ends { (rules : List Rule) → slice_get rules at ≡ Some rule.now → All (IsEnd rules (is_among ends)) found.old.items → OnOk result (All (IsEnd rules (is_among ends)) found.new.items) }
{
    let Some(until) = rule.until else {
        return Ok(());
    };
    if !ends.hold(until) {
        return Ok(());
    }
    found.push(Ended { at, until })?;
    Ok(())
}

/// The rules whose end is looked for, in their order.
pub(crate) fn ended_in(alloc: Global, rules: &[Rule], ends: Ends) -> Result<Vec<Ended>, AllocError>
    ensures exact { IfOk result (λ found. found.items ≡ ended_from 0 (is_among ends) rules.now) }
    ensures ends { IfOk result (λ found. All (IsEnd rules.now (is_among ends)) found.items) }
{
    let mut found = Vec::new(alloc);
    for at in 0..rules.len() {
        put_ended(&rules[at], at, ends, &mut found)?;
    }
    Ok(found)
}
