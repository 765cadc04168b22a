//! Which requests a row speaks of.

ghost use Rattle.policy_diff.specs.Scope.{covers_acts, may_reach, may_speak, reaches_each, share_act, speaks};
ghost use Rattle.std.specs.Prelude.{◌≡◌};

use policy_core::{Act, Acts, Principals, Rule};

/// Whose requests are meant.
#[derive(Clone, Copy, Debug, PartialEq, Eq)]
pub enum Asker {
    /// Everybody's.
    Every,
    /// Those of the principal of this number.
    One(u32),
    /// Those of everybody but the principal of this number.
    But(u32),
    /// Those of every principal that no rule of either policy names.
    Others,
}

/// Which requests are meant, on whatever channel: whose, of which acts, and on which streams.
#[derive(Clone, Copy, Debug)]
pub struct Scope {
    /// Whose requests.
    pub asker: Asker,
    /// Of which acts.
    pub acts: Acts,
    /// The lowest stream id.
    pub low: i32,
    /// The highest stream id.
    pub high: i32,
}

/// Whether some of the asker's principals may be spoken of.
fn may_speak(principals: Principals, asker: Asker) -> bool
    ensures { result ≡ may_speak principals asker }
{
    match principals {
        Principals::Any => true,
        Principals::One(one) => match asker {
            Asker::Every => true,
            Asker::One(number) => one == number,
            Asker::But(number) => one != number,
            Asker::Others => false,
        },
    }
}

/// Whether each of them is spoken of.
fn speaks(principals: Principals, asker: Asker) -> bool
    ensures { result ≡ speaks principals asker }
{
    match principals {
        Principals::Any => true,
        Principals::One(one) => match asker {
            Asker::Every => false,
            Asker::One(number) => one == number,
            Asker::But(_number) => false,
            Asker::Others => false,
        },
    }
}

/// Whether both hold some act.
#[tactic(auto, unfolding(crate::specs::Scope::share_act))]
fn share_act(one: Acts, other: Acts) -> bool
    ensures { result ≡ share_act one other }
{
    Act::EVERY
        .iter()
        .any(|act| one.hold(*act) && other.hold(*act))
}

/// Whether the wide ones hold each act of the narrow ones.
#[tactic(auto, unfolding(crate::specs::Scope::covers_acts))]
fn covers_acts(wide: Acts, narrow: Acts) -> bool
    ensures { result ≡ covers_acts wide narrow }
{
    Act::EVERY
        .iter()
        .all(|act| !narrow.hold(*act) || wide.hold(*act))
}

/// Whether some request of the scope may match the rule, channels apart.
#[tactic(auto, unfolding(crate::specs::Scope::may_reach))]
pub(crate) fn may_reach(rule: &Rule, scope: &Scope) -> bool
    ensures { result ≡ may_reach rule.now scope.now }
{
    may_speak(rule.principals, scope.asker)
        && share_act(rule.acts, scope.acts)
        && rule.low <= scope.high
        && scope.low <= rule.high
}

/// Whether each request of the scope matches the rule, channels apart.
#[tactic(auto, unfolding(crate::specs::Scope::reaches_each))]
pub(crate) fn reaches_each(rule: &Rule, scope: &Scope) -> bool
    ensures { result ≡ reaches_each rule.now scope.now }
{
    speaks(rule.principals, scope.asker)
        && covers_acts(rule.acts, scope.acts)
        && rule.low <= scope.low
        && scope.high <= rule.high
}
