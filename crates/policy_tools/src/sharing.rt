//! What two rules have to do with each other.

ghost use Rattle.channel_uri.specs.Pattern.{pattern_of};
ghost use Rattle.policy_tools.specs.Sharing.{covers_acts, covers_principals, covers_streams, is_over, may_meet, share_act, share_principal, share_stream};
ghost use Rattle.std.specs.Prelude.{◌≡◌, Ok};

use crate::patterns::{Relation, patterns_pass};
use policy_core::{Act, Acts, Principals, Rule};

/// Whether both speak of some principal.
fn share_principal(one: Principals, other: Principals) -> bool
    ensures { result ≡ share_principal one other }
{
    match one {
        Principals::Any => true,
        Principals::One(number) => match other {
            Principals::Any => true,
            Principals::One(another) => number == another,
        },
    }
}

/// Whether both hold some act.
#[tactic(auto, unfolding(crate::specs::Sharing::share_act))]
fn share_act(one: Acts, other: Acts) -> bool
    ensures { result ≡ share_act one other }
{
    Act::EVERY
        .iter()
        .any(|act| one.hold(*act) && other.hold(*act))
}

/// Whether both ranges hold some stream.
fn share_stream(one: &Rule, other: &Rule) -> bool
    ensures { result ≡ share_stream one.now other.now }
{
    one.low <= other.high && other.low <= one.high
}

/// Whether some request may match both rules, of which the first has a pattern of that text. It is false only where none
/// does, and takes no memory.
#[tactic(auto, unfolding(crate::specs::Sharing::may_meet))]
pub fn may_meet(text: &str, one: &Rule, other: &Rule) -> bool
    requires { pattern_of text.now ≡ Ok one.now.channel }
    ensures { result ≡ may_meet one.now other.now }
{
    share_principal(one.principals, other.principals)
        && share_stream(one, other)
        && share_act(one.acts, other.acts)
        && patterns_pass(Relation::Meets, text, &one.channel, &other.channel)
}

/// Whether everybody among the narrow ones is among the wide ones.
fn covers_principals(wide: Principals, narrow: Principals) -> bool
    ensures { result ≡ covers_principals wide narrow }
{
    match wide {
        Principals::Any => true,
        Principals::One(number) => match narrow {
            Principals::Any => false,
            Principals::One(another) => number == another,
        },
    }
}

/// Whether each act of the narrow ones is one of the wide ones.
#[tactic(auto, unfolding(crate::specs::Sharing::covers_acts))]
fn covers_acts(wide: Acts, narrow: Acts) -> bool
    ensures { result ≡ covers_acts wide narrow }
{
    Act::EVERY
        .iter()
        .all(|act| !narrow.hold(*act) || wide.hold(*act))
}

/// Whether the narrow range is within the wide one.
fn covers_streams(wide: &Rule, narrow: &Rule) -> bool
    ensures { result ≡ covers_streams wide.now narrow.now }
{
    wide.low <= narrow.low && narrow.high <= wide.high
}

/// Whether the wide rule, whose pattern has that text, is found to match each request that the narrow one matches. It takes
/// no memory.
#[tactic(auto, unfolding(crate::specs::Sharing::is_over))]
pub fn is_over(text: &str, wide: &Rule, narrow: &Rule) -> bool
    requires { pattern_of text.now ≡ Ok wide.now.channel }
    ensures { result ≡ is_over wide.now narrow.now }
{
    covers_principals(wide.principals, narrow.principals)
        && covers_streams(wide, narrow)
        && covers_acts(wide.acts, narrow.acts)
        && patterns_pass(Relation::Covers, text, &wide.channel, &narrow.channel)
}
