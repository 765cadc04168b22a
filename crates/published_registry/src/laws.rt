ghost use Rattle.decision_cache.specs.declared.key.Key.{Key};
ghost use Rattle.driver_core.specs.Cached.{AreCached};
ghost use Rattle.driver_core.specs.Looking.{IsAtItsMoment, IsSameOrNewer};
ghost use Rattle.policy_core.specs.declared.verdict.Verdict.{Verdict};
ghost use Rattle.published_registry.specs.Histories.{History, IsContinuedBy, registry_of};
ghost use Rattle.std.specs.Prelude.{List};

use driver_core::{
    cached_verdicts_stay_right, policies_are_of_their_moment, policies_only_get_newer,
};

/// The policy by which a look decides is what its text makes of it at the look's moment, where that is so of the registry that
/// was opened, as it is of every new one.
pub fn looks_are_by_the_policy_of_their_moment()
    ensures { (history : History) → IsAtItsMoment history.opening → IsAtItsMoment (registry_of history) }
{
    policies_are_of_their_moment();
}

/// A later look is by the policy of an earlier one, under the same number, or by another one of a greater number. So a look
/// of a pass that learned the receipt of a reload is by that policy or a later one.
pub fn later_looks_are_by_that_policy_or_a_later_one()
    ensures { (earlier later : History) → IsContinuedBy earlier later → IsSameOrNewer (registry_of earlier) (registry_of later) }
{
    policies_only_get_newer();
}

/// What is cached and right of one look is right of each later one: so what a cache answers is what the policy of the look
/// decides, and no allow survives a reload in it.
pub fn caches_stay_right_of_later_looks()
    ensures { (earlier later : History) (held : List (Key × Verdict)) →
        IsContinuedBy earlier later → AreCached (registry_of earlier) held → AreCached (registry_of later) held }
{
    cached_verdicts_stay_right();
}
