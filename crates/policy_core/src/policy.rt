ghost use Rattle.policy_core.specs.MomentLaws.{IsBoundOf, IsEverAllowed, IsLeastAfter, is_before};
ghost use Rattle.policy_core.specs.Question.{Question, question_of};
ghost use Rattle.policy_core.specs.Moments.{as_of, at, bound_of, bounds, coming, ever, is_allowed_by_any, least_of, stands_at, steady_until};
ghost use Rattle.policy_core.specs.Rule.{matches};
ghost use Rattle.policy_core.specs.declared.rule.Rule.{Rule};
ghost use Rattle.policy_core.specs.RuleList.{Rules};
ghost use Rattle.policy_core.specs.Rules.{verdict_at, verdict_of, SomeRuleMatches, NoRuleMatches, IsFirstMatch, ruled, defaulted};
ghost use Rattle.std.specs.Prelude.{◌≡◌, ◌<◌, ◌≤◌, ◌&&◌, ℕ, List, [], Some, None, IfOk, true, false, filter, length, map, nat_lt, position, slice_get};

use crate::request::Request;
use crate::rule::Rule;
use crate::verdict::Verdict;
use rows::{Change, Rows};
use std::alloc::{AllocError, Global};
use std::marker::Model;

/// Rules in their order, and the word that stands where none of them matches. There are at most 1,024 rules, and there is
/// room for as many, whatever policy it is.
#[derive(Debug, Drop)]
pub struct Policy {
    rules: Rows<Rule, 1024>,
    default: bool,
}

impl Model for Policy {
    ghost use Rattle.policy_core.specs.RuleList.{Rules};

    ghost Value = { Rules };

    ghost view = { λ policy. record { rules = policy.rules; default_allows = policy.default } };
}

/// The place of the first rule that matches, whenever it stands.
fn first_match(rules: &[Rule], request: &Request<'_>) -> Option<usize>
    ensures { result ≡ position (λ rule. matches rule (question_of request.now)) rules.now }
{
    rules.iter().position(|rule| rule.matches(request))
}

/// The place of the first rule that stands at this moment and matches.
fn first_standing(rules: &[Rule], moment: u64, request: &Request<'_>) -> Option<usize>
    ensures { result ≡ position (λ rule. stands_at rule moment && matches rule (question_of request.now)) rules.now }
{
    rules
        .iter()
        .position(|rule| rule.stands(moment) && rule.matches(request))
}

/// Each rule becomes what it is at a moment, for good.
#[derive(Clone, Copy)]
struct Settling {
    moment: u64,
}

impl Change<Rule> for Settling {
    ghost use Rattle.policy_core.specs.Moments.{as_of};

    ghost changed = { λ settling. as_of settling.moment };

    fn change(&self, rule: &mut Rule) {
        rule.settle(self.moment);
    }
}

/// The sooner of two moments, where the second one is there and after `moment`.
fn sooner(moment: u64, found: Option<u64>, bound: Option<u64>) -> Option<u64>
    ensures { result ≡ least_of moment found (bound_of bound) }
{
    let Some(bound) = bound else {
        return found;
    };
    match found {
        None => { if moment < bound { Some(bound) } else { None } }
        Some(least) => {
            if moment < bound && bound < least {
                Some(bound)
            } else {
                Some(least)
            }
        }
    }
}

/// Whether the rule at this place stands at this moment and speaks of `request`.
fn matches_at(rules: &[Rule], moment: u64, place: usize, request: &Request<'_>) -> bool
    requires few { length rules.now ≤ 1024 }
    requires within { place < length rules.now }
    ensures { (rule : Rule) → slice_get rules.now place ≡ Some rule → result ≡ matches (as_of moment rule) (question_of request.now) }
{
    rules[place].matches_at(moment, request)
}

/// The word of the rule at this place.
fn word_at(rules: &[Rule], place: usize) -> bool
    requires few { length rules.now ≤ 1024 }
    requires within { place < length rules.now }
    ensures { (rule : Rule) → slice_get rules.now place ≡ Some rule → result ≡ rule.allow }
{
    rules[place].allow
}

/// The word of the rule that was found at this place, or the default, under the number `epoch`.
fn verdict_by(rules: &[Rule], default: bool, found: Option<usize>, epoch: u64) -> Verdict
    requires few { length rules.now ≤ 1024 }
    requires within { (index : ℕ) → found ≡ Some index → index < length rules.now }
    ensures { result ≡ verdict_at (record { rules = rules.now; default_allows = default }) epoch found }
{
    match found {
        Some(index) => Verdict {
            allow: rules[index].allow,
            rule: Some(index as u32 + 1),
            epoch,
        },
        None => Verdict {
            allow: default,
            rule: None,
            epoch,
        },
    }
}

/// What rules with a default decide of `request` at this moment, under the number `epoch`.
fn verdict_in(
    rules: &[Rule],
    default: bool,
    moment: u64,
    epoch: u64,
    request: &Request<'_>,
) -> Verdict
    requires { length rules.now ≤ 1024 }
    ensures { result ≡ verdict_at (record { rules = rules.now; default_allows = default }) epoch (position (λ rule. stands_at rule moment && matches rule (question_of request.now)) rules.now) }
{
    verdict_by(
        rules,
        default,
        first_standing(rules, moment, request),
        epoch,
    )
}

/// The least bound of these rules after the moment.
fn soonest(moment: u64, rules: &[Rule]) -> Option<u64>
    ensures { result ≡ least_of moment None (bounds rules.now) }
{
    let mut least = None;
    for rule in rules {
        least = sooner(moment, least, rule.from);
        least = sooner(moment, least, rule.until);
    }
    least
}

/// A policy as it stands at a moment: a rule that does not stand then speaks of nothing.
#[derive(Drop)]
pub struct Standing<'a> {
    rules: &'a [Rule],
    default: bool,
    moment: u64,
}

impl<'a> Model for Standing<'a> {
    ghost use Rattle.policy_core.specs.RuleList.{Rules};
    ghost use Rattle.policy_core.specs.Moments.{at};
    ghost use Rattle.std.specs.Prelude.{◌≤◌, length};

    ghost Value = { Rules };

    ghost view = { λ standing. at (record { rules = standing.rules.now; default_allows = standing.default }) standing.moment };

    ghost invariant = { λ standing. length standing.rules.now ≤ 1024 };
}

impl<'a> Standing<'a> {
    /// How many rules there are, whether they stand or not.
    #[tactic(auto, unfolding(crate::specs::Moments::at))]
    pub fn len(&self) -> usize
        ensures value { result ≡ length self.now.rules }
        ensures few { result ≤ 1024 }
    {
        self.rules.len()
    }

    /// Whether the rule at this place stands and speaks of `request`.
    pub fn matches(&self, place: usize, request: &Request<'_>) -> bool
        requires { place < length self.now.rules }
        ensures { (rule : Rule) → slice_get self.now.rules place ≡ Some rule → result ≡ matches rule (question_of request.now) }
    {
        matches_at(self.rules, self.moment, place, request)
    }

    /// The word of the rule at this place.
    pub fn word_of(&self, place: usize) -> bool
        requires { place < length self.now.rules }
        ensures { (rule : Rule) → slice_get self.now.rules place ≡ Some rule → result ≡ rule.allow }
    {
        word_at(self.rules, place)
    }

    /// What the policy, whose number is `epoch`, decides of `request`: the word of the first rule that stands and matches,
    /// or the default. It takes no memory.
    pub fn verdict(&self, epoch: u64, request: &Request<'_>) -> Verdict
        ensures { result ≡ verdict_of self.now epoch (question_of request.now) }
    {
        verdict_in(self.rules, self.default, self.moment, epoch, request)
    }
}

impl Policy {
    /// A policy of these rules, which allows or denies by `default`.
    pub fn new(rules: Vec<Rule>, default: bool) -> Result<Policy, AllocError>
        requires { length rules.items ≤ 1024 }
        ensures { IfOk result (λ policy. policy ≡ record { rules = rules.items; default_allows = default }) }
    {
        Ok(Policy {
            rules: Rows::of(rules)?,
            default,
        })
    }

    /// A policy without rules, which denies.
    pub fn room(alloc: Global) -> Result<Policy, AllocError>
        ensures { IfOk result (λ policy. policy ≡ record { rules = []; default_allows = false }) }
    {
        Ok(Policy {
            rules: Rows::new(alloc)?,
            default: false,
        })
    }

    /// The rules, in their order.
    pub fn rules(&self) -> &[Rule]
        ensures value { result.now ≡ self.now.rules }
        ensures few { length result.now ≤ 1024 }
    {
        self.rules.as_slice()
    }

    /// Whether what no rule speaks of is allowed.
    pub fn default_allows(&self) -> bool
        ensures { result ≡ self.now.default_allows }
    {
        self.default
    }

    /// This policy as it stands at that moment.
    pub fn at(&self, moment: u64) -> Standing<'_>
        ensures { result ≡ at self.now moment }
    {
        Standing {
            rules: self.rules.as_slice(),
            default: self.default,
            moment,
        }
    }

    /// What this policy, whose number is `epoch`, decides of `request` at that moment: the word of the first rule that
    /// stands and matches, or the default. It takes no memory.
    pub fn verdict(&self, epoch: u64, moment: u64, request: &Request<'_>) -> Verdict
        ensures { result ≡ verdict_of (at self.now moment) epoch (question_of request.now) }
    {
        self.at(moment).verdict(epoch, request)
    }

    /// Becomes what it is at this moment, for good: rules that do not stand then speak of nothing, and none has bounds.
    #[tactic(auto, unfolding(crate::specs::Moments::at))]
    pub fn settle(&mut self, moment: u64)
        ensures { self.new ≡ at self.old moment }
    {
        self.rules.change(&Settling { moment });
    }

    /// The least bound of a rule after this moment: up to it, and not at it, the policy stands as it does at the moment.
    /// It takes no memory.
    #[tactic(auto, unfolding(crate::specs::Moments::steady_until))]
    pub fn steady_until(&self, moment: u64) -> Option<u64>
        ensures { result ≡ steady_until self.now moment }
    {
        soonest(moment, self.rules.as_slice())
    }

    /// Whether it is allowed at this bound, if that is after the moment.
    fn is_allowed_by(&self, moment: u64, bound: Option<u64>, request: &Request<'_>) -> bool
        ensures { result ≡ is_allowed_by_any (question_of request.now) (map (at self.now) (filter (nat_lt moment) (bound_of bound))) }
    {
        match bound {
            Some(bound) => moment < bound && self.verdict(0, bound, request).allow,
            None => false,
        }
    }

    /// Whether it is allowed at a bound of one of these rules after the moment.
    fn is_allowed_by_bounds(&self, moment: u64, rules: &[Rule], request: &Request<'_>) -> bool
        ensures { result ≡ is_allowed_by_any (question_of request.now) (map (at self.now) (filter (nat_lt moment) (bounds rules.now))) }
    {
        for rule in rules {
            if self.is_allowed_by(moment, rule.from, request)
                || self.is_allowed_by(moment, rule.until, request)
            {
                return true;
            }
        }
        false
    }

    /// Whether `request` is allowed at this moment or at a later one. It takes no memory.
    #[tactic(auto, unfolding(crate::specs::Moments::ever, crate::specs::Moments::coming))]
    pub fn ever(&self, moment: u64, request: &Request<'_>) -> bool
        ensures { result ≡ ever self.now moment (question_of request.now) }
    {
        self.verdict(0, moment, request).allow
            || self.is_allowed_by_bounds(moment, self.rules.as_slice(), request)
    }

    /// What this policy, whose number is `epoch`, decides of `request` if each rule stands: of a policy whose rules have no
    /// bounds, as one that was settled. It takes no memory.
    #[tactic(auto, unfolding(crate::specs::Rules::verdict_of))]
    pub fn settled_verdict(&self, epoch: u64, request: &Request<'_>) -> Verdict
        ensures { result ≡ verdict_of self.now epoch (question_of request.now) }
    {
        let rules = self.rules.as_slice();
        verdict_by(rules, self.default, first_match(rules, request), epoch)
    }

    /// Becomes equal to another policy. It takes no memory.
    pub fn set_from(&mut self, other: &Policy)
        ensures { self.new ≡ other.now }
    {
        self.rules.set_from(&other.rules);
        self.default = other.default;
    }

    /// Another policy, equal to this one.
    pub fn copy(&self, alloc: Global) -> Result<Policy, AllocError>
        ensures { IfOk result (λ policy. policy ≡ self.now) }
    {
        Ok(Policy {
            rules: self.rules.copy(alloc)?,
            default: self.default,
        })
    }
}

/// The least rule that matches decides, whatever the others say; the default decides only where no rule matches.
pub fn least_rule_decides()
    ensures first { (policy : Rules) (epoch : ℕ) (question : Question) (index : ℕ) (rule : Rule) →
        IsFirstMatch policy.rules question index rule → verdict_of policy epoch question ≡ ruled rule.allow index epoch }
    ensures exists { (rules : List Rule) (question : Question) → SomeRuleMatches rules question →
        (index : ℕ) × (rule : Rule) × IsFirstMatch rules question index rule }
    ensures none { (policy : Rules) (epoch : ℕ) (question : Question) → NoRuleMatches policy.rules question →
        verdict_of policy epoch question ≡ defaulted policy.default_allows epoch }
{}

/// What the bounds of rules come to. The policy is the same up to the least bound after a moment, and so is all that it
/// becomes later; where there is no such bound it becomes nothing else.
pub fn policies_change_at_bounds()
    ensures same { (policy : Rules) (moment later : ℕ) → moment ≤ later → is_before later (steady_until policy moment) ≡ true → at policy later ≡ at policy moment }
    ensures coming { (policy : Rules) (moment later : ℕ) → moment ≤ later → is_before later (steady_until policy moment) ≡ true → coming policy later ≡ coming policy moment }
    ensures settled { (policy : Rules) (moment : ℕ) → steady_until policy moment ≡ None → coming policy moment ≡ [] }
{}

/// A policy is steady until the least bound of a rule after the moment, and for ever where no bound comes after it.
pub fn steady_until_is_the_least_bound()
    ensures least { (policy : Rules) (moment bound : ℕ) → steady_until policy moment ≡ Some bound → IsLeastAfter policy moment bound }
    ensures none { (policy : Rules) (moment : ℕ) → steady_until policy moment ≡ None → (bound : ℕ) → IsBoundOf policy bound → bound ≤ moment }
{}

/// What is ever allowed from a moment on is what is allowed at that moment or at a later one.
pub fn ever_is_now_or_later()
    ensures sound { (policy : Rules) (moment : ℕ) (question : Question) → ever policy moment question ≡ true → IsEverAllowed policy moment question }
    ensures complete { (policy : Rules) (moment : ℕ) (question : Question) → IsEverAllowed policy moment question → ever policy moment question ≡ true }
{}
