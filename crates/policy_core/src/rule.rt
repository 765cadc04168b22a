ghost use Rattle.policy_core.specs.Question.{question_of};
ghost use Rattle.policy_core.specs.Rule.{matches, speaks_of};
ghost use Rattle.policy_core.specs.Moments.{as_of, has_begun, is_not_over, stands_at};
ghost use Rattle.std.specs.Prelude.{◌≡◌};

use crate::act::Act;
use crate::acts::Acts;
use crate::request::Request;
use byte_strings::ShortText;
use channel_uri::Pattern;
use rows::Twin;

/// Whom a rule speaks of.
#[derive(Clone, Copy, Debug)]
pub enum Principals {
    /// Everybody.
    Any,
    /// The principal of this number.
    One(u32),
}

impl Principals {
    fn include(self, principal: u32) -> bool
        ensures { result ≡ speaks_of self principal }
    {
        match self {
            Principals::Any => true,
            Principals::One(one) => one == principal,
        }
    }
}

/// Whether what begins then is there at this moment.
fn has_begun(from: Option<u64>, moment: u64) -> bool
    ensures { result ≡ has_begun from moment }
{
    match from {
        Some(from) => from <= moment,
        None => true,
    }
}

/// Whether what ends then is still there at this moment.
fn is_not_over(until: Option<u64>, moment: u64) -> bool
    ensures { result ≡ is_not_over until moment }
{
    match until {
        Some(until) => moment < until,
        None => true,
    }
}

/// One rule of a policy. It matches a request that each of its parts fits, at each moment at which it stands.
#[derive(Debug, Drop)]
pub struct Rule {
    /// What readers call the rule, in at most 64 bytes; it decides nothing.
    pub name: ShortText<64>,
    /// Whom the rule speaks of.
    pub principals: Principals,
    /// Of which acts.
    pub acts: Acts,
    /// On which channels.
    pub channel: Pattern,
    /// The lowest stream id that the rule speaks of.
    pub low: i32,
    /// The highest stream id that the rule speaks of.
    pub high: i32,
    /// The first moment at which the rule stands, in nanoseconds; `None` where it stands from the beginning.
    pub from: Option<u64>,
    /// The moment from which on it stands no more; `None` where that never comes.
    pub until: Option<u64>,
    /// Whether what the rule speaks of is allowed.
    pub allow: bool,
}

impl Rule {
    /// Whether the rule stands at this moment: from its first one on, and before its end.
    pub fn stands(&self, moment: u64) -> bool
        ensures { result ≡ stands_at self.now moment }
    {
        has_begun(self.from, moment) && is_not_over(self.until, moment)
    }

    /// Whether the rule stands at this moment and speaks of `request`.
    #[tactic(auto, using(crate::proofs::AtMoment::as_of_matches))]
    pub(crate) fn matches_at(&self, moment: u64, request: &Request<'_>) -> bool
        ensures { result ≡ matches (as_of moment self.now) (question_of request.now) }
    {
        self.stands(moment) && self.matches(request)
    }

    /// Becomes what it is at this moment, for good: it speaks of what it speaks of then, and has no bounds.
    #[tactic(auto, unfolding(crate::specs::Moments::as_of))]
    pub(crate) fn settle(&mut self, moment: u64)
        ensures { self.new ≡ as_of moment self.old }
    {
        if !self.stands(moment) {
            self.acts = Acts::none();
        }
        self.from = None;
        self.until = None;
    }

    /// Whether the rule speaks of `request`, whenever it stands. The pattern, which costs most, is asked last.
    #[tactic(auto, unfolding(crate::specs::Rule::matches))]
    pub fn matches(&self, request: &Request<'_>) -> bool
        ensures { result ≡ matches self.now (question_of request.now) }
    {
        self.principals.include(request.principal)
            && self.acts.hold(request.act)
            && self.low <= request.stream
            && request.stream <= self.high
            && self.channel.covers(request.channel)
    }
}

impl Twin for Rule {
    fn twin(&self) -> Rule {
        Rule {
            name: self.name.copy(),
            principals: self.principals,
            acts: self.acts,
            channel: self.channel.copy(),
            low: self.low,
            high: self.high,
            from: self.from,
            until: self.until,
            allow: self.allow,
        }
    }

    fn set_from(&mut self, other: &Rule) {
        self.name.set_from(&other.name);
        self.principals = other.principals;
        self.acts = other.acts;
        self.channel.set_from(&other.channel);
        self.low = other.low;
        self.high = other.high;
        self.from = other.from;
        self.until = other.until;
        self.allow = other.allow;
    }
}
