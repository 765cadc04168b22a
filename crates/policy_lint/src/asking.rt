ghost use Rattle.policy_core.specs.Moments.{at as policy_at};
ghost use Rattle.policy_lint.specs.Nobody.{NobodyMay, is_named, may};
ghost use Rattle.std.specs.Prelude.{◌≡◌, IfSome, true, false};

use channel_uri::Channel;
use policy_core::{Act, Policy, Principals, Request, Rule, Verdict};

/// Who asks, on which channel and stream, of which policy, and when.
#[derive(Clone, Copy)]
pub(crate) struct Asked<'a> {
    pub policy: &'a Policy,
    /// The moment, in nanoseconds since 1970.
    pub moment: u64,
    pub principal: u32,
    pub channel: &'a Channel,
    pub stream: i32,
}

impl Asked<'_> {
    /// What the policy decides of the act.
    pub fn verdict(&self, act: Act) -> Verdict
        ensures { result.allow ≡ may (policy_at self.now.policy.now self.now.moment) act self.now.channel.now self.now.stream self.now.principal }
    {
        let request = Request {
            principal: self.principal,
            act,
            channel: self.channel,
            stream: self.stream,
        };
        self.policy.verdict(1, self.moment, &request)
    }

    /// Whether the policy allows the act.
    pub fn may(&self, act: Act) -> bool
        ensures { result ≡ may (policy_at self.now.policy.now self.now.moment) act self.now.channel.now self.now.stream self.now.principal }
    {
        self.verdict(act).allow
    }

    /// Whether the policy allows the act by the rule at this place, counted from 0.
    pub fn is_granted_by(&self, at: usize, act: Act) -> bool
        ensures { result ≡ true → may (policy_at self.now.policy.now self.now.moment) act self.now.channel.now self.now.stream self.now.principal ≡ true }
    {
        let verdict = self.verdict(act);
        match verdict.rule {
            Some(number) => verdict.allow && number as usize == at.saturating_add(1),
            None => false,
        }
    }
}

/// The number of somebody of whom no rule speaks by name; `None` where there is none above those of whom one does.
pub(crate) fn stranger(rules: &[Rule]) -> Option<u32>
    ensures { IfSome result (λ number. is_named rules.now number ≡ false) }
{
    let mut most: u32 = 0;
    for rule in rules {
        if let Principals::One(number) = rule.principals {
            most = most.max(number);
        }
    }
    most.checked_add(1)
}

/// Who may ask by a rule: of those of whom a rule on everybody speaks, one whom no rule names.
pub(crate) fn asker(rules: &[Rule], rule: &Rule) -> Option<u32> {
    match rule.principals {
        Principals::One(number) => Some(number),
        Principals::Any => stranger(rules),
    }
}

/// A stream of the range.
pub(crate) fn stream_in(low: i32, high: i32) -> i32 {
    if low == i32::MIN && high >= 1 {
        return 1;
    }
    low
}

/// The moment at which a rule is tried: the one that is looked at, or the rule's first one where that comes later.
pub(crate) fn moment_for(rule: &Rule, moment: u64) -> u64 {
    match rule.from {
        Some(from) => from.max(moment),
        None => moment,
    }
}

/// Whether the policy, as it is at that moment, denies the act to whoever asks on that channel and stream.
pub(crate) fn nobody_may(
    policy: &Policy,
    moment: u64,
    act: Act,
    channel: &Channel,
    stream: i32,
) -> bool
    ensures { result ≡ true → NobodyMay (policy_at policy.now moment) act channel.now stream }
{
    for rule in policy.rules() {
        if let Principals::One(principal) = rule.principals {
            let asked = Asked {
                policy,
                moment,
                principal,
                channel,
                stream,
            };
            if asked.may(act) {
                return false;
            }
        }
    }
    match stranger(policy.rules()) {
        Some(principal) => {
            let asked = Asked {
                policy,
                moment,
                principal,
                channel,
                stream,
            };
            !asked.may(act)
        }
        None => false,
    }
}
