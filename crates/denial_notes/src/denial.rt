ghost use Rattle.denial_notes.specs.Denials.{again_text, called, decider_text, denial_of, denial_text, is_like, is_same_rule, times_text};
ghost use Rattle.policy_core.specs.Act.{act_number};
ghost use Rattle.std.specs.Prelude.{◌≡◌, ◌==◌, Some};

use policy_core::{Act, Decision, Verdict};
use std::fmt;

/// What a policy denies to a principal. Which registration, pair or destination it was about is left out.
#[derive(Clone, Copy, Debug, PartialEq, Eq)]
pub struct Denial {
    pub principal: u32,
    pub act: Act,
    pub stream: i32,
    pub verdict: Verdict,
}

/// Whether both are by the same rule, or both by the default.
fn is_same_rule(one: Option<u32>, other: Option<u32>) -> bool
    ensures { result ≡ is_same_rule one other }
{
    match (one, other) {
        (Some(one), Some(other)) => one == other,
        (None, None) => true,
        _ => false,
    }
}

/// Whether both are the same act.
fn is_same_act(one: Act, other: Act) -> bool
    ensures { result ≡ act_number one == act_number other }
{
    one as usize == other as usize
}

impl Denial {
    /// What a decision denies; `None` where it allows.
    pub fn of(decision: &Decision) -> Option<Denial>
        ensures { result ≡ denial_of decision.now }
    {
        if decision.verdict.allow {
            return None;
        }
        Some(Denial {
            principal: decision.principal,
            act: decision.act,
            stream: decision.stream,
            verdict: decision.verdict,
        })
    }

    /// Whether the same is denied, by the same rule of the same policy.
    pub(crate) fn is_like(&self, other: &Denial) -> bool
        ensures { result ≡ is_like other.now self.now }
    {
        self.principal == other.principal
            && is_same_act(self.act, other.act)
            && self.stream == other.stream
            && self.verdict.epoch == other.verdict.epoch
            && is_same_rule(self.verdict.rule, other.verdict.rule)
    }
}

/// The name of a rule, behind its number; nothing where it is not known.
#[derive(Clone, Copy)]
struct Called<'a>(&'a str);

impl fmt::Display for Called<'_> {
    ghost output = { λ name. Some (called name.0.now) };

    fn fmt<W: fmt::Write>(&self, f: &mut fmt::Formatter<W>) -> fmt::Result {
        let name = self.0;
        if name.is_empty() {
            return Ok(());
        }
        write!(f, " \"{name}\"")
    }
}

/// What decided: the rule of a number, with its name, or the default.
#[derive(Clone, Copy)]
pub struct Decider<'a> {
    pub rule: Option<u32>,
    /// Empty where it is not known.
    pub name: &'a str,
}

impl fmt::Display for Decider<'_> {
    ghost output = { λ decider. Some (decider_text decider.name.now decider.rule) };

    fn fmt<W: fmt::Write>(&self, f: &mut fmt::Formatter<W>) -> fmt::Result {
        match self.rule {
            Some(rule) => {
                let called = Called(self.name);
                write!(f, "rule {rule}{called}")
            }
            None => f.write_str("default"),
        }
    }
}

/// A denial, with the names by which operators know its principal and its rule. The rule's is empty where it is not known.
#[derive(Clone, Copy)]
pub struct Worded<'a> {
    pub principal: &'a str,
    pub rule: &'a str,
    pub denial: Denial,
}

impl fmt::Display for Worded<'_> {
    ghost output = { λ worded. Some (denial_text worded.principal.now worded.rule.now worded.denial) };

    fn fmt<W: fmt::Write>(&self, f: &mut fmt::Formatter<W>) -> fmt::Result {
        let Worded {
            principal,
            rule: name,
            denial,
        } = *self;
        let act = denial.act.name();
        let stream = denial.stream;
        let epoch = denial.verdict.epoch;
        let rule = denial.verdict.rule;
        let decider = Decider { rule, name };
        write!(
            f,
            "{principal}: {act} on stream {stream} denied by {decider} in policy {epoch}"
        )
    }
}

/// How often.
#[derive(Clone, Copy)]
struct Times(u64);

impl fmt::Display for Times {
    ghost output = { λ times. Some (times_text times.0) };

    fn fmt<W: fmt::Write>(&self, f: &mut fmt::Formatter<W>) -> fmt::Result {
        let times = self.0;
        if times == 1 {
            return f.write_str("once");
        }
        write!(f, "{times} times")
    }
}

/// A denial that came again, and how often.
#[derive(Clone, Copy)]
pub struct Again<'a> {
    pub worded: Worded<'a>,
    pub times: u64,
}

impl fmt::Display for Again<'_> {
    ghost output = { λ again. Some (again_text again.worded.principal.now again.worded.rule.now again.worded.denial again.times) };

    fn fmt<W: fmt::Write>(&self, f: &mut fmt::Formatter<W>) -> fmt::Result {
        let worded = self.worded;
        let times = Times(self.times);
        write!(f, "{worded}, {times} more")
    }
}
