ghost use Rattle.policy_tools.specs.Cases.{IsReport, decided, failing_act, failing_from, failing_stream, failure_at, failure_of, is_by, is_named, is_single, is_wanted};
ghost use Rattle.std.specs.Prelude.{◌≡◌, IfOk, Some};

use crate::alike::end_of_all;
use byte_strings::{ShortText, Text};
use channel_uri::Channel;
use policy_core::{Act, Policy, Request, Rule, Verdict};
use std::alloc::{AllocError, Global};
use std::fmt;
use std::marker::Model;

/// By what a case wants to be decided.
#[derive(Debug, Drop)]
pub enum By {
    /// By whatever it is.
    Any,
    /// By the default, where no rule matches.
    Default,
    /// By the rule of this number, counted from 1.
    Rule(u32),
    /// By a rule of this name.
    Name(ShortText<64>),
}

/// Questions, and what a policy has to decide of each of them.
#[derive(Debug, Drop)]
pub struct Case {
    /// The number of its line, counted from 1.
    pub line: u32,
    /// Its line.
    pub text: Text,
    /// Who ask, by their names and numbers.
    pub principals: Vec<(Text, u32)>,
    /// What each of them asks.
    pub acts: Vec<Act>,
    /// On which channel.
    pub channel: Channel,
    /// On which streams: from this one,
    pub low: i32,
    /// up to this one.
    pub high: i32,
    /// The word that is wanted.
    pub allow: bool,
    /// By what.
    pub by: By,
}

impl Model for Case {
    ghost use Rattle.policy_tools.specs.Cases.{Wanted};

    ghost Value = { Wanted };

    ghost view = { λ case. record { line = case.line; text = case.text; principals = case.principals.items; acts = case.acts.items; channel = case.channel; low = case.low; high = case.high; allow = case.allow; by = case.by } };
}

/// A case that failed.
#[derive(Debug, Drop)]
pub struct Failure {
    /// The number of its line, counted from 1.
    pub line: u32,
    /// Its line.
    pub text: Text,
    /// Whether the case asks this question alone.
    pub is_single: bool,
    /// Who asked what was not decided as it is wanted,
    pub principal: Text,
    /// of which act,
    pub act: Act,
    /// on which stream.
    pub stream: i32,
    /// What the policy decided.
    pub verdict: Verdict,
}

impl fmt::Display for Failure {
    fn fmt<W: fmt::Write>(&self, f: &mut fmt::Formatter<W>) -> fmt::Result {
        let line = self.line;
        let text = self.text.as_str();
        let verdict = self.verdict;
        if self.is_single {
            return write!(f, "line {line}: {text}: {verdict}");
        }
        let principal = self.principal.as_str();
        let act = self.act.name();
        let stream = self.stream;
        write!(
            f,
            "line {line}: {text}: {principal} {act} {stream}: {verdict}"
        )
    }
}

/// Whether the rule of this number, counted from 1, has that name.
fn is_named(rules: &[Rule], name: &str, number: u32) -> bool
    ensures { result ≡ is_named rules.now name.now number }
{
    if number == 0 {
        return false;
    }
    match rules.get((number - 1) as usize) {
        Some(rule) => name == rule.name.as_str(),
        None => false,
    }
}

/// Whether the one that decided is the one that is wanted.
fn is_by(rules: &[Rule], by: &By, decided: Option<u32>) -> bool
    ensures { result ≡ is_by rules.now by.now decided }
{
    match by {
        By::Any => true,
        By::Default => decided.is_none(),
        By::Rule(wanted) => match decided {
            Some(rule) => *wanted == rule,
            None => false,
        },
        By::Name(name) => match decided {
            Some(rule) => is_named(rules, name.as_str(), rule),
            None => false,
        },
    }
}

impl Case {
    /// What the policy decides of one of the questions, as policy 1.
    fn verdict(&self, policy: &Policy, principal: u32, act: Act, stream: i32) -> Verdict
        ensures { result ≡ decided policy.now self.now principal act stream }
    {
        let request = Request {
            principal,
            act,
            channel: &self.channel,
            stream,
        };
        policy.settled_verdict(1, &request)
    }

    /// Whether that verdict is the one that the case wants.
    fn is_wanted(&self, policy: &Policy, principal: u32, act: Act, stream: i32) -> bool
        ensures { result ≡ is_wanted policy.now self.now principal act stream }
    {
        let verdict = self.verdict(policy, principal, act, stream);
        self.allow == verdict.allow && is_by(policy.rules(), &self.by, verdict.rule)
    }

    /// The first stream from one to another on which an act of a principal is not decided as it is wanted. Streams between two
    /// ends of rules are decided alike, so that one of them is asked for all.
    fn failing_from(
        &self,
        policy: &Policy,
        principal: u32,
        act: Act,
        low: i32,
        high: i32,
    ) -> Option<i32>
        ensures { result ≡ failing_from policy.now self.now principal act low high }
    {
        let mut stream = low;
        'stretches: while stream < high {
            if !self.is_wanted(policy, principal, act, stream) {
                return Some(stream);
            }
            let end = end_of_all(policy.rules(), stream, high);
            if high <= end {
                return None;
            }
            stream = end + 1;
        }
        if self.is_wanted(policy, principal, act, stream) {
            None
        } else {
            Some(stream)
        }
    }

    /// The first stream of the case on which it is not.
    fn failing_stream(&self, policy: &Policy, principal: u32, act: Act) -> Option<i32>
        ensures { result ≡ failing_stream policy.now self.now principal act }
    {
        self.failing_from(policy, principal, act, self.low, self.high)
    }

    /// The first act of a principal that is not decided as it is wanted, and the first stream on which it is not.
    fn failing_act(&self, policy: &Policy, principal: u32) -> Option<(Act, i32)>
        ensures { result ≡ failing_act policy.now self.now principal self.now.acts }
    {
        for act in &self.acts {
            if let Some(stream) = self.failing_stream(policy, principal, *act) {
                return Some((*act, stream));
            }
        }
        None
    }

    /// Whether the case asks one question.
    fn is_single(&self) -> bool
        ensures { result ≡ is_single self.now }
    {
        self.principals.len() == 1 && self.acts.len() == 1 && self.low == self.high
    }

    /// What is reported of a question of the case.
    fn failure_at(
        &self,
        alloc: Global,
        policy: &Policy,
        name: &Text,
        principal: u32,
        act: Act,
        stream: i32,
    ) -> Result<Failure, AllocError>
        ensures { IfOk result (λ failure. Some failure ≡ failure_at policy.now self.now name.now principal (Some (act, stream))) }
    {
        Ok(Failure {
            line: self.line,
            text: self.text.copy(alloc)?,
            is_single: self.is_single(),
            principal: name.copy(alloc)?,
            act,
            stream,
            verdict: self.verdict(policy, principal, act, stream),
        })
    }

    /// What is reported of the case where it fails.
    #[tactic(auto, unfolding(crate::specs::Cases::failure_of))]
    pub fn failure(&self, alloc: Global, policy: &Policy) -> Result<Option<Failure>, AllocError>
        ensures { IfOk result (λ failure. failure ≡ failure_of policy.now self.now) }
    {
        for (name, principal) in &self.principals {
            if let Some((act, stream)) = self.failing_act(policy, *principal) {
                let failure = self.failure_at(alloc, policy, name, *principal, act, stream)?;
                return Ok(Some(failure));
            }
        }
        Ok(None)
    }
}

/// Which cases failed, and how many passed.
#[derive(Debug, Drop)]
pub struct Report {
    /// Those that failed, in their order.
    pub failures: Vec<Failure>,
    /// How many passed.
    pub passed: usize,
}

impl Report {
    /// Asks the policy, as policy 1, the questions of each case.
    pub fn of(alloc: Global, policy: &Policy, cases: &[Case]) -> Result<Report, AllocError>
        ensures { IfOk result (λ report. IsReport policy.now cases.now report.failures.items report.passed) }
    {
        let mut failures = Vec::new(alloc);
        let mut passed = 0;
        for case in cases {
            match case.failure(alloc, policy)? {
                Some(failure) => failures.push(failure)?,
                None => passed += 1,
            }
        }
        Ok(Report { failures, passed })
    }
}
