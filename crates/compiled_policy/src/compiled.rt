ghost use Rattle.compiled_policy.specs.Numbered.{standing};
ghost use Rattle.policy_core.specs.MomentLaws.{is_before};
ghost use Rattle.policy_core.specs.Moments.{at, coming, ever, steady_until};
ghost use Rattle.policy_core.specs.Question.{question_of};
ghost use Rattle.policy_core.specs.Rules.{verdict_of};
ghost use Rattle.std.specs.Prelude.{◌≡◌, [], true, IfOk, false};

use crate::index::Index;
use policy_core::{Policy, Request, Standing, Verdict, least_rule_decides};
use std::alloc::{AllocError, Global};
use std::marker::Model;

/// The moment is before that one, if there is one.
fn is_before(moment: u64, bound: Option<u64>) -> bool
    ensures { result ≡ is_before moment bound }
{
    match bound {
        Some(bound) => moment < bound,
        None => true,
    }
}

/// A policy and its number, made ready, as it stands as of a moment. What it decides of a request takes time by the rules
/// of the request's act and medium that speak of everybody or of its principal, and of its stream. The others cost little: a
/// binary search among the bounds of their ranges, and a look at 256 of them at a time. There is room for 1,024 rules,
/// whatever policy it is.
#[derive(Debug, Drop)]
pub struct Compiled {
    /// The policy as its text has it.
    policy: Policy,
    epoch: u64,
    /// The moment as of which it stands.
    as_of: u64,
    /// The least bound of a rule after that.
    until: Option<u64>,
    index: Index,
}

impl Model for Compiled {
    ghost use Rattle.compiled_policy.specs.Numbered.{Numbered};

    ghost Value = { Numbered };

    ghost view = { λ compiled. record { given = compiled.policy; as_of = compiled.as_of; epoch = compiled.epoch } };

    ghost use Rattle.compiled_policy.specs.Index.{IsIndex};
    ghost use Rattle.policy_core.specs.Moments.{steady_until};
    ghost use Rattle.std.specs.Prelude.{◌≡◌};

    ghost invariant = { λ compiled.
        IsIndex compiled.policy.rules compiled.index × (compiled.until ≡ steady_until compiled.policy compiled.as_of) };
}

impl Compiled {
    /// The policy, whose number is `epoch`, made ready as of the moment 0.
    ///
    /// # Errors
    /// There is no memory for it; the policy has ended then.
    pub fn build(alloc: Global, policy: Policy, epoch: u64) -> Result<Compiled, AllocError>
        ensures { IfOk result (λ compiled. compiled ≡ record { given = policy; as_of = 0; epoch = epoch }) }
    {
        let mut index = Index::new(alloc)?;
        index.link(policy.rules());
        let until = policy.steady_until(0);
        Ok(Compiled {
            policy,
            epoch,
            as_of: 0,
            until,
            index,
        })
    }

    /// A policy without rules, which denies, under the number 0.
    ///
    /// # Errors
    /// There is no memory for it.
    pub fn room(alloc: Global) -> Result<Compiled, AllocError>
        ensures { IfOk result (λ compiled. compiled ≡ record { given = record { rules = []; default_allows = false }; as_of = 0; epoch = 0 }) }
    {
        Compiled::build(alloc, Policy::room(alloc)?, 0)
    }

    /// The policy as its text has it.
    pub fn given(&self) -> &Policy
        ensures { result.now ≡ self.now.given }
    {
        &self.policy
    }

    /// The policy as it stands.
    pub fn policy(&self) -> Standing<'_>
        ensures { result ≡ standing self.now }
    {
        self.policy.at(self.as_of)
    }

    /// The policy's number.
    pub fn epoch(&self) -> u64
        ensures { result ≡ self.now.epoch }
    {
        self.epoch
    }

    /// The moment as of which it stands.
    pub fn as_of(&self) -> u64
        ensures { result ≡ self.now.as_of }
    {
        self.as_of
    }

    /// What the policy decides of `request` at that moment: the word of the first rule that stands then and matches, or
    /// the default. It takes no memory.
    pub fn verdict_at(&self, moment: u64, request: &Request<'_>) -> Verdict
        ensures { result ≡ verdict_of (at self.now.given moment) self.now.epoch (question_of request.now) }
    {
        least_rule_decides();
        let rules = self.policy.rules();
        let policy = self.policy.at(moment);
        match self.index.first_match(&policy, request) {
            Some(index) => Verdict {
                allow: policy.word_of(index),
                rule: Some(index as u32 + 1),
                epoch: self.epoch,
            },
            None => Verdict {
                allow: self.policy.default_allows(),
                rule: None,
                epoch: self.epoch,
            },
        }
    }

    /// What the policy decides of `request` as it stands. It takes no memory.
    pub fn verdict(&self, request: &Request<'_>) -> Verdict
        ensures { result ≡ verdict_of (standing self.now) self.now.epoch (question_of request.now) }
    {
        self.verdict_at(self.as_of, request)
    }

    /// The least bound of a rule after this moment: up to it, and not at it, the policy stands as it does at the moment.
    /// It takes no memory.
    pub fn steady_until(&self, moment: u64) -> Option<u64>
        ensures { result ≡ steady_until self.now.given moment }
    {
        self.policy.steady_until(moment)
    }

    /// Whether no rule has a bound after the moment as of which it stands, so that it stands so for good.
    #[tactic(auto, using(policy_core::proofs::Bounds::settled))]
    pub fn is_settled(&self) -> bool
        ensures { result ≡ true → coming self.now.given self.now.as_of ≡ [] }
    {
        self.until.is_none()
    }

    /// Whether the rules let it stand at this moment as it does.
    #[tactic(auto, using(policy_core::proofs::Bounds::steady, policy_core::proofs::Bounds::steady_coming))]
    pub fn stands_so(&self, moment: u64) -> bool
        ensures policy { result ≡ true → at self.now.given moment ≡ at self.now.given self.now.as_of }
        ensures coming { result ≡ true → coming self.now.given moment ≡ coming self.now.given self.now.as_of }
    {
        self.as_of <= moment && is_before(moment, self.until)
    }

    /// Whether `request` is allowed at this moment or at a later one. It takes no memory.
    pub fn ever(&self, moment: u64, request: &Request<'_>) -> bool
        ensures { result ≡ ever self.now.given moment (question_of request.now) }
    {
        self.policy.ever(moment, request)
    }

    /// Stands as of this moment.
    pub fn stand(&mut self, moment: u64)
        ensures { self.new ≡ record self.old { as_of = moment } }
    {
        self.as_of = moment;
        self.until = self.policy.steady_until(moment);
    }

    /// Becomes this policy under this number, as of this moment. It takes no memory.
    pub fn compile(&mut self, policy: &Policy, epoch: u64, moment: u64)
        ensures { self.new ≡ record { given = policy.now; as_of = moment; epoch = epoch } }
    {
        self.policy.set_from(policy);
        self.epoch = epoch;
        self.as_of = moment;
        self.until = self.policy.steady_until(moment);
        self.index.link(self.policy.rules());
    }

    /// Becomes equal to another one. It takes no memory.
    pub fn set_from(&mut self, other: &Compiled)
        ensures { self.new ≡ other.now }
    {
        self.policy.set_from(&other.policy);
        self.epoch = other.epoch;
        self.as_of = other.as_of;
        self.until = other.until;
        self.index.set_from(&other.index);
    }

    /// Another one, equal to this one.
    ///
    /// # Errors
    /// There is no memory for it.
    pub fn copy(&self, alloc: Global) -> Result<Compiled, AllocError>
        ensures { IfOk result (λ compiled. compiled ≡ self.now) }
    {
        let mut copy = Compiled::room(alloc)?;
        copy.set_from(self);
        Ok(copy)
    }
}
