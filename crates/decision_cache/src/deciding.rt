ghost use Rattle.policy_core.specs.Moments.{at};
ghost use Rattle.policy_core.specs.Question.{question_of};
ghost use Rattle.policy_core.specs.RuleList.{Rules};
ghost use Rattle.policy_core.specs.Rules.{verdict_of};
ghost use Rattle.std.specs.Prelude.{◌≡◌, ℕ};

use compiled_policy::Compiled;
use policy_core::{Policy, Request, Verdict};

/// A policy under a number, as it stands as of a moment: whatever decides as the policy does then.
pub trait Decides {
    /// The policy as its text has it.
    ghost given: { Self → Rules };

    /// The moment as of which it stands.
    ghost as_of: { Self → ℕ };

    /// Its number.
    ghost number: { Self → ℕ };

    /// The policy's number, counted from 1.
    fn epoch(&self) -> u64
        ensures { result ≡ number self.now };

    /// The moment as of which it stands.
    fn moment(&self) -> u64
        ensures { result ≡ as_of self.now };

    /// What the policy decides of `request`: the word of the first rule that stands and matches, or the default.
    fn verdict(&self, request: &Request<'_>) -> Verdict
        ensures { result ≡ verdict_of (at (given self.now) (as_of self.now)) (number self.now) (question_of request.now) };
}

/// A policy whose rules are gone through one after the other, with its number and the moment as of which it stands.
#[derive(Clone, Copy)]
pub struct Numbered<'a> {
    /// The policy.
    pub policy: &'a Policy,
    /// Its number, counted from 1.
    pub epoch: u64,
    /// The moment as of which it stands.
    pub moment: u64,
}

impl Decides for Numbered<'_> {
    ghost given = { λ numbered. numbered.policy.now };

    ghost as_of = { λ numbered. numbered.moment };

    ghost number = { λ numbered. numbered.epoch };

    fn epoch(&self) -> u64 {
        self.epoch
    }

    fn moment(&self) -> u64 {
        self.moment
    }

    fn verdict(&self, request: &Request<'_>) -> Verdict {
        self.policy.verdict(self.epoch, self.moment, request)
    }
}

impl Decides for Compiled {
    ghost given = { λ compiled. compiled.given };

    ghost as_of = { λ compiled. compiled.as_of };

    ghost number = { λ compiled. compiled.epoch };

    fn epoch(&self) -> u64 {
        Compiled::epoch(self)
    }

    fn moment(&self) -> u64 {
        Compiled::as_of(self)
    }

    fn verdict(&self, request: &Request<'_>) -> Verdict {
        Compiled::verdict(self, request)
    }
}
