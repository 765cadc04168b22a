ghost use Rattle.decision_cache.specs.Entries.{AddsAtMost, key_of};
ghost use Rattle.words_and_tables_tests.specs.Questions.{answer_of, asked};
ghost use Rattle.std.specs.Prelude.{◌≡◌, ◌++◌, ◌∷◌, [], IfNone, IfOk, IfSome, OnErr, OnOk, length};

use channel_uri::Channel;
use decision_cache::{Cache, Numbered, cached_verdicts_stay_sound};
use policy_core::{Act, Policy, Request, Verdict};
use std::alloc::{AllocError, Global};
use std::marker::Model;

/// Policies, each under the number of its place, counted from 1, and the verdicts that were decided by them. Each
/// subject is the stream of its number on one channel.
#[derive(Drop)]
pub struct Desk {
    cache: Cache,
    channel: Channel,
    policies: Vec<Policy>,
}

impl Model for Desk {
    ghost use Rattle.decision_cache.specs.Entries.{IsSoundIn};
    ghost use Rattle.words_and_tables_tests.specs.Questions.{Held, question_on};

    ghost Value = { Held };

    ghost view = { λ desk. record { channel = desk.channel; policies = desk.policies.items; verdicts = desk.cache } };

    ghost invariant = { λ desk. IsSoundIn desk.policies.items (question_on desk.channel) desk.cache };
}

impl Desk {
    /// No policy, and no verdict.
    pub fn new(alloc: Global, channel: Channel) -> Result<Desk, AllocError>
        ensures { IfOk result (λ desk. desk ≡ record { channel = channel; policies = []; verdicts = [] }) }
    {
        cached_verdicts_stay_sound();
        let cache = Cache::new(alloc)?;
        Ok(Desk {
            cache,
            channel,
            policies: Vec::new(alloc),
        })
    }

    /// Puts one more policy in force, under the next number. No verdict is thrown away.
    pub fn reload(&mut self, policy: Policy) -> Result<(), AllocError>
        ensures value { OnOk result (self.new ≡ record { channel = self.old.channel; policies = self.old.policies ++ policy ∷ []; verdicts = self.old.verdicts }) }
        ensures err { OnErr result (self.new ≡ self.old) }
    {
        cached_verdicts_stay_sound();
        self.policies.push(policy)?;
        Ok(())
    }

    /// How many verdicts are held.
    pub fn held(&self) -> usize
        ensures { result ≡ length self.now.verdicts }
    {
        self.cache.len()
    }

    /// What the policy of this number decides at this moment, from the cache where it is there; `None` where there is no such
    /// policy.
    pub fn ask(
        &mut self,
        epoch: u64,
        moment: u64,
        subject: u16,
        principal: u32,
        act: Act,
    ) -> Option<Verdict>
        ensures answer { result ≡ answer_of self.old epoch moment (asked self.old.channel subject principal act) }
        ensures channel { self.new.channel ≡ self.old.channel }
        ensures policies { self.new.policies ≡ self.old.policies }
        ensures kept { IfSome result (λ verdict. AddsAtMost self.old.verdicts self.new.verdicts
            (key_of epoch moment subject (asked self.old.channel subject principal act)) verdict) }
        ensures unknown { IfNone result (self.new ≡ self.old) }
    {
        let place = (epoch as usize).checked_sub(1)?;
        let policy = self.policies.get(place)?;
        let request = Request {
            principal,
            act,
            channel: &self.channel,
            stream: i32::from(subject),
        };
        cached_verdicts_stay_sound();
        let numbered = Numbered {
            policy,
            epoch,
            moment,
        };
        Some(self.cache.verdict(&numbered, u64::from(subject), &request))
    }
}
