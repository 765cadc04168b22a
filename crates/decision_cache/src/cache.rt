ghost use Rattle.decision_cache.specs.Entries.{AddsAtMost, IsAmong, IsSoundAt, IsSoundIn, key_of};
ghost use Rattle.decision_cache.specs.declared.key.Key.{Key};
ghost use Rattle.policy_core.specs.Moments.{at};
ghost use Rattle.policy_core.specs.Question.{Question, question_of};
ghost use Rattle.policy_core.specs.RuleList.{Rules};
ghost use Rattle.policy_core.specs.Rules.{verdict_of};
ghost use Rattle.policy_core.specs.declared.verdict.Verdict.{Verdict};
ghost use Rattle.std.specs.Prelude.{◌≡◌, ◌≤◌, ℕ, List, [], Contains, IfOk, IfSome, length};

use crate::deciding::Decides;
use crate::key::Key;
use lru::LruCache;
use policy_core::{Request, Verdict};
use std::alloc::{AllocError, Global};
use std::marker::Model;
use std::num::NonZeroUsize;

/// At most 256 verdicts; where one more comes, the one goes that was asked for longest ago.
#[derive(Drop)]
pub struct Cache {
    entries: LruCache<Key, Verdict>,
}

impl Model for Cache {
    ghost use Rattle.std.specs.Prelude.{◌≡◌, List};
    ghost use Rattle.policy_core.specs.declared.verdict.Verdict.{Verdict};
    ghost use Rattle.decision_cache.specs.declared.key.Key.{Key};

    ghost Value = { List (Key × Verdict) };

    ghost view = { λ cache. cache.entries.entries };

    ghost invariant = { λ cache. cache.entries.cap ≡ 256 };
}

impl Cache {
    /// A cache with no verdict. `AllocError` where there is no memory.
    pub fn new(alloc: Global) -> Result<Cache, AllocError>
        ensures { IfOk result (λ cache. cache ≡ []) }
    {
        let entries = LruCache::new(alloc, NonZeroUsize::new(256).unwrap())?;
        Ok(Cache { entries })
    }

    /// How many verdicts are held, at most 256.
    pub fn len(&self) -> usize
        ensures value { result ≡ length self.now }
        ensures few { result ≤ 256 }
    {
        self.entries.len()
    }

    /// The verdict under the key, where that was asked for last: then its place in the order stays.
    #[inline(always)]
    fn latest(&self, key: Key) -> Option<Verdict>
        ensures { IfSome result (λ verdict. Contains self.now (key, verdict)) }
    {
        match self.entries.peek_mru() {
            Some((held, verdict)) => { if *held == key { Some(*verdict) } else { None } }
            None => None,
        }
    }

    /// What the policy decides of `request` as it stands, which acts on the subject of this number: from the cache where it
    /// is there. A verdict that was kept before a bound of a rule is not one of the policy as it stands after it.
    /// Else the verdict is left in the cache, if there is memory for it; the answer is the same where there is none. It is made in
    /// place, since most questions are those of the step before, and handing the verdict on would take longer than finding it.
    #[inline(always)]
    pub fn verdict<P: Decides>(
        &mut self,
        policy: &P,
        subject: u64,
        request: &Request<'_>,
    ) -> Verdict
        requires { IsSoundAt self.old (P.given policy.now) (P.number policy.now) (P.as_of policy.now) subject (question_of request.now) }
        ensures verdict { result ≡ verdict_of (at (P.given policy.now) (P.as_of policy.now)) (P.number policy.now) (question_of request.now) }
        ensures entries { AddsAtMost self.old self.new (key_of (P.number policy.now) (P.as_of policy.now) subject (question_of request.now)) result }
        ensures keeps { (policies : List Rules) (question : Key → Question) → IsAmong policies (P.given policy.now) (P.number policy.now)
            → question (key_of (P.number policy.now) (P.as_of policy.now) subject (question_of request.now)) ≡ question_of request.now
            → IsSoundIn policies question self.old → IsSoundIn policies question self.new }
    {
        let key = Key {
            epoch: policy.epoch(),
            moment: policy.moment(),
            subject,
            principal: request.principal,
            act: request.act,
        };
        if let Some(found) = self.latest(key) {
            return found;
        }
        if let Some(found) = self.entries.get(&key) {
            return *found;
        }
        let verdict = policy.verdict(request);
        let _ = self.entries.put(key, verdict);
        verdict
    }
}
