//! Offers and polls that are decided by an actor's cache.

ghost use Rattle.decision_cache.specs.declared.key.Key.{Key};
ghost use Rattle.driver_core.specs.Cached.{AreCached, offer_question, poll_question};
ghost use Rattle.driver_core.specs.declared.state.event.Event.{Event};
ghost use Rattle.driver_core.specs.declared.state.event.Inputs.{Inputs};
ghost use Rattle.driver_core.specs.Conduct.{state_after};
ghost use Rattle.driver_core.specs.LogRequests.{offering_of, receiving_of};
ghost use Rattle.driver_core.specs.State.{State};
ghost use Rattle.policy_core.specs.declared.verdict.Verdict.{Verdict};
ghost use Rattle.policy_core.specs.Rules.{verdict_of};
ghost use Rattle.std.specs.Prelude.{◌≡◌, List, [], Contains};

use crate::asked::log_request::LogRequest;
use crate::state::registry::Registry;
use decision_cache::Cache;
use policy_core::{Act, Decision, Request, Verdict};
use stream_registry::{LogRow, Registration, Subscription};

/// What is cached of one registry is right of each that comes after it: no event makes an entry wrong, also where it puts
/// a policy in force, or takes a row away. An empty cache is right of any.
pub fn cached_verdicts_stay_right()
    ensures empty { (s : State) → AreCached s [] }
    ensures after { (s : State) (event : Event) (inputs : Inputs) (entries : List (Key × Verdict)) →
        AreCached s entries → AreCached (state_after s event inputs) entries }
{}

impl Registry {
    /// What the policy in force decides on a principal's offer by the registration, whose log that is.
    fn offer_verdict(
        &self,
        cache: &mut Cache,
        principal: u32,
        registration: &Registration,
        log: &LogRow,
    ) -> Verdict
        requires registered { Contains self.now.streams.registrations registration.now }
        requires live { Contains self.now.streams.sources log.now }
        requires with { log.now.number ≡ registration.now.source }
        requires cached { AreCached self.now cache.old }
        ensures verdict { result ≡ verdict_of self.now.policy self.now.epoch (offer_question principal registration.now log.now) }
        ensures cached { AreCached self.now cache.new }
    {
        let request = Request {
            principal,
            act: Act::Offer,
            channel: &registration.channel,
            stream: log.stream,
        };
        cache.verdict(&self.compiled, registration.number, &request)
    }

    /// What the policy in force decides on a principal's poll by the subscription.
    fn poll_verdict(
        &self,
        cache: &mut Cache,
        principal: u32,
        subscription: &Subscription,
    ) -> Verdict
        requires subscribed { Contains self.now.streams.subscriptions subscription.now }
        requires cached { AreCached self.now cache.old }
        ensures verdict { result ≡ verdict_of self.now.policy self.now.epoch (poll_question principal subscription.now) }
        ensures cached { AreCached self.now cache.new }
    {
        let request = Request {
            principal,
            act: Act::Receive,
            channel: &subscription.channel,
            stream: subscription.stream,
        };
        cache.verdict(&self.compiled, subscription.number, &request)
    }

    /// As [`Registry::offering`] says, with the verdict from the cache where it is there. Where the cache finds no memory
    /// for a verdict, the answer is the same.
    #[tactic(auto, unfolding(crate::specs::LogRequests::offering_of))]
    pub fn offering_cached(
        &self,
        cache: &mut Cache,
        client: u64,
        registration: u64,
    ) -> Option<LogRequest>
        requires { AreCached self.now cache.old }
        ensures value { result ≡ offering_of self.now client registration }
        ensures cached { AreCached self.now cache.new }
    {
        let holder = self.clients.get(client)?;
        let registration = self.own_registration(client, registration)?;
        let log = self.source(registration.source)?;
        Some(LogRequest {
            source: log.number,
            decision: Decision {
                principal: holder.principal,
                act: Act::Offer,
                subject: registration.number,
                stream: log.stream,
                verdict: self.offer_verdict(cache, holder.principal, registration, log),
            },
        })
    }

    /// As [`Registry::receiving`] says, with the verdict from the cache where it is there. Where the cache finds no memory
    /// for a verdict, the answer is the same.
    #[tactic(auto, unfolding(crate::specs::LogRequests::receiving_of))]
    pub fn receiving_cached(
        &self,
        cache: &mut Cache,
        client: u64,
        subscription: u64,
        source: u64,
    ) -> Option<LogRequest>
        requires { AreCached self.now cache.old }
        ensures value { result ≡ receiving_of self.now client subscription source }
        ensures cached { AreCached self.now cache.new }
    {
        if !self.has_pair(source, subscription) {
            return None;
        }
        let holder = self.clients.get(client)?;
        let subscription = self.subscription(subscription)?;
        if subscription.client != client {
            return None;
        }
        Some(LogRequest {
            source,
            decision: Decision {
                principal: holder.principal,
                act: Act::Receive,
                subject: subscription.number,
                stream: subscription.stream,
                verdict: self.poll_verdict(cache, holder.principal, subscription),
            },
        })
    }
}
