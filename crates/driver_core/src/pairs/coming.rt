//! The images that come with a subscription, and those that come with a log.

ghost use Rattle.driver_core.specs.Renewal.{available_from, available_on, available_to, decided_for, decided_from, decided_with, image_decision, reading};
ghost use Rattle.client_registry.specs.Clients.{principal_at};
ghost use Rattle.policy_core.specs.declared.decision.Decision.{Decision as DecisionSpec};
ghost use Rattle.std.specs.List.{flat_map};
ghost use Rattle.std.specs.Prelude.{◌≡◌, ◌++◌, ◌∷◌, [], Some, is_some, map, IfOk, OnOk};
ghost use Rattle.stream_registry.specs.Pairs.{is_pair, pair_of};
ghost use Rattle.stream_registry.specs.Wish.{row_of};

use crate::pairs::renewal::position_at;
use crate::state::event::End;
use crate::state::registry::Registry;
use crate::state::replies::{Message, Reply};
use crate::state::source_identity::SourceIdentity;
use byte_strings::Items;
use policy_core::{Act, Decision, Request};
use std::alloc::{AllocError, Global};
use stream_registry::{LogRow, Pair, Subscription, Wish, fits};

/// The message to the subscription's client that it reads a log, and from which position on.
fn available(ends: &[End], pair: Pair, log: &LogRow, wish: &Wish<'_>) -> Message
    ensures { result ∷ [] ≡ available_to ends.now pair (Some log.now) (Some (row_of wish.now)) }
{
    let reply = Reply::AvailableImage {
        source: pair.source,
        subscription: pair.subscription,
        session: log.session,
        stream: log.stream,
        position: position_at(ends, log.begins_at(), pair.source),
        identity: SourceIdentity::of(log),
    };
    Message {
        client: wish.client,
        reply,
    }
}

impl Registry {
    /// Reports to the subscription's client a log that it reads, and from which position on.
    fn push_available_on(
        &self,
        messages: &mut Items<Message>,
        ends: &[End],
        wish: &Wish<'_>,
        pair: Pair,
    ) -> Result<(), AllocError>
        ensures { OnOk result (messages.new ≡ messages.old ++ available_on self.now.streams.sources ends.now (row_of wish.now) pair) }
    {
        let Some(log) = self.source(pair.source) else {
            return Ok(());
        };
        messages.push(available(ends, pair, log, wish))
    }

    /// Reports to the subscription's client the logs that it reads.
    pub(crate) fn push_all_available_on(
        &self,
        messages: &mut Items<Message>,
        ends: &[End],
        wish: &Wish<'_>,
        come: &[Pair],
    ) -> Result<(), AllocError>
        ensures { OnOk result (messages.new ≡ messages.old ++ flat_map (available_on self.now.streams.sources ends.now (row_of wish.now)) come.now) }
    {
        for pair in come {
            self.push_available_on(messages, ends, wish, *pair)?;
        }
        Ok(())
    }

    /// What the policy in force decides on the images of a subscription whose client acts for this principal.
    fn image_decision(&self, wish: &Wish<'_>, principal: u32) -> Decision
        ensures { result ≡ image_decision self.now (row_of wish.now) principal }
    {
        let request = Request {
            principal,
            act: Act::Image,
            channel: wish.channel,
            stream: wish.stream,
        };
        Decision {
            principal,
            act: Act::Image,
            subject: wish.number,
            stream: wish.stream,
            verdict: self.compiled.verdict(&request),
        }
    }

    /// What the policy in force decides on the subscription's images: nothing where its client is not there.
    fn image_decisions(&self, alloc: Global, wish: &Wish<'_>) -> Result<Items<Decision>, AllocError>
        ensures { IfOk result (λ decisions. decisions ≡ decided_for self.now (row_of wish.now) (principal_at self.now.clients.rows wish.now.client)) }
    {
        let mut decisions = Items::new(alloc);
        let Some(principal) = self.clients.principal_of(wish.client) else {
            return Ok(decisions);
        };
        decisions.push(self.image_decision(wish, principal))?;
        Ok(decisions)
    }

    /// Puts what is decided on the subscription's images after the others, where the log is there.
    fn push_decided_with(
        &self,
        decisions: &mut Items<Decision>,
        wish: &Wish<'_>,
        decided: &[Decision],
        pair: Pair,
    ) -> Result<(), AllocError>
        requires { decided.now ≡ decided_for self.now (row_of wish.now) (principal_at self.now.clients.rows wish.now.client) }
        ensures { OnOk result (decisions.new ≡ decisions.old ++ decided_with self.now (row_of wish.now) pair) }
    {
        if self.source(pair.source).is_none() {
            return Ok(());
        }
        push_all(decisions, decided)
    }

    /// Says what is decided on the images of the subscription; the policy is asked once.
    pub(crate) fn push_all_decided_with(
        &self,
        alloc: Global,
        decisions: &mut Items<Decision>,
        wish: &Wish<'_>,
        come: &[Pair],
    ) -> Result<(), AllocError>
        ensures { OnOk result (decisions.new ≡ decisions.old ++ flat_map (decided_with self.now (row_of wish.now)) come.now) }
    {
        let decided = self.image_decisions(alloc, wish)?;
        for pair in come {
            self.push_decided_with(decisions, wish, decided.as_slice(), *pair)?;
        }
        Ok(())
    }

    /// On which decision a subscription reads the log, if it does. The policy is asked where they fit.
    #[tactic(auto, unfolding(stream_registry::specs::Pairs::is_allowed))]
    fn read_on(&self, log: &LogRow, wish: &Wish<'_>) -> Option<Decision>
        ensures reads { is_some result ≡ is_pair self.now.clients.rows self.now.policy self.now.epoch log.now (row_of wish.now) }
        ensures decided { (decision : DecisionSpec) → result ≡ Some decision → decided_from self.now (row_of wish.now) ≡ decision ∷ [] }
    {
        if !fits(log, wish) {
            return None;
        }
        let principal = self.clients.principal_of(wish.client)?;
        let decision = self.image_decision(wish, principal);
        if !decision.verdict.allow {
            return None;
        }
        Some(decision)
    }

    /// Reports a log that comes to the clients of those of these subscriptions that read it, with what is decided on each,
    /// and the pairs that it brings. The policy is asked once for each subscription that fits.
    pub(crate) fn push_images_of(
        &self,
        messages: &mut Items<Message>,
        decisions: &mut Items<Decision>,
        come: &mut Items<Pair>,
        ends: &[End],
        log: &LogRow,
        subscriptions: &[Subscription],
    ) -> Result<(), AllocError>
        ensures told { OnOk result (messages.new ≡ messages.old ++ flat_map (available_from ends.now log.now) (reading self.now log.now subscriptions.now)) }
        ensures decided { OnOk result (decisions.new ≡ decisions.old ++ flat_map (decided_from self.now) (reading self.now log.now subscriptions.now)) }
        ensures come { OnOk result (come.new ≡ come.old ++ map (pair_of log.now) (reading self.now log.now subscriptions.now)) }
    {
        for subscription in subscriptions {
            let wish = subscription.wish();
            if let Some(decision) = self.read_on(log, &wish) {
                let pair = Pair {
                    source: log.number,
                    subscription: subscription.number,
                };
                messages.push(available(ends, pair, log, &wish))?;
                decisions.push(decision)?;
                come.push(pair)?;
            }
        }
        Ok(())
    }
}

/// Puts decisions after the others.
fn push_all(decisions: &mut Items<Decision>, more: &[Decision]) -> Result<(), AllocError>
    ensures { OnOk result (decisions.new ≡ decisions.old ++ more.now) }
{
    for decision in more {
        decisions.push(*decision)?;
    }
    Ok(())
}
