ghost use Rattle.driver_core.specs.LogRequests.{has_pair, offering_of, receiving_of, row_decision};
ghost use Rattle.std.specs.Prelude.{◌≡◌};

use crate::state::registry::Registry;
use channel_uri::Channel;
use client_registry::Client;
use policy_core::{Act, Decision, Request};

/// A client asks something of a log that is there for it.
#[derive(Clone, Copy, Debug, PartialEq, Eq)]
pub struct LogRequest {
    /// The source number of the log.
    pub source: u64,
    /// What the policy in force decides on it.
    pub decision: Decision,
}

impl Registry {
    /// What the policy in force decides on the act of a client, where the decision is on the row of this number.
    fn row_decision(
        &self,
        client: Client,
        act: Act,
        number: u64,
        channel: &Channel,
        stream: i32,
    ) -> Decision
        ensures { result ≡ row_decision self.now client act number channel.now stream }
    {
        let request = Request {
            principal: client.principal,
            act,
            channel,
            stream,
        };
        Decision {
            principal: client.principal,
            act,
            subject: number,
            stream,
            verdict: self.compiled.verdict(&request),
        }
    }

    /// With which log the client's registration is, and whether the policy in force lets the client offer messages to it,
    /// on the registration's own channel and the log's stream. `None` where the client is not attached, or has no such
    /// registration. It takes no memory.
    #[tactic(auto, unfolding(crate::specs::LogRequests::offering_of))]
    pub fn offering(&self, client: u64, registration: u64) -> Option<LogRequest>
        ensures { result ≡ offering_of self.now client registration }
    {
        let holder = self.clients.get(client)?;
        let registration = self.own_registration(client, registration)?;
        let publication = self.source(registration.source)?;
        Some(LogRequest {
            source: publication.number,
            decision: self.row_decision(
                holder,
                Act::Offer,
                registration.number,
                &registration.channel,
                publication.stream,
            ),
        })
    }

    /// Whether the subscription of this number reads a log of this source number.
    pub(crate) fn has_pair(&self, source: u64, subscription: u64) -> bool
        ensures { result ≡ has_pair self.now source subscription }
    {
        self.readers.has(&self.streams, source, subscription)
    }

    /// Whether the policy in force lets the client receive messages from the log of that source number, on the channel and
    /// stream of its own subscription. `None` where the subscription does not read that log, or is not the client's, or the
    /// client is not attached. It takes no memory.
    #[tactic(auto, unfolding(crate::specs::LogRequests::receiving_of))]
    pub fn receiving(&self, client: u64, subscription: u64, source: u64) -> Option<LogRequest>
        ensures { result ≡ receiving_of self.now client subscription source }
    {
        if !self.has_pair(source, subscription) {
            return None;
        }
        let holder = self.clients.get(client)?;
        let subscription = self.subscription(subscription)?;
        if subscription.client != client {
            return None;
        }
        Some(LogRequest {
            source,
            decision: self.row_decision(
                holder,
                Act::Receive,
                subscription.number,
                &subscription.channel,
                subscription.stream,
            ),
        })
    }
}
