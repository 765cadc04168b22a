ghost use Rattle.driver_core.specs.PublicationRequests.{is_sent_as, joined_as, joining_of, log_decision, principal_at, publication_at, publication_for, publisher_of, resend_decision, resending_of};
ghost use Rattle.std.specs.Option.{option_copied};
ghost use Rattle.std.specs.Prelude.{◌≡◌, find};

use crate::asked::log_request::LogRequest;
use crate::rules::directing::is_dynamic;
use crate::state::peer::Peer;
use crate::state::registry::Registry;
use channel_uri::{Address, Channel, Media};
use policy_core::{Act, Decision, Request};
use stream_registry::LogRow;

/// A status message came for a log.
#[derive(Clone, Copy, Debug, PartialEq, Eq)]
pub struct JoinRequest {
    /// The source number of the log.
    pub source: u64,
    /// What the policy in force decides on the address from which it came, where the log's destinations are learnt.
    pub decision: Option<Decision>,
}

/// Whether it is published over datagrams, under that session and stream.
fn is_sent_as(log: &LogRow, session: i32, stream: i32) -> bool
    ensures { result ≡ is_sent_as session stream log.now }
{
    log.is_published()
        && log.channel.media() == Media::Udp
        && log.session == session
        && log.stream == stream
}

/// The first of these logs that is published over datagrams under that session and stream.
fn publication_in(logs: &[LogRow], session: i32, stream: i32) -> Option<&LogRow>
    ensures { option_copied result ≡ find (is_sent_as session stream) logs.now }
{
    for log in logs {
        if is_sent_as(log, session, stream) {
            return Some(log);
        }
    }
    None
}

/// The principal that is bound to an address, 0 where none is.
pub(crate) fn principal_at(peers: &[Peer], address: &Address) -> u32
    ensures { result ≡ principal_at peers.now address.now }
{
    for peer in peers {
        if peer.address == *address {
            return peer.principal;
        }
    }
    0
}

impl Registry {
    /// What the policy in force decides on an act of a principal on the log of this number.
    pub(crate) fn log_decision(
        &self,
        principal: u32,
        act: Act,
        number: u64,
        channel: &Channel,
        stream: i32,
    ) -> Decision
        ensures { result ≡ log_decision self.now principal act number channel.now stream }
    {
        let request = Request {
            principal,
            act,
            channel,
            stream,
        };
        Decision {
            principal,
            act,
            subject: number,
            stream,
            verdict: self.compiled.verdict(&request),
        }
    }

    /// The publication over datagrams of that session and stream.
    fn publication_at(&self, session: i32, stream: i32) -> Option<&LogRow>
        ensures { option_copied result ≡ publication_at self.now session stream }
    {
        publication_in(self.streams.sources(), session, stream)
    }

    /// The source number of the publication over datagrams of that session and stream, for which a receiver's datagram is,
    /// whichever address it came to. `None` where there is none. It takes no memory.
    #[tactic(auto, unfolding(crate::specs::PublicationRequests::publication_for))]
    pub fn publication_for(&self, session: i32, stream: i32) -> Option<u64>
        ensures { result ≡ publication_for self.now session stream }
    {
        match self.publication_at(session, stream) {
            Some(log) => Some(log.number),
            None => None,
        }
    }

    /// Of which publication over datagrams a NAK from that address asks for frames, and whether the policy in force lets the
    /// principal that is bound to the address have them, on the log's own channel and stream. `None` where there is no such
    /// publication. It takes no memory.
    #[tactic(auto, unfolding(crate::specs::PublicationRequests::resending_of))]
    pub fn resending(&self, from: &Address, session: i32, stream: i32) -> Option<LogRequest>
        ensures { result ≡ resending_of self.now from.now session stream }
    {
        match self.publication_at(session, stream) {
            Some(log) => Some(LogRequest {
                source: log.number,
                decision: self.log_decision(
                    principal_at(self.peers.as_slice(), from),
                    Act::Retransmit,
                    log.number,
                    &log.channel,
                    log.stream,
                ),
            }),
            None => None,
        }
    }

    /// What the policy in force decides on an address from which a status message came for the log, where its destinations are
    /// learnt: of the principal that is bound to the address, on the log's own channel and stream.
    fn joined_as(&self, from: &Address, log: &LogRow) -> Option<Decision>
        ensures { result ≡ joined_as self.now from.now log.now }
    {
        if !is_dynamic(&log.channel) {
            return None;
        }
        let principal = principal_at(self.peers.as_slice(), from);
        Some(self.log_decision(principal, Act::Join, log.number, &log.channel, log.stream))
    }

    /// For which publication over datagrams a status message from that address is; and where its destinations are learnt,
    /// whether the policy in force lets the principal that is bound to the address become one, on the log's own channel and
    /// stream. `None` where there is no such publication. It takes no memory.
    #[tactic(auto, unfolding(crate::specs::PublicationRequests::joining_of))]
    pub fn joining(&self, from: &Address, session: i32, stream: i32) -> Option<JoinRequest>
        ensures { result ≡ joining_of self.now from.now session stream }
    {
        match self.publication_at(session, stream) {
            Some(log) => Some(JoinRequest {
                source: log.number,
                decision: self.joined_as(from, log),
            }),
            None => None,
        }
    }

    /// From where the publisher of the image of this number sends. `None` where there is no such image. It takes no memory.
    #[tactic(auto, unfolding(crate::specs::PublicationRequests::publisher_of))]
    pub fn publisher_of(&self, source: u64) -> Option<Address>
        ensures { result ≡ publisher_of self.now source }
    {
        match self.source(source) {
            Some(log) => log.address(),
            None => None,
        }
    }
}
