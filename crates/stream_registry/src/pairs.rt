ghost use Rattle.stream_registry.specs.Pairs.{fits, is_allowed, is_ever_allowed, is_pair, reaches, reaches_published};
ghost use Rattle.stream_registry.specs.Sessions.{agrees_with};
ghost use Rattle.stream_registry.specs.Wish.{row_of};
ghost use Rattle.policy_core.specs.Moments.{at, coming};
ghost use Rattle.channel_uri.specs.Parameters.{stated_session_of};
ghost use Rattle.std.specs.Prelude.{◌≡◌, ◌&&◌};

use crate::places::{is_ipc, is_same_place, is_udp};
use crate::row::LogRow;
use crate::sessions::agrees_with;
use crate::wish::Wish;
use channel_uri::Channel;
use client_registry::Clients;
use policy_core::{Act, Policy, Request, Standing};

/// A log and a subscription that reads it.
#[derive(Clone, Copy, Debug, PartialEq, Eq)]
pub struct Pair {
    /// The log's source number.
    pub source: u64,
    /// The registration number of the subscription.
    pub subscription: u64,
}

/// Whether the channel reaches a publication of that channel: a spy those over datagrams of its place, one of shared memory
/// those there.
fn reaches_published(channel: &Channel, published: &Channel) -> bool
    ensures { result ≡ reaches_published channel.now published.now }
{
    if channel.is_spy() {
        is_udp(published.media()) && is_same_place(published, channel)
    } else {
        is_ipc(published.media()) && is_ipc(channel.media())
    }
}

/// Whether the channel reaches the log: a publication as above, and one of an endpoint the images of what is sent to it.
#[tactic(auto, unfolding(crate::specs::Pairs::reaches))]
fn reaches(channel: &Channel, log: &LogRow) -> bool
    ensures { result ≡ reaches channel.now log.now }
{
    if log.is_published() {
        reaches_published(channel, &log.channel)
    } else {
        is_udp(channel.media()) && !channel.is_spy() && is_same_place(&log.channel, channel)
    }
}

/// Whether the channel reaches the log, and states its session or none.
fn is_met_by(log: &LogRow, channel: &Channel) -> bool
    ensures { result ≡ (reaches channel.now log.now && agrees_with log.now.session (stated_session_of channel.now)) }
{
    reaches(channel, log) && agrees_with(log.session, channel.session_id())
}

/// Whether the subscription reads the log, if the policy lets it. Most logs are of another stream, so that their channels are
/// not looked at.
#[inline(always)]
#[tactic(auto, unfolding(crate::specs::Pairs::fits))]
pub fn fits(log: &LogRow, wish: &Wish<'_>) -> bool
    ensures { result ≡ fits log.now (row_of wish.now) }
{
    log.stream == wish.stream && is_met_by(log, wish.channel)
}

/// Whether the policy, as it stands and by the number `epoch`, lets the client have messages on its subscription.
#[tactic(auto, unfolding(crate::specs::Pairs::is_allowed))]
pub fn is_allowed(clients: &Clients, policy: &Standing<'_>, epoch: u64, wish: &Wish<'_>) -> bool
    ensures { result ≡ is_allowed clients.now.rows policy.now epoch (row_of wish.now) }
{
    let Some(principal) = clients.principal_of(wish.client) else {
        return false;
    };
    let request = Request {
        principal,
        act: Act::Image,
        channel: wish.channel,
        stream: wish.stream,
    };
    policy.verdict(epoch, &request).allow
}

/// Whether the subscription reads the log, or would if it were there: they fit, and the policy, which goes by the number
/// `epoch`, allows the act `image` to the subscription's client. It takes no memory.
pub fn reads(
    clients: &Clients,
    policy: &Standing<'_>,
    epoch: u64,
    log: &LogRow,
    wish: &Wish<'_>,
) -> bool
    ensures { result ≡ is_pair clients.now.rows policy.now epoch log.now (row_of wish.now) }
{
    fits(log, wish) && is_allowed(clients, policy, epoch, wish)
}

/// Whether the policy, by the number `epoch`, lets the client have messages on its subscription at this moment or at a later
/// one. It takes no memory.
#[tactic(auto, using(crate::proofs::ProspectLemmas::ever_is, crate::proofs::ProspectLemmas::never_is))]
pub fn is_ever_allowed(
    clients: &Clients,
    policy: &Policy,
    moment: u64,
    epoch: u64,
    wish: &Wish<'_>,
) -> bool
    ensures { result ≡ is_ever_allowed clients.now.rows (at policy.now moment) (coming policy.now moment) epoch (row_of wish.now) }
{
    let Some(principal) = clients.principal_of(wish.client) else {
        return false;
    };
    let request = Request {
        principal,
        act: Act::Image,
        channel: wish.channel,
        stream: wish.stream,
    };
    policy.ever(moment, &request)
}
