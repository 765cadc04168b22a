//! How many pairs there are and may yet be, from a moment of a policy on whose rules have bounds after it.

ghost use Rattle.log_readers.specs.Prospects.{prospects_with};
ghost use Rattle.policy_core.specs.Moments.{at, coming};
ghost use Rattle.std.specs.List.{flat_map};
ghost use Rattle.std.specs.Prelude.{◌≡◌, ◌≤◌, length};
ghost use Rattle.stream_registry.specs.Adding.{added, subscribed};
ghost use Rattle.stream_registry.specs.Images.{imaged};
ghost use Rattle.stream_registry.specs.Pairs.{is_prospect, prospects_at, prospects_of};
ghost use Rattle.stream_registry.specs.Wish.{row_of};

use crate::coming::fitting;
use client_registry::Clients;
use policy_core::Policy;
use stream_registry::{
    Adding, ImageWanted, LogRow, Streams, Subscription, Wanted, Wish, fits, is_ever_allowed,
};

/// How many of the logs the subscription reads, or will.
fn logs_ever_read(
    streams: &Streams,
    clients: &Clients,
    policy: &Policy,
    moment: u64,
    epoch: u64,
    wish: &Wish<'_>,
) -> usize
    ensures exact { result ≡ length (prospects_with clients.now.rows (at policy.now moment) (coming policy.now moment) epoch streams.now.sources (row_of wish.now)) }
    ensures few { result ≤ 768 }
{
    if !is_ever_allowed(clients, policy, moment, epoch, wish) {
        return 0;
    }
    fitting(streams.sources(), wish)
}

/// Whether the subscription reads the log, or will.
fn ever_reads(
    clients: &Clients,
    policy: &Policy,
    moment: u64,
    epoch: u64,
    log: &LogRow,
    wish: &Wish<'_>,
) -> bool
    ensures { result ≡ is_prospect clients.now.rows (at policy.now moment) (coming policy.now moment) epoch log.now (row_of wish.now) }
{
    fits(log, wish) && is_ever_allowed(clients, policy, moment, epoch, wish)
}

/// How many of the subscriptions read the log, or will.
fn ever_readers_among(
    clients: &Clients,
    policy: &Policy,
    moment: u64,
    epoch: u64,
    subscriptions: &[Subscription],
    log: &LogRow,
) -> usize
    ensures exact { result ≡ length (prospects_at clients.now.rows (at policy.now moment) (coming policy.now moment) epoch subscriptions.now log.now) }
    ensures few { result ≤ length subscriptions.now }
{
    let mut readers = 0;
    for subscription in subscriptions {
        if ever_reads(clients, policy, moment, epoch, log, &subscription.wish()) {
            readers += 1;
        }
    }
    readers
}

/// How many pairs the log has and may yet have, or would.
fn ever_readers_of(
    streams: &Streams,
    clients: &Clients,
    policy: &Policy,
    moment: u64,
    epoch: u64,
    log: &LogRow,
) -> usize
    ensures exact { result ≡ length (prospects_at clients.now.rows (at policy.now moment) (coming policy.now moment) epoch streams.now.subscriptions log.now) }
    ensures few { result ≤ 512 }
{
    ever_readers_among(clients, policy, moment, epoch, streams.subscriptions(), log)
}

/// How many there are of these subscriptions: each is asked about once.
fn prospects_among(
    streams: &Streams,
    clients: &Clients,
    policy: &Policy,
    moment: u64,
    epoch: u64,
    subscriptions: &[Subscription],
) -> usize
    requires { length subscriptions.now ≤ 512 }
    ensures exact { result ≡ length (flat_map (prospects_at clients.now.rows (at policy.now moment) (coming policy.now moment) epoch subscriptions.now) streams.now.sources) }
    ensures few { result ≤ 393216 }
{
    let mut pairs = 0;
    for subscription in subscriptions {
        pairs += logs_ever_read(
            streams,
            clients,
            policy,
            moment,
            epoch,
            &subscription.wish(),
        );
    }
    pairs
}

/// How many pairs there are and may yet be under the policy, from that moment on, by the number `epoch`. Each subscription
/// is asked about once. It takes no memory.
#[tactic(auto, unfolding(stream_registry::specs::Pairs::prospects_of))]
pub fn prospect_count(
    streams: &Streams,
    clients: &Clients,
    policy: &Policy,
    moment: u64,
    epoch: u64,
) -> usize
    ensures exact { result ≡ length (prospects_of streams.now clients.now.rows (at policy.now moment) (coming policy.now moment) epoch) }
    ensures few { result ≤ 393216 }
{
    prospects_among(
        streams,
        clients,
        policy,
        moment,
        epoch,
        streams.subscriptions(),
    )
}

/// How many there would be with the subscription. It takes no memory.
pub fn prospect_count_with_subscription(
    streams: &Streams,
    clients: &Clients,
    policy: &Policy,
    moment: u64,
    epoch: u64,
    wish: &Wish<'_>,
) -> usize
    ensures { result ≡ length (prospects_of (subscribed streams.now wish.now.number wish.now.client wish.now.channel.now wish.now.stream) clients.now.rows (at policy.now moment) (coming policy.now moment) epoch) }
{
    prospect_count(streams, clients, policy, moment, epoch)
        + logs_ever_read(streams, clients, policy, moment, epoch, wish)
}

/// How many there would be with the publication. It takes no memory.
pub fn prospect_count_with_publication(
    streams: &Streams,
    clients: &Clients,
    policy: &Policy,
    moment: u64,
    epoch: u64,
    number: u64,
    client: u64,
    wanted: &Wanted,
    place: u64,
    adding: Adding,
) -> usize
    ensures { result ≡ length (prospects_of (added streams.now number client wanted.now place adding) clients.now.rows (at policy.now moment) (coming policy.now moment) epoch) }
{
    let count = prospect_count(streams, clients, policy, moment, epoch);
    match adding {
        Adding::Join { .. } => count,
        Adding::Make { session } => {
            let log = streams.log(number, wanted, place, session);
            count + ever_readers_of(streams, clients, policy, moment, epoch, &log)
        }
    }
}

/// How many there would be with the image. It takes no memory.
pub fn prospect_count_with_image(
    streams: &Streams,
    clients: &Clients,
    policy: &Policy,
    moment: u64,
    epoch: u64,
    number: u64,
    wanted: &ImageWanted,
    place: u64,
) -> usize
    ensures { result ≡ length (prospects_of (imaged streams.now number wanted.now place) clients.now.rows (at policy.now moment) (coming policy.now moment) epoch) }
{
    let log = streams.image(number, wanted, place);
    prospect_count(streams, clients, policy, moment, epoch)
        + ever_readers_of(streams, clients, policy, moment, epoch, &log)
}
