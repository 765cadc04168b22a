//! The pairs of a subscription or a log that is about to come.

ghost use Rattle.log_readers.specs.Turnover.{pair_with, pairs_with};
ghost use Rattle.std.specs.Prelude.{◌≡◌, ◌≤◌, ◌++◌, IfOk, OnOk, filter, length, map};
ghost use Rattle.stream_registry.specs.Pairs.{fits, pairs_at};
ghost use Rattle.stream_registry.specs.Wish.{row_of};

use byte_strings::Items;
use client_registry::Clients;
use policy_core::Standing;
use std::alloc::{AllocError, Global};
use stream_registry::{LogRow, Pair, Streams, Subscription, Wish, fits, is_allowed, reads};

/// Puts the pairs of the subscription with the logs that it fits after the others.
fn push_fitting(pairs: &mut Items<Pair>, logs: &[LogRow], wish: &Wish<'_>) -> Result<(), AllocError>
    ensures { OnOk result (pairs.new ≡ pairs.old ++ map (pair_with (row_of wish.now)) (filter (λ log. fits log (row_of wish.now)) logs.now)) }
{
    for log in logs {
        if fits(log, wish) {
            pairs.push(Pair {
                source: log.number,
                subscription: wish.number,
            })?;
        }
    }
    Ok(())
}

/// How many of the logs the subscription fits.
pub(crate) fn fitting(logs: &[LogRow], wish: &Wish<'_>) -> usize
    ensures exact { result ≡ length (filter (λ log. fits log (row_of wish.now)) logs.now) }
    ensures few { result ≤ length logs.now }
{
    let mut found = 0;
    for log in logs {
        if fits(log, wish) {
            found += 1;
        }
    }
    found
}

/// The pairs that a subscription has, or would have, by source. The policy, which goes by the number `epoch`, is asked once.
pub fn pairs_of_subscription(
    alloc: Global,
    streams: &Streams,
    clients: &Clients,
    policy: &Standing<'_>,
    epoch: u64,
    wish: &Wish<'_>,
) -> Result<Items<Pair>, AllocError>
    ensures { IfOk result (λ pairs. pairs ≡ pairs_with clients.now.rows policy.now epoch streams.now.sources (row_of wish.now)) }
{
    let mut pairs = Items::new(alloc);
    if !is_allowed(clients, policy, epoch, wish) {
        return Ok(pairs);
    }
    push_fitting(&mut pairs, streams.sources(), wish)?;
    Ok(pairs)
}

/// How many pairs a subscription has, or would have: those of [`pairs_of_subscription`]. It takes no memory.
pub(crate) fn logs_read(
    streams: &Streams,
    clients: &Clients,
    policy: &Standing<'_>,
    epoch: u64,
    wish: &Wish<'_>,
) -> usize
    ensures exact { result ≡ length (pairs_with clients.now.rows policy.now epoch streams.now.sources (row_of wish.now)) }
    ensures few { result ≤ 768 }
{
    if !is_allowed(clients, policy, epoch, wish) {
        return 0;
    }
    fitting(streams.sources(), wish)
}

/// How many of the subscriptions read the log.
fn readers_among(
    clients: &Clients,
    policy: &Standing<'_>,
    epoch: u64,
    subscriptions: &[Subscription],
    log: &LogRow,
) -> usize
    ensures exact { result ≡ length (pairs_at clients.now.rows policy.now epoch subscriptions.now log.now) }
    ensures few { result ≤ length subscriptions.now }
{
    let mut readers = 0;
    for subscription in subscriptions {
        if reads(clients, policy, epoch, log, &subscription.wish()) {
            readers += 1;
        }
    }
    readers
}

/// How many pairs a log has, or would have. It takes no memory.
pub(crate) fn readers_of(
    streams: &Streams,
    clients: &Clients,
    policy: &Standing<'_>,
    epoch: u64,
    log: &LogRow,
) -> usize
    ensures exact { result ≡ length (pairs_at clients.now.rows policy.now epoch streams.now.subscriptions log.now) }
    ensures few { result ≤ 512 }
{
    readers_among(clients, policy, epoch, streams.subscriptions(), log)
}
