//! Which subscription reads which log, under a policy that allows everything or one that denies `image` to principal 2.

use crate::stream_play::Play;
use byte_strings::{Items, ShortText};
use channel_uri::{Channel, Pattern, UriError};
use client_registry::Clients;
use policy_core::{Act, Acts, Policy, Principals, Rule, Standing};
use std::alloc::{AllocError, Global};
use stream_registry::{LogRow, Pair, Streams, Wish, reads};

/// What is asked where two clients are there, of principals 1 and 2.
#[derive(Clone, Copy)]
pub(crate) enum Asked {
    /// Whether a log is read by a subscription.
    Reads(u64, u64),
    /// Whether a subscription of this client and stream would read each log there.
    WouldRead(u64, i32),
    /// Whether the first so many of these are the pairs.
    Pairs(usize, [Pair; 3]),
}

/// Denies `image` to principal 2.
fn image_rule() -> Result<Rule, UriError> {
    Ok(Rule {
        name: ShortText::new("images"),
        principals: Principals::One(2),
        acts: Acts::none().with(Act::Image),
        channel: Pattern::parse("*")?,
        low: i32::MIN,
        high: i32::MAX,
        from: None,
        until: None,
        allow: false,
    })
}

/// Allows everything but that, if it is denied.
fn policy(alloc: Global, is_denied: bool) -> Result<Policy, AllocError> {
    match image_rule() {
        Ok(rule) if is_denied => Policy::new(vec![in alloc; rule]?, true),
        _ => Policy::new(Vec::new(alloc), true),
    }
}

fn two_clients(alloc: Global) -> Result<Clients, AllocError> {
    let mut clients = Clients::new(alloc, 10)?;
    let _first = clients.admit(1, 0);
    let _second = clients.admit(2, 0);
    Ok(clients)
}

fn would_read(
    streams: &Streams,
    clients: &Clients,
    policy: &Standing<'_>,
    client: u64,
    stream: i32,
) -> bool {
    let wish = Wish {
        number: 9,
        client,
        channel: &Channel::ipc(),
        stream,
    };
    let mut all = true;
    for log in streams.sources() {
        all &= reads(clients, policy, 1, log, &wish);
    }
    all
}

/// Puts the pairs of a log after the others: each subscription is looked at.
fn push_pairs(
    pairs: &mut Items<Pair>,
    streams: &Streams,
    clients: &Clients,
    policy: &Standing<'_>,
    log: &LogRow,
) -> Result<(), AllocError> {
    for subscription in streams.subscriptions() {
        if reads(clients, policy, 1, log, &subscription.wish()) {
            pairs.push(Pair {
                source: log.number,
                subscription: subscription.number,
            })?;
        }
    }
    Ok(())
}

/// All pairs: each log is looked at.
fn all_pairs(
    play: &Play,
    clients: &Clients,
    policy: &Standing<'_>,
) -> Result<Items<Pair>, AllocError> {
    let mut pairs = Items::new(play.alloc);
    for log in play.streams.sources() {
        push_pairs(&mut pairs, &play.streams, clients, policy, log)?;
    }
    Ok(pairs)
}

fn pairs_are(play: &Play, clients: &Clients, policy: &Standing<'_>, pairs: &[Pair]) -> bool {
    match all_pairs(play, clients, policy) {
        Ok(found) => found.as_slice() == pairs,
        Err(_) => false,
    }
}

fn has_pair(play: &Play, clients: &Clients, policy: &Standing<'_>, pair: Pair) -> bool {
    match all_pairs(play, clients, policy) {
        Ok(found) => found.as_slice().iter().any(|other| *other == pair),
        Err(_) => false,
    }
}

fn is_so(play: &Play, clients: &Clients, policy: &Standing<'_>, asked: Asked) -> bool {
    match asked {
        Asked::Reads(source, subscription) => has_pair(
            play,
            clients,
            policy,
            Pair {
                source,
                subscription,
            },
        ),
        Asked::WouldRead(client, stream) => {
            would_read(&play.streams, clients, policy, client, stream)
        }
        Asked::Pairs(count, pairs) => { pairs_are(play, clients, policy, &pairs[..count.min(3)]) }
    }
}

fn is_so_under(play: &Play, policy: &Standing<'_>, asked: Asked) -> bool {
    match two_clients(play.alloc) {
        Ok(clients) => is_so(play, &clients, policy, asked),
        Err(_) => false,
    }
}

/// Whether that is so where `image` is denied to principal 2, or everything is allowed.
pub(crate) fn is_asked(play: &Play, is_denied: bool, asked: Asked) -> bool {
    match policy(play.alloc, is_denied) {
        Ok(policy) => is_so_under(play, &policy.at(0), asked),
        Err(_) => false,
    }
}
