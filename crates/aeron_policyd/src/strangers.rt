//! From where datagrams may come, and what becomes of the others.

ghost use Rattle.aeron_policyd.specs.Strangers.{HasPeers, asks_of, bound_address, says_drop};
ghost use Rattle.std.specs.Prelude.{◌≡◌, ◌/◌, ◌++◌, IfOk, map, min, option_copied};

use crate::fault::Fault;
use crate::options::{address_from, peers_of, refuse};
use channel_uri::Channel;
use driver_core::Peer;
use guarded_wire::{Dropped, Drops, Guard, Guarded, Origin};
use media_wire::Udp;
use policy_text::Names;
use program_parts::Machine;
use std::alloc::{AllocError, Global};
use std::sync::Arc;

/// How many NAKs and status messages one address may send in 60 milliseconds, if no number is given.
const ASKS: u64 = 2048;

/// The greatest window of a stream: 128 KiB.
pub(crate) const GREATEST: u32 = 131_072;

/// Sockets of the system, whose datagrams a guard lets in.
pub(crate) type GuardedUdp<R> = Guarded<Udp<R>, R>;

/// Words that say what becomes of strangers.
#[derive(Clone, Copy)]
pub(crate) struct Wanted<'a> {
    /// `allow` or `drop`, if there is one.
    pub(crate) strangers: Option<&'a str>,
    pub(crate) asks: Option<u64>,
    /// For how many bytes an honest NAK asks at most.
    pub(crate) window: u32,
    /// Words `ADDR=PRINCIPAL`.
    pub(crate) peers: &'a [&'a str],
}

/// What lets datagrams in, and counts the others.
#[derive(Drop)]
pub(crate) struct Gate {
    guard: Guard,
    drops: Arc<Drops>,
}

impl Gate {
    /// Around sockets.
    pub(crate) fn around<R: Machine>(self, rt: R, udp: Udp<R>) -> GuardedUdp<R>
        ensures wire { result.wire ≡ udp }
        ensures guard { result.guard ≡ self.guard }
    {
        let Gate { guard, drops } = self;
        Guarded::new(udp, rt, guard, drops)
    }

    /// What is dropped counts there.
    pub(crate) fn drops(&self) -> Result<Arc<Drops>, AllocError> {
        Ok(Arc::try_clone(&self.drops)?)
    }
}

/// The peers of a driver, and what its datagrams go through.
#[derive(Drop)]
pub(crate) struct Bound {
    pub(crate) peers: Vec<Peer>,
    pub(crate) gate: Gate,
}

/// Says what was dropped so far, if anything was.
pub(crate) fn dropped_line(
    alloc: Global,
    drops: &Arc<Drops>,
) -> Result<Option<String>, AllocError> {
    let dropped: Dropped = drops.dropped();
    if !dropped.is_any() {
        return Ok(None);
    }
    Ok(Some(format!(in alloc; "{dropped}")?))
}

/// The window of a stream whose term is so long.
fn window_of(term_length: u32) -> u32
    ensures { result ≡ min (term_length / 2) 131072 }
{
    (term_length / 2).min(GREATEST)
}

/// The window of a channel's streams, whose terms are so long if it names no length.
pub(crate) fn window_on(channel: &str, term_length: u32) -> u32 {
    match Channel::parse(channel) {
        Ok(channel) => window_of(channel.term_length().unwrap_or(term_length)),
        Err(_) => GREATEST,
    }
}

/// Whether strangers are dropped.
fn drops_in<R: Machine>(rt: &R, word: Option<&str>) -> Result<bool, Fault>
    ensures { IfOk result (λ drops. drops ≡ says_drop (option_copied word.entry)) }
{
    let Some(word) = word else {
        return Ok(false);
    };
    if word == "drop" {
        return Ok(true);
    }
    if word == "allow" {
        return Ok(false);
    }
    Err(refuse(rt, "--strangers", word, "wanted allow or drop"))
}

/// The host that a word `ADDR=nobody` without a port names.
fn host_in(alloc: Global, word: &str) -> Result<Option<[u8; 4]>, AllocError> {
    let Some((host, principal)) = word.split_once('=') else {
        return Ok(None);
    };
    if principal != "nobody" {
        return Ok(None);
    }
    let address = format!(in alloc; "{host}:1")?;
    Ok(match address_from(alloc, address.as_str())? {
        Some(address) => Some(address.octets),
        None => None,
    })
}

/// The hosts that words name without a port are put to the origins. The other words.
fn hosts_of<'a, R: Machine>(
    rt: &R,
    words: &[&'a str],
    origins: &mut Vec<Origin>,
) -> Result<Vec<&'a str>, Fault> {
    let mut others = Vec::new(rt.alloc());
    for word in words {
        match host_in(rt.alloc(), word)? {
            Some(octets) => origins.push(Origin::Host(octets))?,
            None => others.push(*word)?,
        }
    }
    if origins.len() > HOSTS {
        let first = words.first().copied().unwrap_or("");
        return Err(refuse(rt, "--peer", first, "more than 256 hosts"));
    }
    Ok(others)
}

/// How many hosts may be named without a port.
const HOSTS: usize = 256;

/// The addresses of peers are origins, too.
fn add_peers(origins: &mut Vec<Origin>, peers: &[Peer]) -> Result<(), AllocError>
    ensures { IfOk result (λ done. origins.new.items ≡ origins.old.items ++ map bound_address peers.now) }
{
    for peer in peers {
        origins.push(Origin::Address(peer.address))?;
    }
    Ok(())
}

/// The peers that words name, and a gate that lets them in.
pub(crate) fn bound_by<R: Machine>(
    rt: &R,
    names: &Names,
    wanted: Wanted<'_>,
) -> Result<Bound, Fault>
    ensures drops { IfOk result (λ bound. bound.gate.guard.rules.drops ≡ says_drop (option_copied wanted.entry.strangers)) }
    ensures window { IfOk result (λ bound. bound.gate.guard.rules.window ≡ wanted.entry.window) }
    ensures budget { IfOk result (λ bound. bound.gate.guard.rules.budget ≡ asks_of wanted.entry.asks) }
    ensures peers { IfOk result (λ bound. HasPeers bound.gate.guard.rules.origins bound.peers.items) }
{
    let drops = drops_in(rt, wanted.strangers)?;
    let mut origins = Vec::new(rt.alloc());
    let others = hosts_of(rt, wanted.peers, &mut origins)?;
    let peers = peers_of(rt, names, others.as_slice())?;
    add_peers(&mut origins, peers.as_slice())?;
    let asks = match wanted.asks {
        None => ASKS,
        Some(asks) => asks,
    };
    let guard = Guard::new(rt.alloc(), drops, origins, wanted.window, asks)?;
    let Ok(drops) = Arc::new(rt.alloc(), Drops::new()) else {
        return Err(Fault::NO_MEMORY);
    };
    Ok(Bound {
        peers,
        gate: Gate { guard, drops },
    })
}
