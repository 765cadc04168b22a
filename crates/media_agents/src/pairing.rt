//! Who reads a log, as pairs come and go.

ghost use Rattle.driver_core.specs.Pairs.{pairs_of};
ghost use Rattle.driver_core.specs.Readers.{readers_of};
ghost use Rattle.driver_core.specs.Soundness.{IsSound};
ghost use Rattle.media_agents.specs.Acts.{Each, GoesOn};
ghost use Rattle.media_agents.specs.Asking.{Gathers, Joins, JoinsSome, Settles};
ghost use Rattle.std.specs.Prelude.{◌≤◌, ◌≡◌, ◌==◌, ◌++◌, ◌∷◌, [], IfOk, OnErr, if◌then◌else◌, length, take};

use crate::listing::add;
use crate::slots::{LogAt, Logs};
use byte_strings::Items;
use driver_core::{End, Registry};
use log_slots::Naming;
use rows::Rows;
use std::alloc::{AllocError, Global};
use std::sync::Wait;
use stream_registry::Pair;

/// The subscription of a pair reads the log of that source too, if it is a pair with it.
fn add_reader(room: &mut Rows<u64, 512>, source: u64, pair: Pair)
    ensures { room.new ≡ (if pair.source == source then take 512 (room.old ++ pair.subscription ∷ []) else room.old) }
{
    if pair.source == source {
        add(room, pair.subscription);
    }
}

/// The subscriptions of these pairs read the log of that source too.
fn add_readers(room: &mut Rows<u64, 512>, source: u64, come: &[Pair])
    ensures { room.new ≡ take 512 (room.old ++ readers_of come.now source) }
{
    // There is room for 512 in all.
    let _few = room.len();
    for pair in come {
        add_reader(room, source, *pair);
    }
}

/// The log's subscriptions that are to come read it with those that do. How far it reaches then, if it is open.
fn join_one<N: Naming, L: Logs<N>, R: Wait>(
    rt: &R,
    logs: &mut L,
    registry: &Registry,
    room: &mut Rows<u64, 512>,
    pair: Pair,
    come: &[Pair],
) -> Option<End>
    requires { length (readers_of (pairs_of registry.now) pair.source) ≤ 512 }
    ensures { GoesOn (Joins registry.now come.now pair result) (L.did logs.old) (L.did logs.new) }
{
    let row = registry.source(pair.source)?;
    registry.readers(pair.source, room);
    add_readers(room, pair.source, come);
    let position = logs.rejoin(rt, LogAt::of(row), room.as_slice())?;
    Some(End {
        source: pair.source,
        position,
    })
}

/// Those that come read their logs from now on, and the answer is how far each log reaches. A log that is
/// not there yet is passed over.
pub(crate) fn join<N: Naming, L: Logs<N>, R: Wait>(
    rt: &R,
    alloc: Global,
    logs: &mut L,
    registry: &Registry,
    room: &mut Rows<u64, 512>,
    come: &[Pair],
) -> Result<Items<End>, AllocError>
    requires { IsSound registry.now }
    ensures joins { IfOk result (λ ends. GoesOn (Gathers (Joins registry.now come.now) come.now ends) (L.did logs.old) (L.did logs.new)) }
    ensures err { OnErr result (GoesOn (JoinsSome registry.now come.now) (L.did logs.old) (L.did logs.new)) }
{
    let mut ends = Items::new(alloc);
    for pair in come {
        if let Some(end) = join_one(rt, logs, registry, room, *pair, come) {
            ends.push(end)?;
        }
    }
    Ok(ends)
}

/// The log of a pair is read as the registry says.
fn settle_one<N: Naming, L: Logs<N>, R: Wait>(
    rt: &R,
    logs: &mut L,
    registry: &Registry,
    room: &mut Rows<u64, 512>,
    pair: Pair,
)
    requires { length (readers_of (pairs_of registry.now) pair.source) ≤ 512 }
    ensures { GoesOn (Settles registry.now pair) (L.did logs.old) (L.did logs.new) }
{
    let Some(row) = registry.source(pair.source) else {
        return;
    };
    registry.readers(pair.source, room);
    logs.rejoin(rt, LogAt::of(row), room.as_slice());
}

/// The logs of these pairs are read as the registry says. It takes no memory.
pub(crate) fn settle<N: Naming, L: Logs<N>, R: Wait>(
    rt: &R,
    logs: &mut L,
    registry: &Registry,
    room: &mut Rows<u64, 512>,
    pairs: &[Pair],
)
    requires { IsSound registry.now }
    ensures { GoesOn (Each (Settles registry.now) pairs.now) (L.did logs.old) (L.did logs.new) }
{
    for pair in pairs {
        settle_one(rt, logs, registry, room, *pair);
    }
}
