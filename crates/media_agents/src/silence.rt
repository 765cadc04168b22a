//! Which images are silent as time goes on.

ghost use Rattle.media_agents.specs.Acts.{GoesOn};
ghost use Rattle.media_agents.specs.Asking.{AreSilent, AreSilentAt, LeavesIt, SilenceOf};
ghost use Rattle.std.specs.Prelude.{All, IfOk, OnErr};

use crate::slots::{LogAt, Logs};
use byte_strings::Items;
use driver_core::{Event, Registry};
use log_slots::Naming;
use std::alloc::{AllocError, Global};
use std::sync::Wait;
use stream_registry::LogRow;

/// The number of the row's log, if it is that of an image which is silent: it is asked under its lock.
fn silent_one<N: Naming, L: Logs<N>, R: Wait>(
    rt: &R,
    logs: &mut L,
    row: &LogRow,
    moment: u64,
    limit: u64,
) -> Option<u64>
    ensures { GoesOn (SilenceOf moment limit row.now result) (L.did logs.old) (L.did logs.new) }
{
    let at = LogAt::of(row);
    if !at.published && logs.is_silent(rt, at, moment, limit) {
        Some(at.source)
    } else {
        None
    }
}

/// The images of which nothing was heard for longer than the liveness, each asked under its lock, at the conductor's moment
/// once it took a tick of the moment `now` in nanoseconds.
fn silent_at<N: Naming, L: Logs<N>, R: Wait>(
    rt: &R,
    alloc: Global,
    logs: &mut L,
    registry: &Registry,
    now: u64,
) -> Result<Items<u64>, AllocError>
    ensures silent { IfOk result (λ silent. GoesOn (AreSilentAt registry.now now silent) (L.did logs.old) (L.did logs.new)) }
    ensures err { OnErr result (GoesOn (All LeavesIt) (L.did logs.old) (L.did logs.new)) }
{
    let moment = registry.moment().max(now);
    let liveness = registry.settings().image_liveness;
    let mut silent = Items::new(alloc);
    for row in registry.sources() {
        if let Some(source) = silent_one(rt, logs, row, moment, liveness) {
            silent.push(source)?;
        }
    }
    Ok(silent)
}

/// The images that an event closes as silent: only time that goes on closes one so.
pub(crate) fn silent_of<N: Naming, L: Logs<N>, R: Wait>(
    rt: &R,
    alloc: Global,
    logs: &mut L,
    registry: &Registry,
    event: &Event,
) -> Result<Items<u64>, AllocError>
    ensures silent { IfOk result (λ silent. GoesOn (AreSilent registry.now event.now silent) (L.did logs.old) (L.did logs.new)) }
    ensures err { OnErr result (GoesOn (All LeavesIt) (L.did logs.old) (L.did logs.new)) }
{
    match event {
        Event::Tick { now } => silent_at(rt, alloc, logs, registry, *now),
        _ => Ok(Items::new(alloc)),
    }
}
