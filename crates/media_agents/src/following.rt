//! The logs follow an entry: one may open before anybody is shown the registry that has it, pairs go and logs close after.

ghost use Rattle.driver_core.specs.Pairs.{pairs_of};
ghost use Rattle.driver_core.specs.Readers.{readers_of};
ghost use Rattle.driver_core.specs.Renewal.{source_at};
ghost use Rattle.driver_core.specs.Soundness.{AreSizes, BeginsSoundly, IsSound};
ghost use Rattle.log_slots.specs.Opening.{OpensAs, room_of};
ghost use Rattle.log_traffic.specs.Held.{place_held};
ghost use Rattle.media_agents.specs.Acts.{Each, GoesOn};
ghost use Rattle.media_agents.specs.Asking.{IsRowClosed};
ghost use Rattle.media_agents.specs.Following.{ClosesEach, Leaves, OpensAt, OpensNext, OpensRow, Puts, freed_if};
ghost use Rattle.std.specs.Option.{option_copied};
ghost use Rattle.std.specs.Prelude.{◌≡◌, ◌≤◌, IfSome, length};

use crate::aftermath::Aftermath;
use crate::pairing::settle;
use crate::slots::{LogAt, Logs};
use driver_core::Registry;
use log_slots::{LogMemory, Naming, Region, open_log};
use log_steps::OpenLog;
use rows::Rows;
use std::sync::Wait;
use stream_registry::{LogPlace, LogRow};

/// The row of a live log, whose sizes are sound.
fn row_of(registry: &Registry, place: LogPlace) -> Option<&LogRow>
    requires { IsSound registry.now }
    ensures sound { IfSome result (λ row. AreSizes row.now.measures × BeginsSoundly row.now) }
    ensures row { option_copied result ≡ source_at registry.now.streams.sources place.source }
{
    registry.source(place.source)
}

/// The log goes into its slot, and is read by those that the registry says. Where the slot does not take it, its pages are
/// free again.
fn put<N: Naming, L: Logs<N>, R: Wait>(
    rt: &R,
    region: &mut Region<N>,
    logs: &mut L,
    registry: &Registry,
    room: &mut Rows<u64, 512>,
    row: &LogRow,
    log: OpenLog,
)
    requires few { length (readers_of (pairs_of registry.now) row.now.number) ≤ 512 }
    requires opens { OpensAs N.home registry.now.settings registry.now.moment row.now log }
    ensures { GoesOn (Puts registry.now row.now log region.old region.new) (L.did logs.old) (L.did logs.new) }
{
    match logs.open(rt, LogAt::of(row), log, row.session, row.stream) {
        Ok(()) => {
            registry.readers(row.number, room);
            logs.rejoin(rt, LogAt::of(row), room.as_slice());
        }
        Err(unopened) => region.close(unopened.log()),
    }
}

/// The log of that row opens, where its place has room, and the memory is for it.
fn open_row<N: Naming, L: Logs<N>, R: Wait>(
    rt: &R,
    region: &mut Region<N>,
    logs: &mut L,
    registry: &Registry,
    room: &mut Rows<u64, 512>,
    memory: LogMemory,
    row: &LogRow,
)
    requires sizes { AreSizes row.now.measures }
    requires begins { BeginsSoundly row.now }
    requires few { length (readers_of (pairs_of registry.now) row.now.number) ≤ 512 }
    ensures { GoesOn (OpensRow N.home registry.now (room_of memory) row.now region.old region.new) (L.did logs.old) (L.did logs.new) }
{
    let now = registry.moment();
    let settings = registry.settings();
    if let Some(log) = open_log(region, memory, row, now, settings) {
        put(rt, region, logs, registry, room, row, log);
    }
}

/// The log opens that the registry names, and is read by those that the registry says.
fn open<N: Naming, L: Logs<N>, R: Wait>(
    rt: &R,
    region: &mut Region<N>,
    logs: &mut L,
    registry: &Registry,
    room: &mut Rows<u64, 512>,
    memory: LogMemory,
    place: LogPlace,
)
    requires { IsSound registry.now }
    ensures { GoesOn (OpensAt N.home registry.now (room_of memory) place region.old region.new) (L.did logs.old) (L.did logs.new) }
{
    if let Some(row) = row_of(registry, place) {
        open_row(rt, region, logs, registry, room, memory, row);
    }
}

/// The log opens that an event opens, if it opens one.
pub(crate) fn open_next<N: Naming, L: Logs<N>, R: Wait>(
    rt: &R,
    region: &mut Region<N>,
    logs: &mut L,
    registry: &Registry,
    room: &mut Rows<u64, 512>,
    memory: LogMemory,
    opens: Option<LogPlace>,
)
    requires { IsSound registry.now }
    ensures { GoesOn (OpensNext N.home registry.now (room_of memory) opens region.old region.new) (L.did logs.old) (L.did logs.new) }
{
    match opens {
        Some(place) => open(rt, region, logs, registry, room, memory, place),
        None => {}
    }
}

/// The pages of a log that closed are free again.
fn free<N: Naming>(region: &mut Region<N>, log: Option<OpenLog>)
    requires { IfSome log (λ held. (place_held held.log).home ≡ N.home) }
    ensures { region.new ≡ freed_if log region.old }
{
    if let Some(log) = log {
        region.close(log);
    }
}

/// The logs close: their pages are free again.
fn close_all<N: Naming, L: Logs<N>, R: Wait>(
    rt: &R,
    region: &mut Region<N>,
    logs: &mut L,
    closes: &[LogAt],
)
    ensures { GoesOn (ClosesEach closes.now region.old region.new) (L.did logs.old) (L.did logs.new) }
{
    for at in closes {
        let log = logs.close(rt, *at);
        free(region, log);
    }
}

/// Once an entry is shown: the pairs go that it takes away, and then the logs close.
pub(crate) fn follow<N: Naming, L: Logs<N>, R: Wait>(
    rt: &R,
    region: &mut Region<N>,
    logs: &mut L,
    registry: &Registry,
    room: &mut Rows<u64, 512>,
    aftermath: &Aftermath,
)
    requires { IsSound registry.now }
    ensures { GoesOn (Leaves registry.now aftermath.now.gone aftermath.now.closes region.old region.new) (L.did logs.old) (L.did logs.new) }
{
    settle(rt, logs, registry, room, aftermath.gone.as_slice());
    close_all(rt, region, logs, aftermath.closes.as_slice());
}

/// Once the driver has ended: each log that the registry has closes.
pub(crate) fn close_live<N: Naming, L: Logs<N>, R: Wait>(
    rt: &R,
    region: &mut Region<N>,
    logs: &mut L,
    registry: &Registry,
)
    ensures { GoesOn (Each IsRowClosed registry.now.streams.sources) (L.did logs.old) (L.did logs.new) }
{
    for row in registry.sources() {
        if let Some(log) = logs.close(rt, LogAt::of(row)) {
            region.close(log);
        }
    }
}
