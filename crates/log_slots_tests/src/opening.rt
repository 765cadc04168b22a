// Logs of a registry's rows, as they open in a region.
ghost use Rattle.driver_core.specs.Soundness.{AreSizes, BeginsSoundly};
ghost use Rattle.std.specs.Prelude.{IsTrue};

use crate::registries::{LOCAL, REMOTE, SETUP};
use driver_core::{Event, Registry};
use log_slots::{LogMemory, Naming, Region, memory_for, open_log};
use log_steps::OpenLog;
use std::alloc::Global;
use std::marker::{Model, PhantomData};
use stream_registry::{LogRow, Measures, Origin};

/// A log that was just opened, for whom it is.
#[derive(Drop)]
pub(crate) struct Fresh<N: Naming> {
    pub(crate) log: OpenLog,
    pub(crate) session: i32,
    pub(crate) stream: i32,
    pub(crate) of: PhantomData<N>,
}

impl<N: Naming> Model for Fresh<N> {
    ghost use Rattle.log_slots.specs.Slots.{IsMadeFor};
    ghost use Rattle.log_slots_tests.specs.Opening.{Opened};
    ghost use Rattle.log_traffic.specs.Held.{made_held, messages_held, place_held};
    ghost use Rattle.std.specs.Prelude.{◌≡◌};

    ghost Value = { Opened };

    ghost view = { λ fresh. record { log = fresh.log; session = fresh.session; stream = fresh.stream } };

    ghost invariant = { λ fresh. ((place_held fresh.log.log).home ≡ N.home)
        × IsMadeFor fresh.session fresh.stream (made_held fresh.log.log)
        × (messages_held fresh.log.log ≡ 0) };
}

// Sizes of whole pages and words of 32 bytes, within their bounds.
fn are_sizes(measures: &Measures) -> bool
    ensures { IsTrue result → AreSizes measures.now }
{
    65_536 <= measures.term_length
        && measures.term_length <= 16_777_216
        && measures.term_length % 4096 == 0
        && 64 <= measures.mtu
        && measures.mtu <= 65_504
        && measures.mtu % 32 == 0
}

// The memory for the log of a publication, or of the image that the SETUP brings.
fn memory(alloc: Global, row: &LogRow) -> Option<LogMemory> {
    let event = match row.origin {
        Origin::Published { .. } => Event::Tick { now: 0 },
        Origin::Remote { .. } => Event::Setup {
            now: 0,
            local: LOCAL,
            from: REMOTE,
            setup: SETUP,
        },
    };
    memory_for(alloc, &event).ok()
}

// Whether the log begins at position 0.
fn begins(row: &LogRow) -> bool
    requires { AreSizes row.now.measures }
    ensures { IsTrue result → BeginsSoundly row.now }
{
    match row.origin {
        Origin::Published { .. } => true,
        Origin::Remote { join, .. } => join == 0,
    }
}

/// The log of this source, open in the region at the place that the registry says, if all is as it should be.
pub(crate) fn opened<N: Naming>(
    alloc: Global,
    region: &mut Region<N>,
    registry: &Registry,
    number: u64,
) -> Option<Fresh<N>> {
    let row = registry.source(number)?;
    if !are_sizes(&row.measures) || !begins(row) {
        return None;
    }
    let memory = memory(alloc, row)?;
    let log = open_log(region, memory, row, 0, registry.settings())?;
    Some(Fresh {
        log,
        session: row.session,
        stream: row.stream,
        of: PhantomData,
    })
}
