//! What the logs report to the conductor.

ghost use Rattle.driver_steps.specs.OpenLogs.{end_held, inputs_held, is_silent_at, silent_held};
ghost use Rattle.std.specs.Prelude.{◌≡◌, filter, map, IfOk};

use byte_strings::Items;
use driver_core::{End, Event, Inputs, Registry};
use log_steps::OpenLog;
use std::alloc::{AllocError, Global};

/// How far each log reaches.
fn ends_of(alloc: Global, logs: &[OpenLog]) -> Result<Items<End>, AllocError>
    ensures { IfOk result (λ ends. ends ≡ map end_held logs.now) }
{
    let mut ends = Items::new(alloc);
    for open in logs {
        ends.push(End {
            source: open.source(),
            position: open.reach(),
        })?;
    }
    Ok(ends)
}

/// The images of which nothing was heard for longer than the liveness, once the conductor took a tick of that moment.
fn silent_at(
    alloc: Global,
    registry: &Registry,
    now: u64,
    logs: &[OpenLog],
) -> Result<Items<u64>, AllocError>
    ensures { IfOk result (λ silent. silent ≡ map (λ held. held.source) (filter (is_silent_at registry.now now) logs.now)) }
{
    let mut silent = Items::new(alloc);
    let moment = registry.moment().max(now);
    let liveness = registry.settings().image_liveness;
    for open in logs {
        if open.is_silent(moment, liveness) {
            silent.push(open.source())?;
        }
    }
    Ok(silent)
}

/// The images that an event closes as silent.
fn silent_of(
    alloc: Global,
    registry: &Registry,
    event: &Event,
    logs: &[OpenLog],
) -> Result<Items<u64>, AllocError>
    ensures { IfOk result (λ silent. silent ≡ silent_held registry.now event.now logs.now) }
{
    match event {
        Event::Tick { now } => silent_at(alloc, registry, *now, logs),
        _ => Ok(Items::new(alloc)),
    }
}

/// What these logs report to the conductor at an event.
pub(crate) fn inputs_of(
    alloc: Global,
    registry: &Registry,
    event: &Event,
    logs: &[OpenLog],
) -> Result<Inputs, AllocError>
    ensures { IfOk result (λ inputs. inputs ≡ inputs_held registry.now event.now logs.now) }
{
    Ok(Inputs {
        silent: silent_of(alloc, registry, event, logs)?,
        ends: ends_of(alloc, logs)?,
    })
}
