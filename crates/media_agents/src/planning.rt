//! An event is planned on the newest registry, with what the logs say.

ghost use Rattle.driver_core.specs.Conduct.{state_after};
ghost use Rattle.driver_core.specs.Soundness.{IsSound};
ghost use Rattle.log_steps.specs.Rooms.{memory_of};
ghost use Rattle.log_slots.specs.Opening.{room_of};
ghost use Rattle.media_agents.specs.Acts.{GoesOn};
ghost use Rattle.media_agents.specs.Asking.{AreSilent, Gathers, Joins, JoinsSome, LeavesIt, closing};
ghost use Rattle.media_agents.specs.Following.{coming};
ghost use Rattle.published_registry.specs.Histories.{IsPlannedOn};
ghost use Rattle.std.specs.Prelude.{◌≡◌, [], All, IfOk, OnErr};

use crate::aftermath::Aftermath;
use crate::pairing::join;
use crate::silence::silent_of;
use crate::slots::Logs;
use byte_strings::Items;
use driver_core::{End, Entry, Event, Inputs, Registry};
use log_slots::{LogMemory, Naming, memory_for};
use rows::Rows;
use std::alloc::{AllocError, Global};
use std::sync::Wait;

/// An entry that is ready to be committed, with the memory for the log that it opens, and what is left to do then.
#[derive(Drop)]
pub(crate) struct Planned {
    pub(crate) entry: Entry,
    pub(crate) memory: LogMemory,
    pub(crate) aftermath: Aftermath,
}

/// Plans the event, where the logs reach that far and these images are silent.
fn plan_at(
    alloc: Global,
    registry: &Registry,
    event: &Event,
    silent: Items<u64>,
    ends: Items<End>,
) -> Result<Entry, AllocError>
    ensures planned { IfOk result (λ entry. IsPlannedOn registry.now entry) }
    ensures sound { IfOk result (λ entry. IsSound registry.now → IsSound (state_after registry.now entry.event entry.inputs)) }
    ensures event_is { IfOk result (λ entry. entry.event ≡ event.now) }
    ensures inputs { IfOk result (λ entry. entry.inputs ≡ record { silent = silent; ends = ends }) }
{
    let inputs = Inputs { silent, ends };
    let planned = registry.plan(alloc, event, &inputs);
    drop(inputs);
    planned
}

/// With the memory for the log that the entry may open, and with what is left to do then.
fn make_ready(
    alloc: Global,
    registry: &Registry,
    entry: Entry,
    memory: LogMemory,
) -> Result<Planned, AllocError>
    ensures entry { IfOk result (λ planned. planned.entry ≡ entry) }
    ensures response { IfOk result (λ planned. planned.aftermath.response ≡ entry.outcome.response) }
    ensures opens { IfOk result (λ planned. planned.aftermath.opens ≡ entry.outcome.opens) }
    ensures closes { IfOk result (λ planned. planned.aftermath.closes ≡ closing registry.now entry.outcome.closes) }
    ensures gone { IfOk result (λ planned. planned.aftermath.gone ≡ entry.outcome.gone) }
    ensures replies { IfOk result (λ planned. planned.aftermath.replies ≡ entry.outcome.replies) }
    ensures decisions { IfOk result (λ planned. planned.aftermath.decisions ≡ entry.outcome.decisions) }
    ensures memory { IfOk result (λ planned. planned.memory ≡ memory) }
{
    let aftermath = Aftermath::of(alloc, registry, &entry.outcome)?;
    Ok(Planned {
        entry,
        memory,
        aftermath,
    })
}

/// An entry that was planned on that registry, with all memory that it will need.
pub(crate) fn ready_of(
    alloc: Global,
    registry: &Registry,
    entry: Entry,
) -> Result<Planned, AllocError>
    ensures entry { IfOk result (λ ready. ready.entry ≡ entry) }
    ensures response { IfOk result (λ ready. ready.aftermath.response ≡ entry.outcome.response) }
    ensures opens { IfOk result (λ ready. ready.aftermath.opens ≡ entry.outcome.opens) }
    ensures closes { IfOk result (λ ready. ready.aftermath.closes ≡ closing registry.now entry.outcome.closes) }
    ensures gone { IfOk result (λ ready. ready.aftermath.gone ≡ entry.outcome.gone) }
    ensures replies { IfOk result (λ ready. ready.aftermath.replies ≡ entry.outcome.replies) }
    ensures decisions { IfOk result (λ ready. ready.aftermath.decisions ≡ entry.outcome.decisions) }
    ensures memory { IfOk result (λ ready. room_of ready.memory ≡ memory_of entry.event) }
{
    let memory = memory_for(alloc, &entry.event)?;
    make_ready(alloc, registry, entry, memory)
}

/// Plans the event, where the logs reach that far and these images are silent, and takes all memory that it will need.
fn plan_with(
    alloc: Global,
    registry: &Registry,
    event: &Event,
    silent: &[u64],
    ends: Items<End>,
) -> Result<Planned, AllocError>
    ensures planned { IfOk result (λ ready. IsPlannedOn registry.now ready.entry) }
    ensures sound { IfOk result (λ ready. IsSound registry.now → IsSound (state_after registry.now ready.entry.event ready.entry.inputs)) }
    ensures event_is { IfOk result (λ ready. ready.entry.event ≡ event.now) }
    ensures inputs { IfOk result (λ ready. ready.entry.inputs ≡ record { silent = silent.now; ends = ends }) }
    ensures response { IfOk result (λ ready. ready.aftermath.response ≡ ready.entry.outcome.response) }
    ensures opens { IfOk result (λ ready. ready.aftermath.opens ≡ ready.entry.outcome.opens) }
    ensures closes { IfOk result (λ ready. ready.aftermath.closes ≡ closing registry.now ready.entry.outcome.closes) }
    ensures gone { IfOk result (λ ready. ready.aftermath.gone ≡ ready.entry.outcome.gone) }
    ensures replies { IfOk result (λ ready. ready.aftermath.replies ≡ ready.entry.outcome.replies) }
    ensures decisions { IfOk result (λ ready. ready.aftermath.decisions ≡ ready.entry.outcome.decisions) }
    ensures memory { IfOk result (λ ready. room_of ready.memory ≡ memory_of event.now) }
{
    let silent = Items::from(Vec::from_slice(alloc, silent)?);
    let entry = plan_at(alloc, registry, event, silent, ends)?;
    ready_of(alloc, registry, entry)
}

/// Asks the logs which images are silent, and plans the event without knowing how far logs reach. The draft says which pairs would
/// come. Where none would, it is the entry.
pub(crate) fn foresee<N: Naming, L: Logs<N>, R: Wait>(
    rt: &R,
    alloc: Global,
    logs: &mut L,
    registry: &Registry,
    event: &Event,
) -> Result<Entry, AllocError>
    ensures planned { IfOk result (λ draft. IsPlannedOn registry.now draft) }
    ensures sound { IfOk result (λ draft. IsSound registry.now → IsSound (state_after registry.now draft.event draft.inputs)) }
    ensures event_is { IfOk result (λ draft. draft.event ≡ event.now) }
    ensures ends { IfOk result (λ draft. draft.inputs.ends ≡ []) }
    ensures silent { IfOk result (λ draft. GoesOn (AreSilent registry.now event.now draft.inputs.silent) (L.did logs.old) (L.did logs.new)) }
    ensures come { IfOk result (λ draft. draft.outcome.come ≡ coming registry.now event.now draft.inputs.silent) }
    ensures err { OnErr result (GoesOn (All LeavesIt) (L.did logs.old) (L.did logs.new)) }
{
    let silent = silent_of(rt, alloc, logs, registry, event)?;
    plan_at(alloc, registry, event, silent, Items::new(alloc))
}

/// The pairs that come are joined to their logs, each under its lock, and the event is planned with how far these logs reach
/// then. So a reply names the position at which its pair really begins, although clients go on offering.
pub(crate) fn plan_joined<N: Naming, L: Logs<N>, R: Wait>(
    rt: &R,
    alloc: Global,
    logs: &mut L,
    registry: &Registry,
    room: &mut Rows<u64, 512>,
    event: &Event,
    draft: &Entry,
) -> Result<Planned, AllocError>
    requires { IsSound registry.now }
    ensures planned { IfOk result (λ ready. IsPlannedOn registry.now ready.entry) }
    ensures sound { IfOk result (λ ready. IsSound (state_after registry.now ready.entry.event ready.entry.inputs)) }
    ensures event_is { IfOk result (λ ready. ready.entry.event ≡ event.now) }
    ensures silent { IfOk result (λ ready. ready.entry.inputs.silent ≡ draft.now.inputs.silent) }
    ensures ends { IfOk result (λ ready. GoesOn (Gathers (Joins registry.now draft.now.outcome.come) draft.now.outcome.come ready.entry.inputs.ends) (L.did logs.old) (L.did logs.new)) }
    ensures err { OnErr result (GoesOn (JoinsSome registry.now draft.now.outcome.come) (L.did logs.old) (L.did logs.new)) }
    ensures response { IfOk result (λ ready. ready.aftermath.response ≡ ready.entry.outcome.response) }
    ensures opens { IfOk result (λ ready. ready.aftermath.opens ≡ ready.entry.outcome.opens) }
    ensures closes { IfOk result (λ ready. ready.aftermath.closes ≡ closing registry.now ready.entry.outcome.closes) }
    ensures gone { IfOk result (λ ready. ready.aftermath.gone ≡ ready.entry.outcome.gone) }
    ensures replies { IfOk result (λ ready. ready.aftermath.replies ≡ ready.entry.outcome.replies) }
    ensures decisions { IfOk result (λ ready. ready.aftermath.decisions ≡ ready.entry.outcome.decisions) }
    ensures memory { IfOk result (λ ready. room_of ready.memory ≡ memory_of event.now) }
{
    let ends = join(
        rt,
        alloc,
        logs,
        registry,
        room,
        draft.outcome.come.as_slice(),
    )?;
    plan_with(alloc, registry, event, draft.inputs.silent.as_slice(), ends)
}
