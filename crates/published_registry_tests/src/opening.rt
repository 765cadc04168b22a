// The registry with which the tests begin, and entries that are ready to be committed.
ghost use Rattle.published_registry.specs.Histories.{IsPlannedOn, registry_of};
ghost use Rattle.std.specs.Prelude.{◌+◌, ◌<◌, ◌^◌, length, IfOk, IfSome};

use driver_core::{Entry, Event, Inputs, Registry, Settings};
use policy_core::Policy;
use published_registry::Publisher;
use std::alloc::{AllocError, Global};

// A policy without rules.
fn by_default(alloc: Global, allows: bool) -> Result<Policy, AllocError> {
    Policy::new(Vec::new(alloc), allows)
}

// A registry whose policy, number 1, allows all.
pub fn opened(alloc: Global) -> Result<Registry, AllocError> {
    let policy = by_default(alloc, true)?;
    Registry::new(alloc, Settings::default(), policy, &[])
}

// The event, planned on the registry. Nothing is asked of the logs.
fn planned(alloc: Global, registry: &Registry, event: &Event) -> Result<Entry, AllocError>
    ensures { IfOk result (λ entry. IsPlannedOn registry.now entry) }
{
    let inputs = Inputs::none(alloc);
    let entry = registry.plan(alloc, event, &inputs);
    drop(inputs);
    entry
}

// The next entry, for this event.
pub fn next(alloc: Global, publisher: &Publisher, event: &Event) -> Option<Entry>
    ensures room { IfSome result (λ entry. length publisher.now.entries + 1 < 2 ^ 64) }
    ensures planned { IfSome result (λ entry. IsPlannedOn (registry_of publisher.now) entry) }
{
    if publisher.number() == u64::MAX {
        return None;
    }
    planned(alloc, publisher.newest(), event).ok()
}

// The next entry, by which a policy is put in force that allows all or nothing.
pub fn reload(alloc: Global, publisher: &Publisher, allows: bool) -> Option<Entry>
    ensures room { IfSome result (λ entry. length publisher.now.entries + 1 < 2 ^ 64) }
    ensures planned { IfSome result (λ entry. IsPlannedOn (registry_of publisher.now) entry) }
{
    let policy = by_default(alloc, allows).ok()?;
    let event = Event::Reload { now: 0, policy };
    let entry = next(alloc, publisher, &event);
    drop(event);
    entry
}
