//! What is left to do once an entry was committed. It is taken from the entry before, since that takes memory.

ghost use Rattle.media_agents.specs.Asking.{closing, closing_at};
ghost use Rattle.std.specs.Prelude.{◌≡◌, IfOk};

use crate::slots::LogAt;
use byte_strings::Items;
use driver_core::{Message, Outcome, Registry, Response};
use policy_core::Decision;
use published_registry::Receipt;
use std::alloc::{AllocError, Global};
use stream_registry::{LogPlace, Pair};

/// What is left to do.
#[derive(Drop)]
pub(crate) struct Aftermath {
    /// What the event itself is answered.
    pub(crate) response: Response,
    pub(crate) opens: Option<LogPlace>,
    pub(crate) closes: Items<LogAt>,
    pub(crate) gone: Items<Pair>,
    pub(crate) replies: Items<Message>,
    /// What the policy decided at it.
    pub(crate) decisions: Items<Decision>,
}

/// What came of an event of which an entry was made.
#[derive(Drop)]
pub(crate) struct Made {
    /// What the event itself is answered.
    pub(crate) response: Response,
    /// What the policy decided at it.
    pub(crate) decisions: Items<Decision>,
    /// It names the registry after the entry.
    pub(crate) receipt: Receipt,
}

/// Where the log is that closes, as its row says. A row that the registry has not is nowhere.
fn closing_one(registry: &Registry, place: LogPlace) -> Option<LogAt>
    ensures { result ≡ closing_at registry.now place }
{
    match registry.source(place.source) {
        Some(row) => Some(LogAt::of(row)),
        None => None,
    }
}

/// Where the logs are that close, in their order.
fn all_closing(
    alloc: Global,
    registry: &Registry,
    closes: &[LogPlace],
) -> Result<Items<LogAt>, AllocError>
    ensures { IfOk result (λ logs. logs ≡ closing registry.now closes.now) }
{
    let mut logs = Items::new(alloc);
    for place in closes {
        if let Some(at) = closing_one(registry, *place) {
            logs.push(at)?;
        }
    }
    Ok(logs)
}

impl Aftermath {
    /// That of the outcome, where the registry is still the one before.
    pub(crate) fn of(
        alloc: Global,
        registry: &Registry,
        outcome: &Outcome,
    ) -> Result<Aftermath, AllocError>
        ensures response { IfOk result (λ aftermath. aftermath.response ≡ outcome.now.response) }
        ensures opens { IfOk result (λ aftermath. aftermath.opens ≡ outcome.now.opens) }
        ensures closes { IfOk result (λ aftermath. aftermath.closes ≡ closing registry.now outcome.now.closes) }
        ensures gone { IfOk result (λ aftermath. aftermath.gone ≡ outcome.now.gone) }
        ensures replies { IfOk result (λ aftermath. aftermath.replies ≡ outcome.now.replies) }
        ensures decisions { IfOk result (λ aftermath. aftermath.decisions ≡ outcome.now.decisions) }
    {
        Ok(Aftermath {
            response: outcome.response,
            opens: outcome.opens,
            closes: all_closing(alloc, registry, outcome.closes.as_slice())?,
            gone: Items::from(Vec::from_slice(alloc, outcome.gone.as_slice())?),
            replies: Items::from(Vec::from_slice(alloc, outcome.replies.as_slice())?),
            decisions: Items::from(Vec::from_slice(alloc, outcome.decisions.as_slice())?),
        })
    }
}
