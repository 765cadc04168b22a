//! What events report beside their replies: which logs they open and close, which pairs go and come, and what was decided.

use crate::deeds::{
    Deed, KEEP_ALIVE, PUBLISH, PUBLISH_ALONE, SUBSCRIBE, TERMINATE, UNPUBLISH_2, UNSUBSCRIBE_1,
    event,
};
use driver_core::{Entry, Event, Inputs, Outcome, Registry, Settings};
use policy_core::{Act, Decision, Policy, Verdict};
use std::alloc::{AllocError, Global};
use stream_registry::{LogPlace, Pair};

/// An event, the log that opens by it, those that close, the pairs that go, those that come, what the policy decides, in
/// turn, and the pairs that are there after it.
type Row = (
    Deed,
    Option<LogPlace>,
    &'static [LogPlace],
    &'static [Pair],
    &'static [Pair],
    &'static [Decision],
    &'static [Pair],
);

const LOG: LogPlace = LogPlace {
    source: 2,
    place: 0,
};

const PAIR: Pair = Pair {
    source: 2,
    subscription: 1,
};

/// What policy 1 decides by its default, which allows, for principal 7 on stream 10.
const PUBLISHED: Decision = Decision {
    principal: 7,
    act: Act::PublishExclusive,
    subject: 0,
    stream: 10,
    verdict: Verdict {
        allow: true,
        rule: None,
        epoch: 1,
    },
};

const SHARED: Decision = Decision {
    act: Act::Publish,
    ..PUBLISHED
};

const SUBSCRIBED: Decision = Decision {
    act: Act::Subscribe,
    ..PUBLISHED
};

/// Of the image of subscription 1.
const IMAGE: Decision = Decision {
    act: Act::Image,
    subject: 1,
    ..PUBLISHED
};

const TERMINATED: Decision = Decision {
    act: Act::Terminate,
    stream: 0,
    ..PUBLISHED
};

/// A client comes, and nothing else does.
const ATTACHED: Row = (Deed::Attach, None, &[], &[], &[], &[], &[]);

/// One client's events. What scripts show of decisions and pairs is not shown again.
static ROWS: [Row; 5] = [
    ATTACHED,
    (SUBSCRIBE, None, &[], &[], &[], &[SUBSCRIBED], &[]),
    (
        PUBLISH_ALONE,
        Some(LOG),
        &[],
        &[],
        &[PAIR],
        &[PUBLISHED, IMAGE],
        &[PAIR],
    ),
    (KEEP_ALIVE, None, &[], &[], &[], &[], &[PAIR]),
    (TERMINATE, None, &[LOG], &[PAIR], &[], &[TERMINATED], &[]),
];

fn is_told(outcome: &Outcome, row: &Row) -> bool {
    (outcome.opens == row.1)
        & (outcome.closes.as_slice() == row.2)
        & (outcome.gone.as_slice() == row.3)
        & (outcome.come.as_slice() == row.4)
        & (outcome.decisions.as_slice() == row.5)
}

/// The same of an outcome that goes. What is large is let go by a call, which costs the proof less than the end of a scope.
fn tells(outcome: Outcome, row: &Row) -> bool {
    let told = is_told(&outcome, row);
    drop(outcome);
    told
}

fn has_pairs(alloc: Global, registry: &Registry, row: &Row) -> Result<bool, AllocError> {
    Ok(registry.pairs(alloc)?.as_slice() == row.6)
}

fn step_is_told(
    alloc: Global,
    registry: &mut Registry,
    event: &Event,
    inputs: &Inputs,
    row: &Row,
) -> Result<bool, AllocError> {
    let outcome = registry.step(alloc, event, inputs)?;
    Ok(tells(outcome, row))
}

/// Whether the entry leaves the pairs of the row, where it is applied to a copy of the registry.
fn entry_leaves(
    alloc: Global,
    registry: &Registry,
    entry: &Entry,
    row: &Row,
) -> Result<bool, AllocError> {
    let mut copy = registry.copy(alloc)?;
    copy.apply(entry);
    let left = has_pairs(alloc, &copy, row);
    drop(copy);
    left
}

fn entry_is_told(
    alloc: Global,
    registry: &Registry,
    entry: &Entry,
    row: &Row,
) -> Result<bool, AllocError> {
    Ok(is_told(&entry.outcome, row) & entry_leaves(alloc, registry, entry, row)?)
}

fn plan_is_told(
    alloc: Global,
    registry: &Registry,
    event: &Event,
    inputs: &Inputs,
    row: &Row,
) -> Result<bool, AllocError> {
    let entry = registry.plan(alloc, event, inputs)?;
    let told = entry_is_told(alloc, registry, &entry, row);
    drop(entry);
    told
}

/// Whether the event comes to the row where it is planned and applied to a copy, and reports it by one step.
fn both_are_told(
    alloc: Global,
    registry: &mut Registry,
    event: &Event,
    inputs: &Inputs,
    row: &Row,
) -> Result<bool, AllocError> {
    Ok(
        plan_is_told(alloc, registry, event, inputs, row)?
            & step_is_told(alloc, registry, event, inputs, row)?,
    )
}

fn event_is_told(
    alloc: Global,
    registry: &mut Registry,
    inputs: &Inputs,
    row: &Row,
) -> Result<bool, AllocError> {
    let event = event(alloc, row.0)?;
    let told = both_are_told(alloc, registry, &event, inputs, row);
    drop(event);
    told
}

/// Whether the row comes about.
fn comes_to(
    alloc: Global,
    registry: &mut Registry,
    inputs: &Inputs,
    row: &Row,
) -> Result<bool, AllocError> {
    let told = event_is_told(alloc, registry, inputs, row)?;
    Ok(told & has_pairs(alloc, registry, row)?)
}

fn all_come_to(
    alloc: Global,
    registry: &mut Registry,
    inputs: &Inputs,
    rows: &[Row],
) -> Result<bool, AllocError> {
    for row in rows {
        if !comes_to(alloc, registry, inputs, row)? {
            return Ok(false);
        }
    }
    Ok(true)
}

/// A registry to which nothing happened yet, and where everything is allowed.
fn registry(alloc: Global) -> Result<Registry, AllocError> {
    let policy = Policy::new(Vec::new(alloc), true)?;
    Registry::new(alloc, Settings::default(), policy, &[])
}

/// Whether the rows come about, one after another, where the logs say this.
fn come_beside(alloc: Global, inputs: &Inputs, rows: &[Row]) -> Result<bool, AllocError> {
    let mut registry = registry(alloc)?;
    let come = all_come_to(alloc, &mut registry, inputs, rows);
    drop(registry);
    come
}

/// Whether the rows come about, one after the other, where there are no logs.
fn come_to(alloc: Global, rows: &[Row]) -> Result<bool, AllocError> {
    let inputs = Inputs::none(alloc);
    come_beside(alloc, &inputs, rows)
}

/// What a client has goes again: its publication, which lingers and is read on, and then its subscription.
static REMOVALS: [Row; 5] = [
    ATTACHED,
    (SUBSCRIBE, None, &[], &[], &[], &[SUBSCRIBED], &[]),
    (
        PUBLISH,
        Some(LOG),
        &[],
        &[],
        &[PAIR],
        &[SHARED, IMAGE],
        &[PAIR],
    ),
    (UNPUBLISH_2, None, &[], &[], &[], &[], &[PAIR]),
    (UNSUBSCRIBE_1, None, &[], &[PAIR], &[], &[], &[]),
];

#[test]
fn ample_memory(rt: HostRuntime) {
    let come = come_to(rt.alloc(), &ROWS) == Ok(true);
    assert!(rt; come & (come_to(rt.alloc(), &REMOVALS) == Ok(true)));
}

/// What another log, another pair, another decision and another list of pairs would be, where the client subscribes.
static OTHERS: [[Row; 2]; 4] = [
    [
        ATTACHED,
        (SUBSCRIBE, Some(LOG), &[], &[], &[], &[SUBSCRIBED], &[]),
    ],
    [
        ATTACHED,
        (SUBSCRIBE, None, &[], &[], &[PAIR], &[SUBSCRIBED], &[]),
    ],
    [ATTACHED, (SUBSCRIBE, None, &[], &[], &[], &[], &[])],
    [
        ATTACHED,
        (SUBSCRIBE, None, &[], &[], &[], &[SUBSCRIBED], &[PAIR]),
    ],
];

/// Whether none of these comes about. It is asked with ample memory.
fn none_come_to(alloc: Global, others: &[[Row; 2]]) -> bool {
    for rows in others {
        if come_to(alloc, rows) != Ok(false) {
            return false;
        }
    }
    true
}

#[test]
fn other_rows_are_told(rt: HostRuntime) {
    assert!(rt; none_come_to(rt.alloc(), &OTHERS));
}
