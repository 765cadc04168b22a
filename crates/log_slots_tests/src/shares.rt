// The slots give what they have left as a driver ends.
use crate::ending::ended;
use crate::opening::{Fresh, opened};
use crate::parts::Parts;
use crate::registries::FIRST;
use log_slots::{Naming, Slot};
use std::alloc::Global;
use std::sync::Wait;

// Whether the slot gives that once, and no log opens in it then.
fn is_settled<N: Naming>(slot: &mut Slot<N>, fresh: Fresh<N>) -> bool {
    let Fresh {
        log,
        session,
        stream,
        of: _,
    } = fresh;
    let gave = slot.settle().is_some();
    slot.holds();
    gave && slot.settle().is_none() && slot.open(log, session, stream).is_err()
}

// Whether that of the last slot is taken out.
fn is_missing<N: Naming, R: Wait>(rt: &R, alloc: Global, parts: &mut Parts<N>) -> bool {
    let Some(fresh) = opened(alloc, &mut parts.region, &parts.registry, FIRST.source) else {
        return false;
    };
    match parts.slots.last() {
        Some(slot) => is_settled(&mut *slot.lock(rt), fresh),
        None => false,
    }
}

/// Whether it is answered how many messages were taken, or nothing where a slot's amount is missing.
pub(crate) fn shares_come_together<N: Naming, R: Wait>(
    rt: &R,
    alloc: Global,
    parts: Parts<N>,
    missing: bool,
) -> bool {
    let mut parts = parts;
    if missing && !is_missing(rt, alloc, &mut parts) {
        return false;
    }
    let Parts {
        registry,
        region,
        total,
        first,
        second,
        slots,
    } = parts;
    drop(registry);
    drop(region);
    let sum = ended(rt, &total, slots.as_slice(), (first, second));
    if missing {
        sum.is_none()
    } else {
        sum == Some((0, 0))
    }
}
