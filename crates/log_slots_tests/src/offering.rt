// Two threads offer to one slot.
ghost use Rattle.std.specs.Prelude.{◌≡◌, IfSome};

use crate::ending::ended;
use crate::parts::Parts;
use crate::registries::FIRST;
use log_slots::Naming;
use std::alloc::Global;
use std::sync::Wait;
use std::thread::{Threads, join};

// How often each thread offers: all messages fit before a reader that stands at the start.
const TIMES: u64 = 200;

/// How many messages the logs took, and how many the two threads saw taken.
pub(crate) fn two_threads<N: Naming + Send + Sync + 'static, R: Threads + Wait + Sync>(
    rt: &R,
    alloc: Global,
    parts: Parts<N>,
) -> Option<(u64, u64)>
    ensures { IfSome result (λ counts. counts.0 ≡ counts.1) }
{
    let mut parts = parts;
    if !parts.opens(rt, alloc, FIRST) {
        return None;
    }
    let Parts {
        registry,
        region,
        total,
        first,
        second,
        slots,
    } = parts;
    drop(region);
    let Some(slot) = slots.first() else {
        return None;
    };
    let (one, other) = join(
        rt,
        || first.offers_all(rt, slot, &registry, FIRST.source, TIMES),
        || second.offers_all(rt, slot, &registry, FIRST.source, TIMES),
    );
    ended(rt, &total, slots.as_slice(), (one, other))
}
