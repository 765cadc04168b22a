// A step for a log that is closed finds nothing, whatever is open in its slot by then.
ghost use Rattle.log_traffic.specs.Held.{place_held};
ghost use Rattle.std.specs.Prelude.{◌≡◌, IfSome};

use crate::asking::Anew;
use crate::parts::Parts;
use crate::registries::{CLIENT, FIRST, Numbers, REMOTE, SECOND};
use driver_core::{Astray, Registry};
use frame_codec::{Flags, Packet, StatusMessage};
use log_slots::{Naming, Slot};
use log_steps::{Answer, Cause, Offered, OpenLog, PacketRequest};
use std::alloc::Global;
use std::sync::Wait;

// A status message of the first publication.
const STATUS: StatusMessage = StatusMessage {
    flags: Flags { bits: 0 },
    session_id: 1,
    stream_id: 10,
    consumption_term_id: 0,
    consumption_term_offset: 0,
    receiver_window: 1_000,
    receiver_id: 9,
};

// What a poll of the client comes to.
fn polled<N: Naming>(
    alloc: Global,
    slot: &mut Slot<N>,
    registry: &Registry,
    numbers: Numbers,
) -> Option<Answer> {
    let told = slot.poll(
        registry,
        &mut Anew,
        alloc,
        CLIENT,
        numbers.subscription,
        numbers.source,
        10,
    );
    Some(told.ok()?.answer)
}

fn is_polled<N: Naming>(
    alloc: Global,
    slot: &mut Slot<N>,
    registry: &Registry,
    numbers: Numbers,
) -> bool {
    matches!(
        polled(alloc, slot, registry, numbers),
        Some(Answer::Polled(_))
    )
}

// Whether a status message for that log is not heard.
fn is_unheard<N: Naming>(alloc: Global, slot: &mut Slot<N>, source: u64) -> bool {
    let request = PacketRequest {
        source,
        decision: None,
    };
    match slot.packet(alloc, 0, &REMOTE, Packet::Sm(STATUS), &request) {
        Ok(told) => {
            (told.answer == Answer::Dropped(Cause::Astray(Astray::NoStream)))
                & told.decision.is_none()
        }
        Err(_) => false,
    }
}

// Whether no step finds that log in the slot.
fn is_gone<N: Naming>(
    alloc: Global,
    slot: &mut Slot<N>,
    registry: &Registry,
    numbers: Numbers,
) -> bool {
    slot.holds();
    polled(alloc, slot, registry, numbers) == Some(Answer::Gone)
        && slot.send(registry, alloc, 0, numbers.source) == Ok(Answer::Gone)
        && is_unheard(alloc, slot, numbers.source)
        && slot.reach(numbers.source).is_none()
        && slot
            .rejoin(numbers.source, &[numbers.subscription])
            .is_none()
        && slot.close(numbers.source).is_none()
}

// Whether no step finds that log in the first slot.
fn is_closed<N: Naming, R: Wait>(
    rt: &R,
    alloc: Global,
    parts: &mut Parts<N>,
    numbers: Numbers,
) -> bool {
    let gone = match parts.slots.first() {
        Some(slot) => is_gone(alloc, &mut *slot.lock(rt), &parts.registry, numbers),
        None => false,
    };
    gone && parts.offers(rt, numbers) == Some(Answer::Offered(Offered::Closed))
}

// Whether the first slot has that log, which takes a message and gives it to its reader.
fn is_open<N: Naming, R: Wait>(
    rt: &R,
    alloc: Global,
    parts: &mut Parts<N>,
    numbers: Numbers,
) -> bool {
    if parts.offers(rt, numbers) != Some(Answer::Offered(Offered::At(64))) {
        return false;
    }
    match parts.slots.first() {
        Some(slot) => {
            let mut slot = slot.lock(rt);
            let slot = &mut *slot;
            slot.reach(numbers.source) == Some(64)
                && is_polled(alloc, slot, &parts.registry, numbers)
        }
        None => false,
    }
}

// The log closes.
fn closed<N: Naming, R: Wait>(rt: &R, parts: &Parts<N>, numbers: Numbers) -> Option<OpenLog>
    ensures { IfSome result (λ held. (place_held held.log).home ≡ N.home) }
{
    let slot = parts.slots.first()?;
    slot.lock(rt).close(numbers.source)
}

// Whether the log closes, and no step finds it then, nor once the next log is open in its slot.
fn stays_closed<N: Naming, R: Wait>(rt: &R, alloc: Global, parts: &mut Parts<N>) -> bool {
    let Some(log) = closed(rt, parts, FIRST) else {
        return false;
    };
    let counted = log.messages() == 1;
    let gone = is_closed(rt, alloc, parts, FIRST);
    let next = parts.opens(rt, alloc, SECOND) && is_open(rt, alloc, parts, SECOND);
    let still = is_closed(rt, alloc, parts, FIRST);
    parts.region.close(log);
    counted & gone & next & still
}

/// Whether a log that is closed stays so, whatever is open in its slot.
pub(crate) fn next_log_is_not_served<N: Naming, R: Wait>(
    rt: &R,
    alloc: Global,
    parts: Parts<N>,
) -> bool {
    let mut parts = parts;
    parts.opens(rt, alloc, FIRST)
        && is_open(rt, alloc, &mut parts, FIRST)
        && stays_closed(rt, alloc, &mut parts)
}
