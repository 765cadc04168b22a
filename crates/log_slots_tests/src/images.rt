// The log of an image after its lock.
use crate::opening::{Fresh, opened};
use crate::parts::Parts;
use crate::registries::{FIRST, IMAGE, REMOTE, SECOND, SETUP};
use driver_core::Registry;
use frame_codec::{Flags, Header, Kind, Packet, TermPlace};
use log_slots::{LogSlot, Naming, Region};
use log_steps::{Answer, PacketRequest};
use std::alloc::Global;

// A heartbeat of the publisher, which stands at the start.
const BEAT: Header = Header {
    kind: Kind::Data,
    length: 0,
    flags: Flags { bits: 0xc0 },
    place: TermPlace {
        session_id: SETUP.session_id,
        stream_id: SETUP.stream_id,
        term_id: 0,
        term_offset: 0,
    },
    reserved_value: 0,
};

const LIVENESS: u64 = 10_000_000_000;

// Whether a heartbeat is heard.
fn is_heard<N: Naming>(alloc: Global, slot: &mut LogSlot<N>) -> bool {
    let request = PacketRequest {
        source: IMAGE.source,
        decision: None,
    };
    match slot.packet(alloc, 1, &REMOTE, Packet::Beat(BEAT), &request) {
        Ok(told) => (told.answer == Answer::Heard) & told.decision.is_none(),
        Err(_) => false,
    }
}

// Whether the image is heard, reports to its publisher what is due, and is silent in the end.
fn goes<N: Naming>(alloc: Global, slot: &mut LogSlot<N>, registry: &Registry) -> bool {
    slot.holds();
    let silent = slot.is_silent(IMAGE.source, LIVENESS + 1, LIVENESS)
        & !slot.is_silent(IMAGE.source, LIVENESS, LIVENESS)
        & !slot.is_silent(IMAGE.source + 1, LIVENESS + 1, LIVENESS);
    silent
        && slot.rejoin(IMAGE.source, &[IMAGE.subscription]) == Some(0)
        && slot.reach(IMAGE.source) == Some(0)
        && matches!(
            slot.image(registry, alloc, 0, IMAGE.source),
            Ok(Answer::Reported { .. })
        )
        && is_heard(alloc, slot)
        && !slot.is_silent(IMAGE.source, LIVENESS + 1, LIVENESS)
        && slot.image(registry, alloc, 0, IMAGE.source + 1) == Ok(Answer::Gone)
}

// Whether another log is handed back where one is open.
fn is_full<N: Naming>(slot: &mut LogSlot<N>, other: Fresh<N>) -> bool {
    let Fresh {
        log,
        session,
        stream,
        of: _,
    } = other;
    slot.open(log, session, stream).is_err()
}

// Opens the log in the slot, where none is open.
fn is_opened<N: Naming>(slot: &mut LogSlot<N>, fresh: Fresh<N>) -> bool {
    let Fresh {
        log,
        session,
        stream,
        of: _,
    } = fresh;
    slot.open(log, session, stream).is_ok()
}

// Whether the image's log closes: its pages are free then.
fn is_closed<N: Naming>(slot: &mut LogSlot<N>, region: &mut Region<N>) -> bool {
    match slot.close(IMAGE.source) {
        Some(log) => {
            region.close(log);
            slot.close(IMAGE.source).is_none()
        }
        None => false,
    }
}

// Whether the image's log opens only once the logs before it have their places.
fn image<N: Naming>(alloc: Global, parts: &mut Parts<N>) -> Option<(Fresh<N>, Fresh<N>)> {
    let Parts {
        registry,
        region,
        ..
    } = parts;
    if opened(alloc, region, registry, IMAGE.source).is_some() {
        return None;
    }
    let first = opened(alloc, region, registry, FIRST.source)?;
    let _second = opened(alloc, region, registry, SECOND.source)?;
    let image = opened(alloc, region, registry, IMAGE.source)?;
    Some((first, image))
}

/// Whether the log of an image goes as it should after its lock.
pub(crate) fn image_goes<N: Naming>(alloc: Global, parts: Parts<N>) -> bool {
    let mut parts = parts;
    let mut slot = LogSlot::<N>::new();
    slot.holds();
    let Some((other, image)) = image(alloc, &mut parts) else {
        return false;
    };
    is_opened(&mut slot, image)
        && is_full(&mut slot, other)
        && goes(alloc, &mut slot, &parts.registry)
        && is_closed(&mut slot, &mut parts.region)
}
