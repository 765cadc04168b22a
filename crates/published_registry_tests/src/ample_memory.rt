use crate::opening::{next, opened};
use counters::Counter;
use driver_core::{Event, Received};
use published_registry::{Look, Pass, Publisher, make};
use std::alloc::{AllocError, Global};
use std::sync::Wait;
use std::test::Fail;
use stream_registry::Pair;

// Commands of client 1: ADD_SUBSCRIPTION and ADD_EXCLUSIVE_PUBLICATION of `aeron:ipc`, stream 10, and ADD_COUNTER of type
// 100, with the key 7 and the label `ab`. The rows that they make have the numbers 1, 2 and 3.
const COMMANDS: [&[u8]; 3] = [
    &[
        0x04, 0, 0, 0, 1, 0, 0, 0, 0, 0, 0, 0, 11, 0, 0, 0, 0, 0, 0, 0, // type, client, correlation
        0, 0, 0, 0, 0, 0, 0, 0, 10, 0, 0, 0, // registration correlation, stream
        9, 0, 0, 0, 0x61, 0x65, 0x72, 0x6f, 0x6e, 0x3a, 0x69, 0x70, 0x63, // channel
    ],
    &[
        0x03, 0, 0, 0, 1, 0, 0, 0, 0, 0, 0, 0, 12, 0, 0, 0, 0, 0, 0, 0, 10, 0, 0, 0, //
        9, 0, 0, 0, 0x61, 0x65, 0x72, 0x6f, 0x6e, 0x3a, 0x69, 0x70, 0x63,
    ],
    &[
        0x09, 0, 0, 0, 1, 0, 0, 0, 0, 0, 0, 0, 13, 0, 0, 0, 0, 0, 0, 0, 100, 0, 0, 0, //
        1, 0, 0, 0, 7, 2, 0, 0, 0, 0x61, 0x62,
    ],
];

const PAIR: Pair = Pair {
    source: 2,
    subscription: 1,
};

// A client of principal 7 comes, or one of its commands.
fn event(alloc: Global, at: usize) -> Result<Event, AllocError> {
    match COMMANDS.get(at) {
        Some(bytes) => Ok(Event::Command {
            now: 0,
            client: 1,
            bytes: Received::new(alloc, bytes)?,
        }),
        None => Ok(Event::Attach {
            now: 0,
            principal: 7,
        }),
    }
}

// Commits the event, and says the number of its receipt, where that is after the receipt before it.
fn committed<R: Wait>(
    rt: &R,
    alloc: Global,
    publisher: &mut Publisher,
    event: &Event,
) -> Option<u64> {
    let entry = next(alloc, publisher, event)?;
    let before = publisher.receipt();
    let receipt = publisher.commit(rt, entry).ok()?;
    if before.begins(&receipt) && !receipt.begins(&before) {
        return Some(receipt.number());
    }
    None
}

// Commits a client and its commands. Whether their receipts have the numbers 1 to 4.
fn all_committed<R: Wait>(rt: &R, alloc: Global, publisher: &mut Publisher) -> bool {
    let mut well = true;
    for (at, number) in [(3, 1u64), (0, 2), (1, 3), (2, 4)] {
        let Ok(event) = event(alloc, at) else {
            return false;
        };
        well = well && committed(rt, alloc, publisher, &event) == Some(number);
        drop(event);
    }
    well
}

fn is_counter(counter: &Counter) -> bool {
    (counter.number == 3)
        & (counter.client == 1)
        & (counter.type_id == 100)
        & (counter.key.as_slice() == [7].as_slice())
        & (counter.label.as_str() == "ab")
        & (counter.value == 0)
}

// Whether a look at the registry after these four entries says what they made.
fn tells_all(alloc: Global, look: &Look) -> bool {
    let pairs = match look.pairs(alloc) {
        Ok(pairs) => pairs.as_slice() == [PAIR].as_slice(),
        Err(_) => false,
    };
    let counters = match look.counters() {
        [counter] => is_counter(counter),
        _ => false,
    };
    pairs & counters & (look.number() == 4) & (look.epoch() == 1)
}

// The same of a look that the pass takes. It is false where it gets none.
fn is_seen(alloc: Global, pass: Pass) -> bool {
    match pass.enter() {
        Ok(look) => {
            let told = tells_all(alloc, &look) & (look.receipt().number() == 4);
            drop(look.leave());
            told
        }
        Err(_) => false,
    }
}

// Whether a publisher of two passes answers all its calls, and each pass sees what was committed.
fn answers<R: Wait>(rt: &R, alloc: Global, publisher: Publisher, passes: Vec<Pass>) -> bool {
    let mut publisher = publisher;
    let first = publisher.receipt();
    let mut well = (passes.len() == 2) & (first.number() == 0);
    well = well & all_committed(rt, alloc, &mut publisher);
    let last = publisher.receipt();
    well = well & (last.number() == 4) & (publisher.number() == 4);
    for pass in passes {
        well = well & is_seen(alloc, pass);
    }
    drop(publisher.end(rt));
    well
}

#[test]
fn ample_memory(rt: HostRuntime) -> Result<(), Fail> {
    let alloc = rt.alloc();
    let registry = opened(alloc)?;
    let (publisher, passes) = make(&rt, alloc, registry, 2).ok().ok_or("nothing is made")?;
    assert!(rt; answers(&rt, alloc, publisher, passes));
    Ok(())
}
