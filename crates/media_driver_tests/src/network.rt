// A client reads over a network in memory what it publishes.
use crate::asking::{Outcome, TRIES, published, source_of, subscribed};
use crate::clients::{alone, attached};
use crate::positions::over_a_wire;
use media_driver::{Client, Clock, Driver, DriverNaming, OfferFault};
use std::alloc::Global;
use std::sync::Wait;
use std::sync::atomic::{AtomicU64, Ordering};
use std::thread::{self, Threads};

const CHANNEL: &str = "aeron:udp?endpoint=127.0.0.1:40123";

/// Waits until the conductor has begun and ended two turns more.
fn two_turns_later(turns: &AtomicU64) -> Outcome {
    let now = turns.load(Ordering::SeqCst);
    for _ in 0..TRIES {
        // The next two turns are over where a third one has begun.
        if turns.load(Ordering::SeqCst) > now.saturating_add(2) {
            return Ok(());
        }
        thread::yield_now();
    }
    Err("the conductor makes no turn")
}

/// Polls until one fragment comes, which has to be this one.
fn comes<N: DriverNaming, C: Clock, R: Wait>(
    rt: &R,
    client: &mut Client<N, C>,
    subscription: u64,
    source: u64,
    wanted: &[u8],
) -> Outcome {
    for _ in 0..TRIES {
        let Ok(fragments) = client.poll(rt, subscription, source, 1) else {
            return Err("the poll is refused");
        };
        if let Some(fragment) = fragments.iter().next() {
            if fragment.payload == wanted {
                return Ok(());
            }
            return Err("another message came");
        }
        thread::yield_now();
    }
    Err("the message did not come")
}

/// Offers a message, again until somebody is there to read. The position after it.
fn once_connected<N: DriverNaming, C: Clock, R: Wait>(
    rt: &R,
    client: &mut Client<N, C>,
    registration: u64,
    message: &[u8],
) -> Result<u64, OfferFault> {
    for _ in 0..TRIES {
        match client.offer(rt, registration, message) {
            Err(OfferFault::NotConnected) => thread::yield_now(),
            answer => return answer,
        }
    }
    Err(OfferFault::NotConnected)
}

/// Offers two messages, the second two turns of the conductor later. Each has one byte behind its header of 32, and 64 in all
/// with what fills it up.
fn offers_two<N: DriverNaming, C: Clock, R: Wait>(
    rt: &R,
    client: &mut Client<N, C>,
    registration: u64,
    turns: &AtomicU64,
) -> Outcome {
    if once_connected(rt, client, registration, &[0x61]) != Ok(64) {
        return Err("the first message is not accepted");
    }
    two_turns_later(turns)?;
    if client.offer(rt, registration, &[0x62]) != Ok(128) {
        return Err("the second message is not accepted");
    }
    Ok(())
}

/// The client subscribes and publishes, and what it offers comes from one source, in order.
fn reads_what_it_publishes<N: DriverNaming, C: Clock, R: Wait>(
    rt: &R,
    client: &mut Client<N, C>,
    turns: &AtomicU64,
) -> Outcome {
    let subscription = subscribed(rt, client, CHANNEL, 10)?;
    let registration = published(rt, client, CHANNEL, 10)?;
    let source = source_of(client, subscription)?;
    offers_two(rt, client, registration, turns)?;
    comes(rt, client, subscription, source, &[0x61])?;
    comes(rt, client, subscription, source, &[0x62])?;
    over_a_wire(rt, client, registration, subscription, source)
}

/// Two messages, the second two turns of the conductor later, come from one source. The client comes back.
pub(crate) fn over_a_network<
    N: DriverNaming + Send + Sync + 'static,
    R: Threads + Wait + Copy + Drop + Send + Sync + 'static,
    C: Clock + Copy + Drop + Send + 'static,
>(
    rt: R,
    alloc: Global,
    driver: &mut Driver<N, R, C>,
    turns: &AtomicU64,
) -> Result<Vec<Client<N, C>>, &'static str> {
    let mut client = attached(driver, 1)?;
    reads_what_it_publishes(&rt, &mut client, turns)?;
    alone(alloc, client)
}
