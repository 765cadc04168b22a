// Two drivers over a network that loses, repeats and swaps datagrams.
use crate::asking::{Outcome, TRIES, passes, published, source_of, subscribed};
use crate::clients::attached;
use media_driver::{Client, Clock, Driver, DriverNaming, OfferFault, PollFault};
use media_wire::Fate;
use std::alloc::{AllocError, Global};
use std::sync::atomic::{AtomicU64, Ordering};
use std::sync::{Arc, Wait};
use std::thread::{self, Threads};

const CHANNEL: &str = "aeron:udp?endpoint=127.0.0.1:40123";

/// How many messages go from one driver to the other.
const MESSAGES: u32 = 1_000;

/// How many bytes each has: none shares a datagram with another.
const LENGTH: usize = 1_000;

/// How many turns each driver's conductor begins, at least.
const TURNS: u64 = 1_000;

/// How many datagrams have a fate. All that are sent later arrive.
const FATES: u32 = 3_000;

/// How many turns the conductors of the two have begun.
#[derive(Drop)]
pub(crate) struct Turns {
    pub(crate) one: Arc<AtomicU64>,
    pub(crate) other: Arc<AtomicU64>,
}

impl Turns {
    pub(crate) fn none(alloc: Global) -> Result<Turns, AllocError> {
        Ok(Turns {
            one: Arc::new(alloc, AtomicU64::new(0))?,
            other: Arc::new(alloc, AtomicU64::new(0))?,
        })
    }

    /// Whether both have begun so many that the drivers may end.
    fn are_enough(&self) -> bool {
        self.one.load(Ordering::SeqCst) >= TURNS && self.other.load(Ordering::SeqCst) >= TURNS
    }
}

/// What becomes of a datagram, by a number that looks like a chance one.
fn fate(chance: u32) -> Fate {
    match chance % 10 {
        0 => Fate::IsLost,
        1 => Fate::IsRepeated,
        2 => Fate::Overtakes,
        _ => Fate::Arrives,
    }
}

/// One datagram of ten is lost, one comes twice, and one overtakes another.
pub(crate) fn fates(alloc: Global) -> Result<Vec<Fate>, AllocError> {
    let mut fates = Vec::with_capacity(alloc, FATES as usize)?;
    let mut chance = 1u32;
    for _ in 0..FATES {
        chance = chance.wrapping_mul(1_664_525).wrapping_add(1_013_904_223);
        fates.push(fate(chance >> 16))?;
    }
    Ok(fates)
}

/// The bytes of a message begin with its number.
fn write(bytes: &mut [u8; LENGTH], number: u32) {
    let [a, b, c, d] = number.to_le_bytes();
    bytes[0] = a;
    bytes[1] = b;
    bytes[2] = c;
    bytes[3] = d;
}

/// A client that publishes, how many messages it has offered, and the bytes of the next.
#[derive(Drop)]
struct Publisher<N: DriverNaming, C: Clock + Drop> {
    client: Client<N, C>,
    registration: u64,
    count: u32,
    bytes: [u8; LENGTH],
}

impl<N: DriverNaming, C: Clock + Drop> Publisher<N, C> {
    /// Offers the next message, if one is left. Whether it was accepted.
    fn offers<R: Wait>(&mut self, rt: &R) -> Result<bool, &'static str> {
        if self.count == MESSAGES {
            return Ok(false);
        }
        write(&mut self.bytes, self.count);
        match self.client.offer(rt, self.registration, &self.bytes) {
            Ok(_) => {
                self.count = self.count.saturating_add(1);
                Ok(true)
            }
            Err(OfferFault::NotConnected) => Ok(false),
            Err(fault) if passes(fault) => Ok(false),
            Err(_) => Err("an offer is refused"),
        }
    }
}

/// Which refusal it is.
fn refused(fault: PollFault) -> &'static str {
    match fault {
        PollFault::Gone => "a poll finds no log",
        PollFault::Denied(_) => "a poll is denied",
        PollFault::NoLook => "a poll gets no look",
        PollFault::NoMemory => "a poll finds no memory",
    }
}

/// A client that polls, how many messages have come, and the bytes of the next.
#[derive(Drop)]
struct Poller<N: DriverNaming, C: Clock + Drop> {
    client: Client<N, C>,
    subscription: u64,
    source: u64,
    count: u32,
    bytes: [u8; LENGTH],
}

impl<N: DriverNaming, C: Clock + Drop> Poller<N, C> {
    /// Polls once. Whether a message came; each has to be the next one.
    fn polls<R: Wait>(&mut self, rt: &R) -> Result<bool, &'static str> {
        let fragments = match self.client.poll(rt, self.subscription, self.source, 8) {
            Ok(fragments) => fragments,
            Err(fault) => return Err(refused(fault)),
        };
        let before = self.count;
        for fragment in fragments.iter() {
            write(&mut self.bytes, self.count);
            if fragment.payload != self.bytes.as_slice() {
                return Err("a message is not the next one");
            }
            self.count = self.count.saturating_add(1);
        }
        Ok(self.count > before)
    }
}

/// Tells the driver that a client is there still.
fn stays<N: DriverNaming, C: Clock, R: Wait>(rt: &R, client: &mut Client<N, C>) -> Outcome {
    match client.keepalive(rt) {
        Ok(_) => Ok(()),
        Err(_) => Err("a keepalive does not reach the driver"),
    }
}

/// How many steps go by from one keepalive to the next.
const STEPS: u32 = 1_000;

/// One step of the two, and whether one of them went on.
fn go_on<N: DriverNaming, M: DriverNaming, C: Clock + Drop, R: Wait>(
    rt: &R,
    publisher: &mut Publisher<N, C>,
    poller: &mut Poller<M, C>,
) -> Result<bool, &'static str> {
    let offered = publisher.offers(rt)?;
    let polled = poller.polls(rt)?;
    Ok(offered || polled)
}

/// All messages are offered by one client and polled by the other, which polls on until the drivers may end: nothing comes
/// after them.
fn all_come<N: DriverNaming, M: DriverNaming, C: Clock + Drop, R: Wait>(
    rt: &R,
    publisher: &mut Publisher<N, C>,
    poller: &mut Poller<M, C>,
    turns: &Turns,
) -> Outcome {
    let mut idle = 0u32;
    let mut step = 0u32;
    for _ in rt.forever() {
        if poller.count == MESSAGES && turns.are_enough() {
            return Ok(());
        }
        step = step.wrapping_add(1);
        if step % STEPS == 0 {
            stays(rt, &mut publisher.client)?;
            stays(rt, &mut poller.client)?;
        }
        if go_on(rt, publisher, poller)? {
            idle = 0;
        } else {
            idle = idle.saturating_add(1);
            thread::yield_now();
        }
        if idle > TRIES {
            return Err("no message comes any more, or the drivers make no turns");
        }
    }
    Ok(())
}

fn publishing<
    N: DriverNaming + Send + Sync + 'static,
    R: Threads + Wait + Copy + Drop + Send + Sync + 'static,
    C: Clock + Copy + Drop + Send + 'static,
>(rt: &R, driver: &mut Driver<N, R, C>) -> Result<Publisher<N, C>, &'static str> {
    let mut client = attached(driver, 1)?;
    let registration = published(rt, &mut client, CHANNEL, 10)?;
    Ok(Publisher {
        client,
        registration,
        count: 0,
        bytes: [7; LENGTH],
    })
}

fn polling<N: DriverNaming, C: Clock + Drop>(
    client: Client<N, C>,
    subscription: u64,
) -> Result<Poller<N, C>, &'static str> {
    let mut client = client;
    let source = source_of(&mut client, subscription)?;
    Ok(Poller {
        client,
        subscription,
        source,
        count: 0,
        bytes: [7; LENGTH],
    })
}

/// What a publisher of one driver offers comes to a subscriber of the other, whole and in order. The clients come back.
pub(crate) fn from_one_to_the_other<
    N: DriverNaming + Send + Sync + 'static,
    M: DriverNaming + Send + Sync + 'static,
    R: Threads + Wait + Copy + Drop + Send + Sync + 'static,
    C: Clock + Copy + Drop + Send + 'static,
>(
    rt: &R,
    one: &mut Driver<N, R, C>,
    other: &mut Driver<M, R, C>,
    turns: &Turns,
) -> Result<(Client<N, C>, Client<M, C>), &'static str> {
    let mut reader = attached(other, 1)?;
    let subscription = subscribed(rt, &mut reader, CHANNEL, 10)?;
    let mut publisher = publishing(rt, one)?;
    let mut poller = polling(reader, subscription)?;
    all_come(rt, &mut publisher, &mut poller, turns)?;
    let Publisher { client: first, .. } = publisher;
    let Poller { client: second, .. } = poller;
    Ok((first, second))
}
