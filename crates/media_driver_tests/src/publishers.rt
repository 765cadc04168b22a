// Two publisher threads, and one that polls.
use crate::asking::{Outcome, TRIES, offered, published, source_of, subscribed};
use crate::clients::{attached, both, with};
use crate::order::{Came, MESSAGES, message};
use media_driver::{Client, Clock, Driver, DriverNaming};
use std::alloc::Global;
use std::sync::Wait;
use std::thread::{self, Threads};

const CHANNEL: &str = "aeron:ipc";

const STREAM: i32 = 10;

/// A client that publishes.
#[derive(Drop)]
struct Publisher<N: DriverNaming, C: Clock + Drop> {
    client: Client<N, C>,
    registration: u64,
    number: u32,
}

impl<N: DriverNaming, C: Clock + Drop> Publisher<N, C> {
    /// Offers its messages, and says how many were accepted.
    fn offers_all<R: Wait>(self, rt: &R) -> (Client<N, C>, u32) {
        let Publisher {
            mut client,
            registration,
            number,
        } = self;
        for count in 0..MESSAGES {
            let bytes = message(number, count);
            if offered(rt, &mut client, registration, &bytes).is_err() {
                return (client, count);
            }
        }
        (client, MESSAGES)
    }
}

/// A client that polls.
#[derive(Drop)]
struct Poller<N: DriverNaming, C: Clock + Drop> {
    client: Client<N, C>,
    subscription: u64,
    source: u64,
}

impl<N: DriverNaming, C: Clock + Drop> Poller<N, C> {
    /// Polls once. How many fragments there were, each the next message of its publisher.
    fn polls<R: Wait>(&mut self, rt: &R, came: &mut Came) -> Result<usize, &'static str> {
        let polled = self.client.poll(rt, self.subscription, self.source, 64);
        let Ok(fragments) = polled else {
            return Err("a poll is refused");
        };
        let mut count = 0usize;
        for fragment in fragments.iter() {
            if !came.takes(fragment.payload) {
                return Err("a message is not the next one of its publisher");
            }
            count = count.saturating_add(1);
        }
        Ok(count)
    }

    /// Polls until all have come, or none comes any more.
    fn polls_all<R: Wait>(&mut self, rt: &R) -> Outcome {
        let mut came = Came::nothing();
        let mut idle = 0u32;
        for _ in rt.forever() {
            if came.is_all() {
                return Ok(());
            }
            if self.polls(rt, &mut came)? > 0 {
                idle = 0;
            } else {
                idle = idle.saturating_add(1);
                thread::yield_now();
            }
            if idle > TRIES {
                return Err("no message comes any more");
            }
        }
        Ok(())
    }
}

fn publishing<
    N: DriverNaming + Send + Sync + 'static,
    R: Threads + Wait + Copy + Drop + Send + Sync + 'static,
    C: Clock + Copy + Drop + Send + 'static,
>(rt: R, driver: &mut Driver<N, R, C>, number: u32) -> Result<Publisher<N, C>, &'static str> {
    let mut client = attached(driver, 1)?;
    let registration = published(&rt, &mut client, CHANNEL, STREAM)?;
    Ok(Publisher {
        client,
        registration,
        number,
    })
}

/// Two threads offer, and this one polls. The clients of the threads come back, where all went well.
fn beside_each_other<
    N: DriverNaming + Send + Sync + 'static,
    R: Threads + Wait + Copy + Drop + Send + Sync + 'static,
    C: Clock + Copy + Drop + Send + 'static,
>(
    rt: R,
    one: Publisher<N, C>,
    other: Publisher<N, C>,
    poller: &mut Poller<N, C>,
) -> Result<(Client<N, C>, Client<N, C>), &'static str> {
    let Ok(first) = thread::spawn(&rt, move || one.offers_all(&rt)) else {
        return Err("there is no thread");
    };
    let Ok(second) = thread::spawn(&rt, move || other.offers_all(&rt)) else {
        drop(first.join(&rt));
        return Err("there is no thread");
    };
    let polled = poller.polls_all(&rt);
    let (one, accepted) = first.join(&rt);
    let (other, more) = second.join(&rt);
    polled?;
    if accepted != MESSAGES || more != MESSAGES {
        return Err("a message is not accepted");
    }
    Ok((one, other))
}

/// A client that polls what the others publish, once one of them does.
fn polling<N: DriverNaming, C: Clock + Drop>(
    client: Client<N, C>,
    subscription: u64,
) -> Result<Poller<N, C>, &'static str> {
    let mut client = client;
    let source = source_of(&mut client, subscription)?;
    Ok(Poller {
        client,
        subscription,
        source,
    })
}

/// Whether a client that publishes and polls reads back what it offered.
fn reads_back<N: DriverNaming, C: Clock + Drop, R: Wait>(
    rt: &R,
    client: &mut Client<N, C>,
) -> Outcome {
    let subscription = subscribed(rt, client, CHANNEL, STREAM + 1)?;
    let registration = published(rt, client, CHANNEL, STREAM + 1)?;
    let source = source_of(client, subscription)?;
    if client.offer(rt, registration, b"back").is_err() {
        return Err("the message is not accepted");
    }
    let Ok(fragments) = client.poll(rt, subscription, source, 10) else {
        return Err("the poll is refused");
    };
    let mut came = 0usize;
    for fragment in fragments.iter() {
        if fragment.payload != b"back".as_slice() {
            return Err("another message came");
        }
        came = came.saturating_add(1);
    }
    if came == 1 {
        Ok(())
    } else {
        Err("the message did not come once")
    }
}

/// Two thousand messages and one go through the logs of a driver. Its clients come back.
pub(crate) fn two_publishers<
    N: DriverNaming + Send + Sync + 'static,
    R: Threads + Wait + Copy + Drop + Send + Sync + 'static,
    C: Clock + Copy + Drop + Send + 'static,
>(rt: R, alloc: Global, driver: &mut Driver<N, R, C>) -> Result<Vec<Client<N, C>>, &'static str> {
    let mut reader = attached(driver, 2)?;
    let subscription = subscribed(&rt, &mut reader, CHANNEL, STREAM)?;
    let one = publishing(rt, driver, 0)?;
    let other = publishing(rt, driver, 1)?;
    let mut poller = polling(reader, subscription)?;
    let (mut one, other) = beside_each_other(rt, one, other, &mut poller)?;
    reads_back(&rt, &mut one)?;
    let Poller { client, .. } = poller;
    with(both(alloc, one, other)?, client)
}
