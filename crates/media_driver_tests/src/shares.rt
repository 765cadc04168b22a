// Shares of the queue: what one client may push while the conductor takes nothing, and what the others may.
ghost use Rattle.media_driver.specs.Parts.{AreNamed};

use crate::asking::{Outcome, next_reply};
use crate::clients::{alone, attached, both};
use crate::gates::{Halt, Halting};
use crate::opening::parts_at;
use crate::running::{ended, gated};
use crate::seats::closes;
use driver_core::Reply;
use media_driver::{Client, Clock, Driver, DriverNaming, MachineClock, Parts, PushFault};
use media_wire::Network;
use std::alloc::Global;
use std::marker::Brand;
use std::sync::atomic::{AtomicBool, Ordering};
use std::sync::{Arc, Wait};
use std::test::Fail;
use std::thread::{self, Threads};
use std::time;

/// More than the queue holds.
const MANY: u32 = 2_000;

/// How many commands of a client the queue takes, until one is refused.
fn fills<N: DriverNaming, C: Clock, R: Wait>(
    rt: &R,
    client: &mut Client<N, C>,
) -> Result<u32, &'static str> {
    for count in 0..MANY {
        match client.keepalive(rt) {
            Ok(_) => {}
            Err(PushFault::QueueFull) => return Ok(count),
            Err(PushFault::NoMemory) => return Err("no memory"),
        }
    }
    Ok(MANY)
}

/// Whether the queue takes just 256.
fn fills_its_share<N: DriverNaming, C: Clock, R: Wait>(
    rt: &R,
    client: &mut Client<N, C>,
) -> Outcome {
    if fills(rt, client)? == 256 {
        Ok(())
    } else {
        Err("a client's share is not 256")
    }
}

/// The same while the conductor takes nothing.
fn has_its_share<N: DriverNaming, C: Clock, R: Wait>(
    rt: &R,
    client: &mut Client<N, C>,
    conductor: &Halt,
) -> Outcome {
    conductor.begin()?;
    let filled = fills_its_share(rt, client);
    conductor.end()?;
    filled
}

/// Asks that often that the counter 0, which does not exist, go: each time the queue takes it.
fn asks<N: DriverNaming, C: Clock, R: Wait>(
    rt: &R,
    client: &mut Client<N, C>,
    times: u32,
) -> Outcome {
    for _ in 0..times {
        if client.remove_counter(rt, 0).is_err() {
            return Err("a command of another client is refused");
        }
    }
    Ok(())
}

/// Whether each of them is answered.
fn is_answered<N: DriverNaming, C: Clock>(client: &mut Client<N, C>, times: u32) -> Outcome {
    for _ in 0..times {
        match next_reply(client)? {
            Reply::Error { .. } => {}
            _ => return Err("another reply came"),
        }
    }
    Ok(())
}

/// What a client does beside one that fills its share, while the conductor takes nothing.
fn beside<N: DriverNaming, C: Clock, R: Wait>(
    rt: &R,
    one: &mut Client<N, C>,
    other: &mut Client<N, C>,
    conductor: &Halt,
) -> Outcome {
    conductor.begin()?;
    let filled = fills_its_share(rt, one);
    let asked = asks(rt, other, 200);
    let full = fills(rt, one);
    conductor.end()?;
    filled?;
    asked?;
    if full? != 0 {
        return Err("a client has more than its share");
    }
    is_answered(other, 200)
}

/// One client fills its share, and another has its own beside it. Once the conductor went on, so has the first.
fn held_up<
    N: DriverNaming + Send + Sync + 'static,
    R: Threads + Wait + Copy + Drop + Send + Sync + 'static,
    C: Clock + Copy + Drop + Send + 'static,
>(
    rt: R,
    alloc: Global,
    driver: &mut Driver<N, R, C>,
    conductor: &Halt,
) -> Result<Vec<Client<N, C>>, &'static str> {
    let mut one = attached(driver, 1)?;
    let mut other = attached(driver, 2)?;
    beside(&rt, &mut one, &mut other, conductor)?;
    has_its_share(&rt, &mut one, conductor)?;
    both(alloc, one, other)
}

/// A client that comes and goes, and leaves so many commands in the queue.
fn passes<
    N: DriverNaming + Send + Sync + 'static,
    R: Threads + Wait + Copy + Drop + Send + Sync + 'static,
    C: Clock + Copy + Drop + Send + 'static,
>(rt: R, driver: &mut Driver<N, R, C>, left: u32) -> Outcome {
    let mut client = attached(driver, 1)?;
    let closed = closes(&rt, &mut client);
    let asked = asks(&rt, &mut client, left);
    driver.take_back(client);
    closed?;
    asked
}

/// Three hundred clients have one seat, one after another, and the next one has the whole share.
fn seat_of_many<
    N: DriverNaming + Send + Sync + 'static,
    R: Threads + Wait + Copy + Drop + Send + Sync + 'static,
    C: Clock + Copy + Drop + Send + 'static,
>(
    rt: R,
    alloc: Global,
    driver: &mut Driver<N, R, C>,
    conductor: &Halt,
) -> Result<Vec<Client<N, C>>, &'static str> {
    for round in 0..300u32 {
        passes(rt, driver, round % 3)?;
    }
    let mut client = attached(driver, 1)?;
    has_its_share(&rt, &mut client, conductor)?;
    alone(alloc, client)
}

/// A client that pushes whatever the queue takes, until it is to stop.
#[derive(Drop)]
struct Flood<N: DriverNaming, C: Clock + Drop> {
    client: Client<N, C>,
    stop: Arc<AtomicBool>,
}

impl<N: DriverNaming, C: Clock + Drop> Flood<N, C> {
    /// Whether there was memory for each of its commands.
    fn runs<R: Wait>(self, rt: &R) -> (Client<N, C>, bool) {
        let Flood { mut client, stop } = self;
        for _ in rt.forever() {
            if stop.load(Ordering::SeqCst) {
                break;
            }
            if fills(rt, &mut client).is_err() {
                return (client, false);
            }
            thread::yield_now();
        }
        (client, true)
    }
}

/// Asks that often, and waits for each answer.
fn asks_in_turn<N: DriverNaming, C: Clock, R: Wait>(
    rt: &R,
    client: &mut Client<N, C>,
    times: u32,
) -> Outcome {
    for _ in 0..times {
        asks(rt, client, 1)?;
        is_answered(client, 1)?;
    }
    Ok(())
}

/// The other asks thirty times while the flood runs on another thread.
fn asks_beside<
    N: DriverNaming + Send + Sync + 'static,
    R: Threads + Wait + Copy + Drop + Send + Sync + 'static,
    C: Clock + Copy + Drop + Send + 'static,
>(
    rt: R,
    flood: Flood<N, C>,
    other: &mut Client<N, C>,
    stop: &AtomicBool,
) -> Result<Client<N, C>, &'static str> {
    let Ok(runs) = thread::spawn(&rt, move || flood.runs(&rt)) else {
        return Err("there is no thread");
    };
    let went = asks_in_turn(&rt, other, 30);
    stop.store(true, Ordering::SeqCst);
    let (client, whole) = runs.join(&rt);
    went?;
    if whole { Ok(client) } else { Err("no memory") }
}

/// What a client asks reaches the driver while another one floods the queue, which has its share afterwards.
fn flooded<
    N: DriverNaming + Send + Sync + 'static,
    R: Threads + Wait + Copy + Drop + Send + Sync + 'static,
    C: Clock + Copy + Drop + Send + 'static,
>(
    rt: R,
    alloc: Global,
    driver: &mut Driver<N, R, C>,
    conductor: &Halt,
) -> Result<Vec<Client<N, C>>, &'static str> {
    let client = attached(driver, 1)?;
    let mut other = attached(driver, 2)?;
    let Ok(stop) = Arc::new(alloc, AtomicBool::new(false)) else {
        return Err("no memory");
    };
    let Ok(theirs) = Arc::try_clone(&stop) else {
        return Err("no memory");
    };
    let flood = Flood {
        client,
        stop: theirs,
    };
    let mut one = asks_beside(rt, flood, &mut other, &stop)?;
    asks_in_turn(&rt, &mut other, 1)?;
    has_its_share(&rt, &mut one, conductor)?;
    both(alloc, one, other)
}

/// What is shown of shares.
#[derive(Clone, Copy)]
enum Case {
    HeldUp,
    SeatOfMany,
    Flooded,
}

/// How it goes with a driver of these parts.
fn goes<
    N: DriverNaming + Send + Sync + 'static,
    R: Threads + Wait + time::Clock + Copy + Drop + Send + Sync + 'static,
>(rt: R, alloc: Global, parts: Parts, gate: Halting<R>, conductor: &Halt, case: Case) -> Outcome
    requires { AreNamed N.home N.ledger N.parts N.client_ledger N.client_parts N.book parts }
{
    let mut driver: Driver<N, R, MachineClock<R>> = gated(
        rt,
        alloc,
        parts,
        Network::new(alloc),
        gate,
    )?;
    let clients = match case {
        Case::HeldUp => held_up(rt, alloc, &mut driver, conductor),
        Case::SeatOfMany => seat_of_many(rt, alloc, &mut driver, conductor),
        Case::Flooded => flooded(rt, alloc, &mut driver, conductor),
    };
    ended(alloc, driver, clients, 0)
}

/// How it goes with parts that are made here.
fn shown<R: Threads + Wait + time::Clock + Copy + Drop + Send + Sync + 'static>(
    rt: R,
    alloc: Global,
    case: Case,
) -> Outcome {
    let Ok(conductor) = Arc::new(alloc, Halt::new()) else {
        return Err("no memory");
    };
    let Ok(theirs) = Arc::try_clone(&conductor) else {
        return Err("no memory");
    };
    let parts = parts_at(&rt, alloc, 40_000)?;
    let Ok(bells) = parts.bells() else {
        parts.end(&rt);
        return Err("no memory");
    };
    let gate = Halting::new(rt, bells, theirs);
    goes::<Brand, R>(rt, alloc, parts, gate, &conductor, case)
}

#[test]
fn one_client_fills_its_share(rt: HostRuntime) -> Result<(), Fail> {
    shown(rt, rt.alloc(), Case::HeldUp)?;
    Ok(())
}

#[test]
fn a_seat_keeps_its_share(rt: HostRuntime) -> Result<(), Fail> {
    shown(rt, rt.alloc(), Case::SeatOfMany)?;
    Ok(())
}

#[test]
fn one_client_floods(rt: HostRuntime) -> Result<(), Fail> {
    shown(rt, rt.alloc(), Case::Flooded)?;
    Ok(())
}
