// A driver that runs, from its start to its end.
ghost use Rattle.media_driver.specs.Parts.{AreNamed};

use crate::asking::Outcome;
use crate::gates::Counting;
use media_driver::{Client, Clock, Driver, DriverNaming, Gate, MachineClock, Parts};
use media_wire::Wire;
use std::alloc::Global;
use std::sync::atomic::AtomicU64;
use std::sync::{Arc, Wait};
use std::thread::Threads;
use std::time;

/// A driver of these parts over that wire, whose agents pass that gate.
pub(crate) fn gated<
    N: DriverNaming + Send + Sync + 'static,
    R: Threads + Wait + time::Clock + Copy + Drop + Send + Sync + 'static,
    W: Wire + Drop + Send + 'static,
    G: Gate + Drop + Send + Sync + 'static,
>(
    rt: R,
    alloc: Global,
    parts: Parts,
    wire: W,
    gate: G,
) -> Result<Driver<N, R, MachineClock<R>>, &'static str>
    requires { AreNamed N.home N.ledger N.parts N.client_ledger N.client_parts N.book parts }
{
    let Ok(clock) = MachineClock::start(rt) else {
        parts.end(&rt);
        return Err("the time is not known");
    };
    match Driver::start_gated(rt, alloc, parts, wire, clock, gate) {
        Ok(driver) => Ok(driver),
        Err(_) => Err("the driver does not start"),
    }
}

/// A driver of these parts over that wire, which counts its conductor's turns.
pub(crate) fn started<
    N: DriverNaming + Send + Sync + 'static,
    R: Threads + Wait + time::Clock + Copy + Drop + Send + Sync + 'static,
    W: Wire + Drop + Send + 'static,
>(
    rt: R,
    alloc: Global,
    parts: Parts,
    wire: W,
    turns: &Arc<AtomicU64>,
) -> Result<Driver<N, R, MachineClock<R>>, &'static str>
    requires { AreNamed N.home N.ledger N.parts N.client_ledger N.client_parts N.book parts }
{
    let Ok(counted) = Arc::try_clone(turns) else {
        parts.end(&rt);
        return Err("no memory");
    };
    let Ok(bells) = parts.bells() else {
        parts.end(&rt);
        return Err("no memory");
    };
    gated(rt, alloc, parts, wire, Counting::new(rt, bells, counted))
}

/// Stops a driver, whose logs have to have taken so many messages.
pub(crate) fn ended<
    N: DriverNaming + Send + Sync + 'static,
    R: Threads + Wait + Copy + Drop + Send + Sync + 'static,
    C: Clock + Copy + Drop + Send + 'static,
>(
    alloc: Global,
    driver: Driver<N, R, C>,
    clients: Result<Vec<Client<N, C>>, &'static str>,
    taken: u64,
) -> Outcome {
    match clients {
        Ok(clients) => {
            if driver.stop(clients) == Some(taken) {
                Ok(())
            } else {
                Err("another number of messages is counted")
            }
        }
        Err(fault) => {
            driver.stop(Vec::new(alloc));
            Err(fault)
        }
    }
}
