// Two drivers that run over one network.
ghost use Rattle.media_driver.specs.Parts.{AreNamed};

use crate::asking::Outcome;
use crate::clients::alone;
use crate::opening::parts_at;
use crate::running::{ended, started};
use crate::two_drivers::{Turns, fates, from_one_to_the_other};
use media_driver::{Driver, DriverNaming, MachineClock, Parts};
use media_wire::{Network, Shared};
use std::alloc::{AllocError, Global};
use std::marker::Brand;
use std::sync::Wait;
use std::test::Fail;
use std::thread::Threads;
use std::time;

/// Two drivers, one of which publishes for the other, and how many messages their logs took.
fn between<
    N: DriverNaming + Send + Sync + 'static,
    M: DriverNaming + Send + Sync + 'static,
    R: Threads + Wait + time::Clock + Copy + Drop + Send + Sync + 'static,
>(
    rt: R,
    alloc: Global,
    one: Driver<N, R, MachineClock<R>>,
    other: Driver<M, R, MachineClock<R>>,
    turns: &Turns,
) -> Outcome {
    let mut one = one;
    let mut other = other;
    let (first, second) = match from_one_to_the_other(&rt, &mut one, &mut other, turns) {
        Ok((first, second)) => (alone(alloc, first), alone(alloc, second)),
        Err(fault) => (Err(fault), Err(fault)),
    };
    let taken = ended(alloc, one, first, 1_000);
    ended(alloc, other, second, 0)?;
    taken
}

/// The second driver starts over the other end of the network.
fn beside<
    N: DriverNaming + Send + Sync + 'static,
    M: DriverNaming + Send + Sync + 'static,
    R: Threads + Wait + time::Clock + Copy + Drop + Send + Sync + 'static,
>(
    rt: R,
    alloc: Global,
    one: Driver<N, R, MachineClock<R>>,
    parts: Parts,
    wire: Shared<Network, R>,
    turns: &Turns,
) -> Outcome
    requires { AreNamed M.home M.ledger M.parts M.client_ledger M.client_parts M.book parts }
{
    match started::<M, R, Shared<Network, R>>(rt, alloc, parts, wire, &turns.other) {
        Ok(other) => between(rt, alloc, one, other, turns),
        Err(fault) => ended(alloc, one, Err(fault), 0),
    }
}

/// The first driver starts, and the second one's parts are made.
fn with_another<
    N: DriverNaming + Send + Sync + 'static,
    R: Threads + Wait + time::Clock + Copy + Drop + Send + Sync + 'static,
>(
    rt: R,
    alloc: Global,
    parts: Parts,
    wires: (Shared<Network, R>, Shared<Network, R>),
    turns: &Turns,
) -> Outcome
    requires { AreNamed N.home N.ledger N.parts N.client_ledger N.client_parts N.book parts }
{
    let (wire, another) = wires;
    let one: Driver<N, R, MachineClock<R>> = started(rt, alloc, parts, wire, &turns.one)?;
    match parts_at(&rt, alloc, 40_001) {
        Ok(parts) => beside::<N, Brand, R>(rt, alloc, one, parts, another, turns),
        Err(fault) => ended(alloc, one, Err(fault), 0),
    }
}

/// The two ends of a network that loses, repeats and swaps datagrams.
fn wires<R: Wait + Copy + Drop>(
    rt: R,
    alloc: Global,
) -> Result<(Shared<Network, R>, Shared<Network, R>), AllocError> {
    let network = Network::with_fates(alloc, fates(alloc)?);
    let wire = Shared::new(alloc, rt, network)?;
    let another = wire.another()?;
    Ok((wire, another))
}

/// How it goes with parts that are made here.
fn shown<R: Threads + Wait + time::Clock + Copy + Drop + Send + Sync + 'static>(
    rt: R,
    alloc: Global,
    wires: (Shared<Network, R>, Shared<Network, R>),
    turns: &Turns,
) -> Outcome {
    let parts = parts_at(&rt, alloc, 40_000)?;
    with_another::<Brand, R>(rt, alloc, parts, wires, turns)
}

#[test]
fn two_drivers_over_a_bad_network(rt: HostRuntime) -> Result<(), Fail> {
    let turns = Turns::none(rt.alloc())?;
    let wires = wires(rt, rt.alloc())?;
    shown(rt, rt.alloc(), wires, &turns)?;
    Ok(())
}
