// The agents run beside each other: the conductor answers while the sender is held up.
ghost use Rattle.media_driver.specs.Parts.{AreNamed};

use crate::asking::{Outcome, TRIES, counted};
use crate::clients::{alone, attached};
use crate::gates::{Held, Holding};
use crate::opening::parts_at;
use crate::running::{ended, gated};
use media_driver::{Client, Clock, Driver, DriverNaming, MachineClock, Parts};
use media_wire::Network;
use std::alloc::Global;
use std::marker::Brand;
use std::sync::atomic::{AtomicBool, Ordering};
use std::sync::{Arc, Wait};
use std::test::Fail;
use std::thread::{self, Threads};
use std::time;

fn awaited(flag: &AtomicBool) -> Outcome {
    for _ in 0..TRIES {
        if flag.load(Ordering::SeqCst) {
            return Ok(());
        }
        thread::yield_now();
    }
    Err("the sender does not come to the gate")
}

/// A client has its counter while the sender stands at the gate. The client comes back.
fn while_the_sender_waits<
    N: DriverNaming + Send + Sync + 'static,
    R: Threads + Wait + Copy + Drop + Send + Sync + 'static,
    C: Clock + Copy + Drop + Send + 'static,
>(
    rt: R,
    alloc: Global,
    driver: &mut Driver<N, R, C>,
    sender: &Held,
) -> Result<Vec<Client<N, C>>, &'static str> {
    awaited(&sender.came)?;
    let mut client = attached(driver, 1)?;
    counted(&rt, &mut client, 100)?;
    if sender.gave_up.load(Ordering::SeqCst) {
        return Err("the sender was not held up until then");
    }
    alone(alloc, client)
}

/// How it goes with a driver of these parts, whose sender is held up at that gate.
fn goes<
    N: DriverNaming + Send + Sync + 'static,
    R: Threads + Wait + time::Clock + Copy + Drop + Send + Sync + 'static,
>(rt: R, alloc: Global, parts: Parts, gate: Holding, sender: &Held) -> Outcome
    requires { AreNamed N.home N.ledger N.parts N.client_ledger N.client_parts N.book parts }
{
    let mut driver: Driver<N, R, MachineClock<R>> = gated(
        rt,
        alloc,
        parts,
        Network::new(alloc),
        gate,
    )?;
    let clients = while_the_sender_waits(rt, alloc, &mut driver, sender);
    sender.released.store(true, Ordering::SeqCst);
    ended(alloc, driver, clients, 0)
}

/// How it goes with parts that are made here.
fn shown<R: Threads + Wait + time::Clock + Copy + Drop + Send + Sync + 'static>(
    rt: R,
    alloc: Global,
    gate: Holding,
    sender: &Held,
) -> Outcome {
    let parts = parts_at(&rt, alloc, 40_000)?;
    goes::<Brand, R>(rt, alloc, parts, gate, sender)
}

#[test]
fn agents_run_beside_each_other(rt: HostRuntime) -> Result<(), Fail> {
    let sender = Arc::new(rt.alloc(), Held::new())?;
    let gate = Holding {
        sender: Arc::try_clone(&sender)?,
    };
    shown(rt, rt.alloc(), gate, &sender)?;
    Ok(())
}
