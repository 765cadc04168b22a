ghost use Rattle.media_driver.specs.Parts.{AreNamed};

use crate::asking::Outcome;
use crate::each_call::each_call;
use crate::lost_replies::replies_are_lost;
use crate::moments::{rule_begins, rule_ends};
use crate::network::over_a_network;
use crate::opening::parts_at;
use crate::publishers::two_publishers;
use crate::running::{ended, started};
use crate::seats::seats;
use media_driver::{Driver, DriverNaming, MachineClock, Parts};
use media_wire::Network;
use std::alloc::Global;
use std::marker::Brand;
use std::sync::atomic::AtomicU64;
use std::sync::{Arc, Wait};
use std::test::Fail;
use std::thread::Threads;
use std::time;

/// What a driver shows that runs.
#[derive(Clone, Copy)]
enum Case {
    TwoPublishers,
    Network,
    LostReplies,
    EachCall,
    Seats,
    RuleEnds,
    RuleBegins,
}

/// How it goes with a driver of these parts, over a network in memory.
fn goes<
    N: DriverNaming + Send + Sync + 'static,
    R: Threads + Wait + time::Clock + Copy + Drop + Send + Sync + 'static,
>(rt: R, alloc: Global, parts: Parts, turns: &Arc<AtomicU64>, case: Case) -> Outcome
    requires { AreNamed N.home N.ledger N.parts N.client_ledger N.client_parts N.book parts }
{
    let mut driver: Driver<N, R, MachineClock<R>> = started(
        rt,
        alloc,
        parts,
        Network::new(alloc),
        turns,
    )?;
    let (clients, taken) = match case {
        Case::TwoPublishers => (two_publishers(rt, alloc, &mut driver), 2_001),
        Case::Network => (over_a_network(rt, alloc, &mut driver, turns), 2),
        Case::LostReplies => (replies_are_lost(rt, alloc, &mut driver), 0),
        Case::EachCall => (each_call(rt, alloc, &mut driver), 1),
        Case::Seats => (seats(rt, alloc, &mut driver), 0),
        Case::RuleEnds => (rule_ends(rt, alloc, &mut driver), 1),
        Case::RuleBegins => (rule_begins(rt, alloc, &mut driver), 1),
    };
    ended(alloc, driver, clients, taken)
}

/// How it goes with parts that are made here.
fn shown<R: Threads + Wait + time::Clock + Copy + Drop + Send + Sync + 'static>(
    rt: R,
    alloc: Global,
    case: Case,
) -> Outcome {
    let Ok(turns) = Arc::new(alloc, AtomicU64::new(0)) else {
        return Err("no memory");
    };
    let parts = parts_at(&rt, alloc, 40_000)?;
    goes::<Brand, R>(rt, alloc, parts, &turns, case)
}

#[test]
fn two_publishers_one_poller(rt: HostRuntime) -> Result<(), Fail> {
    shown(rt, rt.alloc(), Case::TwoPublishers)?;
    Ok(())
}

#[test]
fn over_the_memory_network(rt: HostRuntime) -> Result<(), Fail> {
    shown(rt, rt.alloc(), Case::Network)?;
    Ok(())
}

#[test]
fn lost_replies(rt: HostRuntime) -> Result<(), Fail> {
    shown(rt, rt.alloc(), Case::LostReplies)?;
    Ok(())
}

#[test]
fn ample_memory(rt: HostRuntime) -> Result<(), Fail> {
    shown(rt, rt.alloc(), Case::EachCall)?;
    Ok(())
}

#[test]
fn seats_of_clients(rt: HostRuntime) -> Result<(), Fail> {
    shown(rt, rt.alloc(), Case::Seats)?;
    Ok(())
}

#[test]
fn rule_ends_while_idle(rt: HostRuntime) -> Result<(), Fail> {
    shown(rt, rt.alloc(), Case::RuleEnds)?;
    Ok(())
}

#[test]
fn rule_begins_while_idle(rt: HostRuntime) -> Result<(), Fail> {
    shown(rt, rt.alloc(), Case::RuleBegins)?;
    Ok(())
}
