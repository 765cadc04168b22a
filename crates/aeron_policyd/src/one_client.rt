//! A driver starts with one client, does its work, and stops.

ghost use Rattle.driver_core.specs.Soundness.{AreSettings};
ghost use Rattle.media_driver.specs.Parts.{AreNamed};

use crate::audited::show_audits;
use crate::causes::Causes;
use crate::fault::Fault;
use crate::publishing::Publishing;
use crate::reported::{Notes, Reported};
use crate::running::try_out;
use crate::standing::NAKS;
use crate::station::{Chores, OwnDriver, Station, Ties};
use crate::strangers::{Bound, Gate, GuardedUdp};
use crate::subscribing::Subscribing;
use crate::waking::{AtHome, Waking};
use driver_core::Settings;
use media_driver::{AttachFault, Backoff, Driver, DriverNaming, MachineClock, Parts, StartFault};
use media_wire::Udp;
use policy_core::Policy;
use program_parts::{Disk, Machine};
use rtrb::{Producer, RingBuffer};
use std::alloc::Global;
use std::marker::Brand;
use std::sync::Arc;
use std::thread::Parker;
use wire_causes::Side;

/// How many sockets may be open at once: the send address, an endpoint for each subscription, and a control address for each
/// publication.
const SOCKETS: usize = 769;

/// The client sends itself a message.
#[derive(Clone, Copy, Debug)]
pub(crate) struct Trial {
    /// After how many tries each of its waits ends.
    pub(crate) tries: u64,
    /// Whether what was decided is printed then.
    pub(crate) audit: bool,
}

/// What is done with the driver and its client.
#[derive(Drop)]
pub(crate) enum Task {
    TryOut(Trial),
    Publish(Publishing),
    Subscribe(Subscribing),
}

/// What is done, for whom, and what beside it.
#[derive(Drop)]
pub(crate) struct Work {
    pub(crate) principal: u32,
    pub(crate) chores: Chores,
    /// For what the driver is there.
    pub(crate) side: Side,
    pub(crate) task: Task,
}

/// Why no client attached.
fn refused(fault: AttachFault) -> Fault {
    match fault {
        AttachFault::NoMemory => Fault::NO_MEMORY,
        AttachFault::Full | AttachFault::Stopped => Fault::NoClient,
    }
}

/// Does the task.
fn perform<N: DriverNaming + Send + Sync + 'static, R: Machine, F: Disk>(
    station: &mut Station<N, R, F>,
    task: &Task,
) -> Result<(), Fault> {
    match task {
        Task::TryOut(Trial { tries, audit }) => {
            try_out(&station.rt, &mut station.client, *tries)?;
            if *audit {
                show_audits(&station.rt, &station.driver, &station.client)?;
            }
            Ok(())
        }
        Task::Publish(asked) => station.publish(asked),
        Task::Subscribe(asked) => station.subscribe(asked),
    }
}

/// A client attaches, and the task is done. Then the driver stops, whatever came of it.
fn attached<N: DriverNaming + Send + Sync + 'static, R: Machine, F: Disk>(
    rt: R,
    files: F,
    driver: OwnDriver<N, R>,
    ties: Ties,
    work: Work,
) -> Result<(), Fault> {
    let mut driver = driver;
    let Work {
        principal,
        chores,
        side,
        task,
    } = work;
    match driver.client(principal) {
        Ok(client) => {
            let causes = Causes::new(side);
            let mut station = Station::new(rt, files, driver, client, ties, causes, chores);
            let done = perform(&mut station, &task);
            let (driver, client) = station.into_parts();
            let mut clients = Vec::new(rt.alloc());
            let _ = clients.push(client);
            driver.stop(clients);
            done
        }
        Err(fault) => {
            driver.stop(Vec::new(rt.alloc()));
            Err(refused(fault))
        }
    }
}

/// A value that several threads have.
fn shared<R: Machine, T: Drop>(rt: &R, value: T) -> Result<Arc<T>, Fault> {
    match Arc::new(rt.alloc(), value) {
        Ok(shared) => Ok(shared),
        Err(_) => Err(Fault::NO_MEMORY),
    }
}

/// What a driver begins with, beside its parts.
#[derive(Drop)]
struct Beginning<R: Machine> {
    wire: Reported<GuardedUdp<R>>,
    clock: MachineClock<R>,
    gate: Waking<R, AtHome>,
}

impl<R: Machine> Beginning<R> {
    /// Sockets of the system, its time, and a gate at which the client is woken.
    fn new(
        rt: R,
        parts: &Parts,
        gate: Gate,
        ties: &Ties,
        naks: Producer<i32, Global>,
    ) -> Result<Beginning<R>, Fault> {
        let wire = gate.around(rt, Udp::new(rt.alloc(), rt, SOCKETS)?);
        let wire = Reported::new(wire, Arc::try_clone(&ties.notes)?, naks);
        let clock = match MachineClock::start(rt) {
            Ok(clock) => clock,
            Err(fault) => return Err(Fault::Start(StartFault::Clock(fault))),
        };
        let bell = Arc::try_clone(&ties.bell)?;
        let inner = Backoff::new(rt, parts.bells()?);
        Ok(Beginning {
            wire,
            clock,
            gate: Waking::new(inner, AtHome { bell }),
        })
    }
}

/// What a driver begins with, and what its client has in common with it.
fn prepared<R: Machine>(rt: R, parts: &Parts, gate: Gate) -> Result<(Beginning<R>, Ties), Fault> {
    let notes = shared(&rt, Notes::new())?;
    let bell = shared(&rt, Parker::new())?;
    let drops = gate.drops()?;
    let (noting, naks) = RingBuffer::new(rt.alloc(), NAKS)?;
    let ties = Ties {
        notes,
        bell,
        drops,
        naks,
    };
    let beginning = Beginning::new(rt, parts, gate, &ties, noting)?;
    Ok((beginning, ties))
}

/// A driver starts from these parts.
fn started<N: DriverNaming + Send + Sync + 'static, R: Machine, F: Disk>(
    rt: R,
    files: F,
    parts: Parts,
    gate: Gate,
    work: Work,
) -> Result<(), Fault>
    requires { AreNamed N.home N.ledger N.parts N.client_ledger N.client_parts N.book parts }
{
    let (beginning, ties) = match prepared(rt, &parts, gate) {
        Ok(prepared) => prepared,
        Err(fault) => {
            parts.end(&rt);
            return Err(fault);
        }
    };
    let Beginning { wire, clock, gate } = beginning;
    let started: Result<OwnDriver<N, R>, _> = Driver::start_gated(
        rt,
        rt.alloc(),
        parts,
        wire,
        clock,
        gate,
    );
    match started {
        Ok(driver) => attached(rt, files, driver, ties, work),
        Err(fault) => Err(Fault::Start(fault)),
    }
}

/// Starts a driver with sockets of the system and one client, and does the work with them.
pub(crate) fn with_client<R: Machine, F: Disk>(
    rt: R,
    files: F,
    settings: Settings,
    policy: Policy,
    bound: Bound,
    work: Work,
) -> Result<(), Fault>
    requires { AreSettings settings }
{
    let Bound { peers, gate } = bound;
    match Parts::make(&rt, rt.alloc(), settings, policy, peers.as_slice()) {
        Ok(parts) => started::<Brand, R, F>(rt, files, parts, gate, work),
        Err(fault) => Err(Fault::Make(fault)),
    }
}
