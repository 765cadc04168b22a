//! `serve`: a driver whose clients are in other processes.

ghost use Rattle.driver_core.specs.Soundness.{AreSettings};
ghost use Rattle.media_driver.specs.Parts.{AreNamed};

use crate::connecting::Tray;
use crate::denials::Denials;
use crate::fault::Fault;
use crate::files::SharedFiles;
use crate::hosting::{Daemon, Patience};
use crate::looks::Looks;
use crate::rereading::Shelf;
use crate::saying::give_up;
use crate::station::OwnDriver;
use crate::strangers::{Bound, Gate, GuardedUdp, dropped_line};
use crate::waking::{AtDoors, Waking};
use driver_core::Settings;
use guarded_wire::Drops;
use media_driver::{Backoff, Driver, DriverNaming, MachineClock, Parts, StartFault};
use media_wire::Udp;
use mio::Waker;
use policy_core::Policy;
use program_parts::{Disk, Log, Machine};
use service_doors::{Door, Event, Hall, Plan, Serving, close_doors, open_doors};
use std::alloc::Global;
use std::marker::Brand;
use std::sync::{Arc, Mutex};
use std::thread;
use std::time::Duration;

/// How many sockets may be open at once: the send address and an endpoint for each subscription.
const SOCKETS: usize = 513;

/// How many clients may be out at once.
const CLIENTS: usize = 64;

/// How long connections may take to say that the driver stops, in milliseconds.
const PARTING: u64 = 500;

/// What a driver is served by, beside its own parts.
#[derive(Drop)]
struct Desk<'a, N: DriverNaming, R: Machine> {
    hall: Hall<'a, R>,
    tray: Arc<Tray<N, R>>,
}

/// What a daemon was asked to do.
#[derive(Drop)]
pub(crate) struct Work {
    pub(crate) serving: Serving,
    pub(crate) patience: Patience,
    /// The policy's file.
    pub(crate) policy: Arc<Shelf>,
    /// Where is said what happens.
    pub(crate) log: Arc<Log>,
    /// Where is said what was denied.
    pub(crate) denials: Arc<Denials>,
}

/// No client was given back yet.
fn tray<N: DriverNaming, R: Machine>(
    alloc: Global,
    waker: Waker,
    log: Arc<Log>,
) -> Result<Arc<Tray<N, R>>, Fault> {
    let clients = Mutex::new(Vec::with_capacity(alloc, CLIENTS)?);
    let tray = Tray {
        clients,
        waker,
        log,
    };
    match Arc::new(alloc, tray) {
        Ok(tray) => Ok(tray),
        Err(_) => Err(Fault::NO_MEMORY),
    }
}

impl<'a, N: DriverNaming, R: Machine> Desk<'a, N, R> {
    fn new(
        rt: R,
        doors: &'a [Door],
        serving: Serving,
        log: &Arc<Log>,
    ) -> Result<Desk<'a, N, R>, Fault> {
        let hall = Hall::new(rt, doors, serving, Arc::try_clone(log)?)?;
        let tray = tray(rt.alloc(), hall.waker()?, Arc::try_clone(log)?)?;
        Ok(Desk { hall, tray })
    }
}

/// Clients whose connections ended go back to the driver.
fn put_away<N: DriverNaming + Send + Sync + 'static, R: Machine, F: SharedFiles>(
    rt: &R,
    hall: &mut Hall<'_, R>,
    daemon: &mut Daemon<N, R, F>,
) {
    for _ in rt.forever() {
        match daemon.take_back() {
            Some(returned) => hall.returned(returned),
            None => return,
        }
    }
    unreachable!()
}

/// Does what an event at the doors asks for. Whether the driver goes on.
fn happen<N: DriverNaming + Send + Sync + 'static, R: Machine, F: SharedFiles>(
    hall: &mut Hall<'_, R>,
    daemon: &mut Daemon<N, R, F>,
    event: Event<R>,
) -> bool {
    match event {
        Event::Enters(entering, told) => {
            let principal = entering.principal;
            let begun = daemon.begin(entering);
            hall.begun(principal, told, begun);
        }
        Event::Asks(operator) => {
            if let Some((refused, came)) = daemon.ask(Some(operator)) {
                hall.tell_reload(refused, &came);
            }
        }
        Event::Reads(operator, from, choice) => match daemon.decided(from, choice) {
            Ok(decided) => hall.tell_decided(operator, Some(&decided)),
            Err(_) => hall.tell_decided(operator, None),
        },
        Event::Due => {
            let _ = daemon.ask(None);
        }
        Event::Quiet => hall.rest(),
        Event::Stops => return false,
    }
    true
}

/// What was found in the policy's file is put in force, if it was read again, and whoever asked for that is told.
fn put_in_force<N: DriverNaming + Send + Sync + 'static, R: Machine, F: SharedFiles>(
    hall: &Hall<'_, R>,
    daemon: &mut Daemon<N, R, F>,
) {
    if let Some((asked, came)) = daemon.reread() {
        hall.note_reload(&came);
        for operator in asked {
            hall.tell_reload(operator, &came);
        }
    }
}

/// Serves until the driver is to stop.
fn serve_on<N: DriverNaming + Send + Sync + 'static, R: Machine, F: SharedFiles>(
    rt: &R,
    hall: &mut Hall<'_, R>,
    daemon: &mut Daemon<N, R, F>,
) {
    for _ in rt.forever() {
        put_away(rt, hall, daemon);
        put_in_force(hall, daemon);
        daemon.look_in_time();
        let event = hall.next();
        if !happen(hall, daemon, event) {
            return;
        }
    }
    unreachable!()
}

/// All connections end, each with a word to its client, and their clients go back to the driver.
fn part<N: DriverNaming + Send + Sync + 'static, R: Machine, F: SharedFiles>(
    rt: &R,
    hall: Hall<'_, R>,
    daemon: &mut Daemon<N, R, F>,
) {
    let mut hall = hall;
    hall.part();
    for _milliseconds in 0..PARTING {
        put_away(rt, &mut hall, daemon);
        if !hall.has_guests() {
            break;
        }
        thread::sleep(rt, Duration::from_millis(1));
    }
    hall.cut_off();
    for _ in rt.forever() {
        if daemon.take_back().is_none() {
            return;
        }
    }
    unreachable!()
}

/// Serves with a driver that runs, until it is told to stop. Then all connections end, and the driver stops.
fn with_driver<N: DriverNaming + Send + Sync + 'static, R: Machine, F: Disk + SharedFiles>(
    rt: R,
    files: F,
    driver: OwnDriver<N, R>,
    desk: Desk<'_, N, R>,
    patience: Patience,
    policy: Arc<Shelf>,
    log: &Arc<Log>,
    denials: Arc<Denials>,
) {
    let Desk { mut hall, tray } = desk;
    let looks = Looks::new(denials);
    let mut daemon = Daemon::new(rt, files, driver, tray, patience, policy, looks);
    if let Some(each) = hall.part_descriptors(&files) {
        let few = format!(in rt.alloc(); "few descriptors: {each} clients of each door at most");
        log.say(&rt, few);
    }
    log.say(&rt, String::from_str(rt.alloc(), "serving"));
    serve_on(&rt, &mut hall, &mut daemon);
    part(&rt, hall, &mut daemon);
    daemon.look_last();
    let stopped = match daemon.into_driver().stop(Vec::new(rt.alloc())) {
        Some(messages) => format!(in rt.alloc(); "stopped after {messages} messages"),
        None => String::from_str(rt.alloc(), "stopped"),
    };
    log.say(&rt, stopped);
}

/// What a driver begins with, beside its parts.
#[derive(Drop)]
struct Beginning<R: Machine> {
    wire: GuardedUdp<R>,
    clock: MachineClock<R>,
    gate: Waking<R, AtDoors<R>>,
}

impl<R: Machine> Beginning<R> {
    /// Sockets of the system, its time, and a gate at which who sleeps at the doors is woken.
    fn new(rt: R, parts: &Parts, gate: Gate, hall: &Hall<'_, R>) -> Result<Beginning<R>, Fault> {
        let clock = match MachineClock::start(rt) {
            Ok(clock) => clock,
            Err(fault) => return Err(Fault::Start(StartFault::Clock(fault))),
        };
        let bells = hall.bells()?;
        let inner = Backoff::new(rt, parts.bells()?);
        let wire = Udp::new(rt.alloc(), rt, SOCKETS)?;
        Ok(Beginning {
            wire: gate.around(rt, wire),
            clock,
            gate: Waking::new(inner, AtDoors { rt, bells }),
        })
    }
}

/// What a driver is served by, and what it begins with.
fn prepared<'a, N: DriverNaming, R: Machine>(
    rt: R,
    parts: &Parts,
    gate: Gate,
    doors: &'a [Door],
    serving: Serving,
    log: &Arc<Log>,
) -> Result<(Desk<'a, N, R>, Beginning<R>), Fault> {
    let desk = Desk::new(rt, doors, serving, log)?;
    let beginning = Beginning::new(rt, parts, gate, &desk.hall)?;
    Ok((desk, beginning))
}

/// A driver starts from these parts, and serves.
fn started<N: DriverNaming + Send + Sync + 'static, R: Machine, F: Disk + SharedFiles>(
    rt: R,
    files: F,
    parts: Parts,
    gate: Gate,
    doors: &[Door],
    work: Work,
) -> Result<(), Fault>
    requires { AreNamed N.home N.ledger N.parts N.client_ledger N.client_parts N.book parts }
{
    let Work {
        serving,
        patience,
        policy,
        log,
        denials,
    } = work;
    let (desk, beginning) = match prepared::<N, R>(rt, &parts, gate, doors, serving, &log) {
        Ok(prepared) => prepared,
        Err(fault) => {
            parts.end(&rt);
            return Err(fault);
        }
    };
    let Beginning { wire, clock, gate } = beginning;
    let started: Result<OwnDriver<N, R>, _> = Driver::start_gated(
        rt,
        rt.alloc(),
        parts,
        wire,
        clock,
        gate,
    );
    match started {
        Ok(driver) => {
            with_driver(rt, files, driver, desk, patience, policy, &log, denials);
            Ok(())
        }
        Err(fault) => Err(Fault::Start(fault)),
    }
}

/// Starts a driver behind open doors, and serves.
fn serve_behind<R: Machine, F: Disk + SharedFiles>(
    rt: R,
    files: F,
    doors: &[Door],
    settings: Settings,
    policy: Policy,
    bound: Bound,
    work: Work,
) -> Result<(), Fault>
    requires { AreSettings settings }
{
    let Bound { peers, gate } = bound;
    match Parts::make(&rt, rt.alloc(), settings, policy, peers.as_slice()) {
        Ok(parts) => started::<Brand, R, F>(rt, files, parts, gate, doors, work),
        Err(fault) => Err(Fault::Make(fault)),
    }
}

/// Says how many datagrams were dropped as they came, if any were.
fn say_dropped<R: Machine>(rt: &R, log: &Arc<Log>, drops: &Arc<Drops>) {
    match dropped_line(rt.alloc(), drops) {
        Ok(None) => {}
        Ok(Some(line)) => log.say(rt, Ok(line)),
        Err(fault) => log.say(rt, Err(fault)),
    }
}

/// Opens doors in a folder, starts a driver, and serves until it is told to stop. `mode` is that of a socket that is named by
/// its path.
pub(crate) fn serve_clients<R: Machine, F: Disk + SharedFiles>(
    rt: R,
    files: F,
    folder: &str,
    plans: &[Plan<'_>],
    mode: u32,
    settings: Settings,
    policy: Policy,
    bound: Bound,
    work: Work,
) -> Result<(), Fault>
    requires { AreSettings settings }
{
    let doors = match open_doors(&files, folder, plans, mode) {
        Ok(doors) => doors,
        Err(refusal) => {
            work.log.close(&rt);
            return Err(give_up(&rt, &refusal));
        }
    };
    let log = Arc::try_clone(&work.log);
    let drops = bound.gate.drops();
    let served = serve_behind(rt, files, doors.as_slice(), settings, policy, bound, work);
    close_doors(&files, doors.as_slice());
    if let Ok(log) = log {
        if let Ok(drops) = drops {
            say_dropped(&rt, &log, &drops);
        }
        log.close(&rt);
    }
    served
}
