//! A driver that runs.

ghost use Rattle.media_driver.specs.Parts.{AreNamed};
ghost use Rattle.published_registry.specs.Histories.{registry_of};
ghost use Rattle.driver_core.specs.Soundness.{IsSound};
ghost use Rattle.std.specs.Prelude.{◌≡◌, ◌*◌, ◌^◌, [], IfOk};

use crate::clock::MachineClock;
use crate::faults::StartFault;
use crate::parts::Parts;
use crate::preparing::{Agents, Desks, Kept, Prepared, Ready, prepare};
use crate::starting::Common;
use crate::threads::{Running, begin};
use crate::works::{Conducting, Turns, Work};
use log_slots::Region;
use media_agents::{Backoff, Clock, Conductor, DeskAnswers, DriverNaming, Gate, Steps, Works};
use media_wire::Wire;
use published_registry::Publisher;
use std::alloc::Global;
use std::marker::Model;
use std::sync::Wait;
use std::thread::Threads;
use std::time;

/// A driver that runs, on three threads of its own. It can't be let go: [`Driver::stop`] ends it.
pub struct Driver<N: DriverNaming, R: Threads + Wait, C: Clock> {
    pub(crate) rt: R,
    pub(crate) clock: C,
    pub(crate) alloc: Global,
    pub(crate) running: Running,
    pub(crate) kept: Kept<N>,
    /// How many clients are out.
    pub(crate) out: u64,
}

impl<N: DriverNaming, R: Threads + Wait, C: Clock> Model for Driver<N, R, C> {
    ghost use Rattle.media_driver.specs.Parts.{DriverState};
    ghost use Rattle.std.specs.Prelude.{◌≡◌, ◌+◌, ◌*◌, ◌^◌};

    ghost Value = { DriverState };

    ghost view = { λ driver. record { out = driver.out; counted = driver.kept.ledger.counted.number; queue = driver.kept.queue; elicited = driver.kept.elicitations } };

    ghost invariant = { λ driver. (driver.kept.ledger.clients.parts + driver.out ≡ 65) × (N.client_parts ≡ 65) × (driver.kept.seats + driver.out ≡ 64)
        × (driver.kept.ledger.counted.parts + driver.out ≡ 65)
        × (driver.kept.ledger.total.amount ≡ 256 * 2 ^ 55) × (driver.kept.ledger.total.parts ≡ 321) };
}

/// The conductor, before its first turn.
fn make_conductor<N: DriverNaming, R: Wait + Copy + Drop, G: Gate + Drop>(
    rt: R,
    alloc: Global,
    publisher: Publisher,
    desks: Desks<N, G>,
) -> Ready<Conducting<N, R, G>>
    requires ours { publisher.book ≡ N.book }
    requires sound { IsSound (registry_of publisher) }
    requires home { desks.arena.home ≡ N.home }
{
    let Desks {
        common,
        notes,
        rings,
        room,
        gate,
        arena,
        taker,
    } = desks;
    let Common { slots, desk, stop } = common;
    let works = Works::new(
        publisher,
        rings,
        DeskAnswers::new(desk),
        Region::new(arena),
        Steps::new(slots),
        notes,
        room,
        alloc,
    );
    let conductor = Conductor::new(taker, works, gate);
    Ready {
        turns: Conducting { rt, conductor },
        stop,
    }
}

/// What takes turns gets a clock.
fn timed<T: Turns + Drop, C: Clock + Drop>(ready: Ready<T>, clock: C) -> Work<T, C> {
    let Ready { turns, stop } = ready;
    Work { turns, clock, stop }
}

impl<
    N: DriverNaming + Send + Sync + 'static,
    R: Threads + Wait + time::Clock + Copy + Drop + Send + Sync + 'static,
> Driver<N, R, MachineClock<R>> {
    /// Starts a driver. The machine's time is read this once: from here on the driver's moments go on by a clock that nobody
    /// sets. An agent that has nothing to do spins at first, then yields, and then sleeps, as [`Backoff`] says.
    ///
    /// # Errors
    /// `Clock` where the machine's time is not known; else as [`Driver::start_gated`]. The parts are let go then, and no thread
    /// is left.
    pub fn start<W: Wire + Drop + Send + 'static>(
        rt: R,
        alloc: Global,
        parts: Parts,
        wire: W,
    ) -> Result<Driver<N, R, MachineClock<R>>, StartFault>
        requires { AreNamed N.home N.ledger N.parts N.client_ledger N.client_parts N.book parts }
        ensures { IfOk result (λ driver. (driver.out ≡ 0) × (driver.counted ≡ 0) × (driver.queue.sent ≡ []) × (driver.elicited ≡ [])) }
    {
        let clock = match MachineClock::start(rt) {
            Ok(clock) => clock,
            Err(fault) => {
                drop(parts.end(&rt));
                return Err(StartFault::Clock(fault));
            }
        };
        match parts.bells() {
            Ok(bells) => {
                let gate = Backoff::new(rt, bells);
                Driver::start_gated(rt, alloc, parts, wire, clock, gate)
            }
            Err(_) => {
                drop(parts.end(&rt));
                Err(StartFault::NoMemory)
            }
        }
    }
}

impl<
    N: DriverNaming + Send + Sync + 'static,
    R: Threads + Wait + Copy + Drop + Send + Sync + 'static,
    C: Clock + Copy + Drop + Send + 'static,
> Driver<N, R, C> {
    /// Starts a driver whose moments are those of that clock, and whose agents pass that gate before each turn.
    ///
    /// # Errors
    /// `NoMemory`, or `NoThread` where the system makes no thread. The parts are let go then, and no thread is left.
    pub fn start_gated<W: Wire + Drop + Send + 'static, G: Gate + Drop + Send + Sync + 'static>(
        rt: R,
        alloc: Global,
        parts: Parts,
        wire: W,
        clock: C,
        gate: G,
    ) -> Result<Driver<N, R, C>, StartFault>
        requires { AreNamed N.home N.ledger N.parts N.client_ledger N.client_parts N.book parts }
        ensures { IfOk result (λ driver. (driver.out ≡ 0) × (driver.counted ≡ 0) × (driver.queue.sent ≡ []) × (driver.elicited ≡ [])) }
    {
        let Parts { publisher, pieces } = parts;
        match prepare(rt, alloc, pieces, gate, wire) {
            Ok(prepared) => Driver::run(rt, alloc, clock, publisher, prepared),
            Err(_) => {
                drop(publisher.end(&rt));
                Err(StartFault::NoMemory)
            }
        }
    }

    /// Once all memory is taken, the threads begin.
    fn run<W: Wire + Drop + Send + 'static, G: Gate + Drop + Send + Sync + 'static>(
        rt: R,
        alloc: Global,
        clock: C,
        publisher: Publisher,
        prepared: Prepared<N, G, Agents<N, G, W>>,
    ) -> Result<Driver<N, R, C>, StartFault>
        requires ours { publisher.book ≡ N.book }
        requires sound { IsSound (registry_of publisher) }
        requires home { prepared.desks.arena.home ≡ N.home }
        requires counted { prepared.kept.ledger.counted ≡ record { parts = 65; number = 0 } }
        requires clients { (N.client_parts ≡ 65) × (prepared.kept.ledger.clients.parts ≡ 65) }
        requires total { (prepared.kept.ledger.total.amount ≡ 256 * 2 ^ 55) × (prepared.kept.ledger.total.parts ≡ 321) }
        requires queue { prepared.kept.queue.sent ≡ [] }
        requires elicited { prepared.kept.elicitations ≡ [] }
        requires seats { prepared.kept.seats ≡ 64 }
        ensures { IfOk result (λ driver. (driver.out ≡ 0) × (driver.counted ≡ 0) × (driver.queue.sent ≡ []) × (driver.elicited ≡ [])) }
    {
        let Prepared {
            kept,
            desks,
            agents,
        } = prepared;
        let Agents { sender, receiver } = agents;
        let conductor = make_conductor(rt, alloc, publisher, desks);
        let running = begin(
            rt,
            &kept.common.stop,
            timed(conductor, clock),
            timed(sender, clock),
            timed(receiver, clock),
        )?;
        Ok(Driver {
            rt,
            clock,
            alloc,
            running,
            kept,
            out: 0,
        })
    }

    /// The moment by the driver's clock, in nanoseconds since 1970.
    pub fn now(&self) -> u64 {
        self.clock.now()
    }
}
