//! What runs on each of a driver's three threads: turns, one after another, until the driver stops.

use log_slots::Naming;
use media_agents::{
    Clock, Conductor, DeskAnswers, DriverNaming, Gate, ReceiverAgent, SenderAgent, Steps,
};
use media_wire::Wire;
use std::sync::atomic::{AtomicBool, Ordering};
use std::sync::{Arc, Wait};

/// What a thread does again and again.
pub(crate) trait Turns {
    /// One turn, at the moment `now` in nanoseconds.
    fn turn<R: Wait>(&mut self, rt: &R, now: u64);
}

/// A thread's work: turns, until the driver stops.
#[derive(Drop)]
pub(crate) struct Work<T: Turns + Drop, C: Clock + Drop> {
    pub(crate) turns: T,
    pub(crate) clock: C,
    /// Whether the thread is to end.
    pub(crate) stop: Arc<AtomicBool>,
}

impl<T: Turns + Drop, C: Clock + Drop> Work<T, C> {
    /// Returns once the driver stops.
    pub(crate) fn run<R: Wait>(self, rt: &R) {
        let mut work = self;
        for _ in rt.forever() {
            if work.stop.load(Ordering::SeqCst) {
                return;
            }
            let now = work.clock.now();
            work.turns.turn(rt, now);
        }
        unreachable!()
    }
}

/// The conductor. However its thread ends, the driver's logs close, and nobody gets a look at its registry any more.
pub(crate) struct Conducting<N: DriverNaming, R: Wait + Drop, G: Gate + Drop> {
    pub(crate) rt: R,
    pub(crate) conductor: Conductor<N, Steps<N>, DeskAnswers<N>, Steps<N>, G>,
}

impl<N: DriverNaming, R: Wait + Drop, G: Gate + Drop> Drop for Conducting<N, R, G> {
    fn drop(self) {
        let Self { rt, conductor } = self;
        drop(conductor.end(&rt));
    }
}

impl<N: DriverNaming, R: Wait + Drop, G: Gate + Drop> Turns for Conducting<N, R, G> {
    fn turn<Q: Wait>(&mut self, rt: &Q, now: u64) {
        self.conductor.turn(rt, now);
    }
}

/// The sender, with the wire that it sends by.
#[derive(Drop)]
pub(crate) struct Sending<N: Naming, G: Gate + Drop, W: Wire + Drop> {
    pub(crate) agent: SenderAgent<Steps<N>, G>,
    pub(crate) wire: W,
}

impl<N: Naming, G: Gate + Drop, W: Wire + Drop> Turns for Sending<N, G, W> {
    fn turn<R: Wait>(&mut self, rt: &R, now: u64) {
        self.agent.turn(rt, &mut self.wire, now);
    }
}

/// The receiver, with the wire that it reads by.
#[derive(Drop)]
pub(crate) struct Receiving<N: Naming, G: Gate + Drop, W: Wire + Drop> {
    pub(crate) agent: ReceiverAgent<Steps<N>, G>,
    pub(crate) wire: W,
}

impl<N: Naming, G: Gate + Drop, W: Wire + Drop> Turns for Receiving<N, G, W> {
    fn turn<R: Wait>(&mut self, rt: &R, now: u64) {
        self.agent.turn(rt, &mut self.wire, now);
    }
}
