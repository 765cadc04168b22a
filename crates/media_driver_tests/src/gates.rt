// Gates of the tests.
use crate::asking::{Outcome, TRIES};
use media_agents::{Agent, Backoff, Bells, Gate, Turn};
use std::sync::atomic::{AtomicBool, AtomicU64, Ordering};
use std::sync::{Arc, Wait};
use std::{thread, time};

/// Counts the conductor's turns, and lets each agent pass as a driver does that runs.
#[derive(Drop)]
pub(crate) struct Counting<C> {
    turns: Arc<AtomicU64>,
    inner: Backoff<C>,
}

impl<C> Counting<C> {
    pub(crate) fn new(rt: C, bells: Arc<Bells>, turns: Arc<AtomicU64>) -> Counting<C> {
        Counting {
            turns,
            inner: Backoff::new(rt, bells),
        }
    }
}

impl<C: time::Clock + Wait> Gate for Counting<C> {
    fn pass(&self, agent: Agent, turn: Turn, sockets: &[i32]) {
        if agent == Agent::Conductor {
            self.turns.store(turn.number, Ordering::SeqCst);
        }
        self.inner.pass(agent, turn, sockets);
    }
}

/// What becomes of a sender that is held up.
#[derive(Drop)]
pub(crate) struct Held {
    /// It stands at the gate.
    pub(crate) came: AtomicBool,
    /// It may pass.
    pub(crate) released: AtomicBool,
    /// It passed before it might.
    pub(crate) gave_up: AtomicBool,
}

impl Held {
    pub(crate) fn new() -> Held {
        Held {
            came: AtomicBool::new(false),
            released: AtomicBool::new(false),
            gave_up: AtomicBool::new(false),
        }
    }
}

/// Holds the sender up until it is released, or so many tries were made.
#[derive(Drop)]
pub(crate) struct Holding {
    pub(crate) sender: Arc<Held>,
}

impl Gate for Holding {
    fn pass(&self, agent: Agent, _turn: Turn, _sockets: &[i32]) {
        if agent != Agent::Sender {
            return;
        }
        self.sender.came.store(true, Ordering::SeqCst);
        for _ in 0..TRIES {
            if self.sender.released.load(Ordering::SeqCst) {
                return;
            }
            thread::yield_now();
        }
        self.sender.gave_up.store(true, Ordering::SeqCst);
    }
}

/// Whether the conductor is to stand at the gate, and what becomes of it then.
#[derive(Drop)]
pub(crate) struct Halt {
    wanted: AtomicBool,
    stands: AtomicBool,
    gave_up: AtomicBool,
}

impl Halt {
    pub(crate) fn new() -> Halt {
        Halt {
            wanted: AtomicBool::new(false),
            stands: AtomicBool::new(false),
            gave_up: AtomicBool::new(false),
        }
    }

    /// The conductor comes to the gate, and stands there for as long as it is to, or so many tries.
    fn come(&self) {
        for _ in 0..TRIES {
            if !self.wanted.load(Ordering::SeqCst) {
                self.stands.store(false, Ordering::SeqCst);
                return;
            }
            self.stands.store(true, Ordering::SeqCst);
            thread::yield_now();
        }
        self.gave_up.store(true, Ordering::SeqCst);
    }

    /// Waits until the conductor stands, or does not.
    fn waits_for(&self, stands: bool) -> Outcome {
        for _ in 0..TRIES {
            if self.stands.load(Ordering::SeqCst) == stands {
                return Ok(());
            }
            thread::yield_now();
        }
        Err("the conductor does not come to the gate, or does not leave it")
    }

    /// From now on the conductor stands at the gate.
    pub(crate) fn begin(&self) -> Outcome {
        self.wanted.store(true, Ordering::SeqCst);
        self.waits_for(true)
    }

    /// The conductor goes on. It has to have stood until now.
    pub(crate) fn end(&self) -> Outcome {
        self.wanted.store(false, Ordering::SeqCst);
        self.waits_for(false)?;
        if self.gave_up.load(Ordering::SeqCst) {
            return Err("the conductor was not held up until then");
        }
        Ok(())
    }
}

/// Holds the conductor up whenever it is to stand, and lets each agent pass as a driver does that runs.
#[derive(Drop)]
pub(crate) struct Halting<C> {
    conductor: Arc<Halt>,
    inner: Backoff<C>,
}

impl<C> Halting<C> {
    pub(crate) fn new(rt: C, bells: Arc<Bells>, conductor: Arc<Halt>) -> Halting<C> {
        Halting {
            conductor,
            inner: Backoff::new(rt, bells),
        }
    }
}

impl<C: time::Clock + Wait> Gate for Halting<C> {
    fn pass(&self, agent: Agent, turn: Turn, sockets: &[i32]) {
        if agent == Agent::Conductor {
            self.conductor.come();
        }
        self.inner.pass(agent, turn, sockets);
    }
}
