//! The gate of a driver whose clients sleep until something may have come for them.

use media_driver::{Agent, Backoff, Gate, Turn};
use program_parts::Machine;
use service_doors::Bells;
use std::sync::Arc;
use std::thread::Parker;

/// Whom a driver wakes.
pub(crate) trait Sleepers {
    /// Something may have come.
    fn wake(&self);

    /// An agent that carries messages has something to do.
    fn agent_works(&self);
}

/// Those who sleep at the doors of a driver that serves.
#[derive(Drop)]
pub(crate) struct AtDoors<R: Machine> {
    pub(crate) rt: R,
    pub(crate) bells: Arc<Bells>,
}

impl<R: Machine> Sleepers for AtDoors<R> {
    fn wake(&self) {
        self.bells.ring(&self.rt);
    }

    fn agent_works(&self) {
        self.bells.agent_works(&self.rt);
    }
}

/// The one client of a driver in its own process.
#[derive(Drop)]
pub(crate) struct AtHome {
    pub(crate) bell: Arc<Parker>,
}

impl Sleepers for AtHome {
    fn wake(&self) {
        self.bell.unpark();
    }

    fn agent_works(&self) {}
}

/// Each agent passes as those of any driver that runs. Who sleeps is woken once the conductor took events, to which it may have
/// replied, or the receiver took datagrams that may have messages.
#[derive(Drop)]
pub(crate) struct Waking<R: Machine, S: Sleepers + Drop> {
    inner: Backoff<R>,
    sleepers: S,
}

impl<R: Machine, S: Sleepers + Drop> Waking<R, S> {
    pub(crate) fn new(inner: Backoff<R>, sleepers: S) -> Waking<R, S> {
        Waking { inner, sleepers }
    }
}

impl<R: Machine, S: Sleepers + Drop> Gate for Waking<R, S> {
    fn pass(&self, agent: Agent, turn: Turn, sockets: &[i32]) {
        if turn.idle == 0 && agent != Agent::Sender {
            self.sleepers.wake();
        }
        if turn.idle == 0 && agent != Agent::Conductor {
            self.sleepers.agent_works();
        }
        self.inner.pass(agent, turn, sockets);
    }
}
