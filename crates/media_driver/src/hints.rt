//! What clients that offer to a log and clients that poll it let each other know beside its lock, so that a poll takes the lock
//! once there is something for it. It decides nothing: who waits for a hint does so for a bounded time, and then takes the lock
//! and asks the log itself.

use crossbeam_utils::CachePadded;
use log_slots::rest;
use std::alloc::{AllocError, Global};
use std::sync::atomic::{AtomicU64, Ordering};

/// The hint of one log. Each of its words has lines of memory of its own.
#[derive(Debug, Drop)]
pub(crate) struct Hint {
    /// A position that offers got to.
    offered: CachePadded<AtomicU64>,
    /// From which position on a client that polls wants to know of offers: of several clients the last that said so.
    wanted: CachePadded<AtomicU64>,
}

impl Hint {
    fn new() -> Hint {
        Hint {
            offered: CachePadded::new(AtomicU64::new(0)),
            wanted: CachePadded::new(AtomicU64::new(0)),
        }
    }

    /// Offers got to a position. It is written only where it is wanted: else the line stays with who reads it.
    pub(crate) fn offered(&self, position: u64) {
        if self.wanted.load(Ordering::SeqCst) <= position {
            self.offered.store(position, Ordering::SeqCst);
        }
    }

    /// A client that polls wants to know once offers get to a position.
    pub(crate) fn want(&self, position: u64) {
        self.wanted.store(position, Ordering::SeqCst);
    }

    /// Waits until offers got to a position, for so many steps of [`rest`] at most. How many it waited.
    pub(crate) fn wait(&self, position: u64, most: u32) -> u32 {
        for step in 0..most {
            if position <= self.offered.load(Ordering::SeqCst) {
                return step;
            }
            rest(1);
        }
        most
    }

    /// Waits until offers get further than they did, for so many steps at most. Whether they did.
    pub(crate) fn moves(&self, most: u32) -> bool {
        let before = self.offered.load(Ordering::SeqCst);
        for _ in 0..most {
            if self.offered.load(Ordering::SeqCst) != before {
                return true;
            }
            rest(1);
        }
        false
    }
}

/// The hints of all logs of publications, by their slots.
#[derive(Debug, Drop)]
pub(crate) struct Hints {
    slots: Vec<Hint>,
}

impl Hints {
    /// Those of so many slots.
    pub(crate) fn new(alloc: Global, count: u32) -> Result<Hints, AllocError> {
        let mut slots = Vec::with_capacity(alloc, count as usize)?;
        for _ in 0..count {
            slots.push(Hint::new())?;
        }
        Ok(Hints { slots })
    }

    /// That of a slot.
    pub(crate) fn of(&self, slot: u16) -> Option<&Hint> {
        self.slots.get(slot as usize)
    }
}
